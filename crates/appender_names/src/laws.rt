//! Laws of all rotations and all names. A caller cites a law by a call: the function does nothing, and its
//! contract is the law.
ghost use Rattle.std.specs.Prelude.{◌≡◌, ◌↔◌, IsTrue};
ghost use Rattle.appender_names.specs.declared.rotation.Rotation.{Rotation};
ghost use Rattle.appender_names.specs.declared.rotation.RotationKind.TheVariants.{Minutely, Hourly, Daily, Weekly};
ghost use Rattle.appender_names.specs.Equality.{rotation_eq};
ghost use Rattle.appender_names.specs.Name.{Naming, NamesRise, NamesArePeriods, NamesReadAsStarts, NamesReadOnce, NamesAreEntries};
ghost use Rattle.appender_names.specs.Rotation.{IsRotation, IsNever, StartsOwnPeriod, PeriodsBeginAtBoundaries, PeriodsEndAtBoundaries};

use crate::rotation::Rotation;

/// The meaning of each constant: its kind, and which seconds are its boundaries, by their remainder when divided
/// by its step. Weeks begin on Sunday, as 1970-01-04 is.
pub fn constants_have_their_boundaries()
    ensures minutely { IsRotation Rotation.MINUTELY Minutely 60 0 }
    ensures hourly { IsRotation Rotation.HOURLY Hourly 3600 0 }
    ensures daily { IsRotation Rotation.DAILY Daily 86400 0 }
    ensures weekly { IsRotation Rotation.WEEKLY Weekly 604800 259200 }
    ensures never { IsNever Rotation.NEVER }
{}

/// Rotations are equal by `==` exactly if they are the same rotation.
pub fn equal_rotations_are_the_same()
    ensures { (r s : Rotation) → IsTrue (rotation_eq r s) ↔ (r ≡ s) }
{}

/// The start of a period is in that period, so that rounding twice is rounding once.
pub fn periods_start_themselves()
    ensures { (r : Rotation) → StartsOwnPeriod r }
{}

/// A period reaches from the greatest boundary not after its moments to the least one after them.
pub fn periods_lie_between_boundaries()
    ensures begin { (r : Rotation) → PeriodsBeginAtBoundaries r }
    ensures end { (r : Rotation) → PeriodsEndAtBoundaries r }
{}

/// Later periods have names that are greater byte by byte, and so have greater numbers in one period.
pub fn names_rise()
    ensures { (n : Naming) → NamesRise n }
{}

/// Under each rotation but `NEVER`, which has no boundaries, moments share a name exactly if they share a period
/// and have one number.
pub fn names_are_periods()
    ensures { (n : Naming) → NamesArePeriods n }
{}

/// The name of a period reads as the period's start, with its number.
pub fn names_read_as_starts()
    ensures { (n : Naming) → NamesReadAsStarts n }
{}

/// A name reads as one second and one number at most.
pub fn names_read_once()
    ensures { (n : Naming) → NamesReadOnce n }
{}

/// Each name is a single path component.
pub fn names_are_entries()
    ensures { (n : Naming) → NamesAreEntries n }
{}
