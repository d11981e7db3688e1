//! When log files rotate, as the documentation of the crate tracing-appender says. A moment is in whole seconds
//! of UTC since 1970-01-01 00:00:00, with days of 86,400 seconds.
ghost use Rattle.std.specs.Prelude.{◌≡◌, ◌≢◌, ◌↔◌, negsuc, ◌≤ℤ◌, IsTrue, IsNone, IfSome};
ghost use Rattle.appender_names.specs.RotationText.{ParsesRotation};
ghost use Rattle.appender_names.specs.Rotation.{IsMoment, IsNever, IsGreatestBoundary, IsNextBoundary, step_of, period_of, next_of, is_in_period};

use std::str::FromStr;
use thiserror::Error;

/// How often a new log file is opened. Its boundaries are whole minutes, hours, days or weeks of UTC.
#[derive(Clone, Copy, Debug, PartialEq, Eq)]
pub struct Rotation {
    kind: RotationKind,
}

/// The five rotations, as contracts name them.
#[derive(Clone, Copy, Debug, PartialEq, Eq)]
pub enum RotationKind {
    Minutely,
    Hourly,
    Daily,
    Weekly,
    Never,
}

// 0001-01-01 00:00:00, a Monday.
const FIRST: i64 = -62_135_596_800;

// 9998-12-31 23:59:59.
const LAST: i64 = 253_370_764_799;

// Seconds from the Sunday before the first moment to 1970-01-01. Each kind's boundaries are whole steps after
// that Sunday.
const BEFORE: i64 = 62_135_683_200;

impl RotationKind {
    // Returns the seconds from a boundary to the next.
    fn step(self) -> u64
        ensures step { result ≡ step_of self }
    {
        match self {
            RotationKind::Minutely => 60,
            RotationKind::Hourly => 3_600,
            RotationKind::Daily => 86_400,
            RotationKind::Weekly => 604_800,
            RotationKind::Never => 0,
        }
    }
}

impl Rotation {
    /// A new file each minute.
    pub const MINUTELY: Rotation = Rotation {
        kind: RotationKind::Minutely,
    };

    /// A new file each hour.
    pub const HOURLY: Rotation = Rotation {
        kind: RotationKind::Hourly,
    };

    /// A new file each day at 00:00:00.
    pub const DAILY: Rotation = Rotation {
        kind: RotationKind::Daily,
    };

    /// A new file each Sunday at 00:00:00.
    pub const WEEKLY: Rotation = Rotation {
        kind: RotationKind::Weekly,
    };

    /// One file for all time.
    pub const NEVER: Rotation = Rotation {
        kind: RotationKind::Never,
    };

    /// Returns whether this is `NEVER`, which has no boundaries.
    pub fn is_never(&self) -> bool
        ensures { IsTrue result ↔ IsNever self.now }
    {
        self.kind == RotationKind::Never
    }

    pub(crate) fn kind(&self) -> RotationKind
        ensures { result ≡ self.now.kind }
    {
        self.kind
    }

    /// Returns the start of the period that contains a moment: the greatest boundary that is not after the moment.
    ///
    /// Both are in seconds of UTC since the epoch. The moment must be in the range of `in_range`, and the rotation must
    /// not be `NEVER`. The first week starts a day before that range, on a Sunday.
    pub fn round_date(&self, moment: i64) -> i64
        requires rotates { ¬ (IsNever self.now) }
        requires moment { IsMoment moment }
        ensures value { period_of self.now moment ≡ Some result }
        ensures boundary { IsGreatestBoundary self.now moment result }
        ensures first { negsuc 62135683199 ≤ℤ result }
    {
        let step = self.kind.step();
        let since = (moment + BEFORE) as u64;
        (since - since % step) as i64 - BEFORE
    }

    /// Returns the start of the next period, in seconds: the least boundary after the moment. `None` under `NEVER`.
    pub fn next_date(&self, moment: i64) -> Option<i64>
        requires moment { IsMoment moment }
        ensures value { result ≡ next_of self.now moment }
        ensures none { IsNone result ↔ IsNever self.now }
        ensures boundary { IfSome result (IsNextBoundary self.now moment) }
    {
        if self.is_never() {
            return None;
        }
        Some(self.next_start(moment))
    }

    /// Returns whether a second is in the moment's period. The second may be out of range.
    pub fn is_in_period(&self, moment: i64, second: i64) -> bool
        requires { IsMoment moment }
        ensures { result ≡ is_in_period self.now moment second }
    {
        self.is_never() || self.is_between(moment, second)
    }

    // The same, if periods have a start.
    fn is_between(&self, moment: i64, second: i64) -> bool
        requires rotates { ¬ (IsNever self.now) }
        requires moment { IsMoment moment }
        ensures { result ≡ is_in_period self.now moment second }
    {
        self.round_date(moment) <= second && second < self.next_start(moment)
    }

    // Returns the start of the next period.
    fn next_start(&self, moment: i64) -> i64
        requires rotates { ¬ (IsNever self.now) }
        requires moment { IsMoment moment }
        ensures value { next_of self.now moment ≡ Some result }
        ensures boundary { IsNextBoundary self.now moment result }
    {
        self.round_date(moment) + self.kind.step() as i64
    }
}

/// Reads `minutely`, `hourly`, `daily`, `weekly` or `never`.
impl FromStr for Rotation {
    type Err = ParseRotationError;

    ghost from_str_gives = { ParsesRotation };

    fn from_str(text: &str) -> Result<Rotation, ParseRotationError> {
        match text {
            "minutely" => Ok(Rotation::MINUTELY),
            "hourly" => Ok(Rotation::HOURLY),
            "daily" => Ok(Rotation::DAILY),
            "weekly" => Ok(Rotation::WEEKLY),
            "never" => Ok(Rotation::NEVER),
            _ => Err(ParseRotationError),
        }
    }
}

/// A text is not the word for a rotation.
#[derive(Clone, Copy, Debug, PartialEq, Eq, Error)]
#[error("unknown rotation")]
pub struct ParseRotationError;

/// Returns whether a moment is in the range from 0001-01-01 00:00:00 to 9998-12-31 23:59:59 UTC, both included. Each of
/// these moments has a name.
pub fn in_range(moment: i64) -> bool
    ensures { IsTrue result ↔ IsMoment moment }
{
    FIRST <= moment && moment <= LAST
}
