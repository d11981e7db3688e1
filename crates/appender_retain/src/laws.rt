//! Laws of the log files in a folder. A caller cites a law by a call: the function does nothing, and its contract
//! is the law.
ghost use Rattle.std.specs.Prelude.{◌≡◌, true};
ghost use Rattle.appender_names.specs.Name.{Naming};
ghost use Rattle.appender_retain.specs.Rank.{LogFiles};
ghost use Rattle.appender_retain.specs.Survival.{OpeningsAddOne, LinksAddNone, NamesAreKept, SurvivorsStay, KeysRise};

use appender_store::laws::names_change_one_at_a_time;

/// One file more is at most one candidate more.
pub fn openings_add_one()
    ensures { (log : LogFiles) → OpeningsAddOne log }
{
    names_change_one_at_a_time();
}

/// A link is no candidate.
pub fn links_add_none()
    ensures { (log : LogFiles) → LinksAddNone log }
{
    names_change_one_at_a_time();
}

/// By name, the file that is opened next is not removed, nor is a later one, nor one whose name is not that of a log file.
pub fn names_are_spared()
    ensures { (log : LogFiles) → log.by_name ≡ true → NamesAreKept log }
{}

/// By name, neither the file that is opened next nor a link changes which names survive.
pub fn survivors_stay()
    ensures { (log : LogFiles) → log.by_name ≡ true → SurvivorsStay log }
{
    names_change_one_at_a_time();
}

/// By name, log files rank by period, and in one period by number.
pub fn keys_rise()
    ensures { (n : Naming) → KeysRise n }
{}
