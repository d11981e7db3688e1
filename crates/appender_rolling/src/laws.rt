//! What holds of all openings of log files. A caller cites a law by a call: the function does
//! nothing, and its contract is the law.
ghost use Rattle.std.specs.Prelude.{◌≡◌, ℕ, List, IsTrue, true};
ghost use Rattle.appender_names.specs.declared.error.InitError.{InitError};
ghost use Rattle.appender_rolling.specs.Config.{Config, max_before};
ghost use Rattle.appender_rolling.specs.Kept.{OpeningPartsKeepBodies};
ghost use Rattle.appender_rolling.specs.Limits.{RemovesOnlyOldNames, KeepsEachFile, LeavesNames, HasReason};
ghost use Rattle.appender_rolling.specs.Opening.{OpensFile, RefusesFile};

use appender_store::laws::names_change_one_at_a_time;
use appender_store::store::Folder;

/// Each part of an opening keeps every body with its bytes, and no file gets a name but the one that
/// is opened.
pub fn openings_keep_files()
    ensures { OpeningPartsKeepBodies }
{
    names_change_one_at_a_time();
}

/// An opening, and a refused one too, removes no name but those that don't survive retention, and a link with
/// the name of the link that is set. By name, a refused opening removes no file that was there, so the open one keeps its
/// name. Nor does it leave a new file, unless the call that removes that again fails by itself or is refused memory.
pub fn openings_take_little<S: Folder>()
    ensures opened { (config : Config) (name : List ℕ) (old : S) (file : S.File) (new : S)
        → OpensFile S.Folder config name old file new → IsTrue S.is_known
        → RemovesOnlyOldNames config config.max_files name (S.content old) (S.content new) }
    ensures refused { (config : Config) (name : List ℕ) (old : S) (error : InitError) (new : S)
        → RefusesFile S.Folder config name old error new → IsTrue S.is_known
        → RemovesOnlyOldNames config (max_before config) name (S.content old) (S.content new) }
    ensures by_name { (config : Config) (name : List ℕ) (old : S) (error : InitError) (new : S)
        → config.by_name ≡ true → RefusesFile S.Folder config name old error new → IsTrue S.is_known
        → KeepsEachFile (S.content old) (S.content new) }
    ensures no_new { (config : Config) (name : List ℕ) (old : S) (error : InitError) (new : S)
        → config.by_name ≡ true → RefusesFile S.Folder config name old error new → IsTrue S.is_known
        → LeavesNames S.Folder config name old new }
{
    names_change_one_at_a_time();
}

/// An opening that fails has one of these reasons.
///
/// - `Memory`: there was no memory for the name. The folder was not called.
/// - The call of the folder whose error is returned counted a failure, or was refused memory.
/// - `File`: a link or a folder had the name of the file.
/// - `Symlink`, which no optional link gives: a file or a folder had the name of the link, or the log file has the same
///   name. Or a link had the name, and the call that removes it counted a failure.
pub fn refusals_have_reasons<S: Folder>()
    ensures { (config : Config) (name : List ℕ) (old : S) (error : InitError) (new : S)
        → RefusesFile S.Folder config name old error new → HasReason S.Folder config name old error new }
{
    names_change_one_at_a_time();
}
