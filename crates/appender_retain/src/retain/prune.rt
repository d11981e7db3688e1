// The removal of log files.
ghost use Rattle.std.specs.Prelude.{◌≡◌, IsTrue, map, filter_map};
ghost use Rattle.std.specs.Option.{option_map};
ghost use Rattle.appender_store.specs.Content.{IsFile};
ghost use Rattle.std.specs.FinMap as fin;
ghost use Rattle.appender_store.specs.Folder.{listed_row};
ghost use Rattle.appender_retain.specs.Pruning.{Prunes, RemovesFile, RemovesEach, listed_name_at};
ghost use Rattle.appender_retain.specs.Inside.Files.{AreFiles};
ghost use Rattle.appender_retain.specs.Rank.{log_files_by_parts};

use super::{LogFiles, plan_log_files};
use appender_names::names::Names;
use appender_store::laws::names_change_one_at_a_time;
use appender_store::store::{Folder, Listed, Notice};
use std::alloc::Global;
use std::io;

/// Removes the oldest log files, so that at most `max` remain when one more is made; none if `max` is 0. If the
/// folder can't be listed, or memory is refused, `Notice::List` is noted and nothing is removed. A removal that
/// fails is noted as `Notice::Remove`, and the next is tried.
pub fn prune_old_logs<S: Folder>(alloc: Global, folder: &mut S, names: &Names, max: usize)
    ensures { Prunes S.Folder (log_files_by_parts names.now) max folder.old folder.new }
{
    prune_log_files(alloc, folder, &LogFiles::matching(names), max);
}

/// Removes the lowest of these log files, so that at most `max` remain when one more is made; none if `max` is 0.
/// Faults are noted as by `prune_old_logs`.
pub fn prune_log_files<S: Folder>(alloc: Global, folder: &mut S, log: &LogFiles<'_>, max: usize)
    ensures { Prunes S.Folder log.now max folder.old folder.new }
{
    names_change_one_at_a_time();
    if max == 0 {
        return;
    }
    let listed = match folder.list() {
        Ok(listed) => listed,
        Err(fault) => {
            folder.note(Notice::List(&fault));
            return;
        }
    };
    match plan_log_files(alloc, log, max, &listed) {
        Ok(gone) => remove_planned(folder, &listed, &gone),
        Err(fault) => folder.note(Notice::List(&io::Error::from(fault))),
    }
}

// Removes the files at these places, one after another.
fn remove_planned<S: Folder>(folder: &mut S, listed: &[Listed], gone: &[usize])
    requires { IsTrue S.is_known → AreFiles (S.content folder.old).names
        (filter_map (listed_name_at (map listed_row listed.now)) gone.now) }
    ensures { RemovesEach S.Folder (filter_map (listed_name_at (map listed_row listed.now)) gone.now)
        folder.old folder.new }
{
    names_change_one_at_a_time();
    for place in gone {
        if let Some(name) = listed_name(listed, *place) {
            remove_file(folder, name);
        }
    }
}

// Returns the name listed at a place, if it can be read.
fn listed_name(listed: &[Listed], place: usize) -> Option<&str>
    ensures { option_map (λ name. name.now) result ≡ listed_name_at (map listed_row listed.now) place }
{
    Some(listed.get(place)?.name.as_ref()?.as_str())
}

// Removes a file, and notes a failure.
fn remove_file<S: Folder>(folder: &mut S, name: &str)
    requires { IsTrue S.is_known → IsFile (fin.get (S.content folder.old).names name.now) }
    ensures { RemovesFile S.Folder name.now folder.old folder.new }
{
    if let Err(fault) = folder.remove(name) {
        folder.note(Notice::Remove(name, &fault));
    }
}
