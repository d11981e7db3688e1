// What another process may do to the files of a log.

use crate::expect::expect_eq_of;
use crate::scene::{
    Entry, FilesAndAbort, TestClock, Way, at, clear, expect_entries, fill, folder_at, fresh,
    hourly_log, open_appender, path_of, renew,
};
use appender_store::store::Folder;
use std::fs::{FileTimes, OpenFile, OpenOptions};
use std::io::ErrorKind;
use std::os::unix::fs::symlink;
use std::process::Abort;
use std::time::{Duration, UNIX_EPOCH};
use std::{fs, io};

// What another process does to the file of a log.
#[derive(Clone, Copy, Debug)]
enum Deed {
    Nothing,
    Writes,
    Removes,
    Renames,
    Replaces,
    // It puts a link to the renamed file in its place.
    Links,
}

fn do_deed(rt: &impl FilesAndAbort, log: &str, moved: &str, deed: Deed) -> io::Result<()> {
    match deed {
        Deed::Nothing => Ok(()),
        Deed::Writes => fs::write(rt, log, "abc"),
        Deed::Removes => fs::remove_file(rt, log),
        Deed::Renames => fs::rename(rt, log, moved),
        Deed::Replaces => {
            fs::rename(rt, log, moved)?;
            fs::write(rt, log, "")
        }
        Deed::Links => {
            fs::rename(rt, log, moved)?;
            symlink(rt, "moved", log)
        }
    }
}

// The length of the open file after each deed, and whether the name still leads to it.
static DEEDS: [(Deed, u64, bool); 6] = [
    (Deed::Nothing, 0, true),
    (Deed::Writes, 3, true),
    (Deed::Removes, 0, false),
    (Deed::Renames, 0, false),
    (Deed::Replaces, 0, false),
    (Deed::Links, 0, false),
];

// Opens a file, lets the deed be done, and checks what the folder returns of the file.
fn expect_after(
    rt: &impl FilesAndAbort,
    directory: &str,
    (deed, length, is_named): (Deed, u64, bool),
) {
    let mut folder = folder_at(rt, directory);
    let file = folder.open("log").expect(rt, "a file");
    let (log, moved) = (at(rt, directory, "log"), at(rt, directory, "moved"));
    do_deed(rt, log.as_str(), moved.as_str(), deed).expect(rt, "a deed");
    expect_eq_of(rt, deed, folder.length(&file), Some(length));
    let named = folder.is_named(&file, "log").expect(rt, "metadata");
    expect_eq_of(rt, deed, (named, folder.failures()), (is_named, 0));
}

fn expect_after_each(rt: &impl FilesAndAbort, path: io::Result<String>) {
    let directory = fresh(rt, path);
    for row in &DEEDS {
        renew(rt, directory.as_str());
        expect_after(rt, directory.as_str(), *row);
    }
    clear(rt, directory.as_str());
}

#[test]
fn a_folder_returns_what_becomes_of_an_open_file(rt: HostRuntime) {
    expect_after_each(&rt, path_of(rt, "deeds"));
}

static TWO_LOGS: [Entry<'static>; 2] = [
    Entry::File("app.2020-02-01-08", "a"),
    Entry::File("app.2020-02-01-09", "b"),
];

// The first one is gone.
static KEPT: [Entry<'static>; 2] = [
    Entry::File("app.2020-02-01-09", "b"),
    Entry::File("app.2020-02-01-10", ""),
];

// Sets the last change of a file to a moment that is far ahead, in 2106.
fn set_changed(rt: &impl FilesAndAbort, path: &str) -> io::Result<()> {
    let since = Duration::from_secs(u64::from(u32::MAX));
    let moment = UNIX_EPOCH.checked_add(since).ok_or(ErrorKind::Other)?;
    let file = OpenOptions::new().append(true).open(rt, path)?;
    file.set_times(FileTimes::new().set_modified(moment))
}

// Opens a log that keeps two files, of which the first was changed last.
fn expect_oldest_gone(rt: &impl FilesAndAbort, path: io::Result<String>) {
    let directory = fresh(rt, path);
    let directory = directory.as_str();
    fill(rt, directory, &TWO_LOGS);
    let first = at(rt, directory, "app.2020-02-01-08");
    set_changed(rt, first.as_str()).expect(rt, "a change");
    let builder = hourly_log(rt).max_log_files(2);
    let clock = TestClock::new(Way::Steps(0));
    drop(open_appender(rt, &builder, folder_at(rt, directory), &clock));
    expect_entries(rt, directory, &KEPT);
    clear(rt, directory);
}

#[test]
fn the_file_that_was_made_first_is_the_oldest(rt: HostRuntime) {
    expect_oldest_gone(&rt, path_of(rt, "changed"));
}
