// Directories of the tests and what they hold, a clock, and the logs that are opened.

use crate::expect::{expect_eq, expect_eq_of};
use appender_folder::folder::DirFolder;
use appender_rolling::rolling::{Builder, Clock, RollingFileAppender, Rotation};
use appender_store::store::{Folder, MemoryFolder};
use std::io::ErrorKind;
use std::os::unix::fs::symlink;
use std::process::Abort;
use std::rt::Files;
use std::sync::Wait;
use std::sync::atomic::Ordering::SeqCst;
use std::sync::atomic::{AtomicI64, AtomicU64};
use std::{env, fs, io, process, thread};

/// 2020-02-01 10:01:00.
pub(crate) const START: i64 = 1_580_551_260;

/// 2020-02-01 11:00:00.
pub(crate) const ELEVEN: i64 = 1_580_554_800;

/// 2020-02-01 12:00:00.
pub(crate) const TWELVE: i64 = 1_580_558_400;

/// What the tests ask of their runtime. What a helper can't get ends the test.
pub(crate) trait AllocAndAbort: AllocGlobal + Abort {}

impl<R: AllocGlobal + Abort> AllocAndAbort for R {}

/// What tests with a directory ask of it.
pub(crate) trait FilesAndAbort: Files + AllocGlobal + Eprint + Abort + Copy + Drop {}

impl<R: Files + AllocGlobal + Eprint + Abort + Copy + Drop> FilesAndAbort for R {}

/// What tests with an appender ask of it.
pub(crate) trait WaitAndAbort: AllocGlobal + Wait + Abort + Copy + Drop {}

impl<R: AllocGlobal + Wait + Abort + Copy + Drop> WaitAndAbort for R {}

/// What a clock shows after it was read.
#[derive(Clone, Copy)]
pub(crate) enum Way {
    /// This number of seconds more.
    Steps(i64),
    /// 11:00 from the second reading on, for which it waits until ten threads ask, for a bounded number of turns.
    Crowds,
    /// 11:00 and 12:00 by turns.
    Turns,
}

/// A clock that a test sets, and that many threads may read.
#[derive(Drop)]
pub(crate) struct TestClock {
    next: AtomicI64,
    reads: AtomicU64,
    way: Way,
}

impl TestClock {
    /// Returns a clock that shows 10:01.
    pub(crate) fn new(way: Way) -> TestClock {
        TestClock {
            next: AtomicI64::new(START),
            reads: AtomicU64::new(0),
            way,
        }
    }

    pub(crate) fn set(&self, moment: i64) {
        self.next.store(moment, SeqCst);
    }

    /// What the next reading returns, if the clock goes by steps.
    pub(crate) fn next(&self) -> i64 {
        self.next.load(SeqCst)
    }

    /// How often it was read.
    pub(crate) fn reads(&self) -> u64 {
        self.reads.load(SeqCst)
    }

    // Waits until ten threads have read the clock too.
    fn wait_for_ten(&self) {
        for _ in 0..100_000u32 {
            if self.reads() > 10 {
                break;
            }
            thread::yield_now();
        }
    }
}

impl Clock for TestClock {
    ghost now_gives = { λ clock m. Unit {0} };

    fn now(&self) -> i64 {
        let read = self.reads.fetch_add(1, SeqCst);
        match self.way {
            Way::Steps(step) => return self.next.fetch_add(step, SeqCst),
            Way::Crowds if read > 0 => self.wait_for_ten(),
            _ => {}
        }
        match self.way {
            _ if read == 0 => START,
            Way::Turns if read % 2 == 0 => TWELVE,
            _ => ELEVEN,
        }
    }
}

/// Returns the path of a directory of the test's own.
pub(crate) fn path_of(rt: HostRuntime, test: &str) -> io::Result<String> {
    let temp = env::temp_dir(&rt)?;
    let parent = temp.as_str();
    let process = process::id(rt.process());
    Ok(format!(in rt.alloc(); "{parent}/acceptance_folders-{process}-{test}")?)
}

/// Makes a directory at a path anew, and returns the path.
pub(crate) fn fresh(rt: &impl FilesAndAbort, path: io::Result<String>) -> String {
    let path = path.expect(rt, "a path");
    renew(rt, path.as_str());
    path
}

/// Makes an empty directory in place of one.
pub(crate) fn renew(rt: &impl FilesAndAbort, path: &str) {
    clear(rt, path);
    fs::create_dir(rt, path).expect(rt, "a directory");
}

/// Removes a directory of a test, if it is there.
pub(crate) fn clear(rt: &impl FilesAndAbort, path: &str) {
    match fs::remove_dir_all(rt, path) {
        Err(fault) if fault.kind() != ErrorKind::NotFound => rt.panic(fault),
        _ => {}
    }
}

/// The path of an entry.
pub(crate) fn at(rt: &impl AllocAndAbort, directory: &str, name: &str) -> String {
    format!(in rt.alloc(); "{directory}/{name}").expect(rt, "memory")
}

/// The folder at a path.
pub(crate) fn folder_at<R: FilesAndAbort>(rt: &R, path: &str) -> DirFolder<R> {
    DirFolder::new(*rt, path).expect(rt, "memory")
}

/// An entry of a directory: its name, and what a file reads as or a link says.
#[derive(Clone, Copy)]
pub(crate) enum Entry<'a> {
    File(&'a str, &'a str),
    Link(&'a str, &'a str),
    Dir(&'a str),
}

/// Makes these entries.
pub(crate) fn fill(rt: &impl FilesAndAbort, directory: &str, entries: &[Entry<'_>]) {
    for entry in entries {
        let (Entry::File(name, _) | Entry::Link(name, _) | Entry::Dir(name)) = *entry;
        make(rt, at(rt, directory, name).as_str(), *entry);
    }
}

// Makes an entry at a path.
fn make(rt: &impl FilesAndAbort, path: &str, entry: Entry<'_>) {
    let made = match entry {
        Entry::File(_, text) => fs::write(rt, path, text),
        Entry::Link(_, target) => symlink(rt, target, path),
        Entry::Dir(_) => fs::create_dir(rt, path),
    };
    made.expect(rt, "an entry");
}

/// Checks that a directory has exactly these entries.
pub(crate) fn expect_entries(rt: &impl FilesAndAbort, directory: &str, wanted: &[Entry<'_>]) {
    expect_count(rt, directory, wanted.len());
    for entry in wanted {
        match *entry {
            Entry::File(name, text) => expect_text(rt, directory, name, text),
            Entry::Link(name, target) => expect_target(rt, directory, name, target),
            Entry::Dir(name) => expect_count(rt, at(rt, directory, name).as_str(), 0),
        }
    }
}

/// What can be read under a name, through links too.
pub(crate) fn text_of(rt: &impl FilesAndAbort, directory: &str, name: &str) -> String {
    fs::read_to_string(rt, at(rt, directory, name)).expect(rt, "a text")
}

/// Checks what a plain file holds.
pub(crate) fn expect_text(rt: &impl FilesAndAbort, directory: &str, name: &str, wanted: &str) {
    let found = fs::symlink_metadata(rt, at(rt, directory, name)).expect(rt, "metadata");
    expect_eq_of(rt, name, found.is_file(), true);
    expect_eq_of(rt, name, text_of(rt, directory, name).as_str(), wanted);
}

/// Checks what a link says.
pub(crate) fn expect_target(rt: &impl FilesAndAbort, directory: &str, name: &str, wanted: &str) {
    let target = fs::read_link(rt, at(rt, directory, name)).expect(rt, "a link");
    expect_eq_of(rt, name, target.as_str(), wanted);
}

/// The names of a directory, sorted.
pub(crate) fn names_in(rt: &impl FilesAndAbort, directory: &str) -> Vec<String> {
    let mut names = Vec::new(rt.alloc());
    for entry in fs::read_dir(rt, directory).expect(rt, "a directory") {
        let entry = entry.expect(rt, "an entry");
        let name = String::from_str(rt.alloc(), entry.file_name());
        names.push(name.expect(rt, "memory")).expect(rt, "memory");
    }
    names.sort_unstable();
    names
}

/// Checks how many entries a directory has.
pub(crate) fn expect_count(rt: &impl FilesAndAbort, directory: &str, wanted: usize) {
    let names = names_in(rt, directory);
    expect_eq_of(rt, &names, names.len(), wanted);
}

/// Checks that a folder in memory has exactly these files, which hold these texts.
pub(crate) fn expect_bytes(
    rt: &impl AllocAndAbort,
    folder: &MemoryFolder,
    wanted: &[(&str, &str)],
) {
    let names = folder.names().expect(rt, "memory");
    expect_eq(rt, names.len(), wanted.len());
    for (name, text) in wanted {
        expect_eq_of(rt, name, folder.bytes(name), Some(text.as_bytes()));
    }
}

/// A builder of an hourly log with the prefix `app`.
pub(crate) fn hourly_log(rt: &impl AllocAndAbort) -> Builder {
    let builder = Builder::new().rotation(Rotation::HOURLY);
    let builder = builder.filename_prefix(rt.alloc(), "app");
    builder.expect(rt, "memory")
}

/// An appender that has to be opened.
pub(crate) fn open_appender<S: Folder, C: Clock, R: AllocGlobal + Abort + Copy + Drop>(
    rt: &R,
    builder: &Builder,
    folder: S,
    clock: C,
) -> RollingFileAppender<S, C, R> {
    match builder.build_in(*rt, rt.alloc(), folder, clock) {
        Ok(appender) => appender,
        Err((error, _folder, _clock)) => rt.panic(error),
    }
}

/// An hourly log in memory.
pub(crate) fn in_memory<C: Clock, R: AllocGlobal + Abort + Copy + Drop>(
    rt: &R,
    clock: C,
) -> RollingFileAppender<MemoryFolder, C, R> {
    open_appender(rt, &hourly_log(rt), MemoryFolder::new(rt.alloc()), clock)
}

/// The kind of the error, if there is one.
pub(crate) fn kind_of_error<T: Drop>(answer: io::Result<T>) -> Option<ErrorKind> {
    match answer {
        Ok(_) => None,
        Err(error) => Some(error.kind()),
    }
}
