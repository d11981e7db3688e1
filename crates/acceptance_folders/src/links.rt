// The link to the newest file, while threads make it and another one reads it.

use crate::expect::expect_eq;
use crate::scene::{Entry, FilesAndAbort, at, clear, expect_count, fill, fresh, path_of};
use appender_folder::folder::DirFolder;
use appender_store::store::Folder;
use std::fs::File;
use std::rt::Files;
use std::sync::atomic::AtomicU32;
use std::sync::atomic::Ordering::SeqCst;
use std::thread;

// How often each thread makes the link.
const SWAPS: u32 = 2000;

static FILES: [Entry<'static>; 3] = [
    Entry::File("one", "1"),
    Entry::File("two", "2"),
    Entry::Link("latest.log", "one"),
];

// Makes the link to one file and to the other by turns, as a log does at its boundaries. Returns how many
// calls failed.
fn make_links<S: Folder>(mut folder: S) -> u64 {
    for turn in 0..SWAPS {
        let target = if turn % 2 == 0 { "two" } else { "one" };
        let _ = folder.remove_link("latest.log");
        let _ = folder.make_link("latest.log", target);
    }
    folder.failures()
}

// Opens the file that the link leads to until another thread is done, and returns how often there was none.
fn read_link(rt: &impl Files, link: &str, done: &AtomicU32) -> u64 {
    let mut failed = 0u64;
    for _ in 0..100_000_000u32 {
        if done.load(SeqCst) > 0 {
            break;
        }
        if File::open(rt, link).is_err() {
            failed = failed.saturating_add(1);
        }
    }
    failed
}

// What one thread does: it makes the link, or it reads it. Returns how often that failed.
fn use_link<R: Files + AllocGlobal + Eprint + Copy + Drop>(
    rt: R,
    directory: &str,
    link: &str,
    done: &AtomicU32,
    makes: bool,
) -> u64 {
    if !makes {
        return read_link(&rt, link, done);
    }
    let failed = match DirFolder::new(rt, directory) {
        Ok(folder) => make_links(folder),
        Err(_) => u64::MAX,
    };
    done.fetch_add(1, SeqCst);
    failed
}

// Checks that no call failed, and that the directory has the same names as before.
fn expect_kept(rt: &impl FilesAndAbort, directory: &str, failed: &[u64]) {
    expect_eq(rt, failed, [0, 0, 0, 0].as_slice());
    expect_count(rt, directory, FILES.len());
    clear(rt, directory);
}

// Three threads make the link, and a fourth one reads it.
#[test]
fn three_writers_of_one_link_make_it_and_a_reader_always_finds_a_file(rt: HostRuntime) {
    let directory = fresh(&rt, path_of(rt, "links"));
    let path = directory.as_str();
    fill(&rt, path, &FILES);
    let link = at(&rt, path, "latest.log");
    let link = link.as_str();
    let done = AtomicU32::new(0);
    let failed = thread::map_indices(
        &rt,
        rt.alloc(),
        4,
        &|i| use_link(rt, path, link, &done, i < 3),
    );
    expect_kept(&rt, path, failed.expect(&rt, "memory").as_slice());
}
