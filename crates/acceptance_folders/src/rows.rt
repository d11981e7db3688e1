// Scripts of `rollplay` without a queue, carried out over a folder in memory and over a directory.

use crate::expect::{expect_eq, expect_eq_of};
use crate::scene::{
    AllocAndAbort, Entry, FilesAndAbort, clear, expect_entries, fill, folder_at, fresh, path_of,
    renew,
};
use acceptance_rollplay::rows::{PLAYED, first_row};
use appender_replay::replay::{RollReply, RollStep, replay_rolling};
use appender_rolling::rolling::Builder;
use appender_store::store::{Folder, Kind, MemoryFolder};
use rollplay_core::script::{LONGEST, Plan, Script};
use std::process::Abort;
use std::{fs, io};

// Whether a script says what a directory can't do: fail at a call by its number among those of a folder, give a creation
// moment, or choose old files by one.
fn needs_memory(script: &str) -> bool {
    let (mut keeps_some, mut by_name) = (false, false);
    for line in script.lines() {
        if is_of_memory(line) {
            return true;
        }
        keeps_some = keeps_some || line.starts_with("max ");
        by_name = by_name || line == "by-name";
    }
    keeps_some && !by_name
}

fn is_of_memory(line: &str) -> bool {
    line.starts_with("fail ") || line.starts_with("short ") || line.starts_with("created ")
}

// The entries of a folder in memory, which has these names.
fn entries_of<'a>(
    rt: &impl AllocAndAbort,
    folder: &'a MemoryFolder,
    names: &'a [String],
) -> Vec<Entry<'a>> {
    let mut entries = Vec::new(rt.alloc());
    for name in names {
        let name = name.as_str();
        let entry = match folder.kind(name) {
            Some(Kind::Folder) => Entry::Dir(name),
            Some(Kind::Link) => Entry::Link(name, folder.target(name).unwrap_or("")),
            _ => Entry::File(name, text_of(folder.bytes(name))),
        };
        entries.push(entry).expect(rt, "memory");
    }
    entries
}

fn text_of(bytes: Option<&[u8]>) -> &str {
    str::from_utf8(bytes.unwrap_or(b"")).unwrap_or("")
}

// The replies to these steps, and the folder after them.
fn carry_out<S: Folder>(
    rt: &impl AllocAndAbort,
    builder: &Builder,
    folder: S,
    start: i64,
    steps: &[RollStep],
) -> (Vec<RollReply>, S) {
    match replay_rolling(rt.alloc(), builder, folder, start, steps) {
        Ok(run) => (run.replies, run.roller.into_folder()),
        Err(_) => rt.panic("a log that is not opened"),
    }
}

// Makes what a folder in memory holds in a fresh directory.
fn fill_as(rt: &impl FilesAndAbort, directory: &str, folder: &MemoryFolder) {
    let names = folder.names().expect(rt, "memory");
    fill(rt, directory, &entries_of(rt, folder, &names));
}

// Checks that a directory holds what a folder in memory does.
fn expect_same(rt: &impl FilesAndAbort, directory: &str, folder: &MemoryFolder) {
    let names = folder.names().expect(rt, "memory");
    expect_entries(rt, directory, &entries_of(rt, folder, &names));
}

// Carries a script out both ways, and compares the replies and the files.
fn check_script(rt: &impl FilesAndAbort, directory: &str, text: &str) {
    assert!(rt; text.len() <= LONGEST);
    let script = Script::read(rt.alloc(), text).expect(rt, "a script");
    let Script {
        builder,
        folder,
        start,
        plan,
    } = script;
    let Plan::Rolling(steps) = plan else {
        rt.panic("a script with a queue");
    };
    fill_as(rt, directory, &folder);
    if text.starts_with("absent\n") {
        fs::remove_dir(rt, directory).expect(rt, "a directory");
    }
    let on_disk = carry_out(rt, &builder, folder_at(rt, directory), start, &steps);
    let in_memory = carry_out(rt, &builder, folder, start, &steps);
    expect_eq_of(rt, text, on_disk.0.as_slice(), in_memory.0.as_slice());
    expect_same(rt, directory, &in_memory.1);
}

// Carries out each script that needs no memory, in a fresh directory. At least so many rows of the table need none.
fn check_scripts(rt: &impl FilesAndAbort, path: io::Result<String>) {
    let directory = fresh(rt, path);
    let mut compared = 0usize;
    let mut rest = PLAYED.text;
    for _ in 0..PLAYED.rows {
        let (script, _, behind) = first_row(rest).expect(rt, "a row");
        if !needs_memory(script) {
            renew(rt, directory.as_str());
            check_script(rt, directory.as_str(), script);
            compared = compared.saturating_add(1);
        }
        rest = behind;
    }
    expect_eq(rt, (rest, compared >= 80), ("", true));
    clear(rt, directory.as_str());
}

#[test]
fn a_directory_has_the_content_of_memory(rt: HostRuntime) {
    check_scripts(&rt, path_of(rt, "rows"));
}
