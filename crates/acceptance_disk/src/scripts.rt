// Scripts of `rollplay` without a queue, carried out over a folder in memory and over a fake disk.

use crate::disk::{Disk, Kind};
use crate::expect::{AllocAndAbort, expect_eq, expect_eq_of};
use crate::runs::folder_of;
use acceptance_rollplay::rows::{PLAYED, first_row};
use rollplay_core::script::{LONGEST, Plan, Script};
use std::process::Abort;
use tracing_appender::replay::{RollReply, RollStep, replay_rolling};
use tracing_appender::rolling::Builder;
use tracing_appender::store::{Folder, Kind as StoreKind, MemoryFolder};

// Whether a disk can't do what a script says: fail at a call by its number among those of a folder,
// or give a creation moment.
fn needs_memory(script: &str) -> bool {
    for line in script.lines() {
        if line.starts_with("fail ") || line.starts_with("short ") || line.starts_with("created ") {
            return true;
        }
    }
    false
}

// The replies to these steps, and the folder after them.
fn carry_out<S: Folder>(
    rt: &impl AllocAndAbort,
    builder: &Builder,
    folder: S,
    start: i64,
    steps: &[RollStep],
) -> (Vec<RollReply>, S) {
    match replay_rolling(rt.alloc(), builder, folder, start, steps) {
        Ok(run) => (run.replies, run.roller.into_folder()),
        Err(_) => rt.panic("a log that is not opened"),
    }
}

// A disk that holds what a folder in memory does.
fn disk_with(rt: &impl AllocAndAbort, folder: &MemoryFolder) -> Disk {
    let disk = Disk::new(rt.alloc());
    for name in &folder.names().expect(rt, "memory") {
        copy_entry(rt, &disk, folder, name.as_str());
    }
    disk
}

fn copy_entry(rt: &impl Abort, disk: &Disk, folder: &MemoryFolder, name: &str) {
    let (kind, bytes) = match folder.kind(name) {
        Some(StoreKind::Folder) => (Kind::Folder, b"".as_slice()),
        Some(StoreKind::Link) => (Kind::Link, folder.target(name).unwrap_or("").as_bytes()),
        _ => (Kind::File, folder.bytes(name).unwrap_or(b"")),
    };
    disk.put(name.as_bytes(), kind, bytes)
        .expect(rt, "an entry");
}

// Checks that a disk holds what a folder in memory does.
fn expect_same(rt: &impl AllocAndAbort, disk: &Disk, folder: &MemoryFolder, text: &str) {
    let found = disk.contents().expect(rt, "a folder");
    let wanted = disk_with(rt, folder).contents().expect(rt, "a folder");
    expect_eq_of(rt, text, found.as_str(), wanted.as_str());
}

// Carries a script out both ways, and compares the replies and the files.
fn check_script(rt: &impl AllocAndAbort, text: &str) {
    assert!(rt; text.len() <= LONGEST);
    let script = Script::read(rt.alloc(), text).expect(rt, "a script");
    let Script {
        builder,
        folder,
        start,
        plan,
    } = script;
    let Plan::Rolling(steps) = plan else {
        rt.panic("a script with a queue");
    };
    let disk = disk_with(rt, &folder);
    if text.starts_with("absent\n") {
        disk.remove_folder().expect(rt, "a folder");
    }
    let (told, _) = carry_out(rt, &builder, folder_of(rt, &disk), start, &steps);
    let (wanted, folder) = carry_out(rt, &builder, folder, start, &steps);
    expect_eq_of(rt, text, told.as_slice(), wanted.as_slice());
    expect_same(rt, &disk, &folder, text);
}

#[test]
fn a_disk_has_the_content_of_memory(rt: HostRuntime) {
    let mut compared = 0usize;
    let mut rest = PLAYED.text;
    for _ in 0..PLAYED.rows {
        let (script, _, behind) = first_row(rest).expect(&rt, "a row");
        if !needs_memory(script) {
            check_script(&rt, script);
            compared = compared.saturating_add(1);
        }
        rest = behind;
    }
    expect_eq(&rt, rest, "");
    // At least so many rows of the table need no memory.
    expect_eq(&rt, compared >= 88, true);
}
