// Calls of the system that fail, disks that are full, writes that are cut short, and a folder that is removed.

use crate::disk::{Call, Disk, DiskFault, Event};
use crate::expect::{AllocAndAbort, expect_eq_of};
use crate::runs::DiskStep::{Dir, Fail, Fault, File, Flush, Put, RemoveFolder, Room, Syncs, Take};
use crate::runs::{
    DiskStep, ELEVEN, KEEPS_TWO, LINKED, LOG, NOTHING, PLAIN, Row, START, Settings, TWELVE,
    check_runs, disk_after, folder_of, run_log,
};
use std::io::ErrorKind;
use std::process::Abort;

// An hourly log of two files with a link.
const LINKED_TWO: Settings = Settings { max: 2, ..LINKED };

const SYNCED: Settings = Settings {
    syncs: true,
    ..PLAIN
};

const CONTINUED: Settings = Settings {
    max_bytes: 9,
    continues: true,
    ..PLAIN
};

const KEPT: &[DiskStep] = &[File("other.txt", "kept")];

const NUMBER_0: &str = "app.2020-02-01-10.000000";

// The logs of two hours, a file that is no log, and a folder.
#[rattlefmt::skip]
const OLD_LOGS: &[DiskStep] = &[
    File("app.2020-02-01-08", "o"), File("app.2020-02-01-09", "p"), File("other.txt", "kept"), Dir("app.d"),
];

// Runs without a link, on a disk that holds other files.
#[rattlefmt::skip]
static WRITES: [Row<'static>; 11] = [
    // A disk that is full takes what there is room for, and more once there is room again.
    (PLAIN, KEPT, NOTHING, &[Room(4), Put(START, "one"), Put(START, "two"), Put(START, "three"), Put(START, ""), Flush,
        Room(9), Put(START, "four")],
        ("open\nnone ok 3\nnone ok 1\nnone err\nnone ok 0\nok\nnone ok 4\n",
        "app.2020-02-01-10 onetfour\nother.txt kept\n", "failures 1\n")),
    // So it is at a boundary.
    (PLAIN, KEPT, NOTHING, &[Room(0), Put(ELEVEN, "one"), Room(9), Put(ELEVEN, "two")],
        ("open\nopened err\nnone ok 3\n", "app.2020-02-01-10 \napp.2020-02-01-11 two\nother.txt kept\n",
        "failures 1\n")),
    // A short write is no failure.
    (PLAIN, KEPT, NOTHING, &[Take(2), Put(START, "hello"), Take(0), Put(START, "hello"), Take(5), Put(START, "hello"),
        Take(6), Put(START, "hello")],
        ("open\nnone ok 2\nnone ok 0\nnone ok 5\nnone ok 5\n", "app.2020-02-01-10 hehellohello\nother.txt kept\n",
        "failures 0\n")),
    // If the folder is removed, lines are written to the open file until the boundary makes the folder again.
    (PLAIN, KEPT, NOTHING, &[Put(START, "one"), RemoveFolder, Put(START, "two"), Flush, Put(ELEVEN, "three")],
        ("open\nnone ok 3\nnone ok 3\nok\nopened ok 5\n", "app.2020-02-01-11 three\n", "failures 1\n")),
    // It can't be made before the boundary after the next.
    (PLAIN, KEPT, NOTHING, &[RemoveFolder, Fail(Some(Call::CreateDir)), Put(ELEVEN, "one"), Fail(None),
        Put(ELEVEN, "two"), Put(TWELVE, "three")],
        ("open\nfailed ok 3\nnone ok 3\nopened ok 5\n", "app.2020-02-01-12 three\n",
        "Couldn't create writer for logs: failed to create log directory: permission denied\nfailures 3\n")),
    // A first start prints nothing.
    (KEEPS_TWO, &[RemoveFolder], NOTHING, &[], ("open\n", "app.2020-02-01-10 \n", "failures 2\n")),
    // A flush syncs if that was asked for.
    (PLAIN, &[], NOTHING, &[Put(START, "one"), Flush, Syncs(0)],
        ("open\nnone ok 3\nok\n", "app.2020-02-01-10 one\n", "failures 0\n")),
    (SYNCED, &[], NOTHING, &[Put(START, "one"), Flush, Syncs(1), Fail(Some(Call::Flush)), Flush, Syncs(1),
        Fail(Some(Call::Sync)), Flush, Put(ELEVEN, "two"), Fail(None), Put(TWELVE, "three"), Syncs(2)],
        ("open\nnone ok 3\nok\nerr\nerr\nopened ok 3\nopened ok 5\n",
        "app.2020-02-01-10 one\napp.2020-02-01-11 two\napp.2020-02-01-12 three\n",
        "Couldn't flush previous writer: permission denied\nfailures 3\n")),
    // An interrupted append is reported, and not repeated.
    (PLAIN, &[Fault(DiskFault::Kind(ErrorKind::Interrupted))], (Event::Fails, &[3]), &[Put(START, "one")],
        ("open\nnone err\n", "app.2020-02-01-10 \n", "failures 1\n")),
    // What a continued file holds counts. The listing is four calls, and the opening four. A length that can't be seen is the
    // limit.
    (CONTINUED, &[File(NUMBER_0, "abc")], NOTHING, &[Put(START, "one")],
        ("open\nnone ok 3\n", "app.2020-02-01-10.000000 abcone\n", "failures 0\n")),
    (CONTINUED, &[File(NUMBER_0, "abc")], (Event::Fails, &[9]), &[Put(START, "one")],
        ("open\nopened ok 3\n", "app.2020-02-01-10.000000 abc\napp.2020-02-01-10.000001 one\n", "failures 0\n")),
];

const OPENED: &str = "open\nnone ok 3\nopened ok 3\nnone ok 5\nopened ok 4\n";

const FAILED: &str = "open\nnone ok 3\nfailed ok 3\nnone ok 5\nfailed ok 4\n";

const ALL_KEPT: &str = "app.2020-02-01-09 p\napp.2020-02-01-10 one\napp.2020-02-01-11 twothree\n\
    app.2020-02-01-12 four\napp.d/\nother.txt kept\n";

const TWO_KEPT: &str =
    "app.2020-02-01-11 twothree\napp.2020-02-01-12 four\napp.d/\nother.txt kept\n";

// Calls that fail at two boundaries; the replies, the files, and what is printed: the fault once at each boundary.
#[rattlefmt::skip]
static BOUNDARIES: [(Settings, Call, (&str, &str, &str)); 5] = [
    (KEEPS_TWO, Call::OpenDir, (OPENED, ALL_KEPT, "Error reading the log directory/files: permission denied\n\
         Error reading the log directory/files: permission denied\nfailures 2\n")),
    // One file more goes at the second boundary.
    (KEEPS_TWO, Call::RemoveFile, (OPENED, ALL_KEPT,
        "Failed to remove old log file log/app.2020-02-01-09: permission denied\n\
         Failed to remove old log file log/app.2020-02-01-09: permission denied\n\
         Failed to remove old log file log/app.2020-02-01-10: permission denied\nfailures 3\n")),
    (KEEPS_TWO, Call::Flush, (OPENED, TWO_KEPT, "Couldn't flush previous writer: permission denied\n\
         Couldn't flush previous writer: permission denied\nfailures 2\n")),
    // Each opening is tried twice.
    (KEEPS_TWO, Call::OpenFile, (FAILED, "app.2020-02-01-10 onetwothreefour\napp.d/\nother.txt kept\n",
        "Couldn't create writer for logs: failed to create log file: permission denied\n\
         Couldn't create writer for logs: failed to create log file: permission denied\nfailures 4\n")),
    // There was no link to replace at first. At the boundaries it stays, and at the second one the open file's name
    // goes.
    (LINKED_TWO, Call::Symlink, (FAILED,
        "app.2020-02-01-11 \napp.2020-02-01-12 \napp.d/\nlatest.log -> app.2020-02-01-10\nother.txt kept\n",
        "Couldn't create writer for logs: failed to create symlink to latest log file: permission denied\n\
         Couldn't create writer for logs: failed to create symlink to latest log file: permission denied\n\
         failures 3\n")),
];

const THREE_PUTS: &[DiskStep] = &[
    Put(START, "a"),
    Put(ELEVEN, "b"),
    Put(ELEVEN - 1, "c"),
    Flush,
];

const ANSWERS: &str = "open\nnone ok 1\nopened ok 1\nnone ok 1\nok\n";

const FILES: &str =
    "app.2020-02-01-10 a\napp.2020-02-01-11 bc\napp.d/\nlatest.log -> app.2020-02-01-11\nother.txt kept\n";

// The oldest log is kept longer.
const OLD_FILES: &str = "app.2020-02-01-09 p\napp.2020-02-01-10 a\napp.2020-02-01-11 bc\napp.d/\n\
    latest.log -> app.2020-02-01-11\nother.txt kept\n";

// There is no link to remove at first, which is a failure by itself.
const PRINTED: &str = "failures 1\n";

const LIST: &str = "Error reading the log directory/files: permission denied\nfailures 2\n";

// The calls that fail, each in a run of its own; the replies, the files, and what is printed.
#[rattlefmt::skip]
static TURNS: [(&[usize], (&str, &str, &str)); 18] = [
    // The listing at the opening; at the boundary two files go.
    (&[1, 2, 4, 6, 8, 10], (ANSWERS, FILES, LIST)),
    // An entry that can't be looked at is no log file.
    (&[3, 5, 7, 9], (ANSWERS, FILES, PRINTED)),
    (&[11, 12], (ANSWERS, FILES,
        "Failed to remove old log file log/app.2020-02-01-08: permission denied\nfailures 2\n")),
    // The opening is tried again once the folder is there.
    (&[13, 14], (ANSWERS, FILES, "failures 2\n")),
    // It is not known whether there is a link, and there is none.
    (&[15], (ANSWERS, FILES, PRINTED)),
    (&[16], ("failed to create symlink to latest log file: permission denied\n",
        "app.2020-02-01-09 p\napp.2020-02-01-10 \napp.d/\nother.txt kept\n", "failures 2\n")),
    (&[17], ("open\nnone err\nopened ok 1\nnone ok 1\nok\n",
        "app.2020-02-01-10 \napp.2020-02-01-11 bc\napp.d/\nlatest.log -> app.2020-02-01-11\nother.txt kept\n",
        "failures 2\n")),
    // The listing at the boundary.
    (&[18, 19, 21, 23, 25, 27, 29], (ANSWERS, OLD_FILES, LIST)),
    // One log file fewer is known, so that none is removed.
    (&[20, 26], (ANSWERS, OLD_FILES, PRINTED)),
    (&[22, 24, 28, 43], (ANSWERS, FILES, PRINTED)),
    (&[30, 31], (ANSWERS, OLD_FILES,
        "Failed to remove old log file log/app.2020-02-01-09: permission denied\nfailures 2\n")),
    (&[32, 33], (ANSWERS, FILES, "failures 2\n")),
    // Whether there is a link is looked at again when it is made.
    (&[34], (ANSWERS, FILES, "failures 2\n")),
    // A link that is not replaced leads where it did. The next file is made, and nothing is written to it.
    (&[35, 36, 37, 38], ("open\nnone ok 1\nfailed ok 1\nnone ok 1\nok\n",
        "app.2020-02-01-10 abc\napp.2020-02-01-11 \napp.d/\nlatest.log -> app.2020-02-01-10\nother.txt kept\n",
        "Couldn't create writer for logs: failed to create symlink to latest log file: permission denied\nfailures 2\n")),
    (&[39], (ANSWERS, FILES, "Couldn't flush previous writer: permission denied\nfailures 2\n")),
    (&[40], ("open\nnone ok 1\nopened err\nnone ok 1\nok\n",
        "app.2020-02-01-10 a\napp.2020-02-01-11 c\napp.d/\nlatest.log -> app.2020-02-01-11\nother.txt kept\n",
        "failures 2\n")),
    (&[41], ("open\nnone ok 1\nopened ok 1\nnone err\nok\n",
        "app.2020-02-01-10 a\napp.2020-02-01-11 b\napp.d/\nlatest.log -> app.2020-02-01-11\nother.txt kept\n",
        "failures 2\n")),
    (&[42], ("open\nnone ok 1\nopened ok 1\nnone ok 1\nerr\n", FILES, "failures 2\n")),
];

#[test]
fn each_call_fails_in_its_turn(rt: HostRuntime) {
    for (numbers, wanted) in &TURNS {
        let row = (
            LINKED_TWO,
            OLD_LOGS,
            (Event::Fails, *numbers),
            THREE_PUTS,
            *wanted,
        );
        check_runs(&rt, &[row]);
    }
}

#[test]
fn each_fault_is_reported_once_at_each_boundary(rt: HostRuntime) {
    for (settings, call, wanted) in &BOUNDARIES {
        let (first, fail) = (Put(START, "one"), Fail(Some(*call)));
        let steps = [
            first,
            fail,
            Put(ELEVEN, "two"),
            Put(ELEVEN, "three"),
            Put(TWELVE, "four"),
        ];
        check_runs(&rt, &[(*settings, OLD_LOGS, NOTHING, &steps, *wanted)]);
    }
}

#[test]
fn counts_are_of_what_was_written(rt: HostRuntime) {
    check_runs(&rt, &WRITES);
}

#[rattlefmt::skip]
const LONG_STEPS: &[DiskStep] = &[
    Put(START, "one"), Take(2), Put(START, "two"), Put(ELEVEN, "three"), Flush, Put(TWELVE, "four"), Put(ELEVEN, "five"),
    Flush,
];

// Checks that no byte is lost if the call of this number fails, and returns how many calls there were.
fn count_calls(rt: &impl AllocAndAbort, number: usize) -> usize {
    let disk = disk_after(rt, OLD_LOGS);
    disk.event.set((number, Event::Fails));
    let outcome = run_log(rt, &disk, &LINKED_TWO, LONG_STEPS);
    expect_eq_of(
        rt,
        number,
        outcome.appended.as_str(),
        outcome.counted.as_str(),
    );
    let files = outcome.files.as_str();
    expect_eq_of(rt, number, files.contains("app.d/\n"), true);
    expect_eq_of(rt, number, files.ends_with("other.txt kept\n"), true);
    disk.calls()
}

#[test]
fn no_counted_byte_is_lost_whichever_call_fails(rt: HostRuntime) {
    for number in 1..100usize {
        if count_calls(&rt, number) < number {
            return;
        }
    }
    rt.panic("more calls than there can be");
}
