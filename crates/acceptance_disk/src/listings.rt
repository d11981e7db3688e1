// What retention does with a folder that lists less than it should.

use crate::disk::{DiskFault, Event, Kind};
use crate::expect::{debug_text, expect_eq};
use crate::runs::DiskStep::{Fault, File, Hide, PutNoText};
use crate::runs::{
    DiskStep, KEEPS_TWO, NOTHING, PLAIN, Row, Settings, check_runs, disk_after, folder_of,
};
use std::io::ErrorKind;
use tracing_appender::store::Folder;

const KEEPS_ONE: Settings = Settings { max: 1, ..PLAIN };

// Logs of three hours.
const A: DiskStep = File("app.2020-02-01-07", "a");

const B: DiskStep = File("app.2020-02-01-08", "b");

const C: DiskStep = File("app.2020-02-01-09", "c");

const ALL: &str =
    "app.2020-02-01-07 a\napp.2020-02-01-08 b\napp.2020-02-01-09 c\napp.2020-02-01-10 \n";

// What breaks a listing off: the opening of the folder, then each reading, between which an entry is looked at.
const BREAKS: (Event, &[usize]) = (Event::Fails, &[1, 2, 4, 6, 8]);

#[rattlefmt::skip]
static LISTINGS: [Row<'static>; 6] = [
    // A listing that breaks off removes nothing. The texts are those of a kind, and of numbers that Linux gives.
    (KEEPS_ONE, &[C, A, B, Fault(DiskFault::Kind(ErrorKind::Other))], BREAKS, &[],
        ("open\n", ALL, "Error reading the log directory/files: other error\nfailures 1\n")),
    (KEEPS_ONE, &[C, A, B, Fault(DiskFault::Number(5))], BREAKS, &[],
        ("open\n", ALL, "Error reading the log directory/files: Input/output error (os error 5)\nfailures 1\n")),
    (KEEPS_ONE, &[C, A, B, Fault(DiskFault::Number(36))], BREAKS, &[],
        ("open\n", ALL, "Error reading the log directory/files: File name too long (os error 36)\nfailures 1\n")),
    // The listing is eight calls; then the oldest log is looked at and removed. A link is not removed as a file.
    (KEEPS_ONE, &[C, A, B], (Event::Comes("app.2020-02-01-07", Kind::Link, "other.txt"), &[9]), &[],
        ("open\n", "app.2020-02-01-07 -> other.txt\napp.2020-02-01-10 \n",
        "Failed to remove old log file log/app.2020-02-01-07: not a plain file\nfailures 1\n")),
    // What has no name or no kind is not removed.
    (KEEPS_ONE, &[C, A, B, PutNoText, Hide("/app.2020-02-01-07")], NOTHING, &[],
        ("open\n", "(no text) x\napp.2020-02-01-07 a\napp.2020-02-01-10 \n", "failures 0\n")),
    // Without creation moments the dates decide, and a name without a date is no log.
    (KEEPS_TWO, &[C, A, B, File("app.notes", "x")], NOTHING, &[],
        ("open\n", "app.2020-02-01-09 c\napp.2020-02-01-10 \napp.notes x\n", "failures 0\n")),
];

#[test]
fn what_is_listed_decides_what_goes(rt: HostRuntime) {
    check_runs(&rt, &LISTINGS);
}

#[test]
fn each_entry_is_listed(rt: HostRuntime) {
    let steps = [
        C,
        PutNoText,
        File(".app", ""),
        A,
        Hide("/app.2020-02-01-07"),
    ];
    let disk = disk_after(&rt, &steps);
    let listed = folder_of(&rt, &disk).list().expect(&rt, "a listing");
    expect_eq(
        &rt,
        debug_text(&rt, &listed).as_str(),
        "[Listed { name: Some(\"app.2020-02-01-09\"), kind: File, created: None }, \
         Listed { name: None, kind: Other, created: None }, \
         Listed { name: Some(\".app\"), kind: File, created: None }, \
         Listed { name: None, kind: Other, created: None }]",
    );
}
