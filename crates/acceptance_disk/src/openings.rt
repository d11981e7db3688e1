// Openings by a runtime and a path, and the clock of a runtime.

use crate::disk::{Call, Disk, DiskFault, Event, FOLDER};
use crate::expect::{AllocAndAbort, expect_eq, expect_eq_of};
use crate::fake::Fake;
use crate::runs::{LINKED, PLAIN, START, folder_of, hourly_log};
use std::io::{ErrorKind, Write};
use std::process::Abort;
use std::sync::Wait;
use std::time::Duration;
use tracing_appender::rolling::{
    Clock, FileAppender, InitError, MakeWriter, SystemClock, daily, hourly, minutely, never, weekly,
};

// The moment, whether the folder is there, the calls that fail; the text of the error.
#[rattlefmt::skip]
static REFUSALS: [(u64, bool, Option<Call>, &str); 4] = [
    (START, false, Some(Call::CreateDir), "failed to create log directory: permission denied"),
    (START, true, Some(Call::OpenFile), "failed to create log file: permission denied"),
    (START, true, Some(Call::Symlink), "failed to create symlink to latest log file: permission denied"),
    // 9999-01-01.
    (253_370_764_800, true, None, "moment out of range"),
];

// Compares the error of an opening.
fn expect_refused<T: Drop>(rt: &impl AllocAndAbort, opened: Result<T, InitError>, wanted: &str) {
    match opened {
        Ok(_) => rt.panic("nothing is opened"),
        Err(error) => {
            let text = error.to_string(rt.alloc()).expect(rt, "memory");
            expect_eq_of(rt, wanted, text.as_str(), wanted);
        }
    }
}

// Opens a log with a link, for one and for many threads.
fn open_both_ways(rt: &impl AllocAndAbort, disk: &Disk, wanted: &str) {
    let builder = hourly_log(rt, &LINKED);
    expect_refused(rt, builder.open(Fake::new(disk), FOLDER), wanted);
    expect_refused(rt, builder.build(Fake::new(disk), FOLDER), wanted);
}

#[test]
fn an_opening_reports_what_was_refused(rt: HostRuntime) {
    for (moment, has_folder, call, wanted) in &REFUSALS {
        let disk = Disk::new(rt.alloc());
        disk.set_seconds(*moment);
        if !*has_folder {
            disk.remove_folder().expect(&rt, "a folder");
        }
        disk.fails_each.set(*call);
        open_both_ways(&rt, &disk, *wanted);
        expect_eq(&rt, disk.take_printed().as_str(), "");
    }
}

// The rotations, and what a log of each holds after `hello`.
static ROTATIONS: [(&str, &str); 5] = [
    ("minutely", "app.2020-02-01-10-01 hello\n"),
    ("hourly", "app.2020-02-01-10 hello\n"),
    ("daily", "app.2020-02-01 hello\n"),
    ("weekly", "app.2020-01-26 hello\n"),
    ("never", "app hello\n"),
];

fn open_rotation<'a>(rotation: &str, disk: &'a Disk) -> Result<FileAppender<Fake<'a>>, InitError> {
    let rt = Fake::new(disk);
    match rotation {
        "minutely" => minutely(rt, FOLDER, "app"),
        "hourly" => hourly(rt, FOLDER, "app"),
        "daily" => daily(rt, FOLDER, "app"),
        "weekly" => weekly(rt, FOLDER, "app"),
        _ => never(rt, FOLDER, "app"),
    }
}

// Writes to a log that has to be opened.
fn say_hello(rt: &impl Abort, opened: Result<impl Write + Drop, InitError>) {
    let mut writer = opened.expect(rt, "an appender");
    writer.write_all(b"hello").expect(rt, "a write");
}

#[test]
fn a_log_of_each_rotation_is_one_file(rt: HostRuntime) {
    for (rotation, wanted) in &ROTATIONS {
        let disk = Disk::new(rt.alloc());
        disk.set_seconds(START);
        say_hello(&rt, open_rotation(rotation, &disk));
        let contents = disk.contents().expect(&rt, "a folder");
        expect_eq(&rt, contents.as_str(), *wanted);
    }
}

// Seconds and nanoseconds since 1970, the second that they are rounded down to, and all of it in nanoseconds.
#[rattlefmt::skip]
static TIMES: [(u64, u32, i64, i128); 7] = [
    (0, 0, 0, 0),
    (1_580_551_259, 999_999_999, 1_580_551_259, 1_580_551_259_999_999_999),
    (1_580_551_260, 0, 1_580_551_260, 1_580_551_260_000_000_000),
    (1_580_551_260, 1, 1_580_551_260, 1_580_551_260_000_000_001),
    (1_580_551_260, 500_000_000, 1_580_551_260, 1_580_551_260_500_000_000),
    (1_580_551_260, 999_999_999, 1_580_551_260, 1_580_551_260_999_999_999),
    // No `i64` has so many seconds.
    (u64::MAX, 0, i64::MIN, 18_446_744_073_709_551_615_000_000_000),
];

// Checks what the clock of a runtime returns.
fn expect_time(rt: &impl Abort, disk: &Disk, wanted: (i64, i128)) {
    let clock = SystemClock::new(Fake::new(disk));
    expect_eq(rt, (clock.now(), clock.now_nanos()), wanted);
}

#[test]
fn the_system_clock_rounds_down(rt: HostRuntime) {
    let disk = Disk::new(rt.alloc());
    // It can't be read.
    expect_time(&rt, &disk, (i64::MIN, i128::MIN));
    for (seconds, nanos, moment, whole) in &TIMES {
        let fraction = Duration::from_nanos(u64::from(*nanos));
        let time = Duration::from_secs(*seconds).saturating_add(fraction);
        disk.time.set(Some(time));
        expect_time(&rt, &disk, (*moment, *whole));
    }
}

// Writes to a log that threads share, whose opening is two calls. The first append is interrupted, and not repeated.
fn write_interrupted<R: AllocAndAbort + Wait + Copy + Drop>(rt: &R, by_writer: bool) {
    let disk = Disk::new(rt.alloc());
    disk.set_seconds(START);
    disk.fault.set(DiskFault::Kind(ErrorKind::Interrupted));
    disk.event.set((3, Event::Fails));
    let (folder, clock) = (folder_of(rt, &disk), SystemClock::new(Fake::new(&disk)));
    let Ok(mut log) = hourly_log(rt, &PLAIN).build_in(*rt, rt.alloc(), folder, clock) else {
        rt.panic("an appender");
    };
    let written = if by_writer {
        log.make_writer().expect(rt, "a writer").write(b"one")
    } else {
        log.write(b"one")
    };
    let fault = written.err().map(|fault| fault.kind());
    expect_eq_of(rt, by_writer, fault, Some(ErrorKind::Interrupted));
    expect_eq_of(rt, by_writer, disk.calls(), 3);
}

#[test]
fn an_interrupted_append_is_made_once(rt: HostRuntime) {
    write_interrupted(&rt, false);
    write_interrupted(&rt, true);
}
