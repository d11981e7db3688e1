// Scripts of `rollplay`, carried out by an appender in each way to write and by a roller, and how often a log reads its
// clock.
use crate::expect::{AllocAndAbort, expect_eq, expect_eq_of};
use crate::scripts::{notices_in, read, roll_in};
use acceptance_rollplay::rows::{PLAYED, first_row};
use std::cell::Cell;
use std::io;
use std::io::Write;
use std::process::Abort;
use std::sync::Wait;
use tracing_appender::replay::RollStep;
use tracing_appender::rolling::{Builder, Clock, MakeWriter, Roller, RollingFile, Switch};
use tracing_appender::store::{Folder, MemoryFolder};

// A clock that returns the moment that was set last, and counts its readings.
#[derive(Drop)]
struct TestClock {
    moment: Cell<i64>,
    reads: Cell<u64>,
}

impl TestClock {
    fn new() -> TestClock {
        TestClock {
            moment: Cell::new(0),
            reads: Cell::new(0),
        }
    }

    // Shows the moment of a step, if it has one.
    fn follow(&self, step: &RollStep) {
        if let RollStep::See(moment) | RollStep::Put(moment, _) = step {
            self.moment.set(*moment);
        }
    }
}

impl Clock for TestClock {
    ghost now_gives = { λ clock m. Unit {0} };

    fn now(&self) -> i64 {
        self.reads.set(self.reads.get().wrapping_add(1));
        self.moment.get()
    }
}

// Opens the log of a script for one thread.
fn open_file<'a>(
    rt: &impl AllocAndAbort,
    text: &str,
    clock: &'a TestClock,
) -> RollingFile<MemoryFolder, &'a TestClock> {
    let (builder, folder, start, _) = read(rt, text);
    clock.moment.set(start);
    open_in(rt, &builder, folder, clock)
}

fn open_in<'a>(
    rt: &impl AllocAndAbort,
    builder: &Builder,
    folder: MemoryFolder,
    clock: &'a TestClock,
) -> RollingFile<MemoryFolder, &'a TestClock> {
    match builder.open_in(rt.alloc(), folder, clock) {
        Ok(file) => file,
        Err(_) => rt.panic("a log that is not opened"),
    }
}

// How an appender is written: by itself or by a writer that it makes for each step, and by `write` or by `write_all`.
#[derive(Clone, Copy, Debug)]
struct Way {
    by_writers: bool,
    whole: bool,
}

#[rattlefmt::skip]
static WAYS: [Way; 4] = [
    Way { by_writers: false, whole: false }, Way { by_writers: false, whole: true },
    Way { by_writers: true, whole: false }, Way { by_writers: true, whole: true },
];

// For each step how many bytes were taken, or nothing after an error, and the folder at the end.
type Written = (Vec<Option<usize>>, MemoryFolder);

// This number, or nothing after an error.
fn counted(answer: &io::Result<()>, count: usize) -> Option<usize> {
    match answer {
        Ok(()) => Some(count),
        Err(_) => None,
    }
}

// Takes a step, but no check of the clock.
fn take(writer: &mut impl Write, step: &RollStep, whole: bool) -> Option<usize> {
    match step {
        RollStep::See(_) => Some(0),
        RollStep::Flush => counted(&writer.flush(), 0),
        RollStep::Put(_, bytes) | RollStep::Write(bytes) => {
            if whole {
                counted(&writer.write_all(bytes), bytes.len())
            } else {
                writer.write(bytes).ok()
            }
        }
    }
}

// Carries out a script by an appender. A script's `write` is a write at the last moment.
fn write_out<R: AllocAndAbort + Wait + Copy + Drop>(rt: R, text: &str, way: Way) -> Written {
    let clock = TestClock::new();
    let mut appender = open_file(&rt, text, &clock).share(rt);
    let mut told = Vec::new(rt.alloc());
    let (_, _, _, steps) = read(&rt, text);
    for step in &steps {
        clock.follow(step);
        let taken = if way.by_writers || matches!(step, RollStep::See(_)) {
            match appender.make_writer() {
                Ok(mut writer) => take(&mut writer, step, way.whole),
                Err(_) => None,
            }
        } else {
            take(&mut appender, step, way.whole)
        };
        told.push(taken).expect(&rt, "memory");
    }
    let (folder, _) = appender.into_parts();
    (told, folder)
}

// Takes a step with a roller, as an appender is to take it. `write_all` makes no write of no bytes.
fn roll_step(
    roller: &mut Roller<MemoryFolder>,
    step: &RollStep,
    moment: i64,
    way: Way,
) -> Option<usize> {
    if way.by_writers || matches!(step, RollStep::See(_)) {
        let _ = roller.see(moment);
    }
    match step {
        RollStep::See(_) => Some(0),
        RollStep::Flush => counted(&roller.flush(), 0),
        RollStep::Put(_, bytes) | RollStep::Write(bytes) => {
            if way.whole && bytes.is_empty() {
                Some(0)
            } else if way.by_writers {
                roller.write(bytes).ok()
            } else {
                roller.put(moment, bytes).1.ok()
            }
        }
    }
}

// Carries out a script by a roller.
fn roll_out(rt: &impl AllocAndAbort, text: &str, way: Way) -> Written {
    let (builder, folder, start, steps) = read(rt, text);
    let mut roller = roll_in(rt, &builder, folder, start, &[]);
    let clock = TestClock::new();
    clock.moment.set(start);
    let mut told = Vec::new(rt.alloc());
    for step in &steps {
        clock.follow(step);
        let taken = roll_step(&mut roller, step, clock.moment.get(), way);
        told.push(taken).expect(rt, "memory");
    }
    (told, roller.into_folder())
}

// Checks that two folders have the same content, failures and notices.
fn expect_same(rt: &impl AllocAndAbort, text: &str, got: &MemoryFolder, wanted: &MemoryFolder) {
    let (names, others) = (wanted.names(), got.names());
    let names = names.expect(rt, "memory");
    expect_eq_of(rt, text, others.expect(rt, "memory").len(), names.len());
    for name in &names {
        let name = name.as_str();
        expect_eq_of(rt, text, got.kind(name), wanted.kind(name));
        expect_eq_of(rt, text, got.bytes(name), wanted.bytes(name));
        expect_eq_of(rt, text, got.target(name), wanted.target(name));
    }
    expect_eq_of(rt, text, got.failures(), wanted.failures());
    expect_eq_of(rt, text, notices_in(got), notices_in(wanted));
}

fn expect_ways<R: AllocAndAbort + Wait + Copy + Drop>(rt: R, text: &str) {
    for way in &WAYS {
        // What `write_all` makes of a short write is compared below.
        if !way.whole || !text.contains("\nshort ") {
            let (got, wanted) = (write_out(rt, text, *way), roll_out(&rt, text, *way));
            expect_eq_of(&rt, (text, *way), got.0.as_slice(), wanted.0.as_slice());
            expect_same(&rt, text, &got.1, &wanted.1);
        }
    }
}

#[test]
fn appenders_write_what_a_roller_writes(rt: HostRuntime) {
    let mut rest = PLAYED.text;
    for _ in 0..PLAYED.rows {
        let (script, _, behind) = first_row(rest).expect(&rt, "a row");
        expect_ways(rt, script);
        rest = behind;
    }
    expect_eq(&rt, rest, "");
}

// The first write takes one byte.
const SHORT: &str = "rotation hourly\nprefix app\nbytes 4\nshort 3 1\nstart 1580551260\n\
    put 1580551260 abcd\nput 1580551260 xyz\nput 1580551260 q\n";

// The rest of the line is written to the same file, and counts.
#[test]
fn a_short_write_is_followed_by_the_rest(rt: HostRuntime) {
    for by_writers in [false, true] {
        let whole = true;
        let (told, folder) = write_out(rt, SHORT, Way { by_writers, whole });
        expect_eq(&rt, told.as_slice(), [Some(4), Some(3), Some(1)].as_slice());
        let (first, second) = ("app.2020-02-01-10.000000", "app.2020-02-01-10.000001");
        expect_eq(&rt, folder.bytes(first), Some(b"abcd".as_slice()));
        expect_eq(&rt, folder.bytes(second), Some(b"xyzq".as_slice()));
    }
}

// Checks how often a call read the clock.
fn expect_reads(rt: &impl Abort, clock: &TestClock, reads: u64) {
    expect_eq(rt, clock.reads.replace(0), reads);
}

// A `put` reads the clock once, at a boundary too. Other calls read it once or not at all.
#[test]
fn a_call_reads_the_clock_once_at_most(rt: HostRuntime) {
    let clock = TestClock::new();
    let mut log = open_file(&rt, "rotation hourly\nprefix app\nstart 0\n", &clock);
    expect_reads(&rt, &clock, 1);
    expect_eq(&rt, log.put(b"a").0, Switch::None);
    expect_reads(&rt, &clock, 1);
    clock.moment.set(3600);
    expect_eq(&rt, log.put(b"a").0, Switch::Opened);
    expect_reads(&rt, &clock, 1);
    expect_eq(&rt, log.write(b"a").is_ok(), true);
    expect_reads(&rt, &clock, 1);
    expect_eq(&rt, log.write_all(b"ab").is_ok(), true);
    expect_reads(&rt, &clock, 1);
    expect_eq(&rt, log.moment(), 3600);
    expect_reads(&rt, &clock, 1);
    expect_eq(&rt, (log.due(3600), log.see(3600)), (false, Switch::None));
    expect_eq(&rt, log.append(b"a").is_ok(), true);
    expect_eq(&rt, log.flush().is_ok(), true);
    expect_reads(&rt, &clock, 0);
}
