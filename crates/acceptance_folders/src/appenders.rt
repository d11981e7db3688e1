// Appenders over a folder in memory, written by one thread, and what types show.

use crate::expect::{expect_eq, expect_eq_of};
use crate::scene::{
    AllocAndAbort, ELEVEN, START, TestClock, WaitAndAbort, Way, expect_bytes, hourly_log,
    kind_of_error, open_appender,
};
use Act::{Direct, Flush, Short, Writer};
use appender_rolling::rolling::{Builder, InitError, MakeWriter, RollingFileAppender, SystemClock};
use appender_store::store::{Folder, MemoryFolder};
use std::fmt::Debug;
use std::io::{ErrorKind, Write};
use std::process::Abort;
use std::time;

// What is done with an appender.
#[derive(Clone, Copy)]
enum Act {
    // One call of its own `write` takes all of the text.
    Direct,
    // A writer of its own writes all of the text, and is flushed.
    Writer,
    // A writer of its own can't write all of the text.
    Short,
    // It is flushed.
    Flush,
}

// The same, at which moment, and with which text.
type Step = (Act, i64, &'static str);

type Appender<'a, R> = RollingFileAppender<MemoryFolder, &'a TestClock, R>;

// Writes a text by a writer of its own. Returns the kind of the error, if there is one.
fn write_all<R: WaitAndAbort>(rt: &R, appender: &Appender<'_, R>, text: &str) -> Option<ErrorKind> {
    let mut writer = appender.make_writer().expect(rt, "a writer");
    let written = kind_of_error(writer.write_all(text.as_bytes()));
    written.or(kind_of_error(writer.flush()))
}

// Takes a step, and returns how often the clock has to be read for it.
fn take<R: WaitAndAbort>(
    rt: &R,
    appender: &mut Appender<'_, R>,
    clock: &TestClock,
    (act, moment, text): Step,
) -> u64 {
    clock.set(moment);
    match act {
        Act::Direct => {
            let taken = appender.write(text.as_bytes()).expect(rt, "a write");
            expect_eq_of(rt, text, taken, text.len());
        }
        Act::Writer => expect_eq_of(rt, text, write_all(rt, appender, text), None),
        Act::Short => {
            let fault = write_all(rt, appender, text);
            expect_eq_of(rt, text, fault, Some(ErrorKind::WriteZero));
        }
        Act::Flush => {
            appender.flush().expect(rt, "a flush");
            return 0;
        }
    }
    1
}

// Takes these steps, and checks after each how often the clock was read.
fn take_all<R: WaitAndAbort>(
    rt: &R,
    appender: &mut Appender<'_, R>,
    clock: &TestClock,
    steps: &[Step],
) {
    let mut reads = clock.reads();
    for step in steps {
        reads = reads.saturating_add(take(rt, appender, clock, *step));
        expect_eq_of(rt, step.2, clock.reads(), reads);
    }
}

// The limit of bytes; calls of the folder that take at most so many bytes; the steps; and the files.
type Row = (
    u64,
    &'static [(u64, usize)],
    &'static [Step],
    &'static [(&'static str, &'static str)],
);

#[rattlefmt::skip]
static ROWS: [Row; 8] = [
    // A byte at 11:00 and one a second before.
    (0, &[], &[(Direct, ELEVEN, "a"), (Direct, ELEVEN - 1, "b"), (Flush, ELEVEN, "")],
        &[("app.2020-02-01-10", ""), ("app.2020-02-01-11", "ab")]),
    // After two bytes a file is full, and at eleven a period begins.
    (2, &[], &[(Writer, START, "a"), (Writer, START, "b"), (Writer, START, "c"), (Writer, ELEVEN, "d"),
        (Writer, START, "e")],
        &[("app.2020-02-01-10.000000", "ab"), ("app.2020-02-01-10.000001", "c"), ("app.2020-02-01-11.000000", "de")]),
    // Each file contains at most ten bytes, or one piece. An empty piece needs room for one byte.
    (10, &[], &[(Direct, START, "one"), (Direct, START, "and six"), (Direct, START, "x"),
        (Direct, START, ""), (Direct, START, "more than ten"), (Direct, START, ""), (Direct, START, "more than ten more"),
        (Direct, START, "ab"), (Direct, START, "cdefghi"), (Direct, START, "jk"), (Direct, START, "")],
        &[("app.2020-02-01-10.000000", "oneand six"), ("app.2020-02-01-10.000001", "x"),
        ("app.2020-02-01-10.000002", "more than ten"), ("app.2020-02-01-10.000003", "more than ten more"),
        ("app.2020-02-01-10.000004", "abcdefghi"), ("app.2020-02-01-10.000005", "jk")]),
    // A byte of room is left, so no writer begins a file.
    (10, &[], &[(Writer, START, "nine byte"), (Writer, START, "")],
        &[("app.2020-02-01-10.000000", "nine byte")]),
    // A writer may write past the limit.
    (10, &[], &[(Writer, START, "nine byte"), (Writer, START, "past it")],
        &[("app.2020-02-01-10.000000", "nine bytepast it")]),
    // The file is full, so a writer begins the next one before it writes.
    (10, &[], &[(Writer, START, "nine byte"), (Writer, START, "s"), (Writer, START, "")],
        &[("app.2020-02-01-10.000000", "nine bytes"), ("app.2020-02-01-10.000001", "")]),
    (10, &[], &[(Writer, START, "nine byte"), (Writer, START, "past it"), (Writer, START, "a"),
        (Writer, START, "b")],
        &[("app.2020-02-01-10.000000", "nine bytepast it"), ("app.2020-02-01-10.000001", "ab")]),
    // A line continues after a short append, until one takes nothing. Call 4 flushes the first writer.
    (0, &[(2, 2), (5, 1), (6, 0)], &[(Writer, START, "hello "), (Short, START, "bye")],
        &[("app.2020-02-01-10", "hello b")]),
];

// Takes the steps of a row with an appender that is opened at 10:01, and returns its folder.
fn folder_of(rt: &impl WaitAndAbort, (limit, shorts, steps, _): &Row) -> MemoryFolder {
    let mut folder = MemoryFolder::new(rt.alloc());
    for (call, most) in *shorts {
        folder.short_append(*call, *most).expect(rt, "memory");
    }
    let builder = hourly_log(rt).max_file_bytes(*limit);
    let clock = TestClock::new(Way::Steps(0));
    let mut appender = open_appender(rt, &builder, folder, &clock);
    take_all(rt, &mut appender, &clock, steps);
    appender.into_parts().0
}

fn check_rows(rt: &impl WaitAndAbort) {
    for row in &ROWS {
        let folder = folder_of(rt, row);
        expect_eq(rt, folder.failures(), 0);
        expect_bytes(rt, &folder, row.3);
    }
}

#[test]
fn an_appender_reads_the_clock_once_for_each_writer_and_write(rt: HostRuntime) {
    check_rows(&rt);
}

// The `Debug` text of a value.
fn debug_text<T: Copy + Debug>(rt: &impl AllocAndAbort, value: T) -> String {
    format!(in rt.alloc(); "{value:?}").expect(rt, "memory")
}

// Ends the test if the `Debug` text of a value isn't the expected one.
fn expect_shown<T: Copy + Debug>(rt: &impl AllocAndAbort, value: T, wanted: &str) {
    expect_eq(rt, debug_text(rt, value).as_str(), wanted);
}

// Shows an appender of this builder that is opened at 10:01, and a writer of it.
fn expect_shown_appender(rt: &impl WaitAndAbort, builder: &Builder, wanted: &str) {
    let clock = TestClock::new(Way::Steps(0));
    let appender = open_appender(rt, builder, MemoryFolder::new(rt.alloc()), &clock);
    expect_shown(rt, &appender, wanted);
    let writer = appender.make_writer().expect(rt, "a writer");
    expect_shown(rt, &writer, "RollingWriter { .. }");
}

// Shows a log of one thread.
fn expect_shown_log(rt: &impl AllocAndAbort, builder: &Builder, wanted: &str) {
    let clock = TestClock::new(Way::Steps(0));
    match builder.open_in(rt.alloc(), MemoryFolder::new(rt.alloc()), &clock) {
        Ok(log) => expect_shown(rt, &log, wanted),
        Err(_) => rt.panic("not opened"),
    }
}

// The logs that builders with nothing set open.
fn expect_default_shown(rt: &impl WaitAndAbort) {
    for builder in &[
        Builder::default(),
        Builder::new(),
        RollingFileAppender::builder(),
    ] {
        let appender = "RollingFileAppender { open_name: \"2020-02-01\", boundary: None }";
        expect_shown_appender(rt, builder, appender);
        let log = "RollingFile { open_name: \"2020-02-01\", boundary: None }";
        expect_shown_log(rt, builder, log);
    }
}

fn expect_all_shown<R: WaitAndAbort + time::Clock + Debug>(rt: &R) {
    expect_default_shown(rt);
    let builder = hourly_log(rt);
    let appender =
        "RollingFileAppender { open_name: \"app.2020-02-01-10\", boundary: Some(1580554800) }";
    expect_shown_appender(rt, &builder, appender);
    let begins = debug_text(rt, &builder).starts_with("Builder {");
    expect_eq(rt, begins, true);
    let begins = debug_text(rt, &SystemClock::new(*rt)).starts_with("SystemClock {");
    expect_eq(rt, begins, true);
    expect_shown(rt, &InitError::Moment, "Moment");
}

#[test]
fn all_types_can_be_shown(rt: HostRuntime) {
    expect_all_shown(&rt);
}
