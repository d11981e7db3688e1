// The writing of one line, and of lines that are written together.
use crate::expect::{AllocAndAbort, bytes, expect_eq, expect_eq_of};
use crate::writer::Act::{Accept, Fail};
use crate::writer::{Act, FaultyWriter};
use appender_core::worker::{BatchWriter, LineCounts, run_line};
use std::io;
use std::io::ErrorKind::{Interrupted, Other, QuotaExceeded, StorageFull, WriteZero};
use std::io::{ErrorKind, Write};
use std::test::*;

// A line, the writer's acts, its text and its writes at the end, and the fault with how many bytes were taken before it.
#[rattlefmt::skip]
type LineRun = (&'static str, &'static [Act], &'static str, u32, Option<(usize, ErrorKind)>);

#[rattlefmt::skip]
static LINE_RUNS: [LineRun; 6] = [
    ("x", &[Fail(Interrupted); 100], "x", 101, None),
    ("x", &[Fail(Interrupted); 101], "", 101, Some((0, Interrupted))),
    ("hello", &[Accept(2), Fail(Other)], "he", 2, Some((2, Other))),
    ("hello", &[Accept(3), Accept(0)], "hel", 2, Some((3, WriteZero))),
    ("hello", &[Fail(Interrupted), Accept(1), Fail(Interrupted)], "hello", 4, None),
    ("", &[], "", 0, None),
];

fn check_line(rt: &impl AllocAndAbort, row: usize, run: &LineRun) {
    let (line, acts, text, writes, wanted) = run;
    let mut writer = FaultyWriter::new(rt.alloc(), acts);
    let fault = match run_line(&mut writer, line.as_bytes()) {
        Ok(()) => None,
        Err(fault) => Some((fault.taken, fault.error.kind())),
    };
    expect_eq_of(rt, row, fault, *wanted);
    expect_eq_of(rt, row, writer.text.as_slice(), text.as_bytes());
    expect_eq_of(rt, row, (writer.writes, writer.flushes), (*writes, 0));
}

#[test]
fn a_line_is_written(rt: HostRuntime) {
    for (row, run) in LINE_RUNS.iter().enumerate() {
        check_line(&rt, row, run);
    }
    let mut text = bytes(&rt, "one\n");
    expect_eq(&rt, run_line(&mut text, b"two\n").is_ok(), true);
    expect_eq(&rt, text.as_slice(), b"one\ntwo\n".as_slice());
}

// A capacity in bytes, lines, and the writer's acts. How many of the lines it took whole and not whole, its text and its
// writes at the end, and the error of the flush after the lines.
#[rattlefmt::skip]
type BatchRun = (usize, &'static [&'static str], &'static [Act], (u64, u64), &'static str, u32, Option<ErrorKind>);

#[rattlefmt::skip]
static BATCH_RUNS: [BatchRun; 14] = [
    (8, &["ab\n", "cd\n", "ef\n"], &[], (3, 0), "ab\ncd\nef\n", 2, None),
    (6, &["ab\n", "cd\n"], &[], (2, 0), "ab\ncd\n", 1, None),
    (4, &["ab\n", "longer\n", "cd\n"], &[], (3, 0), "ab\nlonger\ncd\n", 3, None),
    (0, &["a", "", "b"], &[], (3, 0), "ab", 2, None),
    (16, &["", "", ""], &[], (3, 0), "", 0, None),
    // A line may have newlines in it, or none.
    (8, &["a\nb\n", "c", "\n\n", "d\n"], &[Accept(4), Fail(Other)], (3, 1), "a\nb\n\n\nd\n", 4, Some(Other)),
    (1, &["a", "\n", "b\n", "", "c"], &[], (5, 0), "a\nb\nc", 4, None),
    // The second line is cut, and the third comes after its beginning.
    (16, &["ab\n", "cd\n", "ef\n"], &[Accept(4), Fail(StorageFull)], (2, 1), "ab\ncef\n", 3, Some(StorageFull)),
    // The fault is between two lines.
    (16, &["ab\n", "", "cd\n", "ef\n"], &[Accept(3), Fail(Other)], (3, 1), "ab\nef\n", 3, Some(Other)),
    // Each line has a fault, and the first one is reported.
    (16, &["ab\n", "cd\n"], &[Accept(0), Fail(Other)], (0, 2), "", 2, Some(WriteZero)),
    (16, &["ab\n", "cd\n"], &[Fail(Interrupted); 100], (2, 0), "ab\ncd\n", 101, None),
    (16, &["ab\n", "cd\n"], &[Fail(Interrupted); 101], (1, 1), "cd\n", 102, Some(Other)),
    // The flush reports a fault of lines that make room, and of a line by itself.
    (4, &["ab\n", "cd\n"], &[Fail(StorageFull)], (1, 1), "cd\n", 2, Some(StorageFull)),
    (2, &["a\n", "longer\n", "b\n"], &[Accept(2), Accept(3), Fail(StorageFull)], (2, 1), "a\nlonb\n", 4, Some(StorageFull)),
];

// Is interrupted 60 times, and then takes one byte.
#[derive(Drop)]
struct Stutters {
    interruptions: u32,
}

impl Write for Stutters {
    fn write(&mut self, buf: &[u8]) -> io::Result<usize> {
        if self.interruptions < 60 {
            self.interruptions += 1;
            return Err(io::Error::from(Interrupted));
        }
        self.interruptions = 0;
        Ok(buf.len().min(1))
    }

    fn flush(&mut self) -> io::Result<()> {
        Ok(())
    }
}

// Interruptions count for a line, whatever of it was taken between them.
#[test]
fn a_line_is_interrupted_a_hundred_times_in_all(rt: HostRuntime) {
    let mut writer = Stutters { interruptions: 0 };
    expect_eq(&rt, run_line(&mut writer, b"x").is_ok(), true);
    let fault = run_line(&mut writer, b"xy").err();
    let told = fault.map(|fault| (fault.taken, fault.error.kind()));
    expect_eq(&rt, told, Some((1, Interrupted)));
}

fn kind_of<T: Drop>(answer: io::Result<T>) -> Option<ErrorKind> {
    answer.err().map(|error| error.kind())
}

fn counts_of(counts: &LineCounts) -> (u64, u64) {
    (counts.taken(), counts.lost())
}

// Writes each line, and returns the last error.
fn write_each(writer: &mut impl Write, lines: &[&str]) -> Option<ErrorKind> {
    let mut error = None;
    for line in lines {
        if let Err(fault) = writer.write(line.as_bytes()) {
            error = Some(fault.kind());
        }
    }
    error
}

fn check_batch(rt: &impl AllocAndAbort, row: usize, run: &BatchRun, flushes_fail: bool) {
    let (capacity, lines, acts, wanted, text, writes, error) = run;
    let mut writer = FaultyWriter::new(rt.alloc(), acts);
    writer.flushes_fail = flushes_fail;
    let made = BatchWriter::new(rt.alloc(), &mut writer, *capacity);
    let (mut batch, counts) = made.expect(rt, "memory");
    let written = write_each(&mut batch, lines);
    // Only the write of a line by itself reports its error.
    let is_alone = lines.iter().any(|line| line.len() > *capacity);
    expect_eq_of(rt, row, written, if is_alone { *error } else { None });
    // The error of a line is reported once, and before that of a flush.
    let fault = if flushes_fail {
        Some(QuotaExceeded)
    } else {
        None
    };
    expect_eq_of(rt, row, kind_of(batch.flush()), error.or(fault));
    expect_eq_of(rt, row, counts_of(&counts), *wanted);
    expect_eq_of(rt, row, kind_of(batch.flush()), fault);
    drop(batch);
    expect_eq_of(rt, row, writer.text.as_slice(), text.as_bytes());
    expect_eq_of(rt, row, (writer.writes, writer.flushes), (*writes, 2));
}

#[test]
fn lines_are_written_together(rt: HostRuntime) {
    for (row, run) in BATCH_RUNS.iter().enumerate() {
        check_batch(&rt, row, run, false);
        check_batch(&rt, row, run, true);
    }
}

static MANY: [&str; 1025] = ["a\n"; 1025];

static REFUSALS: [Act; 1025] = [Fail(Other); 1025];

// Each line that is lost counts.
#[test]
fn all_of_many_lines_are_lost(rt: HostRuntime) {
    let mut writer = FaultyWriter::new(rt.alloc(), &REFUSALS);
    let made = BatchWriter::new(rt.alloc(), &mut writer, 0);
    let (mut batch, counts) = made.expect(&rt, "memory");
    expect_eq(&rt, write_each(&mut batch, &MANY), Some(Other));
    expect_eq(&rt, counts_of(&counts), (0, 1025));
}

// Lines of 100 bytes.
#[rattlefmt::skip]
static LONG: [&str; 1000] = [
    "xxxxxxxxxxxxxxxxxxxxxxxxxxxxxxxxxxxxxxxxxxxxxxxxxxxxxxxxxxxxxxxxxxxxxxxxxxxxxxxxxxxxxxxxxxxxxxxxxxxx"; 1000
];

// Only a flush, and a line without room, write. So does the end of a writer. 655 lines of 100 bytes fit into 64 KiB.
#[test]
fn lines_wait_for_a_flush(rt: HostRuntime) {
    let mut writer = FaultyWriter::new(rt.alloc(), &[]);
    let made = BatchWriter::new(rt.alloc(), &mut writer, 1 << 16);
    let (mut batch, counts) = made.expect(&rt, "memory");
    expect_eq(&rt, write_each(&mut batch, &MANY), None);
    expect_eq(&rt, counts_of(&counts), (1024, 0));
    expect_eq(&rt, batch.flush().is_ok(), true);
    expect_eq(&rt, counts_of(&counts), (1025, 0));
    for _ in 0..100 {
        expect_eq(&rt, write_each(&mut batch, &LONG), None);
    }
    // 152 times 655 lines.
    expect_eq(&rt, counts_of(&counts), (100_585, 0));
    drop(batch);
    expect_eq(&rt, counts_of(&counts), (101_025, 0));
    expect_eq(&rt, writer.text.len(), 10_002_050);
    expect_eq(&rt, (writer.writes, writer.flushes), (155, 1));
}

// Lines of 16 bytes together.
static LINES: [&str; 7] = ["a\n", "bc\n", "", "d\ne\n", "\n", "fgh\n", "ij"];

// What a log holds if a write fails after this many bytes, and the counts.
type Written = (Vec<u8>, (u64, u64));

fn write_alone(rt: &impl AllocAndAbort, place: usize) -> Written {
    let mut writer = FaultyWriter::new(rt.alloc(), &[]);
    writer.room = Some(place);
    let (mut taken, mut lost) = (0u64, 0u64);
    for line in &LINES {
        let count = match run_line(&mut writer, line.as_bytes()) {
            Ok(()) => &mut taken,
            Err(_) => &mut lost,
        };
        *count = count.saturating_add(1);
    }
    let FaultyWriter { text, .. } = writer;
    (text, (taken, lost))
}

fn write_together(rt: &impl AllocAndAbort, place: usize, capacity: usize) -> Written {
    let mut writer = FaultyWriter::new(rt.alloc(), &[]);
    writer.room = Some(place);
    let made = BatchWriter::new(rt.alloc(), &mut writer, capacity);
    let (mut batch, counts) = made.expect(rt, "memory");
    let _ = write_each(&mut batch, &LINES);
    let _ = batch.flush().is_ok();
    drop(batch);
    let FaultyWriter { text, .. } = writer;
    (text, counts_of(&counts))
}

#[test]
fn faults_leave_what_they_leave_of_single_lines(rt: HostRuntime) {
    for place in 0..17usize {
        let (wanted, lines) = write_alone(&rt, place);
        for capacity in [0usize, 1, 3, 6, 16, 64] {
            let (text, counts) = write_together(&rt, place, capacity);
            expect_eq_of(&rt, (place, capacity), text.as_slice(), wanted.as_slice());
            expect_eq_of(&rt, (place, capacity), counts, lines);
        }
    }
}
