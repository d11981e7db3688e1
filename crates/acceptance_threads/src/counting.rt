// Lines that are counted by a writer where none waits, by itself and in a worker's thread.
use crate::expect::expect_eq;
use crate::gate::{Gate, new_gate};
use crate::plain;
use crate::stage::Queue;
use appender_non_blocking::non_blocking::{Closing, Host};
use appender_worker::worker::{BatchWriter, LineCounts};
use std::alloc::AllocError;
use std::io;
use std::io::{ErrorKind, Write};
use std::process::Abort;

// A line for a gate, the result of its write, how often the gate was called, and what it got.
#[rattlefmt::skip]
static ROWS: [(&str, Result<usize, ErrorKind>, usize, &str); 8] = [
    ("a line", Ok(6), 1, "a line|"),
    ("", Ok(0), 0, ""),
    ("pi", Err(ErrorKind::Other), 102, "p|"),
    ("pppx", Ok(4), 4, "p|p|p|x|"),
    ("often", Ok(5), 101, "often|"),
    ("interrupted", Err(ErrorKind::Other), 101, ""),
    ("pr", Err(ErrorKind::PermissionDenied), 2, "p|"),
    ("zero", Err(ErrorKind::WriteZero), 1, ""),
];

// Ends the test if other lines were counted: those that were taken, and those that were lost.
fn expect_counts<R: Host + Abort>(rt: R, line: &str, counts: &LineCounts, taken: u64, lost: u64) {
    expect_eq(&rt, line, counts.taken(), taken);
    expect_eq(&rt, line, counts.lost(), lost);
}

// Writes a line by a writer of its own, and flushes that. Returns the result.
fn write<R: Host + Abort>(rt: R, line: &str, gate: Gate<R>, is_ok: bool) -> io::Result<usize> {
    let (mut writer, counts) = BatchWriter::new(rt.alloc(), gate, 0)?;
    let result = writer.write(line.as_bytes());
    expect_eq(&rt, line, writer.flush().is_ok(), is_ok);
    expect_counts(rt, line, &counts, u64::from(is_ok), u64::from(!is_ok));
    result
}

#[test]
fn each_line_is_taken_or_lost(rt: HostRuntime) -> Result<(), AllocError> {
    for (line, wanted, calls, text) in &ROWS {
        let (gate, seen) = new_gate(rt, None)?;
        let result = write(rt, *line, gate, wanted.is_ok()).map_err(|fault| fault.kind());
        expect_eq(&rt, *line, result, *wanted);
        expect_eq(&rt, *line, seen.calls(), *calls);
        seen.expect_text(rt, *line, text.as_bytes());
    }
    Ok(())
}

// A worker writes no empty line, so it is not counted.
#[test]
fn lines_of_a_worker_are_taken_or_lost(rt: HostRuntime) -> io::Result<()> {
    let (gate, seen) = new_gate(rt, None)?;
    let (writer, counts) = BatchWriter::new(rt.alloc(), gate, 0)?;
    let (mut sender, guard) = plain::start(rt, Queue::Waiting(16), writer)?;
    for (line, _, _, _) in &ROWS {
        sender.write_all(line.as_bytes())?;
    }
    expect_eq(&rt, "a guard", guard.close(), Closing::Done { left: 0 });
    expect_counts(rt, "a worker", &counts, 3, 4);
    seen.expect_text(rt, "a worker", b"a line|p|p|p|p|x|often|p|");
    Ok(())
}
