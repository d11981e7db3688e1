//! What is between the lines of a run and its log: a writer of a worker, and one without a queue.
ghost use Rattle.std.specs.Prelude.{◌≡◌, ◌≢◌, ◌≤◌, ◌<◌, OnOk, OnErr, [], Some, IfOk, length, take};
ghost use Rattle.std.specs.Io.{WritesAtMost};
ghost use Rattle.std.specs.Io.KnownBytes.{Appends, Keeps, WriteAppends};
ghost use Rattle.rolltee_core.specs.Losses.{HasLostNothing};
ghost use Rattle.rolltee_core.specs.Taken.{PassesLine, WasOpened, TookText};

use crate::feed::{FeedSink, line_length};
use crate::logs::TeeLog;
use crate::losses::TeeLosses;
use crate::waiting::{Asked, LogPlace, WaitingLog};
use line_history::Tape;
use memchr::memrchr;
use std::alloc::AllocError;
use std::io;
use std::io::Write;
use std::marker::Model;
use std::sync::Wait;
use std::time::Clock;
use tracing_appender::worker::{BatchWriter, LineCounts, LineSink};

// The most bytes of lines that a worker writes together.
const CAPACITY: u64 = 1 << 16;

// A file with a limit of bytes has room for at least so many of those that are written together. What does not fit begins
// the next file, so at most this part of a file is left empty, unless a line is longer.
const BATCHES: u64 = 16;

/// The writer of a worker: a log that gathers lines, and may wait. Its contents are the lines that it was given.
#[derive(Drop)]
pub struct TeeWriter<R: Wait + Clock + Eprint + Drop, W: TeeLog + Drop, N: Asked> {
    log: BatchWriter<WaitingLog<R, W, N>>,
    given: Tape,
}

impl<R: Wait + Clock + Eprint + Drop, W: TeeLog + Drop, N: Asked> Model for TeeWriter<R, W, N> {
    ghost use Rattle.std.specs.Prelude.{◌≡◌, ◌++◌, List, ℕ};
    ghost use Rattle.std.specs.List.{concat};

    ghost Value = { List ℕ };

    ghost view = { λ w. concat w.given.lines };

    // Unless a line was not written whole, the log took all lines but those that wait.
    ghost invariant = { λ w. w.log.lost ≡ 0 → concat w.given.lines ≡ w.log.writer ++ concat w.log.waiting };
}

impl<R: Wait + Clock + Eprint + AllocGlobal + Drop, W: TeeLog + Drop, N: Asked> TeeWriter<R, W, N> {
    /// Returns a writer whose log is not opened yet, the place for that, and what shows the counts of lines. Without `waits`
    /// each fault loses a line. The log's files have this limit of bytes, or none if it is 0. `AllocError` if memory is refused.
    pub fn new(
        rt: R,
        waits: bool,
        limit: u64,
    ) -> Result<(TeeWriter<R, W, N>, LogPlace<W, N>, LineCounts), AllocError>
        ensures { IfOk result (λ made. made.0 ≡ []) }
    {
        let alloc = rt.alloc();
        let capacity = if limit == 0 {
            CAPACITY
        } else {
            CAPACITY.min(limit / BATCHES)
        };
        let (log, place) = WaitingLog::new(rt, waits)?;
        let (log, counts) = BatchWriter::new(alloc, log, capacity as usize)?;
        let given = Tape::of(&());
        Ok((TeeWriter { log, given }, place, counts))
    }

    /// Closes the log, and returns what was lost. If that is nothing, the log took exactly the lines that the writer was given.
    pub fn close(self) -> TeeLosses
        ensures { HasLostNothing result → TookText (WasOpened W.opens N.asked) W.takes W.is_kept self }
    {
        let TeeWriter { log, given: _given } = self;
        let unwritten = log.lost().max(log.waiting() as u64);
        let lost = log.into_inner().close();
        TeeLosses {
            unwritten: lost.unwritten.max(unwritten),
            ..lost
        }
    }
}

impl<R: Wait + Clock + Eprint + Drop, W: TeeLog + Drop, N: Asked> Write for TeeWriter<R, W, N> {
    ghost contents = { λ given. Some given };

    /// Takes one whole line.
    fn write(&mut self, line: &[u8]) -> io::Result<usize>
        ensures bound { WritesAtMost result line.now }
        ensures bytes { WriteAppends (Some self.old) (Some self.new) result line.now }
    {
        let taken = gather(&mut self.log, line)?;
        self.given.note(line);
        Ok(taken)
    }

    fn flush(&mut self) -> io::Result<()>
        ensures bytes { Keeps (Some self.old) (Some self.new) }
    {
        self.log.flush()
    }
}

// Takes one whole line. If it is given up, the log is flushed here, since a worker that gave up a line does not flush before it
// sleeps.
fn gather<W: Write + Drop>(log: &mut BatchWriter<W>, line: &[u8]) -> io::Result<usize>
    ensures whole { IfOk result (λ n. n ≡ length line.now) }
    ensures passes { OnOk result (PassesLine W.contents line.now log.old log.new) }
    ensures lost { OnErr result (log.new.lost ≢ 0) }
{
    let taken = log.write(line);
    if taken.is_err() {
        let _ = log.flush();
    }
    taken
}

/// A writer without a queue: lines go to the log at once. Those that are lost are counted.
#[derive(Drop)]
pub struct DirectWriter<R, W: TeeLog + Drop, N: Asked> {
    log: WaitingLog<R, W, N>,
    // The most bytes of lines that are written together.
    most: usize,
    lost: u64,
    given: Tape,
}

impl<R, W: TeeLog + Drop, N: Asked> Model for DirectWriter<R, W, N> {
    ghost use Rattle.std.specs.Prelude.{◌≡◌, List, ℕ};
    ghost use Rattle.std.specs.List.{concat};

    ghost Value = { List ℕ };

    ghost view = { λ w. concat w.given.lines };

    // Unless a line was not written whole, the log took all lines.
    ghost invariant = { λ w. w.lost ≡ 0 → concat w.given.lines ≡ w.log };
}

impl<R: Wait + Clock + Eprint + AllocGlobal + Drop, W: TeeLog + Drop, N: Asked> DirectWriter<
    R,
    W,
    N,
> {
    /// The same as `TeeWriter::new`.
    pub fn new(
        rt: R,
        waits: bool,
        limit: u64,
    ) -> Result<(DirectWriter<R, W, N>, LogPlace<W, N>), AllocError>
        ensures { IfOk result (λ made. made.0 ≡ []) }
    {
        let most = if limit == 0 {
            usize::MAX
        } else {
            (limit / BATCHES) as usize
        };
        let (log, place) = WaitingLog::new(rt, waits)?;
        let writer = DirectWriter {
            log,
            most,
            lost: 0,
            given: Tape::of(&()),
        };
        Ok((writer, place))
    }

    /// The same as `TeeWriter::close`.
    pub fn close(self) -> TeeLosses
        ensures { HasLostNothing result → TookText (WasOpened W.opens N.asked) W.takes W.is_kept self }
    {
        let DirectWriter {
            log,
            most: _,
            lost: given_up,
            given: _given,
        } = self;
        let lost = log.close();
        TeeLosses {
            unwritten: lost.unwritten.max(given_up),
            ..lost
        }
    }
}

impl<R: Wait + Clock + Eprint, W: TeeLog + Drop, N: Asked> FeedSink for DirectWriter<R, W, N> {
    ghost sent = { λ given. given };

    fn send(&mut self, text: &[u8]) -> io::Result<()> {
        let lost = write_lines(&mut self.log, self.most, text);
        self.lost = self.lost.saturating_add(lost);
        self.given.note(text);
        Ok(())
    }

    fn flush(&mut self) {
        // The log counts flushes that fail.
        let _ = self.log.flush();
    }
}

// Writes lines, as many together as may be. If a write fails, its line is given up, and the lines after it are written. Returns
// how many were given up.
fn write_lines<W: LineSink>(log: &mut W, most: usize, text: &[u8]) -> u64
    ensures { result ≡ 0 → Appends (W.contents log.old) (W.contents log.new) text.now }
{
    let mut lost = 0u64;
    let mut rest = text;
    while !rest.is_empty() {
        let (done, given_up) = write_first(log, most, rest);
        lost = lost.saturating_add(given_up);
        rest = &rest[done..];
    }
    lost
}

// Writes the first lines together. Returns how many bytes were written or given up, and how many lines were given up.
fn write_first<W: LineSink>(log: &mut W, most: usize, text: &[u8]) -> (usize, u64)
    requires { 0 < length text.now }
    ensures some { 0 < result.0 }
    ensures bound { result.0 ≤ length text.now }
    ensures whole { result.1 ≡ 0 → Appends (W.contents log.old) (W.contents log.new) (take result.0 text.now) }
{
    let length = length_within(text, most);
    match log.write_line(&text[..length]) {
        Ok(()) => (length, 0),
        Err(fault) => (fault.taken + line_length(&text[fault.taken..]), 1),
    }
}

// Returns the length of all lines of the text, if they are within this, or of as many first lines as are, or of the first one.
fn length_within(text: &[u8], most: usize) -> usize
    requires { 0 < length text.now }
    ensures some { 0 < result }
    ensures bound { result ≤ length text.now }
{
    if text.len() <= most {
        return text.len();
    }
    match memrchr(b'\n', &text[..most]) {
        Some(place) => place + 1,
        None => line_length(text),
    }
}
