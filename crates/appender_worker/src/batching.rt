//! A writer that gathers lines, writes them together, and counts them.
ghost use Rattle.std.specs.Prelude.{
  ◌≡◌,
  ◌≢◌,
  ◌<◌,
  ◌≤◌,
  ◌++◌,
  ◌∷◌,
  ◌||◌,
  [],
  IfOk,
  IfErr,
  length,
  sum,
  is_some,
  OnErr,
  IsTrue,
  take,
  ◌↔◌,
  ℕ,
  true,
  false,
};
ghost use Rattle.std.specs.Option.{option_or};
ghost use Rattle.std.specs.IoError.{error_kind};
ghost use Rattle.std.specs.Io.KnownBytes.{Appends};
ghost use Rattle.appender_worker.specs.Batch.{most_lines};
ghost use Rattle.appender_worker.specs.Inside.Gathered.{lines_of_lengths, WritesGathered, TriesOn};

use crate::counts::{LineCounts, SharedCounts, reported};
use crate::sink::LineSink;
use std::alloc::{AllocError, Global};
use std::io;
use std::io::{ErrorKind, Write};
use std::marker::Model;
use std::sync::Arc;

// The greatest number of lines that wait.
const MOST_LINES: usize = 1024;

/// Gathers whole lines, and writes them together: if there is no room for another one, and at a flush. One write has
/// only whole lines, so an appender puts all of them into one file, at one moment. A worker flushes whenever its queue is
/// empty, so a line waits only while others come. After a fault the line in which it is is given up, and the lines after it
/// are written. Its `LineCounts` leave out the lines that wait. Dropping it writes these, and ignores errors. With a capacity of 0
/// no line waits: each is written by itself, and counted.
pub struct BatchWriter<W: LineSink + Drop> {
    writer: W,
    capacity: usize,
    // The lines that wait, one after another.
    bytes: Vec<u8>,
    // The length of each.
    lengths: Vec<usize>,
    taken: u64,
    lost: u64,
    // The first fault since the last flush. The next one returns it, since the `write` of the line returned `Ok`.
    fault: Option<io::Error>,
    shared: Arc<SharedCounts, Global>,
}

impl<W: LineSink + Drop> Model for BatchWriter<W> {
    ghost use Rattle.std.specs.Prelude.{◌≡◌, ◌≤◌, sum, length, vec_capacity};
    ghost use Rattle.appender_worker.specs.Batch.{Batch, most_lines};
    ghost use Rattle.appender_worker.specs.Inside.Gathered.{lines_of_lengths};

    ghost Value = { Batch W };

    ghost view = { λ b. record {
      writer = b.writer;
      capacity = b.capacity;
      waiting = lines_of_lengths b.lengths.items b.bytes.items;
      taken = b.taken;
      lost = b.lost;
      fault = b.fault;
    } };

    ghost invariant = { λ b. (sum b.lengths.items ≡ length b.bytes.items)
        × (length b.bytes.items ≤ b.capacity) × (b.capacity ≤ vec_capacity b.bytes)
        × (length b.lengths.items ≤ most_lines) × (most_lines ≤ vec_capacity b.lengths) };
}

impl<W: LineSink + Drop> Drop for BatchWriter<W> {
    fn drop(mut self) {
        self.write_waiting();
        let BatchWriter {
            writer: _writer,
            capacity: _,
            bytes: _bytes,
            lengths: _lengths,
            taken: _,
            lost: _,
            fault: _fault,
            shared: _shared,
        } = self;
    }
}

impl<W: LineSink + Drop> BatchWriter<W> {
    ghost use Rattle.appender_worker.specs.Batch.{new_batch, HasRoomFor, IsWithin, saturating_sum, WritesWaiting, Gathers, LosesLine};
    ghost use Rattle.appender_worker.specs.Inside.Gathered.{WritesLine};

    /// Returns a writer that gathers up to 1,024 lines of `capacity` bytes together, and the handle to its counts, which
    /// are 0. A longer line is written by itself. `AllocError` if memory is refused; then the writer is dropped.
    pub fn new(
        alloc: Global,
        writer: W,
        capacity: usize,
    ) -> Result<(BatchWriter<W>, LineCounts), AllocError>
        ensures { IfOk result (λ made. made.0 ≡ new_batch writer capacity) }
    {
        let bytes = Vec::with_capacity(alloc, capacity)?;
        let lengths = Vec::with_capacity(alloc, MOST_LINES)?;
        let shared = SharedCounts::new(alloc)?;
        let counts = LineCounts::of(&shared)?;
        let batch = BatchWriter {
            writer,
            capacity,
            bytes,
            lengths,
            taken: 0,
            lost: 0,
            fault: None,
            shared,
        };
        Ok((batch, counts))
    }

    /// Returns the writer.
    pub fn get_ref(&self) -> &W
        ensures { result.now ≡ self.now.writer }
    {
        &self.writer
    }

    /// Returns the writer. The lines that wait are not written.
    pub fn into_inner(self) -> W
        ensures { result ≡ self.writer }
    {
        let BatchWriter {
            writer,
            capacity: _,
            bytes: _bytes,
            lengths: _lengths,
            taken: _,
            lost: _,
            fault: _fault,
            shared: _shared,
        } = self;
        writer
    }

    /// Returns the number of lines that the writer did not take whole.
    pub fn lost(&self) -> u64
        ensures { result ≡ self.now.lost }
    {
        self.lost
    }

    /// Returns the number of lines that wait.
    #[tactic(auto, using(crate::proofs::Gathered::number_of_lines))]
    pub fn waiting(&self) -> usize
        ensures { result ≡ length self.now.waiting }
    {
        self.lengths.len()
    }

    // Returns whether a line of this length can wait.
    #[tactic(auto, using(crate::proofs::Gathered::length_in_lines, crate::proofs::Gathered::number_of_lines))]
    #[inline(always)]
    fn has_room(&self, length: usize) -> bool
        ensures { IsTrue result ↔ HasRoomFor self.now length }
    {
        length <= self.capacity - self.bytes.len() && self.lengths.len() < MOST_LINES
    }

    // Puts a line after those that wait.
    #[tactic(auto, using(crate::proofs::Gathered::length_in_lines, crate::proofs::Gathered::number_of_lines, crate::proofs::Gathered::lines_in_push, crate::proofs::Gathered::sum_push))]
    #[inline(always)]
    fn gather(&mut self, line: &[u8])
        requires { HasRoomFor self.old (length line.now) }
        ensures { self.new ≡ record self.old { waiting = self.old.waiting ++ line.now ∷ [] } }
    {
        let Ok(()) = self.bytes.extend_from_slice(line) else {
            unreachable!()
        };
        self.lengths.push_reserved(line.len());
    }

    // Counts lines, and keeps the first fault until the next flush.
    #[tactic(auto, using(crate::proofs::Gathered::more_is))]
    fn count(&mut self, outcome: Outcome)
        ensures { self.new ≡ record self.old {
          taken = saturating_sum self.old.taken outcome.taken;
          lost = saturating_sum self.old.lost outcome.lost;
          fault = option_or self.old.fault outcome.fault;
        } }
    {
        let Outcome { taken, lost, fault } = outcome;
        self.taken = self.taken.saturating_add(taken);
        self.lost = self.lost.saturating_add(lost);
        self.shared.store(self.taken, self.lost);
        self.fault = self.fault.take().or(fault);
    }

    // Writes the lines that wait, and then gathers this one, or writes it by itself.
    #[tactic(auto, using(crate::proofs::Batches::within_none, crate::proofs::Batches::within_one))]
    #[cold]
    #[inline(never)]
    fn write_cold(&mut self, line: &[u8]) -> io::Result<usize>
        ensures within { IsWithin self.new }
        ensures ok { IfOk result (λ n. (n ≡ length line.now) × Gathers W.contents W.tries line.now self.old self.new) }
        ensures kind { IfErr result (λ error. error_kind error ≢ ErrorKind.Interrupted) }
        ensures err { OnErr result ((self.old.capacity < length line.now)
            × LosesLine W.contents W.tries line.now self.old self.new) }
    {
        self.write_waiting();
        if line.len() > self.capacity {
            return self.write_alone(line);
        }
        self.gather(line);
        Ok(line.len())
    }

    // Writes the lines that wait.
    fn write_waiting(&mut self)
        ensures { WritesWaiting W.contents W.tries self.old self.new }
    {
        let outcome = write_lines(
            &mut self.writer,
            self.bytes.as_slice(),
            self.lengths.as_slice(),
        );
        self.bytes.clear();
        self.lengths.clear();
        self.count(outcome);
    }

    // Writes a line by itself.
    fn write_alone(&mut self, line: &[u8]) -> io::Result<usize>
        requires { self.old.waiting ≡ [] }
        ensures none_waits { self.new.waiting ≡ [] }
        ensures ok { IfOk result (λ n. (n ≡ length line.now) × (self.new.fault ≡ self.old.fault)
            × WritesLine W.contents W.tries line.now n self.old self.new) }
        ensures kind { IfErr result (λ error. error_kind error ≢ ErrorKind.Interrupted) }
        ensures err { OnErr result (is_some self.new.fault ≡ true) }
        ensures cut { OnErr result ((n : ℕ) × (n < length line.now)
            × WritesLine W.contents W.tries line.now n self.old self.new) }
    {
        match self.writer.write_line(line) {
            Ok(()) => {
                self.count(Outcome {
                    taken: 1,
                    lost: 0,
                    fault: None,
                });
                Ok(line.len())
            }
            Err(fault) => {
                let error = reported(fault);
                self.count(Outcome {
                    taken: 0,
                    lost: 1,
                    fault: Some(io::Error::from(error.kind())),
                });
                Err(error)
            }
        }
    }
}

impl<W: LineSink + Drop> Write for BatchWriter<W> {
    ghost use Rattle.std.specs.Prelude.{None};
    ghost use Rattle.std.specs.Io.{WritesAtMost};
    ghost use Rattle.std.specs.Io.KnownBytes.{Keeps, WriteAppends};
    ghost use Rattle.appender_worker.specs.Batch.{HasRoomFor, IsWithin, Gathers, LosesLine, WritesAndFlushes};

    /// Gathers one whole line. If there is no room for it, the lines that wait are written first. A line longer than the
    /// capacity is written by itself, and only this can fail: the error is that of its last write, but never `Interrupted`.
    /// The next flush reports the fault of another line.
    #[tactic(auto, using(crate::proofs::Batches::gathers_line))]
    #[inline(always)]
    fn write(&mut self, line: &[u8]) -> io::Result<usize>
        ensures bound { WritesAtMost result line.now }
        ensures bytes { WriteAppends None None result line.now }
        ensures room { HasRoomFor self.old (length line.now)
            → self.new ≡ record self.old { waiting = self.old.waiting ++ line.now ∷ [] } }
        ensures within { IsWithin self.new }
        ensures ok { IfOk result (λ n. (n ≡ length line.now) × Gathers W.contents W.tries line.now self.old self.new) }
        ensures kind { IfErr result (λ error. error_kind error ≢ ErrorKind.Interrupted) }
        ensures err { OnErr result ((self.old.capacity < length line.now)
            × LosesLine W.contents W.tries line.now self.old self.new) }
    {
        if self.has_room(line.len()) {
            self.gather(line);
            return Ok(line.len());
        }
        self.write_cold(line)
    }

    /// Writes the lines that wait, and flushes the writer. The error is that of the first line since the last flush that
    /// was not taken whole, or else that of the writer's flush.
    fn flush(&mut self) -> io::Result<()>
        ensures bytes { Keeps None None }
        ensures empty { self.new.waiting ≡ [] }
        ensures empties { WritesAndFlushes W.contents W.tries W.flushes result self.old self.new }
    {
        self.write_waiting();
        let flushed = self.writer.flush_once();
        match self.fault.take() {
            Some(fault) => Err(fault),
            None => flushed,
        }
    }
}

// How many lines a writer took whole and not whole.
#[derive(Drop)]
struct Outcome {
    taken: u64,
    lost: u64,
    // The first fault.
    fault: Option<io::Error>,
}

// Writes lines together. If a write fails, its line is given up, and the lines after it are written. A `BufWriter` of std
// would keep the rest and write it again at the next flush: a full disk would stop it, and no count would be exact.
fn write_lines<W: LineSink>(writer: &mut W, bytes: &[u8], lengths: &[usize]) -> Outcome
    requires total { sum lengths.now ≡ length bytes.now }
    requires few { length lengths.now ≤ most_lines }
    ensures { WritesGathered W.contents W.tries (lines_of_lengths lengths.now bytes.now) writer.old writer.new result }
{
    let (mut taken, mut lost) = (0, 0);
    let mut first = None;
    // The end of the line, and how many bytes were taken or given up.
    let (mut end, mut sent) = (0, 0);
    // Whether the line at `sent` was given up.
    let mut given_up = false;
    for length in lengths {
        end += *length;
        if sent < end && !given_up {
            let (n, failed, fault) = write_on(writer, &bytes[sent..], first);
            sent += n;
            given_up = failed;
            first = fault;
        }
        if sent < end {
            sent = end;
            given_up = false;
            lost += 1;
        } else {
            taken += 1;
        }
    }
    Outcome {
        taken,
        lost,
        fault: first,
    }
}

// Writes as many of these bytes as the writer takes without a fault. Returns how many, whether there was a fault, and
// the first fault so far.
fn write_on<W: LineSink>(
    writer: &mut W,
    rest: &[u8],
    first: Option<io::Error>,
) -> (usize, bool, Option<io::Error>)
    ensures bound { result.0 ≤ length rest.now }
    ensures all { result.1 ≡ false → result.0 ≡ length rest.now }
    ensures some { result.1 ≡ true → result.0 < length rest.now }
    ensures told { is_some result.2 ≡ (result.1 || is_some first) }
    ensures bytes { Appends (W.contents writer.old) (W.contents writer.new) (take result.0 rest.now) }
    ensures tried { TriesOn W.tries writer.old rest.now result.0 first result.2 writer.new }
{
    match writer.write_line(rest) {
        Ok(()) => (rest.len(), false, first),
        Err(fault) => {
            let taken = fault.taken;
            (taken, true, first.or(Some(reported(fault))))
        }
    }
}
