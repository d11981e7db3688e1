//! The worker between a queue and its writer as a state machine, with no thread, and the writing of one
//! line.
ghost use Rattle.std.specs.Prelude.{◌≡◌, ◌<◌, [], length, true, OnOk, IfErr, IsOk, take};
ghost use Rattle.std.specs.Io.KnownBytes.{Appends};
ghost use Rattle.appender_worker.specs.CoreReplies.{answer_of};
ghost use Rattle.appender_worker.specs.Inside.LineSteps.{IsNextStep};

pub use crate::batching::BatchWriter;
pub use crate::counts::LineCounts;
pub use crate::sink::LineSink;
use appender_queue::queue::Taken;
use std::io::{ErrorKind, Write};
use std::marker::Model;
use std::{io, mem};

// How often the writing of one line may be interrupted and tried again.
const MOST_REPEATS: u32 = 100;

/// What the worker does next.
#[derive(Clone, Copy, Debug, PartialEq, Eq)]
pub enum Want<'a> {
    /// A take from the queue.
    Take {
        /// Whether to wait if nothing is there.
        waits: bool,
    },
    /// One write of these bytes, the rest of the line in hand.
    Write(&'a [u8]),
    /// One flush of the writer.
    Flush,
    /// Nothing, for good.
    Ended,
}

#[derive(Debug, Drop)]
enum State {
    Take {
        waits: bool,
    },
    Write {
        line: Vec<u8>,
        from: usize,
        repeats: u32,
    },
    Flush,
    End {
        flushes: u8,
    },
    Ended,
}

/// What a worker does between a queue and a writer. The caller does what `want` returns, and passes on the
/// result by `took`, `wrote` or `flushed`. Contracts see it as a `Core`.
#[derive(Debug, Drop)]
pub struct WorkerCore {
    state: State,
    // The buffer of the line that was written last, until it is taken.
    spent: Option<Vec<u8>>,
}

impl Model for WorkerCore {
    ghost use Rattle.appender_worker.specs.Core.{Core};
    ghost use Rattle.appender_worker.specs.Inside.CoreState.{core_of, IsValidState};

    ghost Value = { Core };

    ghost view = { λ c. core_of c.state };

    ghost invariant = { λ c. IsValidState c.state };
}

impl WorkerCore {
    ghost use Rattle.appender_worker.specs.Core.{
      Taking,
      after_took,
      after_wrote,
      after_flushed,
      is_taking,
      is_writing,
      is_flushing,
    };
    ghost use Rattle.appender_worker.specs.CoreReplies.{HasWant, found_in};
    ghost use Rattle.appender_worker.specs.Runs.{WritesOnce};

    /// Returns a worker that begins with a take that waits.
    pub fn new() -> WorkerCore
        ensures { result ≡ Taking true }
    {
        WorkerCore {
            state: State::Take { waits: true },
            spent: None,
        }
    }

    /// Returns the buffer of the line that was written or given up last, to be used for another line, if it was
    /// not taken before.
    #[inline(always)]
    pub fn take_spent(&mut self) -> Option<Vec<u8>>
        ensures { self.new ≡ self.old }
    {
        self.spent.take()
    }

    /// Returns what to do next.
    pub fn want(&self) -> Want<'_>
        ensures { HasWant self.now result }
    {
        match &self.state {
            State::Take { waits } => Want::Take { waits: *waits },
            State::Write { line, from, .. } => Want::Write(&line.as_slice()[*from..]),
            State::Flush | State::End { .. } => Want::Flush,
            State::Ended => Want::Ended,
        }
    }

    /// Passes on the reply to a take.
    pub fn took(&mut self, taken: Taken)
        requires { is_taking self.old ≡ true }
        ensures { self.new ≡ after_took self.old (found_in taken) }
    {
        self.state = match taken {
            Taken::Line(_, line) => {
                if line.is_empty() {
                    State::Take { waits: false }
                } else {
                    State::Write {
                        line,
                        from: 0,
                        repeats: 0,
                    }
                }
            }
            Taken::Shutdown | Taken::Gone => State::End { flushes: 2 },
            Taken::Empty => match &self.state {
                State::Take { waits: false } => State::Flush,
                _ => State::Take { waits: true },
            },
        };
    }

    /// Makes one write of the rest of the line in hand, and passes on its result.
    pub fn write<W: LineSink>(&mut self, writer: &mut W)
        requires { is_writing self.old ≡ true }
        ensures { WritesOnce W.contents W.writes writer.old writer.new self.old self.new }
    {
        let Want::Write(rest) = self.want() else {
            unreachable!()
        };
        let answer = writer.write_once(rest);
        self.wrote(answer);
    }

    /// Passes on the result of a write.
    pub fn wrote(&mut self, answer: io::Result<usize>)
        requires { is_writing self.old ≡ true }
        ensures { self.new ≡ after_wrote self.old (answer_of answer) }
    {
        let State::Write {
            line,
            from,
            repeats,
        } = &mut self.state
        else {
            unreachable!()
        };
        match next(line.len() - *from, *repeats, &answer) {
            Step::More(n) => *from += n,
            Step::Again => *repeats += 1,
            Step::Whole => self.end_line(false),
            Step::GivenUp => self.end_line(true),
        }
    }

    // Ends the line in hand, and keeps its buffer.
    fn end_line(&mut self, waits: bool)
        ensures { self.new ≡ Taking waits }
    {
        let ended = mem::replace(&mut self.state, State::Take { waits });
        if let State::Write { line, .. } = ended {
            self.spent = Some(line);
        }
    }

    /// Passes on the result of a flush. An error changes nothing.
    pub fn flushed(&mut self, answer: io::Result<()>)
        requires { is_flushing self.old ≡ true }
        ensures { self.new ≡ after_flushed self.old }
    {
        let _ = answer;
        self.state = match &self.state {
            State::Flush => State::Take { waits: true },
            State::End { flushes: 2 } => State::End { flushes: 1 },
            _ => State::Ended,
        };
    }
}

// What comes after one write of the rest of a line.
#[derive(Clone, Copy)]
enum Step {
    More(usize),
    Again,
    Whole,
    GivenUp,
}

fn next(rest: usize, repeats: u32, answer: &io::Result<usize>) -> Step
    requires { 0 < rest }
    ensures { IsNextStep rest repeats (answer_of answer.now) result }
{
    match answer {
        Ok(0) => Step::GivenUp,
        Ok(n) if *n >= rest => Step::Whole,
        Ok(n) => Step::More(*n),
        Err(e) => {
            if matches!(e.kind(), ErrorKind::Interrupted) && repeats < MOST_REPEATS {
                Step::Again
            } else {
                Step::GivenUp
            }
        }
    }
}

/// A line that was given up.
#[derive(Debug, Drop)]
pub struct LineFault {
    /// How many of its first bytes were taken.
    pub taken: usize,
    /// The error of the last write; `WriteZero` if that took nothing.
    pub error: io::Error,
}

/// Writes one line, as a worker does: an interrupted write is tried again, at most 100 times.
/// An empty line makes no write.
pub fn run_line<W: Write>(writer: &mut W, line: &[u8]) -> Result<(), LineFault>
    ensures ok { OnOk result (Appends (W.contents writer.old) (W.contents writer.new) line.now) }
    ensures fault { IfErr result (λ f. (f.taken < length line.now)
        × Appends (W.contents writer.old) (W.contents writer.new) (take f.taken line.now)) }
    ensures empty { line.now ≡ [] → IsOk result }
{
    let mut from = 0;
    let mut repeats = 0;
    while from < line.len() {
        let answer = writer.write(&line[from..]);
        match next(line.len() - from, repeats, &answer) {
            Step::More(n) => from += n,
            Step::Again => repeats += 1,
            Step::Whole => return Ok(()),
            Step::GivenUp => return Err(fault(from, answer)),
        }
    }
    Ok(())
}

fn fault(taken: usize, answer: io::Result<usize>) -> LineFault
    ensures { result.taken ≡ taken }
{
    let error = match answer {
        Ok(_) => io::Error::from(ErrorKind::WriteZero),
        Err(e) => e,
    };
    LineFault { taken, error }
}
