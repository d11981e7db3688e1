//! A supervisor: the output of a child is copied to a log, line by line.
ghost use Rattle.std.specs.Prelude.{◌≡◌, ◌≤◌, ◌↔◌, ℕ, [], ◌∷◌, count_by, List, Some, IfOk, true};
ghost use Rattle.std.specs.Io.KnownBytes.{Appends};
ghost use Rattle.tracing_appender.specs.Parts.{part, written_of, is_cut};
ghost use Rattle.callers.specs.Supervisor.{HasLines, CopiesLines};

use program_io::read_line;
use std::alloc::Global;
use std::io;
use std::io::{BufRead, Write};
use tracing_appender::non_blocking::{Closing, Host, NonBlockingBuilder};
use tracing_appender::worker::{BatchWriter, run_line};

/// The counts of copied lines.
#[derive(Clone, Copy, Debug, PartialEq, Eq)]
pub struct Copied {
    /// The number of lines that were read.
    pub lines: u64,
    /// The number of lines of which the log took a beginning or nothing.
    pub cut: u64,
}

/// Copies each line to the log. A line that the log does not take whole is counted, and the next one follows. The
/// error is that of reading.
pub fn copy<I: BufRead, W: Write>(alloc: Global, input: &mut I, log: &mut W) -> io::Result<Copied>
    ensures lines { IfOk result (λ copied. (text : List ℕ) → I.remaining input.old ≡ Some text
        → HasLines copied.lines text) }
    ensures whole { IfOk result (λ copied. copied.cut ≡ 0 → (text : List ℕ) → I.remaining input.old ≡ Some text
        → Appends (W.contents log.old) (W.contents log.new) text) }
    ensures cut { IfOk result (λ copied. (text : List ℕ) → I.remaining input.old ≡ Some text
        → CopiesLines copied text (W.contents log.old) (W.contents log.new)) }
{
    let mut line = Vec::new(alloc);
    let mut copied = Copied { lines: 0, cut: 0 };
    for _ in 0..u64::MAX {
        if !read_line(input, &mut line)? {
            return Ok(copied);
        }
        copied.lines += 1;
        copied.cut += cut_of(log, line.as_slice());
    }
    Err(io::Error::other("too many lines"))
}

// Writes one line, and returns 1 if the log did not take it whole, else 0.
fn cut_of<W: Write>(log: &mut W, line: &[u8]) -> u64
    ensures whole { result ≡ 0 → Appends (W.contents log.old) (W.contents log.new) line.now }
    ensures cut { (taken : ℕ) × (result ≡ count_by is_cut (part line.now taken ∷ []))
        × Appends (W.contents log.old) (W.contents log.new) (written_of (part line.now taken)) }
    ensures one { result ≤ 1 }
{
    match run_line(log, line) {
        Ok(()) => 0,
        Err(_) => 1,
    }
}

/// The account of the output of a child.
#[derive(Clone, Copy, Debug, PartialEq, Eq)]
pub struct Captured {
    /// The lines that were read, and how many of them were neither queued nor dropped.
    pub copied: Copied,
    /// The number of lines for which the queue had no room.
    pub dropped: usize,
    /// The number of lines that the log took whole.
    pub taken: u64,
    /// The number of lines of which the log took a beginning or nothing.
    pub lost: u64,
    /// The result of closing the log.
    pub closing: Closing,
}

impl Captured {
    /// Returns whether the log took each line whole.
    pub fn is_whole(&self) -> bool
        ensures { (result ≡ true) ↔ (self.now.closing ≡ Closing.Done 0) × (self.now.taken ≡ self.now.copied.lines) }
    {
        matches!(self.closing, Closing::Done { left: 0 }) && self.taken == self.copied.lines
    }
}

/// Copies each line to a queue of 1,024 lines, from which a worker writes to the log. So a slow log never stops the
/// child. The error is that of reading, of the worker's start, or `OutOfMemory`.
pub fn capture<I: BufRead, W: Write + Send + Drop + 'static, R: Host>(
    rt: R,
    input: &mut I,
    log: W,
) -> io::Result<Captured>
    ensures { IfOk result (λ captured. (text : List ℕ) → I.remaining input.old ≡ Some text
        → HasLines captured.copied.lines text) }
{
    let (log, counts) = BatchWriter::new(rt.alloc(), log, 0)?;
    let (mut queue, guard) = NonBlockingBuilder::default()
        .buffered_lines_limit(1024)
        .finish(rt, rt.alloc(), log)?;
    let dropped = queue.error_counter()?;
    let copied = copy(rt.alloc(), input, &mut queue)?;
    let closing = guard.close();
    Ok(Captured {
        copied,
        dropped: dropped.dropped_lines(),
        taken: counts.taken(),
        lost: counts.lost(),
        closing,
    })
}
