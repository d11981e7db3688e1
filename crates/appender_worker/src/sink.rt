//! A writer of whole lines.
ghost use Rattle.std.specs.Prelude.{[], ◌≡◌, ◌<◌, ℕ, List, Result, Option, None, Some, length, take, OnOk, IfErr, IsOk, MatchResult};
ghost use Rattle.std.specs.Io.{WritesAtMost};
ghost use Rattle.std.specs.Io.KnownBytes.{Appends, Keeps, WriteAppends};
ghost use Rattle.std.specs.IoError.{error_kind};
ghost use Rattle.std.specs.declared.io.Error.{Error};
ghost use Rattle.std.specs.declared.io.ErrorKind.{ErrorKind};

use crate::worker::{LineFault, run_line};
use std::io;
use std::io::Write;

/// A writer of whole lines: each `Write`, by `run_line`. Where a contract is proved for any `LineSink`, only a call of
/// its functions can meet a clause on `tries`, `writes` or `flushes`. So such a clause says that the call was made.
pub trait LineSink: Write {
    // Whether a write of the bytes was tried between these two states, this number of the first of them was taken, and
    // the fault was of this kind.
    ghost tries: { Self → List ℕ → ℕ → Option ErrorKind → Self → Type 0 };

    // Whether one write of the bytes, between these two states, returned this.
    ghost writes: { Self → List ℕ → Result ℕ Error → Self → Type 0 };

    // Whether one flush, between these two states, returned this.
    ghost flushes: { Self → Result Unit Error → Self → Type 0 };

    /// Writes one line. An interrupted write is tried again, at most 100 times.
    fn write_line(&mut self, line: &[u8]) -> Result<(), LineFault>
        ensures ok { OnOk result (Appends (Self.contents self.old) (Self.contents self.new) line.now) }
        ensures fault { IfErr result (λ f. (f.taken < length line.now)
            × Appends (Self.contents self.old) (Self.contents self.new) (take f.taken line.now)) }
        ensures empty { line.now ≡ [] → IsOk result }
        ensures tried { MatchResult result (λ _. tries self.old line.now (length line.now) None self.new)
            (λ f. tries self.old line.now f.taken (Some (error_kind f.error)) self.new) };

    /// Makes one write, as `Write::write`.
    fn write_once(&mut self, bytes: &[u8]) -> io::Result<usize>
        ensures bound { WritesAtMost result bytes.now }
        ensures bytes { WriteAppends (Self.contents self.old) (Self.contents self.new) result bytes.now }
        ensures written { writes self.old bytes.now result self.new };

    /// Makes one flush, as `Write::flush`.
    fn flush_once(&mut self) -> io::Result<()>
        ensures bytes { Keeps (Self.contents self.old) (Self.contents self.new) }
        ensures flushed { flushes self.old result self.new };
}

impl<W: Write> LineSink for W {
    ghost tries = { λ _ _ _ _ _. Unit {0} };

    ghost writes = { λ _ _ _ _. Unit {0} };

    ghost flushes = { λ _ _ _. Unit {0} };

    fn write_line(&mut self, line: &[u8]) -> Result<(), LineFault> {
        run_line(self, line)
    }

    #[inline(always)]
    fn write_once(&mut self, bytes: &[u8]) -> io::Result<usize> {
        self.write(bytes)
    }

    #[inline(always)]
    fn flush_once(&mut self) -> io::Result<()> {
        self.flush()
    }
}
