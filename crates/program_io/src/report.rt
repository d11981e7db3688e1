//! Reports and prints of a program.

ghost use Rattle.std.specs.Prelude.{◌≡◌, ◌≢◌, ◌<◌, ◌≤◌, IfOk, OnOk, length};
ghost use Rattle.std.specs.Io.KnownBytes.{Appends, WriteAppends};
ghost use Rattle.program_io.specs.Report.{AppendsBeginning};

use std::io;
use std::io::{ErrorKind, Write};

/// Writes all of `words`, and repeats a write that was interrupted. The error is the writer's, or `WriteZero` if it
/// takes no more; then a beginning of the words was written.
pub fn report<E: Write>(errors: &mut E, words: &[u8]) -> io::Result<()>
    ensures whole { OnOk result (Appends (E.contents errors.old) (E.contents errors.new) words.now) }
    ensures beginning { AppendsBeginning (E.contents errors.old) (E.contents errors.new) words.now }
{
    let mut rest = words;
    for _ in 0..u64::MAX {
        if rest.is_empty() {
            return Ok(());
        }
        let taken = write_some(errors, rest)?;
        rest = &rest[taken..];
    }
    Err(io::Error::from(ErrorKind::TimedOut))
}

// Returns how many of these bytes one write takes: none if it was interrupted. Another write of none is an error.
fn write_some<E: Write>(errors: &mut E, bytes: &[u8]) -> io::Result<usize>
    ensures bound { IfOk result (λ n. n ≤ length bytes.now) }
    ensures bytes { WriteAppends (E.contents errors.old) (E.contents errors.new) result bytes.now }
{
    match errors.write(bytes) {
        Ok(0) => Err(io::Error::from(ErrorKind::WriteZero)),
        Err(error) if error.kind() == ErrorKind::Interrupted => Ok(0),
        taken => taken,
    }
}

/// Prints a text that was asked for. Returns the status of the process: 0, or this one if not all was written.
pub fn print<W: Write>(output: &mut W, text: &str, failed: u8) -> u8
    ensures whole { result ≡ 0 → 0 < failed → Appends (W.contents output.old) (W.contents output.new) text.now }
    ensures beginning { AppendsBeginning (W.contents output.old) (W.contents output.new) text.now }
    ensures failed { result ≢ 0 → result ≡ failed }
{
    match report(output, text.as_bytes()) {
        Ok(()) => 0,
        Err(_) => failed,
    }
}

/// Returns the line of a program of this name: its version, that of the Rust crate, and the kit that proved it.
#[macro_export]
macro_rules! version {
    ($name:literal) => {
        concat!(
            $name,
            " 3.0.0 (port of tracing-appender 0.2.5; rattle-kit-13f)\n"
        )
    };
}
