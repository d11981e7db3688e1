//! A writer that waits while the writer below has a fault that may pass.
ghost use Rattle.std.specs.Prelude.{◌≡◌, ◌≤◌, [], IfOk, IfErr, IsTrue, ◌↔◌, length};
ghost use Rattle.std.specs.Io.KnownBytes.{WriteAppends};
ghost use Rattle.appender_runtime.specs.Waiting.{IsAwaited, IsPermanent, IsTemporary};

use std::io::{ErrorKind, Write};
use std::marker::Model;
use std::sync::Wait;
use std::time::{Clock, Duration};
use std::{io, thread};

/// The faults that a writer waits for.
#[derive(Clone, Copy, Debug, PartialEq, Eq)]
pub enum Faults {
    /// Those that may pass by themselves: a full disk or quota, `WouldBlock`, an input/output error (POSIX: `EIO`).
    Temporary,
    /// All but an interruption, refused memory, and a write that takes nothing. So also those that pass only if somebody
    /// acts: a disk that is read only or was taken away, a folder that can't be entered, a name that is in use.
    Any,
}

impl Faults {
    /// Returns whether this error is one of them.
    pub fn contain(self, error: &io::Error) -> bool
        ensures { IsTrue result ↔ IsAwaited self error.now }
    {
        match self {
            Faults::Temporary => is_temporary(error),
            Faults::Any => is_any(error),
        }
    }
}

/// Writes all of what it is given to the writer below. While that has a fault that may pass, it waits and then writes
/// the rest. The fault is printed on standard error at once, and also that writes go on. Contracts see it as the writer
/// below.
#[derive(Drop)]
pub struct WaitingWriter<R, W> {
    rt: R,
    writer: W,
}

impl<R, W> Model for WaitingWriter<R, W> {
    ghost Value = { W };

    ghost view = { λ w. w.writer };
}

impl<R, W> WaitingWriter<R, W> {
    /// Returns a writer that waits by the clock of `rt`, and prints on its standard error.
    pub fn new(rt: R, writer: W) -> WaitingWriter<R, W>
        ensures { result ≡ writer }
    {
        WaitingWriter { rt, writer }
    }
}

impl<R: Wait + Clock + Eprint, W: Write> Write for WaitingWriter<R, W> {
    ghost use Rattle.std.specs.Prelude.{None, OnOk};
    ghost use Rattle.std.specs.Io.{WritesAtMost};
    ghost use Rattle.std.specs.Io.KnownBytes.{Appends, Keeps};
    ghost use Rattle.appender_runtime.specs.Waiting.{AppendsFirst};

    /// Writes all of the bytes, by `write_waiting`. After an error a beginning of them was written.
    fn write(&mut self, buf: &[u8]) -> io::Result<usize>
        ensures bound { WritesAtMost result buf.now }
        ensures bytes { WriteAppends None None result buf.now }
        ensures whole { IfOk result (λ n. n ≡ length buf.now) }
        ensures written { OnOk result (Appends (W.contents self.old) (W.contents self.new) buf.now) }
        ensures beginning { AppendsFirst (W.contents self.old) (W.contents self.new) buf.now }
        ensures lasting { IfErr result (IsPermanent Faults.Temporary) }
    {
        let WaitingWriter { rt, writer } = self;
        let mut rest = buf;
        while !rest.is_empty() {
            let taken = write_waiting(&*rt, Faults::Temporary, writer, rest)?;
            rest = &rest[taken..];
        }
        Ok(buf.len())
    }

    /// Calls `write` once.
    fn write_all(&mut self, buf: &[u8]) -> io::Result<()>
        ensures bytes { OnOk result (Appends None None buf.now) }
        ensures written { OnOk result (Appends (W.contents self.old) (W.contents self.new) buf.now) }
        ensures beginning { AppendsFirst (W.contents self.old) (W.contents self.new) buf.now }
        ensures lasting { IfErr result (IsPermanent Faults.Temporary) }
    {
        self.write(buf)?;
        Ok(())
    }

    /// Flushes the writer below, and does not wait after a fault of that.
    fn flush(&mut self) -> io::Result<()>
        ensures bytes { Keeps None None }
        ensures writer { Keeps (W.contents self.old) (W.contents self.new) }
    {
        self.writer.flush()
    }
}

/// Writes the first of some bytes, and returns how many were taken: one at least, if there are any. After one of the faults
/// it waits for 100 milliseconds, then for twice as long, up to a second, until a write takes something. An interrupted
/// write is repeated at once. Any other error is returned, and `WriteZero` if a write takes nothing: then none of the bytes
/// was written.
pub fn write_waiting<R: Wait + Clock + Eprint, W: Write>(
    rt: &R,
    faults: Faults,
    writer: &mut W,
    bytes: &[u8],
) -> io::Result<usize>
    ensures bound { IfOk result (λ n. n ≤ length bytes.now) }
    ensures some { IfOk result (λ n. n ≡ 0 → bytes.now ≡ []) }
    ensures bytes { WriteAppends (W.contents writer.old) (W.contents writer.new) result bytes.now }
    ensures lasting { IfErr result (IsPermanent faults) }
{
    if bytes.is_empty() {
        return Ok(0);
    }
    let mut pauses = Pauses::new();
    for _ in rt.forever() {
        let taken = write_some(rt, faults, writer, bytes, &mut pauses)?;
        if taken > 0 {
            return Ok(taken);
        }
    }
    unreachable!()
}

// Returns how many of these bytes one write takes: none if it was interrupted, or has a fault that may pass. After such
// a fault it waits.
fn write_some<R: Clock + Eprint, W: Write>(
    rt: &R,
    faults: Faults,
    writer: &mut W,
    bytes: &[u8],
    pauses: &mut Pauses,
) -> io::Result<usize>
    ensures bound { IfOk result (λ n. n ≤ length bytes.now) }
    ensures bytes { WriteAppends (W.contents writer.old) (W.contents writer.new) result bytes.now }
    ensures lasting { IfErr result (IsPermanent faults) }
{
    match writer.write(bytes) {
        Ok(0) => Err(io::Error::new(ErrorKind::WriteZero, "a write took nothing")),
        Ok(taken) => {
            pauses.end(rt);
            Ok(taken)
        }
        Err(error) if error.kind() == ErrorKind::Interrupted => Ok(0),
        Err(error) if faults.contain(&error) => {
            pauses.wait(rt, &error);
            Ok(0)
        }
        Err(error) => Err(error),
    }
}

// POSIX: an input/output error.
const EIO: i32 = 5;

// Returns whether an error may pass by itself.
fn is_temporary(error: &io::Error) -> bool
    ensures { IsTrue result ↔ IsTemporary error.now }
{
    match error.kind() {
        ErrorKind::StorageFull | ErrorKind::QuotaExceeded | ErrorKind::WouldBlock => true,
        _ => error.raw_os_error() == Some(EIO),
    }
}

// Returns whether an error is of another kind than those that no wait mends.
fn is_any(error: &io::Error) -> bool
    ensures { IsTrue result ↔ IsAwaited Faults.Any error.now }
{
    !matches!(
        error.kind(),
        ErrorKind::Interrupted | ErrorKind::OutOfMemory | ErrorKind::WriteZero
    )
}

// The first pause after a fault, and the longest one, in milliseconds.
const FIRST_MILLIS: u64 = 100;

const LONGEST_MILLIS: u64 = 1000;

/// The pauses between attempts that fail: 100 milliseconds, then twice as long, up to a second.
#[derive(Drop)]
pub struct Pauses {
    // The last one, in milliseconds, or 0 if there was none.
    millis: u64,
}

impl Pauses {
    /// Returns the pauses before a first attempt.
    pub fn new() -> Pauses {
        Pauses { millis: 0 }
    }

    /// Waits, longer than the last time. Prints the first fault as `writes pause: ..` on the standard error of `rt`.
    pub fn wait<R: Clock + Eprint>(&mut self, rt: &R, error: &io::Error) {
        if self.millis == 0 {
            // A fault of standard error can't be reported.
            let _ = rt.eprintln(format_args!("writes pause: {error}"));
            self.millis = FIRST_MILLIS;
        } else {
            self.millis = self.millis.saturating_mul(2).min(LONGEST_MILLIS);
        }
        thread::sleep(rt, Duration::from_millis(self.millis));
    }

    /// Ends the pauses, since an attempt succeeded. Prints `writes go on` if there was a pause.
    pub fn end<R: Eprint>(&mut self, rt: &R) {
        if self.millis > 0 {
            let _ = rt.eprintln("writes go on");
            self.millis = 0;
        }
    }
}
