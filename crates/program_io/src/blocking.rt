//! Inputs that do not block, and whether one may have to be waited for.
ghost use Rattle.std.specs.Prelude.{◌≡◌, ◌≢◌, ◌<◌, ◌≤◌, IfErr};
ghost use Rattle.std.specs.IoError.{error_kind};
ghost use Rattle.std.specs.Io.{ReadsAtMost};
ghost use Rattle.std.specs.Io.KnownBytes.{ReadConsumes};

use std::io::{BufReader, ErrorKind, Read};
use std::time::{Clock, Duration};
use std::{io, thread};

/// An input that shows whether it may have to be waited for.
pub trait Ready {
    /// Returns whether more than what is buffered can probably be read at once, or the end.
    fn is_ready(&self) -> bool {
        false
    }
}

/// Bytes in memory are not waited for.
impl Ready for &[u8] {
    fn is_ready(&self) -> bool {
        true
    }
}

impl<I: Read + Ready> Ready for BufReader<I> {
    fn is_ready(&self) -> bool {
        self.get_ref().is_ready()
    }
}

/// An input that another program may have set not to block (POSIX: `O_NONBLOCK`). If nothing can be read yet, a read
/// waits, and then tries again. A read that returns less than it asked for is a sign that a pipe is empty, or a terminal's line is
/// at its end: then the next one may have to be waited for.
#[derive(Drop)]
pub struct BlockingInput<R, I> {
    rt: R,
    input: I,
    // The number of reads that returned all that they asked for, since the last one that did not.
    full: usize,
}

// The first pause and the longest one, in milliseconds.
const FIRST_MILLIS: u64 = 1;

const LONGEST_MILLIS: u64 = 50;

impl<R, I> BlockingInput<R, I> {
    /// Returns the input from here on. It waits by the clock of `rt`.
    pub fn new(rt: R, input: I) -> BlockingInput<R, I>
        ensures { result.input ≡ input }
    {
        BlockingInput { rt, input, full: 0 }
    }
}

/// Shows whether the last read returned all that it asked for.
impl<R, I> Ready for BlockingInput<R, I> {
    fn is_ready(&self) -> bool {
        self.full > 0
    }
}

impl<R: Clock, I: Read> BlockingInput<R, I> {
    // Reads once something can be read. After `WouldBlock` it waits for a millisecond, then for twice as long, up to 50.
    fn read_blocking(&mut self, buf: &mut [u8]) -> io::Result<usize>
        ensures bound { ReadsAtMost result buf.new }
        ensures bytes { ReadConsumes (I.remaining self.old.input) (I.remaining self.new.input) result buf.new }
        ensures waits { IfErr result (λ error. error_kind error ≢ ErrorKind.WouldBlock) }
    {
        let mut millis = FIRST_MILLIS;
        for _ in 0..u64::MAX {
            match self.input.read(buf) {
                Err(error) if error.kind() == ErrorKind::WouldBlock => {
                    thread::sleep(&self.rt, Duration::from_millis(millis));
                    millis = millis.saturating_mul(2).min(LONGEST_MILLIS);
                }
                read => return read,
            }
        }
        Err(io::Error::from(ErrorKind::TimedOut))
    }
}

impl<R: Clock, I: Read> Read for BlockingInput<R, I> {
    ghost remaining = { λ waiting. I.remaining waiting.input };

    /// Reads once something can be read. It asks for fewer bytes than there is room for, and each time for another number, so
    /// that the last read of what another program wrote is hardly ever a full one: its length is mostly a power of two.
    fn read(&mut self, buf: &mut [u8]) -> io::Result<usize>
        ensures bound { ReadsAtMost result buf.new }
        ensures bytes { ReadConsumes (I.remaining self.old.input) (I.remaining self.new.input) result buf.new }
        ensures waits { IfErr result (λ error. error_kind error ≢ ErrorKind.WouldBlock) }
    {
        let most = asked(buf.len(), self.full);
        let length = self.read_blocking(&mut buf[..most])?;
        self.full = full_after(self.full, length, most);
        Ok(length)
    }
}

// Returns how many reads were full, after one that returned so many bytes of those that it asked for.
fn full_after(full: usize, length: usize, most: usize) -> usize {
    if length < most {
        0
    } else {
        full.saturating_add(1)
    }
}

// Returns how many bytes a read asks for after this number of full ones.
fn asked(room: usize, full: usize) -> usize
    ensures room { result ≤ room }
    ensures some { 0 < room → 0 < result }
{
    let spared = 1 + 13 * (full % 16);
    if room > 2 * spared {
        room - spared
    } else {
        room
    }
}
