// A writer whose writes fail or are short.
use std::alloc::Global;
use std::io;
use std::io::{ErrorKind, Write};

/// What a write does.
#[derive(Clone, Copy)]
pub(crate) enum Act {
    /// It takes this many bytes at most.
    Accept(usize),
    Fail(ErrorKind),
    /// It fails with this error number of Linux.
    Os(i32),
}

/// Does these acts, one a write, and then takes everything. If `room` is set, the first write after so many bytes fails,
/// and no later one. Contracts see of a writer only its text, so its writes and flushes are counted.
#[derive(Drop)]
pub(crate) struct FaultyWriter {
    acts: &'static [Act],
    pub(crate) room: Option<usize>,
    pub(crate) flushes_fail: bool,
    pub(crate) text: Vec<u8>,
    pub(crate) writes: u32,
    pub(crate) flushes: u32,
}

impl FaultyWriter {
    pub(crate) fn new(alloc: Global, acts: &'static [Act]) -> FaultyWriter {
        FaultyWriter {
            acts,
            room: None,
            flushes_fail: false,
            text: Vec::new(alloc),
            writes: 0,
            flushes: 0,
        }
    }

    // What the next write does, of this many bytes.
    fn next_act(&mut self, length: usize) -> Act {
        if let Some((act, acts)) = self.acts.split_first() {
            self.acts = acts;
            return *act;
        }
        match self.room {
            None => Act::Accept(length),
            Some(0) => {
                self.room = None;
                Act::Fail(ErrorKind::Other)
            }
            Some(room) => {
                self.room = Some(room.saturating_sub(length));
                Act::Accept(room)
            }
        }
    }
}

impl Write for FaultyWriter {
    fn write(&mut self, buf: &[u8]) -> io::Result<usize> {
        self.writes = self.writes.saturating_add(1);
        match self.next_act(buf.len()) {
            Act::Fail(kind) => Err(io::Error::from(kind)),
            Act::Os(code) => Err(io::Error::from_raw_os_error(code)),
            Act::Accept(n) => {
                let n = buf.len().min(n);
                self.text.extend_from_slice(&buf[..n])?;
                Ok(n)
            }
        }
    }

    fn flush(&mut self) -> io::Result<()> {
        self.flushes = self.flushes.saturating_add(1);
        if self.flushes_fail {
            return Err(io::Error::from(ErrorKind::QuotaExceeded));
        }
        Ok(())
    }
}
