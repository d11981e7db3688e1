// Logs that a test gives to the program.
ghost use Rattle.std.specs.Io.{WritesAtMost};

use crate::expect::expect_eq;
use program_io::options::Options;
use rolltee_core::losses::TeeLosses;
use rolltee_core::tee::{Fault, Logs, TeeLog};
use std::alloc::{AllocError, Global};
use std::io;
use std::io::Write;
use std::process::Abort;
use std::sync::{Arc, Mutex, Wait};
use tracing_appender::rolling::{InitError, Rotation};

/// A log of a test. By default it loses nothing.
pub(crate) trait TestLog {
    /// Writes the first of some bytes, and returns how many.
    fn put(&mut self, bytes: &[u8]) -> io::Result<usize>
        ensures { WritesAtMost result bytes.now };

    /// Flushes what was written.
    fn flush_all(&mut self) -> io::Result<()> {
        Ok(())
    }

    /// Abandons the line whose write failed.
    fn give_up(&mut self) {}

    /// Returns what was lost.
    fn losses(&self) -> TeeLosses {
        TeeLosses::NONE
    }
}

/// A log that takes everything, and reports these losses.
#[derive(Drop)]
pub(crate) struct Taking {
    pub(crate) losses: TeeLosses,
}

impl Taking {
    /// Reports none.
    pub(crate) const ALL: Taking = Taking {
        losses: TeeLosses::NONE,
    };
}

impl TestLog for Taking {
    fn put(&mut self, bytes: &[u8]) -> io::Result<usize> {
        Ok(bytes.len())
    }

    fn losses(&self) -> TeeLosses {
        self.losses
    }
}

/// What a log or an output got.
#[derive(Drop)]
pub(crate) struct Text<R: Wait> {
    rt: R,
    bytes: Arc<Mutex<Vec<u8>>, Global>,
}

impl<R: Wait + AllocGlobal + Copy> Text<R> {
    pub(crate) fn new(rt: R) -> Result<Text<R>, AllocError> {
        let bytes = Mutex::new(Vec::new(rt.alloc()));
        let bytes = Arc::new(rt.alloc(), bytes).map_err(AllocError::from)?;
        Ok(Text { rt, bytes })
    }

    /// Returns the same text once more.
    pub(crate) fn share(&self) -> Result<Text<R>, AllocError> {
        Ok(Text {
            rt: self.rt,
            bytes: self.bytes.clone()?,
        })
    }
}

impl<R: Wait + AllocGlobal> Text<R> {
    /// Returns its bytes.
    pub(crate) fn copy(&self) -> Result<Vec<u8>, AllocError> {
        Vec::from_slice(self.rt.alloc(), self.bytes.lock(&self.rt).as_slice())
    }
}

impl<R: Wait> Text<R> {
    pub(crate) fn add(&self, bytes: &[u8]) -> Result<(), AllocError> {
        self.bytes.lock(&self.rt).extend_from_slice(bytes)
    }

    pub(crate) fn length(&self) -> usize {
        self.bytes.lock(&self.rt).len()
    }
}

impl<R: Wait + Abort> Text<R> {
    /// Ends the test if the text isn't this one.
    pub(crate) fn expect(&self, wanted: &[u8]) {
        let bytes = self.bytes.lock(&self.rt);
        expect_eq(&self.rt, bytes.as_slice(), wanted);
    }
}

/// A log that keeps what it gets, a thousand bytes of it at a time.
impl<R: Wait> TestLog for Text<R> {
    fn put(&mut self, bytes: &[u8]) -> io::Result<usize> {
        let taken = bytes.len().min(1000);
        self.add(&bytes[..taken])?;
        Ok(taken)
    }
}

/// The same as an output.
impl<R: Wait> Write for Text<R> {
    fn write(&mut self, bytes: &[u8]) -> io::Result<usize> {
        self.put(bytes)
    }

    fn flush(&mut self) -> io::Result<()> {
        Ok(())
    }
}

/// Opens this log. If it is none, the opening fails for want of memory.
#[derive(Drop)]
pub(crate) struct OneLog<L: Drop> {
    log: Option<L>,
}

impl<L: Drop> OneLog<L> {
    pub(crate) fn new(log: L) -> OneLog<L> {
        OneLog { log: Some(log) }
    }

    /// Opens none.
    pub(crate) fn none() -> OneLog<L> {
        OneLog { log: None }
    }
}

/// A log that is opened by any words.
#[derive(Drop)]
pub(crate) struct Given<L: Drop> {
    log: L,
}

impl<L: TestLog + Drop> TeeLog for Given<L> {
    ghost opens = { λ _ _ _ _ _. Unit {0} };

    ghost takes = { λ _ _ _. Unit {0} };

    ghost is_kept = { λ _. Unit {0} };

    fn put(&mut self, bytes: &[u8]) -> io::Result<usize> {
        self.log.put(bytes)
    }

    fn flush_all(&mut self) -> io::Result<()> {
        self.log.flush_all()
    }

    fn give_up(&mut self) {
        self.log.give_up();
    }

    fn close(self) -> TeeLosses {
        self.log.losses()
    }
}

impl<L: TestLog + Send + Drop + 'static> Logs for OneLog<L> {
    type Log = Given<L>;

    fn open_log(self, _: Rotation, _: &str, _: &str, _: &Options) -> Result<Given<L>, Fault> {
        match self.log {
            Some(log) => Ok(Given { log }),
            None => Err(Fault::Open(InitError::Memory)),
        }
    }
}
