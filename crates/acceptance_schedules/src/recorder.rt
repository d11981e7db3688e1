// A writer that records its lines, and shows when its worker has ended.
use crate::expect::Host;
use crate::lines::{Lines, count_lines};
use std::alloc::{AllocError, Global};
use std::io::{ErrorKind, Write};
use std::sync::atomic::AtomicUsize;
use std::sync::atomic::Ordering::SeqCst;
use std::sync::{Arc, Mutex, Wait};
use std::time::{Clock, Duration};
use std::{io, thread};

// A wait looks so often, a millisecond apart.
const LOOKS: u32 = 10_000;

/// How a recorder writes.
#[derive(Clone, Copy)]
pub(crate) enum Way {
    Takes,
    /// Each write and each flush fails, after it is recorded.
    Fails,
    /// The first write returns when the record is open.
    Holds,
}

/// Records its lines. The worker's end drops it, which sets a flag.
pub(crate) struct Recorder<R: Host> {
    rt: R,
    way: Way,
    record: Arc<Record, Global>,
}

/// What a recorder shows.
#[derive(Drop)]
pub(crate) struct Record {
    text: Mutex<Vec<u8>>,
    // 1 once a line is held, once it may go on, and once the worker has ended.
    holds: AtomicUsize,
    open: AtomicUsize,
    ended: AtomicUsize,
}

/// Returns a recorder, and what it shows.
pub(crate) fn new_recorder<R: Host>(
    rt: R,
    way: Way,
) -> Result<(Recorder<R>, Arc<Record, Global>), AllocError> {
    let record = Record {
        text: Mutex::new(Vec::new(rt.alloc())),
        holds: AtomicUsize::new(0),
        open: AtomicUsize::new(0),
        ended: AtomicUsize::new(0),
    };
    let record = Arc::new(rt.alloc(), record)?;
    let shown = Arc::try_clone(&record)?;
    Ok((Recorder { rt, way, record }, shown))
}

impl<R: Host> Write for Recorder<R> {
    fn write(&mut self, buf: &[u8]) -> io::Result<usize> {
        let mut text = self.record.text.lock(&self.rt);
        text.extend_from_slice(buf)?;
        drop(text);
        if let Way::Holds = self.way {
            self.way = Way::Takes;
            self.record.holds.store(1, SeqCst);
            reaches(self.rt, &self.record.open);
        }
        self.flush()?;
        Ok(buf.len())
    }

    fn flush(&mut self) -> io::Result<()> {
        match self.way {
            Way::Fails => Err(io::Error::from(ErrorKind::StorageFull)),
            _ => Ok(()),
        }
    }
}

impl<R: Host> Drop for Recorder<R> {
    fn drop(self) {
        let Recorder {
            rt: _,
            way: _,
            record,
        } = self;
        record.ended.store(1, SeqCst);
    }
}

impl Record {
    /// Waits until a line is held, and returns whether it is.
    pub(crate) fn is_held<R: Clock + Copy>(&self, rt: R) -> bool {
        reaches(rt, &self.holds)
    }

    /// Lets the writer go on.
    pub(crate) fn opens(&self) {
        self.open.store(1, SeqCst);
    }

    /// Waits until the worker has ended, and returns whether it has.
    pub(crate) fn has_ended<R: Clock + Copy>(&self, rt: R) -> bool {
        reaches(rt, &self.ended)
    }

    /// Returns the length of the text so far.
    pub(crate) fn length(&self, rt: &impl Wait) -> usize {
        self.text.lock(rt).len()
    }

    /// Returns how many lines of two threads were written, each once and in its order.
    pub(crate) fn count<R: Host>(
        &self,
        rt: R,
        lines: &[Lines; 2],
        has_gaps: bool,
    ) -> (usize, usize) {
        count_lines(&rt, self.text.lock(&rt).as_slice(), lines, has_gaps)
    }
}

// Looks until the flag is set, for ten seconds at most, and returns whether it is.
fn reaches<R: Clock + Copy>(rt: R, flag: &AtomicUsize) -> bool {
    for _ in 0..LOOKS {
        if flag.load(SeqCst) == 1 {
            return true;
        }
        thread::sleep(&rt, Duration::from_millis(1));
    }
    false
}
