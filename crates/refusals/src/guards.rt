// What is printed on standard output and standard error where a guard is dropped.
use crate::marks::ScenarioHost;
use crate::queues::start;
use std::alloc::Global;
use std::io::{ErrorKind, Write};
use std::sync::Arc;
use std::sync::atomic::AtomicBool;
use std::sync::atomic::Ordering::SeqCst;
use std::time::{Clock, Duration};
use std::{io, thread};

// The flags by which the worker's thread and the main thread signal each other.
#[derive(Drop)]
struct Flags {
    held: AtomicBool,
    open: AtomicBool,
    gone: AtomicBool,
}

// Holds each line until a flag is set, for ten seconds at most. Its flushes fail.
struct Holding<R: Clock + Drop> {
    rt: R,
    flags: Arc<Flags, Global>,
}

impl<R: Clock + Drop> Write for Holding<R> {
    fn write(&mut self, line: &[u8]) -> io::Result<usize> {
        self.flags.held.store(true, SeqCst);
        if comes(&self.rt, &self.flags.open) {
            return Ok(line.len());
        }
        Err(io::Error::from(ErrorKind::TimedOut))
    }

    fn flush(&mut self) -> io::Result<()> {
        Err(io::Error::from(ErrorKind::StorageFull))
    }
}

impl<R: Clock + Drop> Drop for Holding<R> {
    fn drop(self) {
        let Holding { rt: _, flags } = self;
        flags.gone.store(true, SeqCst);
    }
}

// Waits until a flag is set, for ten seconds at most, and returns whether it is.
fn comes(rt: &impl Clock, flag: &AtomicBool) -> bool {
    for _ in 0..10_000u32 {
        if flag.load(SeqCst) {
            return true;
        }
        thread::sleep(rt, Duration::from_millis(1));
    }
    false
}

fn new_flags(alloc: Global) -> io::Result<Arc<Flags, Global>> {
    let flags = Flags {
        held: AtomicBool::new(false),
        open: AtomicBool::new(false),
        gone: AtomicBool::new(false),
    };
    Ok(Arc::new(alloc, flags)?)
}

fn wait_for(rt: &impl Clock, flag: &AtomicBool) -> io::Result<()> {
    if comes(rt, flag) {
        Ok(())
    } else {
        Err(io::Error::from(ErrorKind::TimedOut))
    }
}

/// Drops a guard while its queue is full, over a writer whose flushes fail. The worker holds one line, and the queue has no room
/// after the next. Once the guard is dropped, the worker ends after the last sender, and its last flush fails.
pub(crate) fn run<R: ScenarioHost>(rt: R) -> io::Result<()> {
    let flags = new_flags(rt.alloc())?;
    let writer = Holding {
        rt,
        flags: Arc::try_clone(&flags)?,
    };
    let (mut lines, guard) = start(rt, 1, true, writer)?;
    fill(&rt, &mut lines, &flags.held)?;
    drop(guard);
    flags.open.store(true, SeqCst);
    drop(lines);
    wait_for(&rt, &flags.gone)
}

// Writes the line that is held, and the one after it.
fn fill<W: Write>(rt: &impl Clock, lines: &mut W, held: &AtomicBool) -> io::Result<()> {
    lines.write(b"held\n")?;
    wait_for(rt, held)?;
    lines.write(b"queued\n")?;
    Ok(())
}
