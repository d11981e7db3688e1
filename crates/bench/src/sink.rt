// A writer that takes every byte, and a queue over it.
use crate::row::Case;
use appender_non_blocking::non_blocking::{Host, NonBlocking, NonBlockingBuilder, WorkerGuard};
use std::alloc::Global;
use std::io;
use std::io::Write;
use std::sync::Arc;
use std::sync::atomic::AtomicU64;
use std::sync::atomic::Ordering::SeqCst;

/// Counts bytes, and publishes the count at each flush.
#[derive(Drop)]
pub(crate) struct Sink {
    bytes: u64,
    told: Arc<AtomicU64, Global>,
}

impl Write for Sink {
    fn write(&mut self, buf: &[u8]) -> io::Result<usize> {
        self.bytes = self.bytes.wrapping_add(buf.len() as u64);
        Ok(buf.len())
    }

    fn flush(&mut self) -> io::Result<()> {
        self.told.store(self.bytes, SeqCst);
        Ok(())
    }
}

/// Starts a queue over a sink to which nothing was written yet.
pub(crate) fn start<R: Host>(
    rt: R,
    case: Case<'_>,
    told: Arc<AtomicU64, Global>,
) -> io::Result<(NonBlocking<R>, WorkerGuard<R>)> {
    NonBlockingBuilder::default()
        .lossy(case.mode.ends_with("lossy") || case.mode == "latency")
        .buffered_lines_limit(case.limit as usize)
        .finish(rt, rt.alloc(), Sink { bytes: 0, told })
}
