//! Counts of lines, which others read.
ghost use Rattle.std.specs.Prelude.{◌≡◌, ◌≢◌};
ghost use Rattle.std.specs.IoError.{error_kind};
ghost use Rattle.appender_worker.specs.Tries.{reported_kind};

use crate::worker::LineFault;
use std::alloc::{AllocError, Global};
use std::io;
use std::io::ErrorKind;
use std::sync::Arc;
use std::sync::atomic::AtomicU64;
use std::sync::atomic::Ordering::SeqCst;

/// Reads the counts of a `BatchWriter`, also while a worker has it.
#[derive(Drop)]
pub struct LineCounts {
    shared: Arc<SharedCounts, Global>,
}

// The counts, which the handle reads. No contract can name the value of an atomic: the writer's own counts are its fields.
#[derive(Drop)]
pub(crate) struct SharedCounts {
    taken: AtomicU64,
    lost: AtomicU64,
}

impl SharedCounts {
    /// Returns counts of 0.
    pub(crate) fn new(alloc: Global) -> Result<Arc<SharedCounts, Global>, AllocError> {
        let counts = SharedCounts {
            taken: AtomicU64::new(0),
            lost: AtomicU64::new(0),
        };
        Arc::new(alloc, counts).map_err(AllocError::from)
    }

    /// Stores the counts for the handle.
    pub(crate) fn store(&self, taken: u64, lost: u64) {
        self.taken.store(taken, SeqCst);
        self.lost.store(lost, SeqCst);
    }
}

impl LineCounts {
    /// Returns a handle to these counts.
    pub(crate) fn of(shared: &Arc<SharedCounts, Global>) -> Result<LineCounts, AllocError> {
        Ok(LineCounts {
            shared: shared.clone()?,
        })
    }

    /// Returns the number of lines that were taken whole.
    pub fn taken(&self) -> u64 {
        self.shared.taken.load(SeqCst)
    }

    /// Returns the number of lines that were not taken whole.
    pub fn lost(&self) -> u64 {
        self.shared.lost.load(SeqCst)
    }
}

// Returns the error of a line for its caller.
pub(crate) fn reported(fault: LineFault) -> io::Error
    ensures retried { error_kind result ≢ ErrorKind.Interrupted }
    ensures kind { error_kind result ≡ reported_kind (error_kind fault.error) }
{
    match fault.error.kind() {
        ErrorKind::Interrupted => io::Error::other("interrupted too often"),
        _ => fault.error,
    }
}
