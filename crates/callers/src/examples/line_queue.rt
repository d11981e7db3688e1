//! The example of `LineQueue`.

use std::alloc::{AllocError, Global};
use tracing_appender::queue::{Counts, LineQueue};

// Of three lines a queue with room for two accepts 2 and drops 1. One is taken, and one is still queued.
pub fn offer_three(alloc: Global) -> Result<Counts, AllocError> {
    let mut queue = LineQueue::new(alloc, 2, true)?;
    for line in [b"a\n", b"b\n", b"c\n"] {
        let _ = queue.offer(Vec::from_slice(alloc, line)?);
    }
    let _ = queue.take(false);
    Ok(queue.counts())
}
