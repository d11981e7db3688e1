//! The example of `NonBlockingBuilder`.

use std::io;
use std::io::Write;
use tracing_appender::non_blocking::{Host, NonBlocking, NonBlockingBuilder, WorkerGuard};

// While 1,024 lines are queued, a write to the returned sender waits.
pub fn start<R: Host, W: Write + Send + Drop + 'static>(
    rt: R,
    log: W,
) -> io::Result<(NonBlocking<R>, WorkerGuard<R>)> {
    NonBlockingBuilder::default()
        .lossy(false)
        .buffered_lines_limit(1024)
        .finish(rt, rt.alloc(), log)
}
