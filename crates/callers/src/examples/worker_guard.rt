//! The example of `WorkerGuard`.

use std::io;
use std::io::Write;
use tracing_appender::non_blocking::{Host, Losses, non_blocking};
use tracing_appender::worker::BatchWriter;

// Returns an error if the line was dropped, left in the queue or not written whole.
pub fn log_stop<R: Host, W: Write + Send + Drop + 'static>(rt: R, log: W) -> io::Result<()> {
    let (log, counts) = BatchWriter::new(rt.alloc(), log, 0)?;
    let (mut lines, guard) = non_blocking(rt, rt.alloc(), log)?;
    let drops = lines.error_counter()?;
    lines.write_all(b"stopped\n")?;
    Losses::from(guard.close())
        .and_dropped(drops.dropped_lines())
        .and_unwritten(counts.lost())
        .check()
}
