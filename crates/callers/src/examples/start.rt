//! The example of `start`.

use appender_log::start;
use log::info;
use std::io;
use std::io::Write;
use tracing_appender::non_blocking::Host;

pub fn log_read<R: Host, W: Write + Send + Drop + 'static>(rt: R, log: W) -> io::Result<()> {
    let log = start(rt, log)?;
    let logger = log.logger();
    // Queues the line `[INFO  db] read rows=3`.
    info!(logger; target: "db", rows = 3; "read");
    // An error if a record was lost.
    log.finish()
}
