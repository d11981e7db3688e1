//! The example of `QueuedLog`.

use appender_log::start;
use log::info;
use std::io;
use std::io::Write;
use std::time::Duration;
use tracing_appender::non_blocking::Host;

pub fn log_order<R: Host, W: Write + Send + Drop + 'static>(rt: R, log: W) -> io::Result<()> {
    let log = start(rt, log)?.json();
    // Queues the line `{"level":"INFO","target":"shop","message":"paid","fields":{"order":7}}`.
    info!(log.logger(); target: "shop", order = 7; "paid");
    // Waits until it is written.
    log.flush_queued(Duration::from_secs(5))?;
    log.finish()
}
