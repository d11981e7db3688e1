//! The example of `RollingFileAppender`.

use std::io;
use std::io::Write;
use tracing_appender::rolling::{RollingFileAppender, Rotation};

// The files are as `logs/web.2026-11-28-10`. Threads can share the log by a reference, and each makes a writer.
pub fn log_request(rt: HostRuntime) -> io::Result<()> {
    let mut log = RollingFileAppender::new(rt, Rotation::HOURLY, "logs", "web")?;
    log.write_all(b"GET / 200\n")
}
