//! The example of `daily`.

use std::io;
use std::io::Write;
use tracing_appender::rolling::daily;

pub fn log_start(rt: HostRuntime) -> io::Result<()> {
    let mut log = daily(rt, "logs", "app")?;
    // Appends to the file of today, as `logs/app.2026-11-28`.
    log.write_all(b"started\n")
}
