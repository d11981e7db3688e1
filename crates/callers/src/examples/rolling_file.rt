//! The example of `RollingFile`.

use std::io;
use tracing_appender::rolling::{Builder, Rotation, Switch};

pub fn log_two(rt: HostRuntime) -> io::Result<Switch> {
    let settings = Builder::new().rotation(Rotation::DAILY).max_file_bytes(10);
    let mut log = settings.open(rt, "logs")?;
    log.put(b"first\n").1?;
    // The 7 bytes do not fit in the same file, so this opens the next one: `Switch::Opened`.
    let (switch, written) = log.put(b"second\n");
    written?;
    Ok(switch)
}
