//! The example of `MakeWriter`.

use std::io;
use std::io::Write;
use tracing_appender::rolling::MakeWriter;

// Logs a line by a writer of its own. `logs` may be an appender, or a sender of a queue.
pub fn log_line<'a, M: MakeWriter<'a>>(logs: &'a M, line: &[u8]) -> io::Result<()> {
    let mut writer = logs.make_writer()?;
    writer.write_all(line)
}
