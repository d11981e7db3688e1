//! What makes writers, as loggers ask for them: appenders, and senders of queues. So it is below both.

use std::alloc::AllocError;
use std::io::Write;

/// Makes a writer for each piece that a logger writes, as the trait of the same name in the crate
/// `tracing-subscriber` does.
///
/// ```
/// use std::io;
/// use std::io::Write;
/// use tracing_appender::rolling::MakeWriter;
///
/// // Logs a line by a writer of its own. `logs` may be an appender, or a sender of a queue.
/// pub fn log_line<'a, M: MakeWriter<'a>>(logs: &'a M, line: &[u8]) -> io::Result<()> {
///     let mut writer = logs.make_writer()?;
///     writer.write_all(line)
/// }
/// ```
pub trait MakeWriter<'a> {
    /// What it makes, which may borrow from it.
    type Writer: Write + Drop;

    /// Returns a writer for one piece. `AllocError` if there is no memory for it.
    fn make_writer(&'a self) -> Result<Self::Writer, AllocError>;
}
