//! The example of `non_blocking`.

use std::io;
use std::io::Write;
use tracing_appender::non_blocking::{Closing, Host, non_blocking};

pub fn log_start<R: Host, W: Write + Send + Drop + 'static>(rt: R, log: W) -> io::Result<Closing> {
    // Not `_`, which would end the worker here.
    let (mut lines, guard) = non_blocking(rt, rt.alloc(), log)?;
    // Queues a copy of the line, which the worker thread writes to `log`. Not `writeln!`, which would queue it in pieces.
    lines.write_all(b"started\n")?;
    // Waits for the end of the worker: `Closing::Done { left: 0 }`.
    Ok(guard.close())
}
