//! The example of `Builder`.

use std::io;
use tracing_appender::rolling::{Builder, FileAppender, Rotation};

// The log of a command-line tool: files of at most 64 KiB, as `logs/tool.2026-11-22.000000.log`, of which the newest three are
// kept. A start goes on in the last one.
pub fn open_log(rt: HostRuntime) -> io::Result<FileAppender> {
    let settings = Builder::new()
        .rotation(Rotation::WEEKLY)
        .filename_prefix(rt.alloc(), "tool")?
        .filename_suffix(rt.alloc(), "log")?
        .max_file_bytes(65_536)
        .continue_last_file(true)
        .max_log_files(3)
        .log_files_by_name(true);
    Ok(settings.build(rt, "logs")?)
}
