//! Parts of programs that threads run, with one log.

use appender_log::QueuedLog;
use log::{Log, info};
use std::io;
use std::io::Write;
use tracing_appender::folder::FilesHost;
use tracing_appender::non_blocking::Host;
use tracing_appender::rolling::{FileAppender, MakeWriter};

/// Logs one request as one line, by a writer of its own.
pub fn handle<R: Host + FilesHost>(rt: R, log: &FileAppender<R>, id: u32) -> io::Result<()> {
    let line = format!(in rt.alloc(); "GET /item/{id} 200\n")?;
    log.make_writer()?.write_all(line.as_bytes())
}

/// Logs one request as one record.
pub fn log_request<R: Host>(log: &QueuedLog<R>, id: u32) {
    info!(log; target: "web", id; "GET");
}
