//! A structured logger over a log of the day, to which a worker thread writes.

use appender_log::start;
use log::{Log, info};
use std::io;
use std::io::Write;
use tracing_appender::non_blocking::Host;
use tracing_appender::rolling::{FileAppender, daily};

/// Opens the log of the day in a folder, which is made if it does not exist.
pub fn open_log(rt: HostRuntime, directory: &str) -> io::Result<FileAppender> {
    Ok(daily(rt, directory, "service")?)
}

/// Logs one record for each number of rows, through a queue. It is an error if something was lost.
pub fn log_reads<R: Host, W: Write + Send + Drop + 'static>(
    rt: R,
    log: W,
    reads: &[u64],
) -> io::Result<()> {
    let log = start(rt, log)?;
    let logger = log.logger();
    for rows in reads {
        log_read(&logger, *rows);
    }
    log.finish()
}

// Logs, as one part of a program.
fn log_read<L: Log>(logger: &L, rows: u64) {
    info!(logger; target: "db", rows; "read");
}
