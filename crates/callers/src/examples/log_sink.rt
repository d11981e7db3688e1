//! The example of `LogSink`.

use appender_log::LogSink;
use log::{Level, Log, Logged, info};
use tracing_appender::non_blocking::Host;
use tracing_appender::rolling::MakeWriter;

// Returns whether the record was written whole. `logs` may be an appender, or a sender of a queue.
pub fn log_read<'a, R: Host, M: MakeWriter<'a>>(rt: R, logs: &'a M) -> bool {
    let sink = LogSink::new(rt, logs);
    let logger = Logged::new(rt, Level::Info, &sink);
    // Writes the line `[INFO  db] read rows=3`.
    info!(logger; target: "db", rows = 3; "read");
    sink.lost() == 0
}
