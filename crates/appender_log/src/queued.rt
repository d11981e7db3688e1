// A log whose records go through a queue.
ghost use Rattle.std.specs.Prelude.{◌≡◌, IfOk, IfErr, false};
ghost use Rattle.std.specs.IoError.{error_kind};
ghost use Rattle.std.specs.declared.io.ErrorKind.TheVariants.{Other};

use crate::NoClock;
use crate::record_writer::RecordWriter;
use appender_non_blocking::non_blocking::{
    ErrorCounter, GuardHost, Host, Losses, NonBlocking, NonBlockingBuilder, WorkerGuard,
};
use appender_runtime::clock::Clock;
use appender_worker::worker::{BatchWriter, LineCounts};
use log::kv::Source;
use log::span::Spans;
use log::{Level, Log, Logged, Metadata, Record};
use std::fmt::{Debug, Display, Formatter};
use std::io::Write;
use std::marker::Model;
use std::time::Duration;
use std::{fmt, io};

/// Starts a log over any writer: threads queue the lines of their records, and a worker thread writes them. While the queue
/// is full, who logs waits. The error is that of `NonBlockingBuilder::finish`, or `OutOfMemory`.
///
/// ```
/// use appender_log::start;
/// use log::info;
/// use std::io;
/// use std::io::Write;
/// use tracing_appender::non_blocking::Host;
///
/// pub fn log_read<R: Host, W: Write + Send + Drop + 'static>(rt: R, log: W) -> io::Result<()> {
///     let log = start(rt, log)?;
///     let logger = log.logger();
///     // Queues the line `[INFO  db] read rows=3`.
///     info!(logger; target: "db", rows = 3; "read");
///     // An error if a record was lost.
///     log.finish()
/// }
/// ```
pub fn start<W: Write + Send + Drop + 'static, R: Host>(rt: R, log: W) -> io::Result<QueuedLog<R>>
    ensures { IfOk result (λ log. log.lossy ≡ false) }
{
    start_with(rt, NonBlockingBuilder::default().lossy(false), log)
}

/// Starts a log as `start` does, with the settings of its queue.
pub fn start_with<W: Write + Send + Drop + 'static, R: Host>(
    rt: R,
    queue: NonBlockingBuilder,
    log: W,
) -> io::Result<QueuedLog<R>>
    ensures { IfOk result (λ log. log.lossy ≡ queue.lossy) }
{
    let (log, counts) = BatchWriter::new(rt.alloc(), log, 0)?;
    let (lines, guard) = queue.finish(rt, rt.alloc(), log)?;
    let drops = lines.error_counter()?;
    Ok(QueuedLog {
        rt,
        records: RecordWriter::new(rt),
        lines,
        guard,
        drops,
        counts,
    })
}

/// A log whose records go through a queue. End it by `finish` or `close`, which say what was lost. A drop ends it as `close`
/// does, and prints to standard error what was lost.
///
/// It is a `Log` that threads can share, and logs every record that it is given, each as one line, as a `LogSink` does. What
/// was logged before the end is written; a record that is logged meanwhile may be lost, and is counted.
///
/// ```
/// use appender_log::start;
/// use log::info;
/// use std::io;
/// use std::io::Write;
/// use std::time::Duration;
/// use tracing_appender::non_blocking::Host;
///
/// pub fn log_order<R: Host, W: Write + Send + Drop + 'static>(rt: R, log: W) -> io::Result<()> {
///     let log = start(rt, log)?.json();
///     // Queues the line `{"level":"INFO","target":"shop","message":"paid","fields":{"order":7}}`.
///     info!(log.logger(); target: "shop", order = 7; "paid");
///     // Waits until it is written.
///     log.flush_queued(Duration::from_secs(5))?;
///     log.finish()
/// }
/// ```
#[must_use]
pub struct QueuedLog<R: GuardHost + Eprint + Copy, C: Clock = NoClock> {
    rt: R,
    records: RecordWriter<R, C>,
    lines: NonBlocking<R>,
    guard: WorkerGuard<R>,
    drops: ErrorCounter,
    counts: LineCounts,
    ghost same: { drops.lossy ≡ lines.lossy },
}

impl<R: GuardHost + Eprint + Copy, C: Clock> Model for QueuedLog<R, C> {
    ghost use Rattle.appender_non_blocking.specs.Mode.{Mode};

    ghost Value = { Mode };

    ghost view = { λ l. record { lossy = l.lines.lossy } };
}

impl<R: GuardHost + Eprint + Copy, C: Clock> QueuedLog<R, C> {
    /// Returns this log with a clock, from which its records have times as those of `LogSink::timestamps`.
    pub fn timestamps<D: Clock>(self, clock: D) -> QueuedLog<R, D>
        ensures { result.lossy ≡ self.lossy }
    {
        let QueuedLog {
            rt,
            records,
            lines,
            guard,
            drops,
            counts,
        } = self;
        QueuedLog {
            rt,
            records: records.with_clock(clock),
            lines,
            guard,
            drops,
            counts,
        }
    }

    /// Returns this log as one that writes each record as a line of JSON, as `LogSink::json` does.
    pub fn json(mut self) -> QueuedLog<R, C>
        ensures { result.lossy ≡ self.lossy }
    {
        self.records.set_json();
        self
    }

    /// Returns a logger of the levels up to `Info`. For another level take `Logged::new(rt, level, &log)`.
    pub fn logger(&self) -> Logged<R, &QueuedLog<R, C>> {
        Logged::new(self.rt, Level::Info, self)
    }

    /// Waits until the lines of all records before are written and flushed, as `NonBlocking::flush_queued` does.
    pub fn flush_queued(&self, timeout: Duration) -> io::Result<()> {
        self.lines.flush_queued(timeout)
    }

    /// Ends the worker, as `WorkerGuard::close` does, and returns what was lost.
    pub fn close(self) -> Losses
        ensures { self.lossy ≡ false → result.dropped ≡ 0 }
    {
        let QueuedLog {
            rt: _,
            records,
            lines: _,
            guard,
            drops,
            counts,
        } = self;
        Losses::from(guard.close())
            .and_records(records.lost())
            .and_dropped(drops.dropped_lines())
            .and_unwritten(counts.lost())
    }

    /// Ends the worker. It is an error of the kind `Other` if something was lost: that of `Losses::check` for what `close` returns.
    pub fn finish(self) -> io::Result<()>
        ensures { IfErr result (λ error. error_kind error ≡ Other) }
    {
        self.close().check()
    }
}

impl<R: GuardHost + Eprint + Copy, C: Clock> Drop for QueuedLog<R, C> {
    fn drop(self) {
        let rt = self.rt;
        let losses = self.close();
        if !losses.is_none() {
            let _ = rt.eprintln(format_args!("appender_log: {losses}"));
        }
    }
}

impl<R: Host, C: Clock> Log for QueuedLog<R, C> {
    ghost use Rattle.std.specs.Prelude.{true, Some, []};

    ghost enables = { λ _ _ _. Some true };

    ghost target_of = { λ _. Some [] };

    fn enabled(&self, _metadata: &Metadata<'_>) -> bool {
        true
    }

    /// Queues the line of the record, or counts the record as lost.
    fn log<D: Display, K: Source, S: Spans>(&self, record: &Record<'_, D, K, S>) {
        self.records.log(&self.lines, record);
    }

    /// Does what `flush_queued` does, at most for ten seconds. An error is not reported.
    fn flush(&self) {
        let _ = self.flush_queued(Duration::from_secs(10));
    }

    fn target(&self) -> &str {
        ""
    }
}

impl<R: GuardHost + Eprint + Copy, C: Clock> Debug for QueuedLog<R, C> {
    fn fmt<W: fmt::Write>(&self, f: &mut Formatter<W>) -> fmt::Result {
        f.pad("QueuedLog { .. }")
    }
}
