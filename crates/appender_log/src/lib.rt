//! Records of the crate `log`, each as one line of a log file.
#![tactic(auto)]

ghost use Rattle.std.specs.Prelude.{
  ◌≡◌,
  ◌≢◌,
  ◌<◌,
  ◌≤◌,
  ◌++◌,
  true,
  false,
  drop,
  length,
  IfOk,
  IfErr,
  OnOk,
  OnErr,
};
ghost use Rattle.std.specs.IoError.{error_kind};
ghost use Rattle.std.specs.Io.KnownBytes.{Appends, Keeps};
ghost use Rattle.log.specs.Line.{record_line};
ghost use Rattle.appender_log.specs.Json.{IsRecordJson};
ghost use Rattle.appender_log.specs.Written.{
  IsRecordLine,
  IsLineAt,
  AppendsLine,
  AppendsLess,
  line_at,
  room,
  WritesPart,
  ending,
};

use appender_runtime::clock::Clock;
use appender_runtime::make_writer::MakeWriter;
use appender_worker::worker::{LineFault, run_line};
use json_line::KeptRecord;
use log::kv::Source;
use log::span::Spans;
use log::{Line, Log, Metadata, Record};
use one_line::escape;
pub use queued::{QueuedLog, start, start_with};
use record_writer::{RecordWriter, flush};
use std::alloc::{AllocError, Global};
use std::fmt::{Debug, Display, Formatter};
use std::io::{ErrorKind, Write};
use std::sync::Wait;
use std::{fmt, io};
use times::{after_room, put_time};

mod json_line;
pub mod laws;
mod one_line;
mod queued;
mod record_writer;
mod times;

/// The clock of a sink whose records have no times: nothing reads it. It is as a clock that can't be read.
#[derive(Clone, Copy, Debug)]
pub struct NoClock;

impl Clock for NoClock {
    ghost now_gives = { λ clock m. Unit {0} };

    fn now(&self) -> i64 {
        i64::MIN
    }
}

/// Logs each record as one line, by a writer of its own, and by one write if that takes all of it. No other record of
/// this sink is between its pieces. After a record that was cut short the next one begins with a
/// newline. Records have times if the sink is given a clock by `timestamps`. It logs every record that it is
/// given: the logger decides by level. Threads can share it, and a logger can borrow it. A writer must not log by
/// it: it would wait for itself. For a log with a queue of its own there is `start`.
///
/// ```
/// use appender_log::LogSink;
/// use log::{Level, Log, Logged, info};
/// use tracing_appender::non_blocking::Host;
/// use tracing_appender::rolling::MakeWriter;
///
/// // Returns whether the record was written whole. `logs` may be an appender, or a sender of a queue.
/// pub fn log_read<'a, R: Host, M: MakeWriter<'a>>(rt: R, logs: &'a M) -> bool {
///     let sink = LogSink::new(rt, logs);
///     let logger = Logged::new(rt, Level::Info, &sink);
///     // Writes the line `[INFO  db] read rows=3`.
///     info!(logger; target: "db", rows = 3; "read");
///     sink.lost() == 0
/// }
/// ```
#[derive(Drop)]
pub struct LogSink<'a, M, R: Drop = HostRuntime, C: Clock = NoClock> {
    writers: &'a M,
    records: RecordWriter<R, C>,
}

impl<'a, M, R: Drop> LogSink<'a, M, R> {
    /// Returns a sink over what makes the writers. The runtime waits for the sink's lock.
    pub fn new(rt: R, writers: &'a M) -> LogSink<'a, M, R> {
        LogSink {
            writers,
            records: RecordWriter::new(rt),
        }
    }
}

impl<'a, M, R: Drop, C: Clock> LogSink<'a, M, R, C> {
    /// Returns this sink with a clock. It writes the clock's time and a space before each record, as in
    /// `2026-11-27T10:00:00.000000Z [INFO  db] read rows=3`. The form is that of RFC 3339, in UTC, with six digits of
    /// microseconds, rounded down. A time outside the years 1 to 9998, as of a clock that can't be read, is `-`, which
    /// is the NILVALUE of RFC 5424. A sink without a clock writes no times.
    ///
    /// The clock is read once for each record, under the sink's lock, when the write of the record begins. So the times
    /// of the records rise as the clock does. If threads wait for the lock, a time is that of the write, and not that
    /// of the call. The writer is made before the clock is read, so at a boundary a record may be in the file of the period
    /// before its time. A clock must not log by this sink: it would wait for itself.
    pub fn timestamps<D: Clock>(self, clock: D) -> LogSink<'a, M, R, D> {
        LogSink {
            writers: self.writers,
            records: self.records.with_clock(clock),
        }
    }

    /// Returns this sink as one that writes each record as a line of JSON: an object of RFC 8259 with the members `timestamp`, if
    /// the sink has a clock, `level`, `target`, `message`, `spans` and `fields`, the last two only if there are some. Spans begin
    /// with the outermost. Integers, finite floats and Booleans are values of their own type, a missing value is `null`, and every
    /// other value is a string. A key that occurs twice is written twice.
    pub fn json(mut self) -> LogSink<'a, M, R, C> {
        self.records.set_json();
        self
    }

    /// The number of records that were not written whole: there was no writer or no memory, or a write failed or
    /// took nothing. A line that a lossy queue drops later is not among them.
    pub fn lost(&self) -> u64 {
        self.records.lost()
    }
}

/// Writes the line of a record and a newline, by one write if that takes all of it. Control characters are
/// escaped: a newline as `\n`, a carriage return as `\r`, others as `\x1b`. It writes the rest after a short
/// write, and repeats an interrupted one, at most 100 times. `WriteZero` if a write failed after the
/// beginning of the line was written, or if one took nothing. After any other error, which is never
/// `Interrupted`, nothing was written; `OutOfMemory` also if a value of the record cannot be formatted.
pub fn write_record<D: Display, K: Source, S: Spans, W: Write>(
    alloc: Global,
    writer: &mut W,
    record: &Record<'_, D, K, S>,
) -> io::Result<()>
    ensures whole { OnOk result (AppendsLine (IsRecordLine (record_line D.output K.pairs S.scopes «record».now))
        (W.contents writer.old) (W.contents writer.new)) }
    ensures beginning { OnErr result (AppendsLess (IsRecordLine (record_line D.output K.pairs S.scopes «record».now))
        (W.contents writer.old) (W.contents writer.new)) }
    ensures nothing { IfErr result (λ e. error_kind e ≢ ErrorKind.WriteZero
        → Keeps (W.contents writer.old) (W.contents writer.new)) }
    ensures interrupted { IfErr result (λ e. error_kind e ≢ ErrorKind.Interrupted) }
{
    let line = line_of(alloc, record)?;
    let mut cut = false;
    write_line(writer, &mut cut, line.as_slice())
}

/// Writes a time, a space and the line of a record, as `write_record` writes the line: by one write if that takes all
/// of it, and with the same errors. The time is in nanoseconds since the epoch, and its text is that of
/// `LogSink::timestamps`.
pub fn write_record_at<D: Display, K: Source, S: Spans, W: Write>(
    alloc: Global,
    writer: &mut W,
    nanos: i128,
    record: &Record<'_, D, K, S>,
) -> io::Result<()>
    ensures whole { OnOk result (AppendsLine (IsLineAt nanos (record_line D.output K.pairs S.scopes «record».now))
        (W.contents writer.old) (W.contents writer.new)) }
    ensures beginning { OnErr result (AppendsLess (IsLineAt nanos (record_line D.output K.pairs S.scopes «record».now))
        (W.contents writer.old) (W.contents writer.new)) }
    ensures nothing { IfErr result (λ e. error_kind e ≢ ErrorKind.WriteZero
        → Keeps (W.contents writer.old) (W.contents writer.new)) }
    ensures interrupted { IfErr result (λ e. error_kind e ≢ ErrorKind.Interrupted) }
{
    let line = line_of(alloc, record)?;
    let mut line = after_room(alloc, line.as_slice())?;
    let mut cut = false;
    write_line_at(writer, &mut cut, nanos, line.as_mut_slice())
}

/// Writes a record as a line of JSON, as `write_record` writes its line, and with the same errors. The line is an object of RFC
/// 8259 with the members of `LogSink::json`. Its time, if it has one, is in nanoseconds since the epoch.
pub fn write_json<D: Display, K: Source, S: Spans, W: Write>(
    alloc: Global,
    writer: &mut W,
    nanos: Option<i128>,
    record: &Record<'_, D, K, S>,
) -> io::Result<()>
    ensures whole { OnOk result (AppendsLine (IsRecordJson D.output K.pairs S.scopes nanos «record».now)
        (W.contents writer.old) (W.contents writer.new)) }
    ensures beginning { OnErr result (AppendsLess (IsRecordJson D.output K.pairs S.scopes nanos «record».now)
        (W.contents writer.old) (W.contents writer.new)) }
    ensures nothing { IfErr result (λ e. error_kind e ≢ ErrorKind.WriteZero
        → Keeps (W.contents writer.old) (W.contents writer.new)) }
    ensures interrupted { IfErr result (λ e. error_kind e ≢ ErrorKind.Interrupted) }
{
    let kept = KeptRecord::new(alloc, record)?;
    let line = kept.line(alloc, nanos, record.metadata())?;
    let mut cut = false;
    write_line(writer, &mut cut, line.as_slice())
}

// The line of a record, with its newline.
fn line_of<D: Display, K: Source, S: Spans>(
    alloc: Global,
    record: &Record<'_, D, K, S>,
) -> Result<Vec<u8>, AllocError>
    ensures { IfOk result (λ line. IsRecordLine (record_line D.output K.pairs S.scopes «record».now)
        line.items) }
{
    let text = String::format(alloc, Line::new(record))?;
    let mut line = escape(alloc, text.into_bytes())?;
    line.push(b'\n')?;
    Ok(line)
}

// Writes a line, after a newline if the line before it was cut short. Remembers whether this one is.
fn write_line<W: Write>(writer: &mut W, cut: &mut bool, line: &[u8]) -> io::Result<()>
    ensures whole { OnOk result (cut.new ≡ false
        × Appends (W.contents writer.old) (W.contents writer.new) (ending cut.old ++ line.now)) }
    ensures part { OnErr result (WritesPart line.now cut.old cut.new
        (W.contents writer.old) (W.contents writer.new)) }
    ensures nothing { IfErr result (λ e. error_kind e ≢ ErrorKind.WriteZero → cut.new ≡ true → cut.old ≡ true) }
    ensures interrupted { IfErr result (λ e. error_kind e ≢ ErrorKind.Interrupted) }
{
    end_cut(writer, cut)?;
    match run_line(writer, line) {
        Ok(()) => Ok(()),
        Err(fault) => {
            *cut = fault.taken > 0;
            Err(error_of(fault))
        }
    }
}

// Writes a line after its time, which is put into the room before it.
fn write_line_at<W: Write>(
    writer: &mut W,
    cut: &mut bool,
    nanos: i128,
    line: &mut [u8],
) -> io::Result<()>
    requires room { room ≤ length line.old }
    ensures whole { OnOk result (cut.new ≡ false
        × Appends (W.contents writer.old) (W.contents writer.new) (ending cut.old ++ line_at nanos (drop room line.old))) }
    ensures part { OnErr result (WritesPart (line_at nanos (drop room line.old)) cut.old cut.new
        (W.contents writer.old) (W.contents writer.new)) }
    ensures nothing { IfErr result (λ e. error_kind e ≢ ErrorKind.WriteZero → cut.new ≡ true → cut.old ≡ true) }
    ensures interrupted { IfErr result (λ e. error_kind e ≢ ErrorKind.Interrupted) }
{
    let start = put_time(line, nanos);
    write_line(writer, cut, &line[start..])
}

// Writes a newline if the last line was cut short.
fn end_cut<W: Write>(writer: &mut W, cut: &mut bool) -> io::Result<()>
    ensures whole { OnOk result (cut.new ≡ false
        × Appends (W.contents writer.old) (W.contents writer.new) (ending cut.old)) }
    ensures nothing { OnErr result (cut.new ≡ cut.old
        × Keeps (W.contents writer.old) (W.contents writer.new)) }
    ensures interrupted { IfErr result (λ e. error_kind e ≢ ErrorKind.Interrupted) }
{
    if !*cut {
        return Ok(());
    }
    match run_line(writer, b"\n") {
        Ok(()) => {
            *cut = false;
            Ok(())
        }
        Err(fault) => Err(error_of(fault)),
    }
}

// The error of a line that was not written whole.
fn error_of(fault: LineFault) -> io::Error
    ensures part { 0 < fault.taken → error_kind result ≡ ErrorKind.WriteZero }
    ensures interrupted { error_kind result ≢ ErrorKind.Interrupted }
{
    if fault.taken > 0 {
        return io::Error::from(ErrorKind::WriteZero);
    }
    match fault.error.kind() {
        ErrorKind::Interrupted => io::Error::other("interrupted too often"),
        _ => fault.error,
    }
}

impl<'a, M: MakeWriter<'a>, R: AllocGlobal + Wait + Drop, C: Clock> Log for LogSink<'a, M, R, C> {
    ghost use Rattle.std.specs.Prelude.{true, Some, []};

    ghost enables = { λ _ _ _. Some true };

    ghost target_of = { λ _. Some [] };

    fn enabled(&self, _metadata: &Metadata<'_>) -> bool {
        true
    }

    /// Writes the record, or counts it in `lost`.
    fn log<D: Display, K: Source, S: Spans>(&self, record: &Record<'_, D, K, S>) {
        self.records.log(self.writers, record);
    }

    /// Flushes a writer of its own. An error is not reported.
    fn flush(&self) {
        flush(self.writers);
    }

    fn target(&self) -> &str {
        ""
    }
}

impl<M, R: Drop, C: Clock> Debug for LogSink<'_, M, R, C> {
    fn fmt<W: fmt::Write>(&self, f: &mut Formatter<W>) -> fmt::Result {
        f.pad("LogSink { .. }")
    }
}
