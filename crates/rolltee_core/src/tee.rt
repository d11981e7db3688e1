//! Lines from an input to a rolling log, through a non-blocking writer or directly.
ghost use Rattle.std.specs.Prelude.{◌≡◌, ◌≢◌, ◌≤◌, ◌<◌, ◌++◌, ℕ, Bool, List, [], length, Some, Ok, Err, IfOk, IfErr, IfSome, OnOk, string_bytes};
ghost use Rattle.std.specs.List.{concat};
ghost use Rattle.std.specs.Io.Buffered.{reader_remaining};
ghost use Rattle.std.specs.Io.KnownBytes.{Keeps};
ghost use Rattle.std.specs.IoError.{error_kind};
ghost use Rattle.program_io.specs.Options.{AreDefaults};
ghost use Rattle.program_io.specs.declared.options.Options.{Options};
ghost use Rattle.rolltee_core.specs.Feed.{FeedsLines};
ghost use Rattle.rolltee_core.specs.Losses.{HasLostNothing};
ghost use Rattle.rolltee_core.specs.Taken.{FeedsAsAsked, IsCopied, WasOpened, LogsText, TookText};
ghost use Rattle.rolltee_core.specs.Inside.Runs.{EndsRun, TakesInput};
ghost use Rattle.rolltee_core.specs.Fault.{tee_status, tee_fault_unless_memory, tee_fault_words, HasNoFolder, NamesNoRotation, is_titled_fault, ExplainsTeeFault, ReportsLine, ReportsTeeFault};
ghost use Rattle.appender_non_blocking.specs.Work.{RunsLines};
ghost use Rattle.appender_names.specs.RotationText.{IsNoRotation, rotation_word};
ghost use Rattle.appender_names.specs.declared.rotation.Rotation.{Rotation};

use crate::feed::{Feed, FeedSink, SenderQueue};
pub use crate::logs::{Logs, TeeLog};
use crate::losses::TeeLosses;
use crate::reason::reason;
use crate::title::{Titled, title};
use crate::waiting::{Asked, LogPlace, OpenedLog};
use crate::writers::{DirectWriter, TeeWriter};
use program_io::blocking::{BlockingInput, Ready};
use program_io::options::{OptionError, OptionFault, OptionName, Options};
use program_io::report::report;
use program_io::{ArgumentFault, CopyFault, Split, copy_pieces};
use std::alloc::{AllocError, Global};
use std::io;
use std::io::{BufRead, BufReader, ErrorKind, Read, Write};
use std::marker::{Brand, Model, PhantomData};
use std::sync::Wait;
use std::time::{Clock, Duration};
use thiserror::Error;
use tracing_appender::non_blocking::{
    Host, LineSender, NonBlockingBuilder, Ran, RecordedWork, Written,
};
use tracing_appender::rolling::{InitError, Rotation};
use tracing_appender::worker::LineCounts;

/// The greatest number of queued lines, if no option sets it.
const LIMIT: usize = 1024;

// The most bytes that a read takes without a queue. What was read and not written yet is lost by a kill.
const BLOCK: usize = 1024;

// How long the last flush of the log may take.
const END_MILLIS: u64 = 1000;

/// Why not all lines were written.
#[derive(Debug, Drop, Error)]
pub enum Fault {
    /// There weren't three arguments, or the first was no rotation, or the second was empty.
    #[error("usage: rolltee ROTATION DIR PREFIX")]
    Usage,
    /// This word begins with a dash and is no option.
    #[error("{0}: unknown option\nusage: rolltee ROTATION DIR PREFIX")]
    Unknown(String),
    /// This option was given twice, or its value is missing or wrong, or the rotation does not allow it.
    #[error("{0}: {1}")]
    Option(&'static str, OptionError),
    /// This argument is not UTF-8. It has U+FFFD in place of what is not.
    #[error("{0}: not UTF-8")]
    Argument(String),
    /// No log was opened.
    #[error("{0}")]
    Open(InitError),
    /// Another process may remove files of the log.
    #[error("another rolltee --keep writes this log")]
    Locked,
    /// The thread that writes was not made.
    #[error("no thread")]
    Thread,
    /// The input is the open file of the log, which would grow without end.
    #[error("input is the log")]
    Input,
    /// The input was not read.
    #[error("read failed")]
    Read(io::Error),
    /// A line was not taken whole, by the queue or by the log, or a sync failed. What was lost is known of a log.
    #[error("write failed")]
    Write(TeeLosses),
    /// Lines or log files were lost.
    #[error("{0}")]
    Lost(TeeLosses),
    /// The log was still being flushed a second after its last line.
    #[error("shutdown pending")]
    Pending,
    /// Memory was refused, but not by the opening of the log.
    #[error("no memory")]
    Memory,
}

impl Fault {
    // Returns the status that the program ends with.
    fn status(&self) -> u8
        ensures { result ≡ tee_status self.now }
    {
        match self {
            Fault::Usage | Fault::Unknown(_) | Fault::Option(_, _) | Fault::Argument(_) => 2,
            Fault::Memory => 3,
            _ => 1,
        }
    }

    // Returns whether its line begins with the title of the log. The others are known to programs that call this one.
    fn is_titled(&self) -> bool
        ensures { result ≡ is_titled_fault self.now }
    {
        match self {
            Fault::Unknown(_) | Fault::Option(_, _) | Fault::Argument(_) => true,
            Fault::Locked | Fault::Input | Fault::Lost(_) => true,
            _ => false,
        }
    }

    // Returns what is reported of it, on a line, if that is the same for all faults of its kind; else nothing.
    fn words(&self) -> &'static [u8]
        ensures { IfSome (tee_fault_words self.now) (λ words. result.now ≡ words) }
    {
        match self {
            Fault::Usage => b"usage: rolltee ROTATION DIR PREFIX\n",
            Fault::Locked => b"another rolltee --keep writes this log\n",
            Fault::Thread => b"no thread\n",
            Fault::Input => b"input is the log\n",
            Fault::Read(_) => b"read failed\n",
            Fault::Write(_) => b"write failed\n",
            Fault::Pending => b"shutdown pending\n",
            Fault::Memory => b"no memory\n",
            _ => b"",
        }
    }

    /// Returns this fault, or `Memory` if its cause is of the kind `OutOfMemory`.
    pub fn unless_memory(self, kind: ErrorKind) -> Fault
        ensures { result ≡ tee_fault_unless_memory kind self }
    {
        match kind {
            ErrorKind::OutOfMemory => Fault::Memory,
            _ => self,
        }
    }
}

impl From<AllocError> for Fault {
    fn from(_error: AllocError) -> Fault {
        Fault::Memory
    }
}

/// A fault of opening the log.
impl From<InitError> for Fault {
    ghost use Rattle.rolltee_core.specs.declared.tee.Fault.TheVariants.{Open};

    ghost from_gives = { λ error fault. fault ≡ Open error };

    fn from(error: InitError) -> Fault {
        Fault::Open(error)
    }
}

/// A fault of the words of a command line.
impl From<OptionFault> for Fault {
    ghost use Rattle.rolltee_core.specs.Fault.{tee_options_fault};

    ghost from_gives = { λ fault reported. reported ≡ tee_options_fault fault };

    fn from(fault: OptionFault) -> Fault {
        match fault {
            OptionFault::Unknown(word) => Fault::Unknown(word),
            OptionFault::Wrong(option, error) => Fault::Option(option, error),
            OptionFault::Memory => Fault::Memory,
        }
    }
}

/// A fault of the arguments.
impl From<ArgumentFault> for Fault {
    ghost use Rattle.rolltee_core.specs.Fault.{tee_arguments_fault};

    ghost from_gives = { λ fault reported. reported ≡ tee_arguments_fault fault };

    fn from(fault: ArgumentFault) -> Fault {
        match fault {
            ArgumentFault::NotText(word) => Fault::Argument(word),
            ArgumentFault::Memory => Fault::Memory,
        }
    }
}

/// A fault of reading.
impl From<io::Error> for Fault {
    ghost use Rattle.rolltee_core.specs.declared.tee.Fault.TheVariants.{Read};

    ghost from_gives = { λ error fault. fault ≡ tee_fault_unless_memory (error_kind error) (Read error) };

    fn from(error: io::Error) -> Fault {
        Fault::Read(error).unless_memory(error.kind())
    }
}

/// A fault of copying. A line that was cut was not taken.
impl From<CopyFault> for Fault {
    ghost use Rattle.rolltee_core.specs.Fault.{copying_fault};

    ghost from_gives = { λ error fault. fault ≡ copying_fault error };

    fn from(fault: CopyFault) -> Fault {
        match fault {
            CopyFault::Read(error) => Fault::Read(error).unless_memory(error.kind()),
            CopyFault::Write(error) => { Fault::Write(TeeLosses::NONE).unless_memory(error.kind()) }
            CopyFault::Cut => Fault::Write(TeeLosses::NONE),
        }
    }
}

/// Writes each line of `input` to the log that `logs` opens, and waits while that is full. The three arguments are its
/// rotation, its folder and the beginning of its files' names. The first fault goes to `errors`, whose own faults are
/// ignored; the lines read before it are written, as long as that takes. Returns the status of the process. 0: all
/// was written. 1: no log was opened, also if memory was refused for that, no thread made, the input not read or a line
/// not written whole. 2: the arguments aren't of that form. 3: memory was refused elsewhere.
pub fn tee<R: Host, L: Logs, I: Read, E: Write>(
    rt: R,
    logs: L,
    arguments: &[String],
    input: &mut I,
    errors: &mut E,
) -> u8
    ensures status { result ≤ 3 }
    ensures usage { length arguments.now ≢ 3 → result ≡ 2 }
    ensures no_rotation { NamesNoRotation arguments.now → result ≡ 2 }
    ensures no_folder { HasNoFolder arguments.now → result ≡ 2 }
    ensures silent { result ≡ 0 → Keeps (E.contents errors.old) (E.contents errors.new) }
    ensures reported { 1 ≤ result → (fault : Fault) × ReportsTeeFault [] fault result (E.contents errors.old) (E.contents errors.new) }
    ensures written { result ≡ 0 → (text : List ℕ) → I.remaining input.old ≡ Some text →
        (options : Options) × AreDefaults options × LogsText L.Log.opens options L.Log.takes L.Log.is_kept arguments.now text }
{
    let options = Options::new(rt.alloc());
    match copy_through(rt, logs, &options, arguments, input, io::sink()) {
        Ok(_) => 0,
        Err(fault) => report_fault(&fault, "", errors),
    }
}

/// Does what `tee` does, with options. If they ask for it, each line begins with a time, and is also written to `output`. Returns that
/// if all was written: the status is 0. Else returns the status. It is also 1 if a line was dropped or not written whole to `output`, or
/// if a log file was not found again. It is also 2 if the rotation does not allow an option. What `errors` get begins with the title of
/// the log, `rolltee: DIR/PREFIX: `, or is a line of `tee` with one after it that says what is meant.
pub fn tee_with<R: Host, L: Logs, I: Read, O: Write + Drop, E: Write>(
    rt: R,
    logs: L,
    options: &Options,
    arguments: &[String],
    input: &mut I,
    output: O,
    errors: &mut E,
) -> Result<O, u8>
    ensures status { IfErr result (λ status. (1 ≤ status) × (status ≤ 3)) }
    ensures usage { length arguments.now ≢ 3 → result ≡ Err 2 }
    ensures no_rotation { NamesNoRotation arguments.now → result ≡ Err 2 }
    ensures no_folder { HasNoFolder arguments.now → result ≡ Err 2 }
    ensures silent { OnOk result (Keeps (E.contents errors.old) (E.contents errors.new)) }
    ensures reported { IfErr result (λ status. (fault : Fault) × ExplainsTeeFault fault status (E.contents errors.old) (E.contents errors.new)) }
    ensures written { IfOk result (λ echoed. (text : List ℕ) → I.remaining input.old ≡ Some text →
        (lines : List ℕ) × FeedsLines options.now (O.contents output) (O.contents echoed) text lines
        × LogsText L.Log.opens options.now L.Log.takes L.Log.is_kept arguments.now lines) }
{
    match copy_through(rt, logs, options, arguments, input, output) {
        Ok(echoed) => Ok(echoed),
        Err(fault) => Err(explain(rt.alloc(), &fault, options, arguments, errors)),
    }
}

// Reports a fault on `errors`, and what is meant by it, and returns its status.
fn explain<E: Write>(
    alloc: Global,
    fault: &Fault,
    options: &Options,
    arguments: &[String],
    errors: &mut E,
) -> u8
    ensures { ExplainsTeeFault fault.now result (E.contents errors.old) (E.contents errors.new) }
{
    let title = title_of(alloc, arguments);
    let status = report_fault(fault, title.as_str(), errors);
    let reason = reason(alloc, fault, arguments, options).unwrap_or(String::new(alloc));
    let _ = report(errors, reason.as_bytes());
    status
}

// Returns the title of the log of three arguments, or of the program.
fn title_of(alloc: Global, arguments: &[String]) -> String {
    let title = match arguments {
        [_, directory, prefix] => title(alloc, directory.as_str(), prefix.as_str()),
        _ => String::from_str(alloc, PROGRAM),
    };
    title.unwrap_or(String::new(alloc))
}

/// What a line on standard error begins with, if it is about no log.
pub const PROGRAM: &str = "rolltee: ";

/// Reports a fault on `errors`, after `title` if its line begins with one, and returns its status.
pub fn report_fault<E: Write>(fault: &Fault, title: &str, errors: &mut E) -> u8
    ensures { ReportsTeeFault title.now fault.now result (E.contents errors.old) (E.contents errors.new) }
{
    let title = if fault.is_titled() { title } else { "" };
    let _ = report(errors, title.as_bytes());
    report_line(fault, errors)
}

// Reports a fault on a line of `errors`, and returns its status.
fn report_line<E: Write>(fault: &Fault, errors: &mut E) -> u8
    ensures { ReportsLine fault.now result (E.contents errors.old) (E.contents errors.new) }
{
    let words = fault.words();
    let _ = if words.is_empty() {
        writeln!(errors, "{fault}")
    } else {
        report(errors, words)
    };
    fault.status()
}

// Copies the input, and returns the output if all of it was written.
fn copy_through<R: Host, L: Logs, I: Read, O: Write + Drop>(
    rt: R,
    logs: L,
    options: &Options,
    arguments: &[String],
    input: &mut I,
    output: O,
) -> Result<O, Fault>
    ensures usage { length arguments.now ≢ 3 → result ≡ Err Fault.Usage }
    ensures no_rotation { NamesNoRotation arguments.now → result ≡ Err Fault.Usage }
    ensures no_folder { HasNoFolder arguments.now → result ≡ Err Fault.Usage }
    ensures written { IfOk result (λ echoed. (text : List ℕ) → I.remaining input.old ≡ Some text →
        (lines : List ℕ) × FeedsLines options.now (O.contents output) (O.contents echoed) text lines
        × LogsText L.Log.opens options.now L.Log.takes L.Log.is_kept arguments.now lines) }
{
    let [rotation, directory, prefix] = arguments else {
        return Err(Fault::Usage);
    };
    if directory.is_empty() {
        return Err(Fault::Usage);
    }
    let rotation = rotation_of(rotation.as_str(), options)?;
    if options.has(OptionName::Direct) {
        return copy_directly::<Brand, R, L, I, O>(
            rt, logs, rotation, directory, prefix, options, input, output,
        );
    }
    copy_to::<Brand, R, L, I, O>(
        rt, logs, rotation, directory, prefix, options, input, output,
    )
}

// What a log is opened by, and where its lines are echoed.
#[derive(Drop)]
struct LogOpening<'a, L: Logs, O: Write, N: Asked> {
    logs: L,
    rotation: Rotation,
    directory: &'a str,
    prefix: &'a str,
    options: &'a Options,
    output: O,
    asked: PhantomData<N>,
}

impl<'a, L: Logs, O: Write, N: Asked> Model for LogOpening<'a, L, O, N> {
    ghost use Rattle.std.specs.Prelude.{◌≡◌};

    ghost Value = { Unit {0} };

    ghost view = { λ _. tt };

    ghost invariant = { λ r. N.asked r.rotation r.directory.now r.prefix.now r.options.now × (N.printed ≡ O.contents r.output) };
}

// What a run by a queue has before its log is opened.
#[derive(Drop)]
struct QueuedParts<R, W: TeeLog + Drop, I, N: Asked> {
    titled: Titled<R>,
    place: LogPlace<W, N>,
    counts: LineCounts,
    input: I,
}

// The same, if `N` says by what the log is opened.
fn copy_to<N: Asked + Send + 'static, R: Host, L: Logs, I: Read, O: Write + Drop>(
    rt: R,
    logs: L,
    rotation: Rotation,
    directory: &String,
    prefix: &String,
    options: &Options,
    input: &mut I,
    output: O,
) -> Result<O, Fault>
    requires asked { N.asked rotation (string_bytes directory.now) (string_bytes prefix.now) options.now }
    requires printed { N.printed ≡ O.contents output }
    ensures { IfOk result (TakesInput L.Log.opens N.asked L.Log.takes L.Log.is_kept N.printed O.contents (I.remaining input.old)) }
{
    let (directory, prefix) = (directory.as_str(), prefix.as_str());
    let (writer, parts) = queued_parts::<R, L::Log, &mut I, N>(
        rt, directory, prefix, options, input,
    )?;
    let opening = LogOpening::<L, O, N> {
        logs,
        rotation,
        directory,
        prefix,
        options,
        output,
        asked: PhantomData,
    };
    let work = TeeWork {
        parts,
        opening: Some(opening),
        outcome: Err(Fault::Thread),
    };
    let Ran { work, written } = match run_work(rt, options, writer, work) {
        Ok(ran) => ran,
        Err(error) => return Err(Fault::Thread.unless_memory(error.kind())),
    };
    end_run(work.outcome, written, options.is_plain())
}

// Returns the writer of a worker, and what else a run has before its log is opened.
fn queued_parts<
    R: Wait + Clock + Eprint + AllocGlobal + Copy,
    W: TeeLog + Drop,
    I: Read + Drop,
    N: Asked,
>(
    rt: R,
    directory: &str,
    prefix: &str,
    options: &Options,
    input: I,
) -> Result<
    (
        TeeWriter<Titled<R>, W, N>,
        QueuedParts<R, W, Waited<R, I>, N>,
    ),
    Fault,
>
    ensures writer { IfOk result (λ made. made.0 ≡ []) }
    ensures input { IfOk result (λ made. reader_remaining (λ i. I.remaining i.input) made.1.input ≡ I.remaining input) }
{
    let input = reader(rt, 8192, input)?;
    let titled = Titled::new(rt, directory, prefix)?;
    let (writer, place, counts) = TeeWriter::new(
        Titled::new(rt, directory, prefix)?,
        !options.has(OptionName::NoWait),
        options.number(OptionName::MaxBytes),
    )?;
    let parts = QueuedParts {
        titled,
        place,
        counts,
        input,
    };
    Ok((writer, parts))
}

// An input that is waited for, with a buffer.
type Waited<R, I> = BufReader<BlockingInput<R, I>>;

// Returns a reader of what is left of an input.
fn reader<R: Clock + AllocGlobal + Drop, I: Read + Drop>(
    rt: R,
    capacity: usize,
    input: I,
) -> io::Result<Waited<R, I>>
    requires { 0 < capacity }
    ensures { IfOk result (λ reader. reader_remaining (λ i. I.remaining i.input) reader ≡ I.remaining input) }
{
    let alloc = rt.alloc();
    BufReader::with_capacity(alloc, capacity, BlockingInput::new(rt, input))
}

// Runs a work whose lines a worker writes. A work that was not run is dropped.
fn run_work<K: RecordedWork + Drop, W: Write + Send + Drop + 'static, R: Host>(
    rt: R,
    options: &Options,
    writer: W,
    work: K,
) -> io::Result<Ran<K, W>>
    ensures { IfOk result (λ ran. (lossy : Bool) × RunsLines K.does W.contents lossy work writer ran) }
{
    let limit = match options.number(OptionName::Queue) {
        0 => LIMIT,
        limit => limit as usize,
    };
    let builder = NonBlockingBuilder::default()
        .lossy(options.has(OptionName::Lossy))
        .buffered_lines_limit(limit);
    let most = Some(Duration::from_millis(END_MILLIS));
    match builder.run_lines(rt, rt.alloc(), writer, work, most) {
        Ok(ran) => Ok(ran),
        Err(unstarted) => Err(unstarted.error),
    }
}

// Closes the log of a run, and returns the output if nothing was lost.
fn end_run<W: TeeLog + Drop, N: Asked, R: Wait + Clock + Eprint + AllocGlobal + Drop, O: Drop>(
    outcome: Result<(TeeLosses, O), Fault>,
    written: Option<Written<TeeWriter<R, W, N>>>,
    is_plain: bool,
) -> Result<O, Fault>
    ensures { IfOk result (EndsRun (WasOpened W.opens N.asked) W.takes W.is_kept outcome written) }
{
    match outcome {
        Ok((sent, output)) => match written {
            Some(written) => all_written(output, losses_of(sent, written), is_plain),
            None => Err(Fault::Pending),
        },
        Err(fault) => Err(fault),
    }
}

// Closes the log. Returns what was lost, with what was lost before the log.
fn losses_of<W: TeeLog + Drop, N: Asked, R: Wait + Clock + Eprint + AllocGlobal + Drop>(
    sent: TeeLosses,
    written: Written<TeeWriter<R, W, N>>,
) -> TeeLosses
    ensures sent { (result.dropped ≡ sent.dropped) × (result.unechoed ≡ sent.unechoed) }
    ensures whole { result.unwritten ≡ 0 → written.given_up ≡ 0 }
    ensures took { HasLostNothing result → TookText (WasOpened W.opens N.asked) W.takes W.is_kept written.writer }
{
    let Written { writer, given_up } = written;
    let found = writer.close();
    TeeLosses {
        unwritten: sent.unwritten.max(given_up).max(found.unwritten),
        dropped: sent.dropped,
        unechoed: sent.unechoed,
        ..found
    }
}

// What a run without a queue has before its log is opened.
#[derive(Drop)]
struct DirectParts<R: Wait + Clock + Eprint + Drop, W: TeeLog + Drop, I, N: Asked> {
    titled: Titled<R>,
    writer: DirectWriter<Titled<R>, W, N>,
    place: LogPlace<W, N>,
    input: I,
}

// The same in this thread, without a queue: what was read is written before more is read.
fn copy_directly<N: Asked + Send + 'static, R: Host, L: Logs, I: Read, O: Write + Drop>(
    rt: R,
    logs: L,
    rotation: Rotation,
    directory: &String,
    prefix: &String,
    options: &Options,
    input: &mut I,
    output: O,
) -> Result<O, Fault>
    requires asked { N.asked rotation (string_bytes directory.now) (string_bytes prefix.now) options.now }
    requires printed { N.printed ≡ O.contents output }
    requires first { N.first ≡ [] }
    ensures { IfOk result (TakesInput L.Log.opens N.asked L.Log.takes L.Log.is_kept N.printed O.contents (I.remaining input.old)) }
{
    let (directory, prefix) = (directory.as_str(), prefix.as_str());
    let parts = direct_parts::<R, L::Log, &mut I, N>(rt, directory, prefix, options, input)?;
    let log = logs.open_log(rotation, directory, prefix, options)?;
    parts.place.put(&rt, OpenedLog::new(log));
    let (output, lost) = copy_blocks(parts, options, output)?;
    all_written(output, lost, options.is_plain())
}

// Returns what a run has before its log is opened.
fn direct_parts<
    R: Wait + Clock + Eprint + AllocGlobal + Copy,
    W: TeeLog + Drop,
    I: Read + Drop,
    N: Asked,
>(
    rt: R,
    directory: &str,
    prefix: &str,
    options: &Options,
    input: I,
) -> io::Result<DirectParts<R, W, Waited<R, I>, N>>
    ensures writer { IfOk result (λ made. made.writer ≡ []) }
    ensures input { IfOk result (λ made. reader_remaining (λ i. I.remaining i.input) made.input ≡ I.remaining input) }
{
    let input = reader(rt, BLOCK, input)?;
    let titled = Titled::new(rt, directory, prefix)?;
    let (writer, place) = DirectWriter::new(
        Titled::new(rt, directory, prefix)?,
        !options.has(OptionName::NoWait),
        options.number(OptionName::MaxBytes),
    )?;
    Ok(DirectParts {
        titled,
        writer,
        place,
        input,
    })
}

// Copies the input to the log, block by block, and closes it.
fn copy_blocks<
    R: Wait + Clock + Eprint + AllocGlobal + Drop,
    W: TeeLog + Drop,
    I: BufRead + Ready + Drop,
    O: Write + Drop,
    N: Asked,
>(parts: DirectParts<R, W, I, N>, options: &Options, output: O) -> Result<(O, TeeLosses), CopyFault>
    requires writer { parts.writer ≡ [] }
    requires asked { (rotation : Rotation) × (directory : List ℕ) × (prefix : List ℕ) × N.asked rotation directory prefix options.now }
    requires printed { N.printed ≡ O.contents output }
    requires first { N.first ≡ [] }
    ensures { IfOk result (λ copied. copied.1 ≡ TeeLosses.NONE
        → TakesInput W.opens N.asked W.takes W.is_kept N.printed O.contents (I.remaining parts.input) copied.0) }
{
    let DirectParts {
        titled,
        writer,
        place: _place,
        mut input,
    } = parts;
    let (mut writer, output, unechoed, copied) = feed_pieces::<_, _, _, _, N>(
        titled,
        writer,
        options,
        &mut input,
        output,
        Split::Blocks,
    );
    writer.flush();
    copied?;
    let lost = TeeLosses {
        unechoed,
        ..writer.close()
    };
    Ok((output, lost))
}

// Sends the pieces of an input. Returns what they were sent to, the output, how many lines were not written whole to that, and why
// the input was not copied whole.
fn feed_pieces<
    R: Clock + AllocGlobal + Eprint + Drop,
    Q: FeedSink + Drop,
    I: BufRead + Ready,
    O: Write + Drop,
    N: Asked,
>(
    rt: R,
    sink: Q,
    options: &Options,
    input: &mut I,
    output: O,
    split: Split,
) -> (Q, O, u64, Result<(), CopyFault>)
    requires asked { (rotation : Rotation) × (directory : List ℕ) × (prefix : List ℕ) × N.asked rotation directory prefix options.now }
    requires printed { N.printed ≡ O.contents output }
    requires first { N.first ≡ Q.sent sink }
    ensures { OnOk result.3 (result.2 ≡ 0 → (text : List ℕ) → I.remaining input.old ≡ Some text →
        (lines : List ℕ) × FeedsAsAsked N.asked N.printed (O.contents result.1) text lines × (Q.sent result.0 ≡ N.first ++ lines)) }
{
    let alloc = rt.alloc();
    let mut feed = Feed::<R, Q, O, N>::new(rt, sink, options, output);
    let copied = copy_pieces(alloc, input, &mut feed, split);
    let (sink, output, unechoed) = feed.into_parts();
    (sink, output, unechoed, copied)
}

// Opens the log, and copies the input to it.
#[derive(Drop)]
struct TeeWork<'a, R, L: Logs, I, O: Write, N: Asked> {
    parts: QueuedParts<R, L::Log, I, N>,
    // Is there until the work is run.
    opening: Option<LogOpening<'a, L, O, N>>,
    // What was lost until the end of the input, and the output. Until the work is run, there is no thread.
    outcome: Result<(TeeLosses, O), Fault>,
}

impl<'a, R: Host, L: Logs, I: BufRead + Ready, O: Write + Drop, N: Asked> RecordedWork
    for TeeWork<'a, R, L, I, O, N> {
    ghost does = { λ old start new ended.
        IfOk new.outcome (λ copied. IsCopied N.asked N.printed (O.contents copied.1) (I.remaining old.parts.input) start ended copied.0) };

    // The log is opened last, so a start that fails for want of memory or of a thread makes no file. The lines that were
    // read are waited for also after a fault, and only then counted: the worker's end is waited for a second only, which
    // loses the lines of a slow disk.
    fn run<S: LineSender + Drop>(&mut self, sender: S) -> S {
        let Some(opening) = self.opening.take() else {
            self.outcome = Err(Fault::Thread);
            return sender;
        };
        let LogOpening {
            logs,
            rotation,
            directory,
            prefix,
            options,
            output,
            asked: _,
        } = opening;
        let log = match logs.open_log(rotation, directory, prefix, options) {
            Ok(log) => OpenedLog::new(log),
            Err(fault) => {
                self.outcome = Err(fault);
                return sender;
            }
        };
        self.parts.place.put(&self.parts.titled, log);
        let (sender, ended) = send_lines::<N, R, S, I, O>(
            &self.parts.titled,
            sender,
            &self.parts.counts,
            &mut self.parts.input,
            options,
            output,
        );
        self.outcome = ended;
        sender
    }
}

// Sends the lines of the input, and waits until the log took or lost them. Returns the sender, and what was lost with the output.
fn send_lines<
    N: Asked,
    R: Wait + Clock + Eprint + AllocGlobal + Drop,
    S: LineSender + Drop,
    I: BufRead + Ready,
    O: Write + Drop,
>(
    titled: &Titled<R>,
    sender: S,
    counts: &LineCounts,
    input: &mut I,
    options: &Options,
    output: O,
) -> (S, Result<(TeeLosses, O), Fault>)
    requires asked { (rotation : Rotation) × (directory : List ℕ) × (prefix : List ℕ) × N.asked rotation directory prefix options.now }
    requires printed { N.printed ≡ O.contents output }
    ensures { IfOk result.1 (λ copied. IsCopied N.asked N.printed (O.contents copied.1) (I.remaining input.old) (S.sent sender) (S.sent result.0) copied.0) }
{
    send_after::<Brand, R, S, I, O>(titled, sender, counts, input, options, output)
}

// The same, if `N` says what the sender sent before.
fn send_after<
    N: Asked,
    R: Wait + Clock + Eprint + AllocGlobal + Drop,
    S: LineSender + Drop,
    I: BufRead + Ready,
    O: Write + Drop,
>(
    titled: &Titled<R>,
    sender: S,
    counts: &LineCounts,
    input: &mut I,
    options: &Options,
    output: O,
) -> (S, Result<(TeeLosses, O), Fault>)
    requires asked { (rotation : Rotation) × (directory : List ℕ) × (prefix : List ℕ) × N.asked rotation directory prefix options.now }
    requires printed { N.printed ≡ O.contents output }
    requires first { N.first ≡ concat (S.sent sender).lines }
    ensures { IfOk result.1 (λ copied. IsCopied N.asked N.printed (O.contents copied.1) (I.remaining input.old) (S.sent sender) (S.sent result.0) copied.0) }
{
    let queue = SenderQueue::new(titled, sender, counts, options.has(OptionName::Lossy));
    let (queue, output, unechoed, copied) = feed_pieces::<_, _, _, _, N>(
        titled,
        queue,
        options,
        input,
        output,
        Split::Lines,
    );
    let (sender, lost) = settled(queue, unechoed);
    match copied {
        Ok(()) => (sender, Ok((lost, output))),
        Err(fault) => (sender, Err(Fault::from(fault))),
    }
}

// Waits until the log took or lost each line that was queued. Returns the sender, and what was lost.
fn settled<R: Wait + Clock + Eprint + Drop, S: LineSender + Drop>(
    queue: SenderQueue<R, S>,
    unechoed: u64,
) -> (S, TeeLosses)
    ensures queued { result.1.dropped ≡ 0 → (S.sent result.0).lines ≡ queue.entry.offered }
    ensures unechoed { result.1.unechoed ≡ unechoed }
{
    let mut queue = queue;
    queue.settle();
    let lost = TeeLosses {
        unwritten: queue.lost(),
        dropped: queue.dropped(),
        unechoed,
        ..TeeLosses::NONE
    };
    (queue.into_sender(), lost)
}

// Returns the rotation that this word names. A fault if it names none, or one that does not allow the options: there are
// no files to count, and no numbers, without a rotation.
fn rotation_of(word: &str, options: &Options) -> Result<Rotation, Fault>
    ensures no_rotation { IsNoRotation word.now → result ≡ Err Fault.Usage }
    ensures rotation { IfOk result (λ rotation. word.now ≡ rotation_word rotation) }
{
    let rotation = word.parse::<Rotation>().map_err(|_| Fault::Usage)?;
    if options.has(OptionName::Direct) && options.has(OptionName::Queue) {
        return Err(Fault::Option("--queue", OptionError::Direct));
    }
    if options.has(OptionName::Direct) && options.has(OptionName::Lossy) {
        return Err(Fault::Option("--lossy", OptionError::Direct));
    }
    if rotation != Rotation::NEVER {
        return Ok(rotation);
    }
    if options.has(OptionName::Keep) {
        return Err(Fault::Option("--keep", OptionError::Never));
    }
    if options.has(OptionName::MaxBytes) {
        return Err(Fault::Option("--max-bytes", OptionError::Never));
    }
    Ok(rotation)
}

// Returns the output if nothing was lost: status 0 says that each line is in the log. A run without options reports lines
// that the log did not take whole by two words, which programs that call it know.
fn all_written<O: Drop>(output: O, lost: TeeLosses, is_plain: bool) -> Result<O, Fault>
    ensures { IfOk result (λ whole. (whole ≡ output) × (lost ≡ TeeLosses.NONE)) }
{
    if lost == TeeLosses::NONE {
        Ok(output)
    } else if is_plain && lost.gone == 0 {
        Err(Fault::Write(lost))
    } else {
        Err(Fault::Lost(lost))
    }
}
