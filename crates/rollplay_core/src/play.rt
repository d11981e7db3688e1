//! A play of a script: its input, its output, and the exit status.

ghost use Rattle.std.specs.Prelude.{◌≡◌, ◌≤◌, IfOk, IfErr, OnOk, IfSome, string_bytes, string_len};
ghost use Rattle.std.specs.Io.KnownBytes.{Keeps, Appends};
ghost use Rattle.appender_store.specs.MemoryView.{state_of};
ghost use Rattle.rollplay_core.specs.Play.{IsPlayPage, IsGiven, Prints, IsOfReading, Fails, Reports, failure_words};
ghost use Rattle.rollplay_core.specs.Play.{failure_status, IsRefusalPage};
ghost use Rattle.program_io.specs.Report.{AppendsBeginning};
ghost use Rattle.rollplay_core.specs.Draft.{plan_of};
ghost use Rattle.rollplay_core.specs.Script.{rolling, queued};

use crate::line::Queueing;
use crate::page;
use crate::script::{LONGEST, Plan, Script, ScriptError};
use program_io::report::report;
use std::alloc::Global;
use std::fmt::{InlineText, Write as _};
use std::io;
use std::io::{Read, Write};
use tracing_appender::replay::{ReplayError, RollStep, Step, replay, replay_rolling};
use tracing_appender::rolling::Builder;
use tracing_appender::store::{Folder, MemoryFolder};

// Whether the log of a script was opened.
#[derive(Clone, Copy)]
enum Opening {
    Opened,
    Refused,
}

impl Opening {
    fn status(self) -> u8
        ensures opened { self ≡ Opening.Opened → result ≡ 0 }
        ensures refused { self ≡ Opening.Refused → result ≡ 1 }
    {
        match self {
            Opening::Opened => 0,
            Opening::Refused => 1,
        }
    }
}

// Why a script was not played, or its output was not written.
#[derive(Clone, Copy)]
enum Failure {
    // The number of the faulty line, counted from 1.
    Line(usize),
    // The script is not UTF-8, or too long.
    Script,
    // The input was not read.
    Read,
    // The output was not written.
    Write,
    // Memory was refused.
    Memory,
}

impl Failure {
    fn status(self) -> u8
        ensures { result ≡ failure_status self }
    {
        match self {
            Failure::Memory => 3,
            _ => 2,
        }
    }

    // Reports the failure on `errors`, without allocating.
    fn report<E: Write>(self, errors: &mut E) -> io::Result<()>
        ensures whole { OnOk result (Appends (E.contents errors.old) (E.contents errors.new) (failure_words self)) }
        ensures beginning { AppendsBeginning (E.contents errors.old) (E.contents errors.new) (failure_words self) }
    {
        match self {
            Failure::Line(number) => report_line(errors, number),
            Failure::Script => report(errors, b"bad script\n"),
            Failure::Read => report(errors, b"read failed\n"),
            Failure::Write => report(errors, b""),
            Failure::Memory => report(errors, b"no memory\n"),
        }
    }
}

// Reports that this line is faulty. A text of 64 bytes has room for every number.
fn report_line<E: Write>(errors: &mut E, number: usize) -> io::Result<()>
    ensures whole { OnOk result (Appends (E.contents errors.old) (E.contents errors.new) (failure_words (Failure.Line number))) }
    ensures beginning { AppendsBeginning (E.contents errors.old) (E.contents errors.new) (failure_words (Failure.Line number)) }
{
    let mut text = InlineText::<64>::new();
    writeln!(text, "line {number}: fault")?;
    report(errors, text.as_str().as_bytes())
}

impl From<ScriptError> for Failure {
    ghost use Rattle.rollplay_core.specs.Play.{failure_of};

    ghost from_gives = { λ error failure. failure ≡ failure_of error };

    fn from(error: ScriptError) -> Failure {
        match error {
            ScriptError::Fault(line) => Failure::Line(line),
            ScriptError::Memory => Failure::Memory,
        }
    }
}

/// Reads a script on `input` and plays it over a folder in memory. Writes the replies of the calls and the contents of
/// the folder to `output`. Reports a failure on `errors`, and ignores faults of `errors` itself.
///
/// Returns the status of the process:
///
/// - 0: the log was opened, and the page was written.
/// - 1: the log was not opened.
/// - 2: the script is faulty or was not read, or the output was not written.
/// - 3: memory was refused.
pub fn play<R: Read, W: Write, E: Write>(
    alloc: Global,
    input: &mut R,
    output: &mut W,
    errors: &mut E,
) -> u8
    ensures statuses { result ≤ 3 }
    ensures opened { result ≡ 0 → Prints ⟦<MemoryFolder as Folder>⟧ Opening.Opened
        (R.remaining input.old) (W.contents output.old) (W.contents output.new) }
    ensures refused { result ≡ 1 → Prints ⟦<MemoryFolder as Folder>⟧ Opening.Refused
        (R.remaining input.old) (W.contents output.old) (W.contents output.new) }
    ensures silent { result ≤ 1 → Keeps (E.contents errors.old) (E.contents errors.new) }
    ensures fails { 2 ≤ result → Reports ⟦<MemoryFolder as Folder>⟧ result (R.remaining input.old)
        (W.contents output.old) (W.contents output.new) (E.contents errors.old) (E.contents errors.new) }
{
    match play_input(alloc, input, output) {
        Ok(opening) => opening.status(),
        Err(failure) => {
            let _ = failure.report(errors);
            failure.status()
        }
    }
}

fn play_input<R: Read, W: Write>(
    alloc: Global,
    input: &mut R,
    output: &mut W,
) -> Result<Opening, Failure>
    ensures ok { IfOk result (λ opening. Prints ⟦<MemoryFolder as Folder>⟧ opening
        (R.remaining input.old) (W.contents output.old) (W.contents output.new)) }
    ensures err { IfErr result (λ failure. Fails ⟦<MemoryFolder as Folder>⟧ failure
        (R.remaining input.old) (Keeps (W.contents output.old) (W.contents output.new))) }
{
    let text = read_text(alloc, input)?;
    let script = Script::read(alloc, text.as_str())?;
    let (opening, page) = play_script(alloc, script)?;
    match write_page(output, page.as_slice()) {
        Ok(()) => Ok(opening),
        Err(_) => Err(Failure::Write),
    }
}

// Reads the text of a script, up to one byte beyond its limit.
fn read_text<R: Read>(alloc: Global, input: &mut R) -> Result<String, Failure>
    ensures length { IfOk result (λ text. string_len text ≤ LONGEST) }
    ensures given { IfOk result (λ text. IsGiven (R.remaining input.old) (string_bytes text)) }
    ensures err { IfErr result (IsOfReading (R.remaining input.old)) }
{
    let mut bytes = Vec::new(alloc);
    let mut limited = Read::take(&mut *input, LONGEST as u64 + 1);
    if let Err(error) = limited.read_to_end(&mut bytes) {
        return Err(match error.kind() {
            io::ErrorKind::OutOfMemory => Failure::Memory,
            _ => Failure::Read,
        });
    }
    if bytes.len() > LONGEST {
        return Err(Failure::Script);
    }
    match String::from_utf8(bytes) {
        Ok(text) => Ok(text),
        Err(_) => Err(Failure::Script),
    }
}

// Runs a script, and returns the page to print. It is made whole before it is written, so a failure leaves no part of it.
fn play_script(alloc: Global, script: Script) -> Result<(Opening, Vec<u8>), Failure>
    ensures ok { IfOk result (λ r. IsPlayPage ⟦<MemoryFolder as Folder>⟧ script.builder script.folder
        script.start (plan_of script.plan) r.0 r.1.items) }
    ensures err { IfErr result (λ failure. failure ≡ Failure.Memory) }
{
    let Script {
        builder,
        folder,
        start,
        plan,
    } = script;
    match plan {
        Plan::Rolling(steps) => play_rolling(alloc, &builder, folder, start, &steps),
        Plan::Queued(queueing, steps) => {
            play_queued(alloc, &builder, queueing, folder, start, &steps)
        }
    }
}

// Runs a log that is written by itself.
fn play_rolling(
    alloc: Global,
    builder: &Builder,
    folder: MemoryFolder,
    start: i64,
    steps: &[RollStep],
) -> Result<(Opening, Vec<u8>), Failure>
    ensures ok { IfOk result (λ r. IsPlayPage ⟦<MemoryFolder as Folder>⟧ builder.now folder
        start (rolling steps.now) r.0 r.1.items) }
    ensures err { IfErr result (λ failure. failure ≡ Failure.Memory) }
{
    let mut page = Vec::new(alloc);
    match replay_rolling(alloc, builder, folder, start, steps) {
        Ok(run) => match page::print_run(&mut page, start, &run) {
            Ok(()) => Ok((Opening::Opened, page)),
            Err(_) => Err(Failure::Memory),
        },
        Err(error) => play_refusal(alloc, error),
    }
}

// Runs a log that a worker writes, from a queue.
fn play_queued(
    alloc: Global,
    builder: &Builder,
    queueing: Queueing,
    folder: MemoryFolder,
    start: i64,
    steps: &[Step],
) -> Result<(Opening, Vec<u8>), Failure>
    ensures ok { IfOk result (λ r. IsPlayPage ⟦<MemoryFolder as Folder>⟧ builder.now folder
        start (queued queueing.limit queueing.lossy steps.now) r.0 r.1.items) }
    ensures err { IfErr result (λ failure. failure ≡ Failure.Memory) }
{
    let Queueing { limit, lossy } = queueing;
    let mut page = Vec::new(alloc);
    match replay(alloc, builder, limit, lossy, folder, start, steps) {
        Ok(run) => match page::print_queued_run(&mut page, start, &run) {
            Ok(()) => Ok((Opening::Opened, page)),
            Err(_) => Err(Failure::Memory),
        },
        Err(error) => play_refusal(alloc, error),
    }
}

// Prints to a page why the log was not opened.
fn play_refusal(
    alloc: Global,
    error: ReplayError<MemoryFolder>,
) -> Result<(Opening, Vec<u8>), Failure>
    ensures ok { IfOk result (λ r. (r.0 ≡ Opening.Refused) × IsRefusalPage error r.1.items) }
    ensures err { IfErr result (λ failure. failure ≡ Failure.Memory) }
{
    let mut page = Vec::new(alloc);
    match error {
        ReplayError::Init(error, folder) => {
            match page::print_refusal(&mut page, &error, &folder) {
                Ok(()) => Ok((Opening::Refused, page)),
                Err(_) => Err(Failure::Memory),
            }
        }
        ReplayError::Memory(_) => Err(Failure::Memory),
    }
}

fn write_page<W: Write>(output: &mut W, page: &[u8]) -> io::Result<()>
    ensures { OnOk result (Appends (W.contents output.old) (W.contents output.new) page.now) }
{
    output.write_all(page)?;
    output.flush()
}
