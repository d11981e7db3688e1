//! A script: its settings, then the moment at which the log is opened, then the steps.

ghost use Rattle.std.specs.Prelude.{◌≡◌, ◌≢◌, ◌≤◌, ℕ, [], length, false, true, IfOk, Some, Err, IfSome};
ghost use Rattle.std.specs.Prelude.{IsNone, OnOk};
ghost use Rattle.appender_store.specs.MemoryView.{state_of};
ghost use Rattle.rollplay_core.specs.Script.{BeginsWithLine, config_after, folder_after, queueing_after, is_refused_put, error_of_put};

use crate::line::{Queueing, ScriptLine, Setting};
use crate::words::LineError;
use appender_replay::replay::{RollStep, Step};
use appender_rolling::rolling::Builder;
use appender_store::store::{MemoryFolder, PutError};
use std::alloc::{AllocError, Global};
use std::mem;

/// The greatest number of bytes of a script.
pub const LONGEST: usize = 1_048_576;

/// Why a text is not a script.
#[derive(Clone, Copy, Debug, PartialEq, Eq)]
pub enum ScriptError {
    /// The first faulty line, counted from 1. If `start` is missing, it is the line after the last.
    Fault(usize),
    /// Memory was refused.
    Memory,
}

impl ScriptError {
    // Returns the error of the script for the error of this line.
    fn at(line: usize, error: LineError) -> ScriptError
        ensures fault { error ≡ LineError.Fault → result ≡ ScriptError.Fault line }
        ensures memory { error ≡ LineError.Memory → result ≡ ScriptError.Memory }
    {
        match error {
            LineError::Fault => ScriptError::Fault(line),
            LineError::Memory => ScriptError::Memory,
        }
    }
}

/// The steps of a log once it is open.
#[derive(Drop)]
pub enum Plan {
    /// The log is written without a queue.
    Rolling(Vec<RollStep>),
    /// A worker writes the log, from a queue.
    Queued(Queueing, Vec<Step>),
}

/// A whole script, of which each line is valid.
#[derive(Drop)]
pub struct Script {
    /// The configuration of the log.
    pub builder: Builder,
    /// The folder before the log is opened.
    pub folder: MemoryFolder,
    /// The moment of the opening, in seconds of UTC since the epoch.
    pub start: i64,
    /// The steps after the opening.
    pub plan: Plan,
}

impl Script {
    ghost use Rattle.rollplay_core.specs.Draft.{plan_of};
    ghost use Rattle.rollplay_core.specs.Script.{IsScript, HasFirstFault};

    /// Reads a script up to its first faulty line.
    pub fn read(alloc: Global, text: &str) -> Result<Script, ScriptError>
        requires { length text.now ≤ LONGEST }
        ensures ok { IfOk result (λ s.
            IsScript text.now s.builder (state_of s.folder) s.start (plan_of s.plan)) }
        ensures fault { (number : ℕ) → result ≡ Err (ScriptError.Fault number) →
            HasFirstFault text.now number }
    {
        let mut draft = Draft::new(alloc);
        let mut rest = text;
        let mut number = 1;
        while !rest.is_empty() {
            let (line, behind) = split_line(rest);
            if let Err(error) = draft.add(alloc, line) {
                return Err(ScriptError::at(number, error));
            }
            rest = behind;
            number += 1;
        }
        draft.finish().ok_or(ScriptError::Fault(number))
    }
}

// Returns the first line of a text, and the text after its newline.
fn split_line(text: &str) -> (&str, &str)
    requires { text.now ≢ [] }
    ensures { BeginsWithLine text.now result.0.now result.1.now }
{
    text.split_once('\n').unwrap_or((text, ""))
}

// A script as far as it was read.
#[derive(Drop)]
struct Draft {
    // Whether anything was set up.
    begun: bool,
    builder: Builder,
    folder: MemoryFolder,
    queueing: Option<Queueing>,
    start: Option<i64>,
    // Empty if there is a queue. Else `queue_steps` is empty.
    steps: Vec<RollStep>,
    queue_steps: Vec<Step>,
}

impl Draft {
    ghost use Rattle.rollplay_core.specs.Draft.{progress_of, plan_of};
    ghost use Rattle.rollplay_core.specs.Script.{AddsLine, IsFaultyLine, HasParts, nothing_read, progress_after_setting, is_refused};

    fn new(alloc: Global) -> Draft
        ensures { progress_of result ≡ nothing_read }
    {
        Draft {
            begun: false,
            builder: Builder::new(),
            folder: MemoryFolder::new(alloc),
            queueing: None,
            start: None,
            steps: Vec::new(alloc),
            queue_steps: Vec::new(alloc),
        }
    }

    // Takes the next line. Settings are first, then `start` once, then the steps. With a queue, they are its steps.
    fn add(&mut self, alloc: Global, line: &str) -> Result<(), LineError>
        ensures ok { OnOk result (AddsLine line.now (progress_of self.old) (progress_of self.new)) }
        ensures fault { result ≡ Err LineError.Fault → IsFaultyLine line.now (progress_of self.old) }
    {
        match (self.start, self.queueing, ScriptLine::read(alloc, line)?) {
            (None, _, ScriptLine::Setting(setting)) => self.set(alloc, &setting),
            (None, _, ScriptLine::Start(moment)) => {
                self.start = Some(moment);
                Ok(())
            }
            (Some(_), None, ScriptLine::Step(step)) => {
                self.steps.push(step).map_err(AllocError::from)?;
                Ok(())
            }
            (Some(_), Some(_), ScriptLine::QueueStep(step)) => {
                self.queue_steps.push(step).map_err(AllocError::from)?;
                Ok(())
            }
            _ => Err(LineError::Fault),
        }
    }

    // Applies a setting, if it is allowed now.
    fn set(&mut self, alloc: Global, setting: &Setting<'_>) -> Result<(), LineError>
        ensures ok { OnOk result
            (progress_of self.new ≡ progress_after_setting setting.now (progress_of self.old)) }
        ensures fits { OnOk result (is_refused setting.now (progress_of self.old) ≡ false) }
        ensures fault { result ≡ Err LineError.Fault →
            is_refused setting.now (progress_of self.old) ≡ true }
    {
        if self.begun && matches!(setting, Setting::Absent) {
            return Err(LineError::Fault);
        }
        set_folder(alloc, &mut self.folder, setting)?;
        self.builder = builder_with(alloc, mem::take(&mut self.builder), setting)?;
        self.queueing = queueing_with(self.queueing, setting);
        self.begun = true;
        Ok(())
    }

    // Returns the whole script, or `None` if `start` is missing.
    fn finish(self) -> Option<Script>
        ensures none { IsNone result → self.start ≡ None }
        ensures some { IfSome result (λ s.
            HasParts (progress_of self) s.builder (state_of s.folder) s.start (plan_of s.plan)) }
    {
        let Draft {
            begun: _,
            builder,
            folder,
            queueing,
            start,
            steps,
            queue_steps,
        } = self;
        let plan = match queueing {
            None => Plan::Rolling(steps),
            Some(queueing) => Plan::Queued(queueing, queue_steps),
        };
        Some(Script {
            builder,
            folder,
            start: start?,
            plan,
        })
    }
}

// Returns the builder with the setting of a line.
fn builder_with(
    alloc: Global,
    builder: Builder,
    setting: &Setting<'_>,
) -> Result<Builder, AllocError>
    ensures { IfOk result (λ b. b ≡ config_after setting.now builder) }
{
    match setting {
        Setting::Rotation(rotation) => Ok(builder.rotation(*rotation)),
        Setting::Prefix(prefix) => builder.filename_prefix(alloc, prefix.as_str()),
        Setting::Suffix(suffix) => builder.filename_suffix(alloc, suffix.as_str()),
        Setting::Link(link) => builder.latest_symlink(alloc, link.as_str()),
        Setting::Max(max) => Ok(builder.max_log_files(*max)),
        Setting::ByName => Ok(builder.log_files_by_name(true)),
        Setting::Continue => Ok(builder.continue_last_file(true)),
        Setting::Bytes(max) => Ok(builder.max_file_bytes(*max)),
        _ => Ok(builder),
    }
}

// Returns the queue, if there is one, with the setting of a line.
fn queueing_with(queueing: Option<Queueing>, setting: &Setting<'_>) -> Option<Queueing>
    ensures { result ≡ queueing_after setting.now queueing }
{
    match setting {
        Setting::Queue(queueing) => Some(*queueing),
        _ => queueing,
    }
}

// Applies the setting of a line to the folder.
fn set_folder(
    alloc: Global,
    folder: &mut MemoryFolder,
    setting: &Setting<'_>,
) -> Result<(), LineError>
    ensures ok { OnOk result (state_of folder.new ≡ folder_after setting.now (state_of folder.old)) }
    ensures fits { OnOk result (is_refused_put setting.now (state_of folder.old) ≡ false) }
    ensures fault { result ≡ Err LineError.Fault →
        is_refused_put setting.now (state_of folder.old) ≡ true }
{
    match setting {
        Setting::Created(moment) => folder.set_created(*moment),
        Setting::File(name, text) => folder.put_file(name, text.as_bytes()).map_err(line_error)?,
        Setting::Folder(name) => folder.put_folder(name).map_err(line_error)?,
        Setting::LinkAt(name, target) => folder.put_link(name, target).map_err(line_error)?,
        Setting::Absent => *folder = MemoryFolder::absent(alloc),
        Setting::Fail(call) => folder.fail_call(*call)?,
        Setting::Short(call, limit) => folder.short_append(*call, *limit)?,
        _ => {}
    }
    Ok(())
}

// Returns the error of a line whose put was refused.
fn line_error(put: PutError) -> LineError
    ensures { result ≡ error_of_put put }
{
    match put {
        PutError::Name | PutError::Used => LineError::Fault,
        PutError::Memory => LineError::Memory,
    }
}
