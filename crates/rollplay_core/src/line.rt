//! A line of a script: a setting, the start, or a step.

ghost use Rattle.std.specs.Prelude.{◌≡◌, ◌≢◌, ◌++◌, Option, List, ℕ, Bool, None, Some, Err, IfOk, IfErr};
ghost use Rattle.std.specs.List.{All};
ghost use Rattle.appender_names.specs.RotationText.{IsNoRotation, rotation_word};
ghost use Rattle.rollplay_core.specs.Line.{mode_word, BeginsWith, ContinuesWith, IsNotOf};
ghost use Rattle.rollplay_core.specs.Line.{log_kinds, folder_kinds, run_kinds, queue_kinds};
ghost use Rattle.rollplay_core.specs.Line.{IsScriptLine, IsNoScriptLine};

use crate::words::{LineError, Words};
use appender_names::rotation::Rotation;
use appender_replay::replay::{RollStep, Step};
use std::alloc::Global;

/// The queue before a worker that writes the log.
#[derive(Clone, Copy, Debug, PartialEq, Eq)]
pub struct Queueing {
    /// The number of lines for which it has room.
    pub limit: usize,
    /// Whether a full queue drops and counts a line. Else its sender has to try again.
    pub lossy: bool,
}

/// A line that sets something up.
#[derive(Drop)]
pub enum Setting<'a> {
    /// The period after which a new file begins.
    Rotation(Rotation),
    /// The prefix of the name of each file.
    Prefix(String),
    /// The suffix of the name of each file.
    Suffix(String),
    /// The link to the newest file.
    Link(String),
    /// The number of files that are kept.
    Max(usize),
    /// Log files are known only by their names.
    ByName,
    /// The last file of the period is continued.
    Continue,
    /// The number of bytes in a file before the next of its period begins.
    Bytes(u64),
    /// The creation moment of files from here on, in nanoseconds since the epoch.
    Created(Option<i128>),
    /// A file that exists before the start, with its contents.
    File(&'a str, String),
    /// A folder that exists before the start.
    Folder(&'a str),
    /// A link that exists before the start, with its target.
    LinkAt(&'a str, &'a str),
    /// The folder of the log does not exist before the start.
    Absent,
    /// A call that fails, by its number.
    Fail(u64),
    /// An append that takes at most this number of bytes, by the number of its call.
    Short(u64, usize),
    /// A worker writes the log, from this queue.
    Queue(Queueing),
}

/// A line that is valid by itself, in whatever place.
#[derive(Drop)]
pub enum ScriptLine<'a> {
    /// A setting, before the start.
    Setting(Setting<'a>),
    /// The log is opened at this moment, in seconds of UTC since the epoch.
    Start(i64),
    /// A step after the start, if no queue is set up.
    Step(RollStep),
    /// A step after the start, if a queue is set up.
    QueueStep(Step),
}

impl<'a> ScriptLine<'a> {
    /// Reads a whole line, without its newline.
    pub fn read(alloc: Global, line: &'a str) -> Result<ScriptLine<'a>, LineError>
        ensures ok { IfOk result (IsScriptLine line.now) }
        ensures fault { result ≡ Err LineError.Fault → IsNoScriptLine line.now }
    {
        let mut words = Words::new(line);
        let line = ScriptLine::read_words(alloc, &mut words)?;
        words.end()?;
        Ok(line)
    }

    // Reads the first word and its arguments.
    fn read_words(alloc: Global, words: &mut Words<'a>) -> Result<ScriptLine<'a>, LineError>
        ensures ok { IfOk result (λ line. BeginsWith words.old line words.new) }
        ensures fault { result ≡ Err LineError.Fault →
            (line : _) → (left : Option (List ℕ)) → ¬ (BeginsWith words.old line left) }
    {
        let word = words.word()?;
        ScriptLine::read_log_words(alloc, word, words)
    }

    // Reads the arguments of a first word: here those of the log's settings.
    fn read_log_words(
        alloc: Global,
        word: &str,
        words: &mut Words<'a>,
    ) -> Result<ScriptLine<'a>, LineError>
        ensures ok { IfOk result (λ line. ContinuesWith word.now words.old line words.new) }
        ensures fault { result ≡ Err LineError.Fault →
            All (IsNotOf word.now words.old) (log_kinds ++ folder_kinds ++ run_kinds ++ queue_kinds) }
    {
        Ok(ScriptLine::Setting(match word {
            "rotation" => Setting::Rotation(read_rotation(words.word()?)?),
            "prefix" => Setting::Prefix(words.text(alloc)?),
            "suffix" => Setting::Suffix(words.text(alloc)?),
            "link" => Setting::Link(words.text(alloc)?),
            "max" => Setting::Max(words.count()?),
            "bytes" => Setting::Bytes(words.unsigned()?),
            "by-name" => Setting::ByName,
            "continue" => Setting::Continue,
            _ => return ScriptLine::read_folder_words(alloc, word, words),
        }))
    }

    // Then those of the folder's entries, and of its calls that fail.
    fn read_folder_words(
        alloc: Global,
        word: &str,
        words: &mut Words<'a>,
    ) -> Result<ScriptLine<'a>, LineError>
        ensures ok { IfOk result (λ line. ContinuesWith word.now words.old line words.new) }
        ensures fault { result ≡ Err LineError.Fault →
            All (IsNotOf word.now words.old) (folder_kinds ++ run_kinds ++ queue_kinds) }
    {
        Ok(ScriptLine::Setting(match word {
            "created" => Setting::Created(words.creation()?),
            "file" => Setting::File(words.word()?, words.text(alloc)?),
            "folder" => Setting::Folder(words.word()?),
            "link-at" => Setting::LinkAt(words.word()?, words.word()?),
            "absent" => Setting::Absent,
            "fail" => Setting::Fail(words.call()?),
            "short" => Setting::Short(words.call()?, words.count()?),
            _ => return ScriptLine::read_run_words(alloc, word, words),
        }))
    }

    // Then those of the start, and of the steps of a run without a queue.
    fn read_run_words(
        alloc: Global,
        word: &str,
        words: &mut Words<'a>,
    ) -> Result<ScriptLine<'a>, LineError>
        ensures ok { IfOk result (λ line. ContinuesWith word.now words.old line words.new) }
        ensures fault { result ≡ Err LineError.Fault → All (IsNotOf word.now words.old) (run_kinds ++ queue_kinds) }
    {
        Ok(match word {
            "start" => ScriptLine::Start(words.seconds()?),
            "see" => ScriptLine::Step(RollStep::See(words.seconds()?)),
            "put" => ScriptLine::Step(RollStep::Put(
                words.seconds()?,
                words.text(alloc)?.into_bytes(),
            )),
            "write" => ScriptLine::Step(RollStep::Write(words.text(alloc)?.into_bytes())),
            "flush" => ScriptLine::Step(RollStep::Flush),
            _ => return ScriptLine::read_queue_words(alloc, word, words),
        })
    }

    // At last those of a queue and of the steps of a run with one.
    fn read_queue_words(
        alloc: Global,
        word: &str,
        words: &mut Words<'a>,
    ) -> Result<ScriptLine<'a>, LineError>
        ensures ok { IfOk result (λ line. ContinuesWith word.now words.old line words.new) }
        ensures fault { result ≡ Err LineError.Fault → All (IsNotOf word.now words.old) queue_kinds }
    {
        Ok(match word {
            "queue" => ScriptLine::Setting(Setting::Queue(Queueing {
                limit: words.count()?,
                lossy: read_mode(words.word()?)?,
            })),
            "offer" => ScriptLine::QueueStep(Step::Offer(
                words.unsigned()?,
                words.text(alloc)?.into_bytes(),
            )),
            "shut" => ScriptLine::QueueStep(Step::Shut),
            "add" => ScriptLine::QueueStep(Step::AddSender),
            "drop" => ScriptLine::QueueStep(Step::DropSender),
            "work" => ScriptLine::QueueStep(Step::Work(words.seconds()?)),
            _ => return Err(LineError::Fault),
        })
    }
}

// Reads whether a queue is lossy.
fn read_mode(word: &str) -> Result<bool, LineError>
    ensures ok { IfOk result (λ lossy. word.now ≡ mode_word lossy) }
    ensures err { IfErr result (λ e. (e ≡ LineError.Fault)
        × ((lossy : Bool) → word.now ≢ mode_word lossy)) }
{
    match word {
        "lossy" => Ok(true),
        "waiting" => Ok(false),
        _ => Err(LineError::Fault),
    }
}

fn read_rotation(word: &str) -> Result<Rotation, LineError>
    ensures ok { IfOk result (λ r. word.now ≡ rotation_word r) }
    ensures err { IfErr result (λ e. (e ≡ LineError.Fault)
        × IsNoRotation word.now) }
{
    word.parse::<Rotation>().map_err(|_| LineError::Fault)
}
