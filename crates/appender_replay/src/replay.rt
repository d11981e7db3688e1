//! Runs of an appender that are given as lists of steps, for tests and scripts.
ghost use Rattle.std.specs.Prelude.{◌≡◌, [], length, IfOk, IfErr};
ghost use Rattle.appender_replay.specs.RollHeadline.{RollHeadline, roll_account};
ghost use Rattle.appender_replay.specs.Headline.{by_kind};
ghost use Rattle.appender_replay.specs.Run.{KeepsToLimit};
ghost use Rattle.appender_replay.specs.Start.{start_of};
ghost use Rattle.appender_replay.specs.Replay.{with_replies, with_replies_onto, read_by, RollStepDoes, RollDoes, RunsFrom, RollerFollows, IsNotRun, HasSteps, ChecksBeforeWrites};

mod refused;
mod whole;

use appender_names::laws::{names_are_periods, periods_lie_between_boundaries};
use appender_rolling::laws::openings_keep_files;
use appender_rolling::rolling::{Builder, InitError, Roller, Switch};
use appender_store::laws::names_change_one_at_a_time;
use appender_store::store::Folder;
use std::alloc::Global;
use std::io;
pub use whole::{Reply, Run, Step, replay};

/// A step of a roller's run. Moments are seconds of UTC since the epoch.
#[derive(Debug, Drop, PartialEq, Eq)]
pub enum RollStep {
    /// A check of the clock.
    See(i64),
    /// A check of the clock, and then a write.
    Put(i64, Vec<u8>),
    /// A write that doesn't check the clock.
    Write(Vec<u8>),
    /// A flush of the open file.
    Flush,
}

/// The reply to a step. Of an error it has only the kind.
#[derive(Clone, Copy, Debug, PartialEq, Eq)]
pub enum RollReply {
    /// To `See`.
    Saw(Switch),
    /// To `Put`: how many bytes were taken.
    Put(Switch, Result<usize, io::ErrorKind>),
    /// To `Write`: how many bytes were taken.
    Wrote(Result<usize, io::ErrorKind>),
    /// To `Flush`.
    Flushed(Result<(), io::ErrorKind>),
}

/// The result of `replay_rolling`, after the last step.
#[derive(Drop)]
pub struct RollRun<S: Folder> {
    /// The replies, one for each step, in the order of the steps.
    pub replies: Vec<RollReply>,
    /// The roller, whose folder has the files that were written.
    pub roller: Roller<S>,
    /// The number in the name of the file that was opened first. 0 if no limit of bytes is set.
    pub number: u32,
    /// How many bytes of the limit were left of that file when it was opened. 0 if no limit is set.
    pub room: u64,
}

/// Why a run failed before its first step. Each case returns the folder.
#[derive(Drop)]
pub enum ReplayError<S: Drop> {
    /// Memory for the replies or for the queue was refused. The folder was not called.
    Memory(S),
    /// The roller could not be opened. The error is that of `Roller::open`, which may have changed the folder.
    Init(InitError, S),
}

// Returns the answer, of an error only its kind.
fn by_kind<T: Copy>(answer: &io::Result<T>) -> Result<T, io::ErrorKind>
    ensures { result ≡ by_kind answer.now }
{
    match answer {
        Ok(value) => Ok(*value),
        Err(fault) => Err(fault.kind()),
    }
}

// Does one step.
fn run_step<S: Folder>(roller: &mut Roller<S>, step: &RollStep) -> RollReply
    ensures { RollStepDoes S.Folder (step.now, result) roller.old roller.new }
{
    match step {
        RollStep::See(moment) => RollReply::Saw(roller.see(*moment)),
        RollStep::Put(moment, bytes) => {
            let (switch, answer) = roller.put(*moment, bytes);
            RollReply::Put(switch, by_kind(&answer))
        }
        RollStep::Write(bytes) => RollReply::Wrote(by_kind(&roller.write(bytes))),
        RollStep::Flush => RollReply::Flushed(by_kind(&roller.flush())),
    }
}

/// Opens a roller over the folder at the moment `start`, in seconds of UTC since the epoch, and runs the steps in
/// order. Memory for all replies is allocated before the opening: `Memory` if it is refused. `Init` if the opening
/// fails.
pub fn replay_rolling<S: Folder>(
    alloc: Global,
    builder: &Builder,
    folder: S,
    start: i64,
    steps: &[RollStep],
) -> Result<RollRun<S>, ReplayError<S>>
    ensures headline { IfOk result (λ run. RollHeadline S.Folder builder.now start run.number run.room
        (with_replies_onto [] steps.now run.replies.items) folder run.roller.folder) }
    ensures one_each { IfOk result (λ run. length run.replies.items ≡ length steps.now) }
    ensures runs { IfOk result (λ run. RunsFrom S.Folder (RollDoes S.Folder) builder.now start run.number run.room
        folder (with_replies steps.now run.replies.items) run.roller) }
    ensures roller { IfOk result (λ run. RollerFollows S.Folder (RollDoes S.Folder) read_by builder.now start
        run.number run.room folder (with_replies steps.now run.replies.items) run.roller
        (roll_account builder.now (start_of builder.now start run.number run.room) (with_replies steps.now run.replies.items))) }
    ensures limit { IfOk result (λ run. ChecksBeforeWrites (with_replies steps.now run.replies.items) → KeepsToLimit builder.now
        (roll_account builder.now (start_of builder.now start run.number run.room) (with_replies steps.now run.replies.items))) }
    ensures err { IfErr result (λ error. IsNotRun S.Folder builder.now start folder error) }
    ensures memory { IfErr result (HasSteps (length steps.now)) }
{
    names_change_one_at_a_time();
    openings_keep_files();
    periods_lie_between_boundaries();
    names_are_periods();
    let mut replies = match Vec::with_capacity(alloc, steps.len()) {
        Ok(replies) => replies,
        Err(_) => return Err(ReplayError::Memory(folder)),
    };
    let mut roller = match Roller::open(alloc, builder, folder, start) {
        Ok(roller) => roller,
        Err((error, folder)) => return Err(ReplayError::Init(error, folder)),
    };
    let number = roller.number();
    let room = roller.room();
    for step in steps {
        let reply = run_step(&mut roller, step);
        replies.push_reserved(reply);
    }
    Ok(RollRun {
        replies,
        roller,
        number,
        room,
    })
}
