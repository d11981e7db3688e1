// Runs of a queue, a worker and a roller together.
ghost use Rattle.std.specs.Prelude.{◌≡◌, [], length, IfOk, IfErr, IsOk};
ghost use Rattle.appender_replay.specs.Replay.{with_replies, with_replies_onto, RunsFrom, RollerFollows, IsNotRun};
ghost use Rattle.appender_replay.specs.Start.{start_of};
ghost use Rattle.appender_replay.specs.Record.{WorkerDoes, read_in};
ghost use Rattle.appender_replay.specs.Run.{KeepsToLimit};
ghost use Rattle.appender_replay.specs.Inside.Steps.{offered_reply, taken_reply, OffersCopy, WorkDoes, RunStepDoes, parts};
ghost use Rattle.appender_replay.specs.Whole.{LinesFollow};
ghost use Rattle.appender_replay.specs.Headline.{Headline, account};

use crate::replay::{ReplayError, by_kind};
use appender_names::laws::{names_are_periods, periods_lie_between_boundaries};
use appender_queue::queue::{LineQueue, Refused, Shut, Taken};
use appender_rolling::laws::openings_keep_files;
use appender_rolling::rolling::{Builder, Roller, Switch};
use appender_store::laws::names_change_one_at_a_time;
use appender_store::store::Folder;
use appender_worker::worker::{Want, WorkerCore};
use std::alloc::{AllocError, Global};
use std::io;

/// A step of a run. Moments are seconds of UTC since the epoch.
#[derive(Debug, Drop, PartialEq, Eq)]
pub enum Step {
    /// A sender offers a copy of this line. The number is the sender's label.
    Offer(u64, Vec<u8>),
    /// The shutdown is sent.
    Shut,
    /// One more sender.
    AddSender,
    /// One sender less.
    DropSender,
    /// The worker does its next action, at this moment: a take, a write or a flush. Only a write checks the clock.
    Work(i64),
}

/// The reply to a step. Of an error it has only the kind.
#[derive(Clone, Copy, Debug, PartialEq, Eq)]
pub enum Reply {
    /// To `Offer`: the line's ticket.
    Accepted(u64),
    /// To `Offer`: the queue is full.
    Full,
    /// To `Offer`: the queue is closed, or has no tickets left.
    Closed,
    /// To `Offer`: memory for the copy of a line that isn't empty was refused, and nothing changed.
    NoMemory,
    /// To `Shut`.
    Shut(Shut),
    /// To `AddSender` and `DropSender`: the number of senders after the step.
    Senders(u64),
    /// To `Work`: the worker took the line with this ticket.
    Took(u64),
    /// To `Work`: the worker took the shutdown.
    TookShutdown,
    /// To `Work`: the queue is closed, or closed by this take, since no sender is left.
    TookGone,
    /// To `Work`: there was nothing to take.
    TookEmpty,
    /// To `Work`: the worker wrote. The number is that of the bytes that were taken.
    Wrote(Switch, Result<usize, io::ErrorKind>),
    /// To `Work`: the worker flushed.
    Flushed(Result<(), io::ErrorKind>),
    /// To `Work`: the worker had ended before.
    Ended,
}

/// The result of `replay`, after the last step.
#[derive(Drop)]
pub struct Run<S: Folder> {
    /// The replies, one for each step, in the order of the steps.
    pub replies: Vec<Reply>,
    /// The queue, with the lines that were not taken.
    pub queue: LineQueue,
    /// The worker, with the line that it is writing, if there is one.
    pub worker: WorkerCore,
    /// The roller, whose folder has the files that were written.
    pub roller: Roller<S>,
    /// The number in the name of the file that was opened first. 0 if no limit of bytes is set.
    pub number: u32,
    /// How many bytes of the limit were left of that file when it was opened. 0 if no limit is set.
    pub room: u64,
}

// The reply to an offer, without the line.
fn reply_to_offer(answer: Result<u64, Refused>) -> Reply
    ensures { result ≡ offered_reply answer }
{
    match answer {
        Ok(ticket) => Reply::Accepted(ticket),
        Err(Refused::Full(_)) => Reply::Full,
        Err(Refused::Closed(_)) => Reply::Closed,
    }
}

// A copy of the line. An empty one takes no memory.
fn copy_of(alloc: Global, line: &[u8]) -> Result<Vec<u8>, AllocError>
    ensures copy { IfOk result (λ copy. copy.items ≡ line.now) }
    ensures empty { line.now ≡ [] → IsOk result }
{
    if line.is_empty() {
        return Ok(Vec::new(alloc));
    }
    Vec::from_slice(alloc, line)
}

// Offers a copy of the line.
fn offer(alloc: Global, queue: &mut LineQueue, line: &[u8]) -> Reply
    ensures { OffersCopy queue.old line.now result queue.new }
{
    match copy_of(alloc, line) {
        Err(_) => Reply::NoMemory,
        Ok(copy) => reply_to_offer(queue.offer(copy)),
    }
}

// The reply to a take, without the line.
fn reply_to_take(taken: &Taken) -> Reply
    ensures { result ≡ taken_reply taken.now }
{
    match taken {
        Taken::Line(ticket, _) => Reply::Took(*ticket),
        Taken::Shutdown => Reply::TookShutdown,
        Taken::Gone => Reply::TookGone,
        Taken::Empty => Reply::TookEmpty,
    }
}

// Does the worker's next action.
fn work<S: Folder>(
    queue: &mut LineQueue,
    worker: &mut WorkerCore,
    roller: &mut Roller<S>,
    moment: i64,
) -> Reply
    ensures { WorkDoes S.Folder worker.old moment result
        (parts queue.old worker.old roller.old) (parts queue.new worker.new roller.new) }
{
    match worker.want() {
        Want::Take { waits } => {
            let taken = queue.take(waits);
            let reply = reply_to_take(&taken);
            worker.took(taken);
            reply
        }
        Want::Write(rest) => {
            let (switch, answer) = roller.put(moment, rest);
            let reply = Reply::Wrote(switch, by_kind(&answer));
            worker.wrote(answer);
            reply
        }
        Want::Flush => {
            let answer = roller.flush();
            let reply = Reply::Flushed(by_kind(&answer));
            worker.flushed(answer);
            reply
        }
        Want::Ended => Reply::Ended,
    }
}

// Does one step.
fn run_step<S: Folder>(
    alloc: Global,
    queue: &mut LineQueue,
    worker: &mut WorkerCore,
    roller: &mut Roller<S>,
    step: &Step,
) -> Reply
    ensures { RunStepDoes S.Folder (step.now, result)
        (parts queue.old worker.old roller.old) (parts queue.new worker.new roller.new) }
{
    match step {
        Step::Offer(_, line) => offer(alloc, queue, line),
        Step::Shut => Reply::Shut(queue.shut()),
        Step::AddSender => Reply::Senders(queue.add_sender()),
        Step::DropSender => Reply::Senders(queue.drop_sender()),
        Step::Work(moment) => work(queue, worker, roller, *moment),
    }
}

/// Opens a roller over the folder at the moment `start`, in seconds of UTC since the epoch, and runs the steps in
/// order. The worker takes lines from a queue of `limit` lines, and writes them by the roller. Memory for the replies
/// and the queue is allocated before the opening: `Memory` if it is refused. `Init` if the opening fails.
pub fn replay<S: Folder>(
    alloc: Global,
    builder: &Builder,
    limit: usize,
    lossy: bool,
    folder: S,
    start: i64,
    steps: &[Step],
) -> Result<Run<S>, ReplayError<S>>
    ensures headline { IfOk result (λ run. Headline S.Folder limit builder.now start run.number run.room
        (with_replies_onto [] steps.now run.replies.items) folder run.roller.folder) }
    ensures one_each { IfOk result (λ run. length run.replies.items ≡ length steps.now) }
    ensures lines { IfOk result (λ run. LinesFollow builder.now (start_of builder.now start run.number run.room)
        (with_replies steps.now run.replies.items) limit lossy run.queue run.worker) }
    ensures runs { IfOk result (λ run.
        RunsFrom S.Folder (WorkerDoes S.Folder builder.now (start_of builder.now start run.number run.room))
        builder.now start run.number run.room folder (with_replies steps.now run.replies.items) run.roller) }
    ensures roller { IfOk result (λ run.
        RollerFollows S.Folder (WorkerDoes S.Folder builder.now (start_of builder.now start run.number run.room)) read_in
        builder.now start run.number run.room folder (with_replies steps.now run.replies.items) run.roller
        (account builder.now (start_of builder.now start run.number run.room) (with_replies steps.now run.replies.items)).files) }
    ensures limit { IfOk result (λ run. KeepsToLimit builder.now
        (account builder.now (start_of builder.now start run.number run.room) (with_replies steps.now run.replies.items)).files) }
    ensures err { IfErr result (λ error. IsNotRun S.Folder builder.now start folder error) }
{
    names_change_one_at_a_time();
    openings_keep_files();
    periods_lie_between_boundaries();
    names_are_periods();
    let mut replies = match Vec::with_capacity(alloc, steps.len()) {
        Ok(replies) => replies,
        Err(_) => return Err(ReplayError::Memory(folder)),
    };
    let mut queue = match LineQueue::new(alloc, limit, lossy) {
        Ok(queue) => queue,
        Err(_) => return Err(ReplayError::Memory(folder)),
    };
    let mut roller = match Roller::open(alloc, builder, folder, start) {
        Ok(roller) => roller,
        Err((error, folder)) => return Err(ReplayError::Init(error, folder)),
    };
    let number = roller.number();
    let room = roller.room();
    let mut worker = WorkerCore::new();
    for step in steps {
        let reply = run_step(alloc, &mut queue, &mut worker, &mut roller, step);
        replies.push_reserved(reply);
    }
    Ok(Run {
        replies,
        queue,
        worker,
        roller,
        number,
        room,
    })
}
