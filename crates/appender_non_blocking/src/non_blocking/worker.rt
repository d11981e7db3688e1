// What the worker's thread does.
ghost use Rattle.std.specs.Prelude.{◌≡◌, [], true, IfOk, if◌then◌else◌};
ghost use Rattle.std.specs.Io.KnownBytes.{Keeps};
ghost use Rattle.appender_non_blocking.specs.Inside.Hand.{Ahead, TakesAhead};
ghost use Rattle.appender_non_blocking.specs.Inside.Served.{Serves};
ghost use Rattle.appender_queue.specs.Queue.{saturating_next};
ghost use Rattle.appender_worker.specs.Core.{after_flushed, is_flushing, is_writing};
ghost use Rattle.appender_worker.specs.Runs.{WritesOnce, is_waiting};

use super::flushes::{Flushes, Progress};
use super::shared::Shared;
use appender_channel::books::Books;
use appender_channel::pace::{EMPTY_TURNS, LOOKS};
use appender_channel::state::{State, TakeRequest, Wakeups};
use appender_queue::queue::Taken;
use appender_runtime::backoff::{Backoff, yield_for};
use appender_worker::worker::{LineSink, Want, WorkerCore};
use circular_buffer::HeapCircularBuffer;
use std::alloc::{AllocError, Global};
use std::io;
use std::io::{ErrorKind, Write};
use std::sync::Wait;

// How many lines a worker takes in one hold of the lock, and of how many places of the queue it takes one then. So a queue of
// few places has its lines taken one by one.
const AT_ONCE: usize = 16;

const SHARE: usize = 32;

/// What the worker took and has not passed on to its core, and the buffers of written lines that it has not given back.
#[derive(Drop)]
pub(super) struct Hand {
    // Lines, and last maybe the end.
    taken: HeapCircularBuffer<Taken>,
    spent: Vec<Vec<u8>>,
    progress: Progress,
}

impl Hand {
    /// Returns an empty hand of the worker of a queue with this limit of lines.
    pub(super) fn new(alloc: Global, limit: usize) -> Result<Hand, AllocError>
        ensures { IfOk result (λ hand. hand.taken.items ≡ []) }
    {
        let lines = AT_ONCE.min(limit / SHARE).max(1);
        Ok(Hand {
            taken: HeapCircularBuffer::with_capacity(alloc, lines - 1)?,
            spent: Vec::with_capacity(alloc, lines)?,
            progress: Progress::NONE,
        })
    }

    // Keeps the buffer of a written line, if there is room for it.
    #[inline(always)]
    fn keep(&mut self, spent: Option<Vec<u8>>)
        ensures { self.new.taken ≡ self.old.taken }
    {
        if let Some(buffer) = spent
            && self.spent.len() < self.spent.capacity()
        {
            self.spent.push_reserved(buffer);
        }
    }
}

// Returns the first of what is in hand. If there is none, makes one take under the lock, and if that finds a line more of them in the
// same hold of the lock, for the hand. If there is nothing to take and the request says so, sleeps until it is woken.
#[tactic(auto, using(crate::proofs::Holding::popped, crate::proofs::Holding::none_in_hand, crate::proofs::Holding::none_left, crate::proofs::Holding::takes_line_more, crate::proofs::Holding::takes_shutdown, crate::proofs::Holding::takes_gone, crate::proofs::Holding::takes_none))]
#[inline]
fn take<B: Books, R: Wait>(
    rt: &R,
    shared: &Shared<B>,
    backoff: &mut Backoff,
    request: TakeRequest,
    hand: &mut Hand,
    pass: &mut B::Pass,
) -> Taken
    requires { hand.old.taken.items ≡ [] → B.may_take pass.old }
    ensures { (passed : _) → Ahead B.counts_take B.counts_closing B.may_take B.has_ended hand.old.taken.items passed pass.old
        → TakesAhead B.counts_take B.counts_closing B.may_take B.has_ended result hand.new.taken.items passed pass.new }
{
    let sleeps = request.sleeps;
    if let Some(taken) = hand.taken.pop_front() {
        hand.keep(request.spent);
        return taken;
    }
    let mut state = shared.lock(rt, backoff);
    let (taken, surplus, wakeups) = state.take(request, pass);
    let wakeups = if let Taken::Line(..) = &taken {
        take_more(&mut *state, wakeups, hand, pass)
    } else {
        wakeups
    };
    if sleeps && matches!(&taken, Taken::Empty) {
        // With a limit of 0 there is room only now.
        shared.wake(wakeups);
        let mut state = if shared.flushes.are_asked(hand.progress) {
            state
        } else {
            shared.lines.wait(rt, state)
        };
        state.set_awake();
    } else {
        drop(state);
        shared.wake(wakeups);
    }
    drop(surplus);
    taken
}

// Takes for the hand until it is full, or the queue has nothing more, or has ended. Returns whom to wake after all of these takes.
#[tactic(auto, using(crate::proofs::Holding::ahead_none, crate::proofs::Holding::lines_none, crate::proofs::Holding::ahead_line, crate::proofs::Holding::lines_more, crate::proofs::Holding::ahead_shutdown, crate::proofs::Holding::ahead_gone))]
#[inline(always)]
fn take_more<B: Books>(
    state: &mut State<B>,
    wakeups: Wakeups,
    hand: &mut Hand,
    pass: &mut B::Pass,
) -> Wakeups
    requires may { B.may_take pass.old }
    requires none { hand.old.taken.items ≡ [] }
    ensures { Ahead B.counts_take B.counts_closing B.may_take B.has_ended hand.new.taken.items pass.old pass.new }
{
    let Wakeups { worker, sender } = wakeups;
    let mut sender = sender;
    for _ in 1..AT_ONCE {
        if hand.taken.len() >= hand.taken.capacity() {
            break;
        }
        let request = TakeRequest {
            waits: false,
            sleeps: false,
            spent: hand.spent.pop(),
        };
        let (taken, surplus, wakeups) = state.take(request, pass);
        let Wakeups {
            worker: _,
            sender: more,
        } = wakeups;
        sender = sender || more;
        // Nothing is freed under the lock.
        hand.keep(surplus);
        if let Taken::Empty = &taken {
            break;
        }
        let is_line = matches!(&taken, Taken::Line(..));
        let Ok(()) = hand.taken.try_push_back(taken) else {
            unreachable!()
        };
        if !is_line {
            break;
        }
    }
    Wakeups { worker, sender }
}

// Flushes the writer, and notes the first fault. One of the last flush is reported on standard error, since no line follows it.
fn flush<W: Write, R: Eprint>(
    rt: &R,
    core: &mut WorkerCore,
    writer: &mut W,
    noted: &mut Option<ErrorKind>,
)
    requires { is_flushing core.old ≡ true }
    ensures core { core.new ≡ after_flushed core.old }
    ensures bytes { Keeps (W.contents writer.old) (W.contents writer.new) }
{
    match writer.flush() {
        Ok(()) => core.flushed(Ok(())),
        Err(fault) => {
            *noted = noted.or(Some(fault.kind()));
            core.flushed(Err(io::Error::from(fault.kind())));
            if let Want::Ended = core.want() {
                let _ = rt.eprintln(format_args!("Failed to flush. Error: {fault}"));
            }
        }
    }
}

// Flushes the writer if a sender asked for it.
#[inline(always)]
fn flush_asked<B: Books, W: Write, R: Wait>(
    rt: &R,
    shared: &Shared<B>,
    progress: &mut Progress,
    writer: &mut W,
)
    ensures { Keeps (W.contents writer.old) (W.contents writer.new) }
{
    if shared.flushes.are_asked(*progress) {
        flush_for(rt, &shared.flushes, progress, writer);
    }
}

// Flushes the writer for who asked for it, if the lines before that are written.
#[cold]
#[inline(never)]
fn flush_for<W: Write, R: Wait>(rt: &R, flushes: &Flushes, progress: &mut Progress, writer: &mut W)
    ensures { Keeps (W.contents writer.old) (W.contents writer.new) }
{
    if let Some(asked) = flushes.due(rt, *progress) {
        let fault = writer.flush().err().map(|fault| fault.kind());
        progress.fault = progress.fault.or(fault);
        progress.flushes = asked;
        flushes.announce(rt, *progress, false);
        progress.fault = None;
    }
}

// Makes one write of the line in hand. Counts the line if it is given up.
fn write<W: LineSink>(core: &mut WorkerCore, writer: &mut W, given_up: &mut u64)
    requires { is_writing core.old ≡ true }
    ensures wrote { WritesOnce W.contents W.writes writer.old writer.new core.old core.new }
    ensures counted { given_up.new ≡ (if is_waiting core.new then saturating_next given_up.old else given_up.old) }
{
    core.write(writer);
    if let Want::Take { waits: true } = core.want() {
        *given_up = given_up.saturating_add(1);
    }
}

/// Does what the worker's core wants until it has ended, and then wakes the guard. Beside the result of the shares
/// it returns how many lines were given up, at most `u64::MAX`.
#[tactic(auto, using(crate::proofs::Holding::holding_starts, crate::proofs::Holding::may_take_more, crate::proofs::Holding::holding_flushed, crate::proofs::Holding::holding_ends))]
pub(super) fn serve<B: Books, W: Write, R: Wait + Eprint>(
    rt: &R,
    shared: &Shared<B>,
    writer: &mut W,
    hand: Hand,
    pass: B::Pass,
) -> (B::Done, u64)
    requires { B.may_take pass }
    ensures { Serves B.counts_take B.counts_closing B.has_ended B.same_lines pass result.0
        (W.contents writer.old) (W.contents writer.new) result.1 }
{
    let mut hand = hand;
    // It is empty, which no contract says across the thread.
    hand.taken.clear();
    let mut pass = pass;
    let mut backoff = Backoff::new(shared.alone);
    let mut core = WorkerCore::new();
    // The number of lines given up.
    let mut given_up = 0u64;
    // How often the queue was found empty, one look after another.
    let mut looks = 0u32;
    for _ in rt.forever() {
        match core.want() {
            Want::Take { waits } => {
                flush_asked(rt, shared, &mut hand.progress, writer);
                let request = TakeRequest {
                    waits,
                    sleeps: waits && looks >= LOOKS,
                    spent: core.take_spent(),
                };
                let taken = take(rt, shared, &mut backoff, request, &mut hand, &mut pass);
                if !matches!(&taken, Taken::Empty) || looks >= LOOKS {
                    looks = 0;
                } else if waits {
                    let turns = if looks == 0 { 0 } else { EMPTY_TURNS };
                    yield_for(turns, shared.alone);
                    looks += 1;
                }
                hand.progress.passes(&taken);
                core.took(taken);
            }
            Want::Write(_) => write(&mut core, writer, &mut given_up),
            Want::Flush => flush(rt, &mut core, writer, &mut hand.progress.fault),
            Want::Ended => break,
        }
    }
    shared.flushes.announce(rt, hand.progress, true);
    shared.announce_end(rt);
    (B::done(pass), given_up)
}
