// What senders, guard and worker share.
ghost use Rattle.std.specs.Prelude.{◌≡◌, ◌≢◌, ◌+◌, length, map, vec_len};
ghost use Rattle.line_history.specs.Interleaving.{IsInterleaving};
ghost use Rattle.appender_channel.specs.Tally.{new_tally};

use super::flushes::Flushes;
use appender_channel::books::{Books, Done, FourBooks, LineBooks, LineDone};
use appender_channel::state::{Counted, State, Wakeups};
use appender_queue::queue::{Counts, Shut};
use appender_runtime::backoff::{Backoff, SharedBackoff, is_alone};
use crossbeam_utils::CachePadded;
use line_history::halves::{QueueHistories, SenderHistory};
use std::alloc::{AllocError, Global};
use std::sync::atomic::AtomicUsize;
use std::sync::ledger::{Ledger, Share};
use std::sync::{Arc, Condvar, Mutex, MutexGuard, Wait};
use std::thread::Threads;
use std::time::{Clock, Duration};

#[derive(Drop)]
pub(super) struct Shared<B: Books> {
    // Alone on its lines of the processor's cache.
    state: CachePadded<Mutex<State<B>>>,
    // The worker waits for lines here.
    pub(super) lines: Condvar,
    // Senders and the guard wait for room here.
    pub(super) room: Condvar,
    // Whether the worker has ended, and where the guard waits for that.
    ended: Mutex<bool>,
    end: Condvar,
    // A copy of the count of dropped lines, stored while the lock is held.
    pub(super) dropped: AtomicUsize,
    // Whether the process has just one processor.
    pub(super) alone: bool,
    // Of clones, each of which mostly sends one line.
    clones: SharedBackoff,
    pub(super) flushes: Flushes,
}

impl<B: Books> Shared<B> {
    /// Returns an empty queue with no sender and this number of senders' places, beside new books.
    pub(super) fn new(
        rt: &impl Threads,
        alloc: Global,
        limit: usize,
        lossy: bool,
        places: usize,
        books: B,
    ) -> Result<Arc<Shared<B>, Global>, AllocError>
        requires { B.agree books (new_tally places) }
    {
        let alone = is_alone(rt);
        let shared = Shared {
            state: CachePadded::new(Mutex::new(State::new(alloc, limit, lossy, places, books)?)),
            lines: Condvar::new(),
            room: Condvar::new(),
            ended: Mutex::new(false),
            end: Condvar::new(),
            dropped: AtomicUsize::new(0),
            alone,
            clones: SharedBackoff::new(alone),
            flushes: Flushes::new(),
        };
        Ok(Arc::new(alloc, shared)?)
    }

    /// Takes the lock: tries for a while before it sleeps.
    #[inline(always)]
    pub(super) fn lock<R: Wait>(&self, rt: &R, backoff: &mut Backoff) -> MutexGuard<'_, State<B>> {
        appender_runtime::backoff::lock(rt, &self.state, backoff)
    }

    /// Takes the lock as `lock` does, for a sender without a back-off of its own.
    #[inline(always)]
    pub(super) fn lock_once<R: Wait>(&self, rt: &R) -> MutexGuard<'_, State<B>> {
        appender_runtime::backoff::lock_once(rt, &self.state, &self.clones)
    }

    /// Wakes whom a step under the lock says. The lock was released, or will be by a wait.
    #[inline(always)]
    pub(super) fn wake(&self, wakeups: Wakeups) {
        let Wakeups { worker, sender } = wakeups;
        if worker || sender {
            self.notify(worker, sender);
        }
    }

    #[cold]
    #[inline(never)]
    fn notify(&self, worker: bool, sender: bool) {
        if worker {
            self.lines.notify_one();
        }
        if sender {
            self.room.notify_one();
        }
    }

    /// Counts one sender more.
    pub(super) fn add_sender<R: Wait>(&self, rt: &R) -> Counted {
        self.lock(rt, &mut Backoff::NEW).add_sender()
    }

    /// Counts one sender less.
    pub(super) fn drop_sender<R: Wait>(&self, rt: &R, counted: Counted) {
        let mut state = self.lock(rt, &mut Backoff::NEW);
        let wakeups = state.drop_sender(counted);
        drop(state);
        self.wake(wakeups);
    }

    /// Tries once to send the shutdown.
    pub(super) fn shut<R: Wait>(&self, rt: &R, mine: &mut B::Shutdowns) -> Shut
        requires { B.may_shut mine.old }
        ensures sent { result ≡ Shut.Sent → B.counts_shutdown mine.old mine.new }
        ensures not_sent { result ≢ Shut.Sent → mine.new ≡ mine.old }
    {
        let mut state = self.lock(rt, &mut Backoff::NEW);
        let (reply, wakeups) = state.shut(None, mine);
        drop(state);
        self.wake(wakeups);
        reply
    }

    /// Asks the worker for a flush after all lines that are accepted by now. Returns its number, and the last of their tickets.
    pub(super) fn ask_flush<R: Wait>(&self, rt: &R) -> (u64, u64) {
        let state = self.lock(rt, &mut Backoff::NEW);
        let ticket = state.accepted();
        // Under the lock, so that a worker that has seen none to make sleeps before it is woken.
        let number = self.flushes.ask(rt, ticket);
        drop(state);
        self.notify(true, false);
        (number, ticket)
    }

    /// Wakes the guard, since the worker has ended.
    pub(super) fn announce_end<R: Wait>(&self, rt: &R) {
        *self.ended.lock(rt) = true;
        self.end.notify_all();
    }

    /// Waits for the worker's end, at most this long. Returns whether it has ended.
    pub(super) fn ends_within<R: Wait + Clock>(&self, rt: &R, most: Duration) -> bool {
        let (ended, result) = self
            .end
            .wait_timeout_while(rt, self.ended.lock(rt), most, |ended| !*ended);
        drop(ended);
        !result.timed_out()
    }
}

impl<A: Ledger, H: Ledger, S: Ledger, C: Ledger> Shared<FourBooks<A, H, S, C>> {
    /// Returns the counts of the queue, and the worker's share of the book of handed lines: all its parts.
    pub(super) fn final_counts<R: Wait>(
        &self,
        rt: &R,
        accepted: Share<A>,
        shutdowns: Share<S>,
        done: Done<H, C>,
    ) -> (Counts, Share<H>)
        requires { (accepted.parts ≡ A.parts) × (H.parts ≡ 1) × (shutdowns.parts ≡ S.parts) × (C.parts ≡ 1) }
        ensures accepted { result.0.accepted ≡ accepted.amount }
        ensures book { (result.1.parts ≡ H.parts) × (result.0.handed ≡ result.1.amount) }
        ensures adds_up { result.0.accepted ≡ result.0.handed + result.0.left }
        ensures none_left { shutdowns.amount ≡ 0 → result.0.left ≡ 0 }
    {
        let mut state = self.lock(rt, &mut Backoff::NEW);
        state.final_counts(accepted, shutdowns, done)
    }
}

impl<S: Ledger, C: Ledger, L: QueueHistories> Shared<LineBooks<S, C, L>> {
    /// Returns the counts of the queue, which the worker has closed, and to which no shutdown was sent. The worker took all
    /// lines that its senders sent, in an interleaving.
    pub(super) fn final_lines<R: Wait>(
        &self,
        rt: &R,
        senders: Vec<SenderHistory<L>>,
        shutdowns: Share<S>,
        done: LineDone<C, L>,
    ) -> Counts
        requires senders { vec_len senders ≡ L.senders }
        requires parts { (shutdowns.parts ≡ S.parts) × (C.parts ≡ 1) }
        requires none_sent { shutdowns.amount ≡ 0 }
        ensures whole { IsInterleaving (map (λ s. s.lines) senders.items) done.taker }
        ensures accepted { result.accepted ≡ length done.taker }
        ensures handed { result.handed ≡ length done.taker }
        ensures none_left { result.left ≡ 0 }
    {
        let mut state = self.lock(rt, &mut Backoff::NEW);
        state.final_lines(senders, shutdowns, done)
    }
}
