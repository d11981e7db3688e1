//! The state that the lock of a queue protects, and which threads are woken after the lock is released.
ghost use Rattle.std.specs.Prelude.{
  ◌≡◌,
  ◌<◌,
  ◌≤◌,
  ℕ,
  Bool,
  length,
  true,
  false,
  not,
  ◌&&◌,
  ◌||◌,
  ◌-◌,
  if◌then◌else◌,
  is_some,
  IfOk,
  IfSome,
};
ghost use Rattle.appender_queue.specs.Queue.{Queue, IsLawful, has_room, last_ticket_of};
ghost use Rattle.appender_queue.specs.QueueCalls.{Takes};
ghost use Rattle.appender_queue.specs.QueueChanges.{OfferFromChanges};
ghost use Rattle.appender_queue.specs.QueueReplies.{offer_reply};
ghost use Rattle.appender_channel.specs.Offers.{after_offer_at};
ghost use Rattle.appender_channel.specs.TakeCases.{IfLine, IfEnd, IfEmpty};
ghost use Rattle.appender_channel.specs.Tally.{tally_of};

use crate::books::{Books, Done, FourBooks, LineBooks, LineDone};
use crate::pace::{MOST_BYTES, MOST_SPARES, Pace};
use appender_queue::laws::{
    offers_change_little, offers_from_change_little, other_calls_leave_last_tickets,
    shutdowns_change_little, takes_change_little,
};
use appender_queue::queue::{Counts, LineQueue, Refused, Shut, Taken};
use line_history::halves::{QueueHistories, SenderHistory};
use std::alloc::{AllocError, Global};
use std::marker::Model;
use std::snapshot::Snapshot;
use std::sync::ledger::{Ledger, Share};

/// Which threads to wake. It can't be dropped: the thread that releases the lock has to use it.
#[must_use]
pub struct Wakeups {
    /// Whether to wake the worker.
    pub worker: bool,
    /// Whether to wake one thread that waits for room. That thread wakes the next one if there is more room.
    pub sender: bool,
}

/// How a worker takes.
#[derive(Drop)]
pub struct TakeRequest {
    /// Whether it waits for a line: with a limit of 0 there is room then.
    pub waits: bool,
    /// Whether it sleeps if nothing is there.
    pub sleeps: bool,
    /// The buffer of its last line.
    pub spent: Option<Vec<u8>>,
}

/// A thread that is counted among those that wait for room. It can't be dropped: the thread's next
/// `offer` or `shut` takes it, and counts the thread no longer.
#[must_use]
pub struct Waiter {
    // Only `begins_waiting` makes one.
    _counted: (),
}

/// One of the senders that a queue counts. It can't be dropped: `drop_sender` takes it, and counts the
/// sender no longer.
#[must_use]
pub struct Counted {
    // Only `add_sender` makes one.
    _counted: (),
}

/// The queue and its books, which threads sleep, and the buffers that may be used again.
#[derive(Drop)]
pub struct State<B: Books> {
    // Whether the worker sleeps and was not woken.
    asleep: bool,
    // Whether one of the threads that wait for room was woken, and has not taken the lock since.
    woken: bool,
    // How many threads wait for room.
    waiting: u32,
    queue: LineQueue,
    spares: Vec<Vec<u8>>,
    books: B,
}

// Contracts see who sleeps or waits too. With the queue only, a step that wakes nobody would be proved.
impl<B: Books> Model for State<B> {
    ghost use Rattle.std.specs.Prelude.{◌≡◌, ◌<◌, true, false, not, ◌&&◌};
    ghost use Rattle.appender_channel.specs.EmptyQueue.{HasNothingToTake};
    ghost use Rattle.appender_channel.specs.Tally.{tally_of};
    ghost use Rattle.appender_channel.specs.Locked.{LockedState};
    ghost use Rattle.appender_queue.specs.Queue.{IsLawful, has_room};

    ghost Value = { LockedState };

    ghost view = { λ s. record {
      queue = s.queue;
      asleep = s.asleep;
      woken = s.woken;
      waiting = s.waiting;
    } };

    // The books agree with the queue. If threads wait and none was woken, the queue is open and has no
    // room. The worker sleeps only if a take would find nothing.
    ghost invariant = { λ s. IsLawful s.queue × B.agree s.books (tally_of s.queue)
        × (0 < s.waiting → s.woken ≡ false → (not s.queue.closed && not (has_room s.queue)) ≡ true)
        × (s.asleep ≡ true → HasNothingToTake s.queue) };
}

// Returns which threads to wake after a change of the queue. None is woken twice. A closed queue isn't full, so after a
// closing each thread that waited for room wakes the next one.
#[inline(always)]
fn wake_up(
    asleep: &mut bool,
    woken: &mut bool,
    waiting: u32,
    queue: &LineQueue,
    worker: bool,
) -> Wakeups
    ensures work { asleep.new ≡ (asleep.old && not worker) }
    ensures worker { result.worker ≡ (asleep.old && worker) }
    ensures room { 0 < waiting → woken.new ≡ false
        → (not queue.now.closed && not (has_room queue.now)) ≡ true }
    ensures sender { woken.new ≡ (woken.old || result.sender) }
    ensures waiter { result.sender ≡ true → (woken.old ≡ false) × (0 < waiting) }
{
    let wakes = *asleep && worker;
    *asleep = *asleep && !worker;
    let sender = waiting != 0 && !*woken && !queue.is_full();
    *woken = *woken || sender;
    Wakeups {
        worker: wakes,
        sender,
    }
}

// Counts a thread that has waited no longer, and uses its wake-up.
#[inline(always)]
fn end_waiting(waited: Option<Waiter>, woken: &mut bool, waiting: &mut u32)
    ensures woken { woken.new ≡ (woken.old && not (is_some waited)) }
    ensures waiting { waiting.new ≡ (if is_some waited then waiting.old - 1 else waiting.old) }
{
    match waited {
        Some(Waiter { _counted: () }) => {
            *waiting = waiting.saturating_sub(1);
            *woken = false;
        }
        None => {}
    }
}

// Offers a line, from the sender's place if it has one.
#[inline(always)]
fn offer_at(queue: &mut LineQueue, place: Option<usize>, line: Vec<u8>) -> Result<u64, Refused>
    requires { IfSome place (λ p. p < length queue.old.last_tickets) }
    ensures reply { result ≡ offer_reply queue.old line }
    ensures after { queue.new ≡ after_offer_at queue.old place line.items }
    ensures lawful { IsLawful queue.new }
    ensures rises { IfOk result (λ ticket. IfSome place (λ p. last_ticket_of queue.old p < ticket)) }
    ensures sets { IfOk result (λ ticket. IfSome place (λ p. last_ticket_of queue.new p ≡ ticket)) }
    ensures leaves { OfferFromChanges queue.old queue.new line.items result }
{
    offers_change_little();
    offers_from_change_little();
    match place {
        Some(place) => queue.offer_from(place, line),
        None => queue.offer(line),
    }
}

// Counts a line that was handed to the worker, or the closing of the queue.
#[tactic(auto, using(crate::proofs::Takes::take_is_counted))]
#[inline(always)]
fn count_take<B: Books>(books: &mut B, pass: &mut B::Pass, taken: &Taken)
    requires { B.may_take pass.old }
    ensures agree { (old new : Queue) (waits : Bool) → IsLawful old → Takes old waits taken.now new
        → B.agree books.old (tally_of old) → B.agree books.new (tally_of new) }
    ensures line { IfLine taken.now (λ line. (B.counts_take pass.old line pass.new) × (B.may_take pass.new)) }
    ensures ended { (old : Queue) → B.agree books.old (tally_of old)
        → IfEnd taken.now ((B.has_ended pass.new) × (B.counts_closing pass.old pass.new)) }
    ensures empty { IfEmpty taken.now (pass.new ≡ pass.old) }
{
    match taken {
        Taken::Line(_, line) => books.hand(pass, line),
        Taken::Shutdown | Taken::Gone => books.close(pass),
        Taken::Empty => {}
    }
}

impl<B: Books> State<B> {
    ghost use Rattle.std.specs.Prelude.{◌+◌, ◌^◌, ◌≢◌, min, IsSome, IsNone, OnOk, OnErr, IfOk};
    ghost use Rattle.appender_channel.specs.Locked.{after_waiting, DecidesSenderWakeup, DecidesWakeups};
    ghost use Rattle.appender_channel.specs.Offers.{OffersWithPace};
    ghost use Rattle.appender_channel.specs.Tally.{new_tally};
    ghost use Rattle.appender_queue.specs.Queue.{new_queue_with, has_room, left_of};
    ghost use Rattle.appender_queue.specs.QueueCalls.{Shuts, AddsSender, DropsSender};

    /// Returns an empty queue with no sender and this number of senders' places, beside new books.
    pub fn new(
        alloc: Global,
        limit: usize,
        lossy: bool,
        places: usize,
        books: B,
    ) -> Result<State<B>, AllocError>
        requires { B.agree books (new_tally places) }
        ensures { IfOk result (λ s. s ≡ record {
          queue = record (new_queue_with limit lossy places) { senders = 0 };
          asleep = false;
          woken = false;
          waiting = 0;
        }) }
    {
        let mut empty = LineQueue::with_places(alloc, limit, lossy, places)?;
        // A new queue counts one sender, and here `add_sender` counts all of them.
        empty.drop_sender();
        let spares = Vec::with_capacity(alloc, limit.min(MOST_SPARES))?;
        Ok(State {
            asleep: false,
            woken: false,
            waiting: 0,
            spares,
            queue: empty,
            books,
        })
    }

    /// Offers a line from the sender's place, if it has one. A thread that has `waited`, whatever woke it,
    /// is counted no longer. If the line is queued, its pace is beside the ticket.
    #[inline(always)]
    pub fn offer(
        &mut self,
        line: Vec<u8>,
        waited: Option<Waiter>,
        mine: &mut B::Mine,
    ) -> (Result<(u64, Pace), Refused>, Wakeups)
        requires { B.may_accept mine.old }
        ensures offer { OffersWithPace self.old.queue (B.place_of mine.old) line result.0 self.new.queue }
        ensures ticket { IfOk result.0 (λ reply. reply.0 ≡ self.old.queue.accepted + 1) }
        ensures rises { IfOk result.0 (λ reply. IfSome (B.place_of mine.old)
            (λ place. last_ticket_of self.old.queue place < reply.0)) }
        ensures sets { IfOk result.0 (λ reply. IfSome (B.place_of mine.old)
            (λ place. last_ticket_of self.new.queue place ≡ reply.0)) }
        ensures wakes { DecidesWakeups (after_waiting (is_some waited) self.old) result.1.worker result.1.sender self.new }
        ensures counted { OnOk result.0 (B.counts_line mine.old line.items mine.new) }
        ensures refused { OnErr result.0 (mine.new ≡ mine.old) }
    {
        let State {
            asleep,
            woken,
            waiting,
            queue,
            books,
            ..
        } = self;
        end_waiting(waited, woken, waiting);
        let copy = Snapshot::of(&line);
        let reply = offer_at(queue, books.place(mine), line);
        let wakeups = wake_up(asleep, woken, *waiting, queue, reply.is_ok());
        match reply {
            Ok(ticket) => {
                books.accept(mine, &copy);
                (Ok((ticket, Pace::after(ticket, queue))), wakeups)
            }
            Err(refused) => (Err(refused), wakeups),
        }
    }

    /// Returns the buffer of a written line, if one is kept.
    #[inline(always)]
    pub fn take_spare(&mut self) -> Option<Vec<u8>>
        ensures { self.new ≡ self.old }
    {
        self.spares.pop()
    }

    /// Returns whether the queue is open and has no room.
    #[inline(always)]
    pub fn is_full(&self) -> bool
        ensures { result ≡ (not self.now.queue.closed && not (has_room self.now.queue)) }
    {
        self.queue.is_full()
    }

    /// The number of lines that a lossy queue refused.
    pub fn dropped(&self) -> usize
        ensures { result ≡ self.now.queue.dropped }
    {
        self.queue.counts().dropped
    }

    /// The number of accepted lines, which is the last of their tickets.
    pub fn accepted(&self) -> u64
        ensures { result ≡ self.now.queue.accepted }
    {
        self.queue.counts().accepted
    }

    /// The number of accepted lines that were not taken before the queue was closed.
    pub fn left(&self) -> u64
        ensures { result ≡ left_of self.now.queue }
    {
        self.queue.counts().left
    }

    /// Counts a thread that found no room among those that wait, if it has to wait: if the queue is open
    /// and full. The count stays at `u32::MAX`, once it is reached.
    pub fn begins_waiting(&mut self) -> Option<Waiter>
        ensures full { is_some result ≡ (not self.old.queue.closed && not (has_room self.old.queue)) }
        ensures waits { IsSome result → self.new ≡ record self.old { waiting = min (self.old.waiting + 1) (2 ^ 32 - 1) } }
        ensures stays { IsNone result → self.new ≡ self.old }
    {
        if !self.queue.is_full() {
            return None;
        }
        self.waiting = self.waiting.saturating_add(1);
        Some(Waiter { _counted: () })
    }

    /// Whether a guard that waits has to go on. Its wake-up is used.
    pub fn keeps_waiting(&mut self) -> bool
        ensures full { result ≡ (not self.old.queue.closed && not (has_room self.old.queue)) }
        ensures same { self.new ≡ record self.old { woken = self.new.woken } }
        ensures waits { result ≡ true → self.new.woken ≡ false }
        ensures stays { result ≡ false → self.new ≡ self.old }
    {
        if !self.queue.is_full() {
            return false;
        }
        self.woken = false;
        true
    }

    /// Tries to send the shutdown, for a guard that may have `waited`.
    pub fn shut(&mut self, waited: Option<Waiter>, mine: &mut B::Shutdowns) -> (Shut, Wakeups)
        requires { B.may_shut mine.old }
        ensures shut { Shuts self.old.queue result.0 self.new.queue }
        ensures wakes { DecidesWakeups (after_waiting (is_some waited) self.old) result.1.worker result.1.sender self.new }
        ensures sent { result.0 ≡ Shut.Sent → B.counts_shutdown mine.old mine.new }
        ensures not_sent { result.0 ≢ Shut.Sent → mine.new ≡ mine.old }
    {
        let State {
            asleep,
            woken,
            waiting,
            queue,
            books,
            ..
        } = self;
        end_waiting(waited, woken, waiting);
        shutdowns_change_little();
        let reply = queue.shut();
        let wakeups = wake_up(asleep, woken, *waiting, queue, true);
        match reply {
            Shut::Sent => {
                books.shut(mine);
                (reply, wakeups)
            }
            Shut::Already | Shut::Full | Shut::Closed => (reply, wakeups),
        }
    }

    /// Takes for the worker. The spent buffer is kept for a sender, or is returned if enough are kept.
    #[inline(always)]
    pub fn take(
        &mut self,
        request: TakeRequest,
        pass: &mut B::Pass,
    ) -> (Taken, Option<Vec<u8>>, Wakeups)
        requires { B.may_take pass.old }
        ensures take { Takes self.old.queue request.waits result.0 self.new.queue }
        ensures worker { result.2.worker ≡ false }
        ensures sender { DecidesSenderWakeup self.old result.2.sender self.new }
        ensures line { IfLine result.0 (λ line. (B.counts_take pass.old line pass.new) × (B.may_take pass.new)
            × (self.new.asleep ≡ false)) }
        ensures ended { IfEnd result.0 ((B.has_ended pass.new) × (B.counts_closing pass.old pass.new)
            × (self.new.asleep ≡ false)) }
        ensures empty { IfEmpty result.0 ((pass.new ≡ pass.old) × (B.may_take pass.new)
            × (self.new.asleep ≡ request.sleeps)) }
    {
        let State {
            asleep,
            woken,
            waiting,
            spares,
            queue,
            books,
        } = self;
        let TakeRequest {
            waits,
            sleeps,
            spent,
        } = request;
        let surplus = keep(spares, spent);
        takes_change_little();
        other_calls_leave_last_tickets();
        let taken = queue.take(waits);
        count_take(books, pass, &taken);
        *asleep = false;
        let wakeups = wake_up(asleep, woken, *waiting, queue, false);
        if let Taken::Empty = &taken {
            *asleep = sleeps;
        }
        (taken, surplus, wakeups)
    }

    /// Notes that the worker is awake.
    pub fn set_awake(&mut self)
        ensures { self.new ≡ record self.old { asleep = false } }
    {
        self.asleep = false;
    }

    /// Counts one sender more, until `drop_sender` takes the result.
    pub fn add_sender(&mut self) -> Counted
        ensures add { AddsSender self.old.queue self.new.queue.senders self.new.queue }
        ensures same { self.new ≡ record self.old { queue = self.new.queue } }
    {
        self.queue.add_sender();
        Counted { _counted: () }
    }

    /// Counts one sender less. After the last one, the worker ends.
    pub fn drop_sender(&mut self, counted: Counted) -> Wakeups
        ensures drop { DropsSender self.old.queue self.new.queue.senders self.new.queue }
        ensures wakes { DecidesWakeups self.old result.worker result.sender self.new }
    {
        let Counted { _counted: () } = counted;
        let State {
            asleep,
            woken,
            waiting,
            queue,
            ..
        } = self;
        queue.drop_sender();
        wake_up(asleep, woken, *waiting, queue, true)
    }
}

impl<A: Ledger, H: Ledger, S: Ledger, C: Ledger> State<FourBooks<A, H, S, C>> {
    ghost use Rattle.std.specs.Prelude.{◌+◌};

    /// Returns the counts of the queue, which the worker has closed, and the worker's share of the book of
    /// handed lines. That share has all parts, so its amount is the number of lines that the worker took.
    pub fn final_counts(
        &mut self,
        accepted: Share<A>,
        shutdowns: Share<S>,
        done: Done<H, C>,
    ) -> (Counts, Share<H>)
        requires { (accepted.parts ≡ A.parts) × (H.parts ≡ 1) × (shutdowns.parts ≡ S.parts) × (C.parts ≡ 1) }
        ensures accepted { result.0.accepted ≡ accepted.amount }
        ensures handed { result.0.handed ≡ done.handed.amount }
        ensures book { (result.1.parts ≡ H.parts) × (result.0.handed ≡ result.1.amount) }
        ensures adds_up { result.0.accepted ≡ result.0.handed + result.0.left }
        ensures none_left { shutdowns.amount ≡ 0 → result.0.left ≡ 0 }
        ensures same { self.new ≡ self.old }
    {
        let Done {
            mut handed,
            mut closings,
        } = done;
        let (mut accepted, mut shutdowns) = (accepted, shutdowns);
        let State { queue, books, .. } = self;
        books.accepted.audit(&mut accepted);
        books.handed.audit(&mut handed);
        books.shutdowns.audit(&mut shutdowns);
        books.closings.audit(&mut closings);
        (queue.counts(), handed)
    }
}

impl<S: Ledger, C: Ledger, L: QueueHistories> State<LineBooks<S, C, L>> {
    ghost use Rattle.std.specs.Prelude.{map, vec_len};
    ghost use Rattle.line_history.specs.Interleaving.{IsInterleaving};

    /// Returns the counts of the queue, which the worker has closed, and to which no shutdown was sent. The worker took all
    /// lines that its senders sent, in an interleaving.
    pub fn final_lines(
        &mut self,
        senders: Vec<SenderHistory<L>>,
        shutdowns: Share<S>,
        done: LineDone<C, L>,
    ) -> Counts
        requires senders { vec_len senders ≡ L.senders }
        requires parts { (shutdowns.parts ≡ S.parts) × (C.parts ≡ 1) }
        requires none_sent { shutdowns.amount ≡ 0 }
        ensures whole { IsInterleaving (map (λ s. s.lines) senders.items) done.taker }
        ensures accepted { result.accepted ≡ length done.taker }
        ensures handed { result.handed ≡ length done.taker }
        ensures none_left { result.left ≡ 0 }
        ensures same { self.new ≡ self.old }
    {
        let LineDone {
            mut taker,
            mut closings,
        } = done;
        let State { queue, books, .. } = self;
        let mut shutdowns = shutdowns;
        books.shutdowns.audit(&mut shutdowns);
        books.closings.audit(&mut closings);
        let halves = &mut books.halves;
        halves.compare_taker(&mut taker);
        halves.compare_all(senders);
        queue.counts()
    }
}

// Keeps a buffer for a sender, or returns it if enough are kept.
fn keep(spares: &mut Vec<Vec<u8>>, spent: Option<Vec<u8>>) -> Option<Vec<u8>> {
    match spent {
        Some(buffer) if spares.len() < spares.capacity() && buffer.capacity() <= MOST_BYTES => {
            spares.push_reserved(buffer);
            None
        }
        other => other,
    }
}
