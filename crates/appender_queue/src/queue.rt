//! The bounded queue of lines. The shutdown takes a place in it like a line.
ghost use Rattle.std.specs.Prelude.{◌≡◌, [], IfOk};

mod ring;
#[cfg(test)]
mod slots;
mod store;
#[cfg(test)]
mod tests;

use crate::queue::ring::Ring;
use crate::queue::store::Store;
use std::alloc::{AllocError, Global};
use std::fmt;
use std::fmt::{Debug, Formatter};
use std::marker::Model;

/// A line that was not queued, and why. The line is returned.
#[derive(Debug, PartialEq, Eq, Drop)]
pub enum Refused {
    /// The queue is full.
    Full(Vec<u8>),
    /// The queue is closed, or has no tickets left.
    Closed(Vec<u8>),
}

/// What became of a shutdown.
#[derive(Clone, Copy, Debug, PartialEq, Eq)]
pub enum Shut {
    /// It is in the queue, after all lines accepted so far.
    Sent,
    /// One was sent before.
    Already,
    /// The queue is full.
    Full,
    /// The queue is closed.
    Closed,
}

/// The reply to a take.
#[derive(Debug, PartialEq, Eq, Drop)]
pub enum Taken {
    /// The first line, with its ticket.
    Line(u64, Vec<u8>),
    /// The shutdown. The queue is closed from now on.
    Shutdown,
    /// The queue is closed, or closes now, since it is empty and no sender is left.
    Gone,
    /// Nothing is there yet.
    Empty,
}

/// The counts of a queue. `accepted` is always `handed + queued + left`.
#[derive(Clone, Copy, Debug, PartialEq, Eq)]
pub struct Counts {
    /// Lines that were accepted.
    pub accepted: u64,
    /// Lines that the worker took.
    pub handed: u64,
    /// Lines that the worker can still take.
    pub queued: u64,
    /// Lines that were accepted after a shutdown which was taken: they will not be taken.
    pub left: u64,
    /// Offers refused in lossy mode, at most `usize::MAX`.
    pub dropped: usize,
}

// The queue's rules, over any store.
#[derive(Drop)]
struct Rules<S: Store> {
    store: S,
    accepted: u64,
    handed: u64,
    shutdown: Option<u64>,
    closed: bool,
    senders: u64,
    worker_waits: bool,
    dropped: usize,
    limit: usize,
    lossy: bool,
    // The last ticket of each sender's place.
    last_tickets: Vec<u64>,
}

impl<S: Store> Model for Rules<S> {
    ghost use Rattle.appender_queue.specs.Queue.{Queue};
    ghost use Rattle.appender_queue.specs.Inside.Rules.{AreLawfulFields, queue_of};

    ghost Value = { Queue };

    ghost view = { λ q. queue_of (record {
      stored = S.lines q.store;
      room = S.room q.store;
      accepted = q.accepted;
      handed = q.handed;
      shutdown = q.shutdown;
      closed = q.closed;
      senders = q.senders;
      worker_waits = q.worker_waits;
      dropped = q.dropped;
      limit = q.limit;
      lossy = q.lossy;
      last_tickets = q.last_tickets.items;
    }) };

    ghost invariant = { λ q. AreLawfulFields (record {
      stored = S.lines q.store;
      room = S.room q.store;
      accepted = q.accepted;
      handed = q.handed;
      shutdown = q.shutdown;
      closed = q.closed;
      senders = q.senders;
      worker_waits = q.worker_waits;
      dropped = q.dropped;
      limit = q.limit;
      lossy = q.lossy;
      last_tickets = q.last_tickets.items;
    }) };
}

impl<S: Store> Rules<S> {
    ghost use Rattle.std.specs.Prelude.{◌≤◌, max, false, replicate, vec_len};
    ghost use Rattle.appender_queue.specs.Queue.{new_queue_with, has_room, last_ticket_of, IsLawful};
    ghost use Rattle.appender_queue.specs.QueueCalls.{
      Offers,
      OffersFrom,
      Shuts,
      Takes,
      AddsSender,
      DropsSender,
      ReadsCounts,
    };

    fn over(store: S, limit: usize, lossy: bool, last_tickets: Vec<u64>) -> Rules<S>
        requires empty { S.lines store ≡ [] }
        requires room { S.room store ≡ max limit 1 }
        requires last_tickets { last_tickets.items ≡ replicate (vec_len last_tickets) 0 }
        ensures { result ≡ new_queue_with limit lossy (vec_len last_tickets) }
    {
        Rules {
            store,
            accepted: 0,
            handed: 0,
            shutdown: None,
            closed: false,
            senders: 1,
            worker_waits: false,
            dropped: 0,
            limit,
            lossy,
            last_tickets,
        }
    }

    #[inline(always)]
    fn is_roomy(&self) -> bool
        requires { self.now.closed ≡ false }
        ensures { result ≡ has_room self.now }
    {
        let shutdowns = if self.shutdown.is_some() { 1 } else { 0 };
        if self.limit == 0 {
            self.store.len() == 0 && shutdowns == 0 && self.worker_waits
        } else {
            self.store.len() < self.limit - shutdowns
        }
    }

    #[inline(always)]
    fn offer(&mut self, line: Vec<u8>) -> Result<u64, Refused>
        ensures offers { Offers self.old line result self.new }
        ensures before { IsLawful self.old }
    {
        let refused = if self.closed || self.accepted == u64::MAX {
            Refused::Closed(line)
        } else if !self.is_roomy() {
            Refused::Full(line)
        } else {
            self.store.put(line);
            self.accepted += 1;
            return Ok(self.accepted);
        };
        if self.lossy {
            self.dropped = self.dropped.saturating_add(1);
        }
        Err(refused)
    }

    #[inline(always)]
    fn offer_from(&mut self, place: usize, line: Vec<u8>) -> Result<u64, Refused>
        ensures { OffersFrom self.old place line result self.new }
    {
        let reply = self.offer(line);
        if let Ok(ticket) = &reply {
            if let Some(last) = self.last_tickets.get_mut(place) {
                *last = *ticket;
            }
        }
        reply
    }

    fn last_ticket(&self, place: usize) -> u64
        ensures last { result ≡ last_ticket_of self.now place }
        ensures given { result ≤ self.now.accepted }
    {
        self.last_tickets.get(place).copied().unwrap_or(0)
    }

    fn shut(&mut self) -> Shut
        ensures { Shuts self.old result self.new }
    {
        if self.closed {
            return Shut::Closed;
        }
        if self.shutdown.is_some() {
            return Shut::Already;
        }
        if !self.is_roomy() {
            return Shut::Full;
        }
        self.shutdown = Some(self.accepted);
        Shut::Sent
    }

    #[inline(always)]
    fn take(&mut self, waits: bool) -> Taken
        ensures { Takes self.old waits result self.new }
    {
        // A write would take the cache line from the senders, which read it.
        if self.worker_waits {
            self.worker_waits = false;
        }
        if self.closed {
            return Taken::Gone;
        }
        let before = match self.shutdown {
            None => true,
            Some(place) => self.handed < place,
        };
        if self.handed < self.accepted && before {
            let Some(line) = self.store.take_first() else {
                unreachable!()
            };
            self.handed += 1;
            return Taken::Line(self.handed, line);
        }
        if self.shutdown.is_some() {
            self.closed = true;
            return Taken::Shutdown;
        }
        if self.senders == 0 {
            self.closed = true;
            return Taken::Gone;
        }
        self.worker_waits = waits;
        Taken::Empty
    }

    fn add_sender(&mut self) -> u64
        ensures { AddsSender self.old result self.new }
    {
        self.senders = self.senders.saturating_add(1);
        self.senders
    }

    fn drop_sender(&mut self) -> u64
        ensures { DropsSender self.old result self.new }
    {
        // A saturated count is no longer known.
        if self.senders != u64::MAX {
            self.senders = self.senders.saturating_sub(1);
        }
        self.senders
    }

    fn counts(&self) -> Counts
        ensures { ReadsCounts self.now result }
    {
        let rest = self.accepted - self.handed;
        Counts {
            accepted: self.accepted,
            handed: self.handed,
            queued: if self.closed { 0 } else { rest },
            left: if self.closed { rest } else { 0 },
            dropped: self.dropped,
        }
    }
}

/// The lines between senders and a worker, with a limit. Contracts see it as a `Queue`.
///
/// In lossy mode a refused line counts as dropped; else its sender has to try again, as the documentation
/// of the crate tracing-appender says.
///
/// ```
/// use std::alloc::{AllocError, Global};
/// use tracing_appender::queue::{Counts, LineQueue};
///
/// // Of three lines a queue with room for two accepts 2 and drops 1. One is taken, and one is still queued.
/// pub fn offer_three(alloc: Global) -> Result<Counts, AllocError> {
///     let mut queue = LineQueue::new(alloc, 2, true)?;
///     for line in [b"a\n", b"b\n", b"c\n"] {
///         let _ = queue.offer(Vec::from_slice(alloc, line)?);
///     }
///     let _ = queue.take(false);
///     Ok(queue.counts())
/// }
/// ```
#[derive(Drop)]
pub struct LineQueue {
    rules: Rules<Ring>,
}

impl Model for LineQueue {
    ghost use Rattle.appender_queue.specs.Queue.{Queue};

    ghost Value = { Queue };

    ghost view = { λ q. q.rules };
}

impl LineQueue {
    ghost use Rattle.std.specs.Prelude.{◌≤◌, not, ◌&&◌};
    ghost use Rattle.appender_queue.specs.Queue.{new_queue, new_queue_with, has_room, last_ticket_of, IsLawful};
    ghost use Rattle.appender_queue.specs.QueueCalls.{
      Offers,
      OffersFrom,
      Shuts,
      Takes,
      AddsSender,
      DropsSender,
      ReadsCounts,
    };

    /// Returns an empty queue with one sender and no sender's place. All memory that it needs is
    /// allocated here: for `limit` lines, or for one if the limit is 0.
    pub fn new(alloc: Global, limit: usize, lossy: bool) -> Result<LineQueue, AllocError>
        ensures fresh { IfOk result (λ q. q ≡ new_queue limit lossy) }
        ensures lawful { IfOk result (λ q. IsLawful q) }
    {
        LineQueue::with_places(alloc, limit, lossy, 0)
    }

    /// Returns an empty queue as `new` does, with this number of senders' places, counted from 0. It
    /// keeps the last ticket of each place, whose memory is allocated here too.
    pub fn with_places(
        alloc: Global,
        limit: usize,
        lossy: bool,
        places: usize,
    ) -> Result<LineQueue, AllocError>
        ensures fresh { IfOk result (λ q. q ≡ new_queue_with limit lossy places) }
        ensures lawful { IfOk result (λ q. IsLawful q) }
    {
        let ring = Ring::with_capacity(alloc, limit.max(1))?;
        let last_tickets = vec![in alloc; 0u64; places]?;
        Ok(LineQueue {
            rules: Rules::over(ring, limit, lossy, last_tickets),
        })
    }

    /// Puts a line at the end, and returns its ticket: 1 for the first accepted line, then 2, ..
    #[inline(always)]
    pub fn offer(&mut self, line: Vec<u8>) -> Result<u64, Refused>
        ensures { Offers self.old line result self.new }
    {
        self.rules.offer(line)
    }

    /// Puts a line at the end, as `offer` does, for the sender with this place. If the line is accepted
    /// and the queue has the place, its ticket becomes the last one of the place.
    #[inline(always)]
    pub fn offer_from(&mut self, place: usize, line: Vec<u8>) -> Result<u64, Refused>
        ensures { OffersFrom self.old place line result self.new }
    {
        self.rules.offer_from(place, line)
    }

    /// Returns the ticket of the last line that was accepted from a place: 0 before the first one, and
    /// if the queue doesn't have the place.
    pub fn last_ticket(&self, place: usize) -> u64
        ensures last { result ≡ last_ticket_of self.now place }
        ensures given { result ≤ self.now.accepted }
    {
        self.rules.last_ticket(place)
    }

    /// Sends the shutdown: lines that are accepted later are never handed.
    pub fn shut(&mut self) -> Shut
        ensures { Shuts self.old result self.new }
    {
        self.rules.shut()
    }

    /// Takes the first line or the shutdown, for the worker. `waits` says whether the worker will wait if
    /// nothing is there: with a limit of 0 a line is accepted only then.
    #[inline(always)]
    pub fn take(&mut self, waits: bool) -> Taken
        ensures { Takes self.old waits result self.new }
    {
        self.rules.take(waits)
    }

    /// Counts one sender more, and returns how many there are. A count of `u64::MAX` stays.
    pub fn add_sender(&mut self) -> u64
        ensures { AddsSender self.old result self.new }
    {
        self.rules.add_sender()
    }

    /// Counts one sender less, and returns how many there are. A count of 0 or of `u64::MAX` stays.
    pub fn drop_sender(&mut self) -> u64
        ensures { DropsSender self.old result self.new }
    {
        self.rules.drop_sender()
    }

    /// Returns whether there is no place for a line or for the shutdown. A closed queue isn't full.
    #[inline(always)]
    pub fn is_full(&self) -> bool
        ensures { result ≡ (not self.now.closed && not (has_room self.now)) }
    {
        !self.rules.closed && !self.rules.is_roomy()
    }

    /// Returns how many lines were accepted, were handed, are queued, are left and were dropped.
    #[inline(always)]
    pub fn counts(&self) -> Counts
        ensures { ReadsCounts self.now result }
    {
        self.rules.counts()
    }
}

impl Debug for LineQueue {
    fn fmt<W: fmt::Write>(&self, f: &mut Formatter<W>) -> fmt::Result {
        f.debug_struct("LineQueue")
            .field("counts", &self.counts())
            .finish_non_exhaustive()
    }
}
