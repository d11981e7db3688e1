// Plays stories: what senders write, what becomes of their guard, and what is written then. A proof over a stage is shorter than
// one over all that it holds.
use crate::expect::{expect_eq, put};
use crate::gate::Seen;
use crate::threads::{Tickets, count, count_in_order, join, start};
use appender_non_blocking::non_blocking::{Closing, Host, NonBlockingBuilder};
use std::alloc::{AllocError, Global};
use std::fmt::Debug;
use std::io;
use std::io::ErrorKind;
use std::process::Abort;
use std::sync::Arc;

/// What the senders of a story do next, or what then is so. The lines are those of a gate.
#[derive(Clone, Copy)]
pub(crate) enum Step {
    /// The next sender in turn writes a line, which is queued.
    IsQueued(&'static [u8]),
    /// It writes a line, which is dropped.
    IsDropped(&'static [u8]),
    /// It writes a line, and gets an error of the kind `Other`.
    IsRefused(&'static [u8]),
    /// This number of short lines are queued.
    Fills(usize),
    /// This number of short lines are dropped.
    Overfills(usize),
    /// A line of this length is queued and written whole, and its buffer is kept for the next one.
    WritesLong(usize),
    /// Each sender is moved to a thread that writes this number of lines.
    WriteInThreads(usize),
    /// The last sender is dropped.
    DropsSender,
    /// The writer reaches the line that the gate holds.
    IsHeld,
    Opens,
    /// This number of lines were written.
    Come(usize),
    /// This number of flushes followed the last line.
    FlushesCome(usize),
    /// The worker has ended.
    HasEnded,
}

/// What becomes of the guard.
#[derive(Clone, Copy)]
pub(crate) enum GuardEnd {
    /// It is kept until all lines are queued, of which none is left. Then a plain one is closed, and a counted one settled.
    Stays,
    /// A plain one is closed, with this result. A counted one is shut, which doesn't wait: it finds the queue full or not.
    Closes(Closing),
    /// It is dropped, and does what a closing with this result does.
    Drops(Closing),
}

/// What was written in the end.
#[derive(Clone, Copy)]
pub(crate) enum Came {
    /// These lines, with a bar after each.
    Lines(&'static [u8]),
    /// This number of lines.
    Count(usize),
}

/// The queue of a story.
#[derive(Clone, Copy)]
pub(crate) enum Queue {
    Default,
    /// A default one whose worker has this name.
    Named(&'static str),
    /// A lossy one of this number of lines.
    Lossy(usize),
    /// One of this number of lines whose senders wait.
    Waiting(usize),
}

pub(crate) struct Story {
    pub(crate) title: &'static str,
    pub(crate) queue: Queue,
    pub(crate) senders: u32,
    /// What is done while the guard is kept.
    pub(crate) steps: &'static [Step],
    pub(crate) guard: GuardEnd,
    /// What is done after that.
    pub(crate) later: &'static [Step],
    pub(crate) came: Came,
}

impl Queue {
    pub(crate) fn builder(self, alloc: Global) -> Result<NonBlockingBuilder, AllocError> {
        let builder = NonBlockingBuilder::default();
        match self {
            Queue::Default => Ok(builder),
            Queue::Named(name) => builder.thread_name(alloc, name),
            Queue::Lossy(limit) => Ok(builder.lossy(true).buffered_lines_limit(limit)),
            Queue::Waiting(limit) => Ok(builder.lossy(false).buffered_lines_limit(limit)),
        }
    }
}

/// A sender of either kind. A proof over it is shorter than one over the five parameters of a `CountedSender`.
pub(crate) trait AnySender: Send + Drop + 'static {
    /// Writes a line, and returns whether it was queued. If not, it was dropped.
    fn send(&mut self, line: &[u8]) -> io::Result<bool>;

    /// Returns the ticket of the last line that it queued, or 0 before the first one. A plain sender has no tickets.
    fn ticket(&self) -> Option<u64>;
}

/// What is seen while a story is played.
#[derive(Drop)]
pub(crate) struct Stage<R: Host> {
    pub(crate) rt: R,
    pub(crate) title: &'static str,
    came: Came,
    pub(crate) seen: Arc<Seen, Global>,
    turn: usize,
    /// How many lines all senders queued, and how many were dropped.
    pub(crate) queued: u64,
    pub(crate) dropped: usize,
    /// Whether the worker was seen to have ended.
    pub(crate) has_ended: bool,
    // How many lines of the threads' were queued, and the tickets of each thread.
    by_threads: usize,
    told: Vec<Tickets>,
}

// A line of this length, which has each byte if it is long.
fn line_of(alloc: Global, length: usize) -> Result<Vec<u8>, AllocError> {
    let mut line = Vec::with_capacity(alloc, length)?;
    for at in 0..length {
        line.push((at % 257 % 256) as u8).map_err(AllocError::from)?;
    }
    Ok(line)
}

impl<R: Host + Abort> Stage<R> {
    pub(crate) fn new(rt: R, story: &Story, seen: Arc<Seen, Global>) -> Stage<R> {
        Stage {
            rt,
            title: story.title,
            came: story.came,
            seen,
            turn: 0,
            queued: 0,
            dropped: 0,
            has_ended: false,
            by_threads: 0,
            told: Vec::new(rt.alloc()),
        }
    }

    /// Ends the test, and prints the story's title, if a value isn't the expected one.
    pub(crate) fn expect<T: Copy + PartialEq + Debug>(&self, got: T, wanted: T) {
        expect_eq(&self.rt, self.title, got, wanted);
    }

    pub(crate) fn plays<T: AnySender>(&mut self, senders: &mut Vec<T>, steps: &[Step]) {
        for step in steps {
            self.does(senders, *step);
        }
    }

    fn does<T: AnySender>(&mut self, senders: &mut Vec<T>, step: Step) {
        match step {
            Step::IsQueued(line) => self.sends(senders, line, Ok(true)),
            Step::IsDropped(line) => self.sends(senders, line, Ok(false)),
            Step::IsRefused(line) => self.sends(senders, line, Err(ErrorKind::Other)),
            Step::Fills(count) => self.fills(senders, count, true),
            Step::Overfills(count) => self.fills(senders, count, false),
            Step::WritesLong(length) => self.writes_long(senders, length),
            Step::WriteInThreads(lines) => self.writes_in_threads(senders, lines),
            Step::DropsSender => drop(senders.pop()),
            Step::Opens => self.seen.opens(),
            Step::HasEnded => self.ends(),
            _ => self.expect(self.happens(step), true),
        }
    }

    // Waits for what a step says, and returns whether it happened.
    fn happens(&self, step: Step) -> bool {
        match step {
            Step::IsHeld => self.seen.is_held(self.rt),
            Step::Come(count) => self.seen.come(self.rt, count),
            Step::FlushesCome(count) => self.seen.flushes_come(self.rt, count),
            _ => false,
        }
    }

    // A sender writes a line, with this reply. Its last ticket is then the number of all lines so far, or as before.
    fn sends<T: AnySender>(
        &mut self,
        senders: &mut Vec<T>,
        line: &[u8],
        wanted: Result<bool, ErrorKind>,
    ) {
        let count = senders.len().max(1);
        let sender = senders
            .get_mut(self.turn % count)
            .expect(&self.rt, "a sender");
        self.turn = self.turn.wrapping_add(1);
        let last = sender.ticket();
        let reply = sender.send(line).map_err(|fault| fault.kind());
        let ticket = sender.ticket();
        self.expect(reply, wanted);
        self.counts(wanted);
        if let Ok(true) = wanted {
            self.expect(ticket, last.map(|_| self.queued));
        } else {
            self.expect(ticket, last);
        }
    }

    fn counts(&mut self, reply: Result<bool, ErrorKind>) {
        match reply {
            Ok(true) => self.queued = self.queued.saturating_add(1),
            Ok(false) => self.dropped = self.dropped.saturating_add(1),
            Err(_) => {}
        }
    }

    fn fills<T: AnySender>(&mut self, senders: &mut Vec<T>, count: usize, is_queued: bool) {
        for _ in 0..count {
            self.sends(senders, b"a", Ok(is_queued));
        }
    }

    fn writes_long<T: AnySender>(&mut self, senders: &mut Vec<T>, length: usize) {
        let line = line_of(self.rt.alloc(), length).expect(&self.rt, "memory");
        let place = self.seen.count();
        self.sends(senders, line.as_slice(), Ok(true));
        self.expect(self.seen.come(self.rt, place.saturating_add(1)), true);
        self.expect(self.seen.flushes_come(self.rt, 1), true);
        self.expect(
            self.seen.place_of(&self.rt, place, line.as_slice()),
            Some(place),
        );
    }

    fn writes_in_threads<T: AnySender>(&mut self, senders: &mut Vec<T>, lines: usize) {
        let running = start(self.rt, senders, lines);
        self.told = join(self.rt, running, senders);
        self.by_threads = count(self.told.as_slice());
        self.queued = self.queued.saturating_add(self.by_threads as u64);
    }

    /// The worker has ended.
    pub(crate) fn ends(&mut self) {
        self.has_ended = self.seen.has_ended(self.rt);
        self.expect(self.has_ended, true);
        self.is_complete();
    }

    /// What is to be written was written, and the last line was flushed twice.
    pub(crate) fn is_complete(&self) {
        match self.came {
            Came::Lines(lines) => self.seen.expect_text(self.rt, self.title, lines),
            Came::Count(count) => self.expect(self.seen.count(), count),
        }
        let found = count_in_order(self.rt, self.told.as_slice(), &*self.seen);
        self.expect(found, self.by_threads);
        self.expect(
            self.seen.count() == 0 || self.seen.last_flushes() >= 2,
            true,
        );
    }
}
