// Flushes that senders ask for and wait for.
use appender_queue::queue::Taken;
use std::io;
use std::io::ErrorKind;
use std::sync::atomic::AtomicU64;
use std::sync::atomic::Ordering::SeqCst;
use std::sync::{Condvar, CondvarTimeouts, Mutex, Wait};
use std::time::{Clock, Duration};

/// How far the worker has come.
#[derive(Clone, Copy)]
pub(super) struct Progress {
    /// The ticket of the last line that was passed on.
    pub(super) ticket: u64,
    /// How many of the flushes that were asked for were made.
    pub(super) flushes: u64,
    /// The fault of the first flush that failed since the last one that was asked for.
    pub(super) fault: Option<ErrorKind>,
}

impl Progress {
    /// Nothing was written yet.
    pub(super) const NONE: Progress = Progress {
        ticket: 0,
        flushes: 0,
        fault: None,
    };

    /// The worker passes on what it took. It takes the next once that is written or given up.
    #[inline(always)]
    pub(super) fn passes(&mut self, taken: &Taken) {
        if let Taken::Line(ticket, _) = taken {
            self.ticket = *ticket;
        }
    }
}

/// The flushes that were asked for, and how far the worker was when it last made one of them.
#[derive(Drop)]
pub(super) struct Flushes {
    // How many were asked for: a copy that the worker reads without the lock.
    asked: AtomicU64,
    state: Mutex<State>,
    // Who asked waits here.
    made: Condvar,
}

#[derive(Drop)]
struct State {
    // How many were asked for, and the greatest ticket that had been given before one of them.
    asked: u64,
    ticket: u64,
    progress: Progress,
    has_ended: bool,
    // Of the newest flush that failed: its number, the greatest one if the worker has ended, and its fault.
    failed: u64,
    fault: Option<ErrorKind>,
}

impl Flushes {
    pub(super) fn new() -> Flushes {
        Flushes {
            asked: AtomicU64::new(0),
            state: Mutex::new(State {
                asked: 0,
                ticket: 0,
                progress: Progress::NONE,
                has_ended: false,
                failed: 0,
                fault: None,
            }),
            made: Condvar::new(),
        }
    }

    /// Asks for a flush after the line with this ticket, and returns its number.
    pub(super) fn ask(&self, rt: &impl Wait, ticket: u64) -> u64 {
        let mut state = self.state.lock(rt);
        state.asked = state.asked.saturating_add(1);
        state.ticket = state.ticket.max(ticket);
        self.asked.store(state.asked, SeqCst);
        state.asked
    }

    /// Whether one was asked for that was not made.
    #[inline(always)]
    pub(super) fn are_asked(&self, progress: Progress) -> bool {
        self.asked.load(SeqCst) != progress.flushes
    }

    /// Returns how many were asked for, if all lines that one of them is to come after are written.
    pub(super) fn due(&self, rt: &impl Wait, progress: Progress) -> Option<u64> {
        let state = self.state.lock(rt);
        (state.ticket <= progress.ticket).then_some(state.asked)
    }

    /// Tells who waits how far the worker is, which has just flushed, and whether it has ended.
    pub(super) fn announce(&self, rt: &impl Wait, progress: Progress, has_ended: bool) {
        let mut state = self.state.lock(rt);
        state.progress = progress;
        state.has_ended = has_ended;
        if progress.fault.is_some() {
            state.failed = if has_ended {
                u64::MAX
            } else {
                progress.flushes
            };
            state.fault = progress.fault;
        }
        drop(state);
        self.made.notify_all();
    }

    /// Waits at most this long until the flush of this number was made, which was to come after the line with this ticket.
    pub(super) fn wait<R: Wait + Clock>(
        &self,
        rt: &R,
        number: u64,
        ticket: u64,
        timeout: Duration,
    ) -> io::Result<()> {
        let state = self.state.lock(rt);
        let (state, _) = self.made.wait_timeout_while(rt, state, timeout, |state| {
            state.progress.flushes < number && !state.has_ended
        });
        let progress = state.progress;
        // The worker flushes last.
        let is_made = progress.flushes >= number || state.has_ended && progress.ticket >= ticket;
        match state.fault {
            _ if !is_made && state.has_ended => Err(io::Error::other("the worker has ended")),
            _ if !is_made => Err(io::Error::from(ErrorKind::TimedOut)),
            Some(kind) if state.failed >= number => Err(io::Error::from(kind)),
            _ => Ok(()),
        }
    }
}
