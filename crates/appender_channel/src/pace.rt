//! How often threads look again before they sleep, and how far senders may run ahead of the worker.
//! The numbers are measured: they change how fast lines are queued and written, and nothing else.
ghost use Rattle.std.specs.Prelude.{◌≡◌};

use appender_queue::queue::LineQueue;
use appender_runtime::backoff::yield_for;
use std::thread;

/// How often the worker looks again at an empty queue, and a sender at a full one, before it sleeps.
pub const LOOKS: u32 = 16;

/// How long the worker yields between two looks, in turns of a loop.
pub const EMPTY_TURNS: u32 = 128;

// How long a sender yields between two looks at a full queue. If longer back-offs help, it is between
// the last two; the longest one takes less than a millisecond on every processor that was measured.
const FULL_TURNS: u32 = 256;

const LEAST_FULL_TURNS: u32 = 1024;

const MOST_FULL_TURNS: u32 = 8192;

// A run of this number of lines is long enough, or in a queue of few lines one of a quarter of its limit.
const LONG_RUN: usize = 128;

/// How many buffers of written lines are kept for other lines. A line of a sender that lives on then needs no allocation,
/// and no free in another thread.
pub const MOST_SPARES: usize = 4096;

/// The most bytes of a buffer that is kept.
pub const MOST_BYTES: usize = 512;

// While more lines than this wait, the sender of each line whose ticket has none of these bits yields,
// so that the lines between sender and worker stay in the processor's cache.
const BEHIND: u64 = 511;

// The same of a worker that is far behind: senders yield more often then, so that the kept buffers are enough for all of them.
const FAR_BEHIND: u64 = 1024;

const OFTEN: u64 = 15;

/// How long a sender backs off at a full queue. If it looks again soon, it finds room for a line or two,
/// and it and the worker take the queue from each other's cache for each line. So it backs off longer as
/// long as that makes its runs of lines longer.
#[derive(Clone, Copy)]
pub struct FullBackoff {
    // Before the first look; 0 is just a yield.
    turns: u32,
    // How many lines were queued since the last full queue.
    lines: usize,
    long_run: usize,
}

impl FullBackoff {
    /// The initial back-off of a sender of a queue with this limit.
    pub fn new(limit: usize) -> FullBackoff {
        FullBackoff {
            turns: 0,
            lines: 0,
            long_run: LONG_RUN.min(limit / 4),
        }
    }

    /// Counts a queued line.
    #[inline(always)]
    pub fn line(&mut self) {
        self.lines = self.lines.wrapping_add(1);
    }

    /// Yields before the first look at a full queue: twice as long as at the last one if lines come fast and
    /// in short runs, else half as long.
    pub fn first(&mut self, alone: bool) {
        let fast = self.lines >= (self.turns / LEAST_FULL_TURNS) as usize;
        self.turns = if fast && self.lines < self.long_run {
            self.turns
                .saturating_mul(2)
                .clamp(LEAST_FULL_TURNS, MOST_FULL_TURNS)
        } else if self.turns > LEAST_FULL_TURNS {
            self.turns / 2
        } else {
            0
        };
        self.lines = 0;
        yield_for(self.turns, alone);
    }

    /// Yields before another look.
    pub fn again(self, alone: bool) {
        yield_for(self.turns.max(FULL_TURNS), alone);
    }
}

/// What a sender does after its line is queued, also in lossy mode. It is bounded, and no error can follow.
#[derive(Clone, Copy)]
pub enum Pace {
    /// It goes on at once.
    GoOn,
    /// It yields to other threads.
    Yield,
}

impl Pace {
    /// Returns the pace of the sender of the line with this ticket.
    #[inline(always)]
    pub fn after(ticket: u64, queue: &LineQueue) -> Pace {
        if ticket & OFTEN != 0 {
            return Pace::GoOn;
        }
        let queued = queue.counts().queued;
        if queued > FAR_BEHIND || ticket & BEHIND == 0 && queued > BEHIND {
            Pace::Yield
        } else {
            Pace::GoOn
        }
    }

    /// Lets other threads run, if the worker is behind.
    #[inline(always)]
    pub fn keep(self) {
        match self {
            Pace::GoOn => {}
            Pace::Yield => thread::yield_now(),
        }
    }
}
