//! Locks that many threads take for a short time each. The numbers are measured: they change how fast
//! threads are, and nothing else.
use std::hint::spin_loop;
use std::sync::atomic::AtomicU32;
use std::sync::atomic::Ordering::SeqCst;
use std::sync::{Mutex, MutexGuard, Wait};
use std::thread;
use std::thread::Threads;

// How often a thread at a taken lock pauses before it tries again, and how often it yields after that,
// before it sleeps.
const PAUSES: u32 = 8;

const YIELDS: u32 = 24;

/// Returns whether the process has just one processor. Nobody else gets on during a pause there, so threads only yield.
pub fn is_alone(rt: &impl Threads) -> bool {
    match thread::available_parallelism(rt) {
        Ok(count) => count.get() == 1,
        Err(_) => false,
    }
}

/// How long a thread pauses at a taken lock: twice as long after each attempt, and a little less each time
/// that the lock is free. So threads that meet often take the lock many times in a row, and what it
/// protects stays in one processor's cache.
#[derive(Clone, Copy)]
pub struct Backoff {
    // Turns of a loop; 0 if the thread only yields.
    turns: u32,
}

impl Backoff {
    const LEAST: u32 = 8;

    const MOST: u32 = 256;

    /// The initial back-off.
    pub const NEW: Backoff = Backoff {
        turns: Backoff::LEAST,
    };

    /// Returns the initial back-off of a thread, which only yields if it `is_alone`.
    pub fn new(alone: bool) -> Backoff {
        if alone {
            Backoff { turns: 0 }
        } else {
            Backoff::NEW
        }
    }

    // The lock was free.
    #[inline(always)]
    fn shrink(&mut self) {
        if self.turns > Backoff::LEAST {
            self.turns -= 1;
        }
    }

    // The lock was taken.
    fn pause(&mut self) {
        pause_for(self.turns);
        self.turns = self.turns.saturating_mul(2).min(Backoff::MOST);
    }
}

/// Locks the mutex: tries for a while before it sleeps.
#[inline(always)]
pub fn lock<'a, T, R: Wait>(
    rt: &R,
    lock: &'a Mutex<T>,
    backoff: &mut Backoff,
) -> MutexGuard<'a, T> {
    if let Some(guard) = lock.try_lock() {
        backoff.shrink();
        return guard;
    }
    lock_again(rt, lock, backoff)
}

#[cold]
#[inline(never)]
fn lock_again<'a, T, R: Wait>(
    rt: &R,
    lock: &'a Mutex<T>,
    backoff: &mut Backoff,
) -> MutexGuard<'a, T> {
    for turn in 0..PAUSES + YIELDS {
        if turn < PAUSES && backoff.turns != 0 {
            backoff.pause();
        } else {
            thread::yield_now();
        }
        if let Some(guard) = lock.try_lock() {
            return guard;
        }
    }
    lock.lock(rt)
}

/// The back-off of threads that take a lock once each. They pass it on to each other.
#[derive(Drop)]
pub struct SharedBackoff {
    // Turns of a loop; 0 if the threads only yield.
    turns: AtomicU32,
}

impl SharedBackoff {
    /// Returns the initial back-off of threads, which only yield if each of them `is_alone`.
    pub fn new(alone: bool) -> SharedBackoff {
        SharedBackoff {
            turns: AtomicU32::new(Backoff::new(alone).turns),
        }
    }

    // Passes the back-off on. While it stays the same, each processor keeps its copy.
    fn pass_on(&self, old: u32, new: u32) {
        if new != old {
            self.turns.store(new, SeqCst);
        }
    }
}

/// Locks the mutex as `lock` does. The back-off stays where the first pause is mostly enough: it gets a little shorter if the
/// lock is free after that pause, and else twice as long. If the lock is free at once, it isn't read.
#[inline(always)]
pub fn lock_once<'a, T, R: Wait>(
    rt: &R,
    lock: &'a Mutex<T>,
    backoff: &SharedBackoff,
) -> MutexGuard<'a, T> {
    if let Some(guard) = lock.try_lock() {
        return guard;
    }
    lock_once_again(rt, lock, backoff)
}

#[cold]
#[inline(never)]
fn lock_once_again<'a, T, R: Wait>(
    rt: &R,
    lock: &'a Mutex<T>,
    backoff: &SharedBackoff,
) -> MutexGuard<'a, T> {
    let turns = backoff.turns.load(SeqCst);
    let mut own = Backoff { turns };
    if turns != 0 {
        own.pause();
        if let Some(guard) = lock.try_lock() {
            let shorter = turns.saturating_sub(turns / 16 + 1).max(Backoff::LEAST);
            backoff.pass_on(turns, shorter);
            return guard;
        }
        backoff.pass_on(turns, own.turns);
    }
    lock_again(rt, lock, &mut own)
}

/// Yields to other threads. One that isn't `alone` then pauses for this number of turns of a loop.
pub fn yield_for(turns: u32, alone: bool) {
    thread::yield_now();
    if !alone {
        pause_for(turns);
    }
}

fn pause_for(turns: u32) {
    for _ in 0..turns {
        spin_loop();
    }
}
