//! Clocks. Files begin by their seconds, and records have times by their nanoseconds.
ghost use Rattle.std.specs.Prelude.{◌≡◌, ℤ, pos};
ghost use Rattle.std.specs.Int.{int_div_euclid};

use std::sync::atomic::AtomicI64;
use std::sync::atomic::Ordering::SeqCst;
use std::time;

/// A clock.
pub trait Clock: Drop {
    ghost use Rattle.std.specs.Prelude.{ℤ};

    // What a reading of a clock of this kind may return. Generic code can show it only by a reading.
    ghost now_gives: { Self → ℤ → Type 0 };

    /// Returns the time in whole seconds of UTC since the epoch, rounded down. A clock that can't be read returns
    /// `i64::MIN`, which is outside the years 1 to 9998 and so counts as not seen.
    fn now(&self) -> i64
        ensures { now_gives self.now result };

    /// Returns the time in nanoseconds of UTC since the epoch, whose seconds, rounded down, are what `now` might return.
    /// A clock that has whole seconds only need not write this method.
    fn now_nanos(&self) -> i128
        ensures { now_gives self.now (int_div_euclid result (pos 1_000_000_000)) }
    {
        i128::from(self.now()) * 1_000_000_000
    }
}

impl<C: Clock> Clock for &C {
    ghost now_gives = { λ clock m. C.now_gives clock.now m };

    fn now(&self) -> i64 {
        (**self).now()
    }

    fn now_nanos(&self) -> i128 {
        (**self).now_nanos()
    }
}

/// A clock that shows the moment that it was set to, for tests.
#[derive(Debug, Drop)]
pub struct ManualClock {
    moment: AtomicI64,
}

impl ManualClock {
    /// Returns a clock that shows this moment, in seconds of UTC since the epoch.
    pub fn new(moment: i64) -> ManualClock {
        ManualClock {
            moment: AtomicI64::new(moment),
        }
    }

    /// Sets the moment. A log that has the clock by reference reads it at its next call.
    pub fn set(&self, moment: i64) {
        self.moment.store(moment, SeqCst);
    }
}

impl Clock for ManualClock {
    ghost now_gives = { λ clock m. Unit {0} };

    fn now(&self) -> i64 {
        self.moment.load(SeqCst)
    }
}

/// The system's clock. A time before 1970, which std does not return, counts as not seen.
#[derive(Clone, Copy, Debug)]
pub struct SystemClock<R = HostRuntime> {
    rt: R,
}

impl<R: time::Clock + Drop> SystemClock<R> {
    /// Returns the clock of a runtime.
    pub fn new(rt: R) -> SystemClock<R> {
        SystemClock { rt }
    }
}

impl<R: time::Clock + Drop> Clock for SystemClock<R> {
    ghost now_gives = { λ clock m. Unit {0} };

    fn now(&self) -> i64 {
        match self.rt.since_1970() {
            Ok(time) => i64::try_from(time.as_secs()).unwrap_or(i64::MIN),
            Err(_) => i64::MIN,
        }
    }

    fn now_nanos(&self) -> i128 {
        match self.rt.since_1970() {
            Ok(time) => i128::try_from(time.as_nanos()).unwrap_or(i128::MIN),
            Err(_) => i128::MIN,
        }
    }
}
