// A roller that threads share.
ghost use Rattle.std.specs.Prelude.{◌≡◌};

use super::Roller;
use super::log_file::LogFile;
use super::schedule::Schedule;
use appender_runtime::backoff::{Backoff, lock};
use appender_store::store::Folder;
use std::fmt::Formatter;
use std::sync::{Mutex, Wait};
use std::{fmt, io};

/// A roller behind a lock for reading and writing. Many threads at once may hold it for reading, and write to the open file,
/// which has a lock of its own. A thread that opens the next file holds it for writing. So the schedule needs no other
/// lock. The file's lock has no boundary: an invariant can't tie the contents of two locks.
#[derive(Drop)]
pub struct SharedRoller<S: Folder> {
    pub(super) schedule: Schedule,
    log: Mutex<LogFile<S>>,
}

impl<S: Folder> SharedRoller<S> {
    ghost use Rattle.std.specs.Prelude.{◌≡◌, None, OnOk};
    ghost use Rattle.std.specs.Io.KnownBytes.{Appends};
    ghost use Rattle.appender_rolling.specs.Roller.{schedule_of, ChecksClockOnly, Puts, Writes, WritesAll, Flushes};
    ghost use Rattle.appender_rolling.specs.declared.rolling.Switch.{Switch};
    ghost use Rattle.appender_rolling.specs.Appender.{SomeRollerIsDue, OfSomeRoller};

    pub(super) fn new(roller: Roller<S>) -> SharedRoller<S>
        ensures { result.schedule ≡ schedule_of roller }
    {
        SharedRoller {
            schedule: roller.schedule,
            log: Mutex::new(roller.log),
        }
    }

    // Returns whether a check of the clock at this moment would open the next file. The file's lock is taken only if a
    // limit of bytes is set.
    pub(super) fn due<R: Wait>(&self, rt: &R, moment: i64) -> bool
        ensures { SomeRollerIsDue S.Folder self.now.schedule moment result }
    {
        let room = if self.schedule.is_limited() {
            lock(rt, &self.log, &mut Backoff::NEW).room
        } else {
            0
        };
        self.schedule.next_stamp(room, moment, 0).is_some()
    }

    // Checks the clock.
    pub(super) fn see(&mut self, moment: i64)
        ensures { (switch : Switch) × OfSomeRoller (ChecksClockOnly S.Folder moment switch) self.old.schedule self.new.schedule }
    {
        self.schedule.check_clock(self.log.get_mut(), moment, 0);
    }

    // Checks the clock for these bytes, and then writes them.
    pub(super) fn put(&mut self, moment: i64, bytes: &[u8]) -> io::Result<usize>
        ensures { (switch : Switch) × OfSomeRoller (Puts S.Folder moment bytes.now switch result) self.old.schedule self.new.schedule }
    {
        let log = self.log.get_mut();
        self.schedule.check_clock(log, moment, bytes.len());
        log.write(bytes)
    }

    // Makes one append to the open file.
    pub(super) fn write<R: Wait>(&self, rt: &R, bytes: &[u8]) -> io::Result<usize>
        ensures { OfSomeRoller (Writes S.Folder bytes.now result) self.now.schedule self.now.schedule }
    {
        lock(rt, &self.log, &mut Backoff::NEW).write(bytes)
    }

    // Repeats it under one lock for what was not taken.
    pub(super) fn write_all<R: Wait>(&self, rt: &R, bytes: &[u8]) -> io::Result<()>
        ensures bytes { OnOk result (Appends None None bytes.now) }
        ensures appends { OfSomeRoller (WritesAll S.Folder bytes.now result) self.now.schedule self.now.schedule }
    {
        lock(rt, &self.log, &mut Backoff::NEW).write_all(bytes)
    }

    // Flushes the open file.
    pub(super) fn flush<R: Wait>(&self, rt: &R) -> io::Result<()>
        ensures { OfSomeRoller (Flushes S.Folder result) self.now.schedule self.now.schedule }
    {
        lock(rt, &self.log, &mut Backoff::NEW).flush()
    }

    // Flushes the open file. No other thread has it, so no lock is taken.
    pub(super) fn flush_alone(&mut self) -> io::Result<()>
        ensures flush { OfSomeRoller (Flushes S.Folder result) self.old.schedule self.old.schedule }
        ensures same { self.new.schedule ≡ self.old.schedule }
    {
        self.log.get_mut().flush()
    }

    pub(super) fn fmt<W: fmt::Write>(&self, f: &mut Formatter<W>) -> fmt::Result {
        let (open_name, boundary) = self.schedule.name_and_boundary();
        f.debug_struct("RollingFileAppender")
            .field("open_name", &open_name)
            .field("boundary", &boundary)
            .finish()
    }

    pub(super) fn into_folder(self) -> S {
        self.log.into_inner().folder
    }
}
