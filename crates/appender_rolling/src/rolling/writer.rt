// Writers for threads that share an appender.
ghost use Rattle.std.specs.Prelude.{◌≡◌, None, OnOk};
ghost use Rattle.std.specs.Io.{WritesAtMost};
ghost use Rattle.std.specs.Io.KnownBytes.{Appends, WriteAppends};

use super::shared_roller::SharedRoller;
use appender_store::store::Folder;
use std::fmt::{Debug, Formatter};
use std::io::Write;
use std::marker::Model;
use std::sync::{RwLockReadGuard, Wait};
use std::{fmt, io};

/// Writes to the file that was open when it was made: no other file is opened until it is dropped.
pub struct RollingWriter<'a, S: Folder, R = HostRuntime> {
    pub(super) rt: &'a R,
    pub(super) roller: RwLockReadGuard<'a, SharedRoller<S>>,
}

impl<'a, S: Folder, R> Model for RollingWriter<'a, S, R> {
    ghost use Rattle.std.specs.Sync.RwLock.{read_guard_value};
    ghost use Rattle.appender_rolling.specs.Appender.{WriterSchedule};

    ghost Value = { WriterSchedule };

    ghost view = { λ w. (read_guard_value w.roller).schedule };
}

impl<S: Folder, R> Drop for RollingWriter<'_, S, R> {
    fn drop(self) {
        let RollingWriter { rt: _, roller } = self;
        drop(roller);
    }
}

impl<'a, S: Folder, R: Wait> Write for RollingWriter<'a, S, R> {
    ghost use Rattle.appender_rolling.specs.Appender.{OfSomeRoller};
    ghost use Rattle.appender_rolling.specs.Roller.{Writes, WritesAll, Flushes};

    /// Makes one append to the open file, and reads no clock.
    fn write(&mut self, bytes: &[u8]) -> io::Result<usize>
        ensures bound { WritesAtMost result bytes.now }
        ensures bytes { WriteAppends None None result bytes.now }
        ensures append { OfSomeRoller (Writes S.Folder bytes.now result) self.old self.old }
        ensures same { self.new ≡ self.old }
    {
        self.roller.write(self.rt, bytes)
    }

    /// Repeats `write` under one lock until all bytes are taken, so that no other piece is between them.
    fn write_all(&mut self, bytes: &[u8]) -> io::Result<()>
        ensures bytes { OnOk result (Appends None None bytes.now) }
        ensures appends { OfSomeRoller (WritesAll S.Folder bytes.now result) self.old self.old }
        ensures same { self.new ≡ self.old }
    {
        self.roller.write_all(self.rt, bytes)
    }

    /// Flushes the open file.
    fn flush(&mut self) -> io::Result<()>
        ensures flush { OfSomeRoller (Flushes S.Folder result) self.old self.old }
        ensures same { self.new ≡ self.old }
    {
        self.roller.flush(self.rt)
    }
}

impl<S: Folder, R> Debug for RollingWriter<'_, S, R> {
    fn fmt<W: fmt::Write>(&self, f: &mut Formatter<W>) -> fmt::Result {
        f.pad("RollingWriter { .. }")
    }
}
