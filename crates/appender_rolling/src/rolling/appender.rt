// A roller that threads share, and its clock.
ghost use Rattle.std.specs.Prelude.{◌≡◌, IfOk, IfErr};
ghost use Rattle.appender_names.specs.declared.rotation.RotationKind.TheVariants.{Minutely, Hourly, Daily, Weekly, Never};
ghost use Rattle.appender_names.specs.Rotation.{rotation_of};
ghost use Rattle.appender_rolling.specs.Config.{defaults};
ghost use Rattle.appender_rolling.specs.Appender.{plain_config, SharesInSomeFolder, OpensNoneInSomeFolder};

use super::shared_roller::SharedRoller;
use super::writer::RollingWriter;
use super::{Builder, Clock, InitError, RollingFile, Rotation, SystemClock};
use appender_folder::folder::{DirFolder, FilesHost};
use appender_runtime::make_writer::MakeWriter;
use appender_store::store::Folder;
use std::alloc::{AllocError, Global};
use std::fmt::{Debug, Formatter};
use std::io::Write;
use std::marker::Model;
use std::sync::{RwLock, RwLockReadGuard, Wait};
use std::{fmt, io, time};

/// A log that threads share, each by writers that it makes. Making a writer, and each write of its own,
/// checks the clock, and at a boundary of the rotation opens the next file.
///
/// ```
/// use std::io;
/// use std::io::Write;
/// use tracing_appender::rolling::{RollingFileAppender, Rotation};
///
/// // The files are as `logs/web.2026-11-28-10`. Threads can share the log by a reference, and each makes a writer.
/// pub fn log_request(rt: HostRuntime) -> io::Result<()> {
///     let mut log = RollingFileAppender::new(rt, Rotation::HOURLY, "logs", "web")?;
///     log.write_all(b"GET / 200\n")
/// }
/// ```
#[derive(Drop)]
pub struct RollingFileAppender<S: Folder, C: Clock, R: Drop = HostRuntime> {
    rt: R,
    // Writers hold it to read, so that no file is opened between the pieces of one of them. A thread that
    // opens the next file holds it alone.
    roller: RwLock<SharedRoller<S>>,
    clock: C,
}

/// An appender that writes to a folder of the file system by the system's clock.
pub type FileAppender<R = HostRuntime> = RollingFileAppender<DirFolder<R>, SystemClock<R>, R>;

impl<S: Folder, C: Clock, R: Drop> Model for RollingFileAppender<S, C, R> {
    ghost use Rattle.appender_rolling.specs.Appender.{SharedLog};

    ghost Value = { SharedLog C };

    ghost view = { λ a. record { clock = a.clock } };
}

impl<S: Folder, C: Clock> RollingFile<S, C> {
    ghost use Rattle.std.specs.Prelude.{◌≡◌};

    /// Returns the same log for many threads. The runtime waits for its locks.
    pub fn share<R: Drop>(self, rt: R) -> RollingFileAppender<S, C, R>
        ensures { result.clock ≡ self.clock }
    {
        RollingFileAppender {
            rt,
            roller: RwLock::new(SharedRoller::new(self.roller)),
            clock: self.clock,
        }
    }
}

impl<S: Folder, C: Clock, R: Wait + Drop> RollingFileAppender<S, C, R> {
    ghost use Rattle.std.specs.Prelude.{◌≡◌, false, MatchOption};
    ghost use Rattle.std.specs.Sync.RwLock.{read_guard_value};
    ghost use Rattle.appender_rolling.specs.Roller.{Scheduled, ChecksClockOnly};
    ghost use Rattle.appender_rolling.specs.declared.rolling.Switch.{Switch};
    ghost use Rattle.appender_rolling.specs.Appender.{SomeRollerIsDue, OfSomeRoller};

    // Takes the lock for reading, unless a file is due: then opens that under the lock for writing, and the caller tries
    // again.
    fn lock_unless_due(&self, moment: i64) -> Option<RwLockReadGuard<'_, SharedRoller<S>>>
        ensures { MatchOption result
            ((old : Scheduled) × (new : Scheduled) × (switch : Switch) × OfSomeRoller (ChecksClockOnly S.Folder moment switch) old new)
            (λ roller. SomeRollerIsDue S.Folder (read_guard_value roller).schedule moment false) }
    {
        let roller = self.roller.read(&self.rt);
        if !roller.due(&self.rt, moment) {
            return Some(roller);
        }
        drop(roller);
        self.roller.write(&self.rt).see(moment);
        None
    }
}

impl<S: Folder, C: Clock, R: Drop> RollingFileAppender<S, C, R> {
    ghost use Rattle.std.specs.Prelude.{◌≡◌};

    /// Closes the open file, and returns the folder and the clock.
    pub fn into_parts(self) -> (S, C)
        ensures clock { result.1 ≡ self.clock }
    {
        (self.roller.into_inner().into_folder(), self.clock)
    }
}

impl<'a, S: Folder + 'a, C: Clock, R: Wait + Drop + 'a> MakeWriter<'a>
    for RollingFileAppender<S, C, R> {
    ghost use Rattle.std.specs.Prelude.{IsOk, IfOk};
    ghost use Rattle.appender_rolling.specs.Appender.{NoFileIsDueNow};

    type Writer = RollingWriter<'a, S, R>;

    /// Checks the clock, and returns a writer to the open file; no other file is opened until it is dropped. Writers of
    /// several threads write to it at the same time, so write each line by one call. A thread that holds a writer must
    /// not make another: it may wait for itself. With a limit of bytes the next file is opened when the open one is full;
    /// a writer that was made before may write past the limit.
    fn make_writer(&'a self) -> Result<RollingWriter<'a, S, R>, AllocError>
        ensures ok { IsOk result }
        ensures looks { IfOk result (NoFileIsDueNow S.Folder C.Clock self.now.clock) }
    {
        let moment = self.clock.now();
        // A file is opened under the write lock. Then the read lock is taken anew, and the boundary checked under it.
        // Without a limit of bytes the second check is the last.
        for _ in self.rt.forever() {
            if let Some(roller) = self.lock_unless_due(moment) {
                return Ok(RollingWriter {
                    rt: &self.rt,
                    roller,
                });
            }
        }
        unreachable!()
    }
}

impl<S: Folder, C: Clock, R: Drop> Write for RollingFileAppender<S, C, R> {
    ghost use Rattle.std.specs.Prelude.{None};
    ghost use Rattle.std.specs.Io.{WritesAtMost};
    ghost use Rattle.std.specs.Io.KnownBytes.{WriteAppends};
    ghost use Rattle.appender_rolling.specs.Roller.{Scheduled, Flushes};
    ghost use Rattle.appender_rolling.specs.Appender.{PutsAtClock, OfSomeRoller};

    /// Reads the clock once, and writes the bytes at that moment. `write_all` repeats it for what was not taken,
    /// so that its pieces may be in two files. It takes no lock.
    fn write(&mut self, bytes: &[u8]) -> io::Result<usize>
        ensures bound { WritesAtMost result bytes.now }
        ensures bytes { WriteAppends None None result bytes.now }
        ensures put { PutsAtClock S.Folder C.Clock self.old.clock bytes.now result }
    {
        let moment = self.clock.now();
        self.roller.get_mut().put(moment, bytes)
    }

    /// Flushes the open file, and reads no clock.
    fn flush(&mut self) -> io::Result<()>
        ensures { (s : Scheduled) × OfSomeRoller (Flushes S.Folder result) s s }
    {
        self.roller.get_mut().flush_alone()
    }
}

impl<S: Folder, C: Clock, R: Drop> Debug for RollingFileAppender<S, C, R> {
    fn fmt<W: fmt::Write>(&self, f: &mut Formatter<W>) -> fmt::Result {
        // To wait here could be to wait for a writer of the same thread.
        match self.roller.try_read() {
            Some(roller) => roller.fmt(f),
            None => f.pad("RollingFileAppender { .. }"),
        }
    }
}

impl Builder {
    ghost use Rattle.std.specs.Prelude.{◌≡◌};
    ghost use Rattle.appender_rolling.specs.Appender.{SharesNow, SharesInSomeFolder, OpensNone};

    /// Opens an appender in a folder, at the clock's moment. Errors are those of `Roller::open`, and return
    /// folder and clock.
    pub fn build_in<S: Folder, C: Clock, R: Drop>(
        &self,
        rt: R,
        alloc: Global,
        folder: S,
        clock: C,
    ) -> Result<RollingFileAppender<S, C, R>, (InitError, S, C)>
        ensures ok { IfOk result (SharesNow S.Folder C.Clock self.now folder clock) }
        ensures err { IfErr result (λ refused.
            OpensNone S.Folder C.Clock self.now folder clock refused.0 refused.1 refused.2) }
    {
        Ok(self.open_in(alloc, folder, clock)?.share(rt))
    }

    /// Opens an appender in a folder of the file system, by the system's clock. Errors are those
    /// of `Roller::open`.
    pub fn build<R: FilesHost + time::Clock>(
        &self,
        rt: R,
        directory: &str,
    ) -> Result<FileAppender<R>, InitError>
        ensures ok { IfOk result (SharesInSomeFolder ⟦<DirFolder<R> as Folder>⟧ ⟦<SystemClock<R> as Clock>⟧
            self.now) }
        ensures err { IfErr result (OpensNoneInSomeFolder ⟦<DirFolder<R> as Folder>⟧ ⟦<SystemClock<R> as Clock>⟧
            self.now) }
    {
        let waits = rt.clone()?;
        Ok(self.open(rt, directory)?.share(waits))
    }
}

impl RollingFileAppender<DirFolder, SystemClock> {
    /// Returns a builder with nothing set, as `Builder::new` does.
    #[must_use]
    pub fn builder() -> Builder
        ensures { result ≡ defaults }
    {
        Builder::new()
    }
}

impl<R: FilesHost + time::Clock> RollingFileAppender<DirFolder<R>, SystemClock<R>, R> {
    /// Opens an appender in a folder of the file system, by the system's clock. The names of its files
    /// begin with the prefix; an empty one is none. Errors are those of `Builder::build`.
    pub fn new(
        rt: R,
        rotation: Rotation,
        directory: &str,
        prefix: &str,
    ) -> Result<FileAppender<R>, InitError>
        ensures ok { IfOk result (SharesInSomeFolder ⟦<DirFolder<R> as Folder>⟧ ⟦<SystemClock<R> as Clock>⟧
            (plain_config rotation prefix.now)) }
        ensures err { IfErr result (OpensNoneInSomeFolder ⟦<DirFolder<R> as Folder>⟧ ⟦<SystemClock<R> as Clock>⟧
            (plain_config rotation prefix.now)) }
    {
        Builder::new()
            .rotation(rotation)
            .filename_prefix(rt.alloc(), prefix)?
            .build(rt, directory)
    }
}

/// Opens a log with a new file each minute: `directory/prefix.yyyy-MM-dd-HH-mm`. Errors are those of
/// `Builder::build`. `daily` has an example.
pub fn minutely<R: FilesHost + time::Clock>(
    rt: R,
    directory: &str,
    prefix: &str,
) -> Result<FileAppender<R>, InitError>
    ensures ok { IfOk result (SharesInSomeFolder ⟦<DirFolder<R> as Folder>⟧ ⟦<SystemClock<R> as Clock>⟧
        (plain_config (rotation_of Minutely) prefix.now)) }
    ensures err { IfErr result (OpensNoneInSomeFolder ⟦<DirFolder<R> as Folder>⟧ ⟦<SystemClock<R> as Clock>⟧
        (plain_config (rotation_of Minutely) prefix.now)) }
{
    RollingFileAppender::new(rt, Rotation::MINUTELY, directory, prefix)
}

/// Opens a log with a new file each hour: `directory/prefix.yyyy-MM-dd-HH`. Errors as for
/// `minutely`.
pub fn hourly<R: FilesHost + time::Clock>(
    rt: R,
    directory: &str,
    prefix: &str,
) -> Result<FileAppender<R>, InitError>
    ensures ok { IfOk result (SharesInSomeFolder ⟦<DirFolder<R> as Folder>⟧ ⟦<SystemClock<R> as Clock>⟧
        (plain_config (rotation_of Hourly) prefix.now)) }
    ensures err { IfErr result (OpensNoneInSomeFolder ⟦<DirFolder<R> as Folder>⟧ ⟦<SystemClock<R> as Clock>⟧
        (plain_config (rotation_of Hourly) prefix.now)) }
{
    RollingFileAppender::new(rt, Rotation::HOURLY, directory, prefix)
}

/// Opens a log with a new file each day: `directory/prefix.yyyy-MM-dd`. Errors as for
/// `minutely`.
///
/// ```
/// use std::io;
/// use std::io::Write;
/// use tracing_appender::rolling::daily;
///
/// pub fn log_start(rt: HostRuntime) -> io::Result<()> {
///     let mut log = daily(rt, "logs", "app")?;
///     // Appends to the file of today, as `logs/app.2026-11-28`.
///     log.write_all(b"started\n")
/// }
/// ```
pub fn daily<R: FilesHost + time::Clock>(
    rt: R,
    directory: &str,
    prefix: &str,
) -> Result<FileAppender<R>, InitError>
    ensures ok { IfOk result (SharesInSomeFolder ⟦<DirFolder<R> as Folder>⟧ ⟦<SystemClock<R> as Clock>⟧
        (plain_config (rotation_of Daily) prefix.now)) }
    ensures err { IfErr result (OpensNoneInSomeFolder ⟦<DirFolder<R> as Folder>⟧ ⟦<SystemClock<R> as Clock>⟧
        (plain_config (rotation_of Daily) prefix.now)) }
{
    RollingFileAppender::new(rt, Rotation::DAILY, directory, prefix)
}

/// Opens a log with a new file each week, on Sunday: `directory/prefix.yyyy-MM-dd`. Errors as for
/// `minutely`.
pub fn weekly<R: FilesHost + time::Clock>(
    rt: R,
    directory: &str,
    prefix: &str,
) -> Result<FileAppender<R>, InitError>
    ensures ok { IfOk result (SharesInSomeFolder ⟦<DirFolder<R> as Folder>⟧ ⟦<SystemClock<R> as Clock>⟧
        (plain_config (rotation_of Weekly) prefix.now)) }
    ensures err { IfErr result (OpensNoneInSomeFolder ⟦<DirFolder<R> as Folder>⟧ ⟦<SystemClock<R> as Clock>⟧
        (plain_config (rotation_of Weekly) prefix.now)) }
{
    RollingFileAppender::new(rt, Rotation::WEEKLY, directory, prefix)
}

/// Opens a log of one file for all time: `directory/prefix`, or for an empty prefix the date of the opening.
/// Errors as for `minutely`.
pub fn never<R: FilesHost + time::Clock>(
    rt: R,
    directory: &str,
    prefix: &str,
) -> Result<FileAppender<R>, InitError>
    ensures ok { IfOk result (SharesInSomeFolder ⟦<DirFolder<R> as Folder>⟧ ⟦<SystemClock<R> as Clock>⟧
        (plain_config (rotation_of Never) prefix.now)) }
    ensures err { IfErr result (OpensNoneInSomeFolder ⟦<DirFolder<R> as Folder>⟧ ⟦<SystemClock<R> as Clock>⟧
        (plain_config (rotation_of Never) prefix.now)) }
{
    RollingFileAppender::new(rt, Rotation::NEVER, directory, prefix)
}
