// A roller and its clock, for one thread.
ghost use Rattle.std.specs.Prelude.{◌≡◌, IfOk, IfErr};

use super::{Builder, Clock, InitError, Roller, Switch, SystemClock};
use appender_folder::folder::{DirFolder, FilesHost};
use appender_store::store::Folder;
use std::alloc::Global;
use std::fmt::{Debug, Formatter};
use std::io::Write;
use std::marker::Model;
use std::{fmt, io, time};

/// A log for one thread. Each write checks the clock, and at a boundary of the rotation opens the next file.
/// Contracts say what each write did to the folder.
///
/// ```
/// use std::io;
/// use tracing_appender::rolling::{Builder, Rotation, Switch};
///
/// pub fn log_two(rt: HostRuntime) -> io::Result<Switch> {
///     let settings = Builder::new().rotation(Rotation::DAILY).max_file_bytes(10);
///     let mut log = settings.open(rt, "logs")?;
///     log.put(b"first\n").1?;
///     // The 7 bytes do not fit in the same file, so this opens the next one: `Switch::Opened`.
///     let (switch, written) = log.put(b"second\n");
///     written?;
///     Ok(switch)
/// }
/// ```
#[derive(Drop)]
pub struct RollingFile<S: Folder, C: Clock> {
    pub(super) roller: Roller<S>,
    pub(super) clock: C,
}

impl<S: Folder, C: Clock> Model for RollingFile<S, C> {
    ghost use Rattle.appender_rolling.specs.Appender.{Appending};

    ghost Value = { Appending S S.File C };

    ghost view = { λ a. record { roller = a.roller; clock = a.clock } };
}

impl<S: Folder, C: Clock> RollingFile<S, C> {
    ghost use Rattle.std.specs.Prelude.{◌≡◌, ◌≢◌, ◌<◌, ◌≤◌, IsTrue, Some, is_some, length};
    ghost use Rattle.appender_rolling.specs.Appender.{AppendsNow, PutsNow};
    ghost use Rattle.appender_rolling.specs.Opening.{file_name_of};
    ghost use Rattle.appender_rolling.specs.Roller.{ChecksClock, ChecksClockOnly, KeepsOpenFile, written_count, next_stamp};

    /// Checks the clock, and then adds bytes to the open file by one append. Returns whether a new file was
    /// opened, and how many bytes were taken.
    pub fn put(&mut self, bytes: &[u8]) -> (Switch, io::Result<usize>)
        ensures call { PutsNow S.Folder C.Clock bytes.now result.0 result.1 self.old self.new }
        ensures none { result.0 ≡ Switch.None → self.new.roller.opened ≡ self.old.roller.opened }
        ensures opened { result.0 ≡ Switch.Opened → self.new.roller.opened ≡ self.new.roller.last }
        ensures failed { result.0 ≡ Switch.Failed → self.new.roller.opened ≡ self.old.roller.opened }
        ensures taken { written_count result.1 ≤ length bytes.now }
        ensures there { IsTrue (S.Folder).is_known → (S.Folder).body self.new.roller.file < length ((S.Folder).content self.new.roller.folder).bodies }
        ensures clock { self.new.clock ≡ self.old.clock }
    {
        let moment = self.clock.now();
        self.roller.put(moment, bytes)
    }

    /// Reads the clock, and does nothing else. Returns seconds of UTC since the epoch. A `see` of this moment then
    /// checks the clock without a write.
    pub fn moment(&self) -> i64
        ensures { C.now_gives self.now.clock result }
    {
        self.clock.now()
    }

    /// Returns whether a check of the clock at this moment would open the next file.
    pub fn due(&self, moment: i64) -> bool
        ensures { result ≡ is_some (next_stamp self.now.roller moment 0) }
    {
        self.roller.due(moment)
    }

    /// Opens the next file if one is due at this moment, and reads no clock. Returns whether a file was opened.
    pub fn see(&mut self, moment: i64) -> Switch
        ensures sees { ChecksClockOnly S.Folder moment result self.old.roller self.new.roller }
        ensures none { result ≡ Switch.None → self.new ≡ self.old }
        ensures attempt { result ≢ Switch.None → next_stamp self.old.roller moment 0 ≡ Some self.new.roller.last }
        ensures opened { result ≡ Switch.Opened → self.new.roller.opened ≡ self.new.roller.last }
        ensures failed { result ≡ Switch.Failed → self.new.roller.opened ≡ self.old.roller.opened }
        ensures clock { self.new.clock ≡ self.old.clock }
    {
        self.roller.see(moment)
    }

    /// Returns whether a `put` of `length` bytes at this moment would open the next file.
    pub fn is_due(&self, moment: i64, length: usize) -> bool
        ensures { result ≡ is_some (next_stamp self.now.roller moment length) }
    {
        self.roller.is_due(moment, length)
    }

    /// Does what `see` does, and also opens the next file if `length` bytes do not fit in the limit of bytes. An
    /// `append` after it writes to the same file as a `put` of that length.
    pub fn check_clock(&mut self, moment: i64, length: usize) -> Switch
        ensures sees { ChecksClock S.Folder moment length result self.old.roller self.new.roller }
        ensures none { result ≡ Switch.None → self.new ≡ self.old }
        ensures attempt { result ≢ Switch.None → next_stamp self.old.roller moment length ≡ Some self.new.roller.last }
        ensures opened { result ≡ Switch.Opened → self.new.roller.opened ≡ self.new.roller.last }
        ensures failed { result ≡ Switch.Failed → self.new.roller.opened ≡ self.old.roller.opened }
        ensures clock { self.new.clock ≡ self.old.clock }
    {
        self.roller.check_clock(moment, length)
    }

    /// Adds bytes to the open file by one append, and reads no clock: what follows a `see` or a short `put` is in
    /// the same file. Returns how many were taken.
    pub fn append(&mut self, bytes: &[u8]) -> io::Result<usize>
        ensures call { AppendsNow S.Folder bytes.now result self.old self.new }
        ensures taken { written_count result ≤ length bytes.now }
        ensures stays { KeepsOpenFile S.Folder self.old.roller self.new.roller }
        ensures there { IsTrue (S.Folder).is_known → (S.Folder).body self.new.roller.file < length ((S.Folder).content self.new.roller.folder).bodies }
    {
        self.roller.write(bytes)
    }

    /// Returns the name of the open file.
    pub fn open_name(&self) -> &str
        ensures { result.now ≡ file_name_of self.now.roller.config self.now.roller.opened }
    {
        self.roller.open_name()
    }

    /// Returns the open file.
    pub fn open_file(&self) -> &S::File
        ensures file { result.now ≡ self.now.roller.file }
        ensures there { IsTrue (S.Folder).is_known → (S.Folder).body self.now.roller.file < length ((S.Folder).content self.now.roller.folder).bodies }
    {
        self.roller.open_file()
    }

    /// Returns the folder.
    pub fn folder(&self) -> &S
        ensures { result.now ≡ self.now.roller.folder }
    {
        self.roller.folder()
    }

    /// Closes the open file, and returns the folder and the clock.
    pub fn into_parts(self) -> (S, C)
        ensures folder { result.0 ≡ self.roller.folder }
        ensures clock { result.1 ≡ self.clock }
    {
        (self.roller.into_folder(), self.clock)
    }
}

impl<S: Folder, C: Clock> Write for RollingFile<S, C> {
    ghost use Rattle.std.specs.Prelude.{◌<◌, None, OnOk, IsTrue, length};
    ghost use Rattle.std.specs.Io.{WritesAtMost};
    ghost use Rattle.std.specs.Io.KnownBytes.{Appends, WriteAppends};
    ghost use Rattle.appender_rolling.specs.Appender.{WritesNow, WritesAllNow, FlushesNow};

    /// Does what `put` does, and so reads the clock once.
    fn write(&mut self, bytes: &[u8]) -> io::Result<usize>
        ensures bound { WritesAtMost result bytes.now }
        ensures bytes { WriteAppends None None result bytes.now }
        ensures put { WritesNow S.Folder C.Clock bytes.now result self.old self.new }
        ensures there { IsTrue (S.Folder).is_known → (S.Folder).body self.new.roller.file < length ((S.Folder).content self.new.roller.folder).bodies }
    {
        self.put(bytes).1
    }

    /// Checks the clock once, for all of the bytes. Then adds them to the open file, as `Roller::write_all` does, so that
    /// they are in one file.
    fn write_all(&mut self, bytes: &[u8]) -> io::Result<()>
        ensures bytes { OnOk result (Appends None None bytes.now) }
        ensures appends { WritesAllNow S.Folder C.Clock bytes.now result self.old self.new }
        ensures there { IsTrue (S.Folder).is_known → (S.Folder).body self.new.roller.file < length ((S.Folder).content self.new.roller.folder).bodies }
    {
        let moment = self.clock.now();
        self.roller.check_clock(moment, bytes.len());
        self.roller.write_all(bytes)
    }

    /// Flushes the open file, and reads no clock.
    fn flush(&mut self) -> io::Result<()>
        ensures { FlushesNow S.Folder result self.old self.new }
    {
        self.roller.flush()
    }
}

impl<S: Folder, C: Clock> Debug for RollingFile<S, C> {
    fn fmt<W: fmt::Write>(&self, f: &mut Formatter<W>) -> fmt::Result {
        f.debug_struct("RollingFile")
            .field("open_name", &self.roller.open_name())
            .field("boundary", &self.roller.boundary())
            .finish()
    }
}

impl Builder {
    ghost use Rattle.std.specs.Prelude.{◌≡◌, ◌<◌};
    ghost use Rattle.appender_names.specs.InitError.{code_of};
    ghost use Rattle.appender_rolling.specs.Appender.{OpensNow, OpensInSomeFolder, OpensNone, OpensNoneInSomeFolder};

    /// Opens a log for one thread in a folder, at the clock's moment. Errors are those of `Roller::open`, and
    /// return folder and clock.
    pub fn open_in<S: Folder, C: Clock>(
        &self,
        alloc: Global,
        folder: S,
        clock: C,
    ) -> Result<RollingFile<S, C>, (InitError, S, C)>
        ensures ok { IfOk result (OpensNow S.Folder C.Clock self.now folder clock) }
        ensures config { IfOk result (λ log. log.roller.config ≡ self.now) }
        ensures err { IfErr result (λ refused.
            OpensNone S.Folder C.Clock self.now folder clock refused.0 refused.1 refused.2) }
        ensures unchanged { IfErr result (λ refused. 3 < code_of refused.0 → refused.1 ≡ folder) }
        ensures clock { IfErr result (λ refused. refused.2 ≡ clock) }
    {
        let moment = clock.now();
        match Roller::open(alloc, self, folder, moment) {
            Ok(roller) => Ok(RollingFile { roller, clock }),
            Err((error, folder)) => Err((error, folder, clock)),
        }
    }

    /// Opens a log for one thread in a folder of the file system, by the system's clock. Errors
    /// are those of `Roller::open`.
    pub fn open<R: FilesHost + time::Clock>(
        &self,
        rt: R,
        directory: &str,
    ) -> Result<RollingFile<DirFolder<R>, SystemClock<R>>, InitError>
        ensures ok { IfOk result (OpensInSomeFolder ⟦<DirFolder<R> as Folder>⟧ ⟦<SystemClock<R> as Clock>⟧
            self.now) }
        ensures err { IfErr result (OpensNoneInSomeFolder ⟦<DirFolder<R> as Folder>⟧ ⟦<SystemClock<R> as Clock>⟧
            self.now) }
    {
        let alloc = rt.alloc();
        let clock = SystemClock::new(rt.clone()?);
        let folder = DirFolder::new(rt, directory)?;
        match self.open_in(alloc, folder, clock) {
            Ok(file) => Ok(file),
            Err((error, _, _)) => Err(error),
        }
    }
}
