//! Rotating log files: a new one at each boundary of a rotation.
ghost use Rattle.std.specs.Prelude.{◌≡◌};

mod appender;
mod builder;
mod file;
mod log_file;
mod schedule;
mod setup;
mod shared_roller;
mod writer;

pub use appender::{FileAppender, RollingFileAppender, daily, hourly, minutely, never, weekly};
pub use appender_names::error::{InitError, NameFault};
use appender_names::names::Names;
pub use appender_names::rotation::{ParseRotationError, Rotation};
pub use appender_runtime::clock::{Clock, ManualClock, SystemClock};
pub use appender_runtime::make_writer::MakeWriter;
use appender_store::store::Folder;
pub use builder::Builder;
pub use file::RollingFile;
use log_file::LogFile;
use schedule::Schedule;
use setup::{Setup, Stamp};
use std::alloc::Global;
use std::io;
use std::io::Write;
use std::marker::Model;
pub use writer::RollingWriter;

/// What a check of the clock led to.
#[derive(Clone, Copy, Debug, PartialEq, Eq)]
pub enum Switch {
    /// The open file stays: no boundary was reached, and the file isn't full.
    None,
    /// The next file is open now.
    Opened,
    /// The next file could not be opened, and the last one stays open. The next boundary is an attempt again. With a
    /// limit of bytes the count begins anew, and a put that does not fit in the limit is an attempt too.
    Failed,
}

/// An open log file in a folder. The next one begins at a boundary of the rotation or, if a limit of bytes is set, when
/// the file is full.
#[derive(Drop)]
pub struct Roller<S: Folder> {
    schedule: Schedule,
    log: LogFile<S>,
}

// Contracts see it with its folder and its file, so they can say that nothing has changed.
impl<S: Folder> Model for Roller<S> {
    ghost use Rattle.appender_rolling.specs.Roller.{Rolling, rolling_of};

    ghost Value = { Rolling S S.File };

    ghost view = { λ r. rolling_of r.schedule r.log };
}

impl<S: Folder> Roller<S> {
    ghost use Rattle.std.specs.Prelude.{◌≡◌, ◌≢◌, ◌<◌, ◌≤◌, IsTrue, IfOk, IfErr, None, Some, is_some, length, take};
    ghost use Rattle.appender_names.specs.InitError.{code_of};
    ghost use Rattle.appender_names.specs.Rotation.{next_of};
    ghost use Rattle.appender_store.specs.Content.{after_append};
    ghost use Rattle.appender_rolling.specs.Config.{naming_of};
    ghost use Rattle.appender_rolling.specs.Opening.{file_name_of};
    ghost use Rattle.appender_rolling.specs.Roller.{OpensRoller, OpensNoRoller, ChecksClock, ChecksClockOnly, Writes, Puts, Flushes, KeepsOpenFile, IsLaterBoundary, IsOpened, written_count, next_stamp};

    /// Opens the file of a moment, in seconds of UTC since the epoch. An error returns the folder.
    ///
    /// Errors before any call of the folder, in this order: `Name` (prefix, suffix or link make no names), `Limit` (a limit
    /// of bytes under `NEVER`), `Moment` (out of range), `Memory`. `Name` also if the link has the name of a log file. Then
    /// `Directory`, `File` or `Symlink`, with the fault of the folder.
    pub fn open(
        alloc: Global,
        builder: &Builder,
        mut folder: S,
        moment: i64,
    ) -> Result<Roller<S>, (InitError, S)>
        ensures ok { IfOk result (OpensRoller S.Folder builder.now moment folder) }
        ensures config { IfOk result (λ roller. roller.config ≡ builder.now) }
        ensures moment { IfOk result (λ roller. roller.opened.moment ≡ moment) }
        ensures boundary { IfOk result (λ roller. roller.boundary ≡ next_of builder.now.rotation moment) }
        ensures err { IfErr result (λ refused. OpensNoRoller S.Folder builder.now moment folder refused.0 refused.1) }
        ensures unchanged { IfErr result (λ refused. 3 < code_of refused.0 → refused.1 ≡ folder) }
    {
        let (setup, mut name) = match Setup::ready(alloc, builder, moment) {
            Ok(ready) => ready,
            Err(error) => return Err((error, folder)),
        };
        let number = setup.first_number(&mut folder, moment);
        setup.renumber(&mut name, moment, number);
        let opened = Stamp { moment, number };
        match setup.open_file(&mut folder, name.as_str()) {
            Err(error) => Err((error, folder)),
            Ok(file) => {
                let room = setup.first_room(&folder, &file);
                let boundary = setup.rotation().next_date(moment);
                Ok(Roller {
                    schedule: Schedule {
                        setup,
                        name,
                        opened,
                        last: opened,
                        boundary,
                    },
                    log: LogFile { folder, file, room },
                })
            }
        }
    }

    /// Returns whether a check of the clock at this moment would open the next file. It would if the moment is in range
    /// and not before the boundary, or if the file is full.
    pub fn due(&self, moment: i64) -> bool
        ensures { result ≡ is_some (next_stamp self.now moment 0) }
    {
        self.schedule.next_stamp(self.log.room, moment, 0).is_some()
    }

    /// Checks the clock. If a boundary was reached, opens the file of the moment's period in place of the last
    /// one; if the last one is full, the next of its period. A failure is noted, and tried again at the next boundary
    /// or, with a limit of bytes, at the next put that does not fit in the limit counted anew.
    pub fn see(&mut self, moment: i64) -> Switch
        ensures call { ChecksClockOnly S.Folder moment result self.old self.new }
        ensures none { result ≡ Switch.None → (next_stamp self.old moment 0 ≡ None) × (self.new ≡ self.old) }
        ensures attempt { result ≢ Switch.None → next_stamp self.old moment 0 ≡ Some self.new.last }
        ensures opened { result ≡ Switch.Opened → self.new.opened ≡ self.new.last }
        ensures failed { result ≡ Switch.Failed → (self.new.opened ≡ self.old.opened) × (self.new.file ≡ self.old.file) }
        ensures boundary { result ≢ Switch.None → self.new.boundary ≡ next_of self.old.config.rotation self.new.last.moment }
    {
        self.schedule.check_clock(&mut self.log, moment, 0)
    }

    /// Returns whether a put of `length` bytes at this moment would open the next file.
    pub fn is_due(&self, moment: i64, length: usize) -> bool
        ensures { result ≡ is_some (next_stamp self.now moment length) }
    {
        self.schedule
            .next_stamp(self.log.room, moment, length)
            .is_some()
    }

    /// Checks the clock as a put of `length` bytes does before its write: it also opens the next file if they do not
    /// fit in the limit of bytes.
    pub fn check_clock(&mut self, moment: i64, length: usize) -> Switch
        ensures call { ChecksClock S.Folder moment length result self.old self.new }
        ensures none { result ≡ Switch.None → (next_stamp self.old moment length ≡ None) × (self.new ≡ self.old) }
        ensures attempt { result ≢ Switch.None → next_stamp self.old moment length ≡ Some self.new.last }
        ensures opened { result ≡ Switch.Opened → self.new.opened ≡ self.new.last }
        ensures failed { result ≡ Switch.Failed → (self.new.opened ≡ self.old.opened) × (self.new.file ≡ self.old.file) }
        ensures boundary { result ≢ Switch.None → self.new.boundary ≡ next_of self.old.config.rotation self.new.last.moment }
    {
        self.schedule.check_clock(&mut self.log, moment, length)
    }

    /// Adds bytes to the open file by one append, and returns how many were taken.
    pub fn write(&mut self, bytes: &[u8]) -> io::Result<usize>
        ensures call { Writes S.Folder bytes.now result self.old self.new }
        ensures taken { written_count result ≤ length bytes.now }
        ensures content { IsTrue (S.Folder).is_known → (S.Folder).content self.new.folder
            ≡ after_append ((S.Folder).content self.old.folder) ((S.Folder).body self.old.file) (take (written_count result) bytes.now) }
        ensures stays { KeepsOpenFile S.Folder self.old self.new }
        ensures there { IsTrue (S.Folder).is_known → (S.Folder).body self.new.file < length ((S.Folder).content self.new.folder).bodies }
    {
        self.log.write(bytes)
    }

    /// Checks the clock for these bytes, and then writes them.
    pub fn put(&mut self, moment: i64, bytes: &[u8]) -> (Switch, io::Result<usize>)
        ensures call { Puts S.Folder moment bytes.now result.0 result.1 self.old self.new }
        ensures none { result.0 ≡ Switch.None → (next_stamp self.old moment (length bytes.now) ≡ None) × (self.new.opened ≡ self.old.opened) }
        ensures attempt { result.0 ≢ Switch.None → next_stamp self.old moment (length bytes.now) ≡ Some self.new.last }
        ensures opened { result.0 ≡ Switch.Opened → self.new.opened ≡ self.new.last }
        ensures failed { result.0 ≡ Switch.Failed → self.new.opened ≡ self.old.opened }
        ensures boundary { result.0 ≢ Switch.None → self.new.boundary ≡ next_of self.old.config.rotation self.new.last.moment }
        ensures taken { written_count result.1 ≤ length bytes.now }
        ensures there { IsTrue (S.Folder).is_known → (S.Folder).body self.new.file < length ((S.Folder).content self.new.folder).bodies }
    {
        let switch = self
            .schedule
            .check_clock(&mut self.log, moment, bytes.len());
        let written = self.log.write(bytes);
        (switch, written)
    }

    /// Flushes the open file.
    pub fn flush(&mut self) -> io::Result<()>
        ensures call { Flushes S.Folder result self.old self.new }
        ensures content { (S.Folder).content self.new.folder ≡ (S.Folder).content self.old.folder }
        ensures stays { KeepsOpenFile S.Folder self.old self.new }
    {
        self.log.flush()
    }

    /// Returns the number in the open file's name; 0 without a limit of bytes.
    pub fn number(&self) -> u32
        ensures { result ≡ self.now.opened.number }
    {
        self.schedule.opened.number
    }

    /// Returns how many bytes of the limit are left of the open file; 0 without a limit.
    pub fn room(&self) -> u64
        ensures { result ≡ self.now.room }
    {
        self.log.room
    }

    /// Returns the name of the open file.
    pub fn open_name(&self) -> &str
        ensures { result.now ≡ file_name_of self.now.config self.now.opened }
    {
        self.schedule.name.as_str()
    }

    /// Returns the second at which the next period begins, if one does.
    pub fn boundary(&self) -> Option<i64>
        ensures value { result ≡ self.now.boundary }
        ensures ahead { IsLaterBoundary self.now.config.rotation self.now.opened.moment result }
    {
        self.schedule.boundary
    }

    /// Returns the name of the open file and the second at which the next period begins. They agree in every
    /// roller, and so also in one under a lock each time the lock is taken.
    pub fn name_and_boundary(&self) -> (&str, Option<i64>)
        ensures { IsOpened self.now.config result.0.now self.now.opened result.1 }
    {
        self.schedule.name_and_boundary()
    }

    /// Returns the naming of its files.
    pub fn names(&self) -> &Names
        ensures { result.now ≡ naming_of self.now.config }
    {
        self.schedule.setup.names()
    }

    /// Returns the open file.
    pub fn open_file(&self) -> &S::File
        ensures file { result.now ≡ self.now.file }
        ensures there { IsTrue (S.Folder).is_known → (S.Folder).body self.now.file < length ((S.Folder).content self.now.folder).bodies }
    {
        &self.log.file
    }

    /// Returns the folder.
    pub fn folder(&self) -> &S
        ensures { result.now ≡ self.now.folder }
    {
        &self.log.folder
    }

    /// Returns the folder, and closes the open file.
    pub fn into_folder(self) -> S
        ensures { result ≡ self.folder }
    {
        let Roller { log, .. } = self;
        log.folder
    }
}

impl<S: Folder> Write for Roller<S> {
    ghost use Rattle.std.specs.Prelude.{◌<◌, None, OnOk, IsTrue, length};
    ghost use Rattle.std.specs.Io.{WritesAtMost};
    ghost use Rattle.std.specs.Io.KnownBytes.{Appends, WriteAppends};
    ghost use Rattle.appender_rolling.specs.Roller.{Writes, WritesAll, Flushes};

    /// Makes one append to the open file. A roller reads no clock.
    fn write(&mut self, bytes: &[u8]) -> io::Result<usize>
        ensures bound { WritesAtMost result bytes.now }
        ensures bytes { WriteAppends None None result bytes.now }
        ensures append { Writes S.Folder bytes.now result self.old self.new }
    {
        Roller::write(self, bytes)
    }

    /// Makes one append after another until all bytes are taken. An interrupted one is repeated; `WriteZero` if
    /// one takes nothing.
    fn write_all(&mut self, bytes: &[u8]) -> io::Result<()>
        ensures bytes { OnOk result (Appends None None bytes.now) }
        ensures appends { WritesAll S.Folder bytes.now result self.old self.new }
        ensures there { IsTrue (S.Folder).is_known → (S.Folder).body self.new.file < length ((S.Folder).content self.new.folder).bodies }
    {
        let written = self.log.write_all(bytes);
        // For its clause `there`.
        self.open_file();
        written
    }

    fn flush(&mut self) -> io::Result<()>
        ensures { Flushes S.Folder result self.old self.new }
    {
        Roller::flush(self)
    }
}
