// An open log file in its folder.
ghost use Rattle.std.specs.Prelude.{◌<◌, ◌≤◌, length, IfOk, IsTrue};
ghost use Rattle.appender_rolling.specs.Roller.{Writes, WritesAll, Flushes, OfAnySchedule};

use appender_store::store::Folder;
use std::io;
use std::io::ErrorKind;
use std::marker::Model;

/// An open log file in its folder, and how many bytes of the limit are left. Every write changes it.
#[derive(Drop)]
pub(super) struct LogFile<S: Folder> {
    pub(super) folder: S,
    pub(super) file: S::File,
    // The subtraction stops at 0. So it can't overflow, and a log without a limit is no other case.
    pub(super) room: u64,
}

impl<S: Folder> Model for LogFile<S> {
    ghost use Rattle.std.specs.Prelude.{◌<◌, length, IsTrue};
    ghost use Rattle.appender_rolling.specs.Roller.{OpenFile};

    ghost Value = { OpenFile S S.File };

    ghost view = { λ l. record { folder = l.folder; file = l.file; room = l.room } };

    ghost invariant = { λ l. IsTrue S.is_known → S.body l.file < length (S.content l.folder).bodies };
}

impl<S: Folder> LogFile<S> {
    // Adds bytes to the file by one append, and returns how many were taken.
    pub(super) fn write(&mut self, bytes: &[u8]) -> io::Result<usize>
        ensures writes { OfAnySchedule (Writes S.Folder bytes.now result) self.old self.new }
        ensures bound { IfOk result (λ taken. taken ≤ length bytes.now) }
        ensures there { IsTrue S.is_known → S.body self.new.file < length (S.content self.new.folder).bodies }
    {
        let written = self.folder.append(&mut self.file, bytes);
        if let Ok(taken) = &written {
            self.room = self.room.saturating_sub(*taken as u64);
        }
        written
    }

    // Makes one append after another until all bytes are taken. An interrupted one is repeated; `WriteZero` if
    // one takes nothing. The loop has a bound, so that it is proved to end.
    pub(super) fn write_all(&mut self, bytes: &[u8]) -> io::Result<()>
        ensures { OfAnySchedule (WritesAll S.Folder bytes.now result) self.old self.new }
    {
        let mut rest = bytes;
        for _made in 0..u64::MAX {
            if rest.is_empty() {
                return Ok(());
            }
            match self.write(rest) {
                Ok(0) => return Err(io::Error::from(ErrorKind::WriteZero)),
                Ok(taken) => rest = &rest[taken..],
                Err(fault) if matches!(fault.kind(), ErrorKind::Interrupted) => {}
                Err(fault) => return Err(fault),
            }
        }
        Err(io::Error::other("too many appends"))
    }

    // Flushes the file.
    pub(super) fn flush(&mut self) -> io::Result<()>
        ensures { OfAnySchedule (Flushes S.Folder result) self.old self.new }
    {
        self.folder.flush(&mut self.file)
    }
}
