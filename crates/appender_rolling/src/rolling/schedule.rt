// Which log file is open, and when the next one begins.
ghost use Rattle.std.specs.Prelude.{◌≡◌, ◌↔◌, true, IsTrue};
ghost use Rattle.appender_rolling.specs.Config.{is_limited};
ghost use Rattle.appender_rolling.specs.Opening.{file_name_of};
ghost use Rattle.appender_rolling.specs.Roller.{ClosesLast, ChecksClock, IsOpened, rolling_of, is_due, is_full, next_with};

use super::Switch;
use super::log_file::LogFile;
use super::setup::{LAST_NUMBER, Opened, Setup, Stamp};
use appender_names::rotation::in_range;
use appender_store::laws::names_change_one_at_a_time;
use appender_store::store::{Folder, Notice};
use std::marker::Model;

/// Which log file is open, and when the next one begins. It changes only when one begins.
#[derive(Drop)]
pub(super) struct Schedule {
    pub(super) setup: Setup,
    pub(super) name: String,
    pub(super) opened: Stamp,
    // What the last attempt was for, which may have failed. The file after a full one has its moment, so the latest
    // moment is not stored.
    pub(super) last: Stamp,
    pub(super) boundary: Option<i64>,
}

impl Model for Schedule {
    ghost use Rattle.std.specs.Prelude.{string_bytes};
    ghost use Rattle.appender_rolling.specs.Roller.{Scheduled, IsSchedule};

    ghost Value = { Scheduled };

    ghost view = { λ s. record { config = s.setup; opened = s.opened; last = s.last; boundary = s.boundary } };

    ghost invariant = { λ s. IsSchedule s.setup (string_bytes s.name) s.opened s.last s.boundary };
}

// Whether a moment is in range, and at or past a boundary.
fn has_come(boundary: Option<i64>, moment: i64) -> bool
    ensures { result ≡ is_due boundary moment }
{
    match boundary {
        None => false,
        Some(boundary) => in_range(moment) && moment >= boundary,
    }
}

// Flushes a file that the next one replaces.
fn close_last<S: Folder>(folder: &mut S, file: &mut S::File)
    ensures { ClosesLast S.Folder folder.old file.old folder.new }
{
    if let Err(fault) = folder.flush(file) {
        folder.note(Notice::Flush(&fault));
    }
}

impl Schedule {
    // Whether the number of bytes in a file is limited.
    pub(super) fn is_limited(&self) -> bool
        ensures { result ≡ is_limited self.now.config }
    {
        self.setup.max_bytes() != 0
    }

    // Returns what the next attempt is for, if a check of the clock at this moment makes one. `len` bytes are to be
    // written to a file with room for `room` bytes.
    pub(super) fn next_stamp(&self, room: u64, moment: i64, len: usize) -> Option<Stamp>
        ensures { result ≡ next_with self.now room moment len }
    {
        if has_come(self.boundary, moment) {
            return Some(Stamp { moment, number: 0 });
        }
        if self.is_full(room, len) {
            return Some(Stamp {
                moment: self.last.moment,
                number: self.last.number + 1,
            });
        }
        None
    }

    // Whether `len` bytes do not fit in a file with room for `room` bytes, and another file can be numbered.
    fn is_full(&self, room: u64, len: usize) -> bool
        ensures { result ≡ is_full self.now room len }
    {
        let wanted = if len == 0 { 1 } else { len as u64 };
        self.last.number < LAST_NUMBER && room < self.setup.max_bytes() && room < wanted
    }

    // Checks the clock before a write of `len` bytes: if a boundary was reached or the file is full, opens the next
    // file in place of this one.
    pub(super) fn check_clock<S: Folder>(
        &mut self,
        log: &mut LogFile<S>,
        moment: i64,
        len: usize,
    ) -> Switch
        ensures { ChecksClock S.Folder moment len result
            (rolling_of self.old log.old) (rolling_of self.new log.new) }
    {
        names_change_one_at_a_time();
        let Some(stamp) = self.next_stamp(log.room, moment, len) else {
            return Switch::None;
        };
        self.last = stamp;
        self.boundary = self.setup.rotation().next_date(stamp.moment);
        log.room = self.setup.max_bytes();
        match self.setup.open_next(&mut log.folder, stamp) {
            Ok(Opened { file, name }) => {
                close_last(&mut log.folder, &mut log.file);
                log.file = file;
                self.name = name;
                self.opened = stamp;
                Switch::Opened
            }
            Err(error) => {
                log.folder.note(Notice::Open(&error));
                Switch::Failed
            }
        }
    }

    // Returns the name of the open file and the second at which the next period begins. They agree in every
    // schedule, and so also in one under a lock each time the lock is taken.
    pub(super) fn name_and_boundary(&self) -> (&str, Option<i64>)
        ensures { IsOpened self.now.config result.0.now self.now.opened result.1 }
    {
        (self.name.as_str(), self.boundary)
    }
}
