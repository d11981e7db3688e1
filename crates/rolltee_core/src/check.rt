//! Checks of log files that other programs change too.
ghost use Rattle.std.specs.Prelude.{◌≡◌, true};
ghost use Rattle.rolltee_core.specs.Log.{EndsLine};

use appender_names::names::Names;
use program_io::options::{OptionName, Options};
use std::fs::{OpenFile, OpenOptions};
use std::io::{ErrorKind, Read, Seek, SeekFrom};
use std::{fs, io};
use tracing_appender::folder::{DirFolder, FilesHost};
use tracing_appender::retain::{LogFiles, count_later};
use tracing_appender::rolling::{Builder, InitError};
use tracing_appender::store::{Folder, NoticeKind};

/// Checks the open file of a log in a folder.
pub trait FileCheck<S: Folder>: Drop {
    ghost use Rattle.std.specs.Prelude.{◌≡◌, true, IsTrue};
    ghost use Rattle.appender_store.specs.Content.{body_at};
    ghost use Rattle.rolltee_core.specs.Log.{Looks};

    /// What its looks show.
    ghost looks: { Looks S S.File };

    /// Returns whether the open file, which has this name, is empty or ends with a newline; `false` if that
    /// can't be seen.
    fn ends_line(&self, folder: &S, file: &S::File, name: &str) -> bool
        ensures seen { looks.ends folder.now file.now name.now result }
        ensures whole { result ≡ true → IsTrue S.is_known →
            EndsLine (body_at (S.content folder.now) (S.body file.now)) };

    /// Returns the length of the open file in bytes, or 0 if that can't be seen.
    fn length(&self, file: &S::File) -> u64
        ensures { looks.length file.now result };

    /// Returns whether this name leads to the open file, and the file is not shorter than `length` bytes. If not, or
    /// if that can't be seen, reports it.
    fn finds(&self, folder: &S, file: &S::File, name: &str, length: u64) -> bool
        ensures { looks.finds folder.now file.now name.now length result };

    /// Returns the number of flushes that the folder noted as failed.
    fn unsynced(&self, folder: &S) -> u64
        ensures { result ≡ (S.noted folder.now).flushes };

    /// Reports what is amiss beside the file of this name, which was just opened.
    fn look_beside(&mut self, _folder: &S, _name: &str) {}
}

/// Checks the open file of a log in a folder of the file system. A file that was truncated, whose name leads
/// elsewhere, or that couldn't be compared with what its name leads to, is reported on standard error. One that
/// couldn't be for want of memory is taken for found: for want of it the log can't be opened anew either, and the next look
/// decides. Once until it works again, so is a link that can't be made, and with a maximum of files how many are of a later
/// time, whenever that number changes.
#[derive(Drop)]
pub struct DirCheck<R> {
    rt: R,
    // Ends with a slash.
    path: String,
    // What each report begins with.
    title: String,
    names: Names,
    // The name of the link, or empty.
    link: String,
    // Whether there is a maximum of files.
    keeps: bool,
    // Whether it was reported that there is no link.
    is_link_reported: bool,
    // The number of files of a later time that was last reported.
    later: usize,
}

// What happened to a log file.
enum Loss {
    // Its name doesn't lead to it.
    Moved,
    Truncated,
}

impl<R: FilesHost> DirCheck<R> {
    /// Watches the folder at a path for a log with these settings and options. An empty path is the current directory.
    /// Errors are those of `Builder::names`.
    pub fn new(
        rt: R,
        settings: &Builder,
        path: &str,
        title: &str,
        options: &Options,
    ) -> Result<DirCheck<R>, InitError> {
        let alloc = rt.alloc();
        let mut base = String::from_str(alloc, path)?;
        if base.is_empty() {
            base.push('.')?;
        }
        if !base.ends_with('/') {
            base.push('/')?;
        }
        Ok(DirCheck {
            rt,
            path: base,
            title: String::from_str(alloc, title)?,
            names: settings.names(alloc)?,
            link: String::from_str(alloc, options.text(OptionName::Link))?,
            keeps: options.has(OptionName::Keep),
            is_link_reported: false,
            later: 0,
        })
    }

    // Returns the last byte of a file of the folder.
    fn last_byte(&self, name: &str) -> io::Result<u8> {
        let path = format!(in self.rt.alloc(); "{}{name}", self.path)?;
        let mut file = OpenOptions::new().read(true).open(&self.rt, path)?;
        file.seek(SeekFrom::End(-1))?;
        let mut byte = [0];
        file.read_exact(&mut byte)?;
        Ok(byte[0])
    }

    // Returns what happened to the open file, if its name leads elsewhere or it is shorter than this.
    fn loss(
        &self,
        folder: &DirFolder<R>,
        file: &R::File,
        name: &str,
        length: u64,
    ) -> io::Result<Option<Loss>> {
        if !folder.is_named(file, name)? {
            Ok(Some(Loss::Moved))
        } else if file.metadata()?.len() < length {
            Ok(Some(Loss::Truncated))
        } else {
            Ok(None)
        }
    }

    // Reports a file that was lost, or not found again, on standard error, whose own faults are ignored.
    fn report(&self, name: &str, found: io::Result<Loss>) {
        let (rt, title) = (&self.rt, &self.title);
        let _ = match found {
            Ok(Loss::Moved) => eprintln!(rt;
                "{title}{name}: log file removed, renamed or replaced"
            ),
            Ok(Loss::Truncated) => eprintln!(rt; "{title}{name}: log file truncated"),
            Err(fault) => eprintln!(rt; "{title}{name}: log file not found again: {fault}"),
        };
    }

    // Reports a link that was not made.
    fn report_link(&self, fault: io::Error) {
        let (rt, title, link) = (&self.rt, &self.title, &self.link);
        let _ = if self.is_other(link.as_str()) {
            eprintln!(rt; "{title}{link} is no symbolic link, and stays")
        } else {
            eprintln!(rt; "{title}{link} can't be made: {fault}")
        };
    }

    // Returns whether something else than a symbolic link has a name.
    fn is_other(&self, name: &str) -> bool {
        let Ok(path) = format!(in self.rt.alloc(); "{}{name}", self.path) else {
            return false;
        };
        match fs::symlink_metadata(&self.rt, path.as_str()) {
            Ok(found) => !found.is_symlink(),
            Err(_) => false,
        }
    }

    // Reports how many files are of a later time than the one of this name, if that number changed. Nothing is known of a
    // folder that can't be listed.
    fn report_later(&mut self, name: &str) {
        let Ok(later) = self.count_later(name) else {
            return;
        };
        if later == self.later {
            return;
        }
        self.later = later;
        let (rt, title) = (&self.rt, &self.title);
        let _ = match later {
            0 => Ok(()),
            1 => eprintln!(rt; "{title}1 log file is of a later time: not counted"),
            _ => eprintln!(rt; "{title}{later} log files are of a later time: not counted"),
        };
    }

    fn count_later(&self, name: &str) -> io::Result<usize> {
        let mut folder = DirFolder::new(self.rt.clone()?, self.path.as_str())?;
        let listed = folder.list()?;
        let log = LogFiles::new(&self.names, true, name);
        Ok(count_later(&log, listed.as_slice()))
    }
}

impl<R: FilesHost> FileCheck<DirFolder<R>> for DirCheck<R> {
    ghost looks = { record { ends = λ _ _ _ _. Unit {0}; length = λ _ _. Unit {0}; finds = λ _ _ _ _ _. Unit {0} } };

    fn ends_line(&self, folder: &DirFolder<R>, file: &R::File, name: &str) -> bool {
        match file.metadata() {
            Ok(metadata) if metadata.len() == 0 => true,
            _ => {
                let named = folder.is_named(file, name);
                matches!(named, Ok(true)) && matches!(self.last_byte(name), Ok(b'\n'))
            }
        }
    }

    fn length(&self, file: &R::File) -> u64 {
        match file.metadata() {
            Ok(metadata) => metadata.len(),
            Err(_) => 0,
        }
    }

    fn finds(&self, folder: &DirFolder<R>, file: &R::File, name: &str, length: u64) -> bool {
        let lost = match self.loss(folder, file, name, length) {
            Ok(None) => return true,
            Ok(Some(loss)) => Ok(loss),
            Err(fault) if fault.kind() == ErrorKind::OutOfMemory => return true,
            Err(fault) => Err(fault),
        };
        self.report(name, lost);
        false
    }

    fn unsynced(&self, folder: &DirFolder<R>) -> u64 {
        folder.notices(NoticeKind::Flush)
    }

    fn look_beside(&mut self, folder: &DirFolder<R>, name: &str) {
        match folder.link_fault() {
            Some(fault) if !self.is_link_reported => {
                self.is_link_reported = true;
                self.report_link(fault);
            }
            Some(_) => {}
            None => self.is_link_reported = false,
        }
        if self.keeps {
            self.report_later(name);
        }
    }
}
