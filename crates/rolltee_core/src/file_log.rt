//! A log whose open file other programs may change.
ghost use Rattle.std.specs.Prelude.{◌≡◌, ◌≤◌, ◌+◌, true, false, length, IfOk};
ghost use Rattle.std.specs.Io.BufRead.{ends_with_byte};
ghost use Rattle.appender_rolling.specs.Roller.{written_count};
ghost use Rattle.rolltee_core.specs.Log.{cut_after, failed_after, newline_length, open_name, short_after, EndsWhole, OpensLog};

use crate::check::FileCheck;
use crate::logs::TeeLog;
use crate::losses::TeeLosses;
use crate::opening::cause_of;
use std::io;
use std::io::{ErrorKind, Write};
use std::marker::Model;
use tracing_appender::rolling::{Clock, InitError, RollingFile, Switch};
use tracing_appender::store::Folder;

/// Opens one log, each time it is asked to.
pub trait Opens<S: Folder, C: Clock>: Drop {
    ghost use Rattle.std.specs.Prelude.{ℕ, List, IfOk};
    ghost use Rattle.appender_rolling.specs.Config.{Config};
    ghost use Rattle.rolltee_core.specs.Log.{OpensLog};

    /// The configuration of the log.
    ghost config: { Self → Config };

    /// The path of its folder.
    ghost directory: { Self → List ℕ };

    /// Whether a folder is the one at a path.
    ghost is_at: { List ℕ → S → Type 0 };

    /// Opens the log at the moment of its clock. Errors are those of `Builder::open_in`.
    fn open(&self) -> Result<RollingFile<S, C>, InitError>
        ensures { IfOk result (λ log. (folder : S) × is_at (directory self.now) folder
            × OpensLog S.Folder C.Clock (config self.now) folder log) };
}

/// A log that looks for its open file before each write and at each flush. If that was removed, renamed, replaced or
/// truncated, the check reports it, and the log is opened again for the next write.
#[derive(Drop)]
pub struct FileLog<S: Folder, C: Clock, W: FileCheck<S>, O: Opens<S, C>> {
    opener: O,
    log: RollingFile<S, C>,
    check: W,
    // Whether a part of a line is ended by a newline before the next line.
    whole_lines: bool,
    // Whether the open file may end with a part of a line, also if that can't be seen: an empty line does less harm than
    // two lines in one.
    cut: bool,
    // Whether a newline is to be written first, since the open file ends with a part of a line that is not written on.
    owed: bool,
    // Whether the last append took a part of a line, whose rest belongs to the same file.
    short: bool,
    // The open file's least length in bytes: what it had at its opening, and what was appended.
    length: u64,
    // Whether the open file was not found again, or was truncated, and how many files were.
    is_gone: bool,
    gone: u64,
    // Whether the log was ever opened again.
    anew: bool,
    // Whether the last call was a flush that succeeded.
    flushed: bool,
    // The number of flushes that failed, those of the open folder's switches aside.
    unsynced: u64,
}

impl<S: Folder, C: Clock, W: FileCheck<S>, O: Opens<S, C>> Model for FileLog<S, C, W, O> {
    ghost use Rattle.std.specs.Prelude.{◌≡◌, false};
    ghost use Rattle.rolltee_core.specs.Log.{EndsWhole, LogState};

    ghost Value = { LogState S S.File C };

    ghost view = { λ l. record {
      log = l.log;
      config = O.config l.opener;
      whole_lines = l.whole_lines;
      cut = l.cut;
      short = l.short;
      owed = l.owed;
      length = l.length;
      is_gone = l.is_gone;
      anew = l.anew;
      flushed = l.flushed;
      failed = l.unsynced;
    } };

    ghost invariant = { λ l. l.cut ≡ false → EndsWhole S.Folder l.log };
}

impl<S: Folder, C: Clock, W: FileCheck<S>, O: Opens<S, C>> FileLog<S, C, W, O> {
    ghost use Rattle.std.specs.Prelude.{◌≡◌, ◌≢◌, ◌∷◌, [], ℕ, Ok, Result, length, IfOk, OnOk, OnErr};
    ghost use Rattle.std.specs.Io.{WritesAtMost};
    ghost use Rattle.std.specs.declared.io.Error.{Error};
    ghost use Rattle.rolltee_core.specs.Log.{AppendsTo, EndsOwed, FindsFile, FlushesLog, IsLookedAt, IsNewLog, LooksFor, MissesFile, MayCheckOnce, OpensAnew, WritesLog};

    /// Opens the log.
    pub fn new(opener: O, check: W, whole_lines: bool) -> Result<FileLog<S, C, W, O>, InitError>
        ensures { IfOk result (IsNewLog S.Folder C.Clock W.looks (O.is_at (O.directory opener)) (O.config opener) whole_lines) }
    {
        let log = opener.open()?;
        let mut log = FileLog {
            opener,
            log,
            check,
            whole_lines,
            cut: true,
            owed: false,
            short: false,
            length: 0,
            is_gone: false,
            gone: 0,
            anew: false,
            flushed: false,
            unsynced: 0,
        };
        log.look();
        Ok(log)
    }

    // Looks at the file that was opened.
    fn look(&mut self)
        ensures looked { IsLookedAt S.Folder W.looks self.new }
        ensures same { self.new ≡ record self.old { cut = self.new.cut; owed = self.new.owed; length = self.new.length } }
    {
        self.check
            .look_beside(self.log.folder(), self.log.open_name());
        self.length = self.check.length(self.log.open_file());
        self.cut = !ends_whole(&self.check, &self.log);
        self.owed = self.whole_lines && self.cut;
    }

    /// Returns the open file.
    pub fn open_file(&self) -> &S::File {
        self.log.open_file()
    }

    // Compares the open file with what its name leads to. If it is not found, or was truncated, flushes it, and opens the log
    // again. Then it is `WriteZero` if that file has the beginning of a line, whose rest no other file takes. After another
    // error nothing has changed, and the next call tries again.
    fn find_file(&mut self) -> io::Result<()>
        ensures found { OnOk result (FindsFile S.Folder C.Clock W.looks self.old self.new) }
        ensures lost { OnErr result (MissesFile S.Folder C.Clock W.looks self.old self.new) }
    {
        self.compare();
        if !self.is_gone {
            return Ok(());
        }
        let begun = self.short;
        let log = open_again(&self.opener)?;
        self.replace(log);
        if begun {
            return Err(io::Error::from(ErrorKind::WriteZero));
        }
        Ok(())
    }

    // Compares the open file with what its name leads to, and its length, until a difference is reported. Other programs
    // may make the file longer, so only a shorter one is a difference.
    fn compare(&mut self)
        ensures { LooksFor W.looks self.old self.new }
    {
        if self.is_gone {
            return;
        }
        let found = self.check.finds(
            self.log.folder(),
            self.log.open_file(),
            self.log.open_name(),
            self.length,
        );
        if !found {
            self.is_gone = true;
            self.gone = self.gone.saturating_add(1);
        }
    }

    // Flushes the open file before it is closed, and goes on with a log that was opened again.
    fn replace(&mut self, log: RollingFile<S, C>)
        requires { (folder : S) × OpensLog S.Folder C.Clock self.now.config folder log }
        ensures { OpensAnew S.Folder C.Clock W.looks self.old self.new }
    {
        let flushed = self.log.flush();
        self.unsynced = unsynced_after(self.unsynced, &flushed);
        // The folder that comes next has noted no flush.
        let noted = self.check.unsynced(self.log.folder());
        self.unsynced = self.unsynced.saturating_add(noted);
        self.log = log;
        self.cut = true;
        self.short = false;
        self.is_gone = false;
        self.anew = true;
        self.look();
    }

    // Begins the next file if one is due for these bytes and the newline before them, unless they are the rest of a line.
    fn check_clock(&mut self, bytes: &[u8])
        ensures { MayCheckOnce S.Folder C.Clock W.looks (length bytes.now) self.old self.new }
    {
        if self.short {
            return;
        }
        let moment = self.log.moment();
        let switch = self.log.check_clock(moment, length_with(bytes, self.owed));
        match switch {
            Switch::None => {}
            Switch::Opened => {
                self.cut = true;
                self.look();
            }
            Switch::Failed => self.cut = !ends_whole(&self.check, &self.log),
        }
    }

    // Ends a part of a line by a newline.
    fn end_part(&mut self) -> io::Result<()>
        ensures ends { OnOk result (EndsOwed S.Folder self.old self.new) }
        ensures stays { OnErr result ((self.old.owed ≡ true) × (answer : Result ℕ Error) × (answer ≢ Ok 1)
            × AppendsTo S.Folder (10 ∷ []) answer self.old self.new) }
    {
        if self.owed {
            if self.append(b"\n")? == 0 {
                return Err(io::Error::from(ErrorKind::WriteZero));
            }
            self.owed = false;
        }
        Ok(())
    }

    // Adds the first of the bytes to the open file by one append.
    fn append(&mut self, bytes: &[u8]) -> io::Result<usize>
        ensures bound { WritesAtMost result bytes.now }
        ensures appends { AppendsTo S.Folder bytes.now result self.old self.new }
    {
        let answer = self.log.append(bytes);
        let taken = count_of(&answer);
        self.length = self.length.saturating_add(taken as u64);
        self.cut = is_cut_after(self.cut, &bytes[..taken]);
        self.short = is_short_after(self.short, bytes, &answer);
        answer
    }

    // Adds the first of the bytes to the file of the clock's moment, by one append. After a write that took a part of a
    // line it adds them to the same file, without a check of the clock.
    fn write(&mut self, bytes: &[u8]) -> io::Result<usize>
        ensures bound { WritesAtMost result bytes.now }
        ensures writes { WritesLog S.Folder C.Clock W.looks bytes.now result self.old self.new }
    {
        self.find_file()?;
        self.check_clock(bytes);
        self.end_part()?;
        self.append(bytes)
    }

    // Flushes the open file, and looks for it.
    fn flush(&mut self) -> io::Result<()>
        ensures { FlushesLog S.Folder W.looks result self.old self.new }
    {
        let flushed = self.log.flush();
        self.unsynced = unsynced_after(self.unsynced, &flushed);
        self.compare();
        flushed
    }
}

impl<S: Folder, C: Clock, W: FileCheck<S>, O: Opens<S, C>> TeeLog for FileLog<S, C, W, O> {
    ghost use Rattle.std.specs.Prelude.{◌≡◌};
    ghost use Rattle.program_io.specs.Options.{has_option};
    ghost use Rattle.program_io.specs.declared.options.OptionName.TheVariants.{WholeLines};
    ghost use Rattle.rolltee_core.specs.Log.{IsKept, IsNewLog, TakesPiece, config_of};

    ghost opens = { λ rotation directory prefix options opened.
        IsNewLog S.Folder C.Clock W.looks (O.is_at directory) (config_of rotation prefix options) (has_option WholeLines options) opened };

    ghost takes = { λ old taken new. TakesPiece S.Folder C.Clock W.looks old taken new };

    ghost is_kept = { λ log. IsKept S.Folder log };

    fn put(&mut self, bytes: &[u8]) -> io::Result<usize> {
        let answer = self.write(bytes);
        self.flushed = false;
        answer
    }

    fn flush_all(&mut self) -> io::Result<()> {
        let answer = self.flush();
        self.flushed = answer.is_ok();
        answer
    }

    fn give_up(&mut self) {
        self.short = false;
        self.owed = self.owed || (self.whole_lines && self.cut);
        self.flushed = false;
    }

    fn close(self) -> TeeLosses {
        let noted = self.check.unsynced(self.log.folder());
        TeeLosses {
            gone: at_least_one(self.gone, self.anew),
            unsynced: at_least_one(self.unsynced.saturating_add(noted), !self.flushed),
            ..TeeLosses::NONE
        }
    }
}

// Opens the log again.
fn open_again<S: Folder, C: Clock, O: Opens<S, C>>(opener: &O) -> io::Result<RollingFile<S, C>>
    ensures { IfOk result (λ log. (folder : S) × OpensLog S.Folder C.Clock (O.config opener.now) folder log) }
{
    match opener.open() {
        Ok(log) => Ok(log),
        Err(error) => Err(cause_of(&error)),
    }
}

// Returns how many flushes failed, after one with this answer.
fn unsynced_after(unsynced: u64, answer: &io::Result<()>) -> u64
    ensures { result ≡ failed_after answer.now unsynced }
{
    match answer {
        Ok(()) => unsynced,
        Err(_) => unsynced.saturating_add(1),
    }
}

// Returns a count, or 1 if it is 0 and something is known to be lost.
fn at_least_one(count: u64, is_lost: bool) -> u64
    ensures { result ≡ 0 → (count ≡ 0) × (is_lost ≡ false) }
{
    if is_lost { count.max(1) } else { count }
}

// Returns how many bytes are written for these: one more if a newline is written before them.
fn length_with(bytes: &[u8], newline: bool) -> usize
    ensures { result ≡ length bytes.now + newline_length newline }
{
    if newline {
        bytes.len() + 1
    } else {
        bytes.len()
    }
}

// Returns whether the rest of a line is due after this answer to an append.
fn is_short_after(short: bool, bytes: &[u8], answer: &io::Result<usize>) -> bool
    requires { written_count answer.now ≤ length bytes.now }
    ensures { result ≡ short_after short bytes.now answer.now }
{
    match answer {
        Ok(taken) => {
            let taken = *taken;
            taken > 0 && taken < bytes.len() && !ends_line(&bytes[..taken])
        }
        Err(_) => short,
    }
}

// Returns whether there is a newline at the end.
pub(crate) fn ends_line(bytes: &[u8]) -> bool
    ensures { result ≡ ends_with_byte 10 bytes.now }
{
    let length = bytes.len();
    length > 0 && bytes[length - 1] == b'\n'
}

// Returns how many bytes an answer counts.
fn count_of(answer: &io::Result<usize>) -> usize
    ensures { result ≡ written_count answer.now }
{
    match answer {
        Ok(taken) => *taken,
        Err(_) => 0,
    }
}

// Returns whether the open file may end with a part of a line after these bytes were added.
fn is_cut_after(cut: bool, added: &[u8]) -> bool
    ensures { result ≡ cut_after cut added.now }
{
    if added.is_empty() {
        cut
    } else {
        !ends_line(added)
    }
}

// Returns whether the open file is seen to be empty or to end with a newline.
fn ends_whole<S: Folder, C: Clock, W: FileCheck<S>>(check: &W, log: &RollingFile<S, C>) -> bool
    ensures seen { W.looks.ends log.now.roller.folder log.now.roller.file (open_name log.now) result }
    ensures whole { result ≡ true → EndsWhole S.Folder log.now }
{
    check.ends_line(log.folder(), log.open_file(), log.open_name())
}
