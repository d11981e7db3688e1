//! The log of a run, and its opening in the file system, with the options that are asked for.
ghost use Rattle.std.specs.Prelude.{◌≡◌, [], ℕ, List, IfOk, string_bytes};
ghost use Rattle.std.specs.Io.{WritesAtMost};
ghost use Rattle.rolltee_core.specs.Log.{config_of, taken_of, undotted};
ghost use Rattle.rolltee_core.specs.Losses.{HasLostNothing};
ghost use Rattle.appender_names.specs.declared.rotation.Rotation.{Rotation};
ghost use Rattle.program_io.specs.declared.options.Options.{Options};

use crate::check::DirCheck;
use crate::file_log::{FileLog, Opens};
use crate::lock::lock_log;
use crate::losses::TeeLosses;
use crate::opening::{open_dir, prepare_dir};
use crate::tee::Fault;
use crate::title::title;
use program_io::options::{OptionName, Options};
use std::alloc::Global;
use std::fs::{File, OpenFile};
use std::os::unix::fs::MetadataExt;
use std::{fs, io};
use tracing_appender::folder::{DirFolder, FilesHost};
use tracing_appender::rolling::{Builder, InitError, RollingFile, Rotation, SystemClock};

/// A log of lines. Where a contract is proved for any log, only a call can meet a clause on `opens`, `takes` or `is_kept`. So such a
/// clause says that the call was made. A log that was closed takes no more.
pub trait TeeLog {
    /// Whether the log was opened with this rotation, this folder, this beginning of the names and these options.
    ghost opens: { Rotation → List ℕ → List ℕ → Options → Self → Type 0 };

    /// Whether one call took exactly these bytes, between these two states.
    ghost takes: { Self → List ℕ → Self → Type 0 };

    /// Whether a log was closed, and nothing that was written to it is known to be lost.
    ghost is_kept: { Self → Type 0 };

    /// Writes the first of some bytes, and returns how many. After an error none of them was written.
    fn put(&mut self, bytes: &[u8]) -> io::Result<usize>
        ensures bound { WritesAtMost result bytes.now }
        ensures taken { takes self.old (taken_of result bytes.now) self.new };

    /// Flushes what was written.
    fn flush_all(&mut self) -> io::Result<()>
        ensures { takes self.old [] self.new };

    /// Abandons the line whose write failed. The next write begins a line.
    fn give_up(&mut self)
        ensures { takes self.old [] self.new };

    /// Closes the log. Returns how many files were not found again, and how many flushes failed, the last call before this among them
    /// if it was no flush that succeeded.
    fn close(self) -> TeeLosses
        ensures { HasLostNothing result → is_kept self };
}

/// A log that takes everything.
impl TeeLog for io::Sink {
    ghost opens = { λ _ _ _ _ _. Unit {0} };

    ghost takes = { λ _ _ _. Unit {0} };

    ghost is_kept = { λ _. Unit {0} };

    fn put(&mut self, bytes: &[u8]) -> io::Result<usize> {
        Ok(bytes.len())
    }

    fn flush_all(&mut self) -> io::Result<()> {
        Ok(())
    }

    fn give_up(&mut self) {}

    fn close(self) -> TeeLosses {
        TeeLosses::NONE
    }
}

/// Opens a log: one of the file system, or a test's own.
pub trait Logs: Drop {
    /// A log.
    type Log: TeeLog + Send + Drop + 'static;

    /// Opens a log of this rotation in this folder. The names of its files begin with `prefix`. `Fault::Open`, `Fault::Locked` if
    /// another process may remove its files, or `Fault::Input` if the standard input is read from its open file.
    fn open_log(
        self,
        rotation: Rotation,
        directory: &str,
        prefix: &str,
        options: &Options,
    ) -> Result<Self::Log, Fault>
        ensures { IfOk result (λ log. Self.Log.opens rotation directory.now prefix.now options.now log) };
}

impl Logs for HostRuntime {
    type Log = DirLog<HostRuntime>;

    fn open_log(
        self,
        rotation: Rotation,
        directory: &str,
        prefix: &str,
        options: &Options,
    ) -> Result<DirLog<HostRuntime>, Fault> {
        let log = asked_log(self, rotation, directory, prefix, options)?;
        if is_input(&self, log.open_file()) {
            return Err(Fault::Input);
        }
        Ok(log)
    }
}

// Opens the log that is asked for.
fn asked_log(
    rt: HostRuntime,
    rotation: Rotation,
    directory: &str,
    prefix: &str,
    options: &Options,
) -> Result<DirLog<HostRuntime>, Fault>
    ensures { IfOk result (λ log. ⟦<DirLog<HostRuntime> as TeeLog>⟧.opens rotation directory.now prefix.now options.now log) }
{
    let settings = settings(rt.alloc(), rotation, prefix, options)?;
    let (opener, check) = prepared(rt, settings, directory, prefix, options)?;
    let log = FileLog::new(opener, check, options.has(OptionName::WholeLines))?;
    Ok(log)
}

// Returns what opens the log and what looks at its file, once the folder is locked if that is to be.
fn prepared(
    rt: HostRuntime,
    settings: Builder,
    directory: &str,
    prefix: &str,
    options: &Options,
) -> Result<(DirOpener<HostRuntime>, DirCheck<HostRuntime>), Fault>
    ensures { IfOk result (λ made. (made.0.settings ≡ settings) × (string_bytes made.0.directory ≡ directory.now)) }
{
    let title = title(rt.alloc(), directory, prefix).map_err(InitError::from)?;
    let title = title.as_str();
    let lock = locked(&rt, &settings, directory, prefix, title, options)?;
    let check = DirCheck::new(rt, &settings, directory, title, options)?;
    let opener = DirOpener::new(rt, settings, directory, title, options, lock)?;
    Ok((opener, check))
}

// Locks the log if it may remove files.
fn locked(
    rt: &HostRuntime,
    settings: &Builder,
    directory: &str,
    prefix: &str,
    title: &str,
    options: &Options,
) -> Result<Option<File>, Fault> {
    if !options.has(OptionName::Keep) {
        return Ok(None);
    }
    prepare_dir(rt, settings, directory, options.text(OptionName::Link))?;
    lock_log(rt, directory, prefix, title)
}

// Returns whether the standard input is read from this file. If that can't be seen, it isn't.
fn is_input(rt: &HostRuntime, file: &File) -> bool {
    match (fs::metadata(rt, "/dev/stdin"), file.metadata()) {
        (Ok(input), Ok(opened)) => input.dev() == opened.dev() && input.ino() == opened.ino(),
        _ => false,
    }
}

/// Opens a log in a folder of the file system, by the system's clock.
#[derive(Drop)]
pub struct DirOpener<R> {
    rt: R,
    settings: Builder,
    directory: String,
    // What each notice begins with.
    title: String,
    // The name of the link, if it is not empty.
    link: String,
    // Whether each flush syncs.
    syncs: bool,
    // Is closed with the log.
    _lock: Option<File>,
}

impl<R: AllocGlobal + Drop> DirOpener<R> {
    /// Returns the opener of a log with these settings and options. The lock is kept with it. `InitError::Memory` if memory is
    /// refused.
    pub fn new(
        rt: R,
        settings: Builder,
        directory: &str,
        title: &str,
        options: &Options,
        lock: Option<File>,
    ) -> Result<DirOpener<R>, InitError>
        ensures { IfOk result (λ opener. (opener.settings ≡ settings) × (string_bytes opener.directory ≡ directory.now)) }
    {
        let alloc = rt.alloc();
        let link = String::from_str(alloc, options.text(OptionName::Link))?;
        Ok(DirOpener {
            rt,
            settings,
            directory: String::from_str(alloc, directory)?,
            title: String::from_str(alloc, title)?,
            link,
            syncs: options.has(OptionName::Sync),
            _lock: lock,
        })
    }
}

impl<R: FilesHost + std::time::Clock> Opens<DirFolder<R>, SystemClock<R>> for DirOpener<R> {
    ghost use Rattle.std.specs.Prelude.{◌≡◌, string_bytes};
    ghost use Rattle.tracing_appender.specs.Calls.{base_path};

    ghost config = { λ opener. opener.settings };

    ghost directory = { λ opener. string_bytes opener.directory };

    ghost is_at = { λ directory folder. folder.path ≡ base_path directory };

    fn open(&self) -> Result<RollingFile<DirFolder<R>, SystemClock<R>>, InitError> {
        let directory = self.directory.as_str();
        let folder = DirFolder::new(self.rt.clone()?, directory)?.titled(self.title.as_str())?;
        let folder = if self.syncs { folder.synced() } else { folder };
        open_dir(
            &self.rt,
            &self.settings,
            directory,
            self.link.as_str(),
            folder,
        )
    }
}

// Returns the settings of the log.
fn settings(
    alloc: Global,
    rotation: Rotation,
    prefix: &str,
    options: &Options,
) -> Result<Builder, InitError>
    ensures { IfOk result (λ builder. builder ≡ config_of rotation prefix.now options.now) }
{
    let named = Builder::new()
        .rotation(rotation)
        .filename_prefix(alloc, prefix)?
        .filename_suffix(alloc, without_dot(options.text(OptionName::Suffix)))?;
    let linked = named.latest_symlink(alloc, options.text(OptionName::Link))?;
    Ok(
        linked
            .optional_symlink(true)
            .max_log_files(options.number(OptionName::Keep) as usize)
            .log_files_by_name(true)
            .max_file_bytes(options.number(OptionName::MaxBytes))
            .continue_last_file(true),
    )
}

// Returns a suffix without a dot at its beginning: names have one before the suffix.
fn without_dot(suffix: &str) -> &str
    ensures { result.now ≡ undotted suffix.now }
{
    match suffix.strip_prefix('.') {
        Some(rest) => rest,
        None => suffix,
    }
}

/// A log in the file system.
pub type DirLog<R> = FileLog<DirFolder<R>, SystemClock<R>, DirCheck<R>, DirOpener<R>>;
