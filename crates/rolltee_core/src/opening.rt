//! Openings of a log in a folder of the file system.
ghost use Rattle.std.specs.Prelude.{false, IfOk};
ghost use Rattle.appender_rolling.specs.Appender.{OpensNow};
ghost use Rattle.rolltee_core.specs.Log.{OpensLog};

use appender_names::error::NameFault;
use appender_names::names::is_entry_name;
use std::alloc::Global;
use std::io::{Error, ErrorKind};
use std::rt::Files;
use std::{fs, io, time};
use tracing_appender::folder::{DirFolder, FilesHost};
use tracing_appender::rolling::{Builder, Clock, InitError, RollingFile, SystemClock};
use tracing_appender::store::Folder;

// The most bytes of an entry's name (Linux: `NAME_MAX`), and the error of a longer one (POSIX: `ENAMETOOLONG`).
const MOST_BYTES: usize = 255;

const ENAMETOOLONG: i32 = 36;

/// Makes the folder of a log, so that programs that begin one log at once find it. `link` is the name of its link, or empty.
/// Before that `InitError::Name` if the names are not allowed, and `InitError::File` if those of files are too long.
pub fn prepare_dir<R: Files + AllocGlobal>(
    rt: &R,
    settings: &Builder,
    directory: &str,
    link: &str,
) -> Result<(), InitError> {
    let directory = if directory.is_empty() { "." } else { directory };
    if !link.is_empty() && !is_entry_name(link) {
        return Err(InitError::Name(NameFault::Link));
    }
    // All names of a log are of one length.
    let name = settings.names(rt.alloc())?.file_name(0)?;
    if name.len() > MOST_BYTES {
        return Err(InitError::File(Error::from_raw_os_error(ENAMETOOLONG)));
    }
    match fs::create_dir_all(rt, directory) {
        Ok(()) => Ok(()),
        Err(fault) if fault.kind() == ErrorKind::OutOfMemory => Err(InitError::Memory),
        Err(fault) => Err(InitError::Directory(fault)),
    }
}

/// Prepares this folder, and opens a log in it by the system's clock. If the last file is to be continued and can't be opened,
/// since it has a second hard link or is another user's, the next one is begun.
pub fn open_dir<R: FilesHost + time::Clock>(
    rt: &R,
    settings: &Builder,
    directory: &str,
    link: &str,
    folder: DirFolder<R>,
) -> Result<RollingFile<DirFolder<R>, SystemClock<R>>, InitError>
    ensures { IfOk result (OpensLog ⟦<DirFolder<R> as Folder>⟧ ⟦<SystemClock<R> as Clock>⟧ settings.now folder) }
{
    prepare_dir(rt, settings, directory, link)?;
    let clock = SystemClock::new(rt.clone()?);
    open_log(rt.alloc(), settings, folder, clock)
}

// Opens the log with the file that is next if its last one is refused for more than want of memory or an interruption.
fn open_log<S: Folder, C: Clock>(
    alloc: Global,
    settings: &Builder,
    folder: S,
    clock: C,
) -> Result<RollingFile<S, C>, InitError>
    ensures { IfOk result (OpensLog S.Folder C.Clock settings.now folder) }
{
    match settings.open_in(alloc, folder, clock) {
        Ok(log) => Ok(log),
        Err((InitError::File(fault), folder, clock)) => match fault.kind() {
            ErrorKind::OutOfMemory | ErrorKind::Interrupted => Err(InitError::File(fault)),
            _ => open_next(alloc, settings, folder, clock),
        },
        Err((error, _, _)) => Err(error),
    }
}

fn open_next<S: Folder, C: Clock>(
    alloc: Global,
    settings: &Builder,
    folder: S,
    clock: C,
) -> Result<RollingFile<S, C>, InitError>
    ensures { IfOk result (OpensNow S.Folder C.Clock (record settings.now { continues = false }) folder clock) }
{
    let next = settings.clone()?.continue_last_file(false);
    match next.open_in(alloc, folder, clock) {
        Ok(log) => Ok(log),
        Err((error, _, _)) => Err(error),
    }
}

/// Returns why a log was not opened, as the fault of a write.
pub fn cause_of(error: &InitError) -> io::Error {
    match error {
        InitError::Memory => Error::from(ErrorKind::OutOfMemory),
        _ => error
            .source()
            .unwrap_or(Error::other("log not opened again")),
    }
}
