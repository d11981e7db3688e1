//! The lock of a log whose files a process may remove.
use crate::tee::Fault;
use std::fs::{File, TryLockError};
use std::io::{Error, ErrorKind};
use std::{fs, io};
use tracing_appender::rolling::InitError;

/// Locks the log of this folder and prefix, until the file that is returned is closed: by `.PREFIX.lock` there, which may be
/// another user's. `Fault::Locked` if another process has the lock; `InitError::Memory`.
/// If there can be no lock, as where that name is not a plain file's, standard error says so after `title`, and the result is
/// `None`.
pub fn lock_log(
    rt: &HostRuntime,
    directory: &str,
    prefix: &str,
    title: &str,
) -> Result<Option<File>, Fault> {
    let path = format!(in rt.alloc(); "{directory}/.{prefix}.lock").map_err(InitError::from)?;
    let fault = match open_lock(rt, path.as_str()) {
        Ok(file) => match file.try_lock() {
            Ok(()) => return Ok(Some(file)),
            Err(TryLockError::WouldBlock) => return Err(Fault::Locked),
            Err(TryLockError::Error(fault)) => fault,
        },
        Err(fault) => fault,
    };
    match fault.kind() {
        ErrorKind::OutOfMemory => return Err(Fault::Open(InitError::Memory)),
        ErrorKind::NotFound => {}
        _ => {
            let _ = eprintln!(rt; "{title}.{prefix}.lock can't be locked: {fault}");
        }
    }
    Ok(None)
}

// Opens the file of the lock. One that may only be read is enough for that. A FIFO would wait for a writer.
fn open_lock(rt: &HostRuntime, path: &str) -> io::Result<File> {
    if let Ok(found) = fs::symlink_metadata(rt, path) {
        if !found.is_file() {
            return Err(Error::new(ErrorKind::Other, "no plain file"));
        }
    }
    match File::options().write(true).create(true).open(rt, path) {
        Err(fault) if is_refused(&fault) => File::open(rt, path),
        opened => opened,
    }
}

// Returns whether a file may not be written to.
fn is_refused(fault: &Error) -> bool {
    fault.kind() == ErrorKind::PermissionDenied || fault.kind() == ErrorKind::ReadOnlyFilesystem
}
