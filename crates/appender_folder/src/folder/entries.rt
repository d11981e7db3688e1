// The entries of a folder, as they are listed.
use appender_store::store::{Kind, Listed};
use std::alloc::Global;
use std::fs::{DirEntry, Metadata};
use std::rt::Files;
use std::time::UNIX_EPOCH;
use std::{fs, io};

/// Returns all entries of a folder, or the fault that ended the listing, so that no choice is made among
/// only some entries.
pub(super) fn list_entries<R: Files + AllocGlobal + Clone + Drop>(
    rt: &R,
    path: &str,
) -> io::Result<Vec<Listed>> {
    let mut all = Vec::new(rt.alloc());
    for entry in fs::read_dir(rt, path)? {
        all.push(list_entry(rt.alloc(), entry)?)?;
    }
    Ok(all)
}

// Returns an entry, also if its name is not UTF-8 or its metadata can't be read.
fn list_entry<R: Files + Clone + Drop>(
    alloc: Global,
    entry: io::Result<DirEntry<R, Global>>,
) -> io::Result<Listed> {
    let entry = match entry {
        Ok(entry) => entry,
        Err(fault) if is_no_text(&fault) => return Ok(unreadable_entry()),
        Err(fault) => return Err(fault),
    };
    match entry.metadata() {
        Ok(metadata) => Ok(Listed {
            name: Some(String::from_str(alloc, entry.file_name())?),
            kind: kind_of(&metadata),
            created: creation_of(&metadata),
        }),
        Err(_) => Ok(unreadable_entry()),
    }
}

// Returns whether std rejected a name that is not UTF-8: such an error has no number of the system.
fn is_no_text(fault: &io::Error) -> bool {
    fault.kind() == io::ErrorKind::InvalidFilename && fault.raw_os_error().is_none()
}

fn unreadable_entry() -> Listed {
    Listed {
        name: None,
        kind: Kind::Other,
        created: None,
    }
}

fn kind_of(metadata: &Metadata) -> Kind {
    if metadata.is_file() {
        Kind::File
    } else if metadata.is_dir() {
        Kind::Folder
    } else if metadata.is_symlink() {
        Kind::Link
    } else {
        Kind::Other
    }
}

// In nanoseconds since 1970-01-01 00:00:00 UTC, if the file system has it and it is not earlier.
fn creation_of(metadata: &Metadata) -> Option<i128> {
    let since = metadata.created().ok()?.duration_since(UNIX_EPOCH).ok()?;
    i128::try_from(since.as_nanos()).ok()
}
