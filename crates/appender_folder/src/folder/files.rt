// Files of a folder whose path ends with a slash. Links are never followed.
ghost use Rattle.std.specs.Prelude.{IfOk, OnOk};
ghost use Rattle.appender_names.specs.Name.{IsEntry};

use appender_names::names::is_entry_name;
use std::alloc::Global;
use std::fs::{Metadata, OpenFile, OpenOptions};
use std::io::{Error, ErrorKind};
use std::os::unix::fs::{MetadataExt, OpenOptionsExt};
use std::rt::Files;
use std::{fs, io};

/// Opens a plain file for appends, or makes an empty one with these permission bits if the name is free. Returns whether it
/// made the file.
pub(super) fn open_plain<R: Files + AllocGlobal>(
    rt: &R,
    folder: &str,
    name: &str,
    mode: u32,
) -> io::Result<(R::File, bool)>
    ensures { OnOk result (IsEntry name.now) }
{
    let path = entry_path(rt.alloc(), folder, name)?;
    let path = path.as_str();
    match fs::symlink_metadata(rt, path) {
        Ok(found) => Ok((open_found(rt, path, &found)?, false)),
        Err(fault) if fault.kind() == ErrorKind::NotFound => make_plain(rt, path, mode),
        Err(fault) => Err(fault),
    }
}

// Another program may have made the file since the name was found free: then that one is opened. `create_new`
// fails if the name is in use, and does not follow a link that was made meanwhile.
fn make_plain<R: Files>(rt: &R, path: &str, mode: u32) -> io::Result<(R::File, bool)> {
    let made = OpenOptions::new()
        .append(true)
        .create_new(true)
        .mode(mode)
        .open(rt, path);
    match made {
        Err(fault) if fault.kind() == ErrorKind::AlreadyExists => {
            let found = fs::symlink_metadata(rt, path)?;
            Ok((open_found(rt, path, &found)?, false))
        }
        made => Ok((made?, true)),
    }
}

fn open_found<R: Files>(rt: &R, path: &str, found: &Metadata) -> io::Result<R::File> {
    if found.is_file() {
        open_standing(rt, path)
    } else {
        Err(not_plain())
    }
}

// A link may have been made since the check: what was opened has to be the plain file that the name leads
// to now, while it is open and its number can't be another's. Nor may the file have a second name, by a
// hard link, since lines would then be in a file that is not a log.
fn open_standing<R: Files>(rt: &R, path: &str) -> io::Result<R::File> {
    let file = open_to_append(rt, path)?;
    let opened = file.metadata()?;
    let named = fs::symlink_metadata(rt, path)?;
    if !is_same_file(&named, &opened) {
        Err(not_plain())
    } else if opened.nlink() > 1 {
        Err(Error::new(ErrorKind::AlreadyExists, "a file with a second hard link"))
    } else {
        Ok(file)
    }
}

// It is opened for reading too, so that a pipe that was made since the check doesn't wait for a reader. A
// file that can't be read is opened only for appends.
fn open_to_append<R: Files>(rt: &R, path: &str) -> io::Result<R::File> {
    match OpenOptions::new().read(true).append(true).open(rt, path) {
        Err(fault) if fault.kind() == ErrorKind::PermissionDenied => {
            OpenOptions::new().append(true).open(rt, path)
        }
        opened => opened,
    }
}

/// Returns whether a name leads to this open file. A free name doesn't.
pub(super) fn is_named<R: Files + AllocGlobal>(
    rt: &R,
    folder: &str,
    file: &R::File,
    name: &str,
) -> io::Result<bool> {
    let path = entry_path(rt.alloc(), folder, name)?;
    let opened = file.metadata()?;
    match fs::symlink_metadata(rt, path.as_str()) {
        Ok(named) => Ok(is_same_file(&named, &opened)),
        Err(fault) if fault.kind() == ErrorKind::NotFound => Ok(false),
        Err(fault) => Err(fault),
    }
}

// Whether what a name leads to is a plain file, and this one.
fn is_same_file(named: &Metadata, opened: &Metadata) -> bool {
    named.is_file() && named.dev() == opened.dev() && named.ino() == opened.ino()
}

/// Removes a plain file. It looks first, since `remove_file` would also remove a link.
pub(super) fn remove_plain<R: Files + AllocGlobal>(
    rt: &R,
    folder: &str,
    name: &str,
) -> io::Result<()>
    ensures { OnOk result (IsEntry name.now) }
{
    let path = entry_path(rt.alloc(), folder, name)?;
    let path = path.as_str();
    if fs::symlink_metadata(rt, path)?.is_file() {
        fs::remove_file(rt, path)
    } else {
        Err(not_plain())
    }
}

fn not_plain() -> Error {
    Error::new(ErrorKind::AlreadyExists, "not a plain file")
}

/// Returns the path of an entry. What can't be the name of one has none, so that no call leaves the folder.
pub(super) fn entry_path(alloc: Global, folder: &str, name: &str) -> io::Result<String>
    ensures { IfOk result (λ path. IsEntry name.now) }
{
    if !is_entry_name(name) {
        return Err(Error::new(ErrorKind::InvalidInput, "not the name of an entry"));
    }
    let length = folder.len().saturating_add(name.len());
    let mut path = String::with_capacity(alloc, length)?;
    path.push_str(folder)?;
    path.push_str(name)?;
    Ok(path)
}
