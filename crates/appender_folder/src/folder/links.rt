// Links of a folder whose path ends with a slash. They are never followed.
ghost use Rattle.std.specs.Prelude.{OnOk};
ghost use Rattle.appender_names.specs.Name.{IsEntry};

use super::files::entry_path;
use std::alloc::Global;
use std::io::{Error, ErrorKind};
use std::os::unix::fs::symlink;
use std::rt::Files;
use std::{fs, io};

// The most bytes of a link's name that are in its spare name. A spare name has five bytes more, and the name of an
// entry has at most 255.
const LONGEST: usize = 250;

// The most attempts of a replacement. One fails if another process changes the spare name meanwhile. Three threads that
// do nothing but replace one link need up to 230 attempts.
const MOST_ATTEMPTS: u32 = 10_000;

/// Checks that a link has this name. The link stays until `make_link` replaces it.
pub(super) fn check_link<R: Files + AllocGlobal>(rt: &R, folder: &str, name: &str) -> io::Result<()>
    ensures { OnOk result (IsEntry name.now) }
{
    let path = entry_path(rt.alloc(), folder, name)?;
    if fs::symlink_metadata(rt, path.as_str())?.is_symlink() {
        Ok(())
    } else {
        Err(Error::new(ErrorKind::AlreadyExists, "not a link"))
    }
}

/// Makes a symbolic link to a target, which need not exist. A link of the same name is replaced in one step.
/// `AlreadyExists` if a file or a folder has the name.
pub(super) fn make_link<R: Files + AllocGlobal>(
    rt: &R,
    folder: &str,
    name: &str,
    target: &str,
) -> io::Result<()>
    ensures { OnOk result (IsEntry name.now) }
{
    let path = entry_path(rt.alloc(), folder, name)?;
    let path = path.as_str();
    match symlink(rt, target, path) {
        Err(fault) if fault.kind() == ErrorKind::AlreadyExists => {
            if !is_free_or_link(rt, path)? {
                return Err(fault);
            }
            let spare = spare_path(rt.alloc(), folder, name)?;
            replace_link(rt, path, spare.as_str(), target)
        }
        made => made,
    }
}

// Whether a link has this path, or nothing has it any more.
fn is_free_or_link<R: Files>(rt: &R, path: &str) -> io::Result<bool> {
    match fs::symlink_metadata(rt, path) {
        Ok(found) => Ok(found.is_symlink()),
        Err(fault) if fault.kind() == ErrorKind::NotFound => Ok(true),
        Err(fault) => Err(fault),
    }
}

// Returns the path of a new link before it replaces another: a dot, the name, and `.new`.
fn spare_path(alloc: Global, folder: &str, name: &str) -> io::Result<String> {
    let mut path = String::from_str(alloc, folder)?;
    path.push('.')?;
    path.push_str(&name[..name.floor_char_boundary(LONGEST)])?;
    path.push_str(".new")?;
    Ok(path)
}

// Replaces a link. Another process may do the same at this moment, under the same spare path. If it has removed or
// renamed the new link, this begins again.
fn replace_link<R: Files>(rt: &R, path: &str, spare: &str, target: &str) -> io::Result<()> {
    for _ in 0..MOST_ATTEMPTS {
        if renames_new_link(rt, path, spare, target)? {
            return Ok(());
        }
    }
    Err(Error::other("other processes change the link"))
}

// Makes a link under the spare path, and renames it. Returns whether it did. If the spare path is in use, the link
// there is removed. The new link may also be gone before it is renamed.
fn renames_new_link<R: Files>(rt: &R, path: &str, spare: &str, target: &str) -> io::Result<bool> {
    match symlink(rt, target, spare) {
        Ok(()) => {}
        Err(fault) if fault.kind() == ErrorKind::AlreadyExists => {
            remove_spare(rt, spare)?;
            return Ok(false);
        }
        Err(fault) => return Err(fault),
    }
    match fs::rename(rt, spare, path) {
        Ok(()) => Ok(true),
        Err(fault) if fault.kind() == ErrorKind::NotFound => Ok(false),
        Err(fault) => {
            // A fault of the removal is not reported: the next replacement removes the link.
            let _ = fs::remove_file(rt, spare);
            Err(fault)
        }
    }
}

// Removes a link that a killed process left under the spare path, unless it is gone by now.
fn remove_spare<R: Files>(rt: &R, spare: &str) -> io::Result<()> {
    if !is_free_or_link(rt, spare)? {
        return Err(Error::new(
            ErrorKind::AlreadyExists,
            "the name for the new link is in use",
        ));
    }
    match fs::remove_file(rt, spare) {
        Err(fault) if fault.kind() != ErrorKind::NotFound => Err(fault),
        _ => Ok(()),
    }
}
