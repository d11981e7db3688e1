// Files of the system of which one is opened while a link has its name.

use std::alloc::{Allocator, Global};
use std::cell::Cell;
use std::fmt::Display;
use std::fs::{File, Metadata, OpenOptions};
use std::io;
use std::rt::Files;

/// The system. Just before the next opening a link to `target` replaces what has the file's name. Just after it
/// that link is removed, and an empty file has the name.
#[derive(Clone, Copy)]
pub(crate) struct Swapping<'a> {
    rt: HostRuntime,
    target: &'a Cell<Option<&'static str>>,
}

impl<'a> Swapping<'a> {
    pub(crate) fn new(rt: HostRuntime, target: &'a Cell<Option<&'static str>>) -> Swapping<'a> {
        Swapping { rt, target }
    }
}

impl Alloc for Swapping<'_> {
    type A = Global;

    fn alloc(&self) -> Global {
        self.rt.alloc()
    }
}

impl Eprint for Swapping<'_> {
    fn eprint<D: Display + Drop>(&self, value: D) -> io::Result<()> {
        self.rt.eprint(value)
    }

    fn eprintln<D: Display + Drop>(&self, value: D) -> io::Result<()> {
        self.rt.eprintln(value)
    }
}

#[rattlefmt::skip]
impl Files for Swapping<'_> {
    type File = File;

    type Dir = <HostRuntime as Files>::Dir;

    fn open_file(&self, how: &OpenOptions, path: &str) -> io::Result<File> {
        let Some(target) = self.target.take() else {
            return self.rt.open_file(how, path);
        };
        self.rt.remove_file(path)?;
        self.rt.symlink(target, path)?;
        let file = self.rt.open_file(how, path)?;
        self.rt.remove_file(path)?;
        File::create_new(&self.rt, path)?;
        Ok(file)
    }

    fn open_dir(&self, path: &str) -> io::Result<Self::Dir> { self.rt.open_dir(path) }
    fn metadata(&self, path: &str) -> io::Result<Metadata> { self.rt.metadata(path) }
    fn symlink_metadata(&self, path: &str) -> io::Result<Metadata> { self.rt.symlink_metadata(path) }
    fn copy(&self, from: &str, to: &str) -> io::Result<u64> { self.rt.copy(from, to) }
    fn rename(&self, from: &str, to: &str) -> io::Result<()> { self.rt.rename(from, to) }
    fn remove_file(&self, path: &str) -> io::Result<()> { self.rt.remove_file(path) }
    fn create_dir(&self, path: &str) -> io::Result<()> { self.rt.create_dir(path) }
    fn remove_dir(&self, path: &str) -> io::Result<()> { self.rt.remove_dir(path) }
    fn remove_dir_all<B: Allocator>(&self, alloc: B, path: &str) -> io::Result<()> {
        self.rt.remove_dir_all(alloc, path)
    }
    fn symlink(&self, original: &str, link: &str) -> io::Result<()> { self.rt.symlink(original, link) }
}
