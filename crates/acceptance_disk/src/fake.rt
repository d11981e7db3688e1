//! The runtime of a program, over a disk in memory.

use crate::disk::{Call, Disk, FOLDER, Kind, find, listed_name, take_name};
use std::alloc::{Allocator, Global};
use std::fmt::Display;
use std::fs::{Metadata, OpenFile, OpenOptions};
use std::io::{Error, ErrorKind, Read, Seek, SeekFrom, Write};
use std::rt::Files;
use std::time::Duration;
use std::{io, time};

fn unsupported_error() -> Error {
    Error::from(ErrorKind::Unsupported)
}

/// A runtime whose files and output are on a disk in memory. Copies share the disk.
#[derive(Clone, Copy)]
pub struct Fake<'a> {
    disk: &'a Disk,
}

impl<'a> Fake<'a> {
    /// Returns the runtime over a disk.
    pub fn new(disk: &'a Disk) -> Fake<'a> {
        Fake { disk }
    }
}

impl Alloc for Fake<'_> {
    type A = Global;

    fn alloc(&self) -> Global {
        self.disk.alloc
    }
}

impl Eprint for Fake<'_> {
    fn eprint<D: Display + Drop>(&self, value: D) -> io::Result<()> {
        self.disk.print(value, "")
    }

    fn eprintln<D: Display + Drop>(&self, value: D) -> io::Result<()> {
        self.disk.print(value, "\n")
    }
}

impl time::Clock for Fake<'_> {
    fn monotonic(&self) -> io::Result<Duration> {
        self.since_1970()
    }

    fn since_1970(&self) -> io::Result<Duration> {
        self.disk.time.get().ok_or_else(unsupported_error)
    }
}

impl<'a> Files for Fake<'a> {
    type File = FakeFile<'a>;

    type Dir = FakeDir<'a>;

    fn open_file(&self, how: &OpenOptions, path: &str) -> io::Result<FakeFile<'a>> {
        how.check()?;
        // Its files are only for appends.
        if !how.asks_append() {
            return Err(unsupported_error());
        }
        let disk = self.disk;
        disk.begin(Call::OpenFile)?;
        if how.asks_create_new() {
            disk.put_new(path, Kind::File, b"")?;
        }
        if how.asks_read() && disk.hides_bytes.get() {
            return Err(Error::from(ErrorKind::PermissionDenied));
        }
        let number = disk.file_at(path, how.asks_read())?;
        Ok(FakeFile { disk, number })
    }

    fn open_dir(&self, path: &str) -> io::Result<FakeDir<'a>> {
        let disk = self.disk;
        disk.begin(Call::OpenDir)?;
        disk.name_in(path)?;
        Ok(FakeDir { disk, place: 0 })
    }

    // Returns the metadata of the folder only.
    fn metadata(&self, path: &str) -> io::Result<Metadata> {
        self.disk.begin(Call::Other)?;
        if self.disk.name_in(path)?.is_empty() {
            Ok(Metadata::of_dir())
        } else {
            Err(unsupported_error())
        }
    }

    fn symlink_metadata(&self, path: &str) -> io::Result<Metadata> {
        let disk = self.disk;
        disk.begin(Call::Other)?;
        match disk.hides.get() {
            Some(name) if path.ends_with(name) => return Err(disk.fault.get().error()),
            _ => {}
        }
        let name = disk.name_in(path)?;
        let entries = disk.entries()?;
        Ok(find(&entries, name)?.1.metadata())
    }

    fn copy(&self, _from: &str, _to: &str) -> io::Result<u64> {
        Err(unsupported_error())
    }

    fn rename(&self, from: &str, to: &str) -> io::Result<()> {
        self.disk.begin(Call::Rename)?;
        self.disk.rename(from, to)
    }

    fn remove_file(&self, path: &str) -> io::Result<()> {
        self.disk.begin(Call::RemoveFile)?;
        let name = self.disk.name_in(path)?;
        let mut entries = self.disk.entries()?;
        find(&entries, name)?;
        take_name(&mut entries, name);
        Ok(())
    }

    fn create_dir(&self, path: &str) -> io::Result<()> {
        let disk = self.disk;
        disk.begin(Call::CreateDir)?;
        if path != FOLDER {
            return Err(unsupported_error());
        }
        if disk.has_folder.replace(true) {
            return Err(Error::from(ErrorKind::AlreadyExists));
        }
        Ok(())
    }

    fn remove_dir(&self, _path: &str) -> io::Result<()> {
        Err(unsupported_error())
    }

    fn remove_dir_all<B: Allocator>(&self, _alloc: B, _path: &str) -> io::Result<()> {
        Err(unsupported_error())
    }

    fn symlink(&self, original: &str, link: &str) -> io::Result<()> {
        self.disk.begin(Call::Symlink)?;
        self.disk.put_new(link, Kind::Link, original.as_bytes())
    }
}

/// A file of a disk, open for appends.
#[derive(Drop)]
pub struct FakeFile<'a> {
    disk: &'a Disk,
    number: usize,
}

impl Read for FakeFile<'_> {
    fn read(&mut self, _buf: &mut [u8]) -> io::Result<usize> {
        Err(unsupported_error())
    }
}

impl Write for FakeFile<'_> {
    fn write(&mut self, buf: &[u8]) -> io::Result<usize> {
        let disk = self.disk;
        disk.begin(Call::Other)?;
        let room = disk.room.get().unwrap_or(usize::MAX);
        if room == 0 && !buf.is_empty() {
            return Err(Error::from(ErrorKind::StorageFull));
        }
        let most = disk.takes.get().unwrap_or(usize::MAX).min(room);
        let count = most.min(buf.len());
        if let Some(entry) = disk.entries()?.get_mut(self.number) {
            entry.bytes.extend_from_slice(&buf[..count])?;
        }
        if disk.room.get().is_some() {
            disk.room.set(Some(room.saturating_sub(count)));
        }
        Ok(count)
    }

    fn flush(&mut self) -> io::Result<()> {
        self.disk.begin(Call::Flush)
    }
}

impl Seek for FakeFile<'_> {
    fn seek(&mut self, _to: SeekFrom) -> io::Result<u64> {
        Err(unsupported_error())
    }
}

impl OpenFile for FakeFile<'_> {
    fn metadata(&self) -> io::Result<Metadata> {
        self.disk.begin(Call::Other)?;
        match self.disk.entries()?.get(self.number) {
            Some(entry) => Ok(entry.metadata()),
            None => Err(Error::from(ErrorKind::NotFound)),
        }
    }

    fn set_len(&self, _size: u64) -> io::Result<()> {
        Err(unsupported_error())
    }

    fn sync_all(&self) -> io::Result<()> {
        Err(unsupported_error())
    }

    fn sync_data(&self) -> io::Result<()> {
        self.disk.begin(Call::Sync)?;
        self.disk.syncs.set(self.disk.syncs.get().saturating_add(1));
        Ok(())
    }
}

/// A listing of a disk. Each read returns one name.
#[derive(Drop)]
pub struct FakeDir<'a> {
    disk: &'a Disk,
    place: usize,
}

impl Read for FakeDir<'_> {
    fn read(&mut self, buf: &mut [u8]) -> io::Result<usize> {
        self.disk.begin(Call::Other)?;
        let line = listed_name(self.disk.alloc, &self.disk.entries()?, self.place)?;
        self.place = self.place.saturating_add(1);
        let mut rest = line.as_slice();
        rest.read(buf)
    }
}
