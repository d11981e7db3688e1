//! A disk in memory, and its faults.

use std::alloc::{AllocError, Global};
use std::cell::{Cell, RefCell, RefMut};
use std::fmt::{Display, Write as _};
use std::fs::Metadata;
use std::io;
use std::io::{Error, ErrorKind};
use std::time::Duration;

/// The path of the one folder that a disk has.
pub const FOLDER: &str = "log/";

/// The sorts of calls that can each be made to fail, named as std's traits name them.
#[derive(Clone, Copy, PartialEq, Eq)]
pub enum Call {
    OpenDir,
    OpenFile,
    RemoveFile,
    CreateDir,
    Symlink,
    Rename,
    Flush,
    Sync,
    /// Any other call.
    Other,
}

/// The result of a call that fails.
#[derive(Clone, Copy)]
pub enum DiskFault {
    /// An error of this kind.
    Kind(ErrorKind),
    /// The system's error of this number.
    Number(i32),
}

impl DiskFault {
    pub(crate) fn error(self) -> Error {
        match self {
            DiskFault::Kind(kind) => Error::from(kind),
            DiskFault::Number(number) => Error::from_raw_os_error(number),
        }
    }
}

/// What happens at a call.
#[derive(Clone, Copy)]
pub enum Event {
    /// It fails.
    Fails,
    /// Just before it a name becomes an entry of this kind with these bytes.
    Comes(&'static str, Kind, &'static str),
    /// Just before it a name is removed.
    Goes(&'static str),
}

/// What an entry is.
#[derive(Clone, Copy)]
pub enum Kind {
    /// A plain file.
    File,
    /// A symbolic link, whose target is its bytes.
    Link,
    /// A folder.
    Folder,
    /// A pipe without a reader.
    Pipe,
}

// A removed name is empty. The contents of its file are kept.
#[derive(Drop)]
pub(crate) struct Entry {
    pub(crate) name: Vec<u8>,
    kind: Kind,
    // The contents of a file, or the target of a link.
    pub(crate) bytes: Vec<u8>,
}

impl Entry {
    pub(crate) fn metadata(&self) -> Metadata {
        let length = self.bytes.len() as u64;
        match self.kind {
            Kind::File => Metadata::of_file(length),
            Kind::Link => Metadata::of_symlink(length),
            // std has no metadata of a pipe. That of a folder also shows that it is no plain file.
            Kind::Folder | Kind::Pipe => Metadata::of_dir(),
        }
    }

    fn line(&self, alloc: Global) -> Result<String, AllocError> {
        let name = text_of(self.name.as_slice());
        let mark = match self.kind {
            Kind::File => " ",
            Kind::Link => " -> ",
            Kind::Folder => "/",
            Kind::Pipe => "|",
        };
        let text = text_of(self.bytes.as_slice());
        format!(in alloc; "{name}{mark}{text}\n")
    }
}

// Returns the contents of all files, one after the other.
fn all_files(alloc: Global, entries: &[Entry]) -> Result<String, AllocError> {
    let mut all = String::new(alloc);
    for entry in entries {
        if matches!(entry.kind, Kind::File) {
            all.push_str(text_of(entry.bytes.as_slice()))?;
        }
    }
    Ok(all)
}

fn text_of(bytes: &[u8]) -> &str {
    str::from_utf8(bytes).unwrap_or("(no text)")
}

// Returns the number and the entry of a name.
pub(crate) fn find<'a>(entries: &'a [Entry], name: &[u8]) -> io::Result<(usize, &'a Entry)> {
    let mut number = 0usize;
    for entry in entries {
        if entry.name.as_slice() == name {
            return Ok((number, entry));
        }
        number = number.saturating_add(1);
    }
    Err(Error::from(ErrorKind::NotFound))
}

// Returns the name at a place of the listing, ended by a zero byte, or nothing after the last name.
// A removed name has no place.
pub(crate) fn listed_name(
    alloc: Global,
    entries: &[Entry],
    place: usize,
) -> Result<Vec<u8>, AllocError> {
    let mut line = Vec::new(alloc);
    let mut left = place;
    for entry in entries {
        if !entry.name.is_empty() {
            if left == 0 {
                line.extend_from_slice(entry.name.as_slice())?;
                line.push(0)?;
                return Ok(line);
            }
            left = left.saturating_sub(1);
        }
    }
    Ok(line)
}

pub(crate) fn take_name(entries: &mut [Entry], name: &[u8]) {
    for entry in entries {
        if entry.name.as_slice() == name {
            entry.name.clear();
        }
    }
}

/// A disk of one folder. Calls fail only if a test asks for it, which it may at any moment.
/// Files have no creation moments, and a file's contents are kept after its name is removed.
#[derive(Drop)]
pub struct Disk {
    pub(crate) alloc: Global,
    /// What happens at the call of this number; the first one has number 1.
    pub event: Cell<(usize, Event)>,
    /// Each call of this sort fails.
    pub fails_each: Cell<Option<Call>>,
    /// The result of a call that fails.
    pub fault: Cell<DiskFault>,
    /// The most bytes that one write takes.
    pub takes: Cell<Option<usize>>,
    /// The number of bytes for which there is room.
    pub room: Cell<Option<usize>>,
    /// No file may be read.
    pub hides_bytes: Cell<bool>,
    /// The metadata of this name can't be read.
    pub hides: Cell<Option<&'static str>>,
    /// The time of the clock since 1970, if it can be read.
    pub time: Cell<Option<Duration>>,
    calls: Cell<usize>,
    pub(crate) syncs: Cell<usize>,
    waits: Cell<usize>,
    pub(crate) has_folder: Cell<bool>,
    // In the order of a listing.
    entries: RefCell<Vec<Entry>>,
    printed: Cell<String>,
}

impl Disk {
    /// Returns a disk whose folder exists and is empty.
    pub fn new(alloc: Global) -> Disk {
        Disk {
            alloc,
            event: Cell::new((0, Event::Fails)),
            fails_each: Cell::new(None),
            fault: Cell::new(DiskFault::Kind(ErrorKind::PermissionDenied)),
            takes: Cell::new(None),
            room: Cell::new(None),
            hides_bytes: Cell::new(false),
            hides: Cell::new(None),
            time: Cell::new(None),
            calls: Cell::new(0),
            syncs: Cell::new(0),
            waits: Cell::new(0),
            has_folder: Cell::new(true),
            entries: RefCell::new(Vec::new(alloc)),
            printed: Cell::new(String::new(alloc)),
        }
    }

    /// Sets the clock, in seconds since 1970.
    pub fn set_seconds(&self, seconds: u64) {
        self.time.set(Some(Duration::from_secs(seconds)));
    }

    /// Removes the folder with all names in it.
    pub fn remove_folder(&self) -> io::Result<()> {
        self.has_folder.set(false);
        for entry in self.entries()?.iter_mut() {
            entry.name.clear();
        }
        Ok(())
    }

    /// Returns the number of calls that were made.
    pub fn calls(&self) -> usize {
        self.calls.get()
    }

    /// Returns the number of openings that would have waited for ever.
    pub fn waits(&self) -> usize {
        self.waits.get()
    }

    /// Returns how often the data of a file was synced.
    pub fn syncs(&self) -> usize {
        self.syncs.get()
    }

    /// Returns the names in byte order, one line each, with their contents.
    pub fn contents(&self) -> io::Result<String> {
        let mut lines = Vec::new(self.alloc);
        for entry in self.entries()?.iter() {
            if !entry.name.is_empty() {
                lines.push(entry.line(self.alloc)?)?;
            }
        }
        lines.sort_unstable();
        Ok(lines.concat(self.alloc)?)
    }

    /// Returns the contents of all files, one after the other in the order of their creation. Files whose names were
    /// removed are included.
    pub fn all_bodies(&self) -> io::Result<String> {
        Ok(all_files(self.alloc, &self.entries()?)?)
    }

    /// Returns the text that was printed on standard error since the last call of this function.
    pub fn take_printed(&self) -> String {
        self.printed.replace(String::new(self.alloc))
    }

    pub(crate) fn print<D: Display + Drop>(&self, value: D, end: &str) -> io::Result<()> {
        let mut printed = self.take_printed();
        let written = write!(printed, "{value}{end}");
        self.printed.set(printed);
        written?;
        Ok(())
    }

    pub(crate) fn entries(&self) -> io::Result<RefMut<'_, Vec<Entry>>> {
        match self.entries.try_borrow_mut() {
            Ok(entries) => Ok(entries),
            Err(_) => Err(Error::other("a call within a call")),
        }
    }

    /// Puts an entry into the folder, in place of what has the name. That need not be UTF-8.
    pub fn put(&self, name: &[u8], kind: Kind, bytes: &[u8]) -> io::Result<()> {
        let entry = Entry {
            name: name.to_vec(self.alloc)?,
            kind,
            bytes: bytes.to_vec(self.alloc)?,
        };
        let mut entries = self.entries()?;
        take_name(&mut entries, name);
        entries.push(entry)?;
        Ok(())
    }

    // Counts a call, and returns its fault.
    pub(crate) fn begin(&self, call: Call) -> io::Result<()> {
        let number = self.calls.get().saturating_add(1);
        self.calls.set(number);
        let (at, event) = self.event.get();
        if at == number {
            self.happen(event)?;
        }
        if self.fails_each.get() == Some(call) {
            return Err(self.fault.get().error());
        }
        Ok(())
    }

    fn happen(&self, event: Event) -> io::Result<()> {
        match event {
            Event::Fails => return Err(self.fault.get().error()),
            Event::Comes(name, kind, text) => self.put(name.as_bytes(), kind, text.as_bytes())?,
            Event::Goes(name) => take_name(&mut self.entries()?, name.as_bytes()),
        }
        Ok(())
    }

    // Returns the name in a path of the folder, which has to exist. The folder itself has the empty name.
    pub(crate) fn name_in<'a>(&self, path: &'a str) -> io::Result<&'a [u8]> {
        match path.strip_prefix(FOLDER) {
            Some(name) if self.has_folder.get() => Ok(name.as_bytes()),
            _ => Err(Error::from(ErrorKind::NotFound)),
        }
    }

    // Puts an entry whose name has to be new.
    pub(crate) fn put_new(&self, path: &str, kind: Kind, bytes: &[u8]) -> io::Result<()> {
        let name = self.name_in(path)?;
        if find(&self.entries()?, name).is_ok() {
            return Err(Error::from(ErrorKind::AlreadyExists));
        }
        self.put(name, kind, bytes)
    }

    // Gives an entry another name, and takes that from what has it. A folder's name is not taken.
    pub(crate) fn rename(&self, from: &str, to: &str) -> io::Result<()> {
        let (from, to) = (self.name_in(from)?, self.name_in(to)?);
        let name = to.to_vec(self.alloc)?;
        let mut entries = self.entries()?;
        let (number, _) = find(&entries, from)?;
        if matches!(find(&entries, to), Ok((_, entry)) if matches!(entry.kind, Kind::Folder)) {
            return Err(Error::from(ErrorKind::IsADirectory));
        }
        take_name(&mut entries, to);
        if let Some(entry) = entries.get_mut(number) {
            entry.name = name;
        }
        Ok(())
    }

    // Returns the number of a file, also through a link to one. To open a pipe only for writing would wait for a
    // reader.
    pub(crate) fn file_at(&self, path: &str, reads: bool) -> io::Result<usize> {
        let name = self.name_in(path)?;
        let entries = self.entries()?;
        let (number, entry) = find(&entries, name)?;
        match entry.kind {
            Kind::File => Ok(number),
            Kind::Link => Ok(find(&entries, entry.bytes.as_slice())?.0),
            Kind::Folder => Err(Error::from(ErrorKind::IsADirectory)),
            Kind::Pipe if reads => Ok(number),
            Kind::Pipe => {
                self.waits.set(self.waits.get().saturating_add(1));
                Err(Error::other("waits for ever"))
            }
        }
    }
}
