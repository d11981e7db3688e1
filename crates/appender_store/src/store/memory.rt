// A folder in memory, whose calls can be made to fail.
ghost use Rattle.std.specs.Prelude.{◌≡◌, true};
ghost use Rattle.appender_store.specs.Content.{IsSound};
ghost use Rattle.appender_store.specs.Inside.Entries.{content_of};

use super::calls::Calls;
use super::entries::{
    Item, Look, add_bytes, add_file, all_listed, all_names, look_up, put_item, take_name,
};
use super::{Folder, Kind, Listed, Notice, NoticeCounts, NoticeKind, PutError};
use std::alloc::{AllocError, Global};
use std::collections::BTreeMap;
use std::io;

/// A file of a folder in memory, open for appends.
#[derive(Drop)]
pub struct MemoryFile {
    body: usize,
}

/// A folder in memory, whose content is known and whose calls can be made to fail or to be short. Its
/// calls have numbers from 1: all of `Folder` that change it or can fail, and refused ones too. `made_file`,
/// `length`, `note` and `failures` have none. An error is `NotFound` for what is absent, and `AlreadyExists`
/// for a name in use.
///
/// ```
/// use std::alloc::Global;
/// use tracing_appender::rolling::{Builder, Roller, Rotation};
/// use tracing_appender::store::MemoryFolder;
///
/// // The folder then has the files `1970-01-01` with `first` and `1970-01-02` with `second`.
/// pub fn log_two_days(alloc: Global) -> Option<MemoryFolder> {
///     let settings = Builder::new().rotation(Rotation::DAILY);
///     let mut log = Roller::open(alloc, &settings, MemoryFolder::new(alloc), 0).ok()?;
///     let _ = log.put(0, b"first\n");
///     let _ = log.put(86_400, b"second\n");
///     Some(log.into_folder())
/// }
/// ```
#[derive(Drop)]
pub struct MemoryFolder {
    alloc: Global,
    there: bool,
    bodies: Vec<Vec<u8>>,
    names: BTreeMap<String, Item>,
    created: Option<i128>,
    // Whether the last opening that succeeded made its file.
    made_file: bool,
    calls: Calls,
    noted: NoticeCounts,
    ghost sound: { IsSound (content_of there bodies names) },
}

impl MemoryFolder {
    ghost use Rattle.std.specs.Prelude.{◌≡◌, ℕ, List, length, true, false, OnOk, OnErr, IfOk, Some, map, string_bytes, slice_get, Option};
    ghost use Rattle.std.specs.Option.{option_map, option_copied};
    ghost use Rattle.std.specs.FinSet as set;
    ghost use Rattle.std.specs.FinMap as fin;
    ghost use Rattle.appender_store.specs.Content.{Link, Folder, IsLinkOrFolder};
    ghost use Rattle.appender_store.specs.Inside.Entries.{entry_of};
    ghost use Rattle.appender_store.specs.MemoryPut.{AnswersPut};
    ghost use Rattle.appender_store.specs.MemoryState.{empty_state, lesser_limit, with_file, with_entry, without_entry, bytes_in, target_in, kind_in, notice_count};
    ghost use Rattle.appender_store.specs.MemoryView.{state_of};

    /// Returns an empty folder.
    pub fn new(alloc: Global) -> MemoryFolder
        ensures { state_of result ≡ empty_state true }
    {
        MemoryFolder::make(alloc, true)
    }

    /// Returns a folder that is absent.
    pub fn absent(alloc: Global) -> MemoryFolder
        ensures { state_of result ≡ empty_state false }
    {
        MemoryFolder::make(alloc, false)
    }

    fn make(alloc: Global, there: bool) -> MemoryFolder
        ensures { state_of result ≡ empty_state there }
    {
        MemoryFolder {
            alloc,
            there,
            bodies: Vec::new(alloc),
            names: BTreeMap::new(alloc),
            created: None,
            made_file: false,
            calls: Calls::new(alloc),
            noted: NoticeCounts::new(),
        }
    }

    /// Puts a plain file with these bytes as a new body, and makes an absent folder. After an error all is
    /// as it was.
    pub fn put_file(&mut self, name: &str, bytes: &[u8]) -> Result<(), PutError>
        ensures answer { AnswersPut (state_of self.old).content.names name.now result }
        ensures ok { OnOk result
            (state_of self.new ≡ with_file (state_of self.old) name.now bytes.now) }
        ensures err { OnErr result (state_of self.new ≡ state_of self.old) }
    {
        PutError::check(&self.names, name)?;
        let bytes = Vec::from_slice(self.alloc, bytes)?;
        self.enter_file(name, bytes)?;
        Ok(())
    }

    /// Puts a folder, as `put_file` does.
    pub fn put_folder(&mut self, name: &str) -> Result<(), PutError>
        ensures answer { AnswersPut (state_of self.old).content.names name.now result }
        ensures ok { OnOk result
            (state_of self.new ≡ with_entry (state_of self.old) name.now Folder) }
        ensures err { OnErr result (state_of self.new ≡ state_of self.old) }
    {
        PutError::check(&self.names, name)?;
        self.enter(name, Item::Folder)?;
        Ok(())
    }

    /// Puts a link, as `put_file` does. Its target need not exist.
    pub fn put_link(&mut self, name: &str, target: &str) -> Result<(), PutError>
        ensures answer { AnswersPut (state_of self.old).content.names name.now result }
        ensures ok { OnOk result
            (state_of self.new ≡ with_entry (state_of self.old) name.now (Link target.now)) }
        ensures err { OnErr result (state_of self.new ≡ state_of self.old) }
    {
        PutError::check(&self.names, name)?;
        self.enter_link(name, target)?;
        Ok(())
    }

    /// Sets the creation moment that the next files get, in nanoseconds since 1970-01-01 00:00:00 UTC.
    /// At first it is `None`.
    pub fn set_created(&mut self, created: Option<i128>)
        ensures { state_of self.new ≡ record (state_of self.old) { created = created } }
    {
        self.created = created;
    }

    /// Lets the call of this number fail: it counts a failure and returns the error `Other`.
    pub fn fail_call(&mut self, number: u64) -> Result<(), AllocError>
        ensures ok { OnOk result (state_of self.new ≡
            record (state_of self.old) {
              failing = set.insert (state_of self.old).failing number;
            }) }
        ensures err { OnErr result (state_of self.new ≡ state_of self.old) }
    {
        self.calls.fail(number)
    }

    /// Lets the call of this number, if it is an append, take at most `limit` bytes, which is no failure.
    /// The lesser of two limits holds, and a call that is also to fail fails.
    pub fn short_append(&mut self, number: u64, limit: usize) -> Result<(), AllocError>
        ensures ok { OnOk result (state_of self.new ≡
            record (state_of self.old) {
              shortened = fin.insert (state_of self.old).shortened number
                  (lesser_limit (fin.get (state_of self.old).shortened number) limit);
            }) }
        ensures err { OnErr result (state_of self.new ≡ state_of self.old) }
    {
        self.calls.shorten(number, limit)
    }

    /// Returns the bytes of a plain file.
    pub fn bytes(&self, name: &str) -> Option<&[u8]>
        ensures { option_map (λ bytes. bytes.now) result ≡
            bytes_in (state_of self.now).content (fin.get (state_of self.now).content.names name.now) }
    {
        match look_up(&self.names, name) {
            Look::Plain(body) => self.body(body),
            _ => None,
        }
    }

    /// Returns the bytes of a body, also of one that no name leads to any more. Bodies are numbered from 0
    /// in the order in which they were made.
    pub fn body(&self, number: usize) -> Option<&[u8]>
        ensures { option_map (λ bytes. bytes.now) result ≡
            slice_get (state_of self.now).content.bodies number }
    {
        match self.bodies.get(number) {
            Some(bytes) => Some(bytes.as_slice()),
            None => None,
        }
    }

    /// Returns the target of a link.
    pub fn target(&self, name: &str) -> Option<&str>
        ensures { option_map (λ target. target.now) result ≡
            target_in (fin.get (state_of self.now).content.names name.now) }
    {
        match look_up(&self.names, name) {
            Look::Link(target) => Some(target),
            _ => None,
        }
    }

    /// Returns what a name leads to; `None` if it is free.
    pub fn kind(&self, name: &str) -> Option<Kind>
        ensures { result ≡ kind_in (fin.get (state_of self.now).content.names name.now) }
    {
        match look_up(&self.names, name) {
            Look::Free => None,
            Look::Plain(_) => Some(Kind::File),
            Look::Link(_) => Some(Kind::Link),
            Look::Folder => Some(Kind::Folder),
        }
    }

    /// Returns all names in byte order.
    pub fn names(&self) -> Result<Vec<String>, AllocError>
        ensures { IfOk result (λ all.
            map string_bytes all.items ≡ fin.keys (state_of self.now).content.names) }
    {
        all_names(self.alloc, &self.names)
    }

    /// Returns the number of notices of a kind: at most `u64::MAX`, where it stays.
    pub fn notices(&self, kind: NoticeKind) -> u64
        ensures { result ≡ notice_count kind (state_of self.now).noted }
    {
        self.noted.of(kind)
    }

    // Keeps a link or a folder under a name; the folder is then there.
    fn enter(&mut self, name: &str, item: Item) -> Result<(), AllocError>
        requires { IsLinkOrFolder (Some (entry_of item)) }
        ensures ok { OnOk result
            (state_of self.new ≡ with_entry (state_of self.old) name.now (entry_of item)) }
        ensures err { OnErr result (state_of self.new ≡ state_of self.old) }
    {
        put_item(self.alloc, &mut self.names, name, item)?;
        self.there = true;
        Ok(())
    }

    // Keeps a link under a name; the folder is then there.
    fn enter_link(&mut self, name: &str, target: &str) -> Result<(), AllocError>
        ensures ok { OnOk result
            (state_of self.new ≡ with_entry (state_of self.old) name.now (Link target.now)) }
        ensures err { OnErr result (state_of self.new ≡ state_of self.old) }
    {
        let target = String::from_str(self.alloc, target)?;
        self.enter(name, Item::Link(target))
    }

    // Makes a file with a new body of these bytes, and the folder. Returns the body's number.
    fn enter_file(&mut self, name: &str, bytes: Vec<u8>) -> Result<usize, AllocError>
        ensures body { IfOk result (λ b. b ≡ length (state_of self.old).content.bodies) }
        ensures ok { OnOk result
            (state_of self.new ≡ with_file (state_of self.old) name.now bytes.items) }
        ensures err { OnErr result (state_of self.new ≡ state_of self.old) }
    {
        let body = add_file(
            self.alloc,
            &mut self.bodies,
            &mut self.names,
            name,
            bytes,
            self.created,
        )?;
        self.there = true;
        Ok(body)
    }

    // Takes a name away.
    fn take(&mut self, name: &str)
        ensures { state_of self.new ≡ without_entry (state_of self.old) name.now }
    {
        take_name(&mut self.names, name);
    }
}

// No call that the content forbids returns `OutOfMemory`, nor does an opening of an existing file or an append of no bytes.
impl Folder for MemoryFolder {
    ghost use Rattle.std.specs.Prelude.{◌≡◌, true, None};
    ghost use Rattle.std.specs.FinMap as fin;
    ghost use Rattle.appender_store.specs.Folder.{after_note, notice_kind_of};
    ghost use Rattle.appender_store.specs.MemoryState.{CountsCall, NeedsNoMemory, OpensByName, TakesBytes, list_refusal, remove_refusal, remove_link_refusal, make_link_refusal};
    ghost use Rattle.appender_store.specs.MemoryView.{state_of};

    type File = MemoryFile;

    ghost is_known = { true };

    ghost content = { λ f. (state_of f).content };

    ghost body = { λ f. f.body };

    ghost made_file = { λ f. f.made_file };

    ghost failures = { λ f. (state_of f).failures };

    ghost noted = { λ f. (state_of f).noted };

    ghost list_gives = { λ old r new.
        CountsCall (state_of old) (list_refusal (state_of old).content) r (state_of new) };

    ghost remove_gives = { λ old name r new. NeedsNoMemory (state_of old)
        (remove_refusal (fin.get (state_of old).content.names name)) r (state_of new) };

    ghost open_gives = { λ old name r new. OpensByName name (state_of old) r (state_of new) };

    ghost make_folder_gives = { λ old r new. NeedsNoMemory (state_of old) None r (state_of new) };

    ghost remove_link_gives = { λ old name r new. NeedsNoMemory (state_of old)
        (remove_link_refusal (fin.get (state_of old).content.names name)) r (state_of new) };

    ghost make_link_gives = { λ old name target r new. CountsCall (state_of old)
        (make_link_refusal (state_of old).content.there (fin.get (state_of old).content.names name)) r (state_of new) };

    ghost append_gives = { λ old file bytes r new after.
        TakesBytes bytes (state_of old) r (state_of new) };

    ghost flush_gives = { λ old file r new after.
        NeedsNoMemory (state_of old) None r (state_of new) };

    ghost length_gives = { λ f file r. Unit {0} };

    ghost note_gives = { λ old said new.
        state_of new ≡ record (state_of old) { noted = after_note (notice_kind_of said) (state_of old).noted } };

    ghost use Rattle.std.proofs.Common.{arith};

    ghost failures_fit = { λ f. Prim.omega arith };

    ghost noted_fit = { λ f. record {
      lists = Prim.omega arith;
      removes = Prim.omega arith;
      flushes = Prim.omega arith;
      opens = Prim.omega arith;
    } };

    ghost sound = { λ f _. f.sound };

    fn list(&mut self) -> io::Result<Vec<Listed>> {
        self.calls.count()?;
        if !self.there {
            return Err(io::Error::from(io::ErrorKind::NotFound));
        }
        Ok(all_listed(self.alloc, &self.names)?)
    }

    fn remove(&mut self, name: &str) -> io::Result<()> {
        self.calls.count()?;
        match look_up(&self.names, name) {
            Look::Plain(_) => {
                self.take(name);
                Ok(())
            }
            _ => Err(io::Error::from(io::ErrorKind::NotFound)),
        }
    }

    fn open(&mut self, name: &str) -> io::Result<MemoryFile> {
        self.calls.count()?;
        if !self.there {
            return Err(io::Error::from(io::ErrorKind::NotFound));
        }
        match look_up(&self.names, name) {
            Look::Plain(body) => {
                self.made_file = false;
                Ok(MemoryFile { body })
            }
            Look::Free => {
                let empty = Vec::new(self.alloc);
                let body = self.enter_file(name, empty)?;
                self.made_file = true;
                Ok(MemoryFile { body })
            }
            _ => Err(io::Error::from(io::ErrorKind::AlreadyExists)),
        }
    }

    fn make_folder(&mut self) -> io::Result<()> {
        self.calls.count()?;
        self.there = true;
        Ok(())
    }

    fn remove_link(&mut self, name: &str) -> io::Result<()> {
        self.calls.count()?;
        match look_up(&self.names, name) {
            Look::Link(_) => {
                self.take(name);
                Ok(())
            }
            _ => Err(io::Error::from(io::ErrorKind::NotFound)),
        }
    }

    fn make_link(&mut self, name: &str, target: &str) -> io::Result<()> {
        self.calls.count()?;
        if !self.there {
            return Err(io::Error::from(io::ErrorKind::NotFound));
        }
        match look_up(&self.names, name) {
            Look::Free => Ok(self.enter_link(name, target)?),
            _ => Err(io::Error::from(io::ErrorKind::AlreadyExists)),
        }
    }

    fn append(&mut self, file: &mut MemoryFile, bytes: &[u8]) -> io::Result<usize> {
        self.calls.count()?;
        let count = match self.calls.limit() {
            Some(limit) => limit.min(bytes.len()),
            None => bytes.len(),
        };
        add_bytes(&mut self.bodies, file.body, &bytes[..count])?;
        Ok(count)
    }

    // Appended bytes are in memory already.
    fn flush(&mut self, file: &mut MemoryFile) -> io::Result<()> {
        let _ = file;
        self.calls.count()
    }

    fn made_file(&self) -> bool {
        self.made_file
    }

    fn length(&self, file: &MemoryFile) -> Option<u64> {
        match self.bodies.get(file.body) {
            Some(bytes) => Some(bytes.len() as u64),
            None => None,
        }
    }

    fn note(&mut self, notice: Notice<'_>) {
        self.noted.add(notice.kind());
    }

    fn failures(&self) -> u64 {
        self.calls.failures()
    }
}
