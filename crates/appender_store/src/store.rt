//! A folder as an appender sees it, and one in memory.
ghost use Rattle.std.specs.Prelude.{◌≡◌, ◌⊎◌, ◌<◌, ◌≤◌, ◌^◌, ℕ, Bool, true, Some, length, take, is_none, IsTrue, IfOk, OnOk, OnErr, List, Option, Result, Vec};
ghost use Rattle.std.specs.FinMap as fin;
ghost use Rattle.std.specs.declared.alloc.Global.{Global};
ghost use Rattle.std.specs.declared.io.Error.{Error};
ghost use Rattle.appender_store.specs.Content.{Content, IsSound, OpensBody, Removes, RemovesLink, MakesLink, after_append, after_make_folder, body_at, ForbidsOpen, ForbidsRemove, ForbidsRemoveLink, ForbidsMakeLink, ForbidsList};
ghost use Rattle.appender_store.specs.Folder.{AreNotedCounts, NotedCounts, NoticeMessage, after_note, message_of, notice_kind_of, Lists, HasCause, IsOneMore};

mod calls;
mod entries;
mod memory;
mod notices;
mod put;

use appender_names::error::InitError;
pub use memory::{MemoryFile, MemoryFolder};
pub use notices::NoticeCounts;
pub use put::PutError;
use std::io;

/// What a name leads to.
#[derive(Clone, Copy, Debug, PartialEq, Eq)]
pub enum Kind {
    /// A plain file.
    File,
    /// A folder.
    Folder,
    /// A symbolic link, which is not followed.
    Link,
    /// Anything else, or what could not be read.
    Other,
}

/// An entry of a listing.
#[derive(Debug, Drop)]
pub struct Listed {
    /// The name; `None` if it is not UTF-8.
    pub name: Option<String>,
    /// What the name leads to.
    pub kind: Kind,
    /// The creation time in nanoseconds since 1970-01-01 00:00:00 UTC, if it is known.
    pub created: Option<i128>,
}

/// A fault that an appender goes on after.
#[derive(Clone, Copy, Debug)]
pub enum Notice<'a> {
    /// The folder was not listed, or there was no memory to choose what is removed.
    List(&'a io::Error),
    /// The file of this name was not removed.
    Remove(&'a str, &'a io::Error),
    /// The old file was not flushed.
    Flush(&'a io::Error),
    /// The new file was not opened, and the old one stays open.
    Open(&'a InitError),
}

/// The kinds of `Notice`, by which they are counted.
#[derive(Clone, Copy, Debug, PartialEq, Eq)]
pub enum NoticeKind {
    /// Of `Notice::List`.
    List,
    /// Of `Notice::Remove`.
    Remove,
    /// Of `Notice::Flush`.
    Flush,
    /// Of `Notice::Open`.
    Open,
}

/// A folder that log files are written to. A call that returns an `Err` has changed nothing in it. There
/// are three causes: `failures` counted the call; memory was refused (`OutOfMemory`); or what the folder
/// contains forbids the call.
pub trait Folder: Drop {
    ghost use Rattle.appender_store.specs.declared.store.Listed.{Listed};

    /// A file that is open for appends.
    type File: Drop;

    /// Whether the contracts say what folders of this kind contain.
    ghost is_known: { Bool };

    /// What it contains, if that is known.
    ghost content: { Self → Content };

    /// The number of the body that an open file writes to.
    ghost body: { Self.File → ℕ };

    /// Whether the last opening that succeeded made its file.
    ghost made_file: { Self → Bool };

    /// The number of calls that failed by themselves: at most `u64::MAX`, where it stays.
    ghost failures: { Self → ℕ };

    /// The count of each kind of notice: at most `u64::MAX`, where it stays.
    ghost noted: { Self → NotedCounts };

    // What else one call does, as the kind of folder defines it. Generic code can show it only by making
    // the call.
    ghost list_gives: { Self → Result (Vec Listed Global) Error → Self → Type 0 };

    ghost remove_gives: { Self → List ℕ → Result (Unit {0}) Error → Self → Type 0 };

    ghost open_gives: { Self → List ℕ → Result Self.File Error → Self → Type 0 };

    ghost make_folder_gives: { Self → Result (Unit {0}) Error → Self → Type 0 };

    ghost remove_link_gives: { Self → List ℕ → Result (Unit {0}) Error → Self → Type 0 };

    ghost make_link_gives: { Self → List ℕ → List ℕ → Result (Unit {0}) Error → Self → Type 0 };

    ghost append_gives: { Self → Self.File → List ℕ → Result ℕ Error → Self → Self.File → Type 0 };

    ghost flush_gives: { Self → Self.File → Result (Unit {0}) Error → Self → Self.File → Type 0 };

    ghost length_gives: { Self → Self.File → Option ℕ → Type 0 };

    ghost note_gives: { Self → NoticeMessage → Self → Type 0 };

    /// Returns each name of the folder once, in any order. Forbidden if the folder is absent.
    fn list(&mut self) -> io::Result<Vec<Listed>>
        ensures call { list_gives self.old result self.new }
        ensures ok { IfOk result (λ all. IsTrue is_known → Lists (content self.old) all.items) }
        ensures there { OnOk result (IsTrue is_known → (content self.old).there ≡ true) }
        ensures content { content self.new ≡ content self.old }
        ensures cause { HasCause is_known (ForbidsList (content self.old))
            (failures self.old) (failures self.new) result }
        ensures notices { noted self.new ≡ noted self.old };

    /// Removes a file's name; its bytes stay for those who have it open. Forbidden if the folder is absent
    /// or no file has this name.
    fn remove(&mut self, name: &str) -> io::Result<()>
        ensures call { remove_gives self.old name.now result self.new }
        ensures ok { OnOk result (IsTrue is_known →
            Removes name.now (content self.old) (content self.new)) }
        ensures err { OnErr result (content self.new ≡ content self.old) }
        ensures cause { HasCause is_known (ForbidsRemove name.now (content self.old))
            (failures self.old) (failures self.new) result }
        ensures notices { noted self.new ≡ noted self.old };

    /// Opens the file of this name for appends, with the bytes that it has, or makes an empty one.
    /// Forbidden if the folder is absent, or a folder or a link has this name.
    fn open(&mut self, name: &str) -> io::Result<Self::File>
        ensures call { open_gives self.old name.now result self.new }
        ensures ok { IfOk result (λ file. IsTrue is_known →
            OpensBody name.now (content self.old) (content self.new) (body file)) }
        ensures there { IfOk result (λ file. IsTrue is_known →
            body file < length (content self.new).bodies) }
        ensures made { OnOk result (IsTrue is_known →
            made_file self.new ≡ is_none (fin.get (content self.old).names name.now)) }
        ensures err { OnErr result (content self.new ≡ content self.old) }
        ensures cause { HasCause is_known (ForbidsOpen name.now (content self.old))
            (failures self.old) (failures self.new) result }
        ensures notices { noted self.new ≡ noted self.old };

    /// Makes the folder itself, if it is absent.
    fn make_folder(&mut self) -> io::Result<()>
        ensures call { make_folder_gives self.old result self.new }
        ensures ok { OnOk result (IsTrue is_known → content self.new ≡ after_make_folder (content self.old)) }
        ensures err { OnErr result (content self.new ≡ content self.old) }
        ensures cause { HasCause is_known ⊥ (failures self.old) (failures self.new) result }
        ensures notices { noted self.new ≡ noted self.old };

    /// Removes a link. Forbidden if the folder is absent or no link has this name. If memory is refused,
    /// `failures` counts the call too.
    fn remove_link(&mut self, name: &str) -> io::Result<()>
        ensures call { remove_link_gives self.old name.now result self.new }
        ensures ok { OnOk result (IsTrue is_known →
            RemovesLink name.now (content self.old) (content self.new)) }
        ensures err { OnErr result (content self.new ≡ content self.old) }
        ensures cause { HasCause is_known (ForbidsRemoveLink name.now (content self.old))
            (failures self.old) (failures self.new) result }
        ensures memory { OnErr result (IsOneMore (failures self.old) (failures self.new)
            ⊎ (IsTrue is_known × ForbidsRemoveLink name.now (content self.old))) }
        ensures notices { noted self.new ≡ noted self.old };

    /// Makes a link of this name to a target, which need not exist. Forbidden if the folder is absent or
    /// the name is in use.
    fn make_link(&mut self, name: &str, target: &str) -> io::Result<()>
        ensures call { make_link_gives self.old name.now target.now result self.new }
        ensures ok { OnOk result (IsTrue is_known →
            MakesLink name.now target.now (content self.old) (content self.new)) }
        ensures err { OnErr result (content self.new ≡ content self.old) }
        ensures cause { HasCause is_known (ForbidsMakeLink name.now (content self.old))
            (failures self.old) (failures self.new) result }
        ensures notices { noted self.new ≡ noted self.old };

    /// Adds the first of these bytes at the end of an open file of this folder, and returns how many were
    /// added.
    fn append(&mut self, file: &mut Self::File, bytes: &[u8]) -> io::Result<usize>
        requires { IsTrue is_known → body file.old < length (content self.old).bodies }
        ensures call { append_gives self.old file.old bytes.now result self.new file.new }
        ensures bound { IfOk result (λ n. n ≤ length bytes.now) }
        ensures ok { IfOk result (λ n. IsTrue is_known →
            content self.new ≡ after_append (content self.old) (body file.old) (take n bytes.now)) }
        ensures err { OnErr result (content self.new ≡ content self.old) }
        ensures file { body file.new ≡ body file.old }
        ensures cause { HasCause is_known ⊥ (failures self.old) (failures self.new) result }
        ensures notices { noted self.new ≡ noted self.old };

    /// Writes out what is buffered of an open file of this folder.
    fn flush(&mut self, file: &mut Self::File) -> io::Result<()>
        ensures call { flush_gives self.old file.old result self.new file.new }
        ensures content { content self.new ≡ content self.old }
        ensures file { body file.new ≡ body file.old }
        ensures cause { HasCause is_known ⊥ (failures self.old) (failures self.new) result }
        ensures notices { noted self.new ≡ noted self.old };

    /// Returns whether the last call of `open` that succeeded made the file, whose name was free.
    fn made_file(&self) -> bool
        ensures { result ≡ made_file self.now };

    /// Returns the length of an open file of this folder in bytes, if it can be told.
    fn length(&self, file: &Self::File) -> Option<u64>
        requires { IsTrue is_known → body file.now < length (content self.now).bodies }
        ensures call { length_gives self.now file.now result }
        ensures known { IsTrue is_known →
            result ≡ Some (length (body_at (content self.now) (body file.now))) };

    /// Reports a fault that the appender goes on after.
    fn note(&mut self, notice: Notice<'_>)
        ensures call { note_gives self.old (message_of notice.entry) self.new }
        ensures content { content self.new ≡ content self.old }
        ensures failures { failures self.new ≡ failures self.old }
        ensures notices { noted self.new ≡
            after_note (notice_kind_of (message_of notice.entry)) (noted self.old) };

    /// Returns the number of calls that failed by themselves: at most `u64::MAX`, where it stays. A call that
    /// the content forbids, or that finds no memory, counts only if it also failed by itself.
    fn failures(&self) -> u64
        ensures { result ≡ failures self.now };

    /// The count is of 64 bits.
    ghost failures_fit: { (folder : Self) → failures folder < 2 ^ 64 };

    /// So is that of each kind of notice.
    ghost noted_fit: { (folder : Self) → AreNotedCounts (noted folder) };

    /// Each file's name leads to a body that is there, and no body has two names.
    ghost sound: { (folder : Self) → IsTrue is_known → IsSound (content folder) };
}
