//! A folder of the file system, as an appender writes to it.
ghost use Rattle.std.specs.Prelude.{◌≡◌, string_bytes, IfOk};
ghost use Rattle.std.specs.Io.KnownBytes.{Keeps};
ghost use Rattle.appender_folder.specs.Calls.{base_path, CountsFailure};

mod entries;
mod files;
mod links;

use appender_store::store::{Folder, Listed, Notice, NoticeCounts, NoticeKind};
use entries::list_entries;
use files::{is_named, open_plain, remove_plain};
use links::{check_link, make_link};
use std::alloc::{AllocError, Global};
use std::fs::OpenFile;
use std::io::{ErrorKind, Write};
use std::marker::Model;
use std::rt::Files;
use std::{fs, io};

/// What a folder of the file system asks of the runtime: files, memory, and standard error for notices.
pub trait FilesHost: Files + AllocGlobal + Eprint + Clone + Drop {}

impl<R: Files + AllocGlobal + Eprint + Clone + Drop> FilesHost for R {}

// The permission bits of a new file, before the umask.
const MODE: u32 = 0o666;

/// A folder of the file system. No contract says what it contains, since other programs write to the disk
/// too. `failures` counts each call that returns an `Err`, also if an opening goes on after it (a folder or
/// a link that is absent). Every call rejects a name that is not a single path component with
/// `InvalidInput`, so that no call leaves the folder. Notices are lines on standard error, after the title if one is set.
#[derive(Drop)]
pub struct DirFolder<R = HostRuntime> {
    rt: R,
    // Ends with a slash.
    path: String,
    // Whether each flush also syncs.
    syncs: bool,
    // The permission bits of new files.
    mode: u32,
    // What each notice begins with.
    title: String,
    // Whether the last opening that succeeded made its file.
    made_file: bool,
    // Why the last link that was to be made was not.
    link_fault: Option<io::Error>,
    failures: u64,
    noted: NoticeCounts,
}

impl<R> Model for DirFolder<R> {
    ghost use Rattle.std.specs.Prelude.{string_bytes};
    ghost use Rattle.appender_folder.specs.Calls.{DirFolderState};

    ghost Value = { DirFolderState };

    ghost view = { λ f. record { path = string_bytes f.path; made_file = f.made_file; failures = f.failures; noted = f.noted } };
}

// Returns the path of a folder with a slash at its end.
fn base_of(alloc: Global, path: &str) -> Result<String, AllocError>
    ensures { IfOk result (λ base. string_bytes base ≡ base_path path.now) }
{
    if path.is_empty() {
        return String::from_str(alloc, "./");
    }
    let mut base = String::from_str(alloc, path)?;
    if !path.ends_with('/') {
        base.push('/')?;
    }
    Ok(base)
}

impl<R: FilesHost> DirFolder<R> {
    ghost use Rattle.std.specs.Prelude.{◌≡◌, ◌%◌, ◌^◌, IfOk};
    ghost use Rattle.appender_store.specs.MemoryState.{notice_count};
    ghost use Rattle.appender_store.specs.NoticeCounts.{notice_counts_of};

    /// Returns the folder at a path, which need not exist; an empty path is the current directory. Nothing
    /// is read or made.
    pub fn new(rt: R, path: &str) -> Result<DirFolder<R>, AllocError>
        ensures path { IfOk result (λ folder. folder.path ≡ base_path path.now) }
        ensures failures { IfOk result (λ folder. folder.failures ≡ 0) }
        ensures notices { IfOk result (λ folder. notice_counts_of folder.noted ≡
            record { lists = 0; removes = 0; flushes = 0; opens = 0 }) }
    {
        let base = base_of(rt.alloc(), path)?;
        let title = String::new(rt.alloc());
        Ok(DirFolder {
            rt,
            path: base,
            syncs: false,
            mode: MODE,
            title,
            made_file: false,
            link_fault: None,
            failures: 0,
            noted: NoticeCounts::new(),
        })
    }

    /// Makes each flush of a file also sync its data to the disk (`fdatasync`), so that what was written before
    /// survives a loss of power.
    #[must_use]
    pub fn synced(mut self) -> DirFolder<R>
        ensures { result ≡ self }
    {
        self.syncs = true;
        self
    }

    /// Sets the permission bits of files that are made from then on, such as `0o640`, instead of `0o666`. The system
    /// clears those of the process's umask. A file that is there keeps its own.
    #[must_use]
    pub fn mode(mut self, mode: u32) -> DirFolder<R>
        ensures { result ≡ self }
    {
        self.mode = mode;
        self
    }

    /// Begins each notice with a text, such as the name of a program. If memory is refused, the folder is dropped.
    #[must_use]
    pub fn titled(mut self, title: &str) -> Result<DirFolder<R>, AllocError>
        ensures { IfOk result (λ folder. folder ≡ self) }
    {
        self.title = String::from_str(self.rt.alloc(), title)?;
        Ok(self)
    }

    /// Returns why the last link that was to be made was not, if it was not: a log whose link is optional goes on
    /// without it.
    pub fn link_fault(&self) -> Option<io::Error> {
        self.link_fault
    }

    /// Returns whether a name leads to this open file. It doesn't if the file was removed, renamed or
    /// replaced. `failures` doesn't count the call.
    pub fn is_named(&self, file: &R::File, name: &str) -> io::Result<bool> {
        is_named(&self.rt, self.path.as_str(), file, name)
    }

    /// Returns the number of notices of a kind: at most `u64::MAX`, where it stays.
    pub fn notices(&self, kind: NoticeKind) -> u64
        ensures { result ≡ notice_count kind (notice_counts_of self.now.noted) }
    {
        self.noted.of(kind)
    }

    // Counts a call that fails.
    fn count_failure<T: Drop>(&mut self, answer: io::Result<T>) -> io::Result<T>
        ensures same { result ≡ answer }
        ensures failures { CountsFailure (self.old.failures % 2 ^ 64) (self.new.failures % 2 ^ 64) answer }
        ensures noted { self.new.noted ≡ self.old.noted }
    {
        if answer.is_err() {
            self.failures = self.failures.saturating_add(1);
        }
        answer
    }

    // Reports a notice on standard error. A folder that doesn't exist yet has no old files, so that its listing
    // is nothing to report.
    fn print_notice(&self, notice: Notice<'_>) -> io::Result<()> {
        let (rt, title) = (&self.rt, &self.title);
        match notice {
            Notice::List(fault) if fault.kind() == ErrorKind::NotFound => Ok(()),
            Notice::List(fault) => eprintln!(rt;
                "{title}Error reading the log directory/files: {fault}"
            ),
            Notice::Remove(name, fault) => eprintln!(rt;
                "{title}Failed to remove old log file {}{name}: {fault}",
                self.path
            ),
            Notice::Flush(fault) => eprintln!(rt; "{title}Couldn't flush previous writer: {fault}"),
            Notice::Open(fault) => eprintln!(rt; "{title}Couldn't create writer for logs: {fault}"),
        }
    }
}

// Flushes a file, and then syncs its data if that is asked for: a sync waits for the disk.
fn flush_file<F: Write + OpenFile>(file: &mut F, syncs: bool) -> io::Result<()>
    ensures { Keeps (F.contents file.old) (F.contents file.new) }
{
    file.flush()?;
    if syncs { file.sync_data() } else { Ok(()) }
}

impl<R: FilesHost> Folder for DirFolder<R> {
    ghost use Rattle.std.specs.Prelude.{◌≡◌, ◌%◌, ◌^◌, false};
    ghost use Rattle.std.specs.Io.KnownBytes.{Keeps, WriteAppends};
    ghost use Rattle.appender_store.specs.Folder.{after_note, notice_kind_of};
    ghost use Rattle.appender_store.specs.NoticeCounts.{notice_counts_of};
    ghost use Rattle.appender_folder.specs.Calls.{CountsFailure, CallsEntry, unknown_content};

    type File = R::File;

    ghost is_known = { false };

    ghost content = { λ _. unknown_content };

    ghost body = { λ _. 0 };

    ghost made_file = { λ f. f.made_file };

    ghost failures = { λ f. f.failures % 2 ^ 64 };

    ghost noted = { λ f. notice_counts_of f.noted };

    ghost list_gives = { λ old r new. CountsFailure (old.failures % 2 ^ 64) (new.failures % 2 ^ 64) r };

    ghost remove_gives = { λ old name r new. CallsEntry name (old.failures % 2 ^ 64) (new.failures % 2 ^ 64) r };

    ghost open_gives = { λ old name r new. CallsEntry name (old.failures % 2 ^ 64) (new.failures % 2 ^ 64) r };

    ghost make_folder_gives = { λ old r new. CountsFailure (old.failures % 2 ^ 64) (new.failures % 2 ^ 64) r };

    ghost remove_link_gives = { λ old name r new. CallsEntry name (old.failures % 2 ^ 64) (new.failures % 2 ^ 64) r };

    ghost make_link_gives = { λ old name target r new. CallsEntry name (old.failures % 2 ^ 64) (new.failures % 2 ^ 64) r };

    ghost append_gives = { λ old file bytes r new after.
        CountsFailure (old.failures % 2 ^ 64) (new.failures % 2 ^ 64) r
        × WriteAppends (R.File.contents file) (R.File.contents after) r bytes };

    ghost flush_gives = { λ old file r new after.
        CountsFailure (old.failures % 2 ^ 64) (new.failures % 2 ^ 64) r
        × Keeps (R.File.contents file) (R.File.contents after) };

    ghost length_gives = { λ f file r. Unit {0} };

    ghost note_gives = { λ old said new.
        notice_counts_of new.noted ≡ after_note (notice_kind_of said) (notice_counts_of old.noted) };

    ghost use Rattle.std.proofs.Common.{arith, rules};

    ghost failures_fit = { λ f. Prim.omega arith };

    ghost noted_fit = { λ f. record {
      lists = Prim.omega arith;
      removes = Prim.omega arith;
      flushes = Prim.omega arith;
      opens = Prim.omega arith;
    } };

    ghost sound = { λ f known. Prim.search rules };

    fn list(&mut self) -> io::Result<Vec<Listed>> {
        let answer = list_entries(&self.rt, self.path.as_str());
        self.count_failure(answer)
    }

    fn remove(&mut self, name: &str) -> io::Result<()> {
        let answer = remove_plain(&self.rt, self.path.as_str(), name);
        self.count_failure(answer)
    }

    fn open(&mut self, name: &str) -> io::Result<R::File> {
        let answer = match open_plain(&self.rt, self.path.as_str(), name, self.mode) {
            Ok((file, made)) => {
                self.made_file = made;
                Ok(file)
            }
            Err(fault) => Err(fault),
        };
        self.count_failure(answer)
    }

    fn make_folder(&mut self) -> io::Result<()> {
        let answer = fs::create_dir_all(&self.rt, self.path.as_str());
        self.count_failure(answer)
    }

    /// Checks that a link has this name, and does not remove it: `make_link` replaces it. So the link is there at every
    /// moment. `NotFound` if nothing has the name, `AlreadyExists` if a file or a folder has it.
    fn remove_link(&mut self, name: &str) -> io::Result<()> {
        let answer = check_link(&self.rt, self.path.as_str(), name);
        self.count_failure(answer)
    }

    /// Makes a symbolic link, and replaces one of the same name. `AlreadyExists` if a file or a folder has the name.
    ///
    /// A replacement is one step: the new link is made under the name `.NAME.new`, and then renamed. A link that a
    /// killed process left under that name is removed. `AlreadyExists` also if a file or a folder has that name.
    fn make_link(&mut self, name: &str, target: &str) -> io::Result<()> {
        let answer = make_link(&self.rt, self.path.as_str(), name, target);
        self.link_fault = answer.err();
        self.count_failure(answer)
    }

    fn append(&mut self, file: &mut R::File, bytes: &[u8]) -> io::Result<usize> {
        let answer = file.write(bytes);
        self.count_failure(answer)
    }

    fn flush(&mut self, file: &mut R::File) -> io::Result<()> {
        let answer = flush_file(file, self.syncs);
        self.count_failure(answer)
    }

    fn made_file(&self) -> bool {
        self.made_file
    }

    fn length(&self, file: &R::File) -> Option<u64> {
        match file.metadata() {
            Ok(metadata) => Some(metadata.len()),
            Err(_) => None,
        }
    }

    fn note(&mut self, notice: Notice<'_>) {
        self.noted.add(notice.kind());
        // A fault of standard error can't be reported.
        let _ = self.print_notice(notice);
    }

    fn failures(&self) -> u64 {
        self.failures
    }
}
