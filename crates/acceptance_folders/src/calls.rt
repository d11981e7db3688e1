// Each call of a folder of the file system, once by itself.

use crate::expect::{expect_eq, expect_eq_of};
use crate::scene::{
    Entry, FilesAndAbort, at, clear, expect_entries, expect_target, expect_text, fill, folder_at,
    fresh, kind_of_error, path_of, renew,
};
use crate::swapping::Swapping;
use Call::{MakeLink, Open, Remove, RemoveLink};
use Entry::{Dir, File, Link};
use appender_folder::folder::DirFolder;
use appender_store::store::{Folder, Kind, Listed};
use std::cell::Cell;
use std::fs::Metadata;
use std::io::ErrorKind;
use std::os::unix::fs::PermissionsExt;
use std::process::Abort;
use std::rt::Env;
use std::time::UNIX_EPOCH;
use std::{env, fs, io};

// A call of a folder by a name.
#[derive(Clone, Copy, Debug)]
enum Call {
    Open,
    Remove,
    RemoveLink,
    MakeLink,
}

// Why a call with this name is refused, if it is.
fn refusal_of<S: Folder>(folder: &mut S, call: Call, name: &str) -> Option<ErrorKind> {
    match call {
        Call::Open => kind_of_error(folder.open(name)),
        Call::Remove => kind_of_error(folder.remove(name)),
        Call::RemoveLink => kind_of_error(folder.remove_link(name)),
        Call::MakeLink => kind_of_error(folder.make_link(name, "a")),
    }
}

// Checks that each of these calls with each of these names is refused so.
fn expect_refusals<S: Folder>(
    rt: &impl Abort,
    folder: &mut S,
    calls: &[Call],
    names: &[&str],
    wanted: ErrorKind,
) {
    for call in calls {
        for name in names {
            let refusal = refusal_of(folder, *call, name);
            expect_eq_of(rt, (*call, *name), refusal, Some(wanted));
        }
    }
}

// Opens a file and appends to it, and checks how much it takes.
fn append_to<S: Folder>(rt: &impl Abort, folder: &mut S, name: &str, bytes: &[u8]) {
    let mut file = folder.open(name).expect(rt, "a file");
    let taken = folder.append(&mut file, bytes).expect(rt, "bytes taken");
    folder.flush(&mut file).expect(rt, "a flush");
    expect_eq_of(rt, name, taken, bytes.len());
}

// Checks how many entries a folder lists.
fn expect_listed<S: Folder>(rt: &impl Abort, folder: &mut S, wanted: usize) {
    let listed = folder.list().expect(rt, "a listing");
    expect_eq(rt, listed.len(), wanted);
}

// Makes a link, and checks what it says and that the next one may replace it.
fn link_to<S: Folder>(
    rt: &impl FilesAndAbort,
    folder: &mut S,
    directory: &str,
    name: &str,
    target: &str,
) {
    expect_eq_of(
        rt,
        name,
        kind_of_error(folder.make_link(name, target)),
        None,
    );
    expect_target(rt, directory, name, target);
    expect_eq_of(rt, name, kind_of_error(folder.remove_link(name)), None);
}

// The same with a name of so many of these characters, twice.
fn link_long<S: Folder>(
    rt: &impl FilesAndAbort,
    folder: &mut S,
    directory: &str,
    character: char,
    count: usize,
) {
    let mut name = String::new(rt.alloc());
    for _ in 0..count {
        name.push(character).expect(rt, "memory");
    }
    link_to(rt, folder, directory, name.as_str(), "one");
    link_to(rt, folder, directory, name.as_str(), "two");
}

// Checks one entry of a listing. Its creation is that of the file system, in nanoseconds.
fn expect_entry(rt: &impl FilesAndAbort, directory: &str, entry: &Listed) {
    let name = entry.name.as_deref();
    let wanted = match name {
        Some("file") => Kind::File,
        Some("link" | "dangling") => Kind::Link,
        Some("sub") => Kind::Folder,
        _ => rt.panic("another name"),
    };
    expect_eq_of(rt, name, entry.kind, wanted);
    let path = at(rt, directory, name.unwrap_or(""));
    let metadata = fs::symlink_metadata(rt, path).expect(rt, "metadata");
    expect_eq_of(rt, name, entry.created, creation_of(&metadata));
}

fn creation_of(metadata: &Metadata) -> Option<i128> {
    let since = metadata.created().ok()?.duration_since(UNIX_EPOCH).ok()?;
    i128::try_from(since.as_nanos()).ok()
}

// What each entry of a folder of every kind is listed as.
fn expect_kinds<S: Folder>(rt: &impl FilesAndAbort, folder: &mut S, directory: &str) {
    let listed = folder.list().expect(rt, "a listing");
    expect_eq(rt, listed.len(), 4);
    for entry in &listed {
        expect_entry(rt, directory, entry);
    }
}

// A step of a test with a folder, which is a directory or is in it, and its expected result.
#[derive(Clone, Copy)]
enum Step {
    // These entries are made in the directory.
    Fill(&'static [Entry<'static>]),
    // A second name of a file is made there.
    HardLink(&'static str, &'static str),
    // The directory is removed.
    Clear,
    // The folder can't be made.
    NoFolder,
    // Each of these calls with each of these names is refused so.
    Refused(&'static [Call], &'static [&'static str], ErrorKind),
    // A file of this name is opened and takes these bytes.
    Append(&'static str, &'static str),
    // A file is removed.
    Remove(&'static str),
    // A link to this target is made, in place of one of the same name.
    Link(&'static str, &'static str),
    // The same twice, with a name of so many of these characters.
    LongLink(char, usize),
    // This number of entries are listed.
    Lists(usize),
    // Four entries are listed, each with its kind.
    Kinds,
    // The listing is refused so.
    NoList(ErrorKind),
    // This number of calls have failed.
    Failed(u64),
    // A file has these permission bits.
    Mode(&'static str, u32),
    // The directory has exactly these entries.
    Holds(&'static [Entry<'static>]),
}

// Takes a step.
fn take<S: Folder>(rt: &impl FilesAndAbort, folder: &mut S, directory: &str, step: Step) {
    match step {
        Step::Fill(entries) => fill(rt, directory, entries),
        Step::HardLink(name, link) => {
            let link = fs::hard_link(rt, at(rt, directory, name), at(rt, directory, link));
            link.expect(rt, "a link");
        }
        Step::Clear => clear(rt, directory),
        Step::NoFolder => expect_eq(rt, folder.make_folder().is_err(), true),
        Step::Refused(calls, names, wanted) => expect_refusals(rt, folder, calls, names, wanted),
        Step::Append(name, text) => append_to(rt, folder, name, text.as_bytes()),
        Step::Remove(name) => expect_eq(rt, kind_of_error(folder.remove(name)), None),
        Step::Link(name, target) => link_to(rt, folder, directory, name, target),
        Step::LongLink(character, count) => link_long(rt, folder, directory, character, count),
        Step::Lists(wanted) => expect_listed(rt, folder, wanted),
        Step::Kinds => expect_kinds(rt, folder, directory),
        Step::NoList(wanted) => expect_eq(rt, kind_of_error(folder.list()), Some(wanted)),
        Step::Failed(wanted) => expect_eq_of(rt, directory, folder.failures(), wanted),
        Step::Mode(name, bits) => {
            let metadata = fs::metadata(rt, at(rt, directory, name)).expect(rt, "metadata");
            expect_eq_of(rt, name, metadata.permissions().mode() & 0o777, bits);
        }
        Step::Holds(entries) => expect_entries(rt, directory, entries),
    }
}

// Takes these steps with a folder.
fn take_all<S: Folder>(rt: &impl FilesAndAbort, mut folder: S, directory: &str, steps: &[Step]) {
    for step in steps {
        take(rt, &mut folder, directory, *step);
    }
}

const MIXED: &[Entry<'static>] = &[
    Link("link", "file"),
    Link("dangling", "nothing"),
    Dir("sub"),
    File("file", "text"),
];

// The folder's entry of the directory, or the directory itself, and the steps.
#[rattlefmt::skip]
static CASES: [(&str, &[Step]); 8] = [
    // Names that are not those of entries of `inside`.
    ("inside", &[Step::Fill(&[File("outside", "kept"), Link("link", "outside"), Dir("inside")]),
        Step::Refused(&[Open, Remove, RemoveLink, MakeLink],
            &["", ".", "..", "/", "../outside", "../link", "../new", "a/b", "a\0"], ErrorKind::InvalidInput),
        Step::Failed(36), Step::Holds(&[File("outside", "kept"), Link("link", "outside"), Dir("inside")])]),
    // Links, also one that leads to a file, and a folder are neither opened nor removed.
    ("", &[Step::Fill(MIXED), Step::Refused(&[Open, Remove], &["link", "dangling", "sub"], ErrorKind::AlreadyExists),
        Step::Refused(&[Remove], &["absent"], ErrorKind::NotFound), Step::Failed(7), Step::Holds(MIXED),
        Step::Remove("file"), Step::Holds(&[Link("link", "file"), Link("dangling", "nothing"), Dir("sub")])]),
    // A file and a folder are not removed as links, and no link takes their place. A link is replaced by the next.
    ("", &[Step::Fill(&[File("file", "text"), Dir("sub")]),
        Step::Refused(&[RemoveLink, MakeLink], &["file", "sub"], ErrorKind::AlreadyExists),
        Step::Refused(&[RemoveLink], &["absent"], ErrorKind::NotFound), Step::Link("link", "file"),
        Step::Link("link", "sub"), Step::Link("link", "nothing"), Step::Link("link", "../elsewhere"), Step::Failed(5),
        Step::Holds(&[File("file", "text"), Dir("sub"), Link("link", "../elsewhere")])]),
    // Characters of one, two and four bytes, with which a name has as many as an entry's may: 255, or a few less.
    ("", &[Step::LongLink('l', 255), Step::LongLink('é', 127), Step::LongLink('𝄞', 63), Step::Lists(3),
        Step::Failed(0)]),
    // A file with a second hard link is no log. Without the second name it is one.
    ("", &[Step::Fill(&[File("other", "kept")]), Step::HardLink("other", "log"),
        Step::Refused(&[Open], &["log"], ErrorKind::AlreadyExists), Step::Failed(1), Step::Remove("other"),
        Step::Append("log", "x"), Step::Holds(&[File("log", "keptx")])]),
    // No umask clears these bits of a new file.
    ("", &[Step::Append("new", "x"), Step::Mode("new", 0o600)]),
    // A file has the folder's name.
    ("plain", &[Step::Fill(&[File("plain", "text")]), Step::NoFolder, Step::Holds(&[File("plain", "text")])]),
    // An empty folder, one of every kind of entry, and one that is absent.
    ("", &[Step::Lists(0), Step::Fill(MIXED), Step::Kinds, Step::Clear, Step::NoList(ErrorKind::NotFound),
        Step::Failed(1)]),
];

// Takes the steps of each case in a fresh directory, with a folder whose new files have these permission bits.
fn take_cases(rt: &impl FilesAndAbort, path: io::Result<String>) {
    let directory = fresh(rt, path);
    let directory = directory.as_str();
    for (entry, steps) in &CASES {
        for syncs in [false, true] {
            renew(rt, directory);
            let folder = folder_at(rt, at(rt, directory, entry).as_str()).mode(0o600);
            let folder = if syncs { folder.synced() } else { folder };
            take_all(rt, folder, directory, steps);
        }
    }
    clear(rt, directory);
}

#[test]
fn each_call_does_what_its_name_says(rt: HostRuntime) {
    take_cases(&rt, path_of(rt, "calls"));
}

// The link is in place of `log` only at the first opening.
#[rattlefmt::skip]
static SWAPPED: [Step; 5] = [
    Step::Fill(&[File("victim", "kept"), File("log", "text")]),
    Step::Refused(&[Open], &["log"], ErrorKind::AlreadyExists),
    Step::Append("log", "new"),
    Step::Failed(1),
    Step::Holds(&[File("victim", "kept"), File("log", "new")]),
];

// Takes these steps with the folder at a fresh directory, by these files.
fn take_swapped(rt: &impl FilesAndAbort, files: Swapping<'_>, path: io::Result<String>) {
    let directory = fresh(rt, path);
    let folder = DirFolder::new(files, directory.as_str()).expect(rt, "memory");
    take_all(rt, folder, directory.as_str(), &SWAPPED);
    clear(rt, directory.as_str());
}

// The name leads to a plain file before and after, but not to the one that was opened.
#[test]
fn a_link_that_is_made_and_removed_is_not_followed(rt: HostRuntime) {
    let target = Cell::new(Some("victim"));
    take_swapped(&rt, Swapping::new(rt, &target), path_of(rt, "swapped"));
}

// Paths of folders from the current directory on, a file in each, and what that holds after two appends of one byte.
#[rattlefmt::skip]
static PATHS: [(&str, &str, &str); 8] = [
    ("a/b/c", "a/b/c/file", "xx"),
    ("a/b/d/", "a/b/d/file", "xx"),
    ("a", "a/file", "xx"),
    ("e//f", "e/f/file", "xx"),
    ("./deep/logs", "deep/logs/file", "xx"),
    ("", "file", "xx"),
    (".", "file", "xxxx"),
    ("./", "file", "xxxxxx"),
];

// Makes a folder with its parents, and once more when it is there.
fn append_twice(rt: &impl FilesAndAbort, path: &str) {
    let mut folder = folder_at(rt, path);
    for _ in 0..2u32 {
        expect_eq_of(rt, path, kind_of_error(folder.make_folder()), None);
        append_to(rt, &mut folder, "file", b"x");
    }
    expect_eq_of(rt, path, folder.failures(), 0);
}

// Makes the folders in a fresh directory, which becomes the current one.
fn append_to_each(rt: &(impl FilesAndAbort + Env), path: io::Result<String>) {
    let current = fresh(rt, path);
    env::set_current_dir(rt, current.as_str()).expect(rt, "a directory");
    for (path, file, text) in &PATHS {
        append_twice(rt, path);
        expect_text(rt, current.as_str(), file, text);
    }
    clear(rt, current.as_str());
}

#[test]
fn a_folder_is_made_with_its_parents(rt: HostRuntime) {
    append_to_each(&rt, path_of(rt, "paths"));
}
