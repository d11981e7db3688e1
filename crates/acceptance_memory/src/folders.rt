// Folders in memory: what may be put into them, and each call with ample memory.
use crate::expect::{AllocAndAbort, expect_eq, expect_eq_of};
use appender_core::error::InitError;
use appender_core::store::{Folder, Kind, Listed, MemoryFolder, Notice, NoticeKind, PutError};
use std::io;
use std::process::Abort;

// A name, and the result of a put under it.
#[rattlefmt::skip]
static PUTS: [(&str, Result<(), PutError>); 11] = [
    ("", Err(PutError::Name)), (".", Err(PutError::Name)), ("..", Err(PutError::Name)), ("/", Err(PutError::Name)),
    ("a/b", Err(PutError::Name)), ("a\0", Err(PutError::Name)),
    ("a", Ok(())), ("a", Err(PutError::Used)), ("...", Ok(())), (".a", Ok(())), ("a.2020-02-01", Ok(())),
];

/// Checks which names a folder has, in byte order.
pub(crate) fn expect_names(rt: &impl Abort, folder: &MemoryFolder, wanted: &[&str]) {
    let names = folder.names().expect(rt, "memory");
    expect_eq(rt, names.len(), wanted.len());
    for (place, name) in names.iter().enumerate() {
        expect_eq(rt, Some(&name.as_str()), wanted.get(place));
    }
}

fn put(folder: &mut MemoryFolder, name: &str, kind: Kind) -> Result<(), PutError> {
    match kind {
        Kind::Folder => folder.put_folder(name),
        Kind::Link => folder.put_link(name, "b"),
        _ => folder.put_file(name, b"x"),
    }
}

fn put_all(rt: &impl Abort, folder: &mut MemoryFolder, kind: Kind) {
    for (name, wanted) in &PUTS {
        expect_eq_of(rt, *name, put(folder, name, kind), *wanted);
    }
}

// Only what names one entry is put, and the first put makes an absent folder.
#[test]
fn puts_names_of_one_entry(rt: HostRuntime) {
    for kind in [Kind::File, Kind::Folder, Kind::Link] {
        let mut folder = MemoryFolder::absent(rt.alloc());
        put_all(&rt, &mut folder, kind);
        expect_names(&rt, &folder, &["...", ".a", "a", "a.2020-02-01"]);
        expect_eq(&rt, folder.kind("a"), Some(kind));
        expect_eq(&rt, folder.list().expect(&rt, "a listing").len(), 4);
    }
}

// Makes the link lead to the new file in place of the old one, which is removed, and writes the new file.
fn replace_old<S: Folder>(rt: &impl Abort, folder: &mut S) {
    folder.make_folder().expect(rt, "a folder");
    folder.remove("old").expect(rt, "a file");
    folder.remove_link("latest").expect(rt, "a link");
    folder.make_link("latest", "new").expect(rt, "a link");
    let mut file = folder.open("new").expect(rt, "a file");
    let taken = folder.append(&mut file, b"hello");
    expect_eq(rt, taken.expect(rt, "a write"), 5);
    folder.flush(&mut file).expect(rt, "a flush");
}

// Notes one thing of each kind, and an opening twice. Returns what is listed then.
fn note_all<S: Folder>(rt: &impl Abort, folder: &mut S) -> Vec<Listed> {
    let fault = io::Error::from(io::ErrorKind::Other);
    folder.note(Notice::List(&fault));
    folder.note(Notice::Remove("old", &fault));
    folder.note(Notice::Flush(&fault));
    folder.note(Notice::Open(&InitError::Memory));
    folder.note(Notice::Open(&InitError::Memory));
    folder.list().expect(rt, "a listing")
}

// Checks what is listed then.
fn expect_listed(rt: &impl Abort, listed: &[Listed]) {
    expect_eq(rt, listed.len(), 3);
    for entry in listed {
        let name = entry.name.as_deref();
        let wanted = match name {
            Some("latest") => (Kind::Link, None),
            Some("new") => (Kind::File, Some(7)),
            _ => (Kind::Folder, None),
        };
        expect_eq_of(rt, name, (entry.kind, entry.created), wanted);
    }
}

// What each name leads to then: its bytes, its kind and its target.
#[rattlefmt::skip]
static FOUND: [(&str, Option<&[u8]>, Option<Kind>, Option<&str>); 4] = [
    ("latest", None, Some(Kind::Link), Some("new")),
    ("new", Some(b"hello"), Some(Kind::File), None),
    ("sub", None, Some(Kind::Folder), None),
    ("old", None, None, None),
];

// The bodies then, those without a name too, and what was noted.
static BODIES: [(usize, Option<&[u8]>); 3] = [(0, Some(b"x")), (1, Some(b"hello")), (2, None)];

#[rattlefmt::skip]
static NOTED: [(NoticeKind, u64); 4] =
    [(NoticeKind::List, 1), (NoticeKind::Remove, 1), (NoticeKind::Flush, 1), (NoticeKind::Open, 2)];

// A folder with a file, a folder and a link.
fn mixed_folder(rt: &impl AllocAndAbort) -> MemoryFolder {
    let mut folder = MemoryFolder::new(rt.alloc());
    folder.set_created(Some(-5));
    for (name, kind) in [
        ("old", Kind::File),
        ("sub", Kind::Folder),
        ("latest", Kind::Link),
    ] {
        expect_eq_of(rt, name, put(&mut folder, name, kind), Ok(()));
    }
    folder.set_created(Some(7));
    folder
}

#[test]
fn makes_each_call(rt: HostRuntime) {
    let mut folder = mixed_folder(&rt);
    replace_old(&rt, &mut folder);
    expect_listed(&rt, &note_all(&rt, &mut folder));
    expect_names(&rt, &folder, &["latest", "new", "sub"]);
    for (name, bytes, kind, target) in &FOUND {
        expect_eq_of(&rt, *name, folder.bytes(name), *bytes);
        expect_eq_of(&rt, *name, folder.kind(name), *kind);
        expect_eq_of(&rt, *name, folder.target(name), *target);
    }
    for (number, wanted) in &BODIES {
        expect_eq_of(&rt, *number, folder.body(*number), *wanted);
    }
    for (kind, wanted) in &NOTED {
        expect_eq_of(&rt, *kind, folder.notices(*kind), *wanted);
    }
    expect_eq(&rt, folder.failures(), 0);
}
