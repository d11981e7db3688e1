// What a name of a folder in memory leads to, and the parts of its calls.
ghost use Rattle.std.specs.Prelude.{◌≡◌, ◌≤◌, ◌<◌, [], ◌∷◌, ◌++◌, length, map, OnOk, OnErr, IfOk, take, slice_set, slice_index_or, string_bytes};
ghost use Rattle.std.specs.FinMap as fin;
ghost use Rattle.appender_store.specs.Content.{File};
ghost use Rattle.appender_store.specs.Folder.{listed_row, entry_row};
ghost use Rattle.appender_store.specs.Inside.Entries.{names_of, bodies_of, entry_of, IsLookOf};

use super::{Kind, Listed};
use std::alloc::{AllocError, Global};
use std::collections::BTreeMap;

// What is kept under a name: a file's body by its number and its creation moment, a link's target,
// or a folder.
#[derive(Drop)]
pub(crate) enum Item {
    Plain { body: usize, created: Option<i128> },
    Link(String),
    Folder,
}

// What a name leads to, and its number.
#[derive(Clone, Copy)]
pub(crate) enum Look<'a> {
    Free,
    Plain(usize),
    Link(&'a str),
    Folder,
}

// Keeps an item under a name.
pub(crate) fn put_item(
    alloc: Global,
    names: &mut BTreeMap<String, Item>,
    name: &str,
    item: Item,
) -> Result<(), AllocError>
    ensures ok { OnOk result
        (names_of names.new ≡ fin.insert (names_of names.old) name.now (entry_of item)) }
    ensures err { OnErr result (names_of names.new ≡ names_of names.old) }
{
    let key = String::from_str(alloc, name)?;
    names.insert(key, item)?;
    Ok(())
}

// Makes a file of this name with a new body of these bytes, and returns the body's number.
pub(crate) fn add_file(
    alloc: Global,
    bodies: &mut Vec<Vec<u8>>,
    names: &mut BTreeMap<String, Item>,
    name: &str,
    bytes: Vec<u8>,
    created: Option<i128>,
) -> Result<usize, AllocError>
    ensures body { IfOk result (λ b. b ≡ length bodies.old.items) }
    ensures bodies { OnOk result
        (bodies_of bodies.new ≡ bodies_of bodies.old ++ bytes.items ∷ []) }
    ensures names { IfOk result (λ b.
        names_of names.new ≡ fin.insert (names_of names.old) name.now (File b created)) }
    ensures err_bodies { OnErr result (bodies_of bodies.new ≡ bodies_of bodies.old) }
    ensures err_names { OnErr result (names_of names.new ≡ names_of names.old) }
{
    let body = bodies.len();
    bodies.push(bytes)?;
    match put_item(alloc, names, name, Item::Plain { body, created }) {
        Ok(()) => Ok(body),
        Err(fault) => {
            let _ = bodies.pop();
            Err(fault)
        }
    }
}

// Removes a name.
pub(crate) fn take_name(names: &mut BTreeMap<String, Item>, name: &str)
    ensures { names_of names.new ≡ fin.remove (names_of names.old) name.now }
{
    let _ = names.remove(name);
}

// What a name leads to.
pub(crate) fn look_up<'a>(names: &'a BTreeMap<String, Item>, name: &str) -> Look<'a>
    ensures { IsLookOf (fin.get (names_of names.now) name.now) result }
{
    match names.get(name) {
        None => Look::Free,
        Some(Item::Plain { body, .. }) => Look::Plain(*body),
        Some(Item::Link(target)) => Look::Link(target.as_str()),
        Some(Item::Folder) => Look::Folder,
    }
}

// Returns the entry of a listing.
fn listed_entry(alloc: Global, name: &str, item: &Item) -> Result<Listed, AllocError>
    ensures { IfOk result (λ entry. listed_row entry ≡ entry_row (name.now, entry_of item.now)) }
{
    let name = Some(String::from_str(alloc, name)?);
    Ok(match item {
        Item::Plain { created, .. } => Listed {
            name,
            kind: Kind::File,
            created: *created,
        },
        Item::Link(_) => Listed {
            name,
            kind: Kind::Link,
            created: None,
        },
        Item::Folder => Listed {
            name,
            kind: Kind::Folder,
            created: None,
        },
    })
}

// All entries, in the order of their names.
pub(crate) fn all_listed(
    alloc: Global,
    names: &BTreeMap<String, Item>,
) -> Result<Vec<Listed>, AllocError>
    ensures { IfOk result (λ all. map listed_row all.items ≡ map entry_row (fin.entries (names_of names.now))) }
{
    let mut all = Vec::with_capacity(alloc, names.len())?;
    for (name, item) in names {
        all.push(listed_entry(alloc, name.as_str(), item)?)?;
    }
    Ok(all)
}

// All names, in their order.
pub(crate) fn all_names(
    alloc: Global,
    names: &BTreeMap<String, Item>,
) -> Result<Vec<String>, AllocError>
    ensures { IfOk result (λ all. map string_bytes all.items ≡ fin.keys (names_of names.now)) }
{
    let mut all = Vec::with_capacity(alloc, names.len())?;
    for (name, _) in names {
        all.push(String::from_str(alloc, name.as_str())?)?;
    }
    Ok(all)
}

// Adds the bytes to a body.
pub(crate) fn add_bytes(
    bodies: &mut Vec<Vec<u8>>,
    at: usize,
    bytes: &[u8],
) -> Result<(), AllocError>
    requires { at < length bodies.old.items }
    ensures ok { OnOk result (bodies_of bodies.new ≡
        slice_set (bodies_of bodies.old) at
        (slice_index_or (bodies_of bodies.old) at [] ++ bytes.now)) }
    ensures err { OnErr result (bodies_of bodies.new ≡ bodies_of bodies.old) }
    ensures some { OnErr result (0 < length bytes.now) }
{
    bodies[at].extend_from_slice(bytes)?;
    Ok(())
}
