// The printing of results, and of what exists afterwards.
use std::alloc::AllocError;
use std::io;
use std::io::{ErrorKind, Write};
use tracing_appender::rolling::{Roller, Switch};
use tracing_appender::store::{Folder, MemoryFolder, NoticeKind};

/// Prints the result of a call whose only error is that memory was refused.
pub(crate) fn print_done<T: Drop>(
    rt: &impl Print,
    call: &str,
    answer: Result<T, AllocError>,
) -> io::Result<()> {
    match answer {
        Ok(_) => println!(rt; "{call} ok"),
        Err(_) => println!(rt; "{call} no memory"),
    }
}

/// Prints the result of a call of a folder.
pub(crate) fn print_io<T: Drop>(
    rt: &impl Print,
    call: &str,
    answer: io::Result<T>,
) -> io::Result<()> {
    match answer {
        Ok(_) => println!(rt; "{call} ok"),
        Err(fault) => {
            let kind = fault.kind();
            println!(rt; "{call} {kind:?}")
        }
    }
}

/// Returns a result with the kind of its error, which nothing has to drop.
pub(crate) fn kind_of<T: Copy>(answer: io::Result<T>) -> Result<T, ErrorKind> {
    match answer {
        Ok(value) => Ok(value),
        Err(fault) => Err(fault.kind()),
    }
}

/// Writes once. This is the only call of `write`, so that no other function has its contract at a type of its own.
pub(crate) fn write<W: Write>(log: &mut W, line: &[u8]) -> Result<usize, ErrorKind> {
    kind_of(log.write(line))
}

/// Prints the number of bytes that were taken.
pub(crate) fn print_taken(
    rt: &impl Print,
    call: &str,
    answer: Result<usize, ErrorKind>,
) -> io::Result<()> {
    match answer {
        Ok(taken) => println!(rt; "{call} ok {taken}"),
        Err(kind) => println!(rt; "{call} {kind:?}"),
    }
}

/// Prints the result of a put.
pub(crate) fn print_put(
    rt: &impl Print,
    call: &str,
    answer: (Switch, Result<usize, ErrorKind>),
) -> io::Result<()> {
    let (switch, taken) = answer;
    match taken {
        Ok(taken) => println!(rt; "{call} {switch:?} ok {taken}"),
        Err(kind) => println!(rt; "{call} {switch:?} {kind:?}"),
    }
}

/// Prints what a roller has open, when the next file begins, and its folder.
pub(crate) fn print_roller(rt: &impl Print, roller: &Roller<MemoryFolder>) -> io::Result<()> {
    let (name, boundary) = roller.name_and_boundary();
    println!(rt; "open {name} {boundary:?}")?;
    print_folder(rt, roller.folder())
}

/// Prints what a folder counted, and each of its entries.
pub(crate) fn print_folder(rt: &impl Print, folder: &MemoryFolder) -> io::Result<()> {
    let lists = folder.notices(NoticeKind::List);
    let removes = folder.notices(NoticeKind::Remove);
    let flushes = folder.notices(NoticeKind::Flush);
    let opens = folder.notices(NoticeKind::Open);
    println!(rt; "notices {lists} {removes} {flushes} {opens}")?;
    let failures = folder.failures();
    println!(rt; "failures {failures}")?;
    for name in &folder.names()? {
        print_entry(rt, folder, name.as_str())?;
    }
    Ok(())
}

fn print_entry(rt: &impl Print, folder: &MemoryFolder, name: &str) -> io::Result<()> {
    if let Some(bytes) = folder.bytes(name) {
        let text = str::from_utf8(bytes).unwrap_or("no text");
        return println!(rt; "file {name} '{text}'");
    }
    match folder.target(name) {
        Some(target) => println!(rt; "link {name} {target}"),
        None => println!(rt; "folder {name}"),
    }
}
