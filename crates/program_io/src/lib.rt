//! What programs have in common: a runtime, arguments, lines of an input. `options` reads the options of a command line,
//! `report` has reports of faults, `streams` standard streams that are closed, `blocking` an input that does not block.
#![tactic(auto)]

ghost use Rattle.std.specs.Prelude.{
  ◌≡◌,
  ◌≢◌,
  ◌<◌,
  ◌≤◌,
  ℕ,
  List,
  [],
  ◌-◌,
  ◌⊎◌,
  ◌↔◌,
  All,
  take,
  length,
  IsTrue,
  Some,
  Ok,
  IfOk,
  OnOk,
  OnSome,
  OnErr,
  true,
  false,
};
ghost use Rattle.std.specs.Io.{StopsAt};
ghost use Rattle.std.specs.Io.BufRead.{take_through, drop_through};
ghost use Rattle.std.specs.Io.KnownBytes.{Appends, Consumes, IsAtEnd, Keeps};
ghost use Rattle.program_io.specs.Line.{IsPiece};
ghost use Rattle.program_io.specs.Inside.Piece.{Extends, IsOpen};
ghost use Rattle.program_io.specs.Report.{AppendsBeginning};

pub mod blocking;
pub mod options;
pub mod report;
pub mod streams;

use crate::blocking::Ready;
use memchr::{memchr, memrchr};
use std::alloc::{AllocError, Global};
use std::env::FillError;
use std::io::{BufRead, ErrorKind, Write};
use std::rt::Env;
use std::{env, io, str};

/// Why the arguments of a program were not read.
#[derive(Debug, Drop)]
pub enum ArgumentFault {
    /// This argument is not UTF-8. It has U+FFFD in place of what is not.
    NotText(String),
    /// Out of memory.
    Memory,
}

impl From<AllocError> for ArgumentFault {
    fn from(_error: AllocError) -> ArgumentFault {
        ArgumentFault::Memory
    }
}

/// Returns the arguments after the program's name.
pub fn arguments(rt: &(impl Env + AllocGlobal)) -> Result<Vec<String>, ArgumentFault> {
    let all = match env::args(rt) {
        Ok(all) => all,
        Err(error) if error.kind() == ErrorKind::InvalidData => {
            return Err(ArgumentFault::NotText(first_not_text(rt)?));
        }
        Err(_) => return Err(ArgumentFault::Memory),
    };
    let mut arguments = Vec::new(rt.alloc());
    for argument in all.skip(1) {
        arguments.push(argument).map_err(AllocError::from)?;
    }
    Ok(arguments)
}

// The greatest length in bytes of an argument that is looked at after a fault.
const LONGEST_ARGUMENT: usize = 4096;

// Returns the first argument that is not UTF-8, with U+FFFD in place of what is not. A longer one is only called long.
fn first_not_text(rt: &(impl Env + AllocGlobal)) -> Result<String, AllocError> {
    let mut bytes = Vec::new(rt.alloc());
    bytes.resize(LONGEST_ARGUMENT, 0)?;
    for number in 0..usize::MAX {
        match rt.arg(number, bytes.as_mut_slice()) {
            Ok(length) => {
                let argument = &bytes[..length];
                if str::from_utf8(argument).is_err() {
                    return String::from_utf8_lossy(rt.alloc(), argument);
                }
            }
            Err(FillError::TooLong) => {}
            Err(FillError::NotPresent) => break,
        }
    }
    String::from_str(rt.alloc(), "a long argument")
}

/// The greatest length in bytes of a piece.
pub const LONGEST_LINE: usize = 1 << 20;

/// Reads the next line with its newline, if it has one, into `line`, in place of what that contained. Returns whether
/// there was one. Errors are those of the input, and `OutOfMemory`.
pub fn read_line<I: BufRead>(input: &mut I, line: &mut Vec<u8>) -> io::Result<bool>
    ensures line { OnOk result ((text : List ℕ) → I.remaining input.old ≡ Some text →
        line.new.items ≡ take_through 10 text) }
    ensures rest { OnOk result ((text : List ℕ) → I.remaining input.old ≡ Some text →
        I.remaining input.new ≡ Some (drop_through 10 text)) }
    ensures some { result ≡ Ok true → line.new.items ≢ [] }
    ensures end { result ≡ Ok false → IsAtEnd (I.remaining input.old) }
{
    line.clear();
    let length = input.read_until(b'\n', line)?;
    Ok(length > 0)
}

/// How an input is split into pieces.
#[derive(Clone, Copy, Debug, PartialEq, Eq)]
pub enum Split {
    /// A piece is a line.
    Lines,
    /// A piece is all whole lines that one read completes.
    Blocks,
}

/// Why lines were not copied to the end.
#[derive(Debug, Drop)]
pub enum CopyFault {
    /// The input was not read.
    Read(io::Error),
    /// A line was not taken.
    Write(io::Error),
    /// The beginning of a line was taken, and the rest was not.
    Cut,
}

/// A fault of reading.
impl From<io::Error> for CopyFault {
    fn from(fault: io::Error) -> CopyFault {
        CopyFault::Read(fault)
    }
}

/// Reads the next piece into `piece`, in place of what that contained: the line with its newline, if it has one, or by
/// `Split::Blocks` what one read adds to it up to its last newline. A longer piece ends after `LONGEST_LINE` bytes. Returns
/// whether there was one. With `flushes` the writer is flushed before a read that may have to be waited for, whose fault is
/// ignored. Errors are those of the input, and `OutOfMemory`.
pub fn read_piece<I: BufRead + Ready, W: Write>(
    input: &mut I,
    piece: &mut Vec<u8>,
    split: Split,
    writer: &mut W,
    flushes: bool,
) -> io::Result<bool>
    ensures bytes { OnOk result (Consumes (I.remaining input.old) (I.remaining input.new) piece.new.items) }
    ensures length { OnOk result (length piece.new.items ≤ LONGEST_LINE) }
    ensures line { OnOk result (split ≡ Split.Lines → StopsAt piece.new.items 10) }
    ensures whole { OnOk result (IsPiece piece.new.items
        ⊎ OnSome (I.remaining input.old) (IsAtEnd (I.remaining input.new))) }
    ensures end { result ≡ Ok false → IsAtEnd (I.remaining input.old) }
    ensures kept { Keeps (W.contents writer.old) (W.contents writer.new) }
{
    piece.clear();
    for _ in 0..u64::MAX {
        if extend_piece(input, piece, split)? {
            return Ok(!piece.is_empty());
        }
        flush_if(flushes && !input.is_ready(), writer);
    }
    Err(io::Error::other("too many reads"))
}

// Flushes the writer if that is asked for, and ignores its fault.
fn flush_if<W: Write>(flushes: bool, writer: &mut W)
    ensures { Keeps (W.contents writer.old) (W.contents writer.new) }
{
    if flushes {
        let _ = writer.flush();
    }
}

// Adds to a piece what is buffered of it, and returns whether that was all of it.
fn extend_piece<I: BufRead>(input: &mut I, piece: &mut Vec<u8>, split: Split) -> io::Result<bool>
    requires { IsOpen split piece.old.items }
    ensures { IfOk result (Extends split (I.remaining input.old) (I.remaining input.new) piece.old.items piece.new.items) }
{
    let available = match input.fill_buf() {
        Ok(available) => available,
        Err(error) if error.kind() == ErrorKind::Interrupted => return Ok(false),
        Err(error) => return Err(error),
    };
    let length = piece_length(available, LONGEST_LINE - piece.len(), split);
    piece.extend_from_slice(&available[..length])?;
    input.consume(length);
    Ok(length == 0 || is_piece(piece.as_slice()))
}

// Returns the length of the first line of these bytes, or of all their lines, or of as much as there is room for.
fn piece_length(bytes: &[u8], room: usize, split: Split) -> usize
    ensures bound { result ≤ length bytes.now }
    ensures room { result ≤ room }
    ensures some { 0 < length bytes.now → 0 < room → 0 < result }
    ensures line { split ≡ Split.Lines → All (λ x. x ≢ 10) (take (result - 1) bytes.now) }
{
    let most = bytes.len().min(room);
    let newline = match split {
        Split::Lines => memchr(b'\n', &bytes[..most]),
        Split::Blocks => memrchr(b'\n', &bytes[..most]),
    };
    match newline {
        Some(place) => place + 1,
        None => most,
    }
}

// Returns whether a piece ends with a whole line, or has no room for more.
fn is_piece(piece: &[u8]) -> bool
    ensures { IsTrue result ↔ IsPiece piece.now }
{
    piece.len() == LONGEST_LINE || piece.last() == Some(&b'\n')
}

// Of blocks, the most bytes that are written without a flush.
const FLUSHED_BYTES: usize = 1 << 20;

/// Writes each piece of `input` by one write, until nothing is left. Pieces before a fault are written. Blocks are flushed
/// before a read that may have to be waited for. While no read has to be, the first is flushed, then twice as many bytes each time,
/// up to a MiB: so what is not flushed was read after as much that was. A fault of a flush is ignored.
pub fn copy_pieces<I: BufRead + Ready, W: Write>(
    alloc: Global,
    input: &mut I,
    writer: &mut W,
    split: Split,
) -> Result<(), CopyFault>
    ensures all { OnOk result ((text : List ℕ) → I.remaining input.old ≡ Some text →
        Appends (W.contents writer.old) (W.contents writer.new) text) }
    ensures end { OnOk result ((text : List ℕ) → I.remaining input.old ≡ Some text →
        I.remaining input.new ≡ Some []) }
    ensures beginning { OnErr result ((text : List ℕ) → I.remaining input.old ≡ Some text →
        AppendsBeginning (W.contents writer.old) (W.contents writer.new) text) }
{
    let mut piece = Vec::new(alloc);
    // The number of bytes after the last flush, and how many are flushed.
    let (mut unflushed, mut flushed) = (0usize, 1);
    for _ in 0..u64::MAX {
        let waits = split == Split::Blocks && unflushed > 0;
        if !read_piece(input, &mut piece, split, writer, waits)? {
            return Ok(());
        }
        unflushed = unflushed.saturating_add(piece.len());
        let is_ready = input.is_ready();
        let flushes = split == Split::Blocks && (unflushed >= flushed || !is_ready);
        write_piece(piece.as_slice(), flushes, writer)?;
        if flushes {
            flushed = if is_ready {
                unflushed.saturating_mul(2).min(FLUSHED_BYTES)
            } else {
                1
            };
            unflushed = 0;
        }
    }
    Err(CopyFault::Read(io::Error::other("too many pieces")))
}

// Writes a piece by one write, and flushes the writer if that is asked for.
#[tactic(auto, using(crate::proofs::Copied::appends_kept))]
fn write_piece<W: Write>(piece: &[u8], flushes: bool, writer: &mut W) -> Result<(), CopyFault>
    requires { length piece.now ≤ LONGEST_LINE }
    ensures whole { OnOk result (Appends (W.contents writer.old) (W.contents writer.new) piece.now) }
    ensures beginning { OnErr result
        (AppendsBeginning (W.contents writer.old) (W.contents writer.new) piece.now) }
{
    match writer.write(piece) {
        Ok(taken) if taken < piece.len() => Err(CopyFault::Cut),
        Ok(_) => {
            flush_if(flushes, writer);
            Ok(())
        }
        Err(fault) => Err(CopyFault::Write(fault)),
    }
}
