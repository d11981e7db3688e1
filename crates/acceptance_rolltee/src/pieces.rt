// Pieces of an input, and flushes after them.
use crate::expect::expect_eq;
use crate::inputs::Part::{Bytes, Later};
use crate::inputs::{Part, Parts};
use program_io::blocking::Ready;
use program_io::{LONGEST_LINE, Split, copy_pieces};
use std::alloc::Global;
use std::io;
use std::io::{BufReader, Read, Write};
use std::process::Abort;
use std::test::Fail;

// A writer that keeps its bytes, and the length of each write, and 0 for each flush.
#[derive(Drop)]
struct Kept {
    bytes: Vec<u8>,
    lengths: Vec<usize>,
}

impl Write for Kept {
    fn write(&mut self, buf: &[u8]) -> io::Result<usize> {
        self.bytes.extend_from_slice(buf)?;
        self.lengths.push(buf.len())?;
        Ok(buf.len())
    }

    fn flush(&mut self) -> io::Result<()> {
        self.lengths.push(0)?;
        Ok(())
    }
}

// A text of lines with these lengths, each with a newline, but for the last.
fn text_of(alloc: Global, lengths: &[usize]) -> Result<Vec<u8>, Fail> {
    let mut text = Vec::new(alloc);
    for (place, length) in lengths.iter().enumerate() {
        if place > 0 {
            text.push(b'\n')?;
        }
        for byte in 0..*length {
            text.push(b'a' + (byte % 23) as u8)?;
        }
    }
    Ok(text)
}

// Copies an input, and compares the writes and flushes. Returns what was written.
fn copy<R: AllocGlobal + Abort, I: Read + Ready + Drop>(
    rt: &R,
    input: I,
    split: Split,
    writes: &[usize],
) -> Result<Vec<u8>, Fail> {
    let mut kept = Kept {
        bytes: Vec::new(rt.alloc()),
        lengths: Vec::new(rt.alloc()),
    };
    let mut input = BufReader::new(rt.alloc(), input)?;
    let copied = copy_pieces(rt.alloc(), &mut input, &mut kept, split);
    assert!(rt; copied.is_ok(), "all is copied");
    expect_eq(rt, kept.lengths.as_slice(), writes);
    Ok(kept.bytes)
}

// Copies lines of these lengths.
fn check<R: AllocGlobal + Abort>(
    rt: &R,
    split: Split,
    lines: &[usize],
    writes: &[usize],
) -> Result<(), Fail> {
    let text = text_of(rt.alloc(), lines)?;
    let bytes = copy(rt, text.as_slice(), split, writes)?;
    assert!(rt; bytes == text, "the bytes are those of the text");
    Ok(())
}

const MOST: usize = LONGEST_LINE;

const HALF: usize = MOST / 2;

// Also blocks, whose input is ready here: the first is flushed, and then twice as many bytes each time, up to a MiB.
#[test]
fn long_lines_are_written_in_pieces(rt: HostRuntime) -> Result<(), Fail> {
    let lines = Split::Lines;
    check(&rt, lines, &[0], &[])?;
    check(&rt, lines, &[3, 0, 2], &[4, 1, 2])?;
    // With its newline the first line has the greatest length.
    check(&rt, lines, &[MOST - 1, 1], &[MOST, 1])?;
    check(&rt, lines, &[MOST, 1], &[MOST, 1, 1])?;
    check(&rt, lines, &[MOST + 5, 1], &[MOST, 6, 1])?;
    check(&rt, lines, &[1, 2 * MOST + 5], &[2, MOST, MOST, 5])?;
    let blocks = Split::Blocks;
    check(&rt, blocks, &[3, 0, 2], &[5, 0, 2])?;
    check(&rt, blocks, &[MOST + 5, 1], &[MOST, 0, 6, 1])?;
    check(
        &rt,
        blocks,
        &[HALF - 1, HALF - 1, HALF - 1, HALF - 1, HALF - 1, 1],
        &[HALF, 0, HALF, HALF, 0, HALF, HALF, 0, 1],
    )
}

// What single reads return, and the writes and flushes of blocks.
static BLOCKS: [(&[Part], &[usize]); 5] = [
    (&[Bytes(b"a\n"); 8], &[2, 0, 2, 2, 0, 2, 2, 2, 2, 0, 2]),
    (
        &[Bytes(b"a\nb\n"), Later(b"c\n"), Later(b"")],
        &[4, 0, 2, 0],
    ),
    (&[Bytes(b"a\nb"), Bytes(b"c\nd")], &[2, 0, 3, 1, 0]),
    (
        &[Later(b"a\nb"), Later(b"c"), Bytes(b"\nd\n"), Later(b"")],
        &[2, 0, 5, 0],
    ),
    (
        &[
            Bytes(b"a\nb\n"),
            Bytes(b"c\n"),
            Bytes(b"d"),
            Later(b"e\n"),
            Later(b""),
        ],
        &[4, 0, 2, 0, 3, 0],
    ),
];

// A block is all whole lines that were read; a part of a line waits for its rest. A flush precedes each read that is not ready.
#[test]
fn blocks_are_flushed_before_a_wait(rt: HostRuntime) -> Result<(), Fail> {
    for (parts, writes) in &BLOCKS {
        let _ = copy(&rt, Parts { parts }, Split::Blocks, writes)?;
    }
    Ok(())
}
