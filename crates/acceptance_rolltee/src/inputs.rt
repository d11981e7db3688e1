// Inputs of tests.
use program_io::blocking::Ready;
use std::alloc::{AllocError, Global};
use std::io;
use std::io::Read;

/// What one read returns.
#[derive(Clone, Copy)]
pub(crate) enum Part {
    Bytes(&'static [u8]),
    // Bytes that have to be waited for.
    Later(&'static [u8]),
    Fails(io::ErrorKind),
}

/// An input of these parts, and no more.
#[derive(Drop)]
pub(crate) struct Parts<'a> {
    pub(crate) parts: &'a [Part],
}

impl<'a> Read for Parts<'a> {
    fn read(&mut self, buf: &mut [u8]) -> io::Result<usize> {
        let Some((part, others)) = self.parts.split_first() else {
            return Ok(0);
        };
        self.parts = others;
        match *part {
            Part::Bytes(bytes) | Part::Later(bytes) => {
                let mut bytes = bytes;
                bytes.read(buf)
            }
            Part::Fails(kind) => Err(io::Error::from(kind)),
        }
    }
}

impl<'a> Ready for Parts<'a> {
    fn is_ready(&self) -> bool {
        matches!(self.parts.first(), None | Some(Part::Bytes(_)))
    }
}

/// Adds this number of lines of this length in bytes, their newline included.
pub(crate) fn add_lines(text: &mut Vec<u8>, count: u32, length: usize) -> Result<(), AllocError> {
    for _ in 0..count {
        for _ in 1..length {
            text.push(b'a')?;
        }
        text.push(b'\n')?;
    }
    Ok(())
}

/// Returns a text of such lines.
pub(crate) fn lines_of(alloc: Global, count: u32, length: usize) -> Result<Vec<u8>, AllocError> {
    let mut text = Vec::new(alloc);
    add_lines(&mut text, count, length)?;
    Ok(text)
}
