// Runs without a queue.
use crate::logs::{TestLog, Text};
use crate::run::check_log;
use std::io;
use std::io::{ErrorKind, Read};
use std::sync::Wait;
use std::test::Fail;

// A log whose text is only what is flushed.
#[derive(Drop)]
struct Flushed<R: Wait> {
    waiting: Vec<u8>,
    text: Text<R>,
}

impl<R: Wait> TestLog for Flushed<R> {
    fn put(&mut self, bytes: &[u8]) -> io::Result<usize> {
        self.waiting.extend_from_slice(bytes)?;
        Ok(bytes.len())
    }

    fn flush_all(&mut self) -> io::Result<()> {
        self.text.add(self.waiting.as_slice())?;
        self.waiting.clear();
        Ok(())
    }
}

// An input of three lines, each by one read. A read fails if the text lacks a byte that was read before.
#[derive(Drop)]
struct Blocks<R: Wait> {
    read: usize,
    text: Text<R>,
}

impl<R: Wait> Read for Blocks<R> {
    fn read(&mut self, buf: &mut [u8]) -> io::Result<usize> {
        if self.text.length() != self.read {
            return Err(io::Error::from(ErrorKind::Other));
        }
        if self.read == 15 {
            return Ok(0);
        }
        let read = b"line\n".as_slice().read(buf)?;
        self.read = self.read.saturating_add(read);
        Ok(read)
    }
}

// Each read is a short one, after which the input may pause.
#[test]
fn each_block_is_flushed_before_the_next_is_read(rt: HostRuntime) -> Result<(), Fail> {
    let text = Text::new(rt)?;
    let log = Flushed {
        waiting: Vec::new(rt.alloc()),
        text: text.share()?,
    };
    let mut input = Blocks { read: 0, text };
    check_log(rt, log, "never dir app --direct", &mut input, (0, ""));
    Ok(())
}
