// Lines that are written together: what a fault leaves of them.
use crate::expect::expect_eq;
use crate::logs::{TestLog, Text};
use crate::run::check_log;
use std::alloc::{AllocError, Global};
use std::io;
use std::process::Abort;
use std::sync::Wait;
use std::test::Fail;
use tracing_appender::non_blocking::Host;

// A log that takes this many bytes, fails once, and then takes everything. A line that is given up is marked.
#[derive(Drop)]
struct Failing<R: Wait> {
    room: usize,
    kind: io::ErrorKind,
    failed: bool,
    text: Text<R>,
}

impl<R: Wait> TestLog for Failing<R> {
    fn put(&mut self, buf: &[u8]) -> io::Result<usize> {
        let taken = if self.failed {
            buf.len()
        } else {
            buf.len().min(self.room)
        };
        if taken == 0 && !self.failed {
            self.failed = true;
            return Err(io::Error::from(self.kind));
        }
        self.text.add(&buf[..taken])?;
        self.room = self.room.saturating_sub(taken);
        Ok(taken)
    }

    fn give_up(&mut self) {
        let _ = self.text.add(b"!");
    }
}

static TEXT: &[u8] = b"a\nbcd\n\nef\ng";

// What the log has after a fault at this byte: of the line there, only the bytes before it, and that it was given up.
fn cut_at(alloc: Global, place: usize) -> Result<Vec<u8>, AllocError> {
    let mut text = Vec::new(alloc);
    let mut cut = false;
    for (at, byte) in TEXT.iter().enumerate() {
        if at == place {
            text.push(b'!')?;
            cut = true;
        }
        if !cut {
            text.push(*byte)?;
        }
        cut = cut && *byte != b'\n';
    }
    Ok(text)
}

// Runs the program over a log that fails at this byte.
fn check_fault_at<R: Host + Abort>(
    rt: R,
    room: usize,
    kind: io::ErrorKind,
    line: &str,
    told: (u8, &str),
    wanted: &[u8],
) -> Result<(), Fail> {
    let text = Text::new(rt)?;
    let log = Failing {
        room,
        kind,
        failed: false,
        text: text.share()?,
    };
    let mut input = TEXT;
    check_log(rt, log, line, &mut input, told);
    text.expect(wanted);
    Ok(())
}

static CUT: &str = "@lines not written whole: 1\n";

// However the lines are gathered, a fault cuts the line in which it is, and no other one. An interruption cuts none.
#[test]
fn a_fault_cuts_one_line(rt: HostRuntime) -> Result<(), Fail> {
    for (line, told) in [
        (
            "never dir app",
            "write failed\n@lines not written whole: 1\n",
        ),
        ("never dir app --no-wait", CUT),
        ("never dir app --direct", CUT),
        ("hourly dir app --direct --no-wait --max-bytes 64", CUT),
    ] {
        for place in 0..TEXT.len() {
            let cut = cut_at(rt.alloc(), place)?;
            let (no_memory, again) = (io::ErrorKind::OutOfMemory, io::ErrorKind::Interrupted);
            check_fault_at(rt, place, no_memory, line, (1, told), cut.as_slice())?;
            check_fault_at(rt, place, again, line, (0, ""), TEXT)?;
        }
    }
    Ok(())
}
