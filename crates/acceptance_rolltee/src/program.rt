// The whole program.
use crate::expect::expect_eq;
use crate::inputs::{Part, Parts, lines_of};
use crate::logs::{OneLog, Taking, TestLog, Text};
use crate::run::{check, check_log, words_of};
use rolltee_core::losses::TeeLosses;
use rolltee_core::tee::{Logs, tee};
use std::process::Abort;
use std::sync::Wait;
use std::test::Fail;
use std::time::{Clock, Duration};
use std::{io, thread};
use tracing_appender::non_blocking::Host;

// A log whose flush takes its time.
#[derive(Drop)]
struct Stuck<R: Clock> {
    rt: R,
}

impl<R: Clock> TestLog for Stuck<R> {
    fn put(&mut self, buf: &[u8]) -> io::Result<usize> {
        Ok(buf.len())
    }

    fn flush_all(&mut self) -> io::Result<()> {
        thread::sleep(&self.rt, Duration::from_secs(3));
        Ok(())
    }
}

// A log that takes its time for the first write, which it interrupts once.
#[derive(Drop)]
struct Interrupting<R: Clock + Wait> {
    rt: R,
    begun: bool,
    text: Text<R>,
}

impl<R: Clock + Wait> TestLog for Interrupting<R> {
    fn put(&mut self, buf: &[u8]) -> io::Result<usize> {
        if !self.begun {
            self.begun = true;
            thread::sleep(&self.rt, Duration::from_millis(300));
            return Err(io::Error::from(io::ErrorKind::Interrupted));
        }
        self.text.put(buf)
    }
}

// A log that takes one line by a write, 2 bytes of one that begins with `c`, and nothing of one that begins with `r`.
#[derive(Drop)]
struct Narrow {
    kind: io::ErrorKind,
}

impl TestLog for Narrow {
    fn put(&mut self, buf: &[u8]) -> io::Result<usize> {
        match buf {
            [b'c', _, ..] => Ok(2),
            [b'r', ..] => Err(io::Error::from(self.kind)),
            _ => Ok(
                buf.iter()
                    .position(|byte| *byte == b'\n')
                    .map_or(buf.len(), |place| place + 1),
            ),
        }
    }
}

// Also while the log takes no line, and if its first write is interrupted.
#[test]
fn loses_no_line(rt: HostRuntime) -> Result<(), Fail> {
    let lines = lines_of(rt.alloc(), 3000, 9)?;
    let text = Text::new(rt)?;
    let log = Interrupting {
        rt,
        begun: false,
        text: text.share()?,
    };
    check_log(rt, log, "never dir app", &mut lines.as_slice(), (0, ""));
    text.expect(lines.as_slice());
    Ok(())
}

// An input that is interrupted after its first line, or can't be read on. What was read before is written, but for a part of a line.
static HALTS: [(io::ErrorKind, (u8, &str), &str); 3] = [
    (io::ErrorKind::Interrupted, (0, ""), "a\nbc\nd"),
    (
        io::ErrorKind::PermissionDenied,
        (1, "read failed\n@permission denied\n"),
        "a\n",
    ),
    (io::ErrorKind::OutOfMemory, (3, "no memory\n"), "a\n"),
];

#[test]
fn an_input_halts(rt: HostRuntime) -> Result<(), Fail> {
    for line in ["never dir app", "never dir app --direct"] {
        for (kind, told, wanted) in &HALTS {
            let parts = [
                Part::Bytes(b"a\nb"),
                Part::Fails(*kind),
                Part::Bytes(b"c\nd"),
            ];
            let text = Text::new(rt)?;
            let mut input = Parts { parts: &parts };
            check_log(rt, text.share()?, line, &mut input, *told);
            text.expect(wanted.as_bytes());
        }
    }
    Ok(())
}

// Runs the program without options, and compares its status and what it reports.
fn check_plain<R: Host + Abort, L: Logs>(rt: R, logs: L, line: &str, told: (u8, &str)) {
    let words = words_of(rt.alloc(), line).expect(&rt, "memory");
    let mut errors = Vec::new(rt.alloc());
    let mut input = b"a\n".as_slice();
    let status = tee(rt, logs, words.as_slice(), &mut input, &mut errors);
    expect_eq(&rt, errors.as_slice(), told.1.as_bytes());
    expect_eq(&rt, status, told.0);
}

#[test]
fn prints_its_usage(rt: HostRuntime) {
    for line in [
        "",
        "never  app",
        "never dir",
        "never dir app more",
        "yearly dir app",
        "Never dir app",
    ] {
        let usage = "usage: rolltee ROTATION DIR PREFIX\n";
        check_plain(rt, OneLog::new(Taking::ALL), line, (2, usage));
    }
    check_plain(rt, OneLog::new(Taking::ALL), "weekly dir app", (0, ""));
    let none: OneLog<Taking> = OneLog::none();
    check_plain(rt, none, "never dir app", (1, "out of memory\n"));
}

// Lines that the log takes whole, and of which it takes nothing or a beginning.
static TAKEN: [(&str, bool); 6] = [
    ("", true),
    ("a\n\nb", true),
    ("a\ncut\nb\n", true),
    ("refused\na\n", false),
    ("a\nb\nrefused", false),
    ("a\ncarried\nb", false),
];

// If it is not to wait, a full disk is a fault as others are.
#[test]
fn reports_lines_that_the_log_did_not_take(rt: HostRuntime) {
    for (line, kind, told) in [
        (
            "never dir app",
            io::ErrorKind::OutOfMemory,
            "write failed\n@lines not written whole: 1\n",
        ),
        ("never dir app --no-wait", io::ErrorKind::StorageFull, CUT),
        (
            "never dir app --direct --no-wait",
            io::ErrorKind::StorageFull,
            CUT,
        ),
    ] {
        for (text, whole) in &TAKEN {
            let mut input = text.as_bytes();
            let told = if *whole { (0, "") } else { (1, told) };
            check_log(rt, Narrow { kind }, line, &mut input, told);
        }
    }
}

static CUT: &str = "@lines not written whole: 1\n";

// A lost file is reported, and a flush that failed.
#[test]
fn reports_what_the_log_lost(rt: HostRuntime) {
    for (gone, unsynced, told) in [
        (1, 0, "@log files not found again: 1\n"),
        (0, 1, "@syncs that failed: 1\n"),
    ] {
        let losses = TeeLosses {
            gone,
            unsynced,
            ..TeeLosses::NONE
        };
        for line in ["never dir app --sync", "never dir app --direct"] {
            let mut input = b"a\n".as_slice();
            check_log(rt, Taking { losses }, line, &mut input, (1, told));
        }
    }
}

// The first fault is reported: that of the input, before a line that is lost, and before a flush that takes longer than the end waits.
#[test]
fn reports_the_first_fault(rt: HostRuntime) {
    let parts = [
        Part::Bytes(b"refused\n"),
        Part::Fails(io::ErrorKind::PermissionDenied),
    ];
    let told = (1, "read failed\n@permission denied\n");
    for line in ["never dir app", "never dir app --direct"] {
        let kind = io::ErrorKind::OutOfMemory;
        check_log(
            rt,
            Narrow { kind },
            line,
            &mut Parts { parts: &parts },
            told,
        );
    }
    let mut input = Parts { parts: &parts };
    check_log(rt, Stuck { rt }, "never dir app", &mut input, told);
}

// The log takes longer for its flush than the end waits.
#[test]
fn reports_that_the_log_is_still_flushed(rt: HostRuntime) {
    let mut input = b"a\n".as_slice();
    check_log(
        rt,
        Stuck { rt },
        "never dir app",
        &mut input,
        (
            1,
            "shutdown pending\n@the last flush takes more than a second\n",
        ),
    );
}

// Also if there is no memory for an opening.
#[test]
fn reports_why_no_log_is_opened(rt: HostRuntime) {
    for line in ["never dir app", "never dir app --direct"] {
        let logs: OneLog<Taking> = OneLog::none();
        let mut input = b"a\n".as_slice();
        check(
            rt,
            logs,
            line,
            &mut input,
            io::sink(),
            (1, "out of memory\n@no log was opened\n"),
        );
    }
}
