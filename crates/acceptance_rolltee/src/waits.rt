// Logs that are slow or full for a while, and inputs that do not block.
use crate::expect::expect_eq;
use crate::inputs::{Part, Parts, add_lines, lines_of};
use crate::logs::{OneLog, TestLog};
use crate::run::{check_log, run};
use std::alloc::{AllocError, Global};
use std::io::Read;
use std::process::Abort;
use std::sync::Arc;
use std::sync::atomic::Ordering::SeqCst;
use std::sync::atomic::{AtomicBool, AtomicU64};
use std::test::Fail;
use std::time::{Clock, Duration, Instant};
use std::{io, thread};
use tracing_appender::non_blocking::Host;

// How a log behaves.
#[derive(Clone, Copy)]
struct Manner {
    // How long the first write takes, and each other one.
    first_millis: u64,
    other_millis: u64,
    // How many writes fail, from the second one on, and with which error on Linux.
    failures: u32,
    code: i32,
}

// A log that counts its bytes.
#[derive(Drop)]
struct Slow<R: Clock> {
    rt: R,
    manner: Manner,
    begun: bool,
    bytes: Arc<AtomicU64, Global>,
}

impl<R: Clock> TestLog for Slow<R> {
    fn put(&mut self, buf: &[u8]) -> io::Result<usize> {
        let millis = if self.begun {
            self.manner.other_millis
        } else {
            self.manner.first_millis
        };
        thread::sleep(&self.rt, Duration::from_millis(millis));
        if self.begun && self.manner.failures > 0 {
            self.manner.failures -= 1;
            return Err(io::Error::from_raw_os_error(self.manner.code));
        }
        self.begun = true;
        self.bytes.fetch_add(buf.len() as u64, SeqCst);
        Ok(buf.len())
    }
}

// Runs the program over a log of this manner, and compares its status, what it reports, and how many bytes the log took.
fn check<R: Host + Abort, I: Read>(
    rt: R,
    manner: Manner,
    input: &mut I,
    told: (u8, &str),
    taken: u64,
) -> Result<(), Fail> {
    let bytes = Arc::new(rt.alloc(), AtomicU64::new(0)).map_err(AllocError::from)?;
    let log = Slow {
        rt,
        manner,
        begun: false,
        bytes: bytes.clone()?,
    };
    check_log(rt, log, "never dir app", input, told);
    expect_eq(&rt, bytes.load(SeqCst), taken);
    Ok(())
}

static PROMPT: Manner = Manner {
    first_millis: 0,
    other_millis: 0,
    failures: 0,
    code: 0,
};

// The length of a line that is too long to be written with others.
const LONG: usize = (1 << 16) + 1;

// The lines that are queued at the end of the input take two seconds.
#[test]
fn waits_for_a_slow_log(rt: HostRuntime) -> Result<(), Fail> {
    let manner = Manner {
        first_millis: 100,
        other_millis: 100,
        ..PROMPT
    };
    let lines = lines_of(rt.alloc(), 20, LONG)?;
    let taken = lines.len() as u64;
    check(rt, manner, &mut lines.as_slice(), (0, ""), taken)
}

// The queue is full at the end of the input, and the log does not get on with its first line.
#[test]
fn waits_for_a_full_queue(rt: HostRuntime) -> Result<(), Fail> {
    let manner = Manner {
        first_millis: 2000,
        ..PROMPT
    };
    let mut lines = lines_of(rt.alloc(), 1, LONG)?;
    add_lines(&mut lines, 1024, 2)?;
    let taken = lines.len() as u64;
    check(rt, manner, &mut lines.as_slice(), (0, ""), taken)
}

// Also after a fault of the input, the lines before it are written.
#[test]
fn waits_for_a_slow_log_after_a_fault(rt: HostRuntime) -> Result<(), Fail> {
    let manner = Manner {
        first_millis: 2000,
        ..PROMPT
    };
    let parts = [
        Part::Bytes(b"a\nb\n"),
        Part::Fails(io::ErrorKind::PermissionDenied),
    ];
    let mut input = Parts { parts: &parts };
    check(
        rt,
        manner,
        &mut input,
        (1, "read failed\n@permission denied\n"),
        4,
    )
}

// The pauses before the first bytes are 463 milliseconds in all, so it neither spins nor sleeps for long.
#[test]
fn waits_for_an_input_that_does_not_block(rt: HostRuntime) -> Result<(), Fail> {
    let mut parts = [Part::Fails(io::ErrorKind::WouldBlock); 21];
    parts[14] = Part::Bytes(b"a\nb");
    parts[17] = Part::Bytes(b"c\n");
    parts[19] = Part::Bytes(b"d");
    let mut input = Parts { parts: &parts };
    let start = Instant::now(&rt)?;
    check(rt, PROMPT, &mut input, (0, ""), 6)?;
    let millis = start.elapsed(&rt)?.as_millis();
    assert!(rt; 463 <= millis && millis < 2500, "{millis}");
    Ok(())
}

// A disk that refuses two writes, since it is full, fails, is not writable or is read only, or for any other reason of the
// system but memory.
#[test]
fn waits_for_a_disk_that_refuses_writes(rt: HostRuntime) -> Result<(), Fail> {
    for (code, told, written) in [
        (28, (0, ""), 3),
        (5, (0, ""), 3),
        (13, (0, ""), 3),
        (30, (0, ""), 3),
        (27, (0, ""), 3),
        (12, (1, "write failed\n@lines not written whole: 2\n"), 1u64),
    ] {
        let manner = Manner {
            failures: 2,
            code,
            ..PROMPT
        };
        let lines = lines_of(rt.alloc(), 3, LONG)?;
        let taken = written * LONG as u64;
        check(rt, manner, &mut lines.as_slice(), told, taken)?;
    }
    Ok(())
}

// A gate that is open once an input is read, and the length of the longest write after the first one.
#[derive(Drop)]
struct Gate {
    open: AtomicBool,
    longest: AtomicU64,
}

// A log whose first write waits for the gate.
#[derive(Drop)]
struct Gated<R: Clock> {
    rt: R,
    begun: bool,
    gate: Arc<Gate, Global>,
}

impl<R: Clock> TestLog for Gated<R> {
    fn put(&mut self, buf: &[u8]) -> io::Result<usize> {
        if self.begun {
            let longest = self.gate.longest.load(SeqCst).max(buf.len() as u64);
            self.gate.longest.store(longest, SeqCst);
            return Ok(buf.len());
        }
        self.begun = true;
        for _ in 0..10_000u32 {
            if self.gate.open.load(SeqCst) {
                return Ok(buf.len());
            }
            thread::sleep(&self.rt, Duration::from_millis(1));
        }
        Err(io::Error::from(io::ErrorKind::TimedOut))
    }
}

// An input that opens the gate at its end.
#[derive(Drop)]
struct Opening<'a> {
    left: &'a [u8],
    gate: Arc<Gate, Global>,
}

impl<'a> Read for Opening<'a> {
    fn read(&mut self, buf: &mut [u8]) -> io::Result<usize> {
        if self.left.is_empty() {
            self.gate.open.store(true, SeqCst);
        }
        self.left.read(buf)
    }
}

// Runs the program over a log whose first write waits until the input is read, unless the gate is open. Returns its status, what it
// reports, and the length of the longest write after the first one.
fn run_gated<R: Host + Abort>(
    rt: R,
    line: &str,
    text: &[u8],
    open: bool,
) -> Result<(u8, Vec<u8>, u64), Fail> {
    let gate = Gate {
        open: AtomicBool::new(open),
        longest: AtomicU64::new(0),
    };
    let gate = Arc::new(rt.alloc(), gate).map_err(AllocError::from)?;
    let log = Gated {
        rt,
        begun: false,
        gate: gate.clone()?,
    };
    let mut input = Opening {
        left: text,
        gate: gate.clone()?,
    };
    let (status, errors) = run(rt, OneLog::new(log), line, &mut input, io::sink());
    Ok((status, errors, gate.longest.load(SeqCst)))
}

// Lines of 100 bytes are written together up to a sixteenth of a file's limit. In a run with a queue they are up to 64 KiB, else what one
// read took, up to 1 KiB. The first write is a line that is too long for that.
#[test]
fn lines_are_gathered_for_a_part_of_a_file(rt: HostRuntime) -> Result<(), Fail> {
    let mut text = lines_of(rt.alloc(), 1, LONG)?;
    add_lines(&mut text, 900, 100)?;
    for (line, direct, longest) in [
        ("hourly dir app", false, 65_500),
        ("hourly dir app --max-bytes 1G", false, 65_500),
        ("hourly dir app --max-bytes 20800", false, 1_300),
        ("hourly dir app --direct", true, 1_000),
        ("hourly dir app --max-bytes 8000 --direct", true, 500),
        ("hourly dir app --max-bytes 7999 --direct", true, 400),
    ] {
        let (status, _, written) = run_gated(rt, line, text.as_slice(), direct)?;
        expect_eq(&rt, status, 0);
        expect_eq(&rt, written, longest);
    }
    Ok(())
}

// The others wait for the first line: one is queued, and those that the worker had taken before are gathered. All others are dropped,
// and counted.
#[test]
fn drops_lines_that_find_no_room(rt: HostRuntime) -> Result<(), Fail> {
    let text = lines_of(rt.alloc(), 50, LONG)?;
    let line = "never dir app --lossy --queue 1";
    let (status, errors, _) = run_gated(rt, line, text.as_slice(), false)?;
    expect_eq(&rt, status, 1);
    let few = errors.as_slice() == b"rolltee: dir/app: lines dropped: 48\n".as_slice()
        || errors.as_slice() == b"rolltee: dir/app: lines dropped: 49\n".as_slice();
    expect_eq(&rt, few, true);
    Ok(())
}
