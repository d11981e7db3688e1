// Faults that pass, and faults that last.
use crate::expect::{expect_eq, expect_eq_of};
use crate::writer::Act::{Accept, Fail, Os};
use crate::writer::{Act, FaultyWriter};
use std::cell::RefCell;
use std::fmt::Display;
use std::io;
use std::io::{ErrorKind, Write};
use std::process::Abort;
use std::sync::Wait;
use std::time::{Clock, Duration};
use tracing_appender::waiting::{Faults, WaitingWriter, write_waiting};

// A runtime that records what is printed, and for how many milliseconds it is to sleep.
#[derive(Drop)]
struct Recorder<'a, R> {
    rt: &'a R,
    printed: RefCell<Vec<u8>>,
    pauses: RefCell<Vec<u128>>,
}

impl<'a, R: AllocGlobal> Recorder<'a, R> {
    fn new(rt: &'a R) -> Recorder<'a, R> {
        Recorder {
            rt,
            printed: RefCell::new(Vec::new(rt.alloc())),
            pauses: RefCell::new(Vec::new(rt.alloc())),
        }
    }
}

impl<'a, R: Wait> Wait for Recorder<'a, R> {}

impl<'a, R> Clock for Recorder<'a, R> {
    fn monotonic(&self) -> io::Result<Duration> {
        Err(io::Error::from(ErrorKind::Unsupported))
    }

    fn since_1970(&self) -> io::Result<Duration> {
        Err(io::Error::from(ErrorKind::Unsupported))
    }

    fn sleep(&self, duration: Duration) {
        if let Ok(mut pauses) = self.pauses.try_borrow_mut() {
            let _ = pauses.push(duration.as_millis());
        }
    }
}

impl<'a, R> Eprint for Recorder<'a, R> {
    fn eprint<D: Display + Drop>(&self, value: D) -> io::Result<()> {
        match self.printed.try_borrow_mut() {
            Ok(mut printed) => write!(*printed, "{value}"),
            Err(_) => Err(io::Error::from(ErrorKind::ResourceBusy)),
        }
    }

    fn eprintln<D: Display + Drop>(&self, value: D) -> io::Result<()> {
        self.eprint(format_args!("{value}\n"))
    }
}

// The faults that a writer waits for, and what the disk does. What a write of six bytes returns, what the disk keeps,
// what is printed, and the pauses.
#[rattlefmt::skip]
type Waited = (Faults, &'static [Act], Result<usize, ErrorKind>, &'static str, &'static str, &'static [u128]);

// Errors of Linux: 4 is EINTR, 5 EIO, 11 EAGAIN, 12 ENOMEM, 13 EACCES, 28 ENOSPC, 122 EDQUOT.
#[rattlefmt::skip]
static WAITED: [Waited; 16] = [
    (Faults::Temporary, &[], Ok(6), "abcdef", "", &[]),
    (Faults::Temporary, &[Accept(1), Accept(2)], Ok(6), "abcdef", "", &[]),
    // The rest is written from where the disk got full, and nothing twice.
    (Faults::Temporary, &[Accept(2), Os(28), Os(28), Os(28), Os(28), Os(28), Os(28), Accept(1)], Ok(6), "abcdef",
        "writes pause: No space left on device (os error 28)\nwrites go on\n", &[100, 200, 400, 800, 1000, 1000]),
    // Each fault that may pass.
    (Faults::Temporary, &[Accept(3), Os(28)], Ok(6), "abcdef",
        "writes pause: No space left on device (os error 28)\nwrites go on\n", &[100]),
    (Faults::Temporary, &[Accept(3), Os(122)], Ok(6), "abcdef",
        "writes pause: Disk quota exceeded (os error 122)\nwrites go on\n", &[100]),
    (Faults::Temporary, &[Accept(3), Os(11)], Ok(6), "abcdef",
        "writes pause: Resource temporarily unavailable (os error 11)\nwrites go on\n", &[100]),
    (Faults::Temporary, &[Accept(3), Os(5)], Ok(6), "abcdef",
        "writes pause: Input/output error (os error 5)\nwrites go on\n", &[100]),
    // A disk that gets full again is a fault of its own.
    (Faults::Temporary, &[Os(28), Os(28), Accept(1), Os(28)], Ok(6), "abcdef",
        "writes pause: No space left on device (os error 28)\nwrites go on\n\
        writes pause: No space left on device (os error 28)\nwrites go on\n", &[100, 200, 100]),
    // An interrupted write is repeated at once.
    (Faults::Temporary, &[Os(4), Accept(1), Os(4), Os(4)], Ok(6), "abcdef", "", &[]),
    // Faults that last.
    (Faults::Temporary, &[Accept(2), Os(13)], Err(ErrorKind::PermissionDenied), "ab", "", &[]),
    (Faults::Temporary, &[Accept(2), Accept(0)], Err(ErrorKind::WriteZero), "ab", "", &[]),
    (Faults::Temporary, &[Os(5), Os(13)], Err(ErrorKind::PermissionDenied), "",
        "writes pause: Input/output error (os error 5)\n", &[100]),
    // All faults are waited for but these, if that is asked for, however often they come.
    (Faults::Any, &[Os(13); 30], Ok(6), "abcdef",
        "writes pause: Permission denied (os error 13)\nwrites go on\n",
        &[100, 200, 400, 800, 1000, 1000, 1000, 1000, 1000, 1000, 1000, 1000, 1000, 1000, 1000, 1000, 1000, 1000, 1000,
        1000, 1000, 1000, 1000, 1000, 1000, 1000, 1000, 1000, 1000, 1000]),
    (Faults::Any, &[Fail(ErrorKind::Other)], Ok(6), "abcdef",
        "writes pause: other error\nwrites go on\n", &[100]),
    (Faults::Any, &[Os(12)], Err(ErrorKind::OutOfMemory), "", "", &[]),
    (Faults::Any, &[Accept(0)], Err(ErrorKind::WriteZero), "", "", &[]),
];

// Writes six bytes, and waits for these faults.
fn write_six<R: Wait>(
    recorder: &Recorder<'_, R>,
    faults: Faults,
    disk: &mut FaultyWriter,
) -> Result<usize, ErrorKind> {
    let written = match faults {
        Faults::Temporary => WaitingWriter::new(recorder, disk).write(b"abcdef"),
        Faults::Any => write_waiting(recorder, faults, disk, b"abcdef"),
    };
    written.map_err(|error| error.kind())
}

fn check<R: AllocGlobal + Wait + Abort>(rt: &R, row: usize, waited: &Waited) {
    let (faults, acts, written, kept, printed, pauses) = waited;
    let recorder = Recorder::new(rt);
    let mut disk = FaultyWriter::new(rt.alloc(), acts);
    expect_eq_of(rt, row, write_six(&recorder, *faults, &mut disk), *written);
    expect_eq_of(rt, row, disk.text.as_slice(), kept.as_bytes());
    let recorded = recorder.printed.into_inner();
    expect_eq_of(rt, row, recorded.as_slice(), printed.as_bytes());
    expect_eq_of(rt, row, recorder.pauses.into_inner().as_slice(), *pauses);
}

#[test]
fn waits_for_faults_that_may_pass(rt: HostRuntime) {
    for (row, waited) in WAITED.iter().enumerate() {
        check(&rt, row, waited);
    }
}

// No byte makes no write, and a flush is not waited for.
#[test]
fn waits_only_for_bytes(rt: HostRuntime) {
    let recorder = Recorder::new(&rt);
    let mut disk = FaultyWriter::new(rt.alloc(), &[Os(13)]);
    disk.flushes_fail = true;
    let mut writer = WaitingWriter::new(&recorder, &mut disk);
    expect_eq(&rt, writer.write(b"").is_ok(), true);
    let flushed = writer.flush().map_err(|error| error.kind());
    expect_eq(&rt, flushed, Err(ErrorKind::QuotaExceeded));
    expect_eq(&rt, writer.write_all(b"a").is_err(), true);
    expect_eq(&rt, writer.write_all(b"ab").is_ok(), true);
    drop(writer);
    expect_eq(&rt, disk.text.as_slice(), b"ab".as_slice());
    expect_eq(&rt, recorder.printed.into_inner().len(), 0);
    expect_eq(&rt, recorder.pauses.into_inner().len(), 0);
}
