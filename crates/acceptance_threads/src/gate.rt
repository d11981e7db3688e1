// A writer for tests: it records what it takes, and the first byte of a line says what becomes of the line.
ghost use Rattle.std.specs.Prelude.{◌≤◌, length};

use crate::expect::expect_eq;
use appender_non_blocking::non_blocking::Host;
use std::alloc::{AllocError, Global};
use std::io::{ErrorKind, Write};
use std::process::Abort;
use std::sync::atomic::AtomicUsize;
use std::sync::atomic::Ordering::SeqCst;
use std::sync::{Arc, Mutex, Wait};
use std::time::{Clock, Duration};
use std::{fs, io, thread};

// A wait looks so often, a millisecond apart.
const LOOKS: u32 = 10_000;

/// What writer and test share.
#[derive(Drop)]
pub(crate) struct Seen {
    lines: Mutex<Vec<Vec<u8>>>,
    came: AtomicUsize,
    calls: AtomicUsize,
    // Of the line in hand.
    interruptions: AtomicUsize,
    // After the last line.
    flushes: AtomicUsize,
    // How many lines the writer has held, and of how many of them it may let go.
    holds: AtomicUsize,
    opened: AtomicUsize,
    // 1 once its flushes fail, and once it was dropped.
    fails: AtomicUsize,
    ended: AtomicUsize,
}

/// Records lines and flushes. A line that begins with one of these letters is not just taken:
///
/// - `h`: it is held. The write returns when the gate is opened once for each such line so far. If that takes longer than ten
///   seconds, `late` is recorded too, and the write fails.
/// - `s`: its write takes 200 microseconds.
/// - `n`: the name of the thread is recorded in its place, if the gate has files.
/// - `p`: its first byte is taken, and what follows is as a line of its own.
/// - `o`, `i`: it is taken after 100 calls that are interrupted, and after 101.
/// - `r`, `z`: it is refused, and none of its bytes is taken.
/// - `f`: it is taken, and each later flush fails.
pub(crate) struct Gate<R: Host> {
    rt: R,
    files: Option<HostRuntime>,
    seen: Arc<Seen, Global>,
}

/// Returns a gate, and what it shows.
pub(crate) fn new_gate<R: Host>(
    rt: R,
    files: Option<HostRuntime>,
) -> Result<(Gate<R>, Arc<Seen, Global>), AllocError> {
    let seen = Seen {
        lines: Mutex::new(Vec::new(rt.alloc())),
        came: AtomicUsize::new(0),
        calls: AtomicUsize::new(0),
        interruptions: AtomicUsize::new(0),
        flushes: AtomicUsize::new(0),
        holds: AtomicUsize::new(0),
        opened: AtomicUsize::new(0),
        fails: AtomicUsize::new(0),
        ended: AtomicUsize::new(0),
    };
    let gate_seen = Arc::new(rt.alloc(), seen)?;
    let seen = Arc::try_clone(&gate_seen)?;
    let gate = Gate {
        rt,
        files,
        seen: gate_seen,
    };
    Ok((gate, seen))
}

// The name of this thread.
fn thread_name(files: HostRuntime) -> io::Result<Vec<u8>> {
    let name = fs::read(&files, "/proc/thread-self/comm")?;
    Ok(name.trim_ascii_end().to_vec(files.alloc())?)
}

// How many bytes of these a write takes.
fn length_of(buf: &[u8]) -> usize
    ensures { result ≤ length buf.now }
{
    match buf.first() {
        Some(b'p') => buf.len().min(1),
        Some(b'z') => 0,
        _ => buf.len(),
    }
}

// What is called here starts no threads: an `impl` of `Write` can't call what is over a `Host`.
impl<R: Host> Write for Gate<R> {
    fn write(&mut self, buf: &[u8]) -> io::Result<usize> {
        self.seen.calls.fetch_add(1, SeqCst);
        let length = length_of(buf);
        if let Some(files) = self.files
            && buf.starts_with(b"n")
        {
            self.seen.take(&self.rt, thread_name(files)?.as_slice())?;
        } else {
            self.seen.take_by_letter(self.rt, &buf[..length])?;
        }
        Ok(length)
    }

    fn flush(&mut self) -> io::Result<()> {
        self.seen.flushes.fetch_add(1, SeqCst);
        if self.seen.fails.load(SeqCst) == 1 {
            return Err(io::Error::from(ErrorKind::StorageFull));
        }
        Ok(())
    }
}

impl<R: Host> Drop for Gate<R> {
    fn drop(self) {
        let Gate {
            rt: _,
            files: _,
            seen,
        } = self;
        seen.ended.store(1, SeqCst);
    }
}

impl Seen {
    fn take<R: Wait + AllocGlobal>(&self, rt: &R, line: &[u8]) -> io::Result<()> {
        self.flushes.store(0, SeqCst);
        self.interruptions.store(0, SeqCst);
        let line = line.to_vec(rt.alloc())?;
        self.lines.lock(rt).push(line).map_err(AllocError::from)?;
        self.came.fetch_add(1, SeqCst);
        Ok(())
    }

    fn take_by_letter<R: Wait + AllocGlobal + Clock + Copy>(
        &self,
        rt: R,
        line: &[u8],
    ) -> io::Result<()> {
        match line.first() {
            None => return Ok(()),
            Some(b'h') => return self.hold(rt, line),
            Some(b's') => thread::sleep(&rt, Duration::from_micros(200)),
            Some(b'o') => self.interrupt(100)?,
            Some(b'i') => self.interrupt(101)?,
            Some(b'r') => return Err(io::Error::from(ErrorKind::PermissionDenied)),
            Some(b'f') => self.fails.store(1, SeqCst),
            Some(_) => {}
        }
        self.take(&rt, line)
    }

    fn hold<R: Wait + AllocGlobal + Clock + Copy>(&self, rt: R, line: &[u8]) -> io::Result<()> {
        self.take(&rt, line)?;
        let held = self.holds.fetch_add(1, SeqCst).saturating_add(1);
        if reaches(rt, &self.opened, held) {
            return Ok(());
        }
        self.take(&rt, b"late")?;
        Err(io::Error::from(ErrorKind::TimedOut))
    }

    // So many calls are interrupted.
    fn interrupt(&self, times: usize) -> io::Result<()> {
        if self.interruptions.fetch_add(1, SeqCst) < times {
            return Err(io::Error::from(ErrorKind::Interrupted));
        }
        Ok(())
    }

    /// Waits until the writer holds a line, and returns whether it does.
    pub(crate) fn is_held<R: Clock + Copy>(&self, rt: R) -> bool {
        reaches(rt, &self.holds, self.opened.load(SeqCst).saturating_add(1))
    }

    /// Lets the writer go on to the next line that it holds.
    pub(crate) fn opens(&self) {
        self.opened.fetch_add(1, SeqCst);
    }

    /// Waits until the writer was dropped, which its worker's end does, and returns whether it was.
    pub(crate) fn has_ended<R: Clock + Copy>(&self, rt: R) -> bool {
        reaches(rt, &self.ended, 1)
    }

    /// Returns whether the writer was dropped.
    pub(crate) fn is_ended(&self) -> bool {
        self.ended.load(SeqCst) == 1
    }

    /// Waits until this number of lines were taken, and returns whether that happened.
    pub(crate) fn come<R: Clock + Copy>(&self, rt: R, count: usize) -> bool {
        reaches(rt, &self.came, count)
    }

    /// Waits until this number of flushes followed the last line, and returns whether that happened.
    pub(crate) fn flushes_come<R: Clock + Copy>(&self, rt: R, count: usize) -> bool {
        reaches(rt, &self.flushes, count)
    }

    /// Returns how many lines, or parts of lines, were taken.
    pub(crate) fn count(&self) -> usize {
        self.came.load(SeqCst)
    }

    /// Returns how many writes were tried.
    pub(crate) fn calls(&self) -> usize {
        self.calls.load(SeqCst)
    }

    /// Returns how many flushes followed the last line.
    pub(crate) fn last_flushes(&self) -> usize {
        self.flushes.load(SeqCst)
    }

    /// Returns after how many others this line was taken, if that are at least so many.
    pub(crate) fn place_of<R: Wait>(&self, rt: &R, least: usize, line: &[u8]) -> Option<usize> {
        let lines = self.lines.lock(rt);
        for place in least..lines.len() {
            if lines[place].as_slice() == line {
                return Some(place);
            }
        }
        None
    }

    /// Ends the test if other lines were taken. The text has a bar after each.
    pub(crate) fn expect_text<R: Host + Abort>(&self, rt: R, place: &str, wanted: &[u8]) {
        let text = self.text(&rt).expect(&rt, "memory");
        expect_eq(&rt, place, text.as_slice(), wanted);
    }

    fn text<R: Wait + AllocGlobal>(&self, rt: &R) -> Result<Vec<u8>, AllocError> {
        let mut text = Vec::new(rt.alloc());
        for line in self.lines.lock(rt).as_slice() {
            text.extend_from_slice(line.as_slice())?;
            text.push(b'|').map_err(AllocError::from)?;
        }
        Ok(text)
    }
}

// Looks until the number is as great, for ten seconds at most, and returns whether it is.
pub(crate) fn reaches<R: Clock + Copy>(rt: R, number: &AtomicUsize, least: usize) -> bool {
    for _ in 0..LOOKS {
        if number.load(SeqCst) >= least {
            return true;
        }
        thread::sleep(&rt, Duration::from_millis(1));
    }
    false
}
