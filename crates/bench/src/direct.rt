// The time of a line that is written directly to a log.
use crate::row::Case;
use appender_rolling::rolling;
use appender_rolling::rolling::{Builder, FileAppender, MakeWriter, RollingFileAppender, Rotation};
use appender_store::store::Folder;
use std::io::{ErrorKind, Write};
use std::sync::Wait;
use std::thread::Threads;
use std::time::{Clock, Instant};
use std::{io, thread};

/// Opens the log of this hour in the current folder. If the limit is not 0, its files have so many bytes.
pub(crate) fn open_log(rt: HostRuntime, limit: u32) -> io::Result<FileAppender> {
    let builder = Builder::new()
        .rotation(Rotation::HOURLY)
        .filename_prefix(rt.alloc(), "bench")?
        .max_file_bytes(u64::from(limit));
    match builder.build(rt, ".") {
        Ok(log) => Ok(log),
        Err(_) => Err(io::Error::from(ErrorKind::NotFound)),
    }
}

/// Measures a log of one thread, once a round.
pub(crate) fn measure_alone<W: Write, R: Clock + AllocGlobal + Print>(
    rt: &R,
    case: Case<'_>,
    rounds: u32,
    log: &mut W,
) -> io::Result<()> {
    for round in 0..rounds {
        let nanos = time_alone(rt, case, log)?;
        case.print(rt, case.mode, round, nanos, 0)?;
    }
    Ok(())
}

/// Takes lines of many threads.
pub(crate) trait Shared {
    /// Writes a line by a writer of its own, and returns the number of bytes that were taken.
    fn write_line(&self, line: &[u8]) -> io::Result<usize>;
}

impl<S: Folder, C: rolling::Clock, H: Wait + Drop> Shared for RollingFileAppender<S, C, H> {
    fn write_line(&self, line: &[u8]) -> io::Result<usize> {
        self.make_writer()?.write(line)
    }
}

/// Measures a log that threads share, once a round.
pub(crate) fn measure_together<L: Shared + Sync, R: Threads + Clock + AllocGlobal + Print + Sync>(
    rt: &R,
    case: Case<'_>,
    rounds: u32,
    log: &L,
) -> io::Result<()> {
    for round in 0..rounds {
        let nanos = time_together(rt, case, log)?;
        case.print(rt, case.mode, round, nanos, 0)?;
    }
    Ok(())
}

// Returns the nanoseconds that the lines of a case take in one thread.
fn time_alone<W: Write, R: Clock + AllocGlobal>(
    rt: &R,
    case: Case<'_>,
    log: &mut W,
) -> io::Result<u128> {
    let line = vec![in rt.alloc(); b'x'; case.bytes as usize]?;
    let start = Instant::now(rt)?;
    for _ in 0..case.each {
        log.write(line.as_slice())?;
    }
    Ok(start.elapsed(rt)?.as_nanos())
}

// Returns the nanoseconds that the lines of a case take in its threads.
fn time_together<L: Shared + Sync, R: Threads + Clock + AllocGlobal + Sync>(
    rt: &R,
    case: Case<'_>,
    log: &L,
) -> io::Result<u128> {
    let line = vec![in rt.alloc(); b'x'; case.bytes as usize]?;
    let line = line.as_slice();
    let start = Instant::now(rt)?;
    let wrote = thread::map_indices(
        rt,
        rt.alloc(),
        case.senders as usize,
        &|_| { write_all(log, line, case.each).is_ok() },
    )?;
    let nanos = start.elapsed(rt)?.as_nanos();
    if wrote.contains(&false) {
        return Err(io::Error::from(ErrorKind::WriteZero));
    }
    Ok(nanos)
}

fn write_all<L: Shared>(log: &L, line: &[u8], lines: u32) -> io::Result<()> {
    for _ in 0..lines {
        log.write_line(line)?;
    }
    Ok(())
}
