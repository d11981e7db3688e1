// The time of a line, from the first one that is sent until the last one is written.
use crate::row::Case;
use crate::sink::start;
use appender_non_blocking::non_blocking::{Host, NonBlocking};
use std::alloc::Global;
use std::io::{ErrorKind, Write};
use std::sync::atomic::AtomicU64;
use std::sync::atomic::Ordering::SeqCst;
use std::sync::{Arc, Barrier, Wait};
use std::thread::{JoinHandle, Threads};
use std::time::{Duration, Instant};
use std::{io, thread};

/// Measures a queue. Fails if a line was neither written nor counted as dropped.
pub(crate) fn measure<R: Host>(rt: R, case: Case<'_>, round: u32) -> io::Result<()> {
    let told = Arc::new(rt.alloc(), AtomicU64::new(0))?;
    let (nanos, dropped) = time_all(rt, case, told.clone()?)?;
    let written = case.lines().saturating_sub(dropped);
    if told.load(SeqCst) != written.saturating_mul(u64::from(case.bytes)) {
        return Err(io::Error::from(ErrorKind::InvalidData));
    }
    case.print(&rt, case.mode, round, nanos, dropped)
}

// Returns the nanoseconds that the lines of a case take, and how many of them were dropped.
fn time_all<R: Host>(
    rt: R,
    case: Case<'_>,
    told: Arc<AtomicU64, Global>,
) -> io::Result<(u128, u64)> {
    let (sender, guard) = start(rt, case, told)?;
    let counter = sender.error_counter()?;
    let start = send_all(rt, sender, case)?;
    drop(guard);
    let dropped = counter.dropped_lines() as u64;
    Ok((start.elapsed(&rt)?.as_nanos(), dropped))
}

// Sends the lines of a case from its threads, and returns the moment at which they began.
fn send_all<R: Host>(rt: R, sender: NonBlocking<R>, case: Case<'_>) -> io::Result<Instant> {
    let threads = (case.senders as usize).saturating_add(1);
    let gate = Arc::new(rt.alloc(), Barrier::new(threads))?;
    let mut running = Vec::new(rt.alloc());
    for _ in 0..case.senders {
        running.push(start_one(rt, sender.clone()?, gate.clone()?, case)?)?;
    }
    drop(sender);
    // Time for all threads to reach the gate.
    thread::sleep(&rt, Duration::from_millis(2));
    let start = Instant::now(&rt)?;
    gate.wait(&rt);
    join_all(&rt, running);
    Ok(start)
}

// Starts a thread that sends its lines once all threads have reached the gate.
fn start_one<R: Host>(
    rt: R,
    sender: NonBlocking<R>,
    gate: Arc<Barrier, Global>,
    case: Case<'_>,
) -> io::Result<JoinHandle<()>> {
    let line = vec![in rt.alloc(); b'x'; case.bytes as usize]?;
    let (clones, each) = (case.mode.starts_with("each"), case.each);
    let started = thread::spawn(&rt, move || {
        gate.wait(&rt);
        if clones {
            send_by_clones(sender, line.as_slice(), each);
        } else {
            send_some(sender, line.as_slice(), each);
        }
    })?;
    Ok(started)
}

fn join_all<R: Threads>(rt: &R, running: Vec<JoinHandle<()>>) {
    for thread in running {
        thread.join(rt);
    }
}

fn send_some<R: Wait + Drop>(sender: NonBlocking<R>, line: &[u8], count: u32) {
    let mut sender = sender;
    for _ in 0..count {
        let _ = sender.write(line);
    }
}

// Sends each line by a clone. If a clone can't be made its line is lost, and the check of the counts fails.
fn send_by_clones<R: Wait + Drop + Copy>(sender: NonBlocking<R>, line: &[u8], count: u32) {
    for _ in 0..count {
        if let Ok(mut clone) = sender.clone() {
            let _ = clone.write(line);
        }
    }
}
