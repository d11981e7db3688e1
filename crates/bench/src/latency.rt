// The time of one write by each of several threads that write all the time.
use crate::row::Case;
use crate::sink::start;
use appender_non_blocking::non_blocking::{Host, NonBlocking};
use std::io::Write;
use std::sync::atomic::AtomicU64;
use std::sync::{Arc, Wait};
use std::thread::{JoinHandle, Threads};
use std::time::{Clock, Instant};
use std::{io, thread};

type Times = JoinHandle<io::Result<Vec<u128>>>;

/// Prints the times that half, 99 % and 99.9 % of the writes don't exceed.
pub(crate) fn measure<R: Host>(rt: R, case: Case<'_>, round: u32) -> io::Result<()> {
    let told = Arc::new(rt.alloc(), AtomicU64::new(0))?;
    let (sender, guard) = start(rt, case, told)?;
    let counter = sender.error_counter()?;
    let times = send_all(rt, sender, case)?;
    drop(guard);
    print(
        &rt,
        case,
        round,
        times.as_slice(),
        counter.dropped_lines() as u64,
    )
}

// Returns the times of all writes, the shortest first.
fn send_all<R: Host>(rt: R, sender: NonBlocking<R>, case: Case<'_>) -> io::Result<Vec<u128>> {
    let mut running = Vec::new(rt.alloc());
    for _ in 0..case.senders {
        running.push(start_one(rt, sender.clone()?, case)?)?;
    }
    drop(sender);
    let mut times = Vec::new(rt.alloc());
    for thread in running {
        times.extend_from_slice(thread.join(&rt)?.as_slice())?;
    }
    times.sort_unstable();
    Ok(times)
}

fn start_one<R: Host>(rt: R, sender: NonBlocking<R>, case: Case<'_>) -> io::Result<Times> {
    let line = vec![in rt.alloc(); b'x'; case.bytes as usize]?;
    let times = Vec::with_capacity(rt.alloc(), case.each as usize)?;
    let each = case.each;
    let started = thread::spawn(&rt, move || {
        times_of(&rt, sender, line.as_slice(), each, times)
    })?;
    Ok(started)
}

// Adds the nanoseconds that each write takes, with one reading of the clock.
fn times_of<R: Wait + Clock + Drop>(
    rt: &R,
    sender: NonBlocking<R>,
    line: &[u8],
    count: u32,
    times: Vec<u128>,
) -> io::Result<Vec<u128>> {
    let (mut sender, mut times) = (sender, times);
    for _ in 0..count {
        let start = Instant::now(rt)?;
        let _ = sender.write(line);
        times.push(start.elapsed(rt)?.as_nanos())?;
    }
    Ok(times)
}

static SHARES: [(&str, usize); 3] = [("p50", 500), ("p99", 990), ("p99.9", 999)];

fn print<R: Print>(
    rt: &R,
    case: Case<'_>,
    round: u32,
    times: &[u128],
    dropped: u64,
) -> io::Result<()> {
    for (mode, thousandths) in &SHARES {
        let place = (times.len() / 1000).saturating_mul(*thousandths);
        let nanos = times.get(place).copied().unwrap_or(0);
        let nanos = nanos.saturating_mul(u128::from(case.lines()));
        case.print(rt, *mode, round, nanos, dropped)?;
    }
    Ok(())
}
