//! Measures the time of lines through `NonBlocking`, and of lines that are written directly to a log. `bench/compare` runs it in turns
//! with the Rust crate, so that other load on the machine affects both alike.
#![tactic(auto)]

mod direct;
mod latency;
mod row;
mod sink;
mod throughput;

use appender_non_blocking::non_blocking::Host;
use row::{Case, HEADER};
use std::alloc::Global;
use std::io::ErrorKind;
use std::rt::Env;
use std::{env, io};

const USAGE: &str = "\
usage: bench MODE ROUNDS LINES SENDERS BYTES LIMIT
waiting, lossy: the time of a line through a queue of LIMIT lines, where each of SENDERS threads sends LINES lines
each-waiting, each-lossy: the same, where each line is sent by a new clone of the thread's sender
latency: the time that half, 99 % and 99.9 % of the single writes take at most, to a lossy queue, without a pause between them
direct: the time of a line of SENDERS threads, or with 0 of one alone, to the log of this hour in the current folder,
        whose files take LIMIT bytes, or any number with 0";

static MODES: [&str; 6] = [
    "waiting",
    "lossy",
    "each-waiting",
    "each-lossy",
    "latency",
    "direct",
];

fn main(rt: HostRuntime) -> io::Result<()> {
    let numbers = numbers_of(&rt, rt.alloc())?;
    let Some(mode) = env::args(&rt)?.nth(1) else {
        return println!(rt; "{USAGE}");
    };
    if !MODES.contains(&mode.as_str()) {
        return Err(io::Error::from(ErrorKind::InvalidInput));
    }
    let [rounds, each, senders, bytes, limit] = *numbers.as_slice() else {
        return Err(io::Error::from(ErrorKind::InvalidInput));
    };
    let case = Case {
        mode: mode.as_str(),
        limit,
        bytes,
        senders,
        each,
    };
    println!(rt; "{HEADER}")?;
    if case.mode != "direct" {
        return run(rt, case, rounds);
    }
    let mut log = direct::open_log(rt, limit)?;
    if senders == 0 {
        direct::measure_alone(&rt, case, rounds, &mut log)
    } else {
        direct::measure_together(&rt, case, rounds, &log)
    }
}

// Returns the arguments after the first.
fn numbers_of(rt: &(impl Env + Alloc), alloc: Global) -> io::Result<Vec<u32>> {
    let mut numbers = Vec::new(alloc);
    for word in env::args(rt)?.skip(2) {
        let Ok(number) = word.parse::<u32>() else {
            return Err(io::Error::from(ErrorKind::InvalidInput));
        };
        numbers.push(number)?;
    }
    Ok(numbers)
}

fn run<R: Host>(rt: R, case: Case<'_>, rounds: u32) -> io::Result<()> {
    for round in 0..rounds {
        if case.mode == "latency" {
            latency::measure(rt, case, round)?;
        } else {
            throughput::measure(rt, case, round)?;
        }
    }
    Ok(())
}
