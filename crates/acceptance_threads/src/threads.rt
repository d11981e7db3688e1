// Senders in threads of their own, and the order of their lines.
use crate::expect::{expect_eq, put};
use crate::gate::Seen;
use crate::stage::AnySender;
use appender_non_blocking::non_blocking::Host;
use std::alloc::{AllocError, Global};
use std::process::Abort;
use std::thread::JoinHandle;
use std::{io, thread};

/// The tickets of the lines of a sender that were queued; none if the sender has no tickets.
pub(crate) type Tickets = Vec<Option<u64>>;

/// A thread that gives its sender back.
pub(crate) type Running<T> = JoinHandle<(T, Tickets)>;

// Line k of thread n. No two lines are the same.
fn text(alloc: Global, thread: usize, line: usize) -> Result<String, AllocError> {
    format!(in alloc; "{thread} {line}")
}

// Writes a line, and returns whether it was queued.
fn write_one<T: AnySender, R: Host>(rt: R, sender: &mut T, number: usize, line: usize) -> bool {
    match text(rt.alloc(), number, line) {
        Ok(text) => matches!(sender.send(text.as_bytes()), Ok(true)),
        Err(_) => false,
    }
}

fn write_all<T: AnySender, R: Host>(
    rt: R,
    number: usize,
    mut sender: T,
    lines: usize,
) -> (T, Tickets) {
    let mut tickets = Vec::new(rt.alloc());
    for line in 0..lines {
        if write_one(rt, &mut sender, number, line) {
            let _ = tickets.push(sender.ticket()).is_ok();
        }
    }
    (sender, tickets)
}

fn start_one<T: AnySender, R: Host>(
    rt: R,
    number: usize,
    sender: T,
    lines: usize,
) -> io::Result<Running<T>> {
    Ok(thread::spawn(&rt, move || { write_all(rt, number, sender, lines) })?)
}

/// Moves each sender to a thread that writes this number of lines.
pub(crate) fn start<T: AnySender, R: Host + Abort>(
    rt: R,
    senders: &mut Vec<T>,
    lines: usize,
) -> Vec<Running<T>> {
    let mut running = Vec::new(rt.alloc());
    for number in 0..senders.len() {
        let sender = senders.pop().expect(&rt, "a sender");
        let thread = start_one(rt, number, sender, lines).expect(&rt, "a thread");
        put(&rt, &mut running, thread);
    }
    running
}

/// Joins the threads, and puts their senders back. Returns the tickets of each, in the order of their start.
pub(crate) fn join<T: AnySender, R: Host + Abort>(
    rt: R,
    running: Vec<Running<T>>,
    senders: &mut Vec<T>,
) -> Vec<Tickets> {
    let mut told = Vec::new(rt.alloc());
    for thread in running {
        let (sender, tickets) = thread.join(&rt);
        put(&rt, senders, sender);
        put(&rt, &mut told, tickets);
    }
    told
}

/// Returns how many lines all threads queued.
pub(crate) fn count(told: &[Tickets]) -> usize {
    let mut count = 0usize;
    for tickets in told {
        count = count.saturating_add(tickets.len());
    }
    count
}

/// Returns how many of their lines were written. Those of each thread are in its order, once, and each is at the place of its
/// ticket, or the test ends.
pub(crate) fn count_in_order<R: Host + Abort>(rt: R, told: &[Tickets], seen: &Seen) -> usize {
    let mut count = 0usize;
    for (number, tickets) in told.iter().enumerate() {
        count = count.saturating_add(count_of(rt, number, tickets.as_slice(), seen));
    }
    count
}

fn count_of<R: Host + Abort>(rt: R, number: usize, tickets: &[Option<u64>], seen: &Seen) -> usize {
    let (mut count, mut after) = (0usize, 0usize);
    for ticket in tickets {
        let line = text(rt.alloc(), number, count).expect(&rt, "memory");
        let Some(place) = seen.place_of(&rt, after, line.as_bytes()) else {
            break;
        };
        after = place.saturating_add(1);
        count = count.saturating_add(1);
        if let Some(ticket) = ticket {
            expect_eq(&rt, number, *ticket, after as u64);
        }
    }
    count
}
