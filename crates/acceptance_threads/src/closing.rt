// How long a guard waits, what it leaves, and what it does to senders that wait; and flushes that a sender waits for.
use crate::expect::expect_eq;
use crate::gate::{Seen, new_gate};
use crate::stage::{AnySender, Queue};
use crate::{plain, threads};
use appender_non_blocking::non_blocking::{Closing, Host, NonBlocking, WorkerGuard};
use std::alloc::Global;
use std::io::{ErrorKind, Write};
use std::process::Abort;
use std::sync::Arc;
use std::test::Fail;
use std::time::{Clock, Duration, Instant};
use std::{io, thread};

type Held<R> = (NonBlocking<R>, WorkerGuard<R>, Arc<Seen, Global>);

// A lossy queue of this limit, whose worker writes these lines, and holds the first.
fn start<R: Host + Abort>(rt: R, limit: usize, lines: &[&'static [u8]]) -> io::Result<Held<R>> {
    let (gate, seen) = new_gate(rt, None)?;
    let (mut sender, guard) = plain::start(rt, Queue::Lossy(limit), gate)?;
    for line in lines {
        sender.write_all(line)?;
        expect_eq(&rt, "a held line", seen.is_held(rt), true);
    }
    Ok((sender, guard, seen))
}

// The limit of a queue, what is written, the result of closing its guard, and how long that takes, from and to, in
// milliseconds: a guard waits for a tenth of a second for room, and for a second for the worker's end.
#[rattlefmt::skip]
static TIMES: [(usize, &[&[u8]], Closing, u64, u64); 3] = [
    (1, &[], Closing::Done { left: 0 }, 0, 100),
    (1, &[b"held", b"a"], Closing::Full, 100, 150),
    (2, &[b"held", b"a"], Closing::Pending, 1000, 1500),
];

// Closes a guard, and returns how long that takes.
fn close<R: Host + Abort>(
    rt: R,
    limit: usize,
    lines: &[&'static [u8]],
    wanted: Closing,
) -> io::Result<Duration> {
    let (_sender, guard, seen) = start(rt, limit, lines)?;
    let start = Instant::now(&rt)?;
    let closing = guard.close();
    let time = start.elapsed(&rt)?;
    seen.opens();
    expect_eq(&rt, limit, closing, wanted);
    Ok(time)
}

// A busy machine may delay one guard or another.
#[test]
fn a_guard_waits_as_long_as_it_says(rt: HostRuntime) -> Result<(), Fail> {
    for (limit, lines, wanted, least, most) in &TIMES {
        let mut is_soon = false;
        for _ in 0..10u32 {
            if !is_soon {
                let time = close(rt, *limit, *lines, *wanted)?;
                assert!(rt; time >= Duration::from_millis(*least));
                is_soon = time < Duration::from_millis(*most);
            }
        }
        assert!(rt; is_soon);
    }
    Ok(())
}

// Writes a line once the shutdown is sent, or so it is hoped, and then lets the worker end.
fn write_late<R: Host>(rt: R, mut sender: NonBlocking<R>, seen: &Seen) {
    thread::sleep(&rt, Duration::from_millis(50));
    let _ = sender.write_all(b"late").is_ok();
    seen.opens();
}

// Closes a guard while the worker holds a line and a thread writes another one. Returns whether that was left, and the guard was woken by
// the worker's end, and not by the end of its own time of a second.
fn is_woken<R: Host + Abort>(rt: R) -> io::Result<bool> {
    let (sender, guard, seen) = start(rt, 2, &[b"held"])?;
    let opened = Arc::try_clone(&seen)?;
    let start = Instant::now(&rt)?;
    let thread = thread::spawn(&rt, move || write_late(rt, sender, &*opened))?;
    let closing = guard.close();
    let is_soon = start.elapsed(&rt)? < Duration::from_millis(1000);
    thread.join(&rt);
    let Closing::Done { left } = closing else {
        return Ok(false);
    };
    expect_eq(&rt, "lines", (seen.count() as u64).saturating_add(left), 2);
    Ok(is_soon && left == 1)
}

#[test]
fn the_end_of_a_worker_wakes_its_guard(rt: HostRuntime) -> Result<(), Fail> {
    for _ in 0..10u32 {
        if is_woken(rt)? {
            return Ok(());
        }
    }
    rt.panic("no guard is woken")
}

// How many lines a closed guard left, if the worker ended. On a machine that is busy otherwise it may not get on within the
// guard's time.
fn lines_left(rt: &impl Abort, closing: Closing) -> Option<u64> {
    match closing {
        Closing::Done { left } => Some(left),
        Closing::Full | Closing::Pending => None,
        Closing::Ended => rt.panic("the queue was closed"),
    }
}

// Closes a guard while three senders write. The worker is busy with the first line for so long that the guard waits for room,
// and each sender too. No thread is left asleep: all of them are joined.
fn close_early<R: Host + Abort>(rt: R, limit: usize) {
    let (gate, seen) = new_gate(rt, None).expect(&rt, "memory");
    let (mut sender, guard) = plain::start(rt, Queue::Waiting(limit), gate).expect(&rt, "a worker");
    sender.write_all(b"slow").expect(&rt, "an open queue");
    let mut senders = plain::senders_of(rt, sender, 3, false);
    let running = threads::start(rt, &mut senders, 1);
    let closing = guard.close();
    let told = threads::join(rt, running, &mut senders);
    if let Some(left) = lines_left(&rt, closing) {
        let queued = threads::count(told.as_slice()).saturating_add(1);
        expect_eq(
            &rt,
            limit,
            seen.count().saturating_add(left as usize),
            queued,
        );
    }
}

// Closes guards for 20 seconds at most, if other processes keep the threads waiting.
fn close_often<R: Host + Abort>(rt: R, limit: usize) {
    let longest = Duration::from_secs(20);
    let start = Instant::now(&rt).expect(&rt, "clock");
    for _ in 0..10_000u32 {
        close_early(rt, limit);
        if start.elapsed(&rt).expect(&rt, "clock") > longest {
            break;
        }
    }
}

// The guard may take a call that was meant for a sender, and the queue closes while many wait.
#[test]
fn a_guard_that_waits_leaves_no_sender_asleep(rt: HostRuntime) {
    close_often(rt, 1);
}

// With no place in the queue, each line and the shutdown wait until the worker does.
#[test]
fn a_guard_without_a_place_leaves_no_sender_asleep(rt: HostRuntime) {
    close_often(rt, 0);
}

// The lines of a queue, and what becomes of a flush that is waited for.
#[rattlefmt::skip]
static FLUSHES: [(&[&[u8]], Option<ErrorKind>); 5] = [
    (&[], None),
    (&[b"a", b"b"], None),
    (&[b"a", b"refused"], None),
    (&[b"a", b"fails"], Some(ErrorKind::StorageFull)),
    (&[b"held", b"a"], Some(ErrorKind::TimedOut)),
];

fn flush<R: Host>(rt: R, sender: &NonBlocking<R>, millis: u64) -> Option<ErrorKind> {
    match sender.flush_queued(Duration::from_millis(millis)) {
        Ok(()) => None,
        Err(fault) => Some(fault.kind()),
    }
}

// Waits for a flush of these lines while the worker is there, and after its end.
fn flush_lines<R: Host + Abort>(
    rt: R,
    lines: &[&'static [u8]],
    wanted: Option<ErrorKind>,
) -> io::Result<()> {
    let (gate, seen) = new_gate(rt, None)?;
    let (mut sender, guard) = plain::start(rt, Queue::Waiting(8), gate)?;
    for line in lines {
        sender.write_all(line)?;
    }
    if wanted == Some(ErrorKind::TimedOut) {
        expect_eq(&rt, "a held line", flush(rt, &sender, 20), wanted);
    } else {
        expect_eq(&rt, "a flush", flush(rt, &sender, 10_000), wanted);
        expect_eq(&rt, "writes", seen.calls(), lines.len());
        assert!(rt; seen.last_flushes() > 0);
    }
    seen.opens();
    expect_eq(&rt, "an end", guard.close(), Closing::Done { left: 0 });
    let later = wanted.filter(|kind| *kind != ErrorKind::TimedOut);
    expect_eq(&rt, "after the end", flush(rt, &sender, 10_000), later);
    Ok(())
}

#[test]
fn a_flush_comes_after_the_lines_before_it(rt: HostRuntime) -> Result<(), Fail> {
    for (lines, wanted) in &FLUSHES {
        flush_lines(rt, *lines, *wanted)?;
    }
    Ok(())
}

fn write_and_flush<R: Host + Abort>(rt: R, sender: NonBlocking<R>) -> Option<ErrorKind> {
    let mut sender = sender;
    assert!(rt; sender.write_all(b"a").is_ok());
    flush(rt, &sender, 10_000)
}

#[test]
fn two_senders_wait_for_a_flush(rt: HostRuntime) -> Result<(), Fail> {
    let (gate, seen) = new_gate(rt, None)?;
    let (sender, guard) = plain::start(rt, Queue::Waiting(8), gate)?;
    let other = sender.clone()?;
    let thread = thread::spawn(&rt, move || write_and_flush(rt, other))?;
    expect_eq(&rt, "one", write_and_flush(rt, sender), None);
    expect_eq(&rt, "the other", thread.join(&rt), None);
    expect_eq(&rt, "an end", guard.close(), Closing::Done { left: 0 });
    expect_eq(&rt, "lines", seen.count(), 2);
    Ok(())
}

// Waits for a flush while another thread keeps the queue full. Returns how many of its lines were written then.
fn flush_amid<R: Host + Abort>(rt: R, count: usize) -> io::Result<usize> {
    let (gate, seen) = new_gate(rt, None)?;
    let (mut sender, guard) = plain::start(rt, Queue::Waiting(8), gate)?;
    let mut other = sender.clone()?;
    sender.write_all(b"begin")?;
    let thread = thread::spawn(&rt, move || {
        for _ in 0..count {
            let _ = other.write_all(b"slow").is_ok();
        }
    })?;
    expect_eq(&rt, "lines of the thread", seen.come(rt, 2), true);
    expect_eq(&rt, "a flush", flush(rt, &sender, 10_000), None);
    let written = seen.count();
    thread.join(&rt);
    let _ = guard.close();
    Ok(written)
}

#[test]
fn a_flush_waits_for_no_later_line(rt: HostRuntime) -> Result<(), Fail> {
    for _ in 0..10u32 {
        if flush_amid(rt, 1_000)? < 1_000 {
            return Ok(());
        }
    }
    rt.panic("each flush waits for the other thread")
}
