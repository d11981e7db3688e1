// Two senders, each in a thread, over a queue of at most two lines, or of so many that the worker takes several in one hold of the
// lock: two from a queue of 64, three from one of 96.
use crate::expect::{Host, expect_eq};
use crate::lines::{LINES, Lines};
use crate::recorder::{Record, Recorder, Way, new_recorder};
use appender_log::LogSink;
use appender_non_blocking::non_blocking::{Closing, NonBlocking, NonBlockingBuilder, WorkerGuard};
use log::{Level, Logged, error, trace};
use std::alloc::AllocError;
use std::io::Write;
use std::process::Abort;
use std::sync::Wait;
use std::test::Fail;
use std::thread::JoinHandle;
use std::time::Duration;
use std::{io, thread};

// What a queue or its writer does beside that of a waiting queue.
#[derive(Clone, Copy, PartialEq, Eq)]
enum Mode {
    Waits,
    // The queue is lossy.
    Drops,
    // Each write and each flush of the worker's writer fails.
    Fails,
}

// How the guard ends.
#[derive(Clone, Copy)]
enum GuardEnd {
    // It is closed after both senders.
    Last,
    // It is closed while the senders write.
    Closed,
    // It is dropped while the senders write.
    Dropped,
}

// The result of a guard that was closed, and how many lines were written by then.
type Closed = (Closing, usize);

// What became of the lines of two senders.
#[derive(Clone, Copy)]
struct Outcome {
    // That of the guard, if it was closed.
    closed: Option<Closed>,
    // How many lines of each sender were taken.
    taken: (usize, usize),
    dropped: usize,
}

fn start<R: Host>(
    rt: R,
    mode: Mode,
    limit: usize,
    recorder: Recorder<R>,
) -> io::Result<(NonBlocking<R>, WorkerGuard<R>)> {
    NonBlockingBuilder::default()
        .lossy(mode == Mode::Drops)
        .buffered_lines_limit(limit)
        .finish(rt, rt.alloc(), recorder)
}

// Writes lines until one is refused, and returns how many were taken.
fn write_lines<R: Wait + Drop>(mut sender: NonBlocking<R>, lines: &[&[u8]]) -> usize {
    let mut taken = 0usize;
    for line in lines {
        if sender.write_all(line).is_err() {
            break;
        }
        taken = taken.saturating_add(1);
    }
    taken
}

fn start_sender<R: Host>(
    rt: R,
    sender: NonBlocking<R>,
    thread: usize,
    written: usize,
) -> io::Result<JoinHandle<usize>> {
    Ok(thread::spawn(&rt, move || {
        write_lines(sender, &LINES[thread % 2][written.min(2)..])
    })?)
}

// Starts a thread for each of the two senders. The first one has written this number of its lines.
fn start_senders<R: Host>(
    rt: R,
    sender: NonBlocking<R>,
    written: usize,
) -> io::Result<(JoinHandle<usize>, JoinHandle<usize>)> {
    let other = sender.clone()?;
    Ok((
        start_sender(rt, sender, 0, written)?,
        start_sender(rt, other, 1, 0)?,
    ))
}

fn close<R: Host>(rt: R, guard: WorkerGuard<R>, record: &Record) -> Closed {
    let closing = guard.close();
    (closing, record.length(&rt) / 3)
}

fn end_early<R: Host>(
    rt: R,
    guard: WorkerGuard<R>,
    end: GuardEnd,
    record: &Record,
) -> (Option<WorkerGuard<R>>, Option<Closed>) {
    match end {
        GuardEnd::Last => (Some(guard), None),
        GuardEnd::Closed => (None, Some(close(rt, guard, record))),
        GuardEnd::Dropped => {
            drop(guard);
            (None, None)
        }
    }
}

fn play<R: Host>(
    rt: R,
    mode: Mode,
    limit: usize,
    end: GuardEnd,
    recorder: Recorder<R>,
    record: &Record,
) -> Outcome {
    let (sender, guard) = start(rt, mode, limit, recorder).expect(&rt, "a worker");
    let counter = sender.error_counter().expect(&rt, "memory");
    let (a, b) = start_senders(rt, sender, 0).expect(&rt, "threads");
    let (guard, early) = end_early(rt, guard, end, record);
    let taken = (a.join(&rt), b.join(&rt));
    let late = guard.map(|guard| close(rt, guard, record));
    Outcome {
        closed: early.or(late),
        taken,
        dropped: counter.dropped_lines(),
    }
}

// The number of lines that were left, if it is known. If threads are slow, a guard may return before the worker ends.
// After any other end no line is written.
fn lines_left(rt: &impl Abort, closed: Option<Closed>, written: usize) -> Option<usize> {
    let (closing, before) = closed?;
    match closing {
        Closing::Done { left } => {
            expect_eq(rt, before, written);
            Some(left as usize)
        }
        Closing::Full => Some(0),
        Closing::Pending => None,
        Closing::Ended => rt.panic("the queue was closed"),
    }
}

// Each line that was taken was written, dropped or left.
fn expect_all<R: Host>(
    rt: R,
    mode: Mode,
    end: GuardEnd,
    outcome: Outcome,
    written: (usize, usize),
) {
    let Outcome {
        closed,
        taken,
        dropped,
    } = outcome;
    assert!(rt; written.0 <= taken.0 && written.1 <= taken.1);
    let taken = taken.0.saturating_add(taken.1);
    let written = written.0.saturating_add(written.1);
    let all = written.saturating_add(dropped);
    if let Some(left) = lines_left(&rt, closed, written) {
        expect_eq(&rt, all.saturating_add(left), taken);
    }
    if let GuardEnd::Last = end {
        expect_eq(&rt, (taken, all), (4, 4));
    }
    assert!(rt; mode == Mode::Drops || dropped == 0);
}

fn run<R: Host>(rt: R, mode: Mode, limit: usize, end: GuardEnd) {
    let way = if mode == Mode::Fails {
        Way::Fails
    } else {
        Way::Takes
    };
    let (recorder, record) = new_recorder(rt, way).expect(&rt, "memory");
    let outcome = play(rt, mode, limit, end, recorder, &*record);
    assert!(rt; record.has_ended(rt));
    let written = record.count(rt, &LINES, mode == Mode::Drops);
    expect_all(rt, mode, end, outcome, written);
}

#[test]
fn waiting_senders_get_through(rt: HostRuntime) {
    run(rt, Mode::Waits, 1, GuardEnd::Last);
}

#[test]
fn senders_of_a_queue_without_a_place_get_through(rt: HostRuntime) {
    run(rt, Mode::Waits, 0, GuardEnd::Last);
}

// A sender that was woken wakes the next one if there is more room.
#[test]
fn senders_of_a_queue_of_two_lines_get_through(rt: HostRuntime) {
    run(rt, Mode::Waits, 2, GuardEnd::Last);
}

#[test]
fn lines_of_a_hold_are_written_in_order(rt: HostRuntime) {
    run(rt, Mode::Waits, 96, GuardEnd::Last);
}

#[test]
fn dropped_lines_are_counted_exactly(rt: HostRuntime) {
    run(rt, Mode::Drops, 1, GuardEnd::Last);
}

#[test]
fn a_guard_is_closed_while_senders_wait(rt: HostRuntime) {
    run(rt, Mode::Waits, 1, GuardEnd::Closed);
}

// With two places, a line may be accepted after the shutdown. It is left.
#[test]
fn a_guard_counts_the_lines_that_it_leaves(rt: HostRuntime) {
    run(rt, Mode::Waits, 2, GuardEnd::Closed);
}

#[test]
fn a_guard_is_closed_amid_a_hold(rt: HostRuntime) {
    run(rt, Mode::Waits, 96, GuardEnd::Closed);
}

#[test]
fn a_guard_without_a_place_is_closed_while_senders_wait(rt: HostRuntime) {
    run(rt, Mode::Waits, 0, GuardEnd::Closed);
}

#[test]
fn a_guard_is_dropped_while_senders_wait(rt: HostRuntime) {
    run(rt, Mode::Waits, 1, GuardEnd::Dropped);
}

#[test]
fn a_worker_whose_writer_fails_ends(rt: HostRuntime) {
    run(rt, Mode::Fails, 1, GuardEnd::Last);
}

// Writes a line that the worker holds and one that fills the queue, so that the guard sends no shutdown.
fn close_full<R: Host>(rt: R, recorder: Recorder<R>, record: &Record) -> NonBlocking<R> {
    let (mut sender, guard) = start(rt, Mode::Waits, 1, recorder).expect(&rt, "a worker");
    assert!(rt; sender.write_all(LINES[0][0]).is_ok());
    assert!(rt; record.is_held(rt));
    assert!(rt; sender.write_all(LINES[0][1]).is_ok());
    expect_eq(&rt, guard.close(), Closing::Full);
    record.opens();
    sender
}

// Writes a line that the worker holds, and fills a queue of 64 with lines of which nothing is written.
fn fill_held<R: Host>(
    rt: R,
    recorder: Recorder<R>,
    record: &Record,
) -> (NonBlocking<R>, WorkerGuard<R>) {
    let (mut sender, guard) = start(rt, Mode::Waits, 64, recorder).expect(&rt, "a worker");
    assert!(rt; sender.write_all(LINES[0][0]).is_ok());
    assert!(rt; record.is_held(rt));
    for _ in 0..64u32 {
        assert!(rt; sender.write(b"").is_ok());
    }
    (sender, guard)
}

// Both senders sleep before the worker goes on. It wakes one of them for a hold of two lines, and that one the other.
#[test]
fn a_hold_wakes_senders_that_wait(rt: HostRuntime) {
    let (recorder, record) = new_recorder(rt, Way::Holds).expect(&rt, "memory");
    let (sender, guard) = fill_held(rt, recorder, &*record);
    let (a, b) = start_senders(rt, sender, 1).expect(&rt, "threads");
    thread::sleep(&rt, Duration::from_millis(5));
    record.opens();
    expect_eq(&rt, (a.join(&rt), b.join(&rt)), (1, 2));
    drop(guard);
    assert!(rt; record.has_ended(rt));
    expect_eq(&rt, record.count(rt, &LINES, false), (2, 2));
}

// Drops two clones of a sender, one in a thread.
fn drop_both<R: Host>(rt: R, sender: NonBlocking<R>) -> io::Result<()> {
    let other = sender.clone()?;
    let drops = thread::spawn(&rt, move || drop(other))?;
    drop(sender);
    drops.join(&rt);
    Ok(())
}

// In most schedules the worker sleeps by then.
#[test]
fn a_worker_ends_after_the_last_clone(rt: HostRuntime) -> Result<(), Fail> {
    let (recorder, record) = new_recorder(rt, Way::Holds)?;
    let sender = close_full(rt, recorder, &*record);
    drop_both(rt, sender)?;
    assert!(rt; record.has_ended(rt));
    expect_eq(&rt, record.count(rt, &LINES, false), (2, 0));
    Ok(())
}

// Logs two records, of the greatest and the least level.
fn log_records<R: Host>(rt: R, sink: &LogSink<'_, NonBlocking<R>, R>, thread: usize) {
    let logger = Logged::new(rt, Level::Trace, sink);
    error!(logger; target: "db", "{thread}");
    trace!(logger; target: "db", "{thread}");
}

// The records of two threads.
#[rattlefmt::skip]
static RECORDS: [Lines; 2] = [
    [b"[ERROR db] 0\n", b"[TRACE db] 0\n"],
    [b"[ERROR db] 1\n", b"[TRACE db] 1\n"],
];

// Logs by two threads, and returns how many records were lost.
fn log_by_two<R: Host>(rt: R, sender: &NonBlocking<R>) -> Result<u64, AllocError> {
    let sink = LogSink::new(rt, sender);
    thread::map_indices(&rt, rt.alloc(), 2, &|thread| log_records(rt, &sink, thread))?;
    Ok(sink.lost())
}

#[test]
fn two_threads_log_through_a_queue(rt: HostRuntime) -> Result<(), Fail> {
    let (recorder, record) = new_recorder(rt, Way::Takes)?;
    let (sender, guard) = start(rt, Mode::Waits, 1, recorder)?;
    expect_eq(&rt, log_by_two(rt, &sender)?, 0);
    drop(guard);
    drop(sender);
    assert!(rt; record.has_ended(rt));
    expect_eq(&rt, record.count(rt, &RECORDS, false), (2, 2));
    Ok(())
}

// The queue is closed, so that each record is lost.
#[test]
fn two_threads_lose_records(rt: HostRuntime) -> Result<(), Fail> {
    let (recorder, record) = new_recorder(rt, Way::Takes)?;
    let (sender, guard) = start(rt, Mode::Waits, 1, recorder)?;
    drop(guard);
    assert!(rt; record.has_ended(rt));
    expect_eq(&rt, log_by_two(rt, &sender)?, 4);
    expect_eq(&rt, record.length(&rt), 0);
    Ok(())
}
