// What no page shows of a queue: lines that are refused, its room, and many lines.
use crate::expect::{AllocAndAbort, bytes, expect_eq, expect_shown};
use appender_core::queue::{LineQueue, Refused, Taken};
use appender_core::worker::WorkerCore;
use tracing_appender::rolling::Builder;

// A queue with this limit.
fn queue_of(rt: &impl AllocAndAbort, limit: usize) -> LineQueue {
    LineQueue::new(rt.alloc(), limit, true).expect(rt, "memory")
}

// Offers a line with this number, and returns its ticket or the line.
fn offer(rt: &impl AllocAndAbort, queue: &mut LineQueue, number: u64) -> Result<u64, Refused> {
    let line = number.to_le_bytes().to_vec(rt.alloc());
    queue.offer(line.expect(rt, "memory"))
}

// Takes the line with this number.
fn take_number(rt: &impl AllocAndAbort, queue: &mut LineQueue, number: u64) {
    let line = number.to_le_bytes().to_vec(rt.alloc());
    let wanted = Taken::Line(number, line.expect(rt, "memory"));
    expect_eq(rt, &queue.take(false), &wanted);
}

// Offers lines. From the second half on the queue is full, and each offer has the place that a take left.
fn fill_twice(rt: &impl AllocAndAbort, queue: &mut LineQueue) {
    for ticket in 1..=256_000u64 {
        if ticket > 128_000 {
            take_number(rt, queue, ticket - 128_000);
        }
        expect_eq(rt, &offer(rt, queue, ticket), &Ok(ticket));
    }
}

#[test]
fn every_place_of_a_long_queue_takes_lines(rt: HostRuntime) {
    let mut queue = queue_of(&rt, 128_000);
    fill_twice(&rt, &mut queue);
    let back = Refused::Full(bytes(&rt, "\0\0\0\0\0\0\0\0"));
    expect_eq(&rt, &offer(&rt, &mut queue, 0), &Err(back));
    expect_eq(&rt, queue.counts().queued, 128_000);
}

#[test]
fn a_closed_queue_returns_its_line(rt: HostRuntime) {
    let refused = LineQueue::new(rt.alloc(), usize::MAX, true);
    expect_eq(&rt, refused.is_err(), true);
    let many = LineQueue::with_places(rt.alloc(), 1, true, 100_000);
    expect_eq(&rt, many.is_ok(), true);
    let mut queue = queue_of(&rt, 1);
    expect_eq(&rt, &offer(&rt, &mut queue, 1), &Ok(1));
    take_number(&rt, &mut queue, 1);
    expect_eq(&rt, queue.drop_sender(), 0);
    expect_eq(&rt, &queue.take(true), &Taken::Gone);
    let back = Refused::Closed(bytes(&rt, "\0\0\0\0\0\0\0\0"));
    expect_eq(&rt, &offer(&rt, &mut queue, 0), &Err(back));
}

#[test]
fn types_can_be_shown(rt: HostRuntime) {
    expect_shown(&rt, &queue_of(&rt, 1));
    expect_shown(&rt, &WorkerCore::new());
    expect_shown(&rt, &Builder::default());
}
