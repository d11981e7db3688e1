// A work whose sender records its lines, and the writer that comes back.
use crate::expect::expect_eq;
use crate::gate::{Seen, new_gate};
use crate::stage::Queue;
use appender_non_blocking::non_blocking::{Host, LineSender, RecordedWork, Sent};
use std::alloc::Global;
use std::io;
use std::process::Abort;
use std::sync::Arc;
use std::time::Duration;

// Sends lines, the second one once the gate holds the first one or was called for it.
#[derive(Drop)]
struct Sends<R: Host> {
    rt: R,
    seen: Arc<Seen, Global>,
    lines: &'static [&'static [u8]],
    queued: usize,
    dropped: usize,
}

impl<R: Host> RecordedWork for Sends<R> {
    ghost does = { λ _ _ _ _. Unit {0} };

    fn run<S: LineSender + Drop>(&mut self, mut sender: S) -> S
        ensures { Unit {0} }
    {
        for line in self.lines.iter().copied() {
            if let Ok(Sent::Queued(_)) = sender.write_line(line) {
                self.queued = self.queued.saturating_add(1);
            }
            let _ = self.seen.come(self.rt, 1);
        }
        self.dropped = sender.dropped();
        sender
    }
}

struct Row {
    queue: Queue,
    lines: &'static [&'static [u8]],
    // How many milliseconds the worker has for its end.
    most: Option<u64>,
    queued: usize,
    dropped: usize,
    // How many lines were given up, if the writer comes back.
    given_up: Option<u64>,
    text: &'static [u8],
}

// An empty line makes no write. A worker that does not end in time keeps its writer.
#[rattlefmt::skip]
static ROWS: [Row; 2] = [
    Row { queue: Queue::Waiting(2), lines: &[b"a", b"refused", b"", b"b"], most: None,
        queued: 4, dropped: 0, given_up: Some(1), text: b"a|b|" },
    Row { queue: Queue::Lossy(1), lines: &[b"held", b"a", b"b", b"c"], most: Some(20),
        queued: 2, dropped: 2, given_up: None, text: b"held|a|" },
];

// A work that sends these lines.
fn work_of<R: Host>(
    rt: R,
    seen: &Arc<Seen, Global>,
    lines: &'static [&'static [u8]],
) -> io::Result<Sends<R>> {
    Ok(Sends {
        rt,
        seen: Arc::try_clone(seen)?,
        lines,
        queued: 0,
        dropped: 0,
    })
}

fn check<R: Host + Abort>(rt: R, row: &Row) -> io::Result<()> {
    let (gate, seen) = new_gate(rt, None)?;
    let work = work_of(rt, &seen, row.lines)?;
    let most = row.most.map(Duration::from_millis);
    let ran = row
        .queue
        .builder(rt.alloc())?
        .run_lines(rt, rt.alloc(), gate, work, most)?;
    expect_eq(&rt, "queued", ran.work.queued, row.queued);
    expect_eq(&rt, "dropped", ran.work.dropped, row.dropped);
    // The writer was flushed, and is dropped only now.
    let is_back = ran.written.is_some() && seen.last_flushes() > 0 && !seen.is_ended();
    expect_eq(&rt, "the writer", is_back, row.given_up.is_some());
    let given_up = ran.written.as_ref().map(|written| written.given_up);
    expect_eq(&rt, "given up", given_up, row.given_up);
    seen.opens();
    expect_eq(&rt, "lines", seen.come(rt, 2), true);
    seen.expect_text(rt, "lines", row.text);
    Ok(())
}

#[test]
fn a_writer_comes_back_if_its_worker_ends(rt: HostRuntime) -> io::Result<()> {
    for row in &ROWS {
        check(rt, row)?;
    }
    Ok(())
}

static HELD: [&[u8]; 60] = [b"h"; 60];

// The queue is full once the worker has a line in hand. Lines go on as the gate is opened.
fn fill<R: Host + Abort>(rt: R) -> io::Result<()> {
    let (gate, seen) = new_gate(rt, None)?;
    let work = work_of(rt, &seen, &HELD)?;
    let most = Some(Duration::from_millis(20));
    let ran = Queue::Lossy(40)
        .builder(rt.alloc())?
        .run_lines(rt, rt.alloc(), gate, work, most)?;
    expect_eq(&rt, "queued", ran.work.queued, 41);
    expect_eq(&rt, "dropped", ran.work.dropped, 19);
    for _ in 0..41u32 {
        seen.opens();
    }
    expect_eq(&rt, "lines", seen.come(rt, 41), true);
    Ok(())
}

#[test]
fn a_work_has_the_queue_that_was_asked_for(rt: HostRuntime) -> io::Result<()> {
    fill(rt)
}
