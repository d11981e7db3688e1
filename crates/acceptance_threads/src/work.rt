// Work with counted senders, and its account.
use crate::expect::{expect_account, expect_eq, expect_shown, put};
use crate::gate::{new_gate, reaches};
use crate::stage::Queue;
use appender_non_blocking::non_blocking::{CountedWork, Host, LineSender, Sent};
use std::alloc::Global;
use std::io;
use std::io::ErrorKind;
use std::process::Abort;
use std::sync::Arc;
use std::sync::atomic::AtomicUsize;
use std::sync::atomic::Ordering::SeqCst;

// Writes this number of lines, and counts its runs and the lines that were queued.
#[derive(Clone, Copy, PartialEq, Eq, Debug)]
struct Writes {
    lines: u64,
    runs: u64,
    queued: u64,
}

impl CountedWork for Writes {
    ghost does = { λ _ _ _ _. Unit {0} };

    fn run<L: LineSender>(&mut self, sender: &mut L)
        ensures { Unit {0} }
    {
        for _ in 0..self.lines {
            if let Ok(Sent::Queued(_)) = sender.write_line(b"a") {
                self.queued = self.queued.saturating_add(1);
            }
        }
        self.runs = self.runs.saturating_add(1);
    }
}

// This number of works, before or after their run. Each has one line more than the one before it.
fn works<R: Host + Abort>(rt: R, count: u64, have_run: bool) -> Vec<Writes> {
    let mut works = Vec::new(rt.alloc());
    for lines in 0..count {
        let work = Writes {
            lines,
            runs: u64::from(have_run),
            queued: if have_run { lines } else { 0 },
        };
        put(&rt, &mut works, work);
    }
    works
}

// Runs this number of works. They have this number of lines. Each is run once, and they are returned in their order.
fn run<R: Host + Abort>(rt: R, count: u64, lines: u64) -> io::Result<()> {
    let (gate, seen) = new_gate(rt, None)?;
    let ran = Queue::Waiting(4)
        .builder(rt.alloc())?
        .run_counted(rt, rt.alloc(), gate, works(rt, count, false))
        .map_err(|unstarted| unstarted.error)?;
    expect_account(&rt, count, ran.account, lines, 0, 0);
    expect_eq(&rt, count, seen.count() as u64, lines);
    expect_eq(&rt, count, ran.written.given_up, 0);
    expect_eq(
        &rt,
        count,
        ran.works.as_slice(),
        works(rt, count, true).as_slice(),
    );
    Ok(())
}

#[test]
fn work_of_threads_has_an_account(rt: HostRuntime) -> io::Result<()> {
    run(rt, 0, 0)?;
    run(rt, 1, 0)?;
    run(rt, 5, 10)
}

#[test]
fn work_of_a_hundred_threads_has_an_account(rt: HostRuntime) -> io::Result<()> {
    run(rt, 100, 4950)
}

// Waits for another work to begin.
#[derive(Drop)]
struct Meets<R: Host> {
    rt: R,
    begun: Arc<AtomicUsize, Global>,
    met: bool,
}

impl<R: Host> CountedWork for Meets<R> {
    ghost does = { λ _ _ _ _. Unit {0} };

    fn run<L: LineSender>(&mut self, _sender: &mut L)
        ensures { Unit {0} }
    {
        self.begun.fetch_add(1, SeqCst);
        self.met = reaches(self.rt, &self.begun, 2);
    }
}

fn meet<R: Host + Abort>(rt: R) -> io::Result<()> {
    let begun = Arc::new(rt.alloc(), AtomicUsize::new(0))?;
    let mut works = Vec::new(rt.alloc());
    for _ in 0..2u32 {
        let begun = Arc::try_clone(&begun)?;
        let met = false;
        put(&rt, &mut works, Meets { rt, begun, met });
    }
    let (gate, _) = new_gate(rt, None)?;
    let ran = Queue::Waiting(4)
        .builder(rt.alloc())?
        .run_counted(rt, rt.alloc(), gate, works)?;
    for work in ran.works.as_slice() {
        expect_eq(&rt, "met", work.met, true);
    }
    Ok(())
}

#[test]
fn works_run_side_by_side(rt: HostRuntime) -> io::Result<()> {
    meet(rt)
}

// There is no memory for such a queue.
fn run_nothing<R: Host + Abort>(rt: R) -> io::Result<()> {
    let (gate, seen) = new_gate(rt, None)?;
    let unstarted = Queue::Waiting(usize::MAX)
        .builder(rt.alloc())?
        .run_counted(rt, rt.alloc(), gate, works(rt, 3, false))
        .expect_err(&rt, "no account");
    expect_eq(&rt, "lines", seen.count(), 0);
    expect_eq(
        &rt,
        "works",
        unstarted.work.as_slice(),
        works(rt, 3, false).as_slice(),
    );
    expect_shown(&rt, &unstarted, "Unstarted { .. }");
    expect_eq(
        &rt,
        "the error",
        io::Error::from(unstarted).kind(),
        ErrorKind::OutOfMemory,
    );
    Ok(())
}

#[test]
fn without_an_account_no_work_is_run(rt: HostRuntime) -> io::Result<()> {
    run_nothing(rt)
}
