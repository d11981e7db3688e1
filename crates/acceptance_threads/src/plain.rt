// Stories of plain senders: each writes its lines itself, or each line by a clone of its own.
use crate::expect::{expect_shown, put};
use crate::gate::new_gate;
use crate::stage::{AnySender, GuardEnd, Queue, Stage, Story};
use appender_non_blocking::non_blocking::{
    Closing, ErrorCounter, Host, NonBlocking, NonBlockingBuilder, Sent, WorkerGuard, non_blocking,
};
use appender_runtime::make_writer::MakeWriter;
use std::alloc::AllocError;
use std::io;
use std::io::Write;
use std::process::Abort;

/// A sender, and the count of the lines that all senders dropped.
#[derive(Drop)]
pub(crate) struct PlainSender<R: Host> {
    sender: NonBlocking<R>,
    counter: ErrorCounter,
    clones: bool,
}

impl<R: Host> PlainSender<R> {
    fn new(sender: NonBlocking<R>, clones: bool) -> Result<PlainSender<R>, AllocError> {
        let counter = sender.error_counter()?.clone()?;
        Ok(PlainSender {
            sender,
            counter,
            clones,
        })
    }
}

impl<R: Host> AnySender for PlainSender<R> {
    fn send(&mut self, line: &[u8]) -> io::Result<bool> {
        let dropped = self.counter.dropped_lines();
        if self.clones {
            self.sender.make_writer()?.write_all(line)?;
        } else {
            self.sender.write_all(line)?;
        }
        Ok(self.counter.dropped_lines() == dropped)
    }

    fn ticket(&self) -> Option<u64> {
        None
    }
}

// A guard that a trait's method closes. So a type over any `Host` may do.
trait Guard {
    fn closes(self) -> Closing;
}

impl<R: Host> Guard for WorkerGuard<R> {
    fn closes(self) -> Closing {
        self.close()
    }
}

pub(crate) fn start<R: Host, W: Write + Send + Drop + 'static>(
    rt: R,
    queue: Queue,
    writer: W,
) -> io::Result<(NonBlocking<R>, WorkerGuard<R>)> {
    match queue {
        Queue::Default => NonBlocking::new(rt, rt.alloc(), writer),
        _ => queue.builder(rt.alloc())?.finish(rt, rt.alloc(), writer),
    }
}

fn put_sender<R: Host + Abort>(
    rt: R,
    senders: &mut Vec<PlainSender<R>>,
    sender: NonBlocking<R>,
    clones: bool,
) {
    let sender = PlainSender::new(sender, clones).expect(&rt, "memory");
    put(&rt, senders, sender);
}

// This number of senders, but at least one.
pub(crate) fn senders_of<R: Host + Abort>(
    rt: R,
    first: NonBlocking<R>,
    count: u32,
    clones: bool,
) -> Vec<PlainSender<R>> {
    let mut senders = Vec::new(rt.alloc());
    for _ in 1..count {
        let sender = first.clone().expect(&rt, "memory");
        put_sender(rt, &mut senders, sender, clones);
    }
    put_sender(rt, &mut senders, first, clones);
    senders
}

// A guard that has done what a closing with this result does. After the worker's end all is written.
fn expect_end<R: Host + Abort>(stage: &Stage<R>, closing: Closing) {
    if let Closing::Done { .. } = closing {
        stage.is_complete();
    }
}

fn close<R: Host + Abort>(stage: &Stage<R>, guard: WorkerGuard<R>, wanted: Closing) {
    stage.expect(guard.closes(), wanted);
    expect_end(stage, wanted);
}

// Ends a guard that doesn't stay.
fn end_early<R: Host + Abort>(
    stage: &Stage<R>,
    guard: WorkerGuard<R>,
    end: GuardEnd,
) -> Option<WorkerGuard<R>> {
    match end {
        GuardEnd::Stays => return Some(guard),
        GuardEnd::Closes(wanted) => close(stage, guard, wanted),
        GuardEnd::Drops(closing) => {
            drop(guard);
            expect_end(stage, closing);
        }
    }
    None
}

/// Plays a story of plain senders.
pub(crate) fn play<R: Host + Abort>(rt: R, files: HostRuntime, story: &Story, clones: bool) {
    let (gate, seen) = new_gate(rt, Some(files)).expect(&rt, "memory");
    let (sender, guard) = start(rt, story.queue, gate).expect(&rt, "a worker");
    let mut senders = senders_of(rt, sender, story.senders, clones);
    let mut stage = Stage::new(rt, story, seen);
    stage.plays(&mut senders, story.steps);
    let guard = end_early(&stage, guard, story.guard);
    stage.plays(&mut senders, story.later);
    if let Some(guard) = guard {
        close(&stage, guard, Closing::Done { left: 0 });
    }
    for sender in senders.as_slice() {
        stage.expect(sender.counter.dropped_lines(), stage.dropped);
    }
    drop(senders);
    stage.ends();
}

// Those of counted senders are shown in each of their stories.
fn expect_all_shown<R: Host + Abort>(rt: R) {
    let (gate, _seen) = new_gate(rt, None).expect(&rt, "memory");
    let (sender, guard) = non_blocking(rt, rt.alloc(), gate).expect(&rt, "a worker");
    let PlainSender {
        sender,
        counter,
        ..
    } = PlainSender::new(sender, false).expect(&rt, "memory");
    expect_shown(&rt, &sender, "NonBlocking { .. }");
    expect_shown(&rt, &guard, "WorkerGuard { .. }");
    expect_shown(&rt, &counter, "ErrorCounter { .. }");
    expect_shown(&rt, Sent::Dropped, "Dropped");
    let builder = NonBlockingBuilder::default();
    expect_shown(
        &rt,
        &builder,
        "NonBlockingBuilder { limit: 128000, lossy: true, name: None }",
    );
}

#[test]
fn all_types_can_be_shown(rt: HostRuntime) {
    expect_all_shown(rt);
}
