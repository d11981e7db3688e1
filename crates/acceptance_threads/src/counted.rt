// Stories of counted senders, with the account of their lines.
ghost use Rattle.std.specs.Prelude.{◌≡◌, ◌+◌, ◌<◌};
ghost use Rattle.appender_non_blocking.specs.Account.{AreBlanksOf};

use crate::expect::{expect_account, expect_shown, put};
use crate::gate::new_gate;
use crate::stage::{AnySender, GuardEnd, Stage, Story};
use appender_non_blocking::non_blocking::{
    Blanks, Closing, CountedGuard, CountedSender, Host, Sent, Shut, Unsettled,
};
use std::io;
use std::marker::Brand;
use std::process::Abort;
use std::sync::ledger::Ledger;

impl<
    A: Ledger + Send + Sync + 'static,
    H: Ledger + Send + Sync + 'static,
    S: Ledger + Send + Sync + 'static,
    C: Ledger + Send + Sync + 'static,
    R: Host,
> AnySender for CountedSender<A, H, S, C, R> {
    fn send(&mut self, line: &[u8]) -> io::Result<bool> {
        Ok(self.write_line(line)? != Sent::Dropped)
    }

    fn ticket(&self) -> Option<u64> {
        Some(self.last_ticket())
    }
}

/// Plays a story of counted senders.
pub(crate) fn play<R: Host + Abort>(rt: R, files: HostRuntime, story: &Story) {
    let blanks = Blanks::new(story.senders as usize);
    start::<Brand, Brand, Brand, Brand, R>(rt, files, story, blanks);
}

fn start<
    A: Ledger + Send + Sync + 'static,
    H: Ledger + Send + Sync + 'static,
    S: Ledger + Send + Sync + 'static,
    C: Ledger + Send + Sync + 'static,
    R: Host + Abort,
>(rt: R, files: HostRuntime, story: &Story, blanks: Blanks)
    requires { AreBlanksOf A.Ledger H.Ledger S.Ledger C.Ledger story.now.senders blanks }
{
    let (gate, seen) = new_gate(rt, Some(files)).expect(&rt, "memory");
    let builder = story.queue.builder(rt.alloc()).expect(&rt, "memory");
    let (senders, guard) = builder
        .finish_counted::<A, H, S, C, _, R>(rt, rt.alloc(), gate, story.senders as usize, blanks)
        .expect(&rt, "a worker");
    let mut stage = Stage::new(rt, story, seen);
    play_by(&mut stage, story, senders, guard);
    stage.ends();
}

fn play_by<
    A: Ledger + Send + Sync + 'static,
    H: Ledger + Send + Sync + 'static,
    S: Ledger + Send + Sync + 'static,
    C: Ledger + Send + Sync + 'static,
    R: Host + Abort,
>(
    stage: &mut Stage<R>,
    story: &Story,
    mut senders: Vec<CountedSender<A, H, S, C, R>>,
    guard: CountedGuard<A, H, S, C, R>,
)
    requires { (A.parts ≡ guard.made + 1) × (H.parts ≡ 1) × (S.parts ≡ 1) × (C.parts ≡ 1) }
{
    stage.plays(&mut senders, story.steps);
    match story.guard {
        GuardEnd::Stays => {
            stage.plays(&mut senders, story.later);
            settle(stage, senders, guard, 0);
        }
        GuardEnd::Closes(closing) => shut(stage, story, senders, guard, closing),
        GuardEnd::Drops(closing) => {
            drop(guard);
            if let Closing::Done { .. } = closing {
                stage.is_complete();
            }
            stage.plays(&mut senders, story.later);
        }
    }
}

// Shuts the queue, which can be done once. The lines that are queued later are left.
fn shut<
    A: Ledger + Send + Sync + 'static,
    H: Ledger + Send + Sync + 'static,
    S: Ledger + Send + Sync + 'static,
    C: Ledger + Send + Sync + 'static,
    R: Host + Abort,
>(
    stage: &mut Stage<R>,
    story: &Story,
    mut senders: Vec<CountedSender<A, H, S, C, R>>,
    mut guard: CountedGuard<A, H, S, C, R>,
    closing: Closing,
)
    requires { (A.parts ≡ guard.made + 1) × (H.parts ≡ 1) × (S.parts ≡ 1) × (C.parts ≡ 1) }
{
    let is_full = closing == Closing::Full;
    expect_shut(stage, &mut guard, is_full);
    let before = stage.queued;
    stage.plays(&mut senders, story.later);
    expect_closed(stage, &mut guard);
    let left = if is_full {
        0
    } else {
        stage.queued.saturating_sub(before)
    };
    settle(stage, senders, guard, left);
}

fn expect_shut<A: Ledger, H: Ledger, S: Ledger, C: Ledger, R: Host + Abort>(
    stage: &Stage<R>,
    guard: &mut CountedGuard<A, H, S, C, R>,
    is_full: bool,
)
    ensures { guard.new.made ≡ guard.old.made }
{
    let (first, second) = if is_full {
        (Shut::Full, Shut::Full)
    } else {
        (Shut::Sent, Shut::Already)
    };
    stage.expect(guard.sent(), false);
    stage.expect(guard.shut(), first);
    stage.expect(guard.sent(), !is_full);
    // The worker may have taken the shutdown by then.
    let again = guard.shut();
    stage.expect(again == second || !is_full && again == Shut::Closed, true);
}

// After the worker's end the queue is closed.
fn expect_closed<A: Ledger, H: Ledger, S: Ledger, C: Ledger, R: Host + Abort>(
    stage: &Stage<R>,
    guard: &mut CountedGuard<A, H, S, C, R>,
)
    ensures { guard.new.made ≡ guard.old.made }
{
    if stage.has_ended {
        stage.expect(guard.shut(), Shut::Closed);
    }
}

// Settles without one of the senders, which changes nothing, and then with all of them, and compares the account.
fn settle<A: Ledger, H: Ledger, S: Ledger, C: Ledger, R: Host + Abort>(
    stage: &Stage<R>,
    mut senders: Vec<CountedSender<A, H, S, C, R>>,
    guard: CountedGuard<A, H, S, C, R>,
    left: u64,
)
    requires { (A.parts ≡ guard.made + 1) × (H.parts ≡ 1) × (S.parts ≡ 1) × (C.parts ≡ 1) }
{
    let Some(missing) = senders.pop() else {
        return settle_all(stage, senders, guard, left);
    };
    let count = senders.len();
    expect_shown(&stage.rt, &missing, "CountedSender { .. }");
    expect_shown(&stage.rt, &guard, "CountedGuard { .. }");
    match guard.settle(senders) {
        Ok(_) => stage.rt.panic("a sender was missing"),
        Err(unsettled) => {
            expect_shown(&stage.rt, &unsettled, "Unsettled { .. }");
            let Unsettled { guard, mut senders } = unsettled;
            stage.expect(senders.len(), count);
            put(&stage.rt, &mut senders, missing);
            settle_all(stage, senders, guard, left);
        }
    }
}

fn settle_all<A: Ledger, H: Ledger, S: Ledger, C: Ledger, R: Host + Abort>(
    stage: &Stage<R>,
    senders: Vec<CountedSender<A, H, S, C, R>>,
    guard: CountedGuard<A, H, S, C, R>,
    left: u64,
)
    requires { (A.parts ≡ guard.made + 1) × (H.parts ≡ 1) × (S.parts ≡ 1) × (C.parts ≡ 1) }
{
    match guard.settle_with_share(senders) {
        Ok(settled) => {
            let title = stage.title;
            expect_shown(&stage.rt, &settled, "Settled { .. }");
            expect_account(
                &stage.rt,
                title,
                settled.account,
                stage.queued,
                left,
                stage.dropped,
            );
        }
        Err(_) => stage.rt.panic("senders are missing"),
    }
}
