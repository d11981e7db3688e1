// Two counted senders over a queue of at most two lines, and their account.
ghost use Rattle.std.specs.Prelude.{◌≡◌, ◌+◌};
ghost use Rattle.appender_non_blocking.specs.Account.{AreBlanksOf};

use crate::expect::{Host, expect_eq};
use crate::lines::{LINES, Lines};
use crate::recorder::{Recorder, Way, new_recorder};
use appender_non_blocking::non_blocking::{
    Account, Blanks, CountedGuard, CountedSender, CountedWork, LineSender, NonBlockingBuilder,
    Sent, Shut,
};
use std::marker::Brand;
use std::sync::ledger::Ledger;
use std::test::Fail;
use std::thread::JoinHandle;
use std::{io, thread};

fn builder(limit: usize) -> NonBlockingBuilder {
    NonBlockingBuilder::default()
        .lossy(false)
        .buffered_lines_limit(limit)
}

// Writes lines until one is refused, and returns how many were queued.
fn write_lines<L: LineSender>(sender: &mut L, lines: &Lines) -> usize {
    let mut queued = 0usize;
    for line in lines {
        let Ok(Sent::Queued(_)) = sender.write_line(line) else {
            break;
        };
        queued = queued.saturating_add(1);
    }
    queued
}

// A counted sender without the names of its ledgers, which makes proofs shorter.
trait Sends: Send + Drop + 'static {
    // Writes the lines of this thread.
    fn sends(&mut self, thread: usize) -> usize;
}

impl<
    A: Ledger + Send + Sync + 'static,
    H: Ledger + Send + Sync + 'static,
    S: Ledger + Send + Sync + 'static,
    C: Ledger + Send + Sync + 'static,
    R: Host,
> Sends for CountedSender<A, H, S, C, R> {
    fn sends(&mut self, thread: usize) -> usize {
        write_lines(self, &LINES[thread % 2])
    }
}

type Running<T> = JoinHandle<(T, usize)>;

fn start_sender<T: Sends, R: Host>(
    rt: R,
    senders: &mut Vec<T>,
    thread: usize,
) -> io::Result<Running<T>> {
    let mut sender = senders.pop().expect(&rt, "a sender");
    Ok(thread::spawn(&rt, move || {
        let queued = sender.sends(thread);
        (sender, queued)
    })?)
}

// Joins a thread, puts its sender back, and returns how many lines it queued.
fn join<T: Sends, R: Host>(rt: R, thread: Running<T>, senders: &mut Vec<T>) -> usize {
    let (sender, queued) = thread.join(&rt);
    assert!(rt; senders.push(sender).is_ok());
    queued
}

fn settle<A: Ledger, H: Ledger, S: Ledger, C: Ledger, R: Host>(
    rt: R,
    senders: Vec<CountedSender<A, H, S, C, R>>,
    guard: CountedGuard<A, H, S, C, R>,
) -> Account
    requires { (A.parts ≡ guard.made + 1) × (H.parts ≡ 1) × (S.parts ≡ 1) × (C.parts ≡ 1) }
{
    match guard.settle(senders) {
        Ok(account) => account,
        Err(_) => rt.panic("senders are missing"),
    }
}

// What became of the lines of two senders.
struct Settled {
    // How many lines of each sender were queued.
    queued: (usize, usize),
    // Whether a shutdown was sent.
    is_shut: bool,
    account: Account,
}

// Both senders write, and if it is asked the guard shuts the queue meanwhile. Then all is settled. After a shutdown, only a queue of
// two lines accepts one.
fn play<
    A: Ledger + Send + Sync + 'static,
    H: Ledger + Send + Sync + 'static,
    S: Ledger + Send + Sync + 'static,
    C: Ledger + Send + Sync + 'static,
    R: Host,
>(rt: R, recorder: Recorder<R>, shuts: bool, blanks: Blanks) -> Settled
    requires { AreBlanksOf A.Ledger H.Ledger S.Ledger C.Ledger 2 blanks }
{
    let (mut senders, mut guard) = builder(if shuts { 2 } else { 1 })
        .finish_counted::<A, H, S, C, _, R>(rt, rt.alloc(), recorder, 2, blanks)
        .expect(&rt, "a worker");
    let a = start_sender(rt, &mut senders, 0).expect(&rt, "a thread");
    let b = start_sender(rt, &mut senders, 1).expect(&rt, "a thread");
    let is_shut = shuts && guard.shut() == Shut::Sent;
    let queued = (join(rt, a, &mut senders), join(rt, b, &mut senders));
    Settled {
        queued,
        is_shut,
        account: settle(rt, senders, guard),
    }
}

// Each queued line is on the account, and each handed one was written.
fn expect_account<R: Host>(rt: R, settled: Settled, written: (usize, usize)) {
    let Settled {
        queued,
        is_shut,
        account,
    } = settled;
    assert!(rt; written.0 <= queued.0 && written.1 <= queued.1);
    let (queued, written) = (
        queued.0.saturating_add(queued.1),
        written.0.saturating_add(written.1),
    );
    expect_eq(&rt, account.accepted() as usize, queued);
    expect_eq(&rt, account.handed() as usize, written);
    expect_eq(&rt, account.left() as usize, queued.saturating_sub(written));
    expect_eq(&rt, account.dropped(), 0);
    assert!(rt; is_shut || written == 4);
}

fn run<R: Host>(rt: R, shuts: bool) {
    let (recorder, record) = new_recorder(rt, Way::Takes).expect(&rt, "memory");
    let blanks = Blanks::new(2);
    let settled = play::<Brand, Brand, Brand, Brand, R>(rt, recorder, shuts, blanks);
    assert!(rt; record.has_ended(rt));
    expect_account(rt, settled, record.count(rt, &LINES, false));
}

#[test]
fn two_senders_are_settled(rt: HostRuntime) {
    run(rt, false);
}

#[test]
fn a_shutdown_is_amid_their_lines(rt: HostRuntime) {
    run(rt, true);
}

// Writes the lines of a sender.
#[derive(Drop)]
struct Work {
    lines: &'static Lines,
    queued: usize,
}

impl CountedWork for Work {
    ghost does = { λ _ _ _ _. Unit {0} };

    fn run<L: LineSender>(&mut self, sender: &mut L)
        ensures { Unit {0} }
    {
        self.queued = write_lines(sender, self.lines);
    }
}

// A work, before or after its run.
fn work_of(lines: &'static Lines) -> Work {
    Work { lines, queued: 0 }
}

#[test]
fn two_works_have_an_account(rt: HostRuntime) -> Result<(), Fail> {
    let (recorder, record) = new_recorder(rt, Way::Takes)?;
    let works = vec![in rt.alloc(); work_of(&LINES[0]), work_of(&LINES[1])]?;
    let ran = builder(1)
        .run_counted(rt, rt.alloc(), recorder, works)
        .map_err(io::Error::from)?;
    for work in ran.works.as_slice() {
        expect_eq(&rt, work.queued, 2);
    }
    let account = ran.account;
    // The writer comes back.
    assert!(rt; !record.has_ended(rt));
    drop(ran.written);
    assert!(rt; record.has_ended(rt));
    expect_eq(&rt, (account.accepted(), account.handed()), (4, 4));
    expect_eq(&rt, (account.left(), account.dropped()), (0, 0));
    expect_eq(&rt, record.count(rt, &LINES, false), (2, 2));
    Ok(())
}
