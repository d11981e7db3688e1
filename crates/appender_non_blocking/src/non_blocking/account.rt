// The guard of counted senders, and the account of their lines.
ghost use Rattle.std.specs.Prelude.{
  ◌≡◌,
  ◌+◌,
  ◌-◌,
  ◌^◌,
  ◌<◌,
  ◌≤◌,
  IfOk,
  IfErr,
  OnOk,
  min,
  vec_len,
};
ghost use Rattle.appender_non_blocking.specs.Account.{
  Guard,
  IsAccount,
  total_queued,
  total_dropped,
  guard_after_try,
};

use super::counted::CountedSender;
use super::guard::end;
use super::shared::Shared;
use appender_channel::books::{Done, FourBooks};
use appender_channel::state::Counted;
use appender_queue::queue::Shut;
use appender_runtime::host::GuardHost;
use std::alloc::Global;
use std::fmt;
use std::fmt::{Debug, Formatter};
use std::marker::Model;
use std::sync::ledger::{Blank, Ledger, Share};
use std::sync::{Arc, Wait};
use std::thread::{JoinHandle, Threads};

/// The four ledgers of an account, before they are opened. Make them by `Blanks::new`, and pass them to
/// `finish_counted`. It opens each one: lines are then counted in its book, and senders, guard and worker get shares.
#[derive(Drop)]
pub struct Blanks {
    /// The ledger of accepted lines. It has a part for each sender, and one for the guard.
    pub accepted: Blank,
    /// The ledger of lines that the worker took. Its one part is the worker's.
    pub handed: Blank,
    /// The ledger of shutdowns that were sent. Its one part is the guard's.
    pub shutdowns: Blank,
    /// The ledger of closings of the queue. Its one part is the worker's.
    pub closings: Blank,
}

impl Blanks {
    /// Returns new blanks for the account of this number of senders.
    pub fn new(senders: usize) -> Blanks
        requires { senders + 1 < 2 ^ 64 }
        ensures accepted { result.accepted.parts ≡ senders + 1 }
        ensures handed { result.handed.parts ≡ 1 }
        ensures shutdowns { result.shutdowns.parts ≡ 1 }
        ensures closings { result.closings.parts ≡ 1 }
    {
        Blanks {
            accepted: Blank::new(senders as u64 + 1),
            handed: Blank::new(1),
            shutdowns: Blank::new(1),
            closings: Blank::new(1),
        }
    }
}

/// What became of all lines of a guard's senders. Only a guard makes one, when it settles, or `run_counted`.
#[derive(Clone, Copy, PartialEq, Eq, Debug)]
pub struct Account {
    pub(super) accepted: u64,
    pub(super) handed: u64,
    pub(super) left: u64,
    pub(super) dropped: usize,
}

impl Model for Account {
    ghost use Rattle.appender_non_blocking.specs.Account.{Totals};

    ghost Value = { Totals };

    ghost view = { λ a. record { accepted = a.accepted; handed = a.handed; left = a.left; dropped = a.dropped } };

    ghost inverse = { λ t. record { accepted = t.accepted; handed = t.handed; left = t.left; dropped = t.dropped } };
}

impl Account {
    /// Returns the number of lines that were queued.
    pub fn accepted(&self) -> u64
        ensures { result ≡ self.now.accepted }
    {
        self.accepted
    }

    /// Returns the number of lines that the worker took, and wrote or gave up.
    pub fn handed(&self) -> u64
        ensures { result ≡ self.now.handed }
    {
        self.handed
    }

    /// Returns the number of lines that were queued after a shutdown, and were not written.
    pub fn left(&self) -> u64
        ensures { result ≡ self.now.left }
    {
        self.left
    }

    /// Returns the number of lines that a lossy queue refused, at most `usize::MAX`.
    pub fn dropped(&self) -> usize
        ensures { result ≡ self.now.dropped }
    {
        self.dropped
    }
}

/// The guard of counted senders, which are settled with it. It counts as a sender. Dropped, it does what
/// a `WorkerGuard` does.
#[must_use]
pub struct CountedGuard<A: Ledger, H: Ledger, S: Ledger, C: Ledger, R: GuardHost> {
    pub(super) rt: R,
    pub(super) shared: Arc<Shared<FourBooks<A, H, S, C>>, Global>,
    pub(super) counted: Counted,
    // What the senders left of the book of accepted lines.
    pub(super) part: Share<A>,
    pub(super) shutdowns: Share<S>,
    // How many senders there are.
    pub(super) made: usize,
    // Whether a shutdown was sent.
    pub(super) sent: bool,
    pub(super) worker: JoinHandle<Done<H, C>>,
}

impl<A: Ledger, H: Ledger, S: Ledger, C: Ledger, R: GuardHost> Model
    for CountedGuard<A, H, S, C, R> {
    ghost use Rattle.std.specs.Prelude.{◌≡◌};
    ghost use Rattle.appender_non_blocking.specs.Account.{Guard};
    ghost use Rattle.appender_channel.specs.Tally.{one_if};

    ghost Value = { Guard };

    ghost view = { λ g. record { made = g.made; sent = g.sent } };

    ghost invariant = { λ g. (g.part.parts ≡ 1) × (g.part.amount ≡ 0) × (g.shutdowns.parts ≡ 1)
        × (g.shutdowns.amount ≡ one_if g.sent) };
}

/// An account, and the share that its `handed` is checked against.
#[derive(Drop)]
pub struct Settled<H: Ledger> {
    /// The account.
    pub account: Account,
    /// The worker's share of the book of handed lines. It has all parts, so its amount is the book's
    /// total: the number of lines that the worker took.
    pub handed: Share<H>,
}

/// Some senders are missing. The guard and the other senders are returned as they were.
#[derive(Drop)]
pub struct Unsettled<A: Ledger, H: Ledger, S: Ledger, C: Ledger, R: GuardHost> {
    /// The guard.
    pub guard: CountedGuard<A, H, S, C, R>,
    /// The senders that were not missing.
    pub senders: Vec<CountedSender<A, H, S, C, R>>,
}

impl<A: Ledger, H: Ledger, S: Ledger, C: Ledger, R: GuardHost> CountedGuard<A, H, S, C, R> {
    /// Tries once to send the shutdown: lines that are accepted later are left.
    pub fn shut(&mut self) -> Shut
        ensures { self.new ≡ guard_after_try self.old result }
    {
        let CountedGuard {
            rt,
            shared,
            shutdowns,
            sent,
            ..
        } = self;
        let reply = shared.shut(rt, shutdowns);
        if let Shut::Sent = reply {
            *sent = true;
        }
        reply
    }

    /// Returns whether a call of `shut` has returned `Sent`.
    pub fn sent(&self) -> bool
        ensures { result ≡ self.now.sent }
    {
        self.sent
    }
}

impl<A: Ledger, H: Ledger, S: Ledger, C: Ledger, R: Threads + GuardHost> CountedGuard<
    A,
    H,
    S,
    C,
    R,
> {
    /// Ends all senders, waits for the worker's end, and returns the account of their lines. If senders
    /// are missing, all is given back and nothing has changed.
    pub fn settle(
        self,
        senders: Vec<CountedSender<A, H, S, C, R>>,
    ) -> Result<Account, Unsettled<A, H, S, C, R>>
        requires { (A.parts ≡ self.made + 1) × (H.parts ≡ 1) × (S.parts ≡ 1) × (C.parts ≡ 1) }
        ensures account { IfOk result (λ a. IsAccount a.accepted a.handed a.left a.dropped self senders.items) }
        ensures all { OnOk result (vec_len senders ≡ self.made) }
        ensures missing { IfErr result (λ u. vec_len senders < self.made) }
        ensures given_back { IfErr result (λ u. (u.guard ≡ self) × (u.senders ≡ senders)) }
    {
        match self.settle_with_share(senders) {
            Ok(settled) => Ok(settled.account),
            Err(unsettled) => Err(unsettled),
        }
    }

    /// Settles as `settle` does, and returns the worker's share of the book of handed lines too. It is for
    /// a caller that has to check the account against the book itself. After a shutdown no other clause
    /// says how many lines the worker took.
    pub fn settle_with_share(
        self,
        senders: Vec<CountedSender<A, H, S, C, R>>,
    ) -> Result<Settled<H>, Unsettled<A, H, S, C, R>>
        requires { (A.parts ≡ self.made + 1) × (H.parts ≡ 1) × (S.parts ≡ 1) × (C.parts ≡ 1) }
        ensures account { IfOk result (λ s. IsAccount s.account.accepted s.account.handed s.account.left
            s.account.dropped self senders.items) }
        ensures book { IfOk result (λ s. (s.handed.parts ≡ H.parts) × (s.account.handed ≡ s.handed.amount)) }
        ensures all { OnOk result (vec_len senders ≡ self.made) }
        ensures missing { IfErr result (λ u. vec_len senders < self.made) }
        ensures given_back { IfErr result (λ u. (u.guard ≡ self) × (u.senders ≡ senders)) }
    {
        if senders.len() < self.made {
            return Err(Unsettled {
                guard: self,
                senders,
            });
        }
        let CountedGuard {
            rt,
            shared,
            counted,
            part,
            shutdowns,
            made: _,
            sent: _,
            worker,
        } = self;
        let (accepted, dropped) = end_all(senders, part);
        shared.drop_sender(&rt, counted);
        let done = worker.join(&rt);
        let (counts, handed) = shared.final_counts(&rt, accepted, shutdowns, done);
        let account = Account {
            accepted: counts.accepted,
            handed: counts.handed,
            left: counts.left,
            dropped,
        };
        Ok(Settled { account, handed })
    }
}

// Ends the senders, and puts their shares to this one. Answers how many lines they dropped.
fn end_all<A: Ledger, H: Ledger, S: Ledger, C: Ledger, R: Wait + Drop>(
    senders: Vec<CountedSender<A, H, S, C, R>>,
    part: Share<A>,
) -> (Share<A>, usize)
    requires { part.amount ≡ 0 }
    ensures parts { result.0.parts ≡ part.parts + vec_len senders }
    ensures few { result.0.parts ≤ A.parts }
    ensures accepted { result.0.amount ≡ total_queued senders.items }
    ensures dropped { result.1 ≡ min (total_dropped senders.items) (2 ^ 64 - 1) }
{
    let mut all = part;
    let mut dropped = 0usize;
    let mut senders = senders;
    while let Some(sender) = senders.pop() {
        let (mine, count) = sender.end();
        all.merge(mine.share);
        dropped = dropped.saturating_add(count);
    }
    // A merge shows that there are no more parts than were made.
    let none = all.empty();
    all.merge(none);
    (all, dropped)
}

impl<A: Ledger, H: Ledger, S: Ledger, C: Ledger, R: GuardHost> Drop
    for CountedGuard<A, H, S, C, R> {
    fn drop(self) {
        let CountedGuard {
            rt,
            shared,
            counted,
            part: _,
            shutdowns,
            made: _,
            sent: _,
            worker: _,
        } = self;
        let mut shutdowns = shutdowns;
        end(&rt, &*shared, counted, &mut shutdowns);
    }
}

impl<A: Ledger, H: Ledger, S: Ledger, C: Ledger, R: GuardHost> Debug
    for CountedGuard<A, H, S, C, R> {
    fn fmt<W: fmt::Write>(&self, f: &mut Formatter<W>) -> fmt::Result {
        f.pad("CountedGuard { .. }")
    }
}

impl<A: Ledger, H: Ledger, S: Ledger, C: Ledger, R: GuardHost> Debug for Unsettled<A, H, S, C, R> {
    fn fmt<W: fmt::Write>(&self, f: &mut Formatter<W>) -> fmt::Result {
        f.pad("Unsettled { .. }")
    }
}

impl<H: Ledger> Debug for Settled<H> {
    fn fmt<W: fmt::Write>(&self, f: &mut Formatter<W>) -> fmt::Result {
        f.pad("Settled { .. }")
    }
}
