//! Counts of a queue in ledgers, and its lines in histories. By them proofs tie what senders, guard and worker counted to the
//! counts and lines of the queue.
ghost use Rattle.std.specs.Prelude.{◌≡◌, ℕ, ◌+◌, ◌^◌, ◌<◌, ◌++◌, ◌∷◌, [], List, length, Option, Some, None, IfSome};
ghost use Rattle.line_history.specs.Interleaving.{IsInterleaving};
ghost use Rattle.appender_channel.specs.Tally.{
  Tally,
  with_line,
  with_handed,
  with_shutdown,
  with_closing,
};

use line_history::halves::{QueueHalves, QueueHistories, SenderHistory, TakerHistory};
use std::snapshot::Snapshot;
use std::sync::ledger::{Book, Ledger, Share};

/// The books of a queue: one for each of its counts, under the queue's lock. A sender, the guard or the worker counts
/// by a share of a book, which it passes to the call.
///
/// `FourBooks` counts lines. `LineBooks` has the lines themselves, in proofs only. `NoBooks` is for senders that are not
/// counted: its types take no bytes, and its calls do nothing.
pub trait Books: Drop {
    /// A sender's share.
    type Mine: Drop;
    /// The guard's share.
    type Shutdowns: Drop;
    /// The worker's shares.
    type Pass: Drop;

    /// What the worker returns at its end.
    type Done: Drop;

    /// Whether the books agree with these counts and lines of the queue.
    ghost agree: { Self → Tally → Type 0 };
    /// Whether a sender with this share may count a line.
    ghost may_accept: { Self.Mine → Type 0 };

    /// Whether a guard with this share may count a shutdown.
    ghost may_shut: { Self.Shutdowns → Type 0 };

    /// Whether a worker with these shares may count what it takes.
    ghost may_take: { Self.Pass → Type 0 };
    /// The place in the queue of a sender with this share, if it has one.
    ghost place_of: { Self.Mine → Option ℕ };
    /// Whether the second share has this accepted line more than the first.
    ghost counts_line: { Self.Mine → List ℕ → Self.Mine → Type 0 };

    /// Whether the second share has the shutdown, and the first has none.
    ghost counts_shutdown: { Self.Shutdowns → Self.Shutdowns → Type 0 };

    /// Whether the second shares have this taken line more than the first.
    ghost counts_take: { Self.Pass → List ℕ → Self.Pass → Type 0 };
    /// Whether the second shares have the closing of the queue, and the taken lines of the first.
    ghost counts_closing: { Self.Pass → Self.Pass → Type 0 };
    /// Whether a worker with these shares has counted the closing of the queue.
    ghost has_ended: { Self.Pass → Type 0 };

    /// Whether the result has the taken lines of these shares.
    ghost same_lines: { Self.Pass → Self.Done → Type 0 };

    /// Returns the place from which a sender offers its lines, if it has one. The queue has that place.
    fn place(&self, mine: &Self::Mine) -> Option<usize>
        requires { may_accept mine.now }
        ensures place { result ≡ place_of mine.now }
        ensures within { (t : Tally) → agree self.now t → IfSome (place_of mine.now) (λ place. place < t.places) };

    /// Counts an accepted line.
    fn accept(&mut self, mine: &mut Self::Mine, line: &Snapshot<Vec<u8>>)
        requires { may_accept mine.old }
        ensures { (t : Tally) → agree self.old t → t.accepted + 1 < 2 ^ 64
            → agree self.new (with_line t line.now.value.items) × counts_line mine.old line.now.value.items mine.new };

    /// Counts the shutdown, which was sent.
    fn shut(&mut self, mine: &mut Self::Shutdowns)
        requires { may_shut mine.old }
        ensures { (t : Tally) → agree self.old t → t.shutdowns ≡ 0
            → agree self.new (with_shutdown t) × counts_shutdown mine.old mine.new };

    /// Counts the first line of the queue, which was handed to the worker.
    fn hand(&mut self, pass: &mut Self::Pass, line: &Vec<u8>)
        requires { may_take pass.old }
        ensures may { may_take pass.new }
        ensures counted { counts_take pass.old line.now.items pass.new }
        ensures agree { (t : Tally) (rest : List (List ℕ)) → agree self.old t → t.closings ≡ 0
            → t.lines ≡ line.now.items ∷ rest → agree self.new (with_handed t) };

    /// Counts the closing of the queue.
    fn close(&mut self, pass: &mut Self::Pass)
        requires { may_take pass.old }
        ensures counted { counts_closing pass.old pass.new }
        ensures agree { (t : Tally) → agree self.old t → agree self.new (with_closing t) × has_ended pass.new };

    /// Returns what a worker that has ended returns. It has closed the queue: so a loop that ends early isn't proved.
    fn done(pass: Self::Pass) -> Self::Done
        requires { has_ended pass }
        ensures { same_lines pass result };
}

/// Nothing is counted.
#[derive(Drop)]
pub struct NoBooks;

impl Books for NoBooks {
    type Mine = ();

    type Shutdowns = ();

    type Pass = ();

    type Done = ();

    ghost agree = { λ b t. Unit {0} };

    ghost may_accept = { λ m. Unit {0} };

    ghost may_shut = { λ m. Unit {0} };

    ghost may_take = { λ p. Unit {0} };

    ghost place_of = { λ m. None };

    ghost counts_line = { λ m line n. Unit {0} };

    ghost counts_shutdown = { λ m n. Unit {0} };

    ghost counts_take = { λ p line q. Unit {0} };

    ghost counts_closing = { λ p q. Unit {0} };

    ghost has_ended = { λ p. Unit {0} };

    ghost same_lines = { λ p d. Unit {0} };

    #[inline(always)]
    fn place(&self, _mine: &()) -> Option<usize> {
        None
    }

    #[inline(always)]
    fn accept(&mut self, _mine: &mut (), _line: &Snapshot<Vec<u8>>) {}

    #[inline(always)]
    fn shut(&mut self, _mine: &mut ()) {}

    #[inline(always)]
    fn hand(&mut self, _pass: &mut (), _line: &Vec<u8>) {}

    #[inline(always)]
    fn close(&mut self, _pass: &mut ()) {}

    #[inline(always)]
    fn done(_pass: ()) {}
}

/// The books of accepted lines, of handed lines, of shutdowns sent and of closings.
#[derive(Drop)]
pub struct FourBooks<A: Ledger, H: Ledger, S: Ledger, C: Ledger> {
    pub accepted: Book<A>,
    pub handed: Book<H>,
    pub shutdowns: Book<S>,
    pub closings: Book<C>,
}

/// A sender's share of the book of accepted lines, and its place in the queue.
#[derive(Drop)]
pub struct SenderShare<A: Ledger> {
    pub share: Share<A>,
    pub place: usize,
}

/// The shares by which a worker counts: all parts of the ledger of handed lines, and all of that of closings.
#[derive(Drop)]
pub struct Pass<H: Ledger, C: Ledger> {
    /// Its amount is the number of lines that the worker took.
    pub handed: Share<H>,
    /// Its amount is 1 once the worker has closed the queue, and 0 before.
    pub closings: Share<C>,
}

/// What a worker returns after it has closed the queue.
#[derive(Drop)]
pub struct Done<H: Ledger, C: Ledger> {
    pub handed: Share<H>,
    pub closings: Share<C>,
    ghost handed_whole: { handed.parts ≡ 1 },
    ghost closings_whole: { closings.parts ≡ 1 },
    ghost closed: { closings.amount ≡ 1 },
}

impl<A: Ledger, H: Ledger, S: Ledger, C: Ledger> Books for FourBooks<A, H, S, C> {
    type Mine = SenderShare<A>;

    type Shutdowns = Share<S>;

    type Pass = Pass<H, C>;

    type Done = Done<H, C>;

    ghost agree = { λ b t. (b.accepted.total ≡ t.accepted) × (b.handed.total ≡ t.handed)
        × (b.shutdowns.total ≡ t.shutdowns) × (b.closings.total ≡ t.closings) × (t.places + 1 ≡ A.parts) };

    ghost may_accept = { λ m. (0 < m.share.parts) × (m.place + 1 < A.parts) };

    ghost may_shut = { λ m. 0 < m.parts };

    ghost may_take = { λ p. (p.handed.parts ≡ 1) × (H.parts ≡ 1) × (p.closings.parts ≡ 1) × (C.parts ≡ 1)
        × (p.closings.amount ≡ 0) };

    ghost place_of = { λ m. Some m.place };

    ghost counts_line = { λ m line n. (n.place ≡ m.place) × (n.share.parts ≡ m.share.parts)
        × (n.share.amount ≡ m.share.amount + 1) × (n.share.amount < 2 ^ 64) };

    ghost counts_shutdown = { λ m n. (n.parts ≡ m.parts) × (m.amount ≡ 0) × (n.amount ≡ 1) };

    ghost counts_take = { λ p line q. q.handed.amount ≡ p.handed.amount + 1 };

    ghost counts_closing = { λ p q. q.handed.amount ≡ p.handed.amount };

    ghost has_ended = { λ p. (p.handed.parts ≡ 1) × (p.closings.parts ≡ 1) × (p.closings.amount ≡ 1) };

    ghost same_lines = { λ p d. d.handed.amount ≡ p.handed.amount };

    #[inline(always)]
    fn place(&self, mine: &SenderShare<A>) -> Option<usize> {
        Some(mine.place)
    }

    #[inline(always)]
    fn accept(&mut self, mine: &mut SenderShare<A>, _line: &Snapshot<Vec<u8>>) {
        self.accepted.add(&mut mine.share, 1);
        self.accepted.audit(&mut mine.share);
    }

    fn shut(&mut self, mine: &mut Share<S>) {
        self.shutdowns.audit(mine);
        self.shutdowns.add(mine, 1);
    }

    #[inline(always)]
    fn hand(&mut self, pass: &mut Pass<H, C>, _line: &Vec<u8>) {
        self.handed.add(&mut pass.handed, 1);
    }

    fn close(&mut self, pass: &mut Pass<H, C>) {
        self.closings.audit(&mut pass.closings);
        self.closings.add(&mut pass.closings, 1);
    }

    fn done(pass: Pass<H, C>) -> Done<H, C> {
        let Pass { handed, closings } = pass;
        Done { handed, closings }
    }
}

/// Books of a queue that know its lines: the histories of its senders and of the worker, and the books of shutdowns sent and of
/// closings.
#[derive(Drop)]
pub struct LineBooks<S: Ledger, C: Ledger, L: QueueHistories> {
    pub shutdowns: Book<S>,
    pub closings: Book<C>,
    pub halves: QueueHalves<L>,
}

/// A worker's history, and all of the ledger of closings.
#[derive(Drop)]
pub struct LinePass<C: Ledger, L: QueueHistories> {
    pub taker: TakerHistory<L>,
    /// Its amount is 1 once the worker has closed the queue, and 0 before.
    pub closings: Share<C>,
}

/// What a worker returns after it has closed the queue.
#[derive(Drop)]
pub struct LineDone<C: Ledger, L: QueueHistories> {
    pub taker: TakerHistory<L>,
    pub closings: Share<C>,
    ghost closings_whole: { closings.parts ≡ 1 },
    ghost closed: { closings.amount ≡ 1 },
}

impl<S: Ledger, C: Ledger, L: QueueHistories> Books for LineBooks<S, C, L> {
    type Mine = SenderHistory<L>;

    type Shutdowns = Share<S>;

    type Pass = LinePass<C, L>;

    type Done = LineDone<C, L>;

    ghost agree = { λ b t. (b.shutdowns.total ≡ t.shutdowns) × (b.closings.total ≡ t.closings) × (t.places ≡ L.senders)
        × (length b.halves.taken ≡ t.handed)
        × ((rest : List (List ℕ)) × IsInterleaving b.halves.sent (b.halves.taken ++ rest)
        × (t.accepted ≡ t.handed + length rest) × (t.closings ≡ 0 → rest ≡ t.lines)) };

    ghost may_accept = { λ m. Unit {0} };

    ghost may_shut = { λ m. 0 < m.parts };

    ghost may_take = { λ p. (p.closings.parts ≡ 1) × (C.parts ≡ 1) × (p.closings.amount ≡ 0) };

    ghost place_of = { λ m. Some m.place };

    ghost counts_line = { λ m line n. (n.place ≡ m.place) × (n.lines ≡ m.lines ++ line ∷ [])
        × (length n.lines < 2 ^ 64) };

    ghost counts_shutdown = { λ m n. (n.parts ≡ m.parts) × (m.amount ≡ 0) × (n.amount ≡ 1) };

    ghost counts_take = { λ p line q. q.taker ≡ p.taker ++ line ∷ [] };

    ghost counts_closing = { λ p q. q.taker ≡ p.taker };

    ghost has_ended = { λ p. (p.closings.parts ≡ 1) × (p.closings.amount ≡ 1) };

    ghost same_lines = { λ p d. d.taker ≡ p.taker };

    #[inline(always)]
    fn place(&self, mine: &SenderHistory<L>) -> Option<usize> {
        Some(mine.place())
    }

    #[inline(always)]
    fn accept(&mut self, mine: &mut SenderHistory<L>, line: &Snapshot<Vec<u8>>) {
        self.halves.send(mine, line);
    }

    fn shut(&mut self, mine: &mut Share<S>) {
        self.shutdowns.audit(mine);
        self.shutdowns.add(mine, 1);
    }

    #[inline(always)]
    fn hand(&mut self, pass: &mut LinePass<C, L>, line: &Vec<u8>) {
        self.halves.take(&mut pass.taker, line);
    }

    fn close(&mut self, pass: &mut LinePass<C, L>) {
        let closings = &mut pass.closings;
        self.closings.audit(closings);
        self.closings.add(closings, 1);
    }

    fn done(pass: LinePass<C, L>) -> LineDone<C, L> {
        let LinePass { taker, closings } = pass;
        LineDone { taker, closings }
    }
}

/// Books that know how many lines each sender has sent, or which.
pub trait SenderBooks: Books {
    /// Whether a sender with this share has this place, and has sent as many lines as these, or exactly these.
    ghost has_sent: { Self.Mine → ℕ → List (List ℕ) → Type 0 };

    /// What an accepted line changes. The call does nothing.
    fn one_line_more()
        ensures may { (m : Self.Mine) (place : ℕ) (lines : List (List ℕ)) → has_sent m place lines → Self.may_accept m }
        ensures more { (m n : Self.Mine) (place : ℕ) (lines : List (List ℕ)) (line : List ℕ) → has_sent m place lines
            → Self.counts_line m line n → has_sent n place (lines ++ line ∷ []) }
        ensures few { (m : Self.Mine) (place : ℕ) (lines : List (List ℕ)) → has_sent m place lines → length lines < 2 ^ 64 };
}

impl<A: Ledger, H: Ledger, S: Ledger, C: Ledger> SenderBooks for FourBooks<A, H, S, C> {
    ghost has_sent = { λ m place lines. (m.place ≡ place) × (m.place + 1 < A.parts) × (m.share.parts ≡ 1)
        × (m.share.amount ≡ length lines) × (length lines < 2 ^ 64) };

    #[inline(always)]
    fn one_line_more() {}
}

impl<S: Ledger, C: Ledger, L: QueueHistories> SenderBooks for LineBooks<S, C, L> {
    ghost has_sent = { λ m place lines. (m.place ≡ place) × (m.lines ≡ lines) × (length lines < 2 ^ 64) };

    #[inline(always)]
    fn one_line_more() {}
}
