//! The histories of a queue: one of each sender, and one of the thread that takes the lines.
ghost use Rattle.std.specs.Prelude.{
  ◌≡◌,
  ◌≢◌,
  ◌∷◌,
  ◌+◌,
  ◌<◌,
  ◌≤◌,
  ◌++◌,
  [],
  ℕ,
  List,
  length,
  map,
  slice_index,
  slice_index_or,
  slice_set,
  vec_len,
  IfOk,
};
ghost use Rattle.line_history.specs.Lines.{AreNew};
ghost use Rattle.line_history.specs.Interleaving.{IsInterleaving};

use crate::{Blank, Histories, Kept, Mine, Recorded, compare, record};
use std::alloc::{AllocError, Global};
use std::marker::{Brand, Model};
use std::snapshot::Snapshot;

/// Names the histories of a queue: those of its senders have the places 0, 1, 2, .., and that of its taker the next one.
pub trait QueueHistories: Histories {
    /// How many senders there are.
    ghost senders: { ℕ };
}

impl QueueHistories for Brand {
    ghost senders = { 0 };
}

/// A sender's half of its history.
#[derive(Drop)]
pub struct SenderHistory<H: QueueHistories> {
    place: usize,
    mine: Mine<H>,
}

impl<H: QueueHistories> Model for SenderHistory<H> {
    ghost use Rattle.std.specs.Prelude.{◌≡◌, ◌<◌};
    ghost use Rattle.line_history.specs.Interleaving.{SentFrom};

    ghost Value = { SentFrom };

    ghost view = { λ s. record { place = s.place; lines = s.mine.lines } };

    ghost invariant = { λ s. (s.mine.place ≡ s.place) × (s.place < H.senders) };
}

/// The taker's half of its history.
#[derive(Drop)]
pub struct TakerHistory<H: QueueHistories> {
    mine: Mine<H>,
}

// Contracts see its lines.
impl<H: QueueHistories> Model for TakerHistory<H> {
    ghost use Rattle.std.specs.Prelude.{◌≡◌, ℕ, List};

    ghost Value = { List (List ℕ) };

    ghost view = { λ t. t.mine.lines };

    ghost invariant = { λ t. t.mine.place ≡ H.senders };
}

impl<H: QueueHistories> SenderHistory<H> {
    /// Returns the sender's place.
    #[inline(always)]
    pub fn place(&self) -> usize
        ensures place { result ≡ self.now.place }
        ensures within { self.now.place < H.senders }
    {
        self.place
    }
}

// A line without bytes.
#[derive(Drop)]
struct Mark;

impl Recorded for Mark {
    ghost lines = { λ _. [] ∷ [] };
}

/// The halves that are kept under the lock of the queue.
#[derive(Drop)]
pub struct QueueHalves<H: QueueHistories> {
    sent: Vec<Kept<H>>,
    taken: Kept<H>,
}

impl<H: QueueHistories> Model for QueueHalves<H> {
    ghost use Rattle.std.specs.Prelude.{◌≡◌, map};
    ghost use Rattle.std.specs.List.{range_with_len};
    ghost use Rattle.line_history.specs.Interleaving.{Halves};

    ghost Value = { Halves };

    ghost view = { λ h. record { sent = map (λ k. k.lines) h.sent.items; taken = h.taken.lines } };

    ghost invariant = { λ h. (map (λ k. k.place) h.sent.items ≡ range_with_len 0 H.senders) × (h.taken.place ≡ H.senders) };
}

impl<H: QueueHistories> QueueHalves<H> {
    /// Returns both halves of new histories: the senders' and the taker's. `AllocError` if memory ran out.
    pub fn open(
        alloc: Global,
        blanks: Vec<Blank>,
    ) -> Result<(QueueHalves<H>, Vec<SenderHistory<H>>, TakerHistory<H>), AllocError>
        requires names { (i : ℕ) → i < vec_len blanks → slice_index (map (λ b. b.name) blanks.items) i ≡ H.name i }
        requires count { vec_len blanks ≡ H.senders + 1 }
        ensures sent { IfOk result (λ made. IsInterleaving made.0.sent []) }
        ensures taken { IfOk result (λ made. made.0.taken ≡ []) }
        ensures count { IfOk result (λ made. vec_len made.1 ≡ H.senders) }
        ensures senders { IfOk result (λ made. AreNew (λ s. s.place) (λ s. s.lines) 0 made.1.items) }
        ensures taker { IfOk result (λ made. made.2 ≡ []) }
    {
        let mut blanks = blanks;
        let Some(last) = blanks.pop() else {
            unreachable!()
        };
        let mut sent = Vec::with_capacity(alloc, blanks.len())?;
        let mut senders = Vec::with_capacity(alloc, blanks.len())?;
        for blank in blanks {
            let place = sent.len();
            let (kept, mine) = blank.open::<H>(place);
            sent.push_reserved(kept);
            senders.push_reserved(SenderHistory { place, mine });
        }
        let (taken, mine) = last.open::<H>(sent.len());
        Ok((QueueHalves { sent, taken }, senders, TakerHistory { mine }))
    }

    /// Adds a line to the history of a sender.
    #[inline(always)]
    pub fn send(&mut self, sender: &mut SenderHistory<H>, line: &Snapshot<Vec<u8>>)
        ensures sent { (lines : List (List ℕ)) → IsInterleaving self.old.sent lines
            → IsInterleaving self.new.sent (lines ++ line.now.value.items ∷ []) }
        ensures taken { self.new.taken ≡ self.old.taken }
        ensures few { (lines : List (List ℕ)) → IsInterleaving self.old.sent lines → length sender.old.lines ≤ length lines }
        ensures lines { sender.new.lines ≡ sender.old.lines ++ line.now.value.items ∷ [] }
        ensures place { sender.new.place ≡ sender.old.place }
    {
        self.add(sender, line);
    }

    // Adds the lines of a value to the history of a sender. Its halves had the same lines before.
    #[inline(always)]
    fn add<T: Recorded>(&mut self, sender: &mut SenderHistory<H>, value: &T)
        ensures same { sender.old.lines ≡ slice_index_or self.old.sent sender.old.place [] }
        ensures sent { self.new.sent ≡ slice_set self.old.sent sender.old.place (slice_index_or self.old.sent sender.old.place [] ++ T.lines value.now) }
        ensures taken { self.new.taken ≡ self.old.taken }
        ensures within { sender.old.place < length self.old.sent }
        ensures lines { sender.new.lines ≡ sender.old.lines ++ T.lines value.now }
        ensures place { sender.new.place ≡ sender.old.place }
    {
        let QueueHalves { sent, taken: _ } = self;
        record(&mut sent[sender.place], &mut sender.mine, value);
    }

    /// Adds a line to the history of the taker.
    #[inline(always)]
    pub fn take(&mut self, taker: &mut TakerHistory<H>, line: &Vec<u8>)
        ensures taken { self.new.taken ≡ self.old.taken ++ line.now.items ∷ [] }
        ensures sent { self.new.sent ≡ self.old.sent }
        ensures lines { taker.new ≡ taker.old ++ line.now.items ∷ [] }
    {
        let QueueHalves { sent: _, taken } = self;
        record(taken, &mut taker.mine, line);
    }

    /// The history of the taker has the lines of its half under the lock.
    pub fn compare_taker(&mut self, taker: &mut TakerHistory<H>)
        ensures same { taker.old ≡ self.old.taken }
        ensures unchanged { self.new ≡ self.old }
    {
        let QueueHalves { sent: _, taken } = self;
        compare(taken, &mut taker.mine);
    }

    // The history of this sender has the lines of its half under the lock.
    #[tactic(auto, using(crate::proofs::Lists::none_left, crate::proofs::Places::same_set))]
    fn compare_sender(&mut self, sender: &mut SenderHistory<H>)
        ensures same { sender.old.lines ≡ slice_index_or self.old.sent sender.old.place [] }
        ensures sender { sender.new ≡ sender.old }
        ensures within { sender.old.place < length self.old.sent }
        ensures unchanged { self.new ≡ self.old }
    {
        self.add(sender, &());
    }

    // Two senders have two places: else a line that is added to one of them would be missing in the other.
    fn apart(&mut self, one: &mut SenderHistory<H>, other: &mut SenderHistory<H>)
        ensures apart { one.old.place ≢ other.old.place }
        ensures same { (self.new ≡ self.old) × (one.new ≡ one.old) × (other.new ≡ other.old) }
    {
        if one.place == other.place {
            self.compare_sender(other);
            self.add(one, &Mark);
            self.compare_sender(other);
            unreachable!()
        }
    }

    // The same of a sender and these others.
    fn apart_from_all(&mut self, one: &mut SenderHistory<H>, others: &mut Vec<SenderHistory<H>>)
        ensures apart { (i : ℕ) (d : _) → i < vec_len others.old → one.old.place ≢ (slice_index_or others.old.items i d).place }
        ensures same { (self.new ≡ self.old) × (one.new ≡ one.old) × (others.new.items ≡ others.old.items) }
    {
        for i in 0..others.len() {
            self.apart(one, &mut others[i]);
        }
    }

    /// All senders, in whatever order. What is an interleaving of the lines of the halves under the lock is one of their lines.
    pub fn compare_all(&mut self, senders: Vec<SenderHistory<H>>)
        requires { vec_len senders ≡ H.senders }
        ensures same { (lines : List (List ℕ)) → IsInterleaving self.old.sent lines
            → IsInterleaving (map (λ s. s.lines) senders.items) lines }
        ensures unchanged { self.new ≡ self.old }
    {
        // There are as many halves as senders.
        let _ = &self.sent;
        let mut senders = senders;
        while let Some(sender) = senders.pop() {
            let mut sender = sender;
            self.compare_sender(&mut sender);
            self.apart_from_all(&mut sender, &mut senders);
        }
    }
}
