//! Histories: lists of lines that a lock and a thread share, so that a contract can say which lines a thread added.
//! They exist in proofs only. Their tokens take no bytes, and their calls do nothing at run time.
#![tactic(auto)]

ghost use Rattle.std.specs.Prelude.{◌≡◌, ℕ, List, [], ◌∷◌, ◌++◌};
ghost use base.Fml.{fsep, fobs, fauth, ftrue};
ghost use Rattle.line_history.specs.Lines.{coded};

use std::marker::{Brand, Model, PhantomData};
use std::snapshot::Snapshot;

pub mod halves;

/// Names a history for each place. A function is generic in it, and a call passes `Brand` and picks the names.
pub trait Histories {
    ghost name: { ℕ → ℕ };
}

impl Histories for Brand {
    ghost name = { λ _. 0 };
}

/// A value whose lines `record` adds to a history.
pub trait Recorded {
    ghost lines: { Self → List (List ℕ) };
}

/// One line.
impl Recorded for Vec<u8> {
    ghost lines = { λ v. v.items ∷ [] };
}

/// The line that it was taken of.
impl Recorded for Snapshot<Vec<u8>> {
    ghost lines = { λ s. s.value.items ∷ [] };
}

/// No line.
impl Recorded for () {
    ghost lines = { λ _. [] };
}

/// A new history, which has no place yet.
pub struct Blank {
    marker: PhantomData<()>,
    pub ghost name: { ℕ },
}

impl Model for Blank {
    ghost also_owns = { λ b. fsep (fauth b.name (coded [])) (fobs b.name (coded [])) };
}

/// The half of a history that is kept under a lock.
pub struct Kept<H: Histories> {
    marker: PhantomData<H>,
    pub ghost place: { ℕ },
    pub ghost lines: { List (List ℕ) },
}

impl<H: Histories> Model for Kept<H> {
    ghost also_owns = { λ k. fauth (H.name k.place) (coded k.lines) };
}

/// The half of a history that the one thread has that adds to it.
pub struct Mine<H: Histories> {
    marker: PhantomData<H>,
    pub ghost place: { ℕ },
    pub ghost lines: { List (List ℕ) },
}

impl<H: Histories> Model for Mine<H> {
    ghost also_owns = { λ m. fobs (H.name m.place) (coded m.lines) };
}

impl Blank {
    /// Returns a new history.
    pub fn new() -> Blank {
        Blank {
            marker: PhantomData,
        }
    }

    /// Returns the halves of the history, which has this place and no line.
    pub fn open<H: Histories>(self, place: usize) -> (Kept<H>, Mine<H>)
        requires { self.name ≡ H.name place }
        ensures kept { (result.0.place ≡ place) × (result.0.lines ≡ []) }
        ensures mine { (result.1.place ≡ place) × (result.1.lines ≡ []) }
    {
        let Self { marker: _ } = self;
        (
            Kept {
                marker: PhantomData,
            },
            Mine {
                marker: PhantomData,
            },
        )
    }
}

/// Adds the lines of a value to a history. Its halves had the same lines before.
pub fn record<H: Histories, T: Recorded>(kept: &mut Kept<H>, mine: &mut Mine<H>, line: &T)
    requires { kept.old.place ≡ mine.old.place }
    ensures same { kept.old.lines ≡ mine.old.lines }
    ensures kept { kept.new.lines ≡ kept.old.lines ++ T.lines line.now }
    ensures mine { mine.new.lines ≡ mine.old.lines ++ T.lines line.now }
    ensures place { (kept.new.place ≡ kept.old.place) × (mine.new.place ≡ mine.old.place) }
{}

/// The halves of a history have the same lines.
#[tactic(auto, using(crate::proofs::Lists::none_left))]
pub fn compare<H: Histories>(kept: &mut Kept<H>, mine: &mut Mine<H>)
    requires { kept.old.place ≡ mine.old.place }
    ensures same { kept.old.lines ≡ mine.old.lines }
    ensures kept { kept.new.lines ≡ kept.old.lines }
    ensures mine { mine.new.lines ≡ mine.old.lines }
    ensures place { (kept.new.place ≡ kept.old.place) × (mine.new.place ≡ mine.old.place) }
{
    record(kept, mine, &())
}

/// Lines that its owner noted.
pub struct Tape {
    marker: PhantomData<()>,
    pub ghost lines: { List (List ℕ) },
}

impl Model for Tape {
    ghost also_owns = { λ _. ftrue };
}

impl Tape {
    /// Returns a tape with the lines of a value.
    pub fn of<T: Recorded>(value: &T) -> Tape
        ensures { result.lines ≡ T.lines value.now }
    {
        Tape {
            marker: PhantomData,
        }
    }

    /// Notes a line.
    pub fn note(&mut self, line: &[u8])
        ensures { self.new.lines ≡ self.old.lines ++ line.now ∷ [] }
    {
        *self = Tape::of(&Noted { tape: self, line });
    }
}

// A tape and its next line.
#[derive(Drop)]
struct Noted<'a> {
    tape: &'a Tape,
    line: &'a [u8],
}

impl<'a> Recorded for Noted<'a> {
    ghost lines = { λ n. n.tape.now.lines ++ n.line.now ∷ [] };
}

impl Drop for Tape {
    fn drop(self) {
        let Self { marker: _ } = self;
    }
}

impl Drop for Blank {
    fn drop(self) {
        let Self { marker: _ } = self;
    }
}

impl<H: Histories> Drop for Kept<H> {
    fn drop(self) {
        let Self { marker: _ } = self;
    }
}

impl<H: Histories> Drop for Mine<H> {
    fn drop(self) {
        let Self { marker: _ } = self;
    }
}

// Each token has a ghost name, which any thread may have.
unsafe impl Send for Blank {}

unsafe impl Send for Tape {}

unsafe impl<H: Histories> Send for Kept<H> {}

unsafe impl<H: Histories> Send for Mine<H> {}
