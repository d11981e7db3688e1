// A row of slots, of which the first ones are full. Tests compare the ring with it.
ghost use Rattle.appender_queue.specs.Inside.Slots.{slot_lines, is_packed};
ghost use Rattle.std.specs.Prelude.{◌≡◌, true, ◌<◌, ◌≤◌, [], ◌∷◌, ◌++◌, length, IfOk};

use crate::queue::store::Store;
use std::alloc::{AllocError, Global};
use std::marker::Model;

/// Lines in a row of slots, all made at once. When the first one is taken, the others move up to it.
#[derive(Drop)]
pub(crate) struct Slots {
    slots: Vec<Option<Vec<u8>>>,
    full: usize,
}

impl Model for Slots {
    ghost use Rattle.std.specs.Prelude.{◌≡◌, ℕ, List, length, ◌≤◌, true};
    ghost use Rattle.appender_queue.specs.Inside.Slots.{slot_lines, is_packed};

    /// The lines, and the number of slots.
    ghost Value = { List (List ℕ) × ℕ };

    ghost view = { λ s. (slot_lines s.slots.items, length s.slots.items) };

    ghost invariant = { λ s. (is_packed s.slots.items ≡ true)
        × (s.full ≡ length (slot_lines s.slots.items))
        × (s.full ≤ length s.slots.items) };
}

impl Slots {
    /// This many slots, all empty.
    #[tactic(auto, using(crate::proofs::Packed::packed_more, crate::proofs::Packed::lines_in_more))]
    pub(crate) fn with_capacity(alloc: Global, capacity: usize) -> Result<Slots, AllocError>
        ensures { IfOk result (λ s. (s.0 ≡ []) × (s.1 ≡ capacity)) }
    {
        let mut slots: Vec<Option<Vec<u8>>> = Vec::with_capacity(alloc, capacity)?;
        for _ in 0..capacity {
            slots.push(None)?;
        }
        Ok(Slots { slots, full: 0 })
    }
}

impl Store for Slots {
    ghost lines = { λ s. s.0 };

    ghost room = { λ s. s.1 };

    fn len(&self) -> usize {
        self.full
    }

    fn put(&mut self, line: Vec<u8>) {
        fill(self.slots.as_mut_slice(), self.full, line);
        self.full += 1;
    }

    fn take_first(&mut self) -> Option<Vec<u8>> {
        if self.full == 0 {
            return None;
        }
        let first = empty_first(self.slots.as_mut_slice(), self.full);
        self.full -= 1;
        Some(first)
    }
}

// Fills the first empty slot.
#[tactic(auto, using(crate::proofs::Packed::lines_in_fill, crate::proofs::Packed::packed_fill))]
fn fill(slots: &mut [Option<Vec<u8>>], at: usize, line: Vec<u8>)
    requires packed { is_packed slots.old ≡ true }
    requires at { at ≡ length (slot_lines slots.old) }
    requires room { at < length slots.old }
    ensures lines { slot_lines slots.new ≡ slot_lines slots.old ++ line.items ∷ [] }
    ensures packed { is_packed slots.new ≡ true }
    ensures long { length slots.new ≡ length slots.old }
{
    slots[at] = Some(line);
}

// Takes the first slot's line, and moves the full slots after it down by one.
fn empty_first(slots: &mut [Option<Vec<u8>>], full: usize) -> Vec<u8>
    requires packed { is_packed slots.old ≡ true }
    requires full { full ≡ length (slot_lines slots.old) }
    requires some { 0 < full }
    requires within { full ≤ length slots.old }
    ensures lines { slot_lines slots.old ≡ result.items ∷ slot_lines slots.new }
    ensures packed { is_packed slots.new ≡ true }
    ensures long { length slots.new ≡ length slots.old }
{
    let Some(first) = slots[0].take() else {
        unreachable!()
    };
    slots[..full].rotate_left(1);
    first
}
