// A ring of lines, of which the first is taken without moving another.
ghost use Rattle.std.specs.Prelude.{◌≡◌, [], IfOk};

use crate::queue::store::Store;
use circular_buffer::HeapCircularBuffer;
use std::alloc::{AllocError, Global};
use std::marker::Model;

/// Lines in a ring of places, all made at once.
#[derive(Drop)]
pub(crate) struct Ring {
    lines: HeapCircularBuffer<Vec<u8>>,
}

impl Model for Ring {
    ghost use Rattle.std.specs.Prelude.{ℕ, List, map};

    /// The lines, and the number of places.
    ghost Value = { List (List ℕ) × ℕ };

    ghost view = { λ r. (map (λ line. line.items) r.lines.items, r.lines.capacity) };
}

impl Ring {
    /// This many places, all empty. Each is written once, so that no later call waits for the
    /// system to give a page.
    pub(crate) fn with_capacity(alloc: Global, capacity: usize) -> Result<Ring, AllocError>
        ensures { IfOk result (λ r. (r.0 ≡ []) × (r.1 ≡ capacity)) }
    {
        let mut lines = HeapCircularBuffer::with_capacity(alloc, capacity)?;
        for _ in 0..capacity {
            let _ = lines.try_push_back(Vec::new(alloc));
        }
        lines.clear();
        Ok(Ring { lines })
    }
}

impl Store for Ring {
    ghost lines = { λ r. r.0 };

    ghost room = { λ r. r.1 };

    #[inline(always)]
    fn len(&self) -> usize {
        self.lines.len()
    }

    #[inline(always)]
    fn put(&mut self, line: Vec<u8>) {
        // A full ring would give the line back. Here there is room.
        let Ok(()) = self.lines.try_push_back(line) else {
            unreachable!()
        };
    }

    #[inline(always)]
    fn take_first(&mut self) -> Option<Vec<u8>> {
        self.lines.pop_front()
    }
}
