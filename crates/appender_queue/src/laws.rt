//! Laws of what calls of a queue change. The functions do nothing: their contracts are the laws.
ghost use Rattle.std.specs.Prelude.{◌≡◌, ℕ, Bool, Result, Vec};
ghost use Rattle.std.specs.declared.alloc.Global.{Global};
ghost use Rattle.appender_queue.specs.declared.queue.Refused.{Refused};
ghost use Rattle.appender_queue.specs.declared.queue.Shut.{Shut};
ghost use Rattle.appender_queue.specs.declared.queue.Taken.{Taken};
ghost use Rattle.appender_queue.specs.Queue.{Queue};
ghost use Rattle.appender_queue.specs.QueueCalls.{Offers, OffersFrom, Shuts, Takes, AddsSender, DropsSender};
ghost use Rattle.appender_queue.specs.QueueChanges.{OfferChanges, OfferFromChanges, ShutChanges, TakeChanges};

/// An accepted line is the last one and has the next ticket. A refused one changes at most the count of
/// dropped lines.
#[inline(always)]
pub fn offers_change_little()
    ensures { (old new : Queue) (line : Vec ℕ Global) (reply : Result ℕ Refused)
        → Offers old line reply new → OfferChanges old new line.items reply }
{}

/// An offer from a place changes what an offer changes, and last tickets.
#[inline(always)]
pub fn offers_from_change_little()
    ensures { (old new : Queue) (place : ℕ) (line : Vec ℕ Global) (reply : Result ℕ Refused)
        → OffersFrom old place line reply new → OfferFromChanges old new line.items reply }
{}

/// No call but an offer from a place changes a last ticket.
#[inline(always)]
pub fn other_calls_leave_last_tickets()
    ensures offers { (old new : Queue) (line : Vec ℕ Global) (reply : Result ℕ Refused)
        → Offers old line reply new → new.last_tickets ≡ old.last_tickets }
    ensures shutdowns { (old new : Queue) (reply : Shut) → Shuts old reply new → new.last_tickets ≡ old.last_tickets }
    ensures takes { (old new : Queue) (waits : Bool) (reply : Taken)
        → Takes old waits reply new → new.last_tickets ≡ old.last_tickets }
    ensures added { (old new : Queue) (senders : ℕ) → AddsSender old senders new → new.last_tickets ≡ old.last_tickets }
    ensures dropped { (old new : Queue) (senders : ℕ) → DropsSender old senders new → new.last_tickets ≡ old.last_tickets }
{}

/// Only a shutdown that was sent changes the queue.
pub fn shutdowns_change_little()
    ensures { (old new : Queue) (reply : Shut) → Shuts old reply new → ShutChanges old new reply }
{}

/// A take that returns a line raises the number of handed lines to its ticket. The queue is closed
/// exactly after `Shutdown` and `Gone`.
pub fn takes_change_little()
    ensures { (old new : Queue) (waits : Bool) (reply : Taken)
        → Takes old waits reply new → TakeChanges old new reply }
{}
