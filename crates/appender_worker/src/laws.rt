//! A law of what a worker writes. The function does nothing: its contract is the law.
ghost use Rattle.std.specs.Prelude.{ℕ, List, Option};
ghost use Rattle.std.specs.List.{concat};
ghost use Rattle.std.specs.Io.KnownBytes.{Appends};
ghost use Rattle.appender_worker.specs.Served.{ServesLines};

/// If no line was given up, known bytes grow by exactly the lines, in their order.
#[tactic(auto, using(crate::proofs::Served::served_whole))]
pub fn lines_not_given_up_are_whole()
    ensures { (old new : Option (List ℕ)) (lines : List (List ℕ))
        → ServesLines old new lines 0 → Appends old new (concat lines) }
{}
