// Wrong runs that the headline refuses, whichever other clauses there are.
ghost use Rattle.appender_store.specs.MemoryView.{state_of};
ghost use Rattle.appender_replay.specs.Inside.Refused.{WritesTwice, LosesByte, WritesOutOfOrder, TakesOutOfOrder, ShutdownTakesNoPlace, NeverPrunes, FollowsClockBack, ChangesOtherNames, LosesFile, ReusesNumber, TakesNothing, FlushesNothing, NotesNoFault, RemovesLaterFile, RemovesAtFailure, LacksLink, LinksElsewhere};

use appender_names::laws::names_are_periods;
use appender_store::store::{Folder, MemoryFolder};

// Does nothing. Each clause is that a wrong run contradicts the headline.
fn headline_refuses<S: Folder>()
    ensures writes_twice { WritesTwice S.Folder }
    ensures loses_byte { LosesByte S.Folder }
    ensures writes_out_of_order { WritesOutOfOrder S.Folder }
    ensures takes_out_of_order { TakesOutOfOrder S.Folder }
    ensures shutdown_takes_no_place { ShutdownTakesNoPlace S.Folder }
    ensures never_prunes { NeverPrunes S.Folder }
    ensures follows_clock_back { FollowsClockBack S.Folder }
    ensures changes_other_names { ChangesOtherNames S.Folder }
    ensures loses_file { LosesFile S.Folder }
    ensures reuses_number { ReusesNumber S.Folder }
    ensures takes_nothing { TakesNothing ⟦<MemoryFolder as Folder>⟧ state_of }
    ensures flushes_nothing { FlushesNothing ⟦<MemoryFolder as Folder>⟧ state_of }
    ensures notes_no_fault { NotesNoFault ⟦<MemoryFolder as Folder>⟧ }
    ensures removes_later_file { RemovesLaterFile S.Folder }
    ensures removes_at_failure { RemovesAtFailure S.Folder }
    ensures lacks_link { LacksLink S.Folder }
    ensures links_elsewhere { LinksElsewhere S.Folder }
{
    names_are_periods();
}
