//! What holds of all folders. A caller cites a law by a call: the function does nothing, and its
//! contract is the law.
ghost use Rattle.appender_store.specs.NameLaws.{RemovalsTakeOneName, AdditionsAddOneName};

/// A removal removes its own name and no other; what is added has its own name, and no
/// other name changes.
pub fn names_change_one_at_a_time()
    ensures removals { RemovalsTakeOneName }
    ensures additions { AdditionsAddOneName }
{}
