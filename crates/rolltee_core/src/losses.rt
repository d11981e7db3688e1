//! What a run lost.
ghost use Rattle.std.specs.Prelude.{◌≡◌, map, Some};
ghost use Rattle.rolltee_core.specs.Losses.{losses_counts, losses_text};

use std::fmt;
use std::fmt::{Display, Formatter};

/// How much of what was read a run did not write.
#[derive(Clone, Copy, PartialEq, Eq, Debug)]
pub struct TeeLosses {
    /// The number of lines that the log did not take whole.
    pub unwritten: u64,
    /// The number of lines that found no room in a lossy queue.
    pub dropped: u64,
    /// The number of lines that were not written whole to the output.
    pub unechoed: u64,
    /// The number of log files that were removed, renamed, replaced or truncated while they were written to.
    pub gone: u64,
    /// The number of syncs of log files that failed.
    pub unsynced: u64,
}

impl TeeLosses {
    /// No losses.
    pub const NONE: TeeLosses = TeeLosses {
        unwritten: 0,
        dropped: 0,
        unechoed: 0,
        gone: 0,
        unsynced: 0,
    };

    // The counts with their words, in the order in which they are reported.
    fn counts(&self) -> [(&'static str, u64); 5]
        ensures { map (λ count. (count.0.now, count.1)) result ≡ losses_counts self.now }
    {
        [
            ("lines not written whole", self.unwritten),
            ("lines dropped", self.dropped),
            ("lines not echoed", self.unechoed),
            ("log files not found again", self.gone),
            ("syncs that failed", self.unsynced),
        ]
    }
}

/// Each count that isn't 0 after its words, separated by `; `.
impl Display for TeeLosses {
    ghost output = { λ losses. Some (losses_text losses) };

    fn fmt<W: fmt::Write>(&self, f: &mut Formatter<W>) -> fmt::Result {
        let mut separator = "";
        for (words, count) in self.counts() {
            if count > 0 {
                write!(f, "{separator}{words}: {count}")?;
                separator = "; ";
            }
        }
        Ok(())
    }
}
