// Counts of notices.
ghost use Rattle.std.specs.Prelude.{◌≡◌};
ghost use Rattle.appender_store.specs.Folder.{after_note, message_of, notice_kind_of};

use super::{Notice, NoticeKind};

impl Notice<'_> {
    /// Returns its kind.
    pub fn kind(&self) -> NoticeKind
        ensures { result ≡ notice_kind_of (message_of self.now) }
    {
        match self {
            Notice::List(_) => NoticeKind::List,
            Notice::Remove(_, _) => NoticeKind::Remove,
            Notice::Flush(_) => NoticeKind::Flush,
            Notice::Open(_) => NoticeKind::Open,
        }
    }
}

/// The count of each kind of notice. Each is at most `u64::MAX`, where it stays.
#[derive(Clone, Copy, Debug)]
pub struct NoticeCounts {
    lists: u64,
    removes: u64,
    flushes: u64,
    opens: u64,
}

impl NoticeCounts {
    ghost use Rattle.appender_store.specs.NoticeCounts.{notice_counts_of};
    ghost use Rattle.appender_store.specs.MemoryState.{notice_count};

    /// Nothing was noted.
    #[must_use]
    pub fn new() -> NoticeCounts
        ensures { notice_counts_of result ≡ record { lists = 0; removes = 0; flushes = 0; opens = 0 } }
    {
        NoticeCounts {
            lists: 0,
            removes: 0,
            flushes: 0,
            opens: 0,
        }
    }

    /// Counts one notice more.
    pub fn add(&mut self, kind: NoticeKind)
        ensures { notice_counts_of self.new ≡ after_note kind (notice_counts_of self.old) }
    {
        match kind {
            NoticeKind::List => self.lists = self.lists.saturating_add(1),
            NoticeKind::Remove => self.removes = self.removes.saturating_add(1),
            NoticeKind::Flush => self.flushes = self.flushes.saturating_add(1),
            NoticeKind::Open => self.opens = self.opens.saturating_add(1),
        }
    }

    /// Returns the number of notices of this kind.
    pub fn of(&self, kind: NoticeKind) -> u64
        ensures { result ≡ notice_count kind (notice_counts_of self.now) }
    {
        let NoticeCounts {
            lists,
            removes,
            flushes,
            opens,
        } = *self;
        match kind {
            NoticeKind::List => lists,
            NoticeKind::Remove => removes,
            NoticeKind::Flush => flushes,
            NoticeKind::Open => opens,
        }
    }
}
