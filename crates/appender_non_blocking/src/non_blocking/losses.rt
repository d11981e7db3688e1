// What a log lost.
ghost use Rattle.std.specs.Prelude.{◌≡◌, ◌↔◌, ◌+◌, ◌-◌, ◌^◌, min, true, IfErr, IsOk};
ghost use Rattle.std.specs.IoError.{error_kind};
ghost use Rattle.std.specs.declared.io.ErrorKind.TheVariants.{Other};
ghost use Rattle.appender_non_blocking.specs.Losses.{no_losses, losses_at};

use super::guard::Closing;
use std::fmt::{Display, Formatter, InlineText};
use std::{fmt, io};

/// What a log lost, from the counts of its parts: begin with `Losses::from(guard.close())`, and add the others. A count
/// that would pass `u64::MAX` stays there.
#[derive(Clone, Copy, PartialEq, Eq, Debug)]
pub struct Losses {
    /// The number of records that were not queued or not written whole, as `LogSink::lost` returns it.
    pub records: u64,
    /// The number of lines that a lossy queue dropped, as `ErrorCounter::dropped_lines` returns it.
    pub dropped: u64,
    /// The number of lines that the worker left in the queue.
    pub left: u64,
    /// The number of lines that the worker's writer did not take whole, as `LineCounts::lost` returns it.
    pub unwritten: u64,
    /// Whether the worker did not end in time, so that it may still write, or lose, lines that no count has.
    pub is_open: bool,
}

impl Losses {
    /// No losses.
    pub const NONE: Losses = Losses {
        records: 0,
        dropped: 0,
        left: 0,
        unwritten: 0,
        is_open: false,
    };

    /// Adds records that a logger lost.
    pub fn and_records(self, lost: u64) -> Losses
        ensures { result ≡ record self { records = min (self.records + lost) (2 ^ 64 - 1) } }
    {
        Losses {
            records: self.records.saturating_add(lost),
            ..self
        }
    }

    /// Adds lines that a lossy queue dropped.
    pub fn and_dropped(self, dropped: usize) -> Losses
        ensures { result ≡ record self { dropped = min (self.dropped + dropped) (2 ^ 64 - 1) } }
    {
        Losses {
            dropped: self.dropped.saturating_add(dropped as u64),
            ..self
        }
    }

    /// Adds lines that the worker's writer did not take whole.
    pub fn and_unwritten(self, lost: u64) -> Losses
        ensures { result ≡ record self { unwritten = min (self.unwritten + lost) (2 ^ 64 - 1) } }
    {
        Losses {
            unwritten: self.unwritten.saturating_add(lost),
            ..self
        }
    }

    /// Returns whether nothing was lost.
    pub fn is_none(&self) -> bool
        ensures { (result ≡ true) ↔ (self.now ≡ no_losses) }
    {
        self.records == 0
            && self.dropped == 0
            && self.left == 0
            && self.unwritten == 0
            && !self.is_open
    }

    /// Returns an error of the kind `Other` if something was lost. Its text is that of `Display`, up to 80 bytes.
    pub fn check(&self) -> io::Result<()>
        ensures none { IsOk result ↔ (self.now ≡ no_losses) }
        ensures kind { IfErr result (λ error. error_kind error ≡ Other) }
    {
        if self.is_none() {
            Ok(())
        } else {
            Err(io::Error::other(InlineText::<80>::of(*self).as_str()))
        }
    }

    // The counts with their words, in the order of a line's way.
    fn counts(&self) -> [(&'static str, u64); 4] {
        [
            ("records lost", self.records),
            ("lines dropped", self.dropped),
            ("lines left", self.left),
            ("lines not written whole", self.unwritten),
        ]
    }
}

impl From<Closing> for Losses {
    ghost from_gives = { λ closing losses. losses ≡ losses_at closing };

    fn from(closing: Closing) -> Losses {
        match closing {
            Closing::Done { left } => Losses {
                left,
                ..Losses::NONE
            },
            Closing::Ended => Losses::NONE,
            Closing::Pending | Closing::Full => Losses {
                is_open: true,
                ..Losses::NONE
            },
        }
    }
}

/// Whether the worker did not end, and each count that isn't 0, as `the worker did not end; lines dropped: 2`. `nothing lost`
/// if there is none.
impl Display for Losses {
    fn fmt<W: fmt::Write>(&self, f: &mut Formatter<W>) -> fmt::Result {
        if self.is_none() {
            return f.write_str("nothing lost");
        }
        let mut separator = "";
        if self.is_open {
            f.write_str("the worker did not end")?;
            separator = "; ";
        }
        for (words, count) in self.counts() {
            if count > 0 {
                write!(f, "{separator}{words}: {count}")?;
                separator = "; ";
            }
        }
        Ok(())
    }
}
