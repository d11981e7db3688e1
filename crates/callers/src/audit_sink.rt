//! An audit sink: lines of many sources for one log.
ghost use Rattle.std.specs.Prelude.{◌≡◌, ◌<◌, ◌++◌, ℕ, List, map, length, slice_index_or, IfOk, true};
ghost use Rattle.std.specs.List.{concat};
ghost use Rattle.std.specs.Io.KnownBytes.{Appends};
ghost use Rattle.tracing_appender.specs.Interleaving.{IsInterleaving};
ghost use Rattle.callers.specs.Sources.{texts_of};

use std::io;
use std::io::Write;
use tracing_appender::non_blocking::{CountedWork, Host, LineSender, NonBlockingBuilder, Sent};
use tracing_appender::worker_laws;

/// The lines of a source, and whether all of them were queued.
#[derive(Drop)]
pub struct Source {
    /// The lines.
    pub lines: Vec<Vec<u8>>,
    /// Whether all of them were queued, after an audit.
    pub is_queued: bool,
}

/// Writes the lines of each source to the log, each source from a thread of its own, and returns the log. It took each line once and
/// whole, and those of a source in their order. It is an error if it did not.
pub fn audit<R: Host, W: Write + Send + Drop + 'static>(
    rt: R,
    log: W,
    sources: Vec<Source>,
) -> io::Result<W>
    ensures { IfOk result (λ written. (taken : List (List ℕ)) × IsInterleaving (map texts_of sources.items) taken
        × Appends (W.contents log) (W.contents written) (concat taken)) }
{
    worker_laws::lines_not_given_up_are_whole();
    let ran = NonBlockingBuilder::default()
        .lossy(false)
        .run_counted(rt, rt.alloc(), log, sources)
        .map_err(|unstarted| unstarted.error)?;
    if ran.written.given_up > 0 || !are_queued(ran.works.as_slice()) {
        return Err(io::Error::other("lines were not written whole"));
    }
    Ok(ran.written.writer)
}

// Whether all lines of all sources were queued.
fn are_queued(sources: &[Source]) -> bool
    ensures { result ≡ true → (i : ℕ) (d : Source) → i < length sources.now → (slice_index_or sources.now i d).is_queued ≡ true }
{
    for i in 0..sources.len() {
        if !sources[i].is_queued {
            return false;
        }
    }
    true
}

impl CountedWork for Source {
    ghost does = { λ old start new ended. new.is_queued ≡ true → ended.lines ≡ start.lines ++ texts_of old };

    fn run<L: LineSender>(&mut self, sender: &mut L) {
        self.is_queued = false;
        for i in 0..self.lines.len() {
            let Ok(Sent::Queued(_)) = sender.write_line(self.lines[i].as_slice()) else {
                return;
            };
        }
        self.is_queued = true;
    }
}
