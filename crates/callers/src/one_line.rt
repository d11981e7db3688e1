//! Callers that know of one line that their log has it. Their contracts need no proof file.
ghost use Rattle.std.specs.Prelude.{◌≡◌, ◌++◌, ◌∷◌, [], ℕ, List, IsTrue, Ok, OnOk, IfOk, IfSome, codes, length, true};
ghost use Rattle.std.specs.Io.KnownBytes.{Appends};
ghost use Rattle.tracing_appender.specs.Appender.{PutsNow};
ghost use Rattle.tracing_appender.specs.Content.{body_at};

use std::io;
use std::io::{ErrorKind, Write};
use tracing_appender::non_blocking::{Host, LineSender, NonBlockingBuilder, RecordedWork, Sent};
use tracing_appender::rolling::{Clock, RollingFile, Switch};
use tracing_appender::store::Folder;
use tracing_appender::worker_laws;

/// Logs a line by one append. After `Ok` that took all of it, and the open file ends with it, if the folder's content is known.
pub fn log_line<S: Folder, C: Clock>(log: &mut RollingFile<S, C>, line: &[u8]) -> io::Result<()>
    ensures once { OnOk result ((switch : Switch)
        × PutsNow S.Folder C.Clock line.now switch (Ok (length line.now)) log.old log.new) }
    ensures last { OnOk result (IsTrue S.is_known → (before : List ℕ)
        × (body_at (S.content log.new.roller.folder) (S.body log.new.roller.file) ≡ before ++ line.now)) }
{
    let (_, put) = log.put(line);
    if put? == line.len() {
        Ok(())
    } else {
        Err(io::Error::from(ErrorKind::WriteZero))
    }
}

/// Logs a line by as many appends as are needed. After `Ok` the open file ends with it, as after `log_line`.
pub fn log_all<S: Folder, C: Clock>(log: &mut RollingFile<S, C>, line: &[u8]) -> io::Result<()>
    ensures { OnOk result (IsTrue S.is_known → (before : List ℕ)
        × (body_at (S.content log.new.roller.folder) (S.body log.new.roller.file) ≡ before ++ line.now)) }
{
    log.write_all(line)
}

/// Sends one line, and knows whether it was queued.
#[derive(Drop)]
pub struct Hello {
    queued: bool,
}

impl RecordedWork for Hello {
    ghost does = { λ old start new ended. new.queued ≡ true → ended.lines ≡ start.lines ++ codes "hello" ∷ [] };

    fn run<S: LineSender + Drop>(&mut self, mut sender: S) -> S {
        self.queued = matches!(sender.write_line(b"hello"), Ok(Sent::Queued(_)));
        sender
    }
}

/// Sends a line to the log by a worker thread. Returns the log only if it took exactly this line.
pub fn greet<R: Host, W: Write + Send + Drop + 'static>(rt: R, log: W) -> io::Result<Option<W>>
    ensures { IfOk result (λ back. IfSome back (λ after. Appends (W.contents log) (W.contents after) (codes "hello"))) }
{
    worker_laws::lines_not_given_up_are_whole();
    let hello = Hello { queued: false };
    let ran = NonBlockingBuilder::default()
        .run_lines(rt, rt.alloc(), log, hello, None)
        .map_err(|unstarted| unstarted.error)?;
    if !ran.work.queued {
        return Ok(None);
    }
    match ran.written {
        Some(written) if written.given_up == 0 => Ok(Some(written.writer)),
        _ => Ok(None),
    }
}
