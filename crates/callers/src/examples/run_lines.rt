//! The example of `run_lines`.

use std::io;
use std::io::Write;
use tracing_appender::non_blocking::{Host, LineSender, NonBlockingBuilder, RecordedWork, Sent};

#[derive(Drop)]
pub struct Hello {
    queued: bool,
}

impl RecordedWork for Hello {
    ghost does = { λ _ _ _ _. Unit {0} };

    fn run<S: LineSender + Drop>(&mut self, mut sender: S) -> S
        ensures { Unit {0} }
    {
        self.queued = matches!(sender.write_line(b"hello\n"), Ok(Sent::Queued(_)));
        sender
    }
}

// Returns whether the log took the whole line.
pub fn greet<R: Host, W: Write + Send + Drop + 'static>(rt: R, log: W) -> io::Result<bool> {
    let hello = Hello { queued: false };
    let ran = NonBlockingBuilder::default()
        .run_lines(rt, rt.alloc(), log, hello, None)
        .map_err(|unstarted| unstarted.error)?;
    let whole = ran.written.is_some_and(|written| written.given_up == 0);
    Ok(ran.work.queued && whole)
}
