//! The example of `run_counted`.

use std::io;
use std::io::Write;
use tracing_appender::non_blocking::{Account, CountedWork, Host, LineSender, NonBlockingBuilder};

#[derive(Drop)]
pub struct Hello;

impl CountedWork for Hello {
    ghost does = { λ _ _ _ _. Unit {0} };

    fn run<L: LineSender>(&mut self, sender: &mut L)
        ensures { Unit {0} }
    {
        let _ = sender.write_line(b"hello\n").is_ok();
    }
}

pub fn greet<R: Host, W: Write + Send + Drop + 'static>(rt: R, log: W) -> io::Result<Account> {
    let works = vec![in rt.alloc(); Hello, Hello]?;
    let ran = NonBlockingBuilder::default()
        .run_counted(rt, rt.alloc(), log, works)
        .map_err(|unstarted| unstarted.error)?;
    // Two threads sent a line each: 2 lines were accepted, and 2 were handed to the worker.
    Ok(ran.account)
}
