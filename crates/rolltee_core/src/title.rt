//! What messages begin with, so that two logs in one journal can be told apart.
use std::alloc::{AllocError, Global};
use std::fmt::Display;
use std::io;
use std::sync::Wait;
use std::time::{Clock, Duration};

/// Returns what each message about the log of this folder and prefix begins with: `rolltee: DIR/PREFIX: `.
pub fn title(alloc: Global, directory: &str, prefix: &str) -> Result<String, AllocError> {
    let slash = if directory.ends_with('/') { "" } else { "/" };
    format!(in alloc; "rolltee: {directory}{slash}{prefix}: ")
}

/// A runtime whose lines on standard error begin with the title of a log.
#[derive(Drop)]
pub struct Titled<R> {
    rt: R,
    title: String,
}

impl<R: AllocGlobal + Drop> Titled<R> {
    /// Returns this runtime with the title of the log of this folder and prefix.
    pub fn new(rt: R, directory: &str, prefix: &str) -> Result<Titled<R>, AllocError> {
        let title = title(rt.alloc(), directory, prefix)?;
        Ok(Titled { rt, title })
    }
}

impl<R: AllocGlobal> Alloc for Titled<R> {
    type A = Global;

    fn alloc(&self) -> Global {
        self.rt.alloc()
    }
}

impl<R: Wait> Wait for Titled<R> {}

impl<R: Clock> Clock for Titled<R> {
    fn monotonic(&self) -> io::Result<Duration> {
        self.rt.monotonic()
    }

    fn since_1970(&self) -> io::Result<Duration> {
        self.rt.since_1970()
    }

    fn sleep(&self, duration: Duration) {
        self.rt.sleep(duration);
    }
}

impl<R: Eprint> Eprint for Titled<R> {
    fn eprint<D: Display + Drop>(&self, value: D) -> io::Result<()> {
        self.rt.eprint(format_args!("{}{value}", self.title))
    }

    fn eprintln<D: Display + Drop>(&self, value: D) -> io::Result<()> {
        self.rt.eprintln(format_args!("{}{value}", self.title))
    }
}
