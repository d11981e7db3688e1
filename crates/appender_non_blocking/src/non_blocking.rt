//! Writers whose lines are written by a worker thread.
//!
//! Each `write` of a `NonBlocking` is one line: it is copied, and the copy is offered to a bounded
//! queue. A worker takes line after line, and writes each to the writer that it was given. The lock
//! is held for just one offer or one take, and never while a line is written. Only the first line of a
//! clone is copied under it: up to 512 bytes, into a buffer that has room for them.

mod account;
mod builder;
mod counted;
mod flushes;
mod guard;
mod lines;
mod losses;
mod run;
mod sender;
mod shared;
mod work;
mod worker;

pub use account::{Account, Blanks, CountedGuard, Settled, Unsettled};
pub use appender_queue::queue::Shut;
pub use appender_runtime::host::{GuardHost, Host};
pub use builder::{DEFAULT_BUFFERED_LINES_LIMIT, NonBlockingBuilder, non_blocking};
pub use counted::{BookSender, CountedSender};
pub use guard::{Closing, WorkerGuard};
pub use lines::{Ran, RecordedWork};
pub use losses::Losses;
pub use run::Written;
pub use sender::{ErrorCounter, NonBlocking, Sent};
pub use work::{CountedWork, LineSender, RanAll, Unstarted};
