// The guard that ends the worker.
ghost use Rattle.std.specs.Prelude.{◌≡◌};

use super::shared::Shared;
use appender_channel::books::{Books, NoBooks};
use appender_channel::state::Counted;
use appender_queue::queue::Shut;
use appender_runtime::backoff::Backoff;
use appender_runtime::host::GuardHost;
use std::alloc::Global;
use std::fmt;
use std::fmt::{Debug, Formatter};
use std::sync::{Arc, CondvarTimeouts, Wait};
use std::time::{Clock, Duration};

// How long a guard tries to send the shutdown, and then waits for the worker's end, in milliseconds:
// those of the crate tracing-appender.
const SHUTDOWN_MILLIS: u64 = 100;

const END_MILLIS: u64 = 1000;

/// What became of a guard that was closed.
#[derive(Clone, Copy, PartialEq, Eq, Debug)]
pub enum Closing {
    /// The worker ended.
    Done {
        /// How many lines were accepted after the shutdown, and so were not written.
        left: u64,
    },
    /// The shutdown was sent, but the worker did not end within 1,000 milliseconds.
    Pending,
    /// No shutdown was sent: the queue stayed full for 100 milliseconds.
    Full,
    /// The queue was closed already.
    Ended,
}

/// Ends the worker when it is closed or dropped. Keep it until all lines are queued: lines that are accepted after the
/// shutdown are not written.
///
/// It sends the shutdown. If the queue is full, it waits for room, for up to 100 milliseconds. Then it waits for the
/// worker's end, for up to 1,000 milliseconds. `close` returns the result. A drop returns nothing. If the queue stayed
/// full, a drop prints the line `Failed to send shutdown signal to logging worker. Error: Shutdown` to standard output.
/// The queue counts the guard as a sender.
///
/// ```
/// use std::io;
/// use std::io::Write;
/// use tracing_appender::non_blocking::{Host, Losses, non_blocking};
/// use tracing_appender::worker::BatchWriter;
///
/// // Returns an error if the line was dropped, left in the queue or not written whole.
/// pub fn log_stop<R: Host, W: Write + Send + Drop + 'static>(rt: R, log: W) -> io::Result<()> {
///     let (log, counts) = BatchWriter::new(rt.alloc(), log, 0)?;
///     let (mut lines, guard) = non_blocking(rt, rt.alloc(), log)?;
///     let drops = lines.error_counter()?;
///     lines.write_all(b"stopped\n")?;
///     Losses::from(guard.close())
///         .and_dropped(drops.dropped_lines())
///         .and_unwritten(counts.lost())
///         .check()
/// }
/// ```
#[must_use]
pub struct WorkerGuard<R: GuardHost> {
    rt: R,
    shared: Arc<Shared<NoBooks>, Global>,
    counted: Counted,
}

impl<R: GuardHost> WorkerGuard<R> {
    pub(super) fn new(rt: R, shared: Arc<Shared<NoBooks>, Global>) -> WorkerGuard<R> {
        let counted = shared.add_sender(&rt);
        WorkerGuard {
            rt,
            shared,
            counted,
        }
    }

    /// Ends the worker as a drop does, and returns the result. It prints nothing.
    pub fn close(self) -> Closing {
        let WorkerGuard {
            rt,
            shared,
            counted,
        } = self;
        let closing = close(&rt, &*shared, &mut ());
        shared.drop_sender(&rt, counted);
        closing
    }
}

impl<R: GuardHost> Drop for WorkerGuard<R> {
    fn drop(self) {
        let WorkerGuard {
            rt,
            shared,
            counted,
        } = self;
        end(&rt, &*shared, counted, &mut ());
    }
}

impl<R: GuardHost> Debug for WorkerGuard<R> {
    fn fmt<W: fmt::Write>(&self, f: &mut Formatter<W>) -> fmt::Result {
        f.pad("WorkerGuard { .. }")
    }
}

/// What a guard does when it is dropped.
pub(super) fn end<B: Books, R: Wait + Clock + Print>(
    rt: &R,
    shared: &Shared<B>,
    counted: Counted,
    mine: &mut B::Shutdowns,
)
    requires { B.may_shut mine.old }
{
    if let Closing::Full = close(rt, shared, mine) {
        let _ = rt.println("Failed to send shutdown signal to logging worker. Error: Shutdown");
    }
    shared.drop_sender(rt, counted);
}

fn close<B: Books, R: Wait + Clock>(rt: &R, shared: &Shared<B>, mine: &mut B::Shutdowns) -> Closing
    requires { B.may_shut mine.old }
{
    match send_shutdown(rt, shared, mine) {
        Shut::Closed => Closing::Ended,
        Shut::Full => Closing::Full,
        Shut::Sent | Shut::Already => wait_for_end(rt, shared),
    }
}

// Sends the shutdown, for which it waits for room.
fn send_shutdown<B: Books, R: Wait + Clock>(
    rt: &R,
    shared: &Shared<B>,
    mine: &mut B::Shutdowns,
) -> Shut
    requires { B.may_shut mine.old }
{
    let mut state = shared.lock(rt, &mut Backoff::NEW);
    let waits = state.begins_waiting();
    if waits.is_some() {
        let time = Duration::from_millis(SHUTDOWN_MILLIS);
        state = shared
            .room
            .wait_timeout_while(rt, state, time, |state| state.keeps_waiting())
            .0;
    }
    let (reply, wakeups) = state.shut(waits, mine);
    drop(state);
    shared.wake(wakeups);
    reply
}

fn wait_for_end<B: Books, R: Wait + Clock>(rt: &R, shared: &Shared<B>) -> Closing {
    if !shared.ends_within(rt, Duration::from_millis(END_MILLIS)) {
        return Closing::Pending;
    }
    Closing::Done {
        left: shared.lock(rt, &mut Backoff::NEW).left(),
    }
}
