// How a worker and its first sender are made.
ghost use Rattle.std.specs.Prelude.{◌≡◌, ◌+◌, IfOk, Some, None, true};
ghost use Rattle.appender_non_blocking.specs.Account.{AreBlanksOf, new_guard};
ghost use Rattle.appender_non_blocking.specs.SentLines.{new_senders};

use super::account::{Blanks, CountedGuard};
use super::counted::{CountedSender, open_queue, split_shares};
use super::guard::WorkerGuard;
use super::sender::{NonBlocking, SenderState};
use super::shared::Shared;
use super::worker::{Hand, serve};
use appender_channel::books::{Done, FourBooks, NoBooks, Pass};
use appender_runtime::host::Host;
use std::alloc::{AllocError, Global};
use std::io::Write;
use std::marker::Model;
use std::sync::ledger::{Ledger, Share};
use std::sync::{Arc, Wait};
use std::thread::{JoinHandle, Threads};
use std::{io, thread};

/// The greatest number of queued lines, unless a builder sets another.
pub const DEFAULT_BUFFERED_LINES_LIMIT: usize = 128_000;

const DEFAULT_NAME: &str = "tracing-appender";

/// The settings of a worker and its queue. The default is a lossy queue of `DEFAULT_BUFFERED_LINES_LIMIT`
/// lines, and a thread named `tracing-appender`.
///
/// ```
/// use std::io;
/// use std::io::Write;
/// use tracing_appender::non_blocking::{Host, NonBlocking, NonBlockingBuilder, WorkerGuard};
///
/// // While 1,024 lines are queued, a write to the returned sender waits.
/// pub fn start<R: Host, W: Write + Send + Drop + 'static>(
///     rt: R,
///     log: W,
/// ) -> io::Result<(NonBlocking<R>, WorkerGuard<R>)> {
///     NonBlockingBuilder::default()
///         .lossy(false)
///         .buffered_lines_limit(1024)
///         .finish(rt, rt.alloc(), log)
/// }
/// ```
#[derive(Debug, Drop)]
pub struct NonBlockingBuilder {
    pub(super) limit: usize,
    pub(super) lossy: bool,
    pub(super) name: Option<String>,
}

impl Model for NonBlockingBuilder {
    ghost use Rattle.std.specs.Prelude.{string_bytes};
    ghost use Rattle.std.specs.Option.{option_map};
    ghost use Rattle.appender_non_blocking.specs.Mode.{QueueSettings};

    ghost Value = { QueueSettings };

    ghost view = { λ b. record { limit = b.limit; lossy = b.lossy; name = option_map string_bytes b.name } };
}

impl Default for NonBlockingBuilder {
    fn default() -> NonBlockingBuilder
        ensures limit { result.limit ≡ 128000 }
        ensures lossy { result.lossy ≡ true }
        ensures name { result.name ≡ None }
    {
        NonBlockingBuilder {
            limit: DEFAULT_BUFFERED_LINES_LIMIT,
            lossy: true,
            name: None,
        }
    }
}

impl NonBlockingBuilder {
    /// Sets how many lines may be queued. With 0, a line is accepted only while the worker waits. From 64 on, the worker has one
    /// line for each 32 of these beside them, and 16 at most.
    #[must_use]
    pub fn buffered_lines_limit(mut self, limit: usize) -> NonBlockingBuilder
        ensures { result ≡ record self { limit = limit } }
    {
        self.limit = limit;
        self
    }

    /// Sets whether a line that finds no room is dropped. If not, its sender waits for room.
    #[must_use]
    pub fn lossy(mut self, lossy: bool) -> NonBlockingBuilder
        ensures { result ≡ record self { lossy = lossy } }
    {
        self.lossy = lossy;
        self
    }

    /// Sets the name of the worker's thread. `AllocError` if there is no memory for its copy.
    pub fn thread_name(
        mut self,
        alloc: Global,
        name: &str,
    ) -> Result<NonBlockingBuilder, AllocError>
        ensures limit { IfOk result (λ builder. builder.limit ≡ self.limit) }
        ensures lossy { IfOk result (λ builder. builder.lossy ≡ self.lossy) }
        ensures name { IfOk result (λ builder. builder.name ≡ Some name.now) }
    {
        self.name = Some(String::from_str(alloc, name)?);
        Ok(self)
    }

    /// Starts the worker, and makes its first sender and its guard. The error is `OutOfMemory`, or that of
    /// the thread, which is `WouldBlock` if the C library found no memory for it. Then no thread is left, and
    /// the writer is dropped.
    pub fn finish<W: Write + Send + Drop + 'static, R: Host>(
        self,
        rt: R,
        alloc: Global,
        writer: W,
    ) -> io::Result<(NonBlocking<R>, WorkerGuard<R>)>
        ensures { IfOk result (λ made. made.0.lossy ≡ self.lossy) }
    {
        let NonBlockingBuilder { limit, lossy, name } = self;
        let name = name_or_default(alloc, name)?;
        let hand = Hand::new(alloc, limit)?;
        let shared = Shared::new(&rt, alloc, limit, lossy, 0, NoBooks)?;
        let guarded = Arc::try_clone(&shared)?;
        let served = Arc::try_clone(&shared)?;
        // A worker that finds no sender ends. A refusal of memory leaves no thread.
        let local = SenderState::new(alloc, limit, lossy, shared.alone);
        let sender = NonBlocking::first(rt, alloc, shared, local)?;
        start(rt, name, served, writer, hand)?;
        Ok((sender, WorkerGuard::new(rt, guarded)))
    }

    /// Starts the worker, and returns counted senders and their guard. `senders` is the number of senders, and
    /// `blanks` are new ledgers for their account. Errors are those of `finish`.
    ///
    /// Give each thread one of the senders. In the end pass all of them to `settle` of the guard: it waits for the
    /// worker's end, and returns the account of their lines. Each sender has a place of its own in the queue, for which
    /// the queue keeps the sender's last ticket. `run_counted` does all of this for a list of works.
    pub fn finish_counted<
        A: Ledger + Send + Sync + 'static,
        H: Ledger + Send + Sync + 'static,
        S: Ledger + Send + Sync + 'static,
        C: Ledger + Send + Sync + 'static,
        W: Write + Send + Drop + 'static,
        R: Host,
    >(
        self,
        rt: R,
        alloc: Global,
        writer: W,
        senders: usize,
        blanks: Blanks,
    ) -> io::Result<
        (
            Vec<CountedSender<A, H, S, C, R>>,
            CountedGuard<A, H, S, C, R>,
        ),
    >
        requires { AreBlanksOf A.Ledger H.Ledger S.Ledger C.Ledger senders blanks }
        ensures senders { IfOk result (λ made. made.0.items ≡ new_senders self.lossy senders) }
        ensures guard { IfOk result (λ made. made.1 ≡ new_guard senders) }
    {
        let NonBlockingBuilder { limit, lossy, name } = self;
        let name = name_or_default(alloc, name)?;
        let hand = Hand::new(alloc, limit)?;
        // A refusal of memory leaves no thread, since the senders are made before it.
        let opened = open_counted(rt, alloc, (limit, lossy), senders, blanks)?;
        start_opened(rt, name, writer, hand, opened, senders)
    }
}

// A queue of counted senders whose worker has not started: what its senders and its worker share, the senders, what they leave of the
// share of accepted lines, and the shares of the guard and of the worker.
#[derive(Drop)]
struct OpenedCounted<A: Ledger, H: Ledger, S: Ledger, C: Ledger, R: Wait + Drop> {
    shared: Arc<Shared<FourBooks<A, H, S, C>>, Global>,
    made: Vec<CountedSender<A, H, S, C, R>>,
    part: Share<A>,
    shutdowns: Share<S>,
    pass: Pass<H, C>,
    ghost none_queued: { (part.parts ≡ 1) × (part.amount ≡ 0) },
    ghost none_sent: { (shutdowns.parts ≡ 1) × (shutdowns.amount ≡ 0) },
    ghost none_taken: { (pass.handed.parts ≡ 1) × (pass.closings.parts ≡ 1) × (pass.closings.amount ≡ 0) },
}

// Opens the books of counted senders, and makes their queue.
fn open_counted<A: Ledger, H: Ledger, S: Ledger, C: Ledger, R: Threads + Wait + Drop + Copy>(
    rt: R,
    alloc: Global,
    settings: (usize, bool),
    senders: usize,
    blanks: Blanks,
) -> Result<OpenedCounted<A, H, S, C, R>, AllocError>
    requires { AreBlanksOf A.Ledger H.Ledger S.Ledger C.Ledger senders blanks }
    ensures { IfOk result (λ opened. opened.made.items ≡ new_senders settings.1 senders) }
{
    let Blanks {
        accepted,
        handed,
        shutdowns,
        closings,
    } = blanks;
    let (accepted, share) = accepted.open::<A>();
    let (handed, lines) = handed.open::<H>();
    let (shutdowns, shut) = shutdowns.open::<S>();
    let (closings, closed) = closings.open::<C>();
    let books = FourBooks {
        accepted,
        handed,
        shutdowns,
        closings,
    };
    let pass = Pass {
        handed: lines,
        closings: closed,
    };
    let (shares, part) = split_shares(alloc, share, senders)?;
    let (shared, made) = open_queue(rt, alloc, settings, senders, books, shares)?;
    Ok(OpenedCounted {
        shared,
        made,
        part,
        shutdowns: shut,
        pass,
    })
}

// Starts the worker of a queue, and makes its guard.
fn start_opened<
    A: Ledger + Send + Sync + 'static,
    H: Ledger + Send + Sync + 'static,
    S: Ledger + Send + Sync + 'static,
    C: Ledger + Send + Sync + 'static,
    W: Write + Send + Drop + 'static,
    R: Host,
>(
    rt: R,
    name: String,
    writer: W,
    hand: Hand,
    opened: OpenedCounted<A, H, S, C, R>,
    senders: usize,
) -> io::Result<
    (
        Vec<CountedSender<A, H, S, C, R>>,
        CountedGuard<A, H, S, C, R>,
    ),
>
    requires { (H.parts ≡ 1) × (C.parts ≡ 1) }
    ensures senders { IfOk result (λ made. made.0.items ≡ opened.made.items) }
    ensures guard { IfOk result (λ made. made.1 ≡ new_guard senders) }
{
    let served = Arc::try_clone(&opened.shared)?;
    let OpenedCounted {
        shared,
        made,
        part,
        shutdowns,
        pass,
    } = opened;
    // The guard is a sender that offers no lines and has no place. A worker that finds no sender ends.
    let counted = shared.add_sender(&rt);
    match start_counted(rt, name, served, writer, hand, pass) {
        Ok(worker) => {
            let guard = CountedGuard {
                rt,
                shared,
                counted,
                part,
                shutdowns,
                made: senders,
                sent: false,
                worker,
            };
            Ok((made, guard))
        }
        Err(fault) => {
            shared.drop_sender(&rt, counted);
            Err(fault)
        }
    }
}

// Starts the worker's thread.
fn start<W: Write + Send + Drop + 'static, R: Threads + Wait + Eprint + Copy + Send + 'static>(
    rt: R,
    name: String,
    shared: Arc<Shared<NoBooks>, Global>,
    writer: W,
    hand: Hand,
) -> io::Result<()> {
    let mut writer = writer;
    let _worker = thread::Builder::new()
        .name(name)
        .spawn(&rt, move || serve(&rt, &*shared, &mut writer, hand, ()))?;
    Ok(())
}

// Starts the worker's thread, which hands back its shares in the end.
fn start_counted<
    A: Ledger + Send + Sync + 'static,
    H: Ledger + Send + Sync + 'static,
    S: Ledger + Send + Sync + 'static,
    C: Ledger + Send + Sync + 'static,
    W: Write + Send + Drop + 'static,
    R: Threads + Wait + Eprint + Copy + Send + 'static,
>(
    rt: R,
    name: String,
    shared: Arc<Shared<FourBooks<A, H, S, C>>, Global>,
    writer: W,
    hand: Hand,
    pass: Pass<H, C>,
) -> io::Result<JoinHandle<Done<H, C>>>
    requires { (pass.handed.parts ≡ 1) × (H.parts ≡ 1) × (pass.closings.parts ≡ 1) × (C.parts ≡ 1)
        × (pass.closings.amount ≡ 0) }
{
    let mut writer = writer;
    let job = move || -> Done<H, C>
        requires { (pass.handed.parts ≡ 1) × (H.parts ≡ 1) × (pass.closings.parts ≡ 1) × (C.parts ≡ 1)
            × (pass.closings.amount ≡ 0) }
    {
        let (done, _) = serve(&rt, &*shared, &mut writer, hand, pass);
        done
    };
    thread::Builder::new().name(name).spawn(&rt, job)
}

// The name of a worker's thread.
pub(super) fn name_or_default(alloc: Global, name: Option<String>) -> Result<String, AllocError> {
    match name {
        Some(name) => Ok(name),
        None => DEFAULT_NAME.to_string(alloc),
    }
}

/// Starts a worker with a lossy queue of `DEFAULT_BUFFERED_LINES_LIMIT` lines for a writer. Errors are those
/// of `NonBlockingBuilder::finish`.
///
/// Each write is a line. `writeln!` makes several, and other threads may queue lines between them. `let (lines, _)` drops the guard at
/// once, which ends the worker.
///
/// ```
/// use std::io;
/// use std::io::Write;
/// use tracing_appender::non_blocking::{Closing, Host, non_blocking};
///
/// pub fn log_start<R: Host, W: Write + Send + Drop + 'static>(rt: R, log: W) -> io::Result<Closing> {
///     // Not `_`, which would end the worker here.
///     let (mut lines, guard) = non_blocking(rt, rt.alloc(), log)?;
///     // Queues a copy of the line, which the worker thread writes to `log`. Not `writeln!`, which would queue it in pieces.
///     lines.write_all(b"started\n")?;
///     // Waits for the end of the worker: `Closing::Done { left: 0 }`.
///     Ok(guard.close())
/// }
/// ```
pub fn non_blocking<W: Write + Send + Drop + 'static, R: Host>(
    rt: R,
    alloc: Global,
    writer: W,
) -> io::Result<(NonBlocking<R>, WorkerGuard<R>)>
    ensures { IfOk result (λ made. made.0.lossy ≡ true) }
{
    NonBlockingBuilder::default().finish(rt, alloc, writer)
}

impl<R: Host> NonBlocking<R> {
    /// Does what the function `non_blocking` does.
    pub fn new<W: Write + Send + Drop + 'static>(
        rt: R,
        alloc: Global,
        writer: W,
    ) -> io::Result<(NonBlocking<R>, WorkerGuard<R>)>
        ensures { IfOk result (λ made. made.0.lossy ≡ true) }
    {
        non_blocking(rt, alloc, writer)
    }
}
