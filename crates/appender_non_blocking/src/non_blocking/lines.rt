// A work in the caller's thread, whose lines a worker writes.
ghost use Rattle.std.specs.Prelude.{◌≡◌, ◌+◌, ◌<◌, ◌∷◌, [], ℕ, Bool, IfErr, IfOk, IsSome, None, map, slice_index, vec_len};
ghost use Rattle.appender_non_blocking.specs.Account.{IsBlankOf};
ghost use Rattle.appender_non_blocking.specs.SentLines.{SentLines, new_senders};
ghost use Rattle.appender_non_blocking.specs.Work.{RunsLines};

use super::builder::NonBlockingBuilder;
use super::counted::BookSender;
use super::run::{Run, RunBlanks, RunNames, Written};
use super::work::{LineSender, Unstarted};
use appender_channel::books::LineBooks;
use appender_runtime::host::Host;
use std::alloc::Global;
use std::io;
use std::io::Write;
use std::marker::Brand;
use std::sync::Wait;
use std::sync::ledger::Ledger;
use std::thread::Threads;
use std::time::{Clock, Duration};

/// What the caller's thread does with a counted sender.
pub trait RecordedWork {
    /// What the work may do: it and what its sender has sent before, and both after.
    ghost does: { Self → SentLines → Self → SentLines → Type 0 };

    /// Sends the lines of this work, and returns the sender.
    fn run<S: LineSender + Drop>(&mut self, sender: S) -> S
        ensures { does self.old (S.sent sender) self.new (S.sent result) };
}

/// A work that was run.
#[derive(Debug, Drop)]
pub struct Ran<K: Drop, W: Drop> {
    /// The work.
    pub work: K,
    /// What became of its lines; nothing if the worker did not end in time.
    pub written: Option<Written<W>>,
}

impl NonBlockingBuilder {
    /// Starts the worker, and runs the work in this thread with the one sender of its queue. Then waits until the worker has
    /// written the lines and flushed the writer, at most for `most` if that is given. So the caller gets the writer back, and
    /// knows which lines it took. Errors are those of `finish`: then the work was not run, and is returned.
    ///
    /// ```
    /// use std::io;
    /// use std::io::Write;
    /// use tracing_appender::non_blocking::{Host, LineSender, NonBlockingBuilder, RecordedWork, Sent};
    ///
    /// #[derive(Drop)]
    /// pub struct Hello {
    ///     queued: bool,
    /// }
    ///
    /// impl RecordedWork for Hello {
    ///     ghost does = { λ _ _ _ _. Unit {0} };
    ///
    ///     fn run<S: LineSender + Drop>(&mut self, mut sender: S) -> S
    ///         ensures { Unit {0} }
    ///     {
    ///         self.queued = matches!(sender.write_line(b"hello\n"), Ok(Sent::Queued(_)));
    ///         sender
    ///     }
    /// }
    ///
    /// // Returns whether the log took the whole line.
    /// pub fn greet<R: Host, W: Write + Send + Drop + 'static>(rt: R, log: W) -> io::Result<bool> {
    ///     let hello = Hello { queued: false };
    ///     let ran = NonBlockingBuilder::default()
    ///         .run_lines(rt, rt.alloc(), log, hello, None)
    ///         .map_err(|unstarted| unstarted.error)?;
    ///     let whole = ran.written.is_some_and(|written| written.given_up == 0);
    ///     Ok(ran.work.queued && whole)
    /// }
    /// ```
    pub fn run_lines<K: RecordedWork + Drop, W: Write + Send + Drop + 'static, R: Host>(
        self,
        rt: R,
        alloc: Global,
        writer: W,
        work: K,
        most: Option<Duration>,
    ) -> Result<Ran<K, W>, Unstarted<K>>
        ensures ran { IfOk result (λ ran. RunsLines K.does W.contents self.lossy work writer ran) }
        ensures always { most ≡ None → IfOk result (λ ran. IsSome ran.written) }
        ensures not_run { IfErr result (λ unstarted. unstarted.work ≡ work) }
    {
        match RunBlanks::new(alloc, 1) {
            Ok(blanks) => {
                run_by::<Brand, Brand, Brand, K, W, R>(self, rt, alloc, writer, work, most, blanks)
            }
            Err(error) => Err(Unstarted {
                work,
                error: io::Error::from(error),
            }),
        }
    }
}

// The same by these books and histories.
fn run_by<
    S: Ledger + Send + Sync + 'static,
    C: Ledger + Send + Sync + 'static,
    L: RunNames + Send + Sync + 'static,
    K: RecordedWork + Drop,
    W: Write + Send + Drop + 'static,
    R: Host,
>(
    builder: NonBlockingBuilder,
    rt: R,
    alloc: Global,
    writer: W,
    work: K,
    most: Option<Duration>,
    blanks: RunBlanks,
) -> Result<Ran<K, W>, Unstarted<K>>
    requires ledgers { IsBlankOf S.Ledger 1 blanks.shutdowns × IsBlankOf C.Ledger 1 blanks.closings }
    requires names { (i : ℕ) → i < vec_len blanks.histories → slice_index (map (λ b. b.name) blanks.histories.items) i ≡ L.name i }
    requires count { (vec_len blanks.histories ≡ L.senders + 1) × (L.senders ≡ 1) }
    requires first { L.first ≡ W.contents writer }
    ensures ran { IfOk result (λ ran. RunsLines K.does W.contents builder.lossy work writer ran) }
    ensures always { most ≡ None → IfOk result (λ ran. IsSome ran.written) }
    ensures not_run { IfErr result (λ unstarted. unstarted.work ≡ work) }
{
    match Run::<S, C, L, W>::start(builder, rt, alloc, writer, blanks) {
        Ok((senders, run)) => Ok(run_started(&rt, senders, run, work, most)),
        Err(error) => Err(Unstarted { work, error }),
    }
}

// Runs the work with the one sender of a run, and ends the run.
fn run_started<
    S: Ledger + Send + Sync + 'static,
    C: Ledger + Send + Sync + 'static,
    L: RunNames + Send + Sync + 'static,
    K: RecordedWork + Drop,
    W: Write + Send + Drop + 'static,
    R: Threads + Wait + Clock + Drop,
>(
    rt: &R,
    senders: Vec<BookSender<LineBooks<S, C, L>, R>>,
    run: Run<S, C, L, W>,
    work: K,
    most: Option<Duration>,
) -> Ran<K, W>
    requires parts { (L.senders ≡ 1) × (S.parts ≡ 1) × (C.parts ≡ 1) }
    requires new { (lossy : Bool) × (senders.items ≡ new_senders lossy L.senders) }
    ensures ran { (lossy : Bool) (writer : W) → senders.items ≡ new_senders lossy L.senders → L.first ≡ W.contents writer
        → RunsLines K.does W.contents lossy work writer result }
    ensures always { most ≡ None → IsSome result.written }
{
    let mut work = work;
    let senders = run_with(senders, &mut work);
    let written = match run.end(rt, senders, most) {
        Some((written, _)) => Some(written),
        None => None,
    };
    Ran { work, written }
}

// Runs the work with the one sender.
fn run_with<T: LineSender + Drop, K: RecordedWork>(senders: Vec<T>, work: &mut K) -> Vec<T>
    requires { vec_len senders ≡ 1 }
    ensures { (sender ended : T) × (senders.items ≡ sender ∷ []) × (result.items ≡ ended ∷ [])
        × K.does work.old (T.sent sender) work.new (T.sent ended) }
{
    let mut senders = senders;
    let Some(sender) = senders.pop() else {
        unreachable!()
    };
    senders.push_reserved(work.run(sender));
    senders
}
