// Works of threads, each with a counted sender of its own, and the account of their lines.
ghost use Rattle.std.specs.Prelude.{◌≡◌, ◌≢◌, ◌+◌, ◌<◌, ◌≤◌, ℕ, Bool, Ok, IfOk, IfErr, [], length, map, reverse, slice_index, vec_len, false};
ghost use Rattle.std.specs.Vec.{vec_capacity};
ghost use Rattle.std.specs.IoError.{error_kind};
ghost use Rattle.appender_non_blocking.specs.Account.{IsBlankOf};
ghost use Rattle.appender_non_blocking.specs.Refusal.{IsRefusal};
ghost use Rattle.appender_non_blocking.specs.SentLines.{SentLines, new_senders, sent_after_line};
ghost use Rattle.appender_non_blocking.specs.Work.{RunsWorks};
ghost use Rattle.appender_non_blocking.specs.Inside.Jobs.{senders_of, works_of, RunsJobs, RunsWorksWith};

use super::account::Account;
use super::builder::NonBlockingBuilder;
use super::counted::BookSender;
use super::run::{Run, RunBlanks, RunNames, Written};
use super::sender::Sent;
use appender_channel::books::{LineBooks, SenderBooks};
use appender_runtime::host::Host;
use std::alloc::Global;
use std::fmt::{Debug, Formatter};
use std::io::Write;
use std::marker::Brand;
use std::sync::Wait;
use std::sync::ledger::Ledger;
use std::thread::Threads;
use std::{fmt, io, thread};

/// A sender that counts, as `CountedSender` does, without the names of its ledgers.
pub trait LineSender {
    /// What it has sent.
    ghost sent: { Self → SentLines };

    /// Queues a copy of the bytes as one line, as `CountedSender::write_line` does, with the same errors. It adds no newline.
    fn write_line(&mut self, line: &[u8]) -> io::Result<Sent>
        ensures sent { sent self.new ≡ sent_after_line (sent self.old) line.now result }
        ensures waiting { (sent self.old).lossy ≡ false → result ≢ Ok Sent.Dropped }
        ensures kind { IfErr result (λ e. IsRefusal (sent self.old).lossy (error_kind e)) };

    /// Returns the number of lines of this sender that were queued.
    fn queued(&self) -> u64
        ensures { result ≡ length (sent self.now).lines };

    /// Returns the number of lines of this sender that were dropped, at most `usize::MAX`.
    fn dropped(&self) -> usize
        ensures { result ≡ (sent self.now).dropped };

    /// Returns the ticket of the last line that this sender queued, or 0 before the first one.
    fn last_ticket(&self) -> u64
        ensures { result ≡ (sent self.now).last_ticket };
}

impl<B: SenderBooks, R: Wait + Drop> LineSender for BookSender<B, R> {
    ghost sent = { λ s. s };

    fn write_line(&mut self, line: &[u8]) -> io::Result<Sent> {
        BookSender::write_line(self, line)
    }

    fn queued(&self) -> u64 {
        BookSender::queued(self)
    }

    fn dropped(&self) -> usize {
        BookSender::dropped(self)
    }

    fn last_ticket(&self) -> u64 {
        BookSender::last_ticket(self)
    }
}

/// What a thread does with a counted sender. Each work has a thread and a sender of its own.
pub trait CountedWork {
    /// What the work may do: it and what its sender has sent before, and both after.
    ghost does: { Self → SentLines → Self → SentLines → Type 0 };

    /// Sends the lines of this work.
    fn run<L: LineSender>(&mut self, sender: &mut L)
        ensures { does self.old (L.sent sender.old) self.new (L.sent sender.new) };
}

/// Works that were run.
#[derive(Drop)]
pub struct RanAll<K: Drop, W: Drop> {
    /// The works, in their order.
    pub works: Vec<K>,
    /// The account of their lines.
    pub account: Account,
    /// What became of these lines.
    pub written: Written<W>,
}

/// Nothing was run.
#[derive(Drop)]
pub struct Unstarted<K: Drop> {
    /// What was to be run, as it was.
    pub work: K,
    /// Why: an error of `NonBlockingBuilder::finish`.
    pub error: io::Error,
}

impl NonBlockingBuilder {
    /// Starts the worker, runs each work once with a counted sender of its own, and waits for all of them and
    /// for the worker's end. Returns the works, the account of all lines, and the writer, which took exactly the lines that were
    /// queued. Each work has a thread; if one can't be made, another thread runs its work. Errors are those of `finish`.
    ///
    /// ```
    /// use std::io;
    /// use std::io::Write;
    /// use tracing_appender::non_blocking::{Account, CountedWork, Host, LineSender, NonBlockingBuilder};
    ///
    /// #[derive(Drop)]
    /// pub struct Hello;
    ///
    /// impl CountedWork for Hello {
    ///     ghost does = { λ _ _ _ _. Unit {0} };
    ///
    ///     fn run<L: LineSender>(&mut self, sender: &mut L)
    ///         ensures { Unit {0} }
    ///     {
    ///         let _ = sender.write_line(b"hello\n").is_ok();
    ///     }
    /// }
    ///
    /// pub fn greet<R: Host, W: Write + Send + Drop + 'static>(rt: R, log: W) -> io::Result<Account> {
    ///     let works = vec![in rt.alloc(); Hello, Hello]?;
    ///     let ran = NonBlockingBuilder::default()
    ///         .run_counted(rt, rt.alloc(), log, works)
    ///         .map_err(|unstarted| unstarted.error)?;
    ///     // Two threads sent a line each: 2 lines were accepted, and 2 were handed to the worker.
    ///     Ok(ran.account)
    /// }
    /// ```
    pub fn run_counted<K: CountedWork + Send + Drop, W: Write + Send + Drop + 'static, R: Host>(
        self,
        rt: R,
        alloc: Global,
        writer: W,
        works: Vec<K>,
    ) -> Result<RanAll<K, W>, Unstarted<Vec<K>>>
        ensures ran { IfOk result (λ ran. RunsWorks K.CountedWork.does W.contents self.lossy works.items writer ran) }
        ensures not_run { IfErr result (λ unstarted. unstarted.work ≡ works) }
    {
        match RunBlanks::new(alloc, works.len()) {
            Ok(blanks) => run_by::<Brand, Brand, Brand, K, W, R>(
                self, rt, alloc, writer, works, blanks,
            ),
            Err(error) => Err(Unstarted {
                work: works,
                error: io::Error::from(error),
            }),
        }
    }
}

// The same by these books and histories.
fn run_by<
    S: Ledger + Send + Sync + 'static,
    C: Ledger + Send + Sync + 'static,
    L: RunNames + Send + Sync + 'static,
    K: CountedWork + Send + Drop,
    W: Write + Send + Drop + 'static,
    R: Host,
>(
    builder: NonBlockingBuilder,
    rt: R,
    alloc: Global,
    writer: W,
    works: Vec<K>,
    blanks: RunBlanks,
) -> Result<RanAll<K, W>, Unstarted<Vec<K>>>
    requires ledgers { IsBlankOf S.Ledger 1 blanks.shutdowns × IsBlankOf C.Ledger 1 blanks.closings }
    requires names { (i : ℕ) → i < vec_len blanks.histories → slice_index (map (λ b. b.name) blanks.histories.items) i ≡ L.name i }
    requires count { (vec_len blanks.histories ≡ L.senders + 1) × (L.senders ≡ vec_len works) }
    requires first { L.first ≡ W.contents writer }
    ensures ran { IfOk result (λ ran. RunsWorks K.CountedWork.does W.contents builder.lossy works.items writer ran) }
    ensures not_run { IfErr result (λ unstarted. unstarted.work ≡ works) }
{
    // All memory is allocated before the worker starts.
    let jobs = match Vec::with_capacity(alloc, works.len()) {
        Ok(jobs) => jobs,
        Err(error) => return Err(Unstarted {
            work: works,
            error: io::Error::from(error),
        }),
    };
    match Run::<S, C, L, W>::start(builder, rt, alloc, writer, blanks) {
        Ok((senders, run)) => Ok(run_started(&rt, senders, run, works, jobs)),
        Err(error) => Err(Unstarted { work: works, error }),
    }
}

// Runs each work with the sender at its place, and ends the run. `jobs` is memory for them.
fn run_started<
    S: Ledger + Send + Sync + 'static,
    C: Ledger + Send + Sync + 'static,
    L: RunNames + Send + Sync + 'static,
    K: CountedWork + Send + Drop,
    W: Write + Send + Drop + 'static,
    R: Host,
>(
    rt: &R,
    senders: Vec<BookSender<LineBooks<S, C, L>, R>>,
    run: Run<S, C, L, W>,
    works: Vec<K>,
    jobs: Vec<Job<BookSender<LineBooks<S, C, L>, R>, K>>,
) -> RanAll<K, W>
    requires parts { (L.senders ≡ vec_len works) × (S.parts ≡ 1) × (C.parts ≡ 1) }
    requires new { (lossy : Bool) × (senders.items ≡ new_senders lossy L.senders) }
    requires room { L.senders ≤ vec_capacity jobs }
    requires empty { jobs.items ≡ [] }
    ensures { (lossy : Bool) (writer : W) → senders.items ≡ new_senders lossy L.senders → L.first ≡ W.contents writer
        → RunsWorks K.CountedWork.does W.contents lossy works.items writer result }
{
    let (senders, works) = run_all(rt, senders, works, jobs);
    match run.end(rt, senders, None) {
        Some((written, account)) => RanAll {
            works,
            account,
            written,
        },
        None => unreachable!(),
    }
}

// A work and the sender of its lines.
#[derive(Drop)]
struct Job<L: Drop, K: Drop> {
    sender: L,
    work: K,
}

// Runs each work with the sender at its place, in a thread of its own if one can be made. `jobs` is memory for them.
fn run_all<L: LineSender + Send + Drop, K: CountedWork + Send + Drop, R: Threads + Sync>(
    rt: &R,
    senders: Vec<L>,
    works: Vec<K>,
    jobs: Vec<Job<L, K>>,
) -> (Vec<L>, Vec<K>)
    requires long { vec_len works ≡ vec_len senders }
    requires room { vec_len senders ≤ vec_capacity jobs }
    requires empty { jobs.items ≡ [] }
    ensures senders { length result.0.items ≡ length senders.items }
    ensures works { length result.1.items ≡ length works.items }
    ensures each { RunsWorksWith K.CountedWork.does L.sent senders.items works.items result.0.items result.1.items }
{
    let (senders, works, jobs) = pair(senders, works, jobs);
    let jobs = run_jobs(rt, jobs);
    part(jobs, senders, works)
}

// Puts each work beside the sender at its place, the last ones first. Returns both emptied.
#[tactic(auto, using(crate::proofs::Jobs::more_senders, crate::proofs::Jobs::more_works))]
fn pair<L: Drop, K: Drop>(
    senders: Vec<L>,
    works: Vec<K>,
    jobs: Vec<Job<L, K>>,
) -> (Vec<L>, Vec<K>, Vec<Job<L, K>>)
    requires long { vec_len works ≡ vec_len senders }
    requires room { vec_len senders ≤ vec_capacity jobs }
    requires empty { jobs.items ≡ [] }
    ensures senders { reverse (senders_of result.2.items) ≡ senders.items }
    ensures works { reverse (works_of result.2.items) ≡ works.items }
    ensures long { vec_len result.2 ≡ vec_len senders }
    ensures no_sender { result.0.items ≡ [] }
    ensures no_work { result.1.items ≡ [] }
    ensures room_for_senders { vec_capacity result.0 ≡ vec_capacity senders }
    ensures room_for_works { vec_capacity result.1 ≡ vec_capacity works }
{
    let (mut senders, mut works, mut jobs) = (senders, works, jobs);
    while let Some(sender) = senders.pop() {
        let Some(work) = works.pop() else {
            unreachable!()
        };
        jobs.push_reserved(Job { sender, work });
    }
    (senders, works, jobs)
}

fn run_jobs<L: LineSender + Send + Drop, K: CountedWork + Send + Drop, R: Threads + Sync>(
    rt: &R,
    jobs: Vec<Job<L, K>>,
) -> Vec<Job<L, K>>
    ensures long { vec_len result ≡ vec_len jobs }
    ensures each { RunsJobs K.CountedWork.does L.sent jobs.items result.items }
{
    let mut jobs = jobs;
    run_each(rt, jobs.as_mut_slice());
    jobs
}

fn run_each<L: LineSender + Send + Drop, K: CountedWork + Send + Drop, R: Threads + Sync>(
    rt: &R,
    jobs: &mut [Job<L, K>],
)
    ensures long { length jobs.new ≡ length jobs.old }
    ensures each { RunsJobs K.CountedWork.does L.sent jobs.old jobs.new }
{
    let threads = jobs.len().max(1);
    thread::for_each_mut(
        rt,
        jobs,
        threads,
        &|_place, job: &mut Job<L, K>| { job.work.run(&mut job.sender) },
    );
}

// Takes them apart again, which restores the order. The senders and works are put into these two, which are empty.
#[tactic(auto, using(crate::proofs::Jobs::more_senders, crate::proofs::Jobs::more_works))]
fn part<L: Drop, K: Drop>(jobs: Vec<Job<L, K>>, senders: Vec<L>, works: Vec<K>) -> (Vec<L>, Vec<K>)
    requires room_for_senders { vec_len jobs ≤ vec_capacity senders }
    requires room_for_works { vec_len jobs ≤ vec_capacity works }
    requires no_sender { senders.items ≡ [] }
    requires no_work { works.items ≡ [] }
    ensures senders { result.0.items ≡ reverse (senders_of jobs.items) }
    ensures works { result.1.items ≡ reverse (works_of jobs.items) }
{
    let (mut jobs, mut senders, mut works) = (jobs, senders, works);
    while let Some(job) = jobs.pop() {
        let Job { sender, work } = job;
        senders.push_reserved(sender);
        works.push_reserved(work);
    }
    (senders, works)
}

impl<K: Drop> From<Unstarted<K>> for io::Error {
    /// Returns the error. The work is dropped.
    fn from(unstarted: Unstarted<K>) -> io::Error
        ensures { result ≡ unstarted.error }
    {
        let Unstarted { work: _, error } = unstarted;
        error
    }
}

impl<K: Drop, W: Drop> Debug for RanAll<K, W> {
    fn fmt<F: fmt::Write>(&self, f: &mut Formatter<F>) -> fmt::Result {
        f.pad("RanAll { .. }")
    }
}

impl<K: Drop> Debug for Unstarted<K> {
    fn fmt<W: fmt::Write>(&self, f: &mut Formatter<W>) -> fmt::Result {
        f.pad("Unstarted { .. }")
    }
}
