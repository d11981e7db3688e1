// A queue whose lines are known: its senders, its worker, and what the worker wrote.
ghost use Rattle.std.specs.Prelude.{◌≡◌, ◌+◌, ◌<◌, ◌≤◌, ◌-◌, ◌^◌, [], ℕ, List, Option, None, IfOk, IfSome, IsSome, length, map, min, slice_index, vec_len};
ghost use Rattle.std.specs.Vec.{vec_capacity};
ghost use Rattle.line_history.specs.Interleaving.{IsInterleaving};
ghost use Rattle.line_history.specs.Lines.{AllFrom};
ghost use Rattle.appender_non_blocking.specs.Account.{IsBlankOf, IsAccount, new_guard, total_queued, total_dropped};
ghost use Rattle.appender_non_blocking.specs.SentLines.{SentLines, new_senders};
ghost use Rattle.appender_worker.specs.Served.{ServesLines};

use super::account::Account;
use super::builder::{NonBlockingBuilder, name_or_default};
use super::counted::{BookSender, open_queue};
use super::shared::Shared;
use super::worker::{Hand, serve};
use appender_channel::books::{LineBooks, LineDone, LinePass};
use appender_runtime::host::Host;
use line_history::Blank;
use line_history::halves::{QueueHalves, QueueHistories, SenderHistory, TakerHistory};
use std::alloc::{AllocError, Global};
use std::io::Write;
use std::marker::{Brand, Model};
use std::sync::ledger::{Ledger, Share};
use std::sync::{Arc, Wait, ledger};
use std::thread::{JoinHandle, Threads};
use std::time::{Clock, Duration};
use std::{io, thread};

/// The writer to which a worker wrote all lines of its queue.
#[derive(Debug, Drop)]
pub struct Written<W: Drop> {
    /// The writer, after its last flush.
    pub writer: W,
    /// The number of lines that it did not take whole, at most `u64::MAX`.
    pub given_up: u64,
}

/// Names the histories of a run, and the contents that its writer had before it.
pub(super) trait RunNames: QueueHistories {
    ghost first: { Option (List ℕ) };
}

impl RunNames for Brand {
    ghost first = { None };
}

/// What the books of a run are opened with: the ledgers of shutdowns and of closings, and a history for each sender and for the worker.
#[derive(Drop)]
pub(super) struct RunBlanks {
    pub(super) shutdowns: ledger::Blank,
    pub(super) closings: ledger::Blank,
    pub(super) histories: Vec<Blank>,
}

impl RunBlanks {
    /// Returns new ones. `AllocError` if memory ran out.
    pub(super) fn new(alloc: Global, senders: usize) -> Result<RunBlanks, AllocError>
        ensures ledgers { IfOk result (λ blanks. (blanks.shutdowns.parts ≡ 1) × (blanks.closings.parts ≡ 1)) }
        ensures histories { IfOk result (λ blanks. vec_len blanks.histories ≡ senders + 1) }
    {
        let mut histories = Vec::with_capacity(alloc, senders)?;
        for _ in 0..senders {
            histories.push_reserved(Blank::new());
        }
        histories.push(Blank::new())?;
        Ok(RunBlanks {
            shutdowns: ledger::Blank::new(1),
            closings: ledger::Blank::new(1),
            histories,
        })
    }
}

// What the worker's thread returns.
#[derive(Drop)]
struct Ended<C: Ledger, L: RunNames, W: Write + Drop> {
    done: LineDone<C, L>,
    writer: W,
    given_up: u64,
}

impl<C: Ledger, L: RunNames, W: Write + Drop> Model for Ended<C, L, W> {
    ghost use Rattle.std.specs.Prelude.{ℕ};
    ghost use Rattle.appender_worker.specs.Served.{ServesLines};

    ghost Value = { ℕ };

    ghost view = { λ e. e.given_up };

    // It wrote the lines of its history, after what the writer contained before the run.
    ghost invariant = { λ e. ServesLines L.first (W.contents e.writer) e.done.taker e.given_up };
}

// A queue whose worker has not started: what its senders and its worker share, its senders, the shares of the guard and of the worker, and
// memory for what the senders return.
#[derive(Drop)]
struct OpenedLines<S: Ledger, C: Ledger, L: RunNames, R: Wait + Drop> {
    shared: Arc<Shared<LineBooks<S, C, L>>, Global>,
    made: Vec<BookSender<LineBooks<S, C, L>, R>>,
    shutdowns: Share<S>,
    pass: LinePass<C, L>,
    histories: Vec<SenderHistory<L>>,
    ghost none_sent: { (shutdowns.parts ≡ 1) × (shutdowns.amount ≡ 0) },
    ghost none_taken: { (pass.closings.parts ≡ 1) × (pass.closings.amount ≡ 0) × (pass.taker ≡ []) },
    ghost empty: { histories.items ≡ [] },
    ghost room: { L.senders ≤ vec_capacity histories },
}

// Opens the books of a run, and makes its queue.
fn open_lines<S: Ledger, C: Ledger, L: RunNames, R: Threads + Wait + Drop + Copy>(
    rt: R,
    alloc: Global,
    settings: (usize, bool),
    blanks: RunBlanks,
) -> Result<OpenedLines<S, C, L, R>, AllocError>
    requires ledgers { IsBlankOf S.Ledger 1 blanks.shutdowns × IsBlankOf C.Ledger 1 blanks.closings }
    requires names { (i : ℕ) → i < vec_len blanks.histories → slice_index (map (λ b. b.name) blanks.histories.items) i ≡ L.name i }
    requires count { vec_len blanks.histories ≡ L.senders + 1 }
    ensures { IfOk result (λ opened. opened.made.items ≡ new_senders settings.1 L.senders) }
{
    let RunBlanks {
        shutdowns,
        closings,
        histories,
    } = blanks;
    let (halves, shares, taker, histories) = open_halves::<L>(alloc, histories)?;
    let places = shares.len();
    let (shutdowns, share) = shutdowns.open::<S>();
    let (book, closings) = closings.open::<C>();
    let books = LineBooks {
        shutdowns,
        closings: book,
        halves,
    };
    let (shared, made) = open_queue(rt, alloc, settings, places, books, shares)?;
    Ok(OpenedLines {
        shared,
        made,
        shutdowns: share,
        pass: LinePass { taker, closings },
        histories,
    })
}

// Opens the histories of a run, in words of its books. Returns memory for what its senders return last.
fn open_halves<L: QueueHistories>(
    alloc: Global,
    histories: Vec<Blank>,
) -> Result<
    (
        QueueHalves<L>,
        Vec<SenderHistory<L>>,
        TakerHistory<L>,
        Vec<SenderHistory<L>>,
    ),
    AllocError,
>
    requires names { (i : ℕ) → i < vec_len histories → slice_index (map (λ b. b.name) histories.items) i ≡ L.name i }
    requires count { vec_len histories ≡ L.senders + 1 }
    ensures sent { IfOk result (λ made. IsInterleaving made.0.sent []) }
    ensures taken { IfOk result (λ made. made.0.taken ≡ []) }
    ensures count { IfOk result (λ made. vec_len made.1 ≡ L.senders) }
    ensures senders { IfOk result (λ made. AllFrom (λ s place. (s.place ≡ place) × (s.lines ≡ []) × (0 < 2 ^ 64)) 0 made.1.items) }
    ensures taker { IfOk result (λ made. made.2 ≡ []) }
    ensures empty { IfOk result (λ made. made.3.items ≡ []) }
    ensures room { IfOk result (λ made. L.senders ≤ vec_capacity made.3) }
{
    let (halves, shares, taker) = QueueHalves::<L>::open(alloc, histories)?;
    let histories = Vec::with_capacity(alloc, shares.len())?;
    Ok((halves, shares, taker, histories))
}

/// A queue whose worker has started.
#[derive(Drop)]
pub(super) struct Run<S: Ledger, C: Ledger, L: RunNames, W: Write + Drop> {
    shared: Arc<Shared<LineBooks<S, C, L>>, Global>,
    worker: JoinHandle<Ended<C, L, W>>,
    shutdowns: Share<S>,
    // Memory for what the senders return.
    histories: Vec<SenderHistory<L>>,
    ghost none_sent: { (shutdowns.parts ≡ 1) × (shutdowns.amount ≡ 0) },
    ghost empty: { histories.items ≡ [] },
    ghost room: { L.senders ≤ vec_capacity histories },
}

impl<
    S: Ledger + Send + Sync + 'static,
    C: Ledger + Send + Sync + 'static,
    L: RunNames + Send + Sync + 'static,
    W: Write + Send + Drop + 'static,
> Run<S, C, L, W> {
    /// Starts the worker's thread, and makes the senders of its queue. A refusal leaves no thread.
    pub(super) fn start<R: Host>(
        builder: NonBlockingBuilder,
        rt: R,
        alloc: Global,
        writer: W,
        blanks: RunBlanks,
    ) -> io::Result<(Vec<BookSender<LineBooks<S, C, L>, R>>, Run<S, C, L, W>)>
        requires ledgers { IsBlankOf S.Ledger 1 blanks.shutdowns × IsBlankOf C.Ledger 1 blanks.closings }
        requires names { (i : ℕ) → i < vec_len blanks.histories → slice_index (map (λ b. b.name) blanks.histories.items) i ≡ L.name i }
        requires count { vec_len blanks.histories ≡ L.senders + 1 }
        requires first { L.first ≡ W.contents writer }
        ensures { IfOk result (λ made. made.0.items ≡ new_senders builder.lossy L.senders) }
    {
        let NonBlockingBuilder { limit, lossy, name } = builder;
        let name = name_or_default(alloc, name)?;
        let hand = Hand::new(alloc, limit)?;
        let OpenedLines {
            shared,
            made,
            shutdowns,
            pass,
            histories,
        } = open_lines::<S, C, L, R>(rt, alloc, (limit, lossy), blanks)?;
        let served = Arc::try_clone(&shared)?;
        let worker = start_worker(rt, name, served, writer, hand, pass)?;
        let run = Run {
            shared,
            worker,
            shutdowns,
            histories,
        };
        Ok((made, run))
    }

    /// Ends all senders, and waits for the worker's end. Returns the writer and the account of the lines; nothing if that takes
    /// longer than `most`.
    pub(super) fn end<R: Threads + Wait + Clock + Drop>(
        self,
        rt: &R,
        senders: Vec<BookSender<LineBooks<S, C, L>, R>>,
        most: Option<Duration>,
    ) -> Option<(Written<W>, Account)>
        requires { (vec_len senders ≡ L.senders) × (S.parts ≡ 1) × (C.parts ≡ 1) }
        ensures wrote { IfSome result (λ ended. (taken : List (List ℕ)) × IsInterleaving (map (λ s. s.lines) senders.items) taken
            × (ended.1.handed ≡ length taken) × ServesLines L.first (W.contents ended.0.writer) taken ended.0.given_up) }
        ensures account { IfSome result (λ ended. IsAccount ended.1.accepted ended.1.handed ended.1.left ended.1.dropped
            (new_guard (vec_len senders)) senders.items) }
        ensures always { most ≡ None → IsSome result }
    {
        let Run {
            shared,
            worker,
            shutdowns,
            histories,
        } = self;
        let (histories, dropped) = end_all(senders, histories);
        if let Some(most) = most
            && !shared.ends_within(rt, most)
        {
            return None;
        }
        Some(account_for(rt, &*shared, worker, histories, shutdowns, dropped))
    }
}

// Waits for the worker's end. Returns the writer, and the account of the senders that left these histories and dropped this many lines.
fn account_for<
    S: Ledger + Send + Sync + 'static,
    C: Ledger + Send + Sync + 'static,
    L: RunNames + Send + Sync + 'static,
    W: Write + Send + Drop + 'static,
    R: Threads + Wait,
>(
    rt: &R,
    shared: &Shared<LineBooks<S, C, L>>,
    worker: JoinHandle<Ended<C, L, W>>,
    histories: Vec<SenderHistory<L>>,
    shutdowns: Share<S>,
    dropped: usize,
) -> (Written<W>, Account)
    requires count { vec_len histories ≡ L.senders }
    requires parts { (shutdowns.parts ≡ S.parts) × (C.parts ≡ 1) × (shutdowns.amount ≡ 0) }
    ensures wrote { (senders : List SentLines) → map (λ h. h.lines) histories.items ≡ map (λ s. s.lines) senders
        → (taken : List (List ℕ)) × IsInterleaving (map (λ s. s.lines) senders) taken
        × (result.1.handed ≡ length taken) × ServesLines L.first (W.contents result.0.writer) taken result.0.given_up }
    ensures accepted { (senders : List SentLines) → map (λ h. h.lines) histories.items ≡ map (λ s. s.lines) senders
        → result.1.accepted ≡ total_queued senders }
    ensures handed { result.1.accepted ≡ result.1.handed + result.1.left }
    ensures left { result.1.left ≡ 0 }
    ensures dropped { result.1.dropped ≡ dropped }
{
    let Ended {
        done,
        writer,
        given_up,
    } = worker.join(rt);
    let counts = shared.final_lines(rt, histories, shutdowns, done);
    let account = Account {
        accepted: counts.accepted,
        handed: counts.handed,
        left: counts.left,
        dropped,
    };
    (Written { writer, given_up }, account)
}

// Ends the senders. Returns their histories, in their order, and how many lines they dropped.
fn end_all<S: Ledger, C: Ledger, L: RunNames, R: Wait + Drop>(
    senders: Vec<BookSender<LineBooks<S, C, L>, R>>,
    histories: Vec<SenderHistory<L>>,
) -> (Vec<SenderHistory<L>>, usize)
    requires empty { histories.items ≡ [] }
    requires room { vec_len senders ≤ vec_capacity histories }
    ensures lines { map (λ h. h.lines) result.0.items ≡ map (λ s. s.lines) senders.items }
    ensures dropped { result.1 ≡ min (total_dropped senders.items) (2 ^ 64 - 1) }
{
    let mut histories = histories;
    let mut dropped = 0usize;
    for sender in senders {
        let (history, count) = sender.end();
        histories.push_reserved(history);
        dropped = dropped.saturating_add(count);
    }
    (histories, dropped)
}

// Starts the worker's thread, which returns its shares and the writer in the end.
fn start_worker<
    S: Ledger + Send + Sync + 'static,
    C: Ledger + Send + Sync + 'static,
    L: RunNames + Send + Sync + 'static,
    W: Write + Send + Drop + 'static,
    R: Threads + Wait + Eprint + Copy + Send + 'static,
>(
    rt: R,
    name: String,
    shared: Arc<Shared<LineBooks<S, C, L>>, Global>,
    writer: W,
    hand: Hand,
    pass: LinePass<C, L>,
) -> io::Result<JoinHandle<Ended<C, L, W>>>
    requires shares { (pass.closings.parts ≡ 1) × (C.parts ≡ 1) × (pass.closings.amount ≡ 0) }
    requires history { pass.taker ≡ [] }
    requires first { L.first ≡ W.contents writer }
{
    let job = move || -> Ended<C, L, W>
        requires { ((pass.closings.parts ≡ 1) × (C.parts ≡ 1) × (pass.closings.amount ≡ 0))
            × (pass.taker ≡ []) × (L.first ≡ W.contents writer) }
    { serve_all(&rt, &*shared, writer, hand, pass) };
    thread::Builder::new().name(name).spawn(&rt, job)
}

// Serves the writer until the worker has ended.
fn serve_all<S: Ledger, C: Ledger, L: RunNames, W: Write + Drop, R: Wait + Eprint>(
    rt: &R,
    shared: &Shared<LineBooks<S, C, L>>,
    writer: W,
    hand: Hand,
    pass: LinePass<C, L>,
) -> Ended<C, L, W>
    requires shares { (pass.closings.parts ≡ 1) × (C.parts ≡ 1) × (pass.closings.amount ≡ 0) }
    requires history { pass.taker ≡ [] }
    requires first { L.first ≡ W.contents writer }
{
    let mut writer = writer;
    let (done, given_up) = serve(rt, shared, &mut writer, hand, pass);
    Ended {
        done,
        writer,
        given_up,
    }
}
