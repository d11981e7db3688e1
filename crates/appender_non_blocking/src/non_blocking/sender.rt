// Senders, and the count of lines that they could not queue.
ghost use Rattle.std.specs.Prelude.{
  ◌≡◌,
  ◌≢◌,
  ℕ,
  length,
  Some,
  None,
  IfOk,
  IfErr,
  IfSome,
  OnOk,
  IsErr,
  IsOk,
  IsSome,
  true,
  false,
};
ghost use Rattle.std.specs.IoError.{error_kind};
ghost use Rattle.std.specs.Io.KnownBytes.{Appends};
ghost use Rattle.appender_non_blocking.specs.Refusal.{IsRefusal};

use super::shared::Shared;
use appender_channel::books::{Books, NoBooks};
use appender_channel::pace::{FullBackoff, LOOKS, MOST_BYTES};
use appender_channel::state::{Counted, State};
use appender_queue::queue::Refused;
use appender_runtime::backoff::Backoff;
use appender_runtime::make_writer::MakeWriter;
use std::alloc::{AllocError, Global};
use std::fmt::{Debug, Formatter};
use std::io::{ErrorKind, Write};
use std::marker::Model;
use std::sync::atomic::Ordering::SeqCst;
use std::sync::{Arc, MutexGuard, Wait};
use std::time::{Clock, Duration};
use std::{fmt, io, mem, thread};

/// What became of a line.
#[derive(Clone, Copy, PartialEq, Eq, Debug)]
pub enum Sent {
    /// It is queued, and has this ticket: 1 for the first line of all senders, then 2, ..
    Queued(u64),
    /// The queue is lossy and was full or closed: the line was dropped.
    Dropped,
}

/// The state of one sender, which no other thread uses.
#[derive(Drop)]
pub(super) struct SenderState {
    /// Whether a line that finds no room is dropped.
    pub(super) lossy: bool,
    /// The buffer for the next line.
    pub(super) spare: Vec<u8>,
    // Whether it has queued a line. From then on it keeps a buffer, which a clone for one line has no use for.
    has_sent: bool,
    backoff: Backoff,
    full_backoff: FullBackoff,
}

/// Offers lines to a queue, which a worker empties. Each `write` is one line. `flush` does nothing: the worker flushes its
/// writer whenever it finds the queue empty. `flush_queued` waits for that. Once all clones and the guard are dropped, the worker
/// writes the lines that are still in the queue, and ends.
pub struct NonBlocking<R: Wait + Drop> {
    rt: R,
    alloc: Global,
    shared_sender: Arc<SharedSender, Global>,
    local: SenderState,
}

// What all clones of a writer share. The queue counts them as one sender, so that making and dropping a
// clone takes no lock. It can't be dropped: the last clone takes it out of the `Arc`, and ends it.
struct SharedSender {
    shared: Arc<Shared<NoBooks>, Global>,
    counted: Counted,
}

impl SharedSender {
    // Joins the queue.
    fn new(rt: &impl Wait, shared: Arc<Shared<NoBooks>, Global>) -> SharedSender {
        let counted = shared.add_sender(rt);
        SharedSender { shared, counted }
    }

    // Leaves the queue.
    fn end(self, rt: &impl Wait) {
        let SharedSender { shared, counted } = self;
        shared.drop_sender(rt, counted);
    }
}

impl<R: Wait + Drop> Model for NonBlocking<R> {
    ghost use Rattle.appender_non_blocking.specs.Mode.{Mode};

    ghost Value = { Mode };

    ghost view = { λ s. record { lossy = s.local.lossy } };
}

impl SenderState {
    /// Returns the state of the first sender of a queue with this limit of lines: no buffer, and the initial back-offs.
    pub(super) fn new(alloc: Global, limit: usize, lossy: bool, alone: bool) -> SenderState
        ensures { result.lossy ≡ lossy }
    {
        SenderState {
            lossy,
            spare: Vec::new(alloc),
            has_sent: false,
            backoff: Backoff::new(alone),
            full_backoff: FullBackoff::new(limit),
        }
    }

    /// Returns the state of one more sender of the same queue. It begins with the back-offs of this one.
    pub(super) fn another(&self, alloc: Global) -> SenderState
        ensures { result.lossy ≡ self.now.lossy }
    {
        SenderState {
            lossy: self.lossy,
            spare: Vec::new(alloc),
            has_sent: false,
            backoff: self.backoff,
            full_backoff: self.full_backoff,
        }
    }
}

impl<R: Wait + Drop> NonBlocking<R> {
    /// Returns the first writer of a queue, which all others are clones of.
    pub(super) fn first(
        rt: R,
        alloc: Global,
        shared: Arc<Shared<NoBooks>, Global>,
        local: SenderState,
    ) -> Result<NonBlocking<R>, AllocError>
        ensures { IfOk result (λ made. made.lossy ≡ local.lossy) }
    {
        match Arc::new(alloc, SharedSender::new(&rt, shared)) {
            Ok(shared_sender) => Ok(NonBlocking {
                rt,
                alloc,
                shared_sender,
                local,
            }),
            Err(refused) => {
                refused.value.end(&rt);
                Err(AllocError)
            }
        }
    }

    /// Returns the count of dropped lines. `AllocError` only if the runtime can't count one more owner of the
    /// queue.
    pub fn error_counter(&self) -> Result<ErrorCounter, AllocError>
        ensures { IfOk result (λ counter. counter.lossy ≡ self.now.lossy) }
    {
        Ok(ErrorCounter {
            shared: Arc::try_clone(&self.shared_sender.shared)?,
            lossy: self.local.lossy,
        })
    }

    /// Waits until the worker has written each line that the queue accepted before this call, of all senders, and has flushed its
    /// writer after that. A line that the writer does not take counts as written, as it does for the worker. The error is that of the
    /// first flush that failed since the last one that was waited for, or `TimedOut` if all that takes longer than `timeout`. It is
    /// `Other` if the worker ended before, which it does with lines in the queue after a shutdown.
    pub fn flush_queued(&self, timeout: Duration) -> io::Result<()>
    where
        R: Clock,
    {
        let shared = &*self.shared_sender.shared;
        let (number, ticket) = shared.ask_flush(&self.rt);
        shared.flushes.wait(&self.rt, number, ticket, timeout)
    }

    // Copies a line, and sends the copy. Only the kind of an error is returned: an `io::Error` is large, and
    // every line passes here.
    #[inline(always)]
    fn send_copy(&mut self, buf: &[u8]) -> Result<(), ErrorKind>
        ensures kind { IfErr result (λ kind. IsRefusal self.old.lossy kind) }
        ensures same { self.new ≡ self.old }
    {
        let NonBlocking {
            rt,
            alloc,
            shared_sender,
            local,
        } = self;
        let shared = &*shared_sender.shared;
        if !local.has_sent
            && local.spare.capacity() == 0
            && buf.len() <= MOST_BYTES
            && let Some(sent) = send_first(rt, *alloc, shared, local, buf)
        {
            return sent;
        }
        let line = copy_of(*alloc, &mut local.spare, buf)?;
        match send(rt, shared, local, line, &mut ()) {
            Some(_) => Ok(()),
            None => Err(ErrorKind::Other),
        }
    }
}

// Sends the first line of a sender, whose copy is made under the lock in the buffer of a written line, so that a clone for
// one line allocates nothing. A lossy queue that is full drops the line without a copy. Returns `None`, and has offered
// nothing, if the line has to wait or no buffer with room for it is kept: nothing is allocated or freed under the lock.
#[inline(always)]
fn send_first<R: Wait>(
    rt: &R,
    alloc: Global,
    shared: &Shared<NoBooks>,
    local: &mut SenderState,
    buf: &[u8],
) -> Option<Result<(), ErrorKind>>
    ensures kind { IfSome result (λ sent. IfErr sent (λ kind. IsRefusal local.old.lossy kind)) }
    ensures same { local.new.lossy ≡ local.old.lossy }
{
    let mut state = shared.lock_once(rt);
    let line = if !state.is_full() {
        local.spare = state.take_spare()?;
        if local.spare.capacity() < buf.len() {
            return None;
        }
        copy_of(alloc, &mut local.spare, buf).ok()?
    } else if local.lossy {
        Vec::new(alloc)
    } else {
        return None;
    };
    match offer(rt, shared, local, state, line, &mut ()) {
        Some(_) => Some(Ok(())),
        None => Some(Err(ErrorKind::Other)),
    }
}

impl<R: Wait + Drop> Write for NonBlocking<R> {
    /// Queues a copy of the bytes as one line, also an empty one, and returns their number. If the queue is full
    /// or closed, a lossy one drops the line and returns the same. Otherwise the call waits for room, and a
    /// closed queue is an error of the kind `Other`. `OutOfMemory` if there is no memory for the copy: then
    /// nothing is queued or counted.
    #[inline]
    fn write(&mut self, buf: &[u8]) -> io::Result<usize>
        ensures whole { IfOk result (λ n. n ≡ length buf.now) }
        ensures kind { IfErr result (λ e. IsRefusal self.old.lossy (error_kind e)) }
        ensures same { self.new ≡ self.old }
    {
        if let Err(kind) = self.send_copy(buf) {
            return fault(kind);
        }
        Ok(buf.len())
    }

    /// Calls `write` once, and for an empty line too. Errors are those of `write`.
    #[inline]
    fn write_all(&mut self, buf: &[u8]) -> io::Result<()>
        ensures bytes { OnOk result (Appends None None buf.now) }
        ensures kind { IfErr result (λ e. IsRefusal self.old.lossy (error_kind e)) }
        ensures same { self.new ≡ self.old }
    {
        self.write(buf)?;
        Ok(())
    }

    fn flush(&mut self) -> io::Result<()>
        ensures { IsOk result }
    {
        Ok(())
    }
}

#[cold]
#[inline(never)]
fn fault(kind: ErrorKind) -> io::Result<usize>
    ensures kind { IfErr result (λ e. error_kind e ≡ kind) }
    ensures err { IsErr result }
{
    Err(io::Error::from(kind))
}

/// Returns a copy of a line, in the spare buffer.
#[inline(always)]
pub(super) fn copy_of(alloc: Global, spare: &mut Vec<u8>, buf: &[u8]) -> Result<Vec<u8>, ErrorKind>
    ensures copy { IfOk result (λ line. line.items ≡ buf.now) }
    ensures kind { IfErr result (λ kind. kind ≡ ErrorKind.OutOfMemory) }
{
    let mut line = mem::replace(spare, Vec::new(alloc));
    line.clear();
    if line.extend_from_slice(buf).is_err() {
        return Err(ErrorKind::OutOfMemory);
    }
    Ok(line)
}

/// Makes one offer under the lock. If a waiting queue is full, offers again until there is room. Returns
/// `None` if a waiting queue is closed.
#[inline(always)]
pub(super) fn send<B: Books, R: Wait>(
    rt: &R,
    shared: &Shared<B>,
    local: &mut SenderState,
    line: Vec<u8>,
    mine: &mut B::Mine,
) -> Option<Sent>
    requires { B.may_accept mine.old }
    ensures queued { (ticket : ℕ) → result ≡ Some (Sent.Queued ticket) → B.counts_line mine.old line.items mine.new }
    ensures dropped { result ≡ Some Sent.Dropped → mine.new ≡ mine.old }
    ensures closed { result ≡ None → mine.new ≡ mine.old }
    ensures waiting { local.old.lossy ≡ false → result ≢ Some Sent.Dropped }
    ensures lossy { local.old.lossy ≡ true → IsSome result }
    ensures same { local.new.lossy ≡ local.old.lossy }
{
    let state = shared.lock(rt, &mut local.backoff);
    offer(rt, shared, local, state, line, mine)
}

// Makes one offer under the lock, and does the rest of `send`.
#[tactic(auto, using(crate::proofs::Refused::same_line))]
#[inline(always)]
fn offer<B: Books, R: Wait>(
    rt: &R,
    shared: &Shared<B>,
    local: &mut SenderState,
    state: MutexGuard<'_, State<B>>,
    line: Vec<u8>,
    mine: &mut B::Mine,
) -> Option<Sent>
    requires { B.may_accept mine.old }
    ensures queued { (ticket : ℕ) → result ≡ Some (Sent.Queued ticket) → B.counts_line mine.old line.items mine.new }
    ensures dropped { result ≡ Some Sent.Dropped → mine.new ≡ mine.old }
    ensures closed { result ≡ None → mine.new ≡ mine.old }
    ensures waiting { local.old.lossy ≡ false → result ≢ Some Sent.Dropped }
    ensures lossy { local.old.lossy ≡ true → IsSome result }
    ensures same { local.new.lossy ≡ local.old.lossy }
{
    let mut state = state;
    let (reply, wakeups) = state.offer(line, None, mine);
    match reply {
        Ok((ticket, pace)) => {
            keep_spare(&mut *state, local);
            drop(state);
            shared.wake(wakeups);
            local.full_backoff.line();
            pace.keep();
            Some(Sent::Queued(ticket))
        }
        Err(refused) if local.lossy => {
            shared.dropped.store(state.dropped(), SeqCst);
            drop(state);
            shared.wake(wakeups);
            recycle(&mut local.spare, refused);
            // Else this sender takes the lock again before the worker has made room.
            thread::yield_now();
            Some(Sent::Dropped)
        }
        Err(Refused::Closed(_)) => {
            drop(state);
            shared.wake(wakeups);
            None
        }
        Err(Refused::Full(line)) => {
            drop(state);
            shared.wake(wakeups);
            send_later(rt, shared, local, line, mine)
        }
    }
}

// Looks for room a number of times, then sleeps until there is some, and offers the line again.
#[cold]
#[inline(never)]
fn send_later<B: Books, R: Wait>(
    rt: &R,
    shared: &Shared<B>,
    local: &mut SenderState,
    line: Vec<u8>,
    mine: &mut B::Mine,
) -> Option<Sent>
    requires { B.may_accept mine.old }
    ensures queued { (ticket : ℕ) → result ≡ Some (Sent.Queued ticket) → B.counts_line mine.old line.items mine.new }
    ensures dropped { result ≡ Some Sent.Dropped → mine.new ≡ mine.old }
    ensures closed { result ≡ None → mine.new ≡ mine.old }
    ensures waiting { result ≢ Some Sent.Dropped }
    ensures same { local.new.lossy ≡ local.old.lossy }
{
    let mut line = line;
    let mut waited = None;
    let mut looks = 1u32;
    local.full_backoff.first(shared.alone);
    let mut state = shared.lock(rt, &mut local.backoff);
    for _ in rt.forever() {
        let (reply, wakeups) = state.offer(line, waited, mine);
        match reply {
            Ok((ticket, _)) => {
                keep_spare(&mut *state, local);
                drop(state);
                shared.wake(wakeups);
                return Some(Sent::Queued(ticket));
            }
            Err(Refused::Closed(_)) => {
                drop(state);
                shared.wake(wakeups);
                return None;
            }
            Err(Refused::Full(back)) => {
                line = back;
                shared.wake(wakeups);
                if looks < LOOKS {
                    drop(state);
                    local.full_backoff.again(shared.alone);
                    looks += 1;
                    state = shared.lock(rt, &mut local.backoff);
                    waited = None;
                    continue;
                }
                waited = state.begins_waiting();
                if waited.is_some() {
                    state = shared.room.wait(rt, state);
                }
            }
        }
    }
    unreachable!()
}

// Takes a buffer for the next line, of a sender whose queued line was not its first.
#[inline(always)]
fn keep_spare<B: Books>(state: &mut State<B>, local: &mut SenderState)
    ensures { local.new.lossy ≡ local.old.lossy }
{
    if local.has_sent
        && let Some(spare) = state.take_spare()
    {
        local.spare = spare;
    }
    local.has_sent = true;
}

// Keeps the buffer of a line that was refused, unless it is large.
fn recycle(spare: &mut Vec<u8>, refused: Refused) {
    let (Refused::Full(line) | Refused::Closed(line)) = refused;
    if line.capacity() <= MOST_BYTES {
        *spare = line;
    }
}

impl<R: Wait + Clone> Clone for NonBlocking<R> {
    ghost is_clone = { λ x y. y.lossy ≡ x.lossy };

    fn clone(&self) -> Result<NonBlocking<R>, AllocError> {
        Ok(NonBlocking {
            rt: self.rt.clone()?,
            alloc: self.alloc,
            shared_sender: Arc::try_clone(&self.shared_sender)?,
            local: self.local.another(self.alloc),
        })
    }
}

impl<'a, R: Wait + Clone> MakeWriter<'a> for NonBlocking<R> {
    type Writer = NonBlocking<R>;

    /// Returns a clone.
    fn make_writer(&'a self) -> Result<NonBlocking<R>, AllocError>
        ensures { IfOk result (λ writer. writer.lossy ≡ self.now.lossy) }
    {
        self.clone()
    }
}

impl<R: Wait + Drop> Drop for NonBlocking<R> {
    fn drop(self) {
        let NonBlocking {
            rt,
            alloc: _,
            shared_sender,
            local: _,
        } = self;
        if let Some(shared_sender) = Arc::into_inner(shared_sender) {
            shared_sender.end(&rt);
        }
    }
}

impl<R: Wait + Drop> Debug for NonBlocking<R> {
    fn fmt<W: fmt::Write>(&self, f: &mut Formatter<W>) -> fmt::Result {
        f.pad("NonBlocking { .. }")
    }
}

/// The number of lines that a lossy queue dropped; 0 if senders wait.
#[derive(Drop)]
pub struct ErrorCounter {
    shared: Arc<Shared<NoBooks>, Global>,
    lossy: bool,
}

impl Model for ErrorCounter {
    ghost use Rattle.appender_non_blocking.specs.Mode.{Mode};

    ghost Value = { Mode };

    ghost view = { λ c. record { lossy = c.lossy } };
}

impl ErrorCounter {
    /// Returns the number of dropped lines. The call takes no lock, and may miss the newest ones.
    pub fn dropped_lines(&self) -> usize
        ensures waiting { self.now.lossy ≡ false → result ≡ 0 }
    {
        if self.lossy {
            self.shared.dropped.load(SeqCst)
        } else {
            0
        }
    }
}

impl Clone for ErrorCounter {
    ghost is_clone = { λ x y. y.lossy ≡ x.lossy };

    fn clone(&self) -> Result<ErrorCounter, AllocError> {
        Ok(ErrorCounter {
            shared: Arc::try_clone(&self.shared)?,
            lossy: self.lossy,
        })
    }
}

impl Debug for ErrorCounter {
    fn fmt<W: fmt::Write>(&self, f: &mut Formatter<W>) -> fmt::Result {
        f.pad("ErrorCounter { .. }")
    }
}
