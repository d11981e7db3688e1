// Senders that know what they sent.
ghost use Rattle.std.specs.Prelude.{◌≡◌, ◌≢◌, ◌+◌, ◌^◌, ◌<◌, [], length, vec_len, Ok, IfOk, IfErr, false};
ghost use Rattle.std.specs.IoError.{error_kind};
ghost use Rattle.line_history.specs.Lines.{AllFrom};
ghost use Rattle.appender_channel.specs.Tally.{new_tally};
ghost use Rattle.appender_non_blocking.specs.Refusal.{IsRefusal};
ghost use Rattle.appender_non_blocking.specs.SentLines.{new_sender, new_senders, sent_after_line};

use super::sender::{SenderState, Sent, copy_of, send};
use super::shared::Shared;
use appender_channel::books::{FourBooks, SenderBooks, SenderShare};
use appender_channel::state::Counted;
use line_history::Tape;
use std::alloc::{AllocError, Global};
use std::fmt::{Debug, Formatter};
use std::io::ErrorKind;
use std::marker::Model;
use std::sync::ledger::{Ledger, Share};
use std::sync::{Arc, Wait};
use std::thread::Threads;
use std::{fmt, io};

/// A sender that counts the lines that it queued, and those that were dropped. There is
/// one for each thread: it has no clone, and its guard settles the account of all of them.
pub type CountedSender<A, H, S, C, R> = BookSender<FourBooks<A, H, S, C>, R>;

/// A sender that counts the lines that it queued, and those that were dropped, by these books.
pub struct BookSender<B: SenderBooks, R: Wait + Drop> {
    rt: R,
    alloc: Global,
    shared: Arc<Shared<B>, Global>,
    counted: Counted,
    local: SenderState,
    mine: B::Mine,
    place: usize,
    // The lines that it queued, in proofs only, and their number.
    lines: Tape,
    queued: u64,
    dropped: usize,
    last_ticket: u64,
}

impl<B: SenderBooks, R: Wait + Drop> Model for BookSender<B, R> {
    ghost use Rattle.std.specs.Prelude.{◌≡◌, length};
    ghost use Rattle.appender_non_blocking.specs.SentLines.{SentLines};

    ghost Value = { SentLines };

    ghost view = { λ s. record {
      lines = s.lines.lines;
      dropped = s.dropped;
      last_ticket = s.last_ticket;
      place = s.place;
      lossy = s.local.lossy;
    } };

    ghost invariant = { λ s. B.has_sent s.mine s.place s.lines.lines × (s.queued ≡ length s.lines.lines) };
}

impl<B: SenderBooks, R: Wait + Drop> BookSender<B, R> {
    // Returns one more sender, with this share and this place in the queue.
    fn new(
        rt: R,
        alloc: Global,
        shared: Arc<Shared<B>, Global>,
        local: SenderState,
        mine: B::Mine,
        place: usize,
    ) -> BookSender<B, R>
        requires { B.has_sent mine place [] }
        ensures { result ≡ new_sender local.lossy place }
    {
        let counted = shared.add_sender(&rt);
        BookSender {
            rt,
            alloc,
            shared,
            counted,
            local,
            mine,
            place,
            lines: Tape::of(&()),
            queued: 0,
            dropped: 0,
            last_ticket: 0,
        }
    }

    /// Queues a copy of the bytes as one line, which may be empty, and returns its ticket. It adds no newline. If the queue is
    /// full or closed, a lossy sender drops the line and returns `Dropped`. Otherwise the call waits for
    /// room, and returns an error of the kind `Other` if the queue is closed. `OutOfMemory` if there is no
    /// memory for the copy. After an error nothing was queued or counted.
    pub fn write_line(&mut self, line: &[u8]) -> io::Result<Sent>
        ensures sent { self.new ≡ sent_after_line self.old line.now result }
        ensures waiting { self.old.lossy ≡ false → result ≢ Ok Sent.Dropped }
        ensures kind { IfErr result (λ e. IsRefusal self.old.lossy (error_kind e)) }
    {
        B::one_line_more();
        let BookSender {
            rt,
            alloc,
            shared,
            local,
            mine,
            lines,
            queued,
            dropped,
            last_ticket,
            ..
        } = self;
        let copy = match copy_of(*alloc, &mut local.spare, line) {
            Ok(copy) => copy,
            Err(kind) => return Err(io::Error::from(kind)),
        };
        match send(rt, &**shared, local, copy, mine) {
            Some(Sent::Queued(ticket)) => {
                lines.note(line);
                *queued += 1;
                *last_ticket = ticket;
                Ok(Sent::Queued(ticket))
            }
            Some(Sent::Dropped) => {
                *dropped = dropped.saturating_add(1);
                Ok(Sent::Dropped)
            }
            None => Err(io::Error::from(ErrorKind::Other)),
        }
    }

    /// Returns the number of lines that this sender queued.
    pub fn queued(&self) -> u64
        ensures { result ≡ length self.now.lines }
    {
        self.queued
    }

    /// How many lines of this sender were dropped, at most `usize::MAX`.
    pub fn dropped(&self) -> usize
        ensures { result ≡ self.now.dropped }
    {
        self.dropped
    }

    /// Returns the ticket of the last line that this sender queued, or 0 before the first one.
    pub fn last_ticket(&self) -> u64
        ensures { result ≡ self.now.last_ticket }
    {
        self.last_ticket
    }

    /// One sender less. Its share and its count of dropped lines are kept.
    pub(super) fn end(self) -> (B::Mine, usize)
        ensures share { B.has_sent result.0 self.place self.lines }
        ensures dropped { result.1 ≡ self.dropped }
    {
        let BookSender {
            rt,
            alloc: _,
            shared,
            counted,
            local: _,
            mine,
            place: _,
            lines: _,
            queued: _,
            dropped,
            last_ticket: _,
        } = self;
        shared.drop_sender(&rt, counted);
        (mine, dropped)
    }
}

impl<B: SenderBooks, R: Wait + Drop> Drop for BookSender<B, R> {
    fn drop(self) {
        let BookSender {
            rt,
            alloc: _,
            shared,
            counted,
            local: _,
            mine: _,
            place: _,
            lines: _,
            queued: _,
            dropped: _,
            last_ticket: _,
        } = self;
        shared.drop_sender(&rt, counted);
    }
}

impl<B: SenderBooks, R: Wait + Drop> Debug for BookSender<B, R> {
    fn fmt<W: fmt::Write>(&self, f: &mut Formatter<W>) -> fmt::Result {
        f.pad("CountedSender { .. }")
    }
}

/// Returns this number of shares, each with one part of the book of accepted lines, and the rest of the book.
/// `senders` says it in the words of `has_sent` of the books, where a sender without lines has fewer than 2 ^ 64.
pub(super) fn split_shares<A: Ledger>(
    alloc: Global,
    share: Share<A>,
    senders: usize,
) -> Result<(Vec<SenderShare<A>>, Share<A>), AllocError>
    requires { (A.parts ≡ senders + 1) × (share.parts ≡ senders + 1) × (share.amount ≡ 0) }
    ensures count { IfOk result (λ made. vec_len made.0 ≡ senders) }
    ensures senders { IfOk result (λ made. AllFrom (λ s n. (s.place ≡ n) × (s.place + 1 < A.parts) × (s.share.parts ≡ 1) × (s.share.amount ≡ 0) × (0 < 2 ^ 64)) 0 made.0.items) }
    ensures share { IfOk result (λ made. (made.1.parts ≡ 1) × (made.1.amount ≡ 0)) }
{
    let mut share = share;
    let mut made = Vec::with_capacity(alloc, senders)?;
    for place in 0..senders {
        let share = share.split_off(1, 0);
        made.push_reserved(SenderShare { share, place });
    }
    Ok((made, share))
}

/// Returns a sender for each of these shares, which have the places 0, 1, 2, ..
pub(super) fn make_senders<B: SenderBooks, R: Wait + Drop + Copy>(
    rt: R,
    alloc: Global,
    shared: &Arc<Shared<B>, Global>,
    local: &SenderState,
    shares: Vec<B::Mine>,
) -> Result<Vec<BookSender<B, R>>, AllocError>
    requires { AllFrom (λ m place. B.has_sent m place []) 0 shares.items }
    ensures { IfOk result (λ made. made.items ≡ new_senders local.now.lossy (vec_len shares)) }
{
    let mut made = Vec::with_capacity(alloc, shares.len())?;
    for mine in shares {
        let shared = Arc::try_clone(shared)?;
        let place = made.len();
        let sender = BookSender::new(rt, alloc, shared, local.another(alloc), mine, place);
        made.push_reserved(sender);
    }
    Ok(made)
}

/// Makes what the senders and the worker of a queue share, and a sender for each of these shares, which have the places 0, 1, 2, ..
pub(super) fn open_queue<B: SenderBooks, R: Threads + Wait + Drop + Copy>(
    rt: R,
    alloc: Global,
    settings: (usize, bool),
    places: usize,
    books: B,
    shares: Vec<B::Mine>,
) -> Result<(Arc<Shared<B>, Global>, Vec<BookSender<B, R>>), AllocError>
    requires books { B.agree books (new_tally places) }
    requires shares { AllFrom (λ m place. B.has_sent m place []) 0 shares.items }
    ensures { IfOk result (λ made. made.1.items ≡ new_senders settings.1 (vec_len shares)) }
{
    let (limit, lossy) = settings;
    let shared = Shared::new(&rt, alloc, limit, lossy, places, books)?;
    let local = SenderState::new(alloc, limit, lossy, shared.alone);
    let made = make_senders(rt, alloc, &shared, &local, shares)?;
    Ok((shared, made))
}
