//! The way of an input's lines to a queue or a log: times before them, and a copy to standard output.
ghost use Rattle.std.specs.Prelude.{◌≡◌, ◌≢◌, ◌<◌, ◌≤◌, ◌-◌, ◌+◌, ◌^◌, ◌⊎◌, ◌++◌, ◌∷◌, cond, min, max, ℕ, List, [], All, not, length, take, true, false, Some, IfOk, OnOk, OnErr, MatchResult};
ghost use Rattle.std.specs.List.{concat};
ghost use Rattle.std.specs.Io.{WritesAtMost};
ghost use Rattle.std.specs.Io.BufRead.{ends_with_byte};
ghost use Rattle.std.specs.Io.KnownBytes.{Keeps, WriteAppends};
ghost use Rattle.program_io.specs.Options.{has_option};
ghost use Rattle.program_io.specs.declared.options.OptionName.{OptionName};
ghost use Rattle.appender_names.specs.declared.rotation.Rotation.{Rotation};
ghost use Rattle.jiff_core.specs.declared.civil.datetime.DateTime.{DateTime};
ghost use Rattle.rolltee_core.specs.Feed.{begins_after, line_count, stamp_text, Echoes, IsFed, IsTextOf, IsTimed, Sends};
ghost use Rattle.rolltee_core.specs.Taken.{AsAsked};

use crate::file_log::ends_line;
pub use crate::waiting::Asked;
use jiff_core::Timestamp;
use jiff_fmt::temporal::DateTimePrinter;
use line_history::{Recorded, Tape};
use memchr::memchr;
use program_io::options::{OptionName, Options};
use program_io::report::report;
use std::alloc::{AllocError, Global};
use std::io::Write;
use std::marker::{Model, PhantomData};
use std::sync::Wait;
use std::time::{Clock, Duration};
use std::{io, thread};
use tracing_appender::non_blocking::LineSender;
use tracing_appender::worker::LineCounts;

/// What a feed sends lines to: a queue, or a log.
pub trait FeedSink {
    /// The bytes of the lines that were sent.
    ghost sent: { Self → List ℕ };

    /// Sends whole lines, or a part of a long line. A lossy queue may drop them. After an error they were not sent.
    fn send(&mut self, text: &[u8]) -> io::Result<()>
        ensures { MatchResult result (λ _. sent self.new ≡ sent self.old ++ text.now)
            (λ _. sent self.new ≡ sent self.old) };

    /// Flushes what was sent, if no other thread does.
    fn flush(&mut self)
        ensures { sent self.new ≡ sent self.old }
    {}
}

// The queue counts only lines, and a piece may have 1 MiB. So 16 parts of 1 MiB of lines are the most that are queued, and then
// one line more.
const PARTS: usize = 16;

const PART: usize = 1 << 20;

// The first pause of a wait for the log and the longest one, in milliseconds.
const FIRST_MILLIS: u64 = 1;

const LONGEST_MILLIS: u64 = 50;

/// The queue of a recorded sender.
#[derive(Drop)]
pub struct SenderQueue<'a, R, S: LineSender + Drop> {
    rt: R,
    sender: S,
    // The lines that it was offered.
    offered: Tape,
    // What became of its lines.
    counts: &'a LineCounts,
    // The number of lines that it took or dropped.
    sent: u64,
    // What may wait in it.
    backlog: Backlog,
    // The number of lines that were dropped since too many bytes waited.
    dropped: u64,
    // Whether it is lossy, and whether that was reported.
    lossy: bool,
    reported: bool,
}

impl<'a, R, S: LineSender + Drop> Model for SenderQueue<'a, R, S> {
    ghost use Rattle.std.specs.Prelude.{◌≡◌};
    ghost use Rattle.rolltee_core.specs.Feed.{Offering};

    ghost Value = { Offering };

    ghost view = { λ q. record { sent = S.sent q.sender; offered = q.offered.lines; dropped = q.dropped } };

    // Each line that was not dropped was queued.
    ghost invariant = { λ q. q.dropped ≡ 0 → (S.sent q.sender).dropped ≡ 0 → (S.sent q.sender).lines ≡ q.offered.lines };
}

// Parts of the lines that a queue took: after how many lines each whole one ends, and how many bytes came after them.
#[derive(Drop)]
struct Backlog {
    ends: [u64; PARTS],
    parts: usize,
    bytes: usize,
}

impl Backlog {
    fn new() -> Backlog {
        Backlog {
            ends: [0; PARTS],
            parts: 0,
            bytes: 0,
        }
    }

    fn is_full(&self) -> bool {
        self.parts >= PARTS
    }

    // Adds a line, which was the last of so many.
    fn add(&mut self, line: &[u8], lines: u64) {
        self.bytes = self.bytes.saturating_add(line.len());
        if self.bytes >= PART && self.parts < PARTS {
            self.ends[self.parts] = lines;
            self.parts += 1;
            self.bytes = 0;
        }
    }

    // Removes the parts of which no line waits, since so many were written or lost.
    fn remove(&mut self, lines: u64) {
        for _ in 0..PARTS {
            if self.parts == 0 || self.ends[0] > lines {
                return;
            }
            self.ends.rotate_left(1);
            self.parts -= 1;
        }
    }
}

// A sender that has sent lines.
#[derive(Drop)]
struct Before<'a, S> {
    sender: &'a S,
}

impl<'a, S: LineSender> Recorded for Before<'a, S> {
    ghost lines = { λ b. (S.sent b.sender.now).lines };
}

impl<'a, R: Drop, S: LineSender + Drop> SenderQueue<'a, R, S> {
    /// Returns the queue of this sender, which may be lossy. The counts are those of its worker's log.
    pub fn new(rt: R, sender: S, counts: &'a LineCounts, lossy: bool) -> SenderQueue<'a, R, S>
        ensures { result ≡ record { sent = S.sent sender; offered = (S.sent sender).lines; dropped = 0 } }
    {
        let offered = Tape::of(&Before { sender: &sender });
        SenderQueue {
            rt,
            sender,
            offered,
            counts,
            sent: 0,
            backlog: Backlog::new(),
            dropped: 0,
            lossy,
            reported: false,
        }
    }

    /// Returns the number of lines that the log did not take whole, those that it has not taken yet too.
    pub fn lost(&self) -> u64 {
        let left = left(&self.sender, self.counts, self.sent);
        self.counts.lost().saturating_add(left)
    }

    /// Returns the number of lines that were dropped.
    pub fn dropped(&self) -> u64
        ensures { result ≡ 0 → (self.now.dropped ≡ 0) × (self.now.sent.dropped ≡ 0) }
    {
        self.dropped.saturating_add(self.sender.dropped() as u64)
    }

    /// Returns the sender. If no line was dropped, it queued all lines that it was offered.
    pub fn into_sender(self) -> S
        ensures sender { S.sent result ≡ self.entry.sent }
        ensures queued { self.entry.dropped ≡ 0 → self.entry.sent.dropped ≡ 0 → self.entry.sent.lines ≡ self.entry.offered }
    {
        self.sender
    }
}

impl<'a, R: Wait + Clock + Eprint + Drop, S: LineSender + Drop> SenderQueue<'a, R, S> {
    /// Waits until the log took or lost each line that was queued, as long as that takes.
    pub fn settle(&mut self)
        ensures { self.new ≡ self.old }
    {
        let mut millis = FIRST_MILLIS;
        for _ in self.rt.forever() {
            if left(&self.sender, self.counts, self.sent) == 0 {
                break;
            }
            thread::sleep(&self.rt, Duration::from_millis(millis));
            millis = millis.saturating_mul(2).min(LONGEST_MILLIS);
        }
        self.backlog = Backlog::new();
    }

    // Returns whether 16 MiB of lines wait.
    fn is_full(&mut self) -> bool
        ensures { self.new ≡ self.old }
    {
        if self.backlog.is_full() {
            let done = self.counts.taken().saturating_add(self.counts.lost());
            self.backlog.remove(done);
        }
        self.backlog.is_full()
    }

    // Reports the first line that is dropped, at once.
    fn report_drops(&mut self)
        ensures { self.new ≡ self.old }
    {
        if !self.reported && self.dropped() > 0 {
            self.reported = true;
            let _ = eprintln!(self.rt; "lines are dropped: the queue is full");
        }
    }

    fn drop_line(&mut self, line: &[u8])
        ensures { concat self.new.offered ≡ concat self.old.offered ++ line.now }
    {
        self.offered.note(line);
        self.dropped = self.dropped.saturating_add(1);
        self.report_drops();
    }

    fn queue_line(&mut self, line: &[u8]) -> io::Result<()>
        ensures { MatchResult result (λ _. concat self.new.offered ≡ concat self.old.offered ++ line.now)
            (λ _. concat self.new.offered ≡ concat self.old.offered) }
    {
        self.sender.write_line(line)?;
        self.offered.note(line);
        self.sent = self.sent.saturating_add(1);
        let taken = self.sent.saturating_sub(self.sender.dropped() as u64);
        self.backlog.add(line, taken);
        self.report_drops();
        Ok(())
    }
}

impl<'a, R: Wait + Clock + Eprint + Drop, S: LineSender + Drop> FeedSink for SenderQueue<'a, R, S> {
    ghost sent = { λ q. concat q.offered };

    /// Queues a line. If 16 MiB wait, a lossy queue drops it, and another waits before until they are written.
    fn send(&mut self, line: &[u8]) -> io::Result<()> {
        if self.is_full() {
            if self.lossy {
                self.drop_line(line);
                return Ok(());
            }
            self.settle();
        }
        self.queue_line(line)
    }
}

// Returns how many of the lines that were queued the log neither took nor lost until now.
fn left<S: LineSender>(sender: &S, counts: &LineCounts, sent: u64) -> u64 {
    let done = counts.taken().saturating_add(counts.lost());
    sent.saturating_sub(sender.dropped() as u64)
        .saturating_sub(done)
}

// Sends texts, and writes them to the output if that is asked for.
#[derive(Drop)]
struct Echo<R, Q, O> {
    rt: R,
    sink: Q,
    // Whether each line is also written to the output.
    echo: bool,
    // Where each line is also written, until that fails.
    output: O,
    // The number of lines that were not written whole there.
    unechoed: u64,
}

impl<R, Q, O> Model for Echo<R, Q, O> {
    ghost use Rattle.rolltee_core.specs.Feed.{Echoing};

    ghost Value = { Echoing Q O };

    ghost view = { λ e. record { sink = e.sink; output = e.output; echo = e.echo; unechoed = e.unechoed } };
}

impl<R: Eprint, Q: FeedSink, O: Write> Echo<R, Q, O> {
    // Sends a text, and writes it to the output if that is asked for.
    fn send(&mut self, text: &[u8]) -> io::Result<()>
        ensures sent { OnOk result (Sends Q.sent O.contents text.now self.old self.new) }
        ensures not_sent { OnErr result ((Q.sent self.new.sink ≡ Q.sent self.old.sink)
            × (self.new ≡ record self.old { sink = self.new.sink })) }
        ensures echo { self.new.echo ≡ self.old.echo }
    {
        self.sink.send(text)?;
        self.echo_text(text);
        Ok(())
    }

    // Writes a text to the output if that is asked for. A fault is reported at once, and then no more is written there.
    fn echo_text(&mut self, text: &[u8])
        ensures echoed { Echoes O.contents text.now self.old self.new }
        ensures same { record self.new { output = self.old.output; unechoed = self.old.unechoed } ≡ self.old }
    {
        if !self.echo {
            return;
        }
        if self.unechoed == 0 {
            match report(&mut self.output, text) {
                Ok(()) => return,
                Err(fault) => {
                    let _ = eprintln!(self.rt; "lines are not echoed: {fault}");
                }
            }
        }
        self.unechoed = add_lines(self.unechoed, text);
    }
}

/// Sends the pieces of an input, each line after a time if that is asked for, and writes them to the output.
#[derive(Drop)]
pub struct Feed<R, Q: FeedSink, O: Write, N: Asked> {
    echo: Echo<R, Q, O>,
    // Whether each line begins with the time at which it was read.
    timestamps: bool,
    // The buffer for lines and their times.
    stamped: Vec<u8>,
    // Whether the last piece ended within a line, so that the next one goes on with it.
    within: bool,
    // The pieces.
    given: Tape,
    asked: PhantomData<N>,
}

impl<R, Q: FeedSink, O: Write, N: Asked> Model for Feed<R, Q, O, N> {
    ghost use Rattle.std.specs.List.{concat};
    ghost use Rattle.rolltee_core.specs.Feed.{Feeding, IsFed};
    ghost use Rattle.rolltee_core.specs.Taken.{AsAsked};

    ghost Value = { Feeding Q O };

    ghost view = { λ f. record { echoing = f.echo; timestamps = f.timestamps; within = f.within; given = concat f.given.lines } };

    ghost invariant = { λ f. AsAsked (λ _ _ _ options. IsFed Q.sent O.contents N.first N.printed options (record { echoing = f.echo; timestamps = f.timestamps; within = f.within; given = concat f.given.lines })) N.asked };
}

impl<R: Drop, Q: FeedSink + Drop, O: Write + Drop, N: Asked> Feed<R, Q, O, N> {
    /// Returns what the lines were sent to, the output, and the number of lines that were not written whole to that.
    pub fn into_parts(self) -> (Q, O, u64)
        ensures parts { (result.0 ≡ self.echoing.sink) × (result.1 ≡ self.echoing.output) × (result.2 ≡ self.echoing.unechoed) }
        ensures fed { AsAsked (λ _ _ _ options. IsFed Q.sent O.contents N.first N.printed options self) N.asked }
    {
        let Feed {
            echo,
            timestamps: _,
            stamped: _stamped,
            within: _,
            given: _given,
            asked: _,
        } = self;
        let Echo {
            rt: _rt,
            sink,
            echo: _,
            output,
            unechoed,
        } = echo;
        (sink, output, unechoed)
    }
}

impl<R: Clock + AllocGlobal + Eprint, Q: FeedSink, O: Write, N: Asked> Feed<R, Q, O, N> {
    /// Returns a feed. What is done with each line is in the options.
    pub fn new(rt: R, sink: Q, options: &Options, output: O) -> Feed<R, Q, O, N>
        requires first { N.first ≡ Q.sent sink }
        requires printed { N.printed ≡ O.contents output }
        requires asked { (rotation : Rotation) × (directory : List ℕ) × (prefix : List ℕ) × N.asked rotation directory prefix options.now }
        ensures { result ≡ record {
          echoing = record { sink = sink; output = output; echo = has_option OptionName.Echo options.now; unechoed = 0 };
          timestamps = has_option OptionName.Timestamps options.now;
          within = false;
          given = [];
        } }
    {
        let stamped = Vec::new(rt.alloc());
        let echo = Echo {
            rt,
            sink,
            echo: options.has(OptionName::Echo),
            output,
            unechoed: 0,
        };
        Feed {
            echo,
            timestamps: options.has(OptionName::Timestamps),
            stamped,
            within: false,
            given: Tape::of(&()),
            asked: PhantomData,
        }
    }
}

impl<R: Clock + AllocGlobal + Eprint, Q: FeedSink, O: Write, N: Asked> Write for Feed<R, Q, O, N> {
    ghost contents = { λ f. Some f.given };

    /// Sends one piece of an input: lines, or a part of a long line. Errors are those of the sink.
    fn write(&mut self, piece: &[u8]) -> io::Result<usize>
        ensures bound { WritesAtMost result piece.now }
        ensures bytes { WriteAppends (Some self.old.given) (Some self.new.given) result piece.now }
        ensures whole { IfOk result (λ n. n ≡ length piece.now) }
        ensures sent { OnOk result ((text : List ℕ)
            × IsTextOf self.old.timestamps (not self.old.within) piece.now text
            × Sends Q.sent O.contents text self.old.echoing self.new.echoing) }
        ensures within { MatchResult result (λ _. self.new.within ≡ not (begins_after (not self.old.within) piece.now))
            (λ _. self.new.within ≡ self.old.within) }
        ensures options { (self.new.timestamps ≡ self.old.timestamps) × (self.new.echoing.echo ≡ self.old.echoing.echo) }
    {
        send_text(
            &mut self.echo,
            &mut self.stamped,
            piece,
            self.timestamps,
            !self.within,
        )?;
        self.given.note(piece);
        self.within = is_within(self.within, piece);
        Ok(piece.len())
    }

    /// Flushes what was sent, if no other thread does.
    fn flush(&mut self) -> io::Result<()>
        ensures bytes { Keeps (Some self.old.given) (Some self.new.given) }
    {
        self.echo.sink.flush();
        Ok(())
    }
}

// Sends a piece, with a time before each line that begins in it if that is asked for.
fn send_text<R: Clock + Eprint, Q: FeedSink, O: Write>(
    echo: &mut Echo<R, Q, O>,
    stamped: &mut Vec<u8>,
    piece: &[u8],
    timestamps: bool,
    begins: bool,
) -> io::Result<()>
    ensures sent { OnOk result ((text : List ℕ) × IsTextOf timestamps begins piece.now text × Sends Q.sent O.contents text echo.old echo.new) }
    ensures not_sent { OnErr result ((Q.sent echo.new.sink ≡ Q.sent echo.old.sink)
        × (echo.new ≡ record echo.old { sink = echo.new.sink })) }
    ensures echo { echo.new.echo ≡ echo.old.echo }
{
    if !timestamps {
        return echo.send(piece);
    }
    stamp_now(&echo.rt, stamped, piece, begins)?;
    echo.send(stamped.as_slice())
}

// Returns whether what follows this piece goes on with a line, as the piece itself does if this is `within` one.
fn is_within(within: bool, piece: &[u8]) -> bool
    ensures { result ≡ not (begins_after (not within) piece.now) }
{
    if piece.is_empty() {
        within
    } else {
        !ends_line(piece)
    }
}

// Puts a piece into `stamped`, in place of what that contained, with the time before each line that begins in it.
fn stamp_now<R: Clock>(
    rt: &R,
    stamped: &mut Vec<u8>,
    piece: &[u8],
    begins: bool,
) -> Result<(), AllocError>
    ensures { OnOk result (IsTimed begins piece.now stamped.new.items) }
{
    let printer = DateTimePrinter::new().precision(Some(6));
    let time = printer.timestamp_text(now(rt));
    stamp(stamped, time.as_str().as_bytes(), piece, begins)
}

// Puts a piece into `stamped`, in place of what that contained, with this time and a space before each line that begins in it.
fn stamp(stamped: &mut Vec<u8>, time: &[u8], piece: &[u8], begins: bool) -> Result<(), AllocError>
    requires { (at : DateTime) × (time.now ++ 32 ∷ [] ≡ stamp_text at) }
    ensures { OnOk result (IsTimed begins piece.now stamped.new.items) }
{
    stamped.clear();
    let mut begins = begins;
    let mut rest = piece;
    while !rest.is_empty() {
        let length = line_length(rest);
        stamp_line(stamped, time, &rest[..length], begins)?;
        begins = true;
        rest = &rest[length..];
    }
    Ok(())
}

// Adds a line, after this time and a space if it begins here.
fn stamp_line(
    stamped: &mut Vec<u8>,
    time: &[u8],
    line: &[u8],
    begins: bool,
) -> Result<(), AllocError>
    ensures { OnOk result (stamped.new.items ≡ stamped.old.items ++ (cond begins (time.now ++ 32 ∷ []) [] ++ line.now)) }
{
    if begins {
        stamped.extend_from_slice(time)?;
        stamped.extend_from_slice(b" ")?;
    }
    stamped.extend_from_slice(line)?;
    Ok(())
}

// Returns a count of lines and of those of a text, which are one at least.
fn add_lines(count: u64, text: &[u8]) -> u64
    ensures count { result ≡ min (count + max 1 (line_count true text.now)) (2 ^ 64 - 1) }
    ensures some { 0 < result }
{
    count.saturating_add(count_lines(text).max(1))
}

// Returns the number of lines of a text, a part at its end included.
fn count_lines(text: &[u8]) -> u64
    ensures { result ≡ line_count true text.now }
{
    let mut count = 0u64;
    let mut rest = text;
    while !rest.is_empty() {
        count += 1;
        rest = &rest[line_length(rest)..];
    }
    count
}

/// Returns the length of the first line with its newline, if it has one.
pub fn line_length(text: &[u8]) -> usize
    ensures bound { result ≤ length text.now }
    ensures some { 0 < length text.now → 0 < result }
    ensures line { All (λ x. x ≢ 10) (take (result - 1) text.now) }
    ensures ends { (result ≡ length text.now) ⊎ (ends_with_byte 10 (take result text.now) ≡ true) }
{
    match memchr(b'\n', text) {
        Some(place) => place + 1,
        None => text.len(),
    }
}

// Returns the time of the system's clock, or 1970 if that can't be read.
fn now(clock: &impl Clock) -> Timestamp {
    match clock.since_1970() {
        Ok(time) => {
            let nanos = i128::from(time.as_secs()) * 1_000_000_000
                + i128::from(time.subsec_nanos());
            Timestamp::from_nanosecond(nanos).unwrap_or(Timestamp::UNIX_EPOCH)
        }
        Err(_) => Timestamp::UNIX_EPOCH,
    }
}
