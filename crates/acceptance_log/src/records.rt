use Next::{CannotBeMade, Fails, HasRoom, Pauses, Takes, TakesFirst};
use appender_log::LogSink;
use appender_runtime::clock::Clock;
use appender_runtime::make_writer::MakeWriter;
use log::{Level, Log, Logged, info, warn};
use std::alloc::{AllocError, Global};
use std::cell::{Cell, RefCell};
use std::io::{ErrorKind, Write};
use std::process::Abort;
use std::sync::Wait;
use std::sync::atomic::AtomicUsize;
use std::sync::atomic::Ordering::SeqCst;
use std::test::Fail;
use std::{io, thread};

mod json;
pub(crate) mod times;

// What writers do next.
#[derive(Clone, Copy, Debug)]
enum Next {
    Takes,
    // Each write takes at most this number of bytes.
    TakesFirst(usize),
    // There is room for this number of bytes, and then a write fails.
    HasRoom(usize),
    // There is room for this number of bytes, then this number of writes is interrupted, and then one takes all.
    Pauses(usize, u32),
    Fails,
    CannotBeMade,
}

// Keeps what its writers get, with a bar after each write and a comma after each flush.
#[derive(Drop)]
struct Page {
    text: RefCell<Vec<u8>>,
    next: Cell<Next>,
}

#[derive(Drop)]
struct PageWriter<'a>(&'a Page);

impl Page {
    fn new(alloc: Global) -> Page {
        Page {
            text: RefCell::new(Vec::new(alloc)),
            next: Cell::new(Takes),
        }
    }

    fn add(&self, bytes: &[u8], end: &[u8]) -> io::Result<()> {
        let Ok(mut text) = self.text.try_borrow_mut() else {
            return Err(io::Error::from(ErrorKind::ResourceBusy));
        };
        text.extend_from_slice(bytes)?;
        text.extend_from_slice(end)?;
        Ok(())
    }

    // How many of this number of bytes a write takes.
    fn take(&self, length: usize) -> io::Result<usize> {
        match self.next.get() {
            Takes | Pauses(0, 0) => Ok(length),
            TakesFirst(most) => Ok(most.min(length)),
            Pauses(0, left) => {
                self.next.set(Pauses(0, left.saturating_sub(1)));
                Err(io::Error::from(ErrorKind::Interrupted))
            }
            Pauses(room, left) => {
                self.next.set(Pauses(room.saturating_sub(length), left));
                Ok(room.min(length))
            }
            HasRoom(room) if room > 0 => {
                self.next.set(HasRoom(room.saturating_sub(length)));
                Ok(room.min(length))
            }
            _ => Err(io::Error::from(ErrorKind::StorageFull)),
        }
    }
}

impl<'a> MakeWriter<'a> for Page {
    type Writer = PageWriter<'a>;

    fn make_writer(&'a self) -> Result<PageWriter<'a>, AllocError> {
        match self.next.get() {
            CannotBeMade => Err(AllocError),
            _ => Ok(PageWriter(self)),
        }
    }
}

impl Write for PageWriter<'_> {
    fn write(&mut self, buf: &[u8]) -> io::Result<usize> {
        let taken = self.0.take(buf.len())?.min(buf.len());
        self.0.add(&buf[..taken], b"|")?;
        Ok(taken)
    }

    fn flush(&mut self) -> io::Result<()> {
        self.0.add(b"", b",")
    }
}

const LINE: &str = "[INFO  db] read rows=3\n";

// Ten o'clock on the 27th of November 2026, in nanoseconds since the epoch.
const TEN: i128 = 1_795_773_600_000_000_000;

// Returns a text with the record of LINE, without its newline, in place of each `@`, and with the time TEN, without its
// `Z`, in place of each `%`.
fn filled(alloc: Global, text: &str) -> Result<String, AllocError> {
    let mut whole = String::new(alloc);
    for character in text.chars() {
        match character {
            '@' => whole.push_str("[INFO  db] read rows=3")?,
            '%' => whole.push_str("2026-11-27T10:00:00.000000")?,
            _ => whole.push(character)?,
        }
    }
    Ok(whole)
}

// Ends the test if the page has another text than this one, in which `@` and `%` are replaced.
fn expect_page<R: AllocGlobal + Abort>(rt: &R, page: &Page, wanted: &str) {
    let Ok(text) = page.text.try_borrow() else {
        rt.panic("the text is borrowed");
    };
    let wanted = filled(rt.alloc(), wanted).expect(rt, "memory");
    let (text, wanted) = (text.as_slice(), wanted.as_bytes());
    assert!(rt; text == wanted, "{text:?} instead of {wanted:?}");
}

// The macros are called over any logger, so that their contracts are not those of a whole type.
fn log_four(logger: &impl Log) {
    info!(logger; "");
    let request = logger.span("request").with("id", 7);
    info!(request; target: "", "started");
    log::debug!(request; target: "db", rows = 3; "read {} bytes", 512);
    warn!(logger; target: "db", by = "a", rows = 3; "two\nlines");
}

#[test]
fn a_record_is_one_write(rt: HostRuntime) {
    let page = Page::new(rt.alloc());
    let sink = LogSink::new(rt, &page);
    log_four(&Logged::new(rt, Level::Debug, &sink));
    let wanted = "[INFO  acceptance_log::records] \n|\
        [INFO ] request{id=7}: started\n|\
        [DEBUG db] request{id=7}: read 512 bytes rows=3\n|\
        [WARN  db] two\\nlines by=a rows=3\n|";
    expect_page(&rt, &page, wanted);
}

// A message and its form in a line.
static ESCAPED: [(&str, &str); 9] = [
    ("", ""),
    ("plain ~ \u{80}\u{7ff}é𝄞", "plain ~ \u{80}\u{7ff}é𝄞"),
    (
        "in\n[INFO  auth] user root logged in",
        "in\\n[INFO  auth] user root logged in",
    ),
    ("\r\n", "\\r\\n"),
    ("\u{1b}[31mred", "\\x1b[31mred"),
    ("\u{0}\t\u{1f}\u{7f}", "\\x00\\x09\\x1f\\x7f"),
    ("a \\ and a \\n", "a \\ and a \\n"),
    ("\n\n\n", "\\n\\n\\n"),
    ("last\n", "last\\n"),
];

// Logs a record without fields.
pub(crate) fn log_message(logger: &impl Log, message: &str) {
    info!(logger; target: "db", "{message}");
}

// Logs a message, and checks its line.
fn expect_line<R: Host>(rt: R, message: &str, wanted: &str) {
    let page = Page::new(rt.alloc());
    let sink = LogSink::new(rt, &page);
    log_message(&Logged::new(rt, Level::Info, &sink), message);
    let line = format!(in rt.alloc(); "[INFO  db] {wanted}\n|").expect(&rt, "memory");
    expect_page(&rt, &page, line.as_str());
}

fn expect_each_escaped<R: Host>(rt: R) {
    for (message, wanted) in &ESCAPED {
        expect_line(rt, *message, *wanted);
    }
}

// A character 100,000 times.
fn long_of<R: Host>(rt: R, character: &str) -> String {
    let mut long = String::new(rt.alloc());
    for _ in 0..100_000u32 {
        long.push_str(character).expect(&rt, "memory");
    }
    long
}

// A long message of this character, and its form in a line.
fn expect_long<R: Host>(rt: R, character: &str, wanted: &str) {
    let (message, wanted) = (long_of(rt, character), long_of(rt, wanted));
    expect_line(rt, message.as_str(), wanted.as_str());
}

#[test]
fn a_record_is_one_line_whatever_its_message(rt: HostRuntime) {
    expect_each_escaped(rt);
    expect_long(rt, "x", "x");
    expect_long(rt, "\n", "\\n");
}

// What the tests ask of their runtime.
trait Host: AllocGlobal + Wait + Abort + Copy + Drop {}

impl<R: AllocGlobal + Wait + Abort + Copy + Drop> Host for R {}

// Logs the record of LINE.
fn log_read(logger: &impl Log) {
    info!(logger; target: "db", rows = 3; "read");
}

// Logs a record while writers do this, and checks how many records are lost then.
fn expect_lost<R: Host, C: Clock>(
    rt: R,
    page: &Page,
    sink: &LogSink<'_, Page, R, C>,
    next: Next,
    wanted: u64,
) {
    page.next.set(next);
    log_read(&Logged::new(rt, Level::Info, sink));
    let lost = sink.lost();
    assert!(rt; lost == wanted, "{next:?}: {lost} instead of {wanted}");
}

// What writers do at two records, how many are lost then, and what is written.
type Two = (Next, Next, u64, &'static str);

// In a text `@` is the line of a record without its newline.
static LOST: [Two; 13] = [
    (Fails, Takes, 1, "@\n|"),
    (CannotBeMade, Takes, 1, "@\n|"),
    (TakesFirst(0), Takes, 1, "|@\n|"),
    (TakesFirst(22), Takes, 0, "@|\n|@\n|"),
    (TakesFirst(23), Takes, 0, "@\n|@\n|"),
    // A record that was begun is ended before the next one.
    (HasRoom(1), Takes, 1, "[|\n|@\n|"),
    (HasRoom(22), Takes, 1, "@|\n|@\n|"),
    (HasRoom(23), Takes, 0, "@\n|@\n|"),
    (Pauses(5, 100), Takes, 0, "[INFO|  db] read rows=3\n|@\n|"),
    (Pauses(5, 101), Takes, 1, "[INFO|\n|@\n|"),
    (HasRoom(5), HasRoom(1), 2, "[INFO|\n|"),
    (HasRoom(5), HasRoom(7), 2, "[INFO|\n|[INFO |"),
    (HasRoom(5), Fails, 2, "[INFO|"),
];

// Logs two records on a page.
fn expect_two<R: Host, C: Clock>(rt: R, page: &Page, sink: &LogSink<'_, Page, R, C>, two: Two) {
    let (first, second, lost, text) = two;
    expect_lost(rt, page, sink, first, lost.min(1));
    expect_lost(rt, page, sink, second, lost);
    expect_page(&rt, page, text);
}

fn expect_each<R: Host>(rt: R) {
    for two in &LOST {
        let page = Page::new(rt.alloc());
        expect_two(rt, &page, &LogSink::new(rt, &page), *two);
    }
}

#[test]
fn each_lost_record_is_counted_and_the_next_one_is_a_line(rt: HostRuntime) {
    expect_each(rt);
}

// A third record is written after two that were cut short, with one newline for both.
fn expect_ended_once<R: Host>(rt: R) {
    let page = Page::new(rt.alloc());
    let sink = LogSink::new(rt, &page);
    expect_lost(rt, &page, &sink, HasRoom(5), 1);
    expect_lost(rt, &page, &sink, Fails, 2);
    expect_lost(rt, &page, &sink, TakesFirst(0), 3);
    expect_lost(rt, &page, &sink, Takes, 3);
    expect_lost(rt, &page, &sink, Takes, 3);
    expect_page(&rt, &page, "[INFO||\n|@\n|@\n|");
}

#[test]
fn a_record_that_was_cut_short_is_ended_once(rt: HostRuntime) {
    expect_ended_once(rt);
}

// A line in pieces of so many bytes, with a bar after each.
fn in_pieces<R: Host>(rt: R, most: usize) -> Vec<u8> {
    let mut pieces = Vec::new(rt.alloc());
    for piece in LINE.as_bytes().chunks(most.max(1)) {
        pieces.extend_from_slice(piece).expect(&rt, "memory");
        pieces.push(b'|').expect(&rt, "memory");
    }
    pieces
}

// Logs a record on a page of its own.
fn expect_one<R: Host>(rt: R, next: Next, lost: u64, text: &str) {
    let page = Page::new(rt.alloc());
    expect_lost(rt, &page, &LogSink::new(rt, &page), next, lost);
    expect_page(&rt, &page, text);
}

fn expect_in_pieces_of_each_length<R: Host>(rt: R) {
    for most in 1..=LINE.len() {
        let pieces = in_pieces(rt, most);
        let text = str::from_utf8(pieces.as_slice()).unwrap_or("");
        expect_one(rt, TakesFirst(most), 0, text);
    }
}

#[test]
fn a_record_that_is_taken_in_pieces_is_whole(rt: HostRuntime) {
    expect_in_pieces_of_each_length(rt);
}

// How often the write of a record is interrupted, how many records are lost, and what is written. In the text `@` is
// the line of a record without its newline.
static INTERRUPTED: [(u32, u64, &str); 3] = [(1, 0, "@\n|"), (100, 0, "@\n|"), (101, 1, "")];

fn expect_interrupted<R: Host>(rt: R) {
    for (times, lost, text) in &INTERRUPTED {
        expect_one(rt, Pauses(0, *times), *lost, *text);
    }
}

#[test]
fn an_interrupted_write_is_repeated_a_hundred_times(rt: HostRuntime) {
    expect_interrupted(rt);
}

// Logs a record of the level Info.
fn log_left_out(logger: &impl Log) {
    info!(logger; "left out");
}

// A record of a level that the logger leaves out is not lost.
#[test]
fn the_logger_decides_by_level(rt: HostRuntime) {
    let page = Page::new(rt.alloc());
    let sink = LogSink::new(rt, &page);
    log_left_out(&Logged::new(rt, Level::Warn, &sink));
    assert!(rt; sink.lost() == 0);
    expect_page(&rt, &page, "");
}

#[test]
fn a_flush_reaches_a_writer(rt: HostRuntime) {
    let page = Page::new(rt.alloc());
    let sink = LogSink::new(rt, &page);
    sink.flush();
    page.next.set(CannotBeMade);
    sink.flush();
    assert!(rt; sink.lost() == 0);
    expect_page(&rt, &page, ",");
}

// Makes no writer. Of two threads that ask, the first waits for the other, for a bounded number of turns.
#[derive(Drop)]
struct NoWriters {
    calls: AtomicUsize,
}

impl<'a> MakeWriter<'a> for NoWriters {
    type Writer = PageWriter<'a>;

    fn make_writer(&'a self) -> Result<PageWriter<'a>, AllocError> {
        let call = self.calls.fetch_add(1, SeqCst);
        for _ in 0..1000u32 {
            if self.calls.load(SeqCst) > (call | 1) {
                break;
            }
            thread::yield_now();
        }
        Err(AllocError)
    }
}

// Logs a record this number of times.
fn log_often(logger: &impl Log, times: u32) {
    for _ in 0..times {
        info!(logger; "often");
    }
}

#[test]
fn two_threads_share_a_sink(rt: HostRuntime) -> Result<(), Fail> {
    let writers = NoWriters {
        calls: AtomicUsize::new(0),
    };
    let sink = LogSink::new(rt, &writers);
    thread::map_indices(
        &rt,
        rt.alloc(),
        2,
        &|_| log_often(&Logged::new(rt, Level::Info, &sink), 1000),
    )?;
    assert!(rt; sink.lost() == 2000);
    let shown = format!(in rt.alloc(); "{sink:?}")?;
    assert!(rt; shown.as_str() == "LogSink { .. }");
    Ok(())
}
