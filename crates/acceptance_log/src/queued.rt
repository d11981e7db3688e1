// Logs with a queue: which levels they log, and what they say is lost.
use crate::records::log_message;
use crate::records::times::At;
use appender_log::{QueuedLog, start, start_with};
use appender_non_blocking::non_blocking::{Host, Losses, NonBlockingBuilder};
use log::{Level, Log, Logged, debug};
use std::alloc::{AllocError, Global};
use std::io;
use std::io::{ErrorKind, Write};
use std::process::Abort;
use std::sync::{Arc, Mutex, Wait};
use std::time::Duration;

type Text = Arc<Mutex<Vec<u8>>, Global>;

// Takes so many lines, and then none. Who holds the lock of its text holds up the worker.
#[derive(Drop)]
struct Page<R: Host> {
    rt: R,
    text: Text,
    room: usize,
}

impl<R: Host> Page<R> {
    fn new(rt: R, room: usize) -> Result<(Page<R>, Text), AllocError> {
        let text = Arc::new(rt.alloc(), Mutex::new(Vec::new(rt.alloc())))?;
        let page = Page {
            rt,
            text: Arc::try_clone(&text)?,
            room,
        };
        Ok((page, text))
    }
}

impl<R: Host> Write for Page<R> {
    fn write(&mut self, buf: &[u8]) -> io::Result<usize> {
        self.room = self
            .room
            .checked_sub(1)
            .ok_or(io::Error::from(ErrorKind::StorageFull))?;
        self.text.lock(&self.rt).extend_from_slice(buf)?;
        Ok(buf.len())
    }

    fn flush(&mut self) -> io::Result<()> {
        Ok(())
    }
}

// What the tests ask of their runtime.
trait TestHost: Host + Abort {}

impl<R: Host + Abort> TestHost for R {}

// Starts a log over a page that takes so many lines.
fn started<R: TestHost>(rt: R, room: usize) -> (QueuedLog<R>, Text) {
    let (page, text) = Page::new(rt, room).expect(&rt, "memory");
    (start(rt, page).expect(&rt, "a log"), text)
}

// Ends the test if the page has another text than this one.
fn expect_text<R: TestHost>(rt: R, text: &Text, wanted: &[u8]) {
    assert_eq!(rt; text.lock(&rt).as_slice(), wanted);
}

// Logs a record of the level Debug.
fn log_debug(logger: &impl Log, message: &str) {
    debug!(logger; target: "db", "{message}");
}

fn expect_levels<R: TestHost>(rt: R) {
    let (log, text) = started(rt, 2);
    let log = log.timestamps(At(1_795_773_600_000_000_000));
    log_debug(&log.logger(), "a");
    log_message(&log.logger(), "b");
    log_debug(&Logged::new(rt, Level::Debug, &log), "c");
    log.finish().expect(&rt, "no loss");
    let wanted =
        b"2026-11-27T10:00:00.000000Z [INFO  db] b\n2026-11-27T10:00:00.000000Z [DEBUG db] c\n";
    expect_text(rt, &text, wanted.as_slice());
}

#[test]
fn a_logger_stops_at_its_level(rt: HostRuntime) {
    expect_levels(rt);
}

fn log_often<R: TestHost>(log: &QueuedLog<R>, times: u32) {
    for _ in 0..times {
        log_message(&log.logger(), "a");
    }
}

fn expect_told<R: TestHost>(rt: R) {
    let (log, _text) = started(rt, 1);
    log_often(&log, 3);
    let Err(error) = log.finish() else {
        rt.panic("no line was lost");
    };
    let error = format!(in rt.alloc(); "{error}").expect(&rt, "memory");
    assert_eq!(rt; error.as_str(), "lines not written whole: 2");
}

#[test]
fn lines_that_find_no_room_are_told(rt: HostRuntime) {
    expect_told(rt);
}

// Queues a record while the worker is held up. Returns what a flush says meanwhile.
fn flush_late<R: TestHost>(rt: R, log: &QueuedLog<R>, text: &Text) -> Option<ErrorKind> {
    let held = text.lock(&rt);
    log_message(&log.logger(), "b");
    let late = log.flush_queued(Duration::from_millis(20));
    drop(held);
    kind_of(late)
}

// Waits for the records before, for ten seconds at most.
fn flush<R: TestHost>(log: &QueuedLog<R>) -> Option<ErrorKind> {
    kind_of(log.flush_queued(Duration::from_secs(10)))
}

// The page has no room for the last record.
fn expect_flushed<R: TestHost>(rt: R) {
    let (log, text) = started(rt, 2);
    log_message(&log.logger(), "a");
    log.flush();
    expect_text(rt, &text, b"[INFO  db] a\n");
    assert_eq!(rt; flush_late(rt, &log, &text), Some(ErrorKind::TimedOut));
    log_message(&log.logger(), "c");
    assert_eq!(rt; flush(&log), Some(ErrorKind::StorageFull));
    assert_eq!(rt; flush(&log), None);
    assert_eq!(rt; text.lock(&rt).len(), 26);
    assert_eq!(rt; log.close(), Losses::NONE.and_unwritten(1));
}

#[test]
fn a_flush_waits_for_the_records_before(rt: HostRuntime) {
    expect_flushed(rt);
}

fn kind_of(flushed: io::Result<()>) -> Option<ErrorKind> {
    match flushed {
        Ok(()) => None,
        Err(error) => Some(error.kind()),
    }
}

// Logs ten records while the worker is held up, and ends the log.
fn log_while_held<R: TestHost>(rt: R, log: QueuedLog<R>, text: &Text) -> Losses {
    let held = text.lock(&rt);
    log_often(&log, 10);
    drop(held);
    log.close()
}

fn count_lines(text: &[u8]) -> usize {
    let mut lines = 0usize;
    for byte in text {
        lines = lines.saturating_add(usize::from(*byte == b'\n'));
    }
    lines
}

// One line waits in the queue, and one is in the worker's hand.
fn expect_dropped<R: TestHost>(rt: R) {
    let (page, text) = Page::new(rt, 10).expect(&rt, "memory");
    let queue = NonBlockingBuilder::default().buffered_lines_limit(1);
    let log = start_with(rt, queue, page).expect(&rt, "a log");
    let losses = log_while_held(rt, log, &text);
    let written = count_lines(text.lock(&rt).as_slice());
    assert!(rt; written == 1 || written == 2, "{written}");
    assert_eq!(rt;
        losses,
        Losses::NONE.and_dropped(10usize.saturating_sub(written))
    );
}

#[test]
fn a_lossy_log_counts_what_it_drops(rt: HostRuntime) {
    expect_dropped(rt);
}
