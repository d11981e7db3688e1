// Records with a time.
use super::Next::{CannotBeMade, Fails, HasRoom, Pauses, Takes, TakesFirst};
use super::{
    Host, LINE, Next, Page, PageWriter, TEN, expect_lost, expect_page, expect_two, log_left_out,
    log_often,
};
use appender_log::{LogSink, write_record, write_record_at};
use appender_runtime::clock::{Clock, SystemClock};
use appender_runtime::make_writer::MakeWriter;
use log::{Level, Log, Logged, Record};
use std::alloc::AllocError;
use std::io::ErrorKind::{StorageFull, WriteZero};
use std::io::{ErrorKind, Write};
use std::process::Abort;
use std::sync::atomic::AtomicU64;
use std::sync::atomic::Ordering::SeqCst;
use std::test::Fail;
use std::thread::Threads;
use std::{io, thread, time};

// A clock that stands still.
#[derive(Clone, Copy, Debug)]
pub(crate) struct At(pub(crate) i128);

impl Clock for At {
    ghost now_gives = { λ clock m. Unit {0} };

    fn now(&self) -> i64 {
        i64::try_from(self.0.div_euclid(1_000_000_000)).unwrap_or(i64::MIN)
    }

    fn now_nanos(&self) -> i128 {
        self.0
    }
}

// Nanoseconds since the epoch, and their text, as GNU `date` prints it.
static TIMES: [(i128, &str); 21] = [
    (0, "1970-01-01T00:00:00.000000Z"),
    (999, "1970-01-01T00:00:00.000000Z"),
    (1_000, "1970-01-01T00:00:00.000001Z"),
    (1_795_773_600_000_000_000, "2026-11-27T10:00:00.000000Z"),
    (1_795_773_600_999_999_000, "2026-11-27T10:00:00.999999Z"),
    (1_795_773_600_999_999_999, "2026-11-27T10:00:00.999999Z"),
    (1_767_323_045_000_006_789, "2026-01-02T03:04:05.000006Z"),
    (1_709_251_199_999_999_999, "2024-02-29T23:59:59.999999Z"),
    (951_827_696_789_012_345, "2000-02-29T12:34:56.789012Z"),
    (-2_203_891_200_000_000_000, "1900-03-01T00:00:00.000000Z"),
    (-1, "1969-12-31T23:59:59.999999Z"),
    (-1_000, "1969-12-31T23:59:59.999999Z"),
    (-1_001, "1969-12-31T23:59:59.999998Z"),
    (-1_999_998_500, "1969-12-31T23:59:58.000001Z"),
    // The first and the last time that is written, and those just outside.
    (-62_135_596_800_000_000_000, "0001-01-01T00:00:00.000000Z"),
    (-62_135_596_800_000_000_001, "-"),
    (253_370_764_799_999_999_999, "9998-12-31T23:59:59.999999Z"),
    (253_370_764_800_000_000_000, "-"),
    // A clock that can't be read.
    (-9_223_372_036_854_775_808_000_000_000, "-"),
    (i128::MIN, "-"),
    (i128::MAX, "-"),
];

// Logs a record at a time, and checks its line, which is one write.
fn expect_time<R: Host>(rt: R, nanos: i128, time: &str) {
    let page = Page::new(rt.alloc());
    let sink = LogSink::new(rt, &page).timestamps(At(nanos));
    expect_lost(rt, &page, &sink, Takes, 0);
    let line = format!(in rt.alloc(); "{time} {LINE}|").expect(&rt, "memory");
    expect_page(&rt, &page, line.as_str());
}

fn expect_each_time<R: Host>(rt: R) {
    for (nanos, time) in &TIMES {
        expect_time(rt, *nanos, *time);
    }
}

#[test]
fn a_time_is_written_in_microseconds_of_utc(rt: HostRuntime) {
    expect_each_time(rt);
}

// The time of a clock, what writers do at two records with it, how many are lost then, and what is written. In the text
// `@` is the line of a record without its newline, and `%` is the time TEN without its `Z`.
static LOST_WITH_TIMES: [(i128, Next, Next, u64, &str); 11] = [
    (TEN, Fails, Takes, 1, "%Z @\n|"),
    (TEN, TakesFirst(0), Takes, 1, "|%Z @\n|"),
    (TEN, HasRoom(1), Takes, 1, "2|\n|%Z @\n|"),
    (TEN, HasRoom(28), Takes, 1, "%Z |\n|%Z @\n|"),
    (TEN, HasRoom(50), HasRoom(1), 2, "%Z @|\n|"),
    (TEN, HasRoom(51), Takes, 0, "%Z @\n|%Z @\n|"),
    (TEN, TakesFirst(26), Takes, 0, "%|Z @\n|%Z @\n|"),
    (TEN, Pauses(27, 100), Pauses(0, 100), 0, "%Z| @\n|%Z @\n|"),
    (TEN, Pauses(27, 101), Pauses(0, 100), 1, "%Z|\n|%Z @\n|"),
    (i128::MIN, HasRoom(1), Takes, 1, "-|\n|- @\n|"),
    (i128::MAX, HasRoom(24), HasRoom(26), 1, "- @|\n|- @\n|"),
];

fn expect_each_with_times<R: Host>(rt: R) {
    for (nanos, first, second, lost, text) in &LOST_WITH_TIMES {
        let page = Page::new(rt.alloc());
        let sink = LogSink::new(rt, &page).timestamps(At(*nanos));
        expect_two(rt, &page, &sink, (*first, *second, *lost, *text));
    }
}

#[test]
fn a_record_with_a_time_is_ended_and_counted_as_one_without(rt: HostRuntime) {
    expect_each_with_times(rt);
}

// A clock that counts its readings: the first one is the epoch, and each further one a microsecond later. Other
// threads run while it is read.
#[derive(Drop)]
struct Counting {
    reads: AtomicU64,
}

impl Counting {
    fn new() -> Counting {
        Counting {
            reads: AtomicU64::new(0),
        }
    }
}

impl Clock for Counting {
    ghost now_gives = { λ clock m. Unit {0} };

    fn now(&self) -> i64 {
        i64::try_from(self.now_nanos().div_euclid(1_000_000_000)).unwrap_or(i64::MIN)
    }

    fn now_nanos(&self) -> i128 {
        let read = self.reads.fetch_add(1, SeqCst);
        thread::yield_now();
        i128::from(read) * 1_000
    }
}

// Logs records, one of them without a writer and one of a level that the logger leaves out. Only those that are
// written read the clock.
fn expect_reads<R: Host>(rt: R) {
    let page = Page::new(rt.alloc());
    let clock = Counting::new();
    let sink = LogSink::new(rt, &page).timestamps(&clock);
    assert!(rt; clock.reads.load(SeqCst) == 0);
    expect_lost(rt, &page, &sink, TakesFirst(30), 0);
    expect_lost(rt, &page, &sink, CannotBeMade, 1);
    expect_lost(rt, &page, &sink, Takes, 1);
    log_left_out(&Logged::new(rt, Level::Warn, &sink));
    sink.flush();
    assert!(rt; clock.reads.load(SeqCst) == 2);
    let wanted = "1970-01-01T00:00:00.000000Z [I|NFO  db] read rows=3\n|\
        1970-01-01T00:00:00.000001Z @\n|,";
    expect_page(&rt, &page, wanted);
}

#[test]
fn the_clock_is_read_once_for_each_record_that_is_written(rt: HostRuntime) {
    expect_reads(rt);
}

// A sink that is given a clock keeps its count, and what it knows of its last record.
fn expect_kept<R: Host>(rt: R) {
    let page = Page::new(rt.alloc());
    let sink = LogSink::new(rt, &page);
    expect_lost(rt, &page, &sink, HasRoom(5), 1);
    let sink = sink.timestamps(At(0));
    expect_lost(rt, &page, &sink, HasRoom(4), 2);
    let sink = sink.timestamps(At(TEN));
    expect_lost(rt, &page, &sink, Takes, 2);
    let shown = format!(in rt.alloc(); "{sink:?}").expect(&rt, "memory");
    assert!(rt; shown.as_str() == "LogSink { .. }");
    expect_page(&rt, &page, "[INFO|\n|197|\n|%Z @\n|");
}

#[test]
fn a_clock_is_given_to_a_sink_that_has_written(rt: HostRuntime) {
    expect_kept(rt);
}

// The public calls with a writer of one's own.
fn expect_written<R: Host>(rt: R, next: Next, wanted: Option<ErrorKind>, text: &str) {
    let page = Page::new(rt.alloc());
    page.next.set(next);
    let record = Record::builder().target("db").args("read").build();
    let first = write_record(rt.alloc(), &mut PageWriter(&page), &record);
    let second = write_record_at(rt.alloc(), &mut PageWriter(&page), TEN, &record);
    assert!(rt; first.is_ok());
    let kind = second.err().map(|error| error.kind());
    assert!(rt; kind == wanted, "{next:?}: {kind:?} instead of {wanted:?}");
    expect_page(&rt, &page, text);
}

#[test]
fn a_record_is_written_with_and_without_a_time(rt: HostRuntime) {
    expect_written(rt, Takes, None, "[INFO  db] read\n|%Z [INFO  db] read\n|");
    expect_written(rt, HasRoom(16), Some(StorageFull), "[INFO  db] read\n|");
    expect_written(rt, HasRoom(46), Some(WriteZero), "[INFO  db] read\n|%Z [I|");
}

// The time of the system's clock, to the nanosecond, which is in this century.
#[test]
fn a_record_has_the_time_of_the_system(rt: HostRuntime) -> Result<(), Fail> {
    let before = time::Clock::since_1970(&rt)?.as_nanos() as i128;
    let now = SystemClock::new(rt).now_nanos();
    let after = time::Clock::since_1970(&rt)?.as_nanos() as i128;
    assert!(rt; before <= now && now <= after, "{before} {now} {after}");
    let page = Page::new(rt.alloc());
    let sink = LogSink::new(rt, &page).timestamps(SystemClock::new(rt));
    expect_lost(rt, &page, &sink, Takes, 0);
    let Ok(text) = page.text.try_borrow() else {
        rt.panic("the text is borrowed");
    };
    let text = str::from_utf8(text.as_slice()).unwrap_or("");
    assert!(rt; text.len() == LINE.len() + 29, "{text:?}");
    assert!(rt;
        text.starts_with("20") && text.ends_with("Z [INFO  db] read rows=3\n|"),
        "{text:?}"
    );
    Ok(())
}

// Counts the lines whose times are not in order: those of a counting clock are 0, 1, 2 ..
#[derive(Drop)]
struct InOrder {
    lines: AtomicU64,
    wrong: AtomicU64,
}

#[derive(Drop)]
struct InOrderWriter<'a>(&'a InOrder);

impl<'a> MakeWriter<'a> for InOrder {
    type Writer = InOrderWriter<'a>;

    fn make_writer(&'a self) -> Result<InOrderWriter<'a>, AllocError> {
        Ok(InOrderWriter(self))
    }
}

// The microseconds of a line's time.
fn micros(line: &[u8]) -> Option<u64> {
    str::from_utf8(line.get(20..26)?).ok()?.parse().ok()
}

impl Write for InOrderWriter<'_> {
    fn write(&mut self, buf: &[u8]) -> io::Result<usize> {
        let line = self.0.lines.fetch_add(1, SeqCst);
        if micros(buf) != Some(line) {
            self.0.wrong.fetch_add(1, SeqCst);
        }
        Ok(buf.len())
    }

    fn flush(&mut self) -> io::Result<()> {
        Ok(())
    }
}

// Logs so many records by each of so many threads. The times in the log must rise, since the clock does.
fn expect_in_order<R: Host + Threads + Sync>(
    rt: R,
    threads: usize,
    records: u32,
) -> Result<(), Fail> {
    let writers = InOrder {
        lines: AtomicU64::new(0),
        wrong: AtomicU64::new(0),
    };
    let sink = LogSink::new(rt, &writers).timestamps(Counting::new());
    thread::map_indices(
        &rt,
        rt.alloc(),
        threads,
        &|_| log_often(&Logged::new(rt, Level::Info, &sink), records),
    )?;
    let wrong = writers.wrong.load(SeqCst);
    assert!(rt; writers.lines.load(SeqCst) == (threads as u64).saturating_mul(u64::from(records)));
    assert!(rt; wrong == 0, "{wrong} lines are not in order");
    Ok(())
}

#[test]
fn times_rise_in_a_log_of_two_threads(rt: HostRuntime) -> Result<(), Fail> {
    expect_in_order(rt, 2, 2)
}

#[test]
fn times_rise_in_a_long_log_of_threads(rt: HostRuntime) -> Result<(), Fail> {
    expect_in_order(rt, 4, 100)
}
