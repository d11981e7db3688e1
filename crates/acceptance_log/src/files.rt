// Records by ten threads in an hourly log over a folder in memory.
use appender_log::LogSink;
use appender_rolling::rolling::{Builder, Clock, RollingFileAppender, Rotation};
use appender_store::store::MemoryFolder;
use log::{Level, Log, Logged, info};
use std::process::Abort;
use std::sync::Wait;
use std::sync::atomic::AtomicU64;
use std::sync::atomic::Ordering::SeqCst;
use std::thread;
use std::thread::Threads;

// What the tests ask of their runtime.
trait Host: AllocGlobal + Threads + Wait + Abort + Copy + Drop + Send + Sync {}

impl<R: AllocGlobal + Threads + Wait + Abort + Copy + Drop + Send + Sync> Host for R {}

// A clock that shows 10:01 for so many readings, and then 11:00 and 12:00 of 2020-02-01 by turns.
#[derive(Drop)]
struct Turning {
    reads: AtomicU64,
    early: u64,
}

impl Clock for Turning {
    ghost now_gives = { λ clock m. Unit {0} };

    fn now(&self) -> i64 {
        match self.reads.fetch_add(1, SeqCst) {
            read if read < self.early => 1_580_551_260,
            read if read % 2 == 1 => 1_580_554_800,
            _ => 1_580_558_400,
        }
    }
}

type Appender<R> = RollingFileAppender<MemoryFolder, Turning, R>;

// Opens the log over a folder.
fn open<R: Host>(rt: R, folder: MemoryFolder, early: u64) -> Appender<R> {
    let clock = Turning {
        reads: AtomicU64::new(0),
        early,
    };
    let builder = Builder::new().rotation(Rotation::HOURLY);
    match builder.build_in(rt, rt.alloc(), folder, clock) {
        Ok(appender) => appender,
        Err((error, _folder, _clock)) => rt.panic(error),
    }
}

// The records of ten threads.
const ROWS: [&str; 10] = [
    "[INFO  db] row=0",
    "[INFO  db] row=1",
    "[INFO  db] row=2",
    "[INFO  db] row=3",
    "[INFO  db] row=4",
    "[INFO  db] row=5",
    "[INFO  db] row=6",
    "[INFO  db] row=7",
    "[INFO  db] row=8",
    "[INFO  db] row=9",
];

// Logs a record so often.
fn log_row(logger: &impl Log, row: usize, times: usize) {
    for _ in 0..times {
        info!(logger; target: "db", "row={row}");
    }
}

// Ten threads log a record each so often by one sink. Returns how many records it loses.
fn log_in_threads<R: Host>(rt: R, appender: &Appender<R>, times: usize) -> u64 {
    let sink = LogSink::new(rt, appender);
    thread::map_indices(
        &rt,
        rt.alloc(),
        ROWS.len(),
        &|row| { log_row(&Logged::new(rt, Level::Info, &sink), row, times) },
    )
    .expect(&rt, "memory");
    sink.lost()
}

// How often a file has this record as a line. Each other line is another record, or the beginning of one.
fn count_in(rt: &impl Abort, file: &str, row: &str) -> usize {
    assert!(rt; file.lines().all(is_of_rows), "{file}");
    file.lines().filter(|line| *line == row).count()
}

fn is_of_rows(line: &str) -> bool {
    ROWS.contains(&line) || !line.is_empty() && "[INFO  db] row=".starts_with(line)
}

// What the files hold of three hours.
fn texts_of(folder: &MemoryFolder) -> [&str; 3] {
    ["2020-02-01-10", "2020-02-01-11", "2020-02-01-12"].map(|name| {
        str::from_utf8(folder.bytes(name).unwrap_or(b"")).unwrap_or("(no text)")
    })
}

// Logs over a folder, and checks how many records are lost. Each of the others is whole, and there once. Returns the folder.
fn check<R: Host>(
    rt: R,
    folder: MemoryFolder,
    early: u64,
    times: usize,
    wanted: u64,
) -> MemoryFolder {
    let appender = open(rt, folder, early);
    let lost = log_in_threads(rt, &appender, times);
    assert!(rt; lost == wanted, "{lost}");
    let folder = appender.into_parts().0;
    let mut whole = 0usize;
    for row in ROWS {
        let mut count = 0usize;
        for text in texts_of(&folder) {
            count = count.saturating_add(count_in(&rt, text, row));
        }
        assert!(rt; count <= times, "{row}");
        whole = whole.saturating_add(count);
    }
    let logged = times.saturating_mul(ROWS.len()) as u64;
    assert!(rt; whole as u64 == logged.saturating_sub(lost), "{whole}");
    folder
}

#[test]
fn no_record_is_in_two_files(rt: HostRuntime) {
    let folder = check(rt, MemoryFolder::new(rt.alloc()), 1, 1, 0);
    assert!(rt; folder.bytes("2020-02-01-10") == Some(b"".as_slice()));
}

// The calls that fail. Each costs one record: a record takes four calls, and one more after one that was cut
// short.
static FAILING: [u64; 6] = [50, 101, 152, 203, 254, 305];

// An append takes five bytes at most, and some fail.
#[test]
fn the_pieces_of_a_record_are_together(rt: HostRuntime) {
    let mut folder = MemoryFolder::new(rt.alloc());
    for call in 1..=1_400u64 {
        folder.short_append(call, 5).expect(&rt, "memory");
    }
    for call in &FAILING {
        folder.fail_call(*call).expect(&rt, "memory");
    }
    check(rt, folder, u64::MAX, 30, FAILING.len() as u64);
}
