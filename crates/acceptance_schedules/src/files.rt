// Two threads at a boundary of an hourly log in memory.
use crate::expect::{Host, expect_eq};
use crate::lines::{LINES, Lines, count_lines};
use appender_log::LogSink;
use appender_rolling::rolling::{
    Builder, Clock, MakeWriter, RollingFileAppender, RollingWriter, Rotation,
};
use appender_store::store::MemoryFolder;
use log::{Level, Logged, info};
use std::alloc::AllocError;
use std::io::Write;
use std::sync::Wait;
use std::sync::atomic::AtomicU64;
use std::sync::atomic::Ordering::SeqCst;
use std::test::Fail;
use std::thread;

// 2020-02-01 10:01:00, 11:00:00 and 12:00:00.
const START: i64 = 1_580_551_260;

const ELEVEN: i64 = 1_580_554_800;

const TWELVE: i64 = 1_580_558_400;

// A clock that shows 10:01 for a number of readings, and then 11:00 and 12:00 by turns.
#[derive(Drop)]
struct Turning {
    reads: AtomicU64,
    early: u64,
}

impl Clock for Turning {
    ghost now_gives = { λ clock m. Unit {0} };

    fn now(&self) -> i64 {
        let read = self.reads.fetch_add(1, SeqCst);
        if read < self.early {
            START
        } else if read % 2 == 1 {
            ELEVEN
        } else {
            TWELVE
        }
    }
}

type Appender<R> = RollingFileAppender<MemoryFolder, Turning, R>;

// Opens an hourly log in memory, whose clock shows 10:01 for so many readings.
fn open<R: Host>(rt: R, early: u64) -> Appender<R> {
    let builder = Builder::new()
        .rotation(Rotation::HOURLY)
        .filename_prefix(rt.alloc(), "app")
        .expect(&rt, "memory");
    let reads = AtomicU64::new(0);
    match builder.build_in(
        rt,
        rt.alloc(),
        MemoryFolder::new(rt.alloc()),
        Turning { reads, early },
    ) {
        Ok(appender) => appender,
        Err((error, _folder, _clock)) => rt.panic(error),
    }
}

// Writes a line by a writer of its own, and returns whether it was taken.
fn write_one<R: Wait + Drop>(appender: &Appender<R>, line: &[u8]) -> bool {
    match appender.make_writer() {
        Ok(writer) => takes(writer, line),
        Err(_) => false,
    }
}

fn takes(mut writer: impl Write + Drop, line: &[u8]) -> bool {
    writer.write_all(line).is_ok()
}

// Writes the lines of a thread, and returns whether all were taken.
fn write_lines<R: Wait + Drop>(appender: &Appender<R>, thread: usize) -> bool {
    let Some([first, second]) = LINES.get(thread) else {
        return false;
    };
    write_one(appender, first) && write_one(appender, second)
}

// Checks the file of 10:00, and how many lines of each thread the later ones have, in its order and once. If the first look was
// at 12:00, no file begins at 11:00.
fn expect_files<R: Host>(
    rt: R,
    folder: &MemoryFolder,
    early: &[u8],
    lines: &[Lines; 2],
    count: usize,
) {
    expect_eq(&rt, folder.bytes("app.2020-02-01-10"), Some(early));
    let mut text = Vec::new(rt.alloc());
    for name in ["app.2020-02-01-11", "app.2020-02-01-12"] {
        let bytes = folder.bytes(name).unwrap_or(b"");
        text.extend_from_slice(bytes).expect(&rt, "memory");
    }
    let counts = count_lines(&rt, text.as_slice(), lines, false);
    expect_eq(&rt, counts, (count, count));
}

#[test]
fn two_threads_write_at_a_boundary(rt: HostRuntime) -> Result<(), Fail> {
    let appender = open(rt, 1);
    let taken = thread::map_indices(&rt, rt.alloc(), 2, &|thread| write_lines(&appender, thread))?;
    assert!(rt; !taken.contains(&false));
    expect_files(rt, &appender.into_parts().0, b"", &LINES, 2);
    Ok(())
}

// Writes a line by each of two threads, and one by this writer, which they wait for if they have to open a file.
fn write_beside<R: Host>(
    rt: &R,
    appender: &Appender<R>,
    writer: RollingWriter<'_, MemoryFolder, R>,
) -> bool {
    thread::scope(thread::scope_env(), rt, |scope| {
        let Ok(a) = scope.spawn(move || write_one(appender, b"a1|")) else {
            return false;
        };
        let Ok(b) = scope.spawn(move || write_one(appender, b"b1|")) else {
            return false;
        };
        let taken = takes(writer, b"m1|");
        let (of_a, of_b) = (a.join(rt), b.join(rt));
        taken && of_a && of_b
    })
}

// Makes a writer at 10:01, and writes beside it.
fn write_held<R: Host>(rt: &R, appender: &Appender<R>) -> bool {
    match appender.make_writer() {
        Ok(writer) => write_beside(rt, appender, writer),
        Err(_) => false,
    }
}

#[test]
fn a_writer_is_held_across_a_boundary(rt: HostRuntime) {
    let appender = open(rt, 2);
    assert!(rt; write_held(&rt, &appender));
    expect_files(rt, &appender.into_parts().0, b"m1|", &LINES, 1);
}

// The records of two threads.
static RECORDS: [Lines; 2] = [[b"[INFO  db] 0\n", b""], [b"[INFO  db] 1\n", b""]];

fn log_one<R: Host>(rt: R, sink: &LogSink<'_, Appender<R>, R>, number: usize) {
    let logger = Logged::new(rt, Level::Info, sink);
    info!(logger; target: "db", "{number}");
}

// Logs by two threads, and returns how many records were lost.
fn log_by_two<R: Host>(rt: R, appender: &Appender<R>) -> Result<u64, AllocError> {
    let sink = LogSink::new(rt, appender);
    thread::map_indices(&rt, rt.alloc(), 2, &|number| log_one(rt, &sink, number))?;
    Ok(sink.lost())
}

#[test]
fn two_threads_log_at_a_boundary(rt: HostRuntime) -> Result<(), Fail> {
    let appender = open(rt, 1);
    expect_eq(&rt, log_by_two(rt, &appender)?, 0);
    expect_files(rt, &appender.into_parts().0, b"", &RECORDS, 1);
    Ok(())
}
