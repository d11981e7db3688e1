// Threads that share an appender over a folder in memory.

use crate::expect::{expect_eq, expect_eq_of};
use crate::scene::{
    ELEVEN, START, TestClock, WaitAndAbort, Way, expect_bytes, hourly_log, in_memory, open_appender,
};
use appender_rolling::rolling::{Clock, MakeWriter, RollingFileAppender, RollingWriter};
use appender_store::store::{Folder, MemoryFolder};
use std::fmt::Write as _;
use std::io::Write;
use std::process::Abort;
use std::sync::Wait;
use std::sync::atomic::AtomicBool;
use std::sync::atomic::Ordering::SeqCst;
use std::thread::Threads;
use std::time::Duration;
use std::{thread, time};

// Writes a line by a writer of its own, and returns whether all of it was taken.
fn writes<C: Clock, R: Wait + Drop>(
    appender: &RollingFileAppender<MemoryFolder, C, R>,
    line: &str,
) -> bool {
    match appender.make_writer() {
        Ok(mut writer) => writer.write_all(line.as_bytes()).is_ok(),
        Err(_) => false,
    }
}

// What tests with threads ask of their runtime.
trait ThreadHost: WaitAndAbort + Threads + time::Clock + Send + Sync {}

impl<R: WaitAndAbort + Threads + time::Clock + Send + Sync> ThreadHost for R {}

// The lines of ten threads.
const LINES: [&str; 10] = [
    "line 0\n", "line 1\n", "line 2\n", "line 3\n", "line 4\n", "line 5\n", "line 6\n", "line 7\n",
    "line 8\n", "line 9\n",
];

// Checks that these files together hold the ten lines, each once and whole.
fn expect_lines(rt: &impl Abort, files: &[&[u8]]) {
    let mut length = 0usize;
    for file in files {
        length = length.saturating_add(file.len());
    }
    expect_eq(rt, length, 70);
    for line in LINES {
        let mut count = 0usize;
        for file in files {
            let same = file.chunks(7).filter(|chunk| *chunk == line.as_bytes());
            count = count.saturating_add(same.count());
        }
        expect_eq_of(rt, line, count, 1);
    }
}

// Ten threads write a line each to a log over this folder. Checks what the appender shows, and returns the folder.
fn folder_of_ten(
    rt: &impl ThreadHost,
    folder: MemoryFolder,
    way: Way,
    shown: &str,
) -> MemoryFolder {
    let appender = open_appender(rt, &hourly_log(rt), folder, TestClock::new(way));
    let wrote = thread::map_indices(
        rt,
        rt.alloc(),
        LINES.len(),
        &|i| LINES.get(i).is_some_and(|line| writes(&appender, line)),
    );
    let wrote = wrote.expect(rt, "memory");
    expect_eq(rt, wrote.contains(&false), false);
    let text = format!(in rt.alloc(); "{appender:?}").expect(rt, "memory");
    expect_eq(rt, text.as_str(), shown);
    appender.into_parts().0
}

// Checks the files of such a log, all of whose lines are later than the opening. If the first look was at 12:00, no file
// begins at 11:00.
fn expect_files_of_ten(rt: &impl Abort, folder: &MemoryFolder) {
    expect_eq(rt, folder.bytes("app.2020-02-01-10"), Some(b"".as_slice()));
    let eleven = folder.bytes("app.2020-02-01-11").unwrap_or(b"");
    let twelve = folder.bytes("app.2020-02-01-12").unwrap_or(b"");
    expect_lines(rt, &[eleven, twelve]);
}

fn expect_one_file(rt: &impl ThreadHost) {
    // The call after an opening, a switch of two calls, and ten lines fails.
    let mut folder = MemoryFolder::new(rt.alloc());
    folder.fail_call(14).expect(rt, "memory");
    let shown =
        "RollingFileAppender { open_name: \"app.2020-02-01-11\", boundary: Some(1580558400) }";
    let folder = folder_of_ten(rt, folder, Way::Crowds, shown);
    expect_files_of_ten(rt, &folder);
    expect_eq(rt, (folder.failures(), folder.body(2)), (0, None));
}

#[test]
fn ten_threads_begin_one_file(rt: HostRuntime) {
    expect_one_file(&rt);
}

fn expect_latest(rt: &impl ThreadHost) {
    let shown =
        "RollingFileAppender { open_name: \"app.2020-02-01-12\", boundary: Some(1580562000) }";
    let folder = folder_of_ten(rt, MemoryFolder::new(rt.alloc()), Way::Turns, shown);
    expect_files_of_ten(rt, &folder);
}

#[test]
fn the_latest_moment_decides(rt: HostRuntime) {
    expect_latest(&rt);
}

// What a thread does while another one holds a writer.
#[derive(Clone, Copy, Debug)]
enum Deed {
    // Writes `b` by a writer of its own.
    Write,
    // Shows the appender.
    Show,
}

type Appender<'a, R> = RollingFileAppender<MemoryFolder, &'a TestClock, R>;

// Whether the `Debug` text of the appender is one of its two.
fn is_shown<R: WaitAndAbort>(rt: &R, appender: &Appender<'_, R>) -> bool {
    let mut text = String::new(rt.alloc());
    let shown = write!(text, "{appender:?}").is_ok();
    let open =
        "RollingFileAppender { open_name: \"app.2020-02-01-10\", boundary: Some(1580554800) }";
    shown && (text.as_str() == open || text.as_str() == "RollingFileAppender { .. }")
}

// Does it, and then sets the flag. Returns whether it succeeded.
fn does<R: WaitAndAbort>(
    rt: &R,
    appender: &Appender<'_, R>,
    deed: Deed,
    flag: &AtomicBool,
) -> bool {
    let done = match deed {
        Deed::Write => writes(appender, "b"),
        Deed::Show => is_shown(rt, appender),
    };
    flag.store(true, SeqCst);
    done
}

// Writes `a` by this writer once the flag is set, or after so many turns of a millisecond. Returns whether the flag was
// set, and whether the line was taken.
fn write_after<R: ThreadHost>(
    rt: &R,
    mut writer: RollingWriter<'_, MemoryFolder, R>,
    flag: &AtomicBool,
    turns: u32,
) -> (bool, bool) {
    for _ in 0..turns {
        if flag.load(SeqCst) {
            break;
        }
        thread::sleep(rt, Duration::from_millis(1));
    }
    let is_set = flag.load(SeqCst);
    (is_set, writer.write_all(b"a").is_ok())
}

// Does it in another thread while this writer is held. Returns whether that ended before the writer was dropped, and
// whether all succeeded.
fn does_beside<R: ThreadHost>(
    rt: &R,
    appender: &Appender<'_, R>,
    writer: RollingWriter<'_, MemoryFolder, R>,
    deed: Deed,
    turns: u32,
) -> (bool, bool) {
    let done = AtomicBool::new(false);
    let flag = &done;
    thread::scope(thread::scope_env(), rt, |scope| {
        let Ok(other) = scope.spawn(move || does(rt, appender, deed, flag)) else {
            return (false, false);
        };
        let (is_set, wrote) = write_after(rt, writer, flag, turns);
        (is_set, other.join(rt) && wrote)
    })
}

// What is done beside a writer, and at which moment; for how many turns the writer is held at most; whether the other
// thread ends in that time; and the files.
type Row = (
    Deed,
    i64,
    u32,
    bool,
    &'static [(&'static str, &'static str)],
);

#[rattlefmt::skip]
static BESIDE: [Row; 3] = [
    (Deed::Write, START, 10_000, true, &[("app.2020-02-01-10", "ba")]),
    (Deed::Show, START, 10_000, true, &[("app.2020-02-01-10", "a")]),
    // In the next hour a file has to be opened, which waits for the writer.
    (Deed::Write, ELEVEN, 100, false, &[("app.2020-02-01-10", "a"), ("app.2020-02-01-11", "b")]),
];

// Does what a row says beside a writer that is made at 10:01, and returns the log's folder.
fn folder_beside(rt: &impl ThreadHost, (deed, moment, turns, ends, _): &Row) -> MemoryFolder {
    let clock = TestClock::new(Way::Steps(0));
    let appender = in_memory(rt, &clock);
    let writer = appender.make_writer().expect(rt, "a writer");
    clock.set(*moment);
    let done = does_beside(rt, &appender, writer, *deed, *turns);
    expect_eq_of(rt, (*deed, *moment), done, (*ends, true));
    appender.into_parts().0
}

fn expect_beside(rt: &impl ThreadHost) {
    for row in &BESIDE {
        expect_bytes(rt, &folder_beside(rt, row), row.4);
    }
}

#[test]
fn a_writer_keeps_its_file_and_no_other_writer_waits(rt: HostRuntime) {
    expect_beside(&rt);
}
