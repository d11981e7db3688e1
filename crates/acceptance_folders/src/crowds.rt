// Eight threads that write to one log in a directory.

use crate::expect::{expect_eq, expect_eq_of};
use crate::scene::{
    AllocAndAbort, FilesAndAbort, TestClock, WaitAndAbort, Way, clear, expect_target, folder_at,
    fresh, hourly_log, names_in, open_appender, path_of, text_of,
};
use appender_names::names::Names;
use appender_rolling::rolling::{Builder, MakeWriter, RollingFileAppender};
use appender_store::store::Folder;
use std::io::Write;
use std::process::Abort;
use std::sync::Wait;
use std::thread::Threads;
use std::{io, thread};

const THREADS: usize = 8;

// What a crowd writes: the number of lines of each thread, and the log.
struct Crowd {
    lines: i64,
    // The seconds by which the clock goes on at each reading.
    step: i64,
    // How many files are kept; 0 is all.
    max: usize,
    // How many bytes a file takes before the next one begins; 0 is no limit.
    limit: u64,
    // How many files are left.
    files: usize,
}

// A hundred hours go by.
static HOURS: Crowd = Crowd {
    lines: 51,
    step: 900,
    max: 5,
    limit: 0,
    files: 5,
};

// Within a moment files of 16 KiB fill up. The lines have 155,920 bytes, and a full file has 16,384 to 16,607 of them.
static FULL: Crowd = Crowd {
    lines: 700,
    step: 0,
    max: 0,
    limit: 16_384,
    files: 10,
};

// The longest line: `0 699 1580551260 1580551260` and a newline.
const LONGEST: u64 = 28;

type Appender<'a, S, R> = RollingFileAppender<S, &'a TestClock, R>;

// Writes a line of a thread. It says which thread wrote it, how many that had written, and what the
// clock was to return before its writer was made and while it was held.
fn write_line<S: Folder, R: AllocGlobal + Wait + Drop>(
    rt: &R,
    appender: &Appender<'_, S, R>,
    clock: &TestClock,
    thread: usize,
    number: i64,
) -> io::Result<()> {
    let before = clock.next();
    let mut writer = appender.make_writer()?;
    let after = clock.next();
    let line = format!(in rt.alloc(); "{thread} {number} {before} {after}\n")?;
    writer.write_all(line.as_bytes())
}

// Writes these lines of one thread, and returns whether all were taken.
fn write_lines<S: Folder, R: AllocGlobal + Wait + Drop>(
    rt: &R,
    appender: &Appender<'_, S, R>,
    clock: &TestClock,
    thread: usize,
    numbers: (i64, i64),
) -> bool {
    for number in numbers.0..numbers.1 {
        if write_line(rt, appender, clock, thread, number).is_err() {
            return false;
        }
    }
    true
}

// Writes these lines of each thread, all of which are taken.
fn write_in_threads<S: Folder + Send, R: AllocGlobal + Threads + Wait + Abort + Sync + Drop>(
    rt: &R,
    appender: &Appender<'_, S, R>,
    clock: &TestClock,
    numbers: (i64, i64),
)
where
    S::File: Send,
{
    let wrote = thread::map_indices(
        rt,
        rt.alloc(),
        THREADS,
        &|i| write_lines(rt, appender, clock, i, numbers),
    );
    let wrote = wrote.expect(rt, "memory");
    expect_eq(rt, wrote.contains(&false), false);
}

// Reads the four numbers of a line.
fn read_line(rt: &impl Abort, text: &str) -> [i64; 4] {
    let mut words = text.split(' ');
    let mut numbers = [0i64; 4];
    for number in &mut numbers {
        *number = words
            .next()
            .and_then(|word| word.parse().ok())
            .expect(rt, "a number");
    }
    expect_eq(rt, words.next(), None);
    numbers
}

// Checks a line of the file of an hour: it is whole, was written in that hour, and follows the one before it
// of its thread.
fn check_line(rt: &impl Abort, hour: i64, text: &str, last: &mut [i64; THREADS]) {
    let [thread, number, before, after] = read_line(rt, text);
    let is_timely = before < hour.saturating_add(3_600) && hour <= after;
    expect_eq_of(rt, (text, hour), is_timely, true);
    let last = usize::try_from(thread)
        .ok()
        .and_then(|thread| last.get_mut(thread))
        .expect(rt, "a thread");
    let follows = *last < 0 || last.saturating_add(1) == number;
    expect_eq_of(rt, (text, *last), follows, true);
    *last = number;
}

impl Crowd {
    // The log, with a link to the newest file.
    fn builder(&self, rt: &impl AllocAndAbort) -> Builder {
        let builder = hourly_log(rt).max_log_files(self.max);
        let builder = builder.latest_symlink(rt.alloc(), "latest.log");
        builder.expect(rt, "memory").max_file_bytes(self.limit)
    }

    // Writes the log, and returns its folder. The last line of each thread is written once all threads have written the
    // others.
    fn write<S: Folder + Send, R: WaitAndAbort + Threads + Sync>(&self, rt: &R, folder: S) -> S
    where
        S::File: Send,
    {
        let clock = TestClock::new(Way::Steps(self.step));
        let appender = open_appender(rt, &self.builder(rt), folder, &clock);
        let last = self.lines.saturating_sub(1);
        write_in_threads(rt, &appender, &clock, (0, last));
        write_in_threads(rt, &appender, &clock, (last, self.lines));
        appender.into_parts().0
    }

    // Checks the length of a file: it was full when the next one began. While the line that filled it was written,
    // each other thread may have had a writer.
    fn check_length(&self, rt: &impl Abort, name: &str, length: u64, is_last: bool) {
        if self.limit > 0 {
            expect_eq_of(rt, name, is_last || length >= self.limit, true);
            let most = self.limit.saturating_add(8 * LONGEST);
            expect_eq_of(rt, name, length < most, true);
        }
    }

    // Checks the files of these names, which end with the last line of each thread.
    fn check_files(
        &self,
        rt: &impl FilesAndAbort,
        directory: &str,
        names: &Names,
        found: &[String],
    ) {
        let mut last = [-1i64; THREADS];
        for name in found {
            let hour = names.read(name).expect(rt, "a name that is a date");
            let text = text_of(rt, directory, name);
            let is_last = Some(name) == found.last();
            self.check_length(rt, name, text.len() as u64, is_last);
            for line in text.lines() {
                check_line(rt, hour, line, &mut last);
            }
        }
        expect_eq(rt, last, [self.lines.saturating_sub(1); THREADS]);
    }

    // Checks the files and the link, whose name is last. Before the first file there was no link to remove.
    fn check(&self, rt: &impl FilesAndAbort, directory: &str, failures: u64) {
        expect_eq(rt, failures, 1);
        let mut found = names_in(rt, directory);
        let link = found.pop().expect(rt, "a link");
        expect_eq(rt, (link.as_str(), found.len()), ("latest.log", self.files));
        let names = self.builder(rt).names(rt.alloc()).expect(rt, "names");
        self.check_files(rt, directory, &names, found.as_slice());
        let newest = found.last().expect(rt, "a file");
        expect_target(rt, directory, "latest.log", newest.as_str());
        clear(rt, directory);
    }
}

#[test]
fn no_line_of_a_hundred_hours_is_lost(rt: HostRuntime) {
    let directory = fresh(&rt, path_of(rt, "hours"));
    let folder = HOURS.write(&rt, folder_at(&rt, directory.as_str()));
    HOURS.check(&rt, directory.as_str(), folder.failures());
}

#[test]
fn no_line_of_full_files_is_lost(rt: HostRuntime) {
    let directory = fresh(&rt, path_of(rt, "full"));
    let folder = FULL.write(&rt, folder_at(&rt, directory.as_str()));
    FULL.check(&rt, directory.as_str(), folder.failures());
}
