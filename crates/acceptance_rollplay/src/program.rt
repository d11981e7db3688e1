// Whole scripts, played through memory.
use crate::expect::{expect_eq, expect_eq_of};
use crate::rows::{AROUND_FAULTS, FAULTS, PLAYED, Table, first_row};
use rollplay_core::play::play;
use std::alloc::Global;
use std::io;
use std::io::{Read, Write};
use std::process::Abort;
use std::test::Fail;

// Plays what an input gives, and compares the status and both streams.
fn check_input<I: Read>(
    rt: &impl Abort,
    alloc: Global,
    input: &mut I,
    status: u8,
    output: &str,
    errors: &str,
) {
    let mut printed = Vec::new(alloc);
    let mut told = Vec::new(alloc);
    let answer = play(alloc, input, &mut printed, &mut told);
    expect_eq(rt, told.as_slice(), errors.as_bytes());
    expect_eq_of(rt, errors, printed.as_slice(), output.as_bytes());
    expect_eq_of(rt, (output, errors), answer, status);
}

// The same with a script.
fn check(rt: &impl Abort, alloc: Global, script: &[u8], status: u8, output: &str, errors: &str) {
    let mut input = script;
    check_input(rt, alloc, &mut input, status, output, errors);
}

// The same with each script of a table, and what is printed of it.
pub(crate) fn check_each(rt: &impl Abort, alloc: Global, table: &Table, status: u8) {
    let mut rest = table.text;
    for _ in 0..table.rows {
        let (script, output, behind) = first_row(rest).expect(rt, "a row");
        check(rt, alloc, script.as_bytes(), status, output, "");
        rest = behind;
    }
    expect_eq(rt, rest, "");
}

#[test]
fn plays(rt: HostRuntime) {
    check_each(&rt, rt.alloc(), &PLAYED, 0);
}

// Plays a script with each line of a table in its middle.
fn check_around(
    rt: &impl Abort,
    alloc: Global,
    before: &str,
    table: &Table,
    behind: &str,
) -> Result<(), Fail> {
    let mut rest = table.text;
    for _ in 0..table.rows {
        let (line, output, others) = first_row(rest).expect(rt, "a row");
        let script = format!(in alloc; "{before}{line}{behind}")?;
        check(rt, alloc, script.as_bytes(), 0, output, "");
        rest = others;
    }
    expect_eq(rt, rest, "");
    Ok(())
}

#[test]
fn plays_on_where_a_call_fails(rt: HostRuntime) -> Result<(), Fail> {
    let (before, behind) = AROUND_FAULTS;
    check_around(&rt, rt.alloc(), before, &FAULTS, behind)
}

// Scripts whose log is not opened, and what is printed.
static REFUSED: Table = Table {
    rows: 33,
    text: concat!(
        "rotation hourly\nprefix a/b\nstart 1580551260\n|",
        "init error 5\n|",
        "suffix a\0\nstart 1580551260\n|",
        "init error 5\n|",
        "prefix ..\nstart 1580551260\n|",
        "init error 5\n|",
        // The name is before the moment.
        "prefix /\nstart 253370764800\n|",
        "init error 5\n|",
        "prefix app\nstart 253370764800\n|",
        "init error 4\n|",
        "prefix app\nstart -62135596801\n|",
        "init error 4\n|",
        // The folder is printed, and no step is run.
        "prefix app\nfolder sub\nfile a b\nstart 253370764800\nwrite x\n|",
        "init error 4\nfile a 1 b\nfolder sub\n|",
        "prefix app\nfolder app\nstart 1580551260\nflush\n|",
        "init error 2\nfolder app\n|",
        "prefix app\nlink-at app x\nstart 0\n|",
        "init error 2\nlink app x\n|",
        // Where there is a queue, its counts aren't printed.
        "queue 1 lossy\nprefix app\nfile a b\nstart 253370764800\noffer 1 x\nwork 0\n|",
        "init error 4\nfile a 1 b\n|",
        "queue 0 waiting\nprefix a/b\nstart 0\n|",
        "init error 5\n|",
        // The link has the name of the first file, or one that another file can have, or none of one entry.
        "rotation hourly\nprefix app\nlink app.2020-02-01-11\nstart 1580551260\n|",
        "init error 5\n|",
        "prefix app\nlink app\nstart 0\n|",
        "init error 5\n|",
        "prefix app\nlink ..\nstart 253370764800\n|",
        "init error 5\n|",
        "prefix app\nlink a/b\nstart 0\n|",
        "init error 5\n|",
        "rotation hourly\nprefix app\nlink app.2020-02-01-10\nstart 1580551260\n|",
        "init error 5\n|",
        "rotation daily\nprefix app\nlink app.1970-01-01\nstart 1580551260\n|",
        "init error 5\n|",
        "prefix app\nlink a\0\nstart 0\n|",
        "init error 5\n|",
        "prefix app\nlink .\nstart 0\n|",
        "init error 5\n|",
        "rotation weekly\nstart -62135596801\n|",
        "init error 4\n|",
        // The fifth call of the run makes its link.
        "rotation hourly\nprefix app\nmax 2\nlink latest.log\nfile app.2020-02-01-08 o\nfile app.2020-02-01-09 p\nfail 5\nstart 1580551260\nput 1580551260 a\n|",
        "init error 3\nfile app.2020-02-01-09 1 p\nfile app.2020-02-01-10 0\n|",
        // The moment is looked at before the link's name is compared.
        "rotation daily\nlink 2020-02-01\nstart 253370764800\n|",
        "init error 4\n|",
        // A plain file or a folder under the link's name stays, and the new log file too.
        "rotation hourly\nprefix app\nlink latest.log\nfile latest.log k\nstart 1580551260\n|",
        "init error 3\nfile app.2020-02-01-10 0\nfile latest.log 1 k\n|",
        "prefix app\nlink latest\nfolder latest\nstart 0\n|",
        "init error 3\nfile app 0\nfolder latest\n|",
        // A folder that can't be made.
        "absent\nprefix app\nfail 2\nstart 0\n|",
        "init error 1\n|",
        // What retention removed stays removed.
        "rotation hourly\nprefix app\nmax 1\nfile app.2020-02-01-09 x\nfolder app.2020-02-01-10\nstart 1580551260\n|",
        "init error 2\nfolder app.2020-02-01-10\n|",
        // A limit of bytes under never, looked at after the names and before the moment.
        "rotation never\nbytes 4\nstart 1580551260\n|",
        "init error 7\n|",
        "prefix a/b\nbytes 4\nstart 1580551260\n|",
        "init error 5\n|",
        "bytes 4\nfile a b\nstart 253370764800\n|",
        "init error 7\nfile a 1 b\n|",
        // A link may not have a name with any number.
        "rotation hourly\nprefix app\nbytes 4\nlink app.2020-02-01-11.000002\nstart 1580551260\n|",
        "init error 5\n|",
        // A link that is not made removes no old file by name, and leaves no new one. What was there stays, also if it
        // is empty.
        "rotation hourly\nprefix app\nmax 2\nby-name\nlink latest.log\nfile app.2020-02-01-08 o\nfile app.2020-02-01-09 p\nfile latest.log q\nstart 1580551260\n|",
        "init error 3\nfile app.2020-02-01-08 1 o\nfile app.2020-02-01-09 1 p\nfile latest.log 1 q\n|",
        "rotation hourly\nprefix app\nmax 2\nby-name\nlink latest.log\nfile app.2020-02-01-10\nfile latest.log q\nstart 1580551260\n|",
        "init error 3\nfile app.2020-02-01-10 0\nfile latest.log 1 q\n|",
        "rotation hourly\nprefix app\nmax 2\nby-name\nlink latest.log\nfile app.2020-02-01-10 x\nfile latest.log q\nstart 1580551260\n|",
        "init error 3\nfile app.2020-02-01-10 1 x\nfile latest.log 1 q\n|",
    ),
};

#[test]
fn reports_why_nothing_is_opened(rt: HostRuntime) {
    check_each(&rt, rt.alloc(), &REFUSED, 1);
}

// Scripts and their first faulty lines.
static FAULTY: Table = Table {
    rows: 167,
    text: concat!(
        // No `start`.
        "|1|",
        "prefix app\n|2|",
        "prefix app\nfile a|3|",
        // The order of lines.
        "start 0\nstart 0\n|2|",
        "see 0\nstart 0\n|1|",
        "prefix app\nflush\nstart 0\n|2|",
        "start 0\nprefix app\n|2|",
        "start 0\nflush\nfile a x\nflush\n|3|",
        "start 0\nrotation never\n|2|",
        // The first of several.
        "prefix app\nrotation yearly\nnonsense\n|2|",
        "file a x\nfile a y\nrotation yearly\n|2|",
        "start 0\nwrite \\x\nprefix app\n|2|",
        "start 0\nflush\nflush\nflush\nflush\nflush\nflush\nflush\nflush\nflush\nflush\nsync\nsync\n|12|",
        // Words and the spaces between them.
        "rotation yearly|1|",
        "rotation Hourly\nstart 0\n|1|",
        "rotation hour\nstart 0\n|1|",
        "rotation\nstart 0\n|1|",
        "rotation  hourly\nstart 0\n|1|",
        "rotation hourly \nstart 0\n|1|",
        "rotation hourly daily\nstart 0\n|1|",
        " start 0\n|1|",
        "start 0 \n|1|",
        "start\t0\n|1|",
        "start 0\r\n|1|",
        "START 0\n|1|",
        "prefixes app\nstart 0\n|1|",
        "\u{feff}start 0\n|1|",
        "start 0\nflush \n|2|",
        "start 0\nflush now\n|2|",
        "start 0\nflush\r\n|2|",
        "start 0\nput\n|2|",
        "start 0\nput  0 a\n|2|",
        "start 0\nput a\n|2|",
        "start 0\nsee\n|2|",
        "start 0\nsee 0 \n|2|",
        "start 0\nsee 0 0\n|2|",
        // Empty lines.
        "\nstart 0\n|1|",
        "prefix app\n\nstart 0\n|2|",
        "start 0\n\n|2|",
        // Escapes.
        "start 0\nwrite a\\x\n|2|",
        "start 0\nwrite a\\\n|2|",
        "start 0\nput 0 \\\\\\\n|2|",
        "start 0\nwrite \\ \n|2|",
        "start 0\nwrite \\\u{e4}\n|2|",
        "prefix \\t\nstart 0\n|1|",
        "suffix \\N\nstart 0\n|1|",
        "file a \\0\nstart 0\n|1|",
        // Numbers.
        "start\n|1|",
        "start \n|1|",
        "start +5\n|1|",
        "start -0\n|1|",
        "start -00\n|1|",
        "start -\n|1|",
        "start --5\n|1|",
        "start 5-\n|1|",
        "start 1_0\n|1|",
        "start 0x5\n|1|",
        "start 1.0\n|1|",
        "start \u{664}\n|1|",
        "start 9223372036854775808\n|1|",
        "start -9223372036854775809\n|1|",
        "max\nstart 0\n|1|",
        "max +2\nstart 0\n|1|",
        "max -2\nstart 0\n|1|",
        "max -0\nstart 0\n|1|",
        "max 2 \nstart 0\n|1|",
        "max two\nstart 0\n|1|",
        "max 18446744073709551616\nstart 0\n|1|",
        "bytes\nstart 0\n|1|",
        "bytes -1\nstart 0\n|1|",
        "bytes 4 \nstart 0\n|1|",
        "bytes 18446744073709551616\nstart 0\n|1|",
        "start 0\nbytes 4\n|2|",
        "start 0\nmax 2\n|2|",
        "created\nstart 0\n|1|",
        "created None\nstart 0\n|1|",
        "created -0\nstart 0\n|1|",
        "created +1\nstart 0\n|1|",
        "created 170141183460469231731687303715884105728\nstart 0\n|1|",
        "created none none\nstart 0\n|1|",
        "start 0\ncreated none\n|2|",
        "fail\nstart 0\n|1|",
        "fail 0\nstart 0\n|1|",
        "fail 00\nstart 0\n|1|",
        "fail -1\nstart 0\n|1|",
        "fail +1\nstart 0\n|1|",
        "fail 18446744073709551616\nstart 0\n|1|",
        "fail 1 1\nstart 0\n|1|",
        "start 0\nfail 1\n|2|",
        "short 1\nstart 0\n|1|",
        "short 0 1\nstart 0\n|1|",
        "short 1 -1\nstart 0\n|1|",
        "short 1 18446744073709551616\nstart 0\n|1|",
        "short 1 1 \nstart 0\n|1|",
        "start 0\nshort 1 1\n|2|",
        // The folder that isn't there.
        "prefix app\nabsent\nstart 0\n|2|",
        "absent\nabsent\nstart 0\n|2|",
        "absent \nstart 0\n|1|",
        "absent now\nstart 0\n|1|",
        "start 0\nabsent\n|2|",
        // Links.
        "link \\x\nstart 0\n|1|",
        "start 0\nlink a\n|2|",
        "link-at a\nstart 0\n|1|",
        "link-at a \nstart 0\n|1|",
        "link-at a b c\nstart 0\n|1|",
        "link-at  a b\nstart 0\n|1|",
        "link-at .. b\nstart 0\n|1|",
        "link-at a b\nlink-at a c\nstart 0\n|2|",
        // Names.
        "file\nstart 0\n|1|",
        "file  x\nstart 0\n|1|",
        "file a/b x\nstart 0\n|1|",
        "file . x\nstart 0\n|1|",
        "file .. x\nstart 0\n|1|",
        "file a\0b x\nstart 0\n|1|",
        "folder\nstart 0\n|1|",
        "folder a \nstart 0\n|1|",
        "folder a b\nstart 0\n|1|",
        "folder /\nstart 0\n|1|",
        "folder a\nfile a x\nstart 0\n|2|",
        "file a x\nfile b x\nfolder a\nstart 0\n|3|",
        // Steps of the other kind.
        "start 0\noffer 1 a\n|2|",
        "start 0\nshut\n|2|",
        "start 0\nadd\n|2|",
        "start 0\ndrop\n|2|",
        "start 0\nwork 0\n|2|",
        "queue 1 lossy\nstart 0\nsee 0\n|3|",
        "queue 1 lossy\nstart 0\nput 0 a\n|3|",
        "queue 1 waiting\nstart 0\nwrite a\n|3|",
        "queue 1 waiting\nstart 0\nflush\n|3|",
        "start 0\nflush\nshut\nflush\n|3|",
        "queue 1 lossy\nstart 0\nshut\nflush\nshut\n|4|",
        // Where `queue` and its steps may be.
        "start 0\nqueue 1 lossy\n|2|",
        "queue 1 lossy\nstart 0\nqueue 1 lossy\n|3|",
        "queue 1 lossy\nabsent\nstart 0\n|2|",
        "queue 1 lossy\nshut\nstart 0\n|2|",
        "queue 1 lossy\nwork 0\nstart 0\n|2|",
        "queue 1 lossy\noffer 1 a\nstart 0\n|2|",
        "queue 1 lossy\n|2|",
        // What is after their first words.
        "queue\nstart 0\n|1|",
        "queue 1\nstart 0\n|1|",
        "queue 1 \nstart 0\n|1|",
        "queue lossy\nstart 0\n|1|",
        "queue 1 both\nstart 0\n|1|",
        "queue 1 Lossy\nstart 0\n|1|",
        "queue 1 lossy \nstart 0\n|1|",
        "queue 1 lossy waiting\nstart 0\n|1|",
        "queue  1 lossy\nstart 0\n|1|",
        "queue 1  lossy\nstart 0\n|1|",
        "queue -1 lossy\nstart 0\n|1|",
        "queue +1 lossy\nstart 0\n|1|",
        "queue 18446744073709551616 lossy\nstart 0\n|1|",
        "queues 1 lossy\nstart 0\n|1|",
        "queue 1 lossy\nstart 0\noffer\n|3|",
        "queue 1 lossy\nstart 0\noffer x a\n|3|",
        "queue 1 lossy\nstart 0\noffer  1 a\n|3|",
        "queue 1 lossy\nstart 0\noffer -1 a\n|3|",
        "queue 1 lossy\nstart 0\noffer +1 a\n|3|",
        "queue 1 lossy\nstart 0\noffer 18446744073709551616 a\n|3|",
        "queue 1 lossy\nstart 0\noffer 1 \\x\n|3|",
        "queue 1 lossy\nstart 0\nwork\n|3|",
        "queue 1 lossy\nstart 0\nwork x\n|3|",
        "queue 1 lossy\nstart 0\nwork 0 \n|3|",
        "queue 1 lossy\nstart 0\nwork -0\n|3|",
        "queue 1 lossy\nstart 0\nwork 9223372036854775808\n|3|",
        "queue 1 lossy\nstart 0\nadd 1\n|3|",
        "queue 1 lossy\nstart 0\ndrop 1\n|3|",
        "queue 1 lossy\nstart 0\nshut \n|3|",
    ),
};

fn check_faulty(rt: &impl Abort, alloc: Global, table: &Table) -> Result<(), Fail> {
    let mut rest = table.text;
    for _ in 0..table.rows {
        let (script, line, behind) = first_row(rest).expect(rt, "a row");
        let told = format!(in alloc; "line {line}: fault\n")?;
        check(rt, alloc, script.as_bytes(), 2, "", told.as_str());
        rest = behind;
    }
    expect_eq(rt, rest, "");
    Ok(())
}

#[test]
fn reports_the_first_faulty_line(rt: HostRuntime) -> Result<(), Fail> {
    check_faulty(&rt, rt.alloc(), &FAULTY)
}

// The longest script that is taken, in bytes.
const LONGEST: usize = 1_048_576;

// A script of that many bytes, which sets a long prefix and then another.
fn long_script(rt: &impl Abort, alloc: Global, length: usize) -> Result<Vec<u8>, Fail> {
    let end = b"\nprefix app\nstart 0\n";
    let mut script = Vec::with_capacity(alloc, length)?;
    script.extend_from_slice(b"prefix ")?;
    assert!(rt; length >= 27);
    script.resize(length - end.len(), b'a')?;
    script.extend_from_slice(end)?;
    expect_eq(rt, script.len(), length);
    Ok(script)
}

#[test]
fn refuses_what_is_no_text_or_too_long(rt: HostRuntime) -> Result<(), Fail> {
    let alloc = rt.alloc();
    check(&rt, alloc, b"start 0\nwrite \xff\n", 2, "", "bad script\n");
    check(&rt, alloc, b"nonsense\n\xc3", 2, "", "bad script\n");
    let script = long_script(&rt, alloc, LONGEST)?;
    check(
        &rt,
        alloc,
        script.as_slice(),
        0,
        "open app\nfile app 0\n",
        "",
    );
    let script = long_script(&rt, alloc, LONGEST + 1)?;
    check(&rt, alloc, script.as_slice(), 2, "", "bad script\n");
    Ok(())
}

// A reader that gives a few bytes, fails once, and then gives the rest.
#[derive(Drop)]
struct Stumbling<'a> {
    before: &'a [u8],
    fault: Option<io::ErrorKind>,
    after: &'a [u8],
}

impl Read for Stumbling<'_> {
    fn read(&mut self, buf: &mut [u8]) -> io::Result<usize> {
        if !self.before.is_empty() {
            return self.before.read(buf);
        }
        if let Some(kind) = self.fault.take() {
            return Err(io::Error::from(kind));
        }
        self.after.read(buf)
    }
}

// Faults of reading, with the status and what is printed and reported.
#[rattlefmt::skip]
static STUMBLES: [(io::ErrorKind, u8, &str, &str); 3] = [
    (io::ErrorKind::Interrupted, 0, "open app\nok 1\nfile app 1 a\n", ""),
    (io::ErrorKind::Other, 2, "", "read failed\n"),
    (io::ErrorKind::OutOfMemory, 3, "", "no memory\n"),
];

#[test]
fn reports_a_read_that_fails(rt: HostRuntime) {
    for (fault, status, output, errors) in &STUMBLES {
        let mut input = Stumbling {
            before: b"prefix app\nsta",
            fault: Some(*fault),
            after: b"rt 0\nwrite a\n",
        };
        check_input(&rt, rt.alloc(), &mut input, *status, output, errors);
    }
}

// A reader without an end, and how many bytes it gave.
#[derive(Drop)]
struct Endless {
    given: usize,
}

impl Read for Endless {
    fn read(&mut self, buf: &mut [u8]) -> io::Result<usize> {
        buf.fill(b'a');
        self.given = self.given.saturating_add(buf.len());
        Ok(buf.len())
    }
}

#[test]
fn reads_one_byte_after_the_longest_script(rt: HostRuntime) {
    let mut input = Endless { given: 0 };
    check_input(&rt, rt.alloc(), &mut input, 2, "", "bad script\n");
    expect_eq(&rt, input.given, LONGEST + 1);
}

// A writer that takes a number of bytes, and then no more.
#[derive(Drop)]
struct Narrow {
    room: usize,
    flushes: bool,
}

impl Write for Narrow {
    fn write(&mut self, buf: &[u8]) -> io::Result<usize> {
        if self.room == 0 && !buf.is_empty() {
            return Err(io::Error::from(io::ErrorKind::Other));
        }
        let taken = self.room.min(buf.len());
        self.room -= taken;
        Ok(taken)
    }

    fn flush(&mut self) -> io::Result<()> {
        if self.flushes {
            Ok(())
        } else {
            Err(io::Error::from(io::ErrorKind::Other))
        }
    }
}

// Scripts, what room the output has, whether it can be flushed, and the status. What is printed of a
// log has 20 bytes.
static NARROW: [(&str, usize, bool, u8); 4] = [
    ("prefix app\nstart 0\n", 20, true, 0),
    ("prefix app\nstart 0\n", 19, true, 2),
    ("prefix app\nstart 0\n", 20, false, 2),
    ("prefix /\nstart 0\n", 0, true, 2),
];

#[test]
fn answers_where_the_output_takes_no_more(rt: HostRuntime) {
    for (script, room, flushes, status) in &NARROW {
        let mut output = Narrow {
            room: *room,
            flushes: *flushes,
        };
        let mut told = Vec::new(rt.alloc());
        let mut input = script.as_bytes();
        let answer = play(rt.alloc(), &mut input, &mut output, &mut told);
        expect_eq_of(&rt, room, answer, *status);
        expect_eq_of(&rt, room, told.len(), 0);
    }
}

#[test]
fn answers_where_errors_take_no_more(rt: HostRuntime) {
    for room in [0, 5, 14] {
        let mut errors = Narrow {
            room,
            flushes: false,
        };
        let mut printed = Vec::new(rt.alloc());
        let mut input = b"nonsense\n".as_slice();
        let answer = play(rt.alloc(), &mut input, &mut printed, &mut errors);
        expect_eq_of(&rt, room, answer, 2);
        expect_eq_of(&rt, room, printed.len(), 0);
    }
}
