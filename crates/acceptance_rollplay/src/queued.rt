// Whole scripts with a queue, played through memory.
use crate::expect::{expect_eq, expect_eq_of};
use crate::program::check_each;
use crate::rows::QUEUED;
use rollplay_core::play::play;
use std::process::Abort;
use std::test::Fail;

#[test]
fn plays_with_a_queue(rt: HostRuntime) {
    check_each(&rt, rt.alloc(), &QUEUED, 0);
}

// Counts of the lines of an output.
#[derive(Clone, Copy, Debug, PartialEq, Eq)]
struct Sums {
    // Bytes that writes took.
    written: usize,
    // Bytes in files.
    stored: usize,
    // Whether the worker has ended.
    ended: bool,
}

// The number before the first space, or 0.
fn number_at(text: &str) -> usize {
    let (word, _) = text.split_once(' ').unwrap_or((text, ""));
    word.parse::<usize>().unwrap_or(0)
}

// What is after the first word, or nothing.
fn behind_word(text: &str) -> &str {
    let (_, rest) = text.split_once(' ').unwrap_or((text, ""));
    rest
}

fn sums_of(output: &str) -> Sums {
    let mut sums = Sums {
        written: 0,
        stored: 0,
        ended: false,
    };
    let mut rest = output;
    for _ in 0..output.len() {
        let (line, behind) = rest.split_once('\n').unwrap_or((rest, ""));
        if line.starts_with("wrote ") {
            let answer = behind_word(behind_word(line));
            sums.written = sums.written.saturating_add(number_at(behind_word(answer)));
        }
        if line.starts_with("file ") {
            let length = number_at(behind_word(behind_word(line)));
            sums.stored = sums.stored.saturating_add(length);
        }
        if line == "ended" {
            sums.ended = true;
        }
        rest = behind;
    }
    sums
}

// Three lines are offered and the shutdown is sent, in a folder that isn't there at first, and an hour ends between.
const THREE_LINES: &str =
    "rotation hourly\nprefix app\nlink latest\nqueue 2 lossy\nstart 1580551260\noffer 1 a\noffer 2 bc\nwork 1580551260\nwork 1580551260\nwork 1580551260\nwork 1580554800\nwork 0\nwork 0\noffer 1 def\nshut\nwork 0\nwork 1580554801\nwork 0\nwork 0\nwork 0\nwork 0\nwork 0\n";

// Lines for the calls of that run. It makes no call as great as the last.
#[rattlefmt::skip]
static FAILS: [&str; 29] = [
    "fail 1\n", "fail 2\n", "fail 3\n", "fail 4\n", "fail 5\n", "fail 6\n", "fail 7\n", "fail 8\n", "fail 9\n", "fail 10\n",
    "fail 11\n", "fail 12\n", "fail 13\n", "fail 14\n", "fail 15\n", "fail 16\n", "fail 17\n", "fail 18\n", "fail 19\n",
    "fail 20\n", "fail 21\n", "fail 22\n", "fail 23\n", "fail 24\n", "fail 25\n", "fail 26\n", "fail 27\n", "fail 28\n",
    "fail 29\n",
];

// Plays that script while these of the calls fail, counted from 0, and returns the status and the output.
fn play_failing(rt: &(impl AllocGlobal + Abort), first: usize, last: usize) -> (u8, Vec<u8>) {
    let mut script = String::from_str(rt.alloc(), "absent\n").expect(rt, "memory");
    for (place, line) in FAILS.iter().enumerate() {
        if first <= place && place <= last {
            script.push_str(line).expect(rt, "memory");
        }
    }
    script.push_str(THREE_LINES).expect(rt, "memory");
    let mut input = script.as_bytes();
    let mut printed = Vec::new(rt.alloc());
    let mut told = Vec::new(rt.alloc());
    let status = play(rt.alloc(), &mut input, &mut printed, &mut told);
    (status, printed)
}

// Plays that script while these calls fail, checks what is in files and how it ends, and returns whether
// no log was opened.
fn check_failing(rt: &(impl AllocGlobal + Abort), first: usize, last: usize) -> Result<bool, Fail> {
    let (status, printed) = play_failing(rt, first, last);
    let output = String::from_utf8(printed)?;
    let output = output.as_str();
    let sums = sums_of(output);
    let calls = (first, last);
    expect_eq_of(rt, calls, sums.written, sums.stored);
    let refused = output.starts_with("init error ");
    expect_eq_of(rt, calls, status, u8::from(refused));
    let ends = sums.ended && output.ends_with("\ncounts 3 3 0 0 0\n");
    expect_eq_of(rt, calls, ends, !refused);
    Ok(refused)
}

// Each call fails alone, and with all after it.
#[test]
fn loses_no_written_byte_where_calls_fail(rt: HostRuntime) -> Result<(), Fail> {
    let mut refused = (0usize, 0usize);
    for place in 0..FAILS.len() {
        if check_failing(&rt, place, place)? {
            refused.0 = refused.0.saturating_add(1);
        }
        if check_failing(&rt, place, FAILS.len())? {
            refused.1 = refused.1.saturating_add(1);
        }
    }
    // The folder is not made, the file not opened, the link not made. Without the removal of a link, none is made.
    expect_eq(&rt, refused, (3, 5));
    let (_, printed) = play_failing(&rt, FAILS.len(), 0);
    let output = String::from_utf8(printed)?;
    expect_eq(&rt, sums_of(output.as_str()).written, 6);
    Ok(())
}
