// What no page shows of a run: when the next file is due, notices, bodies without a name, and long runs.
use crate::expect::{AllocAndAbort, copy_of, expect_eq, expect_eq_of};
use crate::folders::expect_names;
use crate::scripts::{notices_in, read, read_script, roll, roll_in, run_in};
use acceptance_rollplay::rows::AROUND_FAULTS;
use rollplay_core::line::Queueing;
use rollplay_core::script::{Plan, Script};
use std::process::Abort;
use tracing_appender::replay::{RollReply, RollRun, Run, replay};
use tracing_appender::rolling::Roller;
use tracing_appender::store::{Folder, MemoryFolder};

// 2020-02-01 11:00:00.
const ELEVEN: i64 = 1_580_554_800;

const HOUR: i64 = 3600;

// The settings of logs, up to their opening at 10:01.
const PLAIN: &str = "rotation hourly\nprefix app\nsuffix log\nstart 1580551260\n";

const ABSENT: &str = "absent\nrotation hourly\nprefix app\nmax 2\nby-name\nstart 1580551260\n";

const LIMITED: &str = "rotation hourly\nprefix app\nbytes 3\nstart 1580551260\n";

// File number 1 can't be opened: calls 1 to 4 list, open and write twice; calls 5 to 7 open, make and open.
const FAILING: &str =
    "rotation hourly\nprefix app\nbytes 3\nfail 5\nfail 7\nstart 1580551260\nwrite ab\nwrite c\nsee 0\n";

// The folder can't be listed, so the log begins with a file that has bytes already. They do not count.
const UNLISTED: &str =
    "rotation hourly\nprefix app\nbytes 3\nfile app.2020-02-01-10.000000 more than three\nfail 1\nstart 1580551260\n";

// Settings and steps. The name of the open file and its number, the boundary, whether the next file is due before it
// and at moments out of range, and the notices.
#[rattlefmt::skip]
type State = (&'static str, &'static str, &'static str, u32, i64, bool, [u64; 4]);

#[rattlefmt::skip]
static STATES: [State; 19] = [
    (PLAIN, "", "app.2020-02-01-10.log", 0, ELEVEN, false, [0; 4]),
    (PLAIN, "see 1580558400\n", "app.2020-02-01-12.log", 0, ELEVEN + 2 * HOUR, false, [0; 4]),
    // By name a folder that is absent is listed only once it is made.
    (ABSENT, "", "app.2020-02-01-10", 0, ELEVEN, false, [0; 4]),
    (LIMITED, "", "app.2020-02-01-10.000000", 0, ELEVEN, false, [0; 4]),
    (LIMITED, "write ab\n", "app.2020-02-01-10.000000", 0, ELEVEN, false, [0; 4]),
    (LIMITED, "write ab\nwrite c\n", "app.2020-02-01-10.000000", 0, ELEVEN, true, [0; 4]),
    (LIMITED, "write abc\nsee 9223372036854775807\n", "app.2020-02-01-10.000001", 1, ELEVEN, false, [0; 4]),
    (LIMITED, "write abc\nsee 0\nwrite de\n", "app.2020-02-01-10.000001", 1, ELEVEN, false, [0; 4]),
    (LIMITED, "write abc\nsee 0\nwrite de\nwrite f\n", "app.2020-02-01-10.000001", 1, ELEVEN, true, [0; 4]),
    (LIMITED, "write abc\nsee -9223372036854775808\nsee 0\n", "app.2020-02-01-10.000001", 1, ELEVEN, false, [0; 4]),
    (LIMITED, "write abc\nsee 1580554800\n", "app.2020-02-01-11.000000", 0, ELEVEN + HOUR, false, [0; 4]),
    (FAILING, "", "app.2020-02-01-10.000000", 0, ELEVEN, false, [0, 0, 1, 0]),
    (FAILING, "write de\n", "app.2020-02-01-10.000000", 0, ELEVEN, false, [0, 0, 1, 0]),
    (FAILING, "write def\n", "app.2020-02-01-10.000000", 0, ELEVEN, true, [0, 0, 1, 0]),
    (FAILING, "write def\nsee 0\n", "app.2020-02-01-10.000002", 2, ELEVEN, false, [0, 0, 1, 0]),
    (UNLISTED, "", "app.2020-02-01-10.000000", 0, ELEVEN, false, [1, 0, 0, 0]),
    (UNLISTED, "write ab\n", "app.2020-02-01-10.000000", 0, ELEVEN, false, [1, 0, 0, 0]),
    (UNLISTED, "write ab\nwrite c\n", "app.2020-02-01-10.000000", 0, ELEVEN, true, [1, 0, 0, 0]),
    (UNLISTED, "write abc\nsee 0\n", "app.2020-02-01-10.000001", 1, ELEVEN, false, [1, 0, 0, 0]),
];

// Checks when the next file of a roller is due.
fn expect_due(rt: &impl Abort, roller: &Roller<MemoryFolder>, boundary: i64, full: bool) {
    expect_eq(rt, roller.boundary(), Some(boundary));
    expect_eq(rt, roller.due(boundary), true);
    for moment in [boundary.saturating_sub(1), 0, i64::MIN, i64::MAX] {
        expect_eq_of(rt, moment, roller.due(moment), full);
    }
}

fn expect_state(rt: &impl AllocAndAbort, roller: &Roller<MemoryFolder>, state: &State) {
    let (settings, steps, name, number, boundary, full, noted) = state;
    let opened = (roller.open_name(), roller.number());
    expect_eq_of(rt, *steps, opened, (*name, *number));
    expect_due(rt, roller, *boundary, *full);
    expect_eq_of(rt, *settings, notices_in(roller.folder()), *noted);
}

#[test]
fn rollers_show_their_states(rt: HostRuntime) {
    for state in &STATES {
        let script = format!(in rt.alloc(); "{}{}", state.0, state.1);
        let script = script.expect(&rt, "memory");
        expect_state(&rt, &roll(&rt, script.as_str()), state);
    }
}

// How many bytes these replies count.
fn bytes_told(replies: &[RollReply]) -> usize {
    let mut told = 0usize;
    for reply in replies {
        if let RollReply::Put(_, Ok(taken)) = reply {
            told = told.saturating_add(*taken);
        }
    }
    told
}

// How many bytes the bodies hold after the first two, which are those of old files.
fn bytes_held(folder: &MemoryFolder) -> usize {
    let mut count = 0usize;
    for number in 2..8 {
        if let Some(body) = folder.body(number) {
            count = count.saturating_add(body.len());
        }
    }
    count
}

// The run around `FAULTS` in `rows` while these calls fail: its folder, and how many bytes its replies count.
fn run_failing(rt: &impl AllocAndAbort, first: u64, last: u64) -> (MemoryFolder, usize) {
    let (before, behind) = AROUND_FAULTS;
    let script = format!(in rt.alloc(); "{before}{behind}").expect(rt, "memory");
    let (builder, mut folder, start, steps) = read(rt, script.as_str());
    for call in first..=last {
        folder.fail_call(call).expect(rt, "memory");
    }
    match run_in(rt, &builder, folder, start, &steps) {
        Ok(
            RollRun {
                replies,
                roller,
                ..
            },
        ) => (roller.into_folder(), bytes_told(&replies)),
        Err(folder) => (folder, 0),
    }
}

// Which call fails, the notices, and the bytes that are reported as written. Call 5 makes the link of the opening,
// without which nothing is opened. The run makes no call 16.
#[rattlefmt::skip]
static NOTED: [(u64, [u64; 4], usize); 16] = [
    (1, [1, 0, 0, 0], 3), (2, [0, 1, 0, 0], 3), (3, [0, 0, 0, 0], 3), (4, [0, 0, 0, 0], 3),
    (5, [0, 0, 0, 0], 0), (6, [0, 0, 0, 0], 2), (7, [1, 0, 0, 0], 3), (8, [0, 1, 0, 0], 3),
    (9, [0, 0, 0, 0], 3), (10, [0, 0, 1, 0], 3), (11, [0, 0, 1, 0], 3), (12, [0, 0, 0, 1], 3),
    (13, [0, 0, 0, 0], 2), (14, [0, 0, 0, 0], 2), (15, [0, 0, 0, 0], 3), (16, [0, 0, 0, 0], 3),
];

// Each call fails alone, and with all after it. No byte that is reported as written is lost.
#[test]
fn each_call_that_fails_is_noted(rt: HostRuntime) {
    for (call, noted, written) in &NOTED {
        let (folder, told) = run_failing(&rt, *call, *call);
        expect_eq_of(&rt, *call, notices_in(&folder), *noted);
        expect_eq_of(&rt, *call, folder.failures(), u64::from(*call < 16));
        let sums = (told, bytes_held(&folder));
        expect_eq_of(&rt, *call, sums, (*written, *written));
        let (folder, told) = run_failing(&rt, *call, 64);
        expect_eq_of(&rt, *call, bytes_held(&folder), told);
    }
}

// No file can be opened after the first one was removed.
const UNNAMED: &str =
    "rotation hourly\nprefix app\nmax 1\nfile app.2020-02-01-10 x\nfail 6\nfail 8\nstart 1580551260\n\
    put 1580554800 y\n";

#[test]
fn bodies_stay_without_a_name(rt: HostRuntime) {
    let folder = roll(&rt, UNNAMED).into_folder();
    expect_names(&rt, &folder, &[]);
    expect_eq(&rt, folder.body(0), Some(b"x".as_slice()));
    expect_eq(&rt, folder.body(1), Some(b"y".as_slice()));
    expect_eq(&rt, folder.body(2), None);
}

// A log of two files by name, and a file with the name of its link.
const UNLINKED: &str =
    "rotation hourly\nprefix app\nmax 2\nby-name\nlink latest\nfile app.2020-02-01-08 x\nfile app.2020-02-01-09 y\n\
    file latest z\nstart 1580551260\nsee 1580558400\n";

#[test]
fn a_log_goes_on_without_an_optional_link_and_makes_it_again(rt: HostRuntime) {
    let (builder, folder, start, steps) = read(&rt, UNLINKED);
    let builder = builder.optional_symlink(true);
    let roller = roll_in(&rt, &builder, folder, start, &steps);
    let mut folder = roller.into_folder();
    expect_eq(&rt, folder.bytes("latest"), Some(b"z".as_slice()));
    let names = ["app.2020-02-01-10", "app.2020-02-01-12", "latest"];
    expect_names(&rt, &folder, &names);
    folder.remove("latest").expect(&rt, "a file");
    let roller = roll_in(&rt, &builder, folder, start, &[]);
    let target = roller.folder().target("latest");
    expect_eq(&rt, target, Some("app.2020-02-01-10"));
}

const RESTARTED: &str =
    "rotation hourly\nprefix app\nmax 5\nbytes 4\nby-name\ncontinue\nstart 1580551260\nput 1580551260 ab\n";

#[rattlefmt::skip]
static KEPT: [&str; 5] = [
    "app.2020-02-01-10.000045", "app.2020-02-01-10.000046", "app.2020-02-01-10.000047", "app.2020-02-01-10.000048",
    "app.2020-02-01-10.000049",
];

// Of a hundred starts that write two bytes each and continue the last file the last ten are kept, two in each of five
// files. Without the setting only five would be.
#[test]
fn a_restart_in_a_loop_keeps_what_fits(rt: HostRuntime) {
    let (builder, mut folder, start, steps) = read(&rt, RESTARTED);
    for _ in 0..100 {
        let roller = roll_in(&rt, &builder, folder, start, &steps);
        folder = roller.into_folder();
    }
    expect_names(&rt, &folder, &KEPT);
    for name in &KEPT {
        expect_eq_of(&rt, *name, folder.bytes(name), Some(b"abab".as_slice()));
    }
}

// Runs a script with a queue.
fn run_queued(rt: &impl AllocAndAbort, text: &str) -> Run<MemoryFolder> {
    let Script {
        builder,
        folder,
        start,
        plan,
    } = read_script(rt, text);
    let Plan::Queued(Queueing { limit, lossy }, steps) = plan else {
        rt.panic("a script without a queue");
    };
    match replay(rt.alloc(), &builder, limit, lossy, folder, start, &steps) {
        Ok(run) => run,
        Err(_) => rt.panic("a log that is not opened"),
    }
}

// 2,500 rounds of four steps: a line is offered, taken and written, and the worker has nothing more.
fn long_script(rt: &impl AllocAndAbort) -> String {
    let mut text = copy_of(rt, "prefix app\nqueue 4 waiting\nstart 0\n");
    for _ in 0..2500 {
        let round = text.push_str("offer 1 a\nwork 0\nwork 0\nwork 0\n");
        round.expect(rt, "memory");
    }
    text
}

#[test]
fn ten_thousand_steps_are_played(rt: HostRuntime) {
    let run = run_queued(&rt, long_script(&rt).as_str());
    expect_eq(&rt, run.replies.len(), 10_000);
    expect_eq(&rt, run.queue.counts().handed, 2500);
    let held = run.roller.folder().body(0);
    expect_eq(&rt, held.expect(&rt, "a body").len(), 2500);
}
