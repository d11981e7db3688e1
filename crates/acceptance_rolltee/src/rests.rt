// A log in memory: the rest of a line, parts of lines that are ended by a newline, and a file that is gone.
ghost use Rattle.std.specs.Prelude.{◌≡◌, [], true, IfSome};

use crate::expect::{AllocAndAbort, expect_eq};
use appender_store::store::{MemoryFile, MemoryFolder, NoticeKind};
use rolltee_core::check::FileCheck;
use rolltee_core::file_log::{FileLog, Opens};
use rolltee_core::tee::TeeLog;
use std::alloc::Global;
use std::cell::Cell;
use std::io::ErrorKind;
use std::process::Abort;
use tracing_appender::rolling::{Builder, Clock, InitError, RollingFile, Rotation};
use tracing_appender::waiting::Faults;

// 10:01 and 11:00 on the first of February 2020.
const FIRST: i64 = 1580551260;

const NEXT: i64 = 1580554800;

// What a test sets, and what it sees: the clock; whether the file is lost at the next look; whether files are seen to end with a newline;
// how often the log was opened; how many bytes two files have at the last look.
#[derive(Drop)]
struct Scene {
    moment: Cell<i64>,
    lost: Cell<bool>,
    whole: Cell<bool>,
    openings: Cell<u32>,
    names: [&'static str; 2],
    lengths: Cell<(usize, usize)>,
}

impl Scene {
    fn new(names: [&'static str; 2]) -> Scene {
        Scene {
            moment: Cell::new(FIRST),
            lost: Cell::new(false),
            whole: Cell::new(false),
            openings: Cell::new(0),
            names,
            lengths: Cell::new((0, 0)),
        }
    }

    fn of_hours() -> Scene {
        Scene::new(["2020-02-01-10", "2020-02-01-11"])
    }
}

impl Clock for Scene {
    ghost now_gives = { λ clock moment. Unit {0} };

    fn now(&self) -> i64 {
        self.moment.get()
    }
}

// Opens an hourly log in memory. One of its calls fails, and one is an append that takes so many bytes; 0 is none.
#[derive(Drop)]
struct SceneOpener<'a> {
    alloc: Global,
    settings: Builder,
    failing: u64,
    short: (u64, usize),
    scene: &'a Scene,
}

impl<'a> Opens<MemoryFolder, &'a Scene> for SceneOpener<'a> {
    ghost use Rattle.std.specs.Prelude.{[]};

    ghost config = { λ opener. opener.settings };

    ghost directory = { λ _. [] };

    ghost is_at = { λ _ _. Unit {0} };

    fn open(&self) -> Result<RollingFile<MemoryFolder, &'a Scene>, InitError> {
        let openings = self.scene.openings.get();
        self.scene.openings.set(openings.saturating_add(1));
        let mut folder = MemoryFolder::new(self.alloc);
        let (call, takes) = self.short;
        folder
            .fail_call(self.failing)
            .map_err(|_| InitError::Memory)?;
        folder
            .short_append(call, takes)
            .map_err(|_| InitError::Memory)?;
        match self.settings.open_in(self.alloc, folder, self.scene) {
            Ok(log) => Ok(log),
            Err((error, _, _)) => Err(error),
        }
    }
}

// Sees what the scene says, but that a file ends with a newline only if it is empty, and the one file of its folder.
#[derive(Drop)]
struct SceneCheck<'a> {
    scene: &'a Scene,
}

impl<'a> FileCheck<MemoryFolder> for SceneCheck<'a> {
    ghost looks = { record { ends = λ _ _ _ _. Unit {0}; length = λ _ _. Unit {0}; finds = λ _ _ _ _ _. Unit {0} } };

    fn ends_line(&self, folder: &MemoryFolder, _: &MemoryFile, _: &str) -> bool {
        if folder.body(1).is_some() {
            return false;
        }
        self.scene.whole.get() && is_empty(folder.body(0))
    }

    fn length(&self, _: &MemoryFile) -> u64 {
        0
    }

    fn finds(&self, folder: &MemoryFolder, _: &MemoryFile, _: &str, _: u64) -> bool {
        let scene = self.scene;
        let first = length_of(folder, scene.names[0]);
        let next = length_of(folder, scene.names[1]);
        scene.lengths.set((first, next));
        let lost = scene.lost.get();
        scene.lost.set(false);
        !lost
    }

    fn unsynced(&self, folder: &MemoryFolder) -> u64 {
        folder.notices(NoticeKind::Flush)
    }
}

fn is_empty(body: Option<&[u8]>) -> bool
    ensures { result ≡ true → IfSome body.entry (λ bytes. bytes.now ≡ []) }
{
    match body {
        Some(bytes) => bytes.is_empty(),
        None => true,
    }
}

fn length_of(folder: &MemoryFolder, name: &str) -> usize {
    match folder.bytes(name) {
        Some(bytes) => bytes.len(),
        None => 0,
    }
}

type SceneLog<'a> = FileLog<MemoryFolder, &'a Scene, SceneCheck<'a>, SceneOpener<'a>>;

// The settings of an hourly log with a limit of bytes.
fn settings_of(limit: u64) -> Builder {
    Builder::new()
        .rotation(Rotation::HOURLY)
        .max_file_bytes(limit)
}

// A log of this scene, opened by this.
fn opened_by<'a>(
    rt: &impl Abort,
    opener: SceneOpener<'a>,
    scene: &'a Scene,
    whole_lines: bool,
) -> SceneLog<'a> {
    match FileLog::new(opener, SceneCheck { scene }, whole_lines) {
        Ok(log) => log,
        Err(_) => rt.panic("no log"),
    }
}

// A log of this scene, by the calls that are not as usual.
fn log_of<'a>(
    rt: &impl AllocAndAbort,
    scene: &'a Scene,
    limit: u64,
    whole_lines: bool,
    failing: u64,
    short: (u64, usize),
) -> SceneLog<'a> {
    let settings = settings_of(limit);
    let opener = SceneOpener {
        alloc: rt.alloc(),
        settings,
        failing,
        short,
        scene,
    };
    opened_by(rt, opener, scene, whole_lines)
}

// Writes, and compares how many bytes were taken.
fn put(rt: &impl Abort, log: &mut SceneLog<'_>, text: &[u8], taken: usize) {
    expect_eq(rt, log.put(text).ok(), Some(taken));
}

// Flushes, and compares how many bytes the two files have.
fn flush(rt: &impl Abort, log: &mut SceneLog<'_>, scene: &Scene, lengths: (usize, usize)) {
    expect_eq(rt, log.flush_all().is_ok(), true);
    expect_eq(rt, scene.lengths.get(), lengths);
}

// A text of which three bytes are taken, whether it is then given up, and the lengths of both files after the others in the next hour,
// and a line. If the text is given up, or a line ends there, the others are a line of their own.
static RESTS: [(&[u8], bool, (usize, usize)); 3] = [
    (b"abcdef\n", false, (7, 3)),
    (b"abcdef\n", true, (3, 7)),
    (b"ab\ndef\n", false, (3, 7)),
];

fn check_rest(rt: &impl AllocAndAbort, text: &[u8], gives_up: bool, wanted: (usize, usize)) {
    let scene = Scene::of_hours();
    let mut log = log_of(rt, &scene, 0, false, 0, (2, 3));
    put(rt, &mut log, text, 3);
    if gives_up {
        log.give_up();
    }
    scene.moment.set(NEXT);
    put(rt, &mut log, b"def\n", 4);
    put(rt, &mut log, b"gh\n", 3);
    flush(rt, &mut log, &scene, wanted);
}

#[test]
fn the_rest_of_a_line_is_in_its_file(rt: HostRuntime) {
    for (text, gives_up, wanted) in &RESTS {
        check_rest(&rt, *text, *gives_up, *wanted);
    }
}

// Three bytes of a line, and then the file is gone. The rest is refused, by a fault that is not waited for, and the next line begins
// the new file.
#[test]
fn the_rest_of_a_line_is_in_no_other_file(rt: HostRuntime) {
    let scene = Scene::of_hours();
    let mut log = log_of(&rt, &scene, 0, false, 0, (2, 3));
    put(&rt, &mut log, b"abcdef\n", 3);
    scene.lost.set(true);
    let fault = log.put(b"def\n").err();
    let refused = fault.is_some_and(|fault| !Faults::Any.contain(&fault));
    expect_eq(&rt, refused, true);
    log.give_up();
    put(&rt, &mut log, b"gh\n", 3);
    flush(&rt, &mut log, &scene, (3, 0));
    expect_eq(&rt, scene.openings.get(), 2);
}

// One byte of a line is written, that is given up, and another line is written, all within a limit of six bytes a file. Each file
// begins with a newline, since its end is not seen. The newline that ends a part is counted too: no file is above the limit.
static LIMITED: [(&[u8], (usize, usize)); 3] = [
    (b"bc\n", (6, 0)),
    (b"bcd\n", (2, 5)),
    (b"bcde\n", (2, 6)),
];

fn check_limited(rt: &impl AllocAndAbort, line: &[u8], wanted: (usize, usize)) {
    let scene = Scene::new(["2020-02-01-10.000000", "2020-02-01-10.000001"]);
    let mut log = log_of(rt, &scene, 6, true, 0, (4, 1));
    put(rt, &mut log, b"abc\n", 1);
    log.give_up();
    put(rt, &mut log, line, line.len());
    flush(rt, &mut log, &scene, wanted);
}

#[test]
fn a_part_of_a_line_is_ended_within_the_limit(rt: HostRuntime) {
    for (line, wanted) in &LIMITED {
        check_limited(&rt, *line, *wanted);
    }
}

fn check_parts(rt: &impl AllocAndAbort, whole_lines: bool, wanted: (usize, usize)) {
    let scene = Scene::of_hours();
    let mut log = log_of(rt, &scene, 0, whole_lines, 0, (0, 0));
    for moment in [FIRST, NEXT] {
        scene.moment.set(moment);
        put(rt, &mut log, b"a\n", 2);
        put(rt, &mut log, b"b\n", 2);
    }
    flush(rt, &mut log, &scene, wanted);
}

// The part at the opening is ended once, and so is that of the next file.
#[test]
fn each_part_is_ended_once(rt: HostRuntime) {
    check_parts(&rt, true, (5, 5));
    check_parts(&rt, false, (4, 4));
}

// A line of which three bytes were taken, and which is given up: its part is ended if that is asked for, also if the first newline
// is refused, and only in its own file: not in that of the next hour, nor in a new one that is whole. The newline at the opening is
// the second call.
static GIVEN_UP: [(bool, u64, i64, bool, (usize, usize)); 5] = [
    (false, 0, FIRST, false, (6, 0)),
    (true, 0, FIRST, false, (8, 0)),
    (true, 4, FIRST, false, (8, 0)),
    (true, 0, NEXT, false, (4, 4)),
    (true, 0, FIRST, true, (3, 0)),
];

// A line that is refused once, if so, is written by the next try.
fn put_again(rt: &impl Abort, log: &mut SceneLog<'_>, line: &[u8]) {
    if log.put(line).is_err() {
        log.give_up();
        put(rt, log, line, line.len());
    }
}

fn check_given_up(
    rt: &impl AllocAndAbort,
    whole_lines: bool,
    failing: u64,
    moment: i64,
    lost: bool,
    wanted: (usize, usize),
) {
    let scene = Scene::of_hours();
    let line = if whole_lines { 3 } else { 2 };
    let mut log = log_of(rt, &scene, 0, whole_lines, failing, (line, 3));
    put(rt, &mut log, b"abcdef\n", 3);
    log.give_up();
    scene.moment.set(moment);
    scene.lost.set(lost);
    scene.whole.set(lost);
    put_again(rt, &mut log, b"gh\n");
    flush(rt, &mut log, &scene, wanted);
}

#[test]
fn a_line_that_is_given_up_is_ended(rt: HostRuntime) {
    for (whole_lines, failing, moment, lost, wanted) in &GIVEN_UP {
        check_given_up(&rt, *whole_lines, *failing, *moment, *lost, *wanted);
    }
}

// Loses the file, writes three lines, and loses it again before a flush, and before a write at a moment that can't be read.
fn check_openings(rt: &impl AllocAndAbort, whole_lines: bool, wanted: (usize, usize)) {
    let scene = Scene::of_hours();
    let mut log = log_of(rt, &scene, 0, whole_lines, 0, (0, 0));
    put(rt, &mut log, b"a\n", 2);
    scene.lost.set(true);
    for _ in 0..3u32 {
        put(rt, &mut log, b"b\n", 2);
    }
    flush(rt, &mut log, &scene, wanted);
    expect_eq(rt, scene.openings.get(), 2);
    scene.lost.set(true);
    expect_eq(rt, log.flush_all().is_ok(), true);
    expect_eq(rt, scene.lost.get(), false);
    scene.moment.set(i64::MIN);
    let fault = log.put(b"c\n").err();
    expect_eq(rt, fault.map(|fault| fault.kind()), Some(ErrorKind::Other));
    scene.moment.set(FIRST);
    put(rt, &mut log, b"c\n", 2);
    expect_eq(rt, scene.openings.get(), 4);
}

// A file that is gone is begun anew by the next write, and no later write opens the log again. A flush looks for it too. A log
// that can't be opened, since the clock can't be read, has a fault that is waited for, and the next write tries again.
#[test]
fn a_log_is_opened_again_once(rt: HostRuntime) {
    check_openings(&rt, false, (6, 0));
    check_openings(&rt, true, (7, 0));
}

// A file that was lost and a flush that failed are counted, also one at a switch. So is the flush that is missing if the last call
// was none that succeeded. The flush is the third call, and the one at a switch the fourth.
static LOSSES: [(u64, bool, i64, u32, (u64, u64)); 6] = [
    (0, false, FIRST, 0, (0, 1)),
    (0, false, FIRST, 1, (0, 0)),
    (0, true, FIRST, 1, (1, 0)),
    (3, false, FIRST, 1, (0, 1)),
    (3, false, FIRST, 2, (0, 1)),
    (4, false, NEXT, 1, (0, 1)),
];

fn check_losses(
    rt: &impl AllocAndAbort,
    failing: u64,
    lost: bool,
    moment: i64,
    flushes: u32,
    wanted: (u64, u64),
) {
    let scene = Scene::of_hours();
    let mut log = log_of(rt, &scene, 0, false, failing, (0, 0));
    put(rt, &mut log, b"a\n", 2);
    scene.lost.set(lost);
    scene.moment.set(moment);
    if lost || moment == NEXT {
        put(rt, &mut log, b"b\n", 2);
    }
    for _ in 0..flushes {
        let _ = log.flush_all();
    }
    let losses = log.close();
    expect_eq(rt, (losses.gone, losses.unsynced), wanted);
}

#[test]
fn a_log_counts_what_it_lost(rt: HostRuntime) {
    for (failing, lost, moment, flushes, wanted) in &LOSSES {
        check_losses(&rt, *failing, *lost, *moment, *flushes, *wanted);
    }
}
