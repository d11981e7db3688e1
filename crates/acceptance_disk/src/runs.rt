// Runs of an hourly log over a fake disk, as texts.

use crate::disk::{Call, Disk, DiskFault, Event, FOLDER, Kind};
use crate::expect::{AllocAndAbort, expect_eq_of, pair_text};
use crate::fake::Fake;
use appender_folder::folder::DirFolder;
use appender_rolling::rolling::{Builder, Clock, RollingFile, Rotation, Switch, SystemClock};
use appender_store::store::Folder;
use std::fmt::{Display, Write as _};
use std::io;
use std::io::Write;

/// 2020-02-01 10:01:00, when each log is opened.
pub(crate) const START: u64 = 1_580_551_260;

/// 2020-02-01 11:00:00.
pub(crate) const ELEVEN: u64 = 1_580_554_800;

/// 2020-02-01 12:00:00.
pub(crate) const TWELVE: u64 = 1_580_558_400;

/// The file of the opening.
pub(crate) const LOG: &str = "app.2020-02-01-10";

/// The settings of an hourly log with the prefix `app`.
#[derive(Clone, Copy)]
pub(crate) struct Settings {
    /// How many files are kept; 0 is no maximum.
    pub(crate) max: usize,
    /// The name of the link; an empty one is none.
    pub(crate) link: &'static str,
    /// Whether log files are known only by their names.
    pub(crate) by_name: bool,
    /// Whether each flush syncs.
    pub(crate) syncs: bool,
    /// How many bytes a file holds; 0 is no limit.
    pub(crate) max_bytes: u64,
    /// Whether the opening continues the last file.
    pub(crate) continues: bool,
}

pub(crate) const PLAIN: Settings = Settings {
    max: 0,
    link: "",
    by_name: false,
    syncs: false,
    max_bytes: 0,
    continues: false,
};

pub(crate) const LINKED: Settings = Settings {
    link: "latest.log",
    ..PLAIN
};

pub(crate) const KEEPS_TWO: Settings = Settings { max: 2, ..PLAIN };

/// A step of a run, or before its opening. A failure that a step sets lasts until another step changes it.
#[derive(Clone, Copy)]
pub(crate) enum DiskStep {
    /// A text is put at a moment, in seconds since 1970.
    Put(u64, &'static str),
    /// The open file is flushed.
    Flush,
    /// The data of files were synced so often.
    Syncs(usize),
    /// The name becomes a file that holds this text.
    File(&'static str, &'static str),
    /// The name becomes a link to this target.
    Link(&'static str, &'static str),
    /// The name becomes a folder.
    Dir(&'static str),
    /// The folder is removed with all names in it.
    RemoveFolder,
    /// Each call of this sort fails, if one is named.
    Fail(Option<Call>),
    /// A call that fails returns this.
    Fault(DiskFault),
    /// No file may be read.
    HideBytes,
    /// The metadata of this name can't be read.
    Hide(&'static str),
    /// A file is put there that holds `x`. Its name is that of a log and a byte more, and no UTF-8.
    PutNoText,
    /// A write takes at most this number of bytes.
    Take(usize),
    /// The disk has room for this number of bytes.
    Room(usize),
}

/// A row of a table: the settings; what is done before the opening; what happens, and the numbers of the calls at which it
/// does, each in a run of its own; the steps; and the replies, the files in the end, and what is printed.
pub(crate) type Row<'a> = (
    Settings,
    &'a [DiskStep],
    (Event, &'a [usize]),
    &'a [DiskStep],
    (&'a str, &'a str, &'a str),
);

/// Nothing happens, since no call has the number 0.
pub(crate) const NOTHING: (Event, &[usize]) = (Event::Fails, &[0]);

/// The result of a run.
#[derive(Drop)]
pub(crate) struct Outcome {
    /// The replies of the opening and the steps, a line each.
    pub(crate) answers: String,
    /// The names of the folder in byte order, a line each with what they hold.
    pub(crate) files: String,
    /// What was printed on standard error, and then how many calls of the folder failed.
    pub(crate) printed: String,
    /// What all files held before the opening, and then the bytes that puts counted.
    pub(crate) counted: String,
    /// What all files hold, one after the other as they were made, also of those whose names were removed.
    pub(crate) appended: String,
}

// What was returned so far: the replies, and the bytes that puts counted.
#[derive(Drop)]
struct Told {
    answers: String,
    counted: String,
}

impl Told {
    fn add(&mut self, rt: &impl AllocAndAbort, word: &str) {
        self.answers.push_str(word).expect(rt, "memory");
    }

    // Of a put that was taken, by how many bytes of its text.
    fn add_count(&mut self, rt: &impl AllocAndAbort, text: &str, count: usize) {
        let taken = text.get(..count).unwrap_or(text);
        self.counted.push_str(taken).expect(rt, "memory");
        writeln!(self.answers, " ok {count}").expect(rt, "memory");
    }

    fn add_put(&mut self, rt: &impl AllocAndAbort, text: &str, put: (Switch, io::Result<usize>)) {
        self.add(rt, word(put.0));
        match put.1 {
            Ok(count) => self.add_count(rt, text, count),
            Err(_) => self.add(rt, " err\n"),
        }
    }
}

fn word(switch: Switch) -> &'static str {
    match switch {
        Switch::None => "none",
        Switch::Opened => "opened",
        Switch::Failed => "failed",
    }
}

// Puts an entry into the folder.
fn put(rt: &impl AllocAndAbort, disk: &Disk, name: &[u8], kind: Kind, text: &str) {
    let put = disk.put(name, kind, text.as_bytes());
    put.expect(rt, "an entry");
}

// Does a step that needs no log.
fn change(rt: &impl AllocAndAbort, disk: &Disk, step: DiskStep) {
    match step {
        DiskStep::File(name, text) => put(rt, disk, name.as_bytes(), Kind::File, text),
        DiskStep::Link(name, target) => put(rt, disk, name.as_bytes(), Kind::Link, target),
        DiskStep::Dir(name) => put(rt, disk, name.as_bytes(), Kind::Folder, ""),
        DiskStep::RemoveFolder => disk.remove_folder().expect(rt, "a folder"),
        DiskStep::Fail(call) => disk.fails_each.set(call),
        DiskStep::Fault(fault) => disk.fault.set(fault),
        DiskStep::HideBytes => disk.hides_bytes.set(true),
        DiskStep::Hide(name) => disk.hides.set(Some(name)),
        DiskStep::PutNoText => put(rt, disk, b"app.2020-02-01-05\xff", Kind::File, "x"),
        DiskStep::Take(most) => disk.takes.set(Some(most)),
        DiskStep::Room(room) => disk.room.set(Some(room)),
        DiskStep::Put(..) | DiskStep::Flush | DiskStep::Syncs(_) => rt.panic("a step of a log"),
    }
}

fn do_step<S: Folder, C: Clock>(
    rt: &impl AllocAndAbort,
    log: &mut RollingFile<S, C>,
    disk: &Disk,
    step: DiskStep,
    told: &mut Told,
) {
    match step {
        DiskStep::Put(moment, text) => {
            disk.set_seconds(moment);
            told.add_put(rt, text, log.put(text.as_bytes()));
        }
        DiskStep::Flush => told.add(rt, if log.flush().is_ok() { "ok\n" } else { "err\n" }),
        DiskStep::Syncs(wanted) => expect_eq_of(rt, "syncs", disk.syncs(), wanted),
        _ => change(rt, disk, step),
    }
}

// Does the steps, and returns how many calls of the folder failed.
fn do_steps<S: Folder, C: Clock>(
    rt: &impl AllocAndAbort,
    mut log: RollingFile<S, C>,
    disk: &Disk,
    steps: &[DiskStep],
    told: &mut Told,
) -> u64 {
    for step in steps {
        do_step(rt, &mut log, disk, *step, told);
    }
    log.into_parts().0.failures()
}

// Opens a log, does the steps, and returns how many calls of the folder failed.
fn open_and_write<S: Folder, C: Clock>(
    rt: &impl AllocAndAbort,
    disk: &Disk,
    builder: &Builder,
    folder: S,
    clock: C,
    steps: &[DiskStep],
    told: &mut Told,
) -> u64 {
    match builder.open_in(rt.alloc(), folder, clock) {
        Ok(log) => {
            told.add(rt, "open\n");
            do_steps(rt, log, disk, steps, told)
        }
        Err((error, folder, _)) => {
            told.add(rt, pair_text(rt, &error, "\n").as_str());
            folder.failures()
        }
    }
}

/// The folder of a disk.
pub(crate) fn folder_of<'a>(rt: &impl AllocAndAbort, disk: &'a Disk) -> DirFolder<Fake<'a>> {
    DirFolder::new(Fake::new(disk), FOLDER).expect(rt, "memory")
}

/// A builder of an hourly log with the prefix `app`.
pub(crate) fn hourly_log(rt: &impl AllocAndAbort, settings: &Settings) -> Builder {
    let builder = Builder::new()
        .rotation(Rotation::HOURLY)
        .max_log_files(settings.max)
        .log_files_by_name(settings.by_name)
        .max_file_bytes(settings.max_bytes)
        .continue_last_file(settings.continues);
    let builder = builder.filename_prefix(rt.alloc(), "app");
    let builder = builder.expect(rt, "memory");
    let builder = builder.latest_symlink(rt.alloc(), settings.link);
    builder.expect(rt, "memory")
}

/// Opens a log at 10:01, and does the steps.
pub(crate) fn run_log(
    rt: &impl AllocAndAbort,
    disk: &Disk,
    settings: &Settings,
    steps: &[DiskStep],
) -> Outcome {
    let folder = folder_of(rt, disk);
    let folder = if settings.syncs {
        folder.synced()
    } else {
        folder
    };
    let clock = SystemClock::new(Fake::new(disk));
    let mut told = Told {
        answers: String::new(rt.alloc()),
        counted: disk.all_bodies().expect(rt, "bodies"),
    };
    disk.set_seconds(START);
    let failures = open_and_write(
        rt,
        disk,
        &hourly_log(rt, settings),
        folder,
        clock,
        steps,
        &mut told,
    );
    outcome_of(rt, disk, told, failures)
}

// What is known of a run, and what its disk shows.
fn outcome_of(rt: &impl AllocAndAbort, disk: &Disk, told: Told, failures: u64) -> Outcome {
    let Told { answers, counted } = told;
    let mut printed = disk.take_printed();
    writeln!(printed, "failures {failures}").expect(rt, "memory");
    expect_eq_of(rt, "waits", disk.waits(), 0);
    Outcome {
        answers,
        files: disk.contents().expect(rt, "a folder"),
        printed,
        counted,
        appended: disk.all_bodies().expect(rt, "bodies"),
    }
}

/// A disk after these steps.
pub(crate) fn disk_after(rt: &impl AllocAndAbort, steps: &[DiskStep]) -> Disk {
    let disk = Disk::new(rt.alloc());
    for step in steps {
        change(rt, &disk, *step);
    }
    disk
}

// Checks a run in which the event is at the call of this number.
fn check_run(rt: &impl AllocAndAbort, row: &Row<'_>, number: usize) {
    let (settings, before, (event, _), steps, (answers, files, printed)) = *row;
    let disk = disk_after(rt, before);
    disk.event.set((number, event));
    let outcome = run_log(rt, &disk, &settings, steps);
    expect_eq_of(rt, number, outcome.answers.as_str(), answers);
    expect_eq_of(rt, number, outcome.files.as_str(), files);
    expect_eq_of(rt, number, outcome.printed.as_str(), printed);
    // A file that comes holds bytes that no put counts.
    if !matches!(event, Event::Comes(_, Kind::File, _)) {
        expect_eq_of(
            rt,
            answers,
            outcome.appended.as_str(),
            outcome.counted.as_str(),
        );
    }
}

/// Checks each run of a table.
pub(crate) fn check_runs(rt: &impl AllocAndAbort, rows: &[Row<'_>]) {
    for row in rows {
        for number in row.2.1 {
            check_run(rt, row, *number);
        }
    }
}
