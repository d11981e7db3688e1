// Scripts of `rollplay`, run over a folder in memory.
use crate::expect::AllocAndAbort;
use rollplay_core::script::{LONGEST, Plan, Script};
use tracing_appender::replay::{ReplayError, RollRun, RollStep, replay_rolling};
use tracing_appender::rolling::{Builder, Roller};
use tracing_appender::store::{MemoryFolder, NoticeKind};

/// Reads a script.
pub(crate) fn read_script(rt: &impl AllocAndAbort, text: &str) -> Script {
    assert!(rt; text.len() <= LONGEST);
    Script::read(rt.alloc(), text).expect(rt, "a script")
}

/// A script without a queue: its builder, its folder, the moment of the opening, and its steps.
pub(crate) type Rolling = (Builder, MemoryFolder, i64, Vec<RollStep>);

/// Reads a script without a queue.
pub(crate) fn read(rt: &impl AllocAndAbort, text: &str) -> Rolling {
    let Script {
        builder,
        folder,
        start,
        plan,
    } = read_script(rt, text);
    match plan {
        Plan::Rolling(steps) => (builder, folder, start, steps),
        Plan::Queued(..) => rt.panic("a script with a queue"),
    }
}

/// Opens a log in a folder and takes these steps. Returns the folder if the log is not opened.
pub(crate) fn run_in(
    rt: &impl AllocAndAbort,
    builder: &Builder,
    folder: MemoryFolder,
    start: i64,
    steps: &[RollStep],
) -> Result<RollRun<MemoryFolder>, MemoryFolder> {
    match replay_rolling(rt.alloc(), builder, folder, start, steps) {
        Ok(run) => Ok(run),
        Err(ReplayError::Init(_, folder)) => Err(folder),
        Err(ReplayError::Memory(_)) => rt.panic("no memory"),
    }
}

/// Opens a log in a folder, takes these steps, and returns the roller.
pub(crate) fn roll_in(
    rt: &impl AllocAndAbort,
    builder: &Builder,
    folder: MemoryFolder,
    start: i64,
    steps: &[RollStep],
) -> Roller<MemoryFolder> {
    match run_in(rt, builder, folder, start, steps) {
        Ok(run) => run.roller,
        Err(_) => rt.panic("a log that is not opened"),
    }
}

/// Carries out a script by a roller.
pub(crate) fn roll(rt: &impl AllocAndAbort, text: &str) -> Roller<MemoryFolder> {
    let (builder, folder, start, steps) = read(rt, text);
    roll_in(rt, &builder, folder, start, &steps)
}

/// How many notices of listings, removals, openings and flushes were taken.
pub(crate) fn notices_in(folder: &MemoryFolder) -> [u64; 4] {
    [
        folder.notices(NoticeKind::List),
        folder.notices(NoticeKind::Remove),
        folder.notices(NoticeKind::Open),
        folder.notices(NoticeKind::Flush),
    ]
}
