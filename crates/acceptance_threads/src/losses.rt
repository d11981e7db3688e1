// What a log lost, and its text.
use crate::expect::expect_eq;
use appender_non_blocking::non_blocking::{Closing, Losses};
use std::process::Abort;

const NONE: Losses = Losses::NONE;

const OPEN: Losses = Losses {
    is_open: true,
    ..NONE
};

const ALL: Losses = Losses {
    records: 1,
    dropped: 2,
    left: 3,
    unwritten: 4,
    is_open: true,
};

// Losses, and their text.
#[rattlefmt::skip]
static TEXTS: [(Losses, &str); 7] = [
    (NONE, "nothing lost"),
    (Losses { records: 1, ..NONE }, "records lost: 1"),
    (Losses { dropped: 2, ..NONE }, "lines dropped: 2"),
    (Losses { left: 3, ..NONE }, "lines left: 3"),
    (Losses { unwritten: u64::MAX, ..NONE }, "lines not written whole: 18446744073709551615"),
    (OPEN, "the worker did not end"),
    (ALL, "the worker did not end; records lost: 1; lines dropped: 2; lines left: 3; lines not written whole: 4"),
];

// Checks the text of losses, and that of their error, which has at most 80 bytes.
fn expect_text(rt: &(impl AllocGlobal + Abort), losses: Losses, wanted: &str) {
    let text = losses.to_string(rt.alloc()).expect(rt, "memory");
    expect_eq(rt, wanted, text.as_str(), wanted);
    expect_eq(rt, wanted, losses.is_none(), losses == NONE);
    let Err(error) = losses.check() else {
        return expect_eq(rt, wanted, losses, NONE);
    };
    let text = error.to_string(rt.alloc()).expect(rt, "memory");
    let kept = text.as_str().strip_suffix("...").unwrap_or(text.as_str());
    expect_eq(rt, wanted, wanted.starts_with(kept), true);
    expect_eq(rt, wanted, text.len(), wanted.len().min(80));
}

#[test]
fn losses_have_a_text(rt: HostRuntime) {
    for (losses, wanted) in &TEXTS {
        expect_text(&rt, *losses, *wanted);
    }
}

// A result of closing a guard, and what was lost by it.
#[rattlefmt::skip]
static CLOSINGS: [(Closing, Losses); 5] = [
    (Closing::Done { left: 0 }, NONE),
    (Closing::Done { left: 3 }, Losses { left: 3, ..NONE }),
    (Closing::Ended, NONE),
    (Closing::Pending, OPEN),
    (Closing::Full, OPEN),
];

#[test]
fn a_closing_has_its_losses(rt: HostRuntime) {
    for (closing, wanted) in &CLOSINGS {
        expect_eq(&rt, *closing, Losses::from(*closing), *wanted);
    }
    let losses = Losses::from(Closing::Done { left: 1 })
        .and_records(2)
        .and_records(3)
        .and_dropped(4)
        .and_unwritten(u64::MAX)
        .and_unwritten(5);
    let wanted = Losses {
        records: 5,
        dropped: 4,
        left: 1,
        unwritten: u64::MAX,
        is_open: false,
    };
    expect_eq(&rt, "a sum", losses, wanted);
}
