// What these tests compare: a call of these makes a proof shorter than `assert_eq!` or `format!` does.
use appender_non_blocking::non_blocking::Account;
use std::alloc::AllocError;
use std::fmt::Debug;
use std::process::Abort;

/// Ends the test if a value isn't the expected one, and prints which value it is.
pub(crate) fn expect_eq<P: Copy + Debug, T: Copy + PartialEq + Debug>(
    rt: &impl Abort,
    place: P,
    got: T,
    wanted: T,
) {
    assert!(rt;
        got == wanted,
        "{place:?}: {got:?} where {wanted:?} is wanted"
    );
}

/// Ends the test if an account has other numbers: of queued lines, of those that were left, and of dropped lines.
pub(crate) fn expect_account<P: Copy + Debug>(
    rt: &impl Abort,
    place: P,
    account: Account,
    queued: u64,
    left: u64,
    dropped: usize,
) {
    let handed = queued.saturating_sub(left);
    expect_eq(rt, place, account.accepted(), queued);
    expect_eq(rt, place, account.handed(), handed);
    expect_eq(rt, place, account.left(), left);
    expect_eq(rt, place, account.dropped(), dropped);
}

/// Ends the test if the `Debug` text of a value isn't the expected one.
pub(crate) fn expect_shown<T: Copy + Debug>(
    rt: &(impl AllocGlobal + Abort),
    value: T,
    wanted: &str,
) {
    let text = format!(in rt.alloc(); "{value:?}").expect(rt, "memory");
    expect_eq(rt, "its text", text.as_str(), wanted);
}

/// Adds a value at the end. Ends the test if there is no memory.
pub(crate) fn put<T: Drop>(rt: &impl Abort, values: &mut Vec<T>, value: T) {
    values
        .push(value)
        .map_err(AllocError::from)
        .expect(rt, "memory");
}
