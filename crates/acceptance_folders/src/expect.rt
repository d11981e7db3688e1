// What these tests compare: a call of these makes a proof shorter than `assert_eq!` or `format!` does.
use std::fmt::Debug;
use std::process::Abort;

/// Ends the test if a value isn't the expected one.
pub(crate) fn expect_eq<T: Copy + PartialEq + Debug>(rt: &impl Abort, got: T, wanted: T) {
    expect_eq_of(rt, "a value", got, wanted);
}

/// The same, and prints which value it is: a name, or the row of a table.
pub(crate) fn expect_eq_of<P: Copy + Debug, T: Copy + PartialEq + Debug>(
    rt: &impl Abort,
    place: P,
    got: T,
    wanted: T,
) {
    assert!(rt;
        got == wanted,
        "{place:?}: {got:?} where {wanted:?} is wanted"
    );
}
