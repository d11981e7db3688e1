// What these tests compare: a call of these makes a proof shorter than `assert_eq!` or `format!` does.
use std::fmt::{Debug, Display};
use std::process::Abort;

/// What the tests ask of their runtime. What a helper can't get ends the test.
pub(crate) trait AllocAndAbort: AllocGlobal + Abort {}

impl<R: AllocGlobal + Abort> AllocAndAbort for R {}

/// Ends the test if a value isn't the expected one.
pub(crate) fn expect_eq<T: Copy + PartialEq + Debug>(rt: &impl Abort, got: T, wanted: T) {
    expect_eq_of(rt, "a value", got, wanted);
}

/// The same, and prints which value it is: a name, or the row of a table.
pub(crate) fn expect_eq_of<P: Copy + Debug, T: Copy + PartialEq + Debug>(
    rt: &impl Abort,
    place: P,
    got: T,
    wanted: T,
) {
    assert!(rt;
        got == wanted,
        "{place:?}: {got:?} where {wanted:?} is wanted"
    );
}

/// Returns the `Debug` text of a value.
pub(crate) fn debug_text<T: Copy + Debug>(rt: &impl AllocAndAbort, value: T) -> String {
    format!(in rt.alloc(); "{value:?}").expect(rt, "memory")
}

/// Returns the texts of two values, one after the other.
pub(crate) fn pair_text<A: Copy + Display, B: Copy + Display>(
    rt: &impl AllocAndAbort,
    first: A,
    second: B,
) -> String {
    format!(in rt.alloc(); "{first}{second}").expect(rt, "memory")
}
