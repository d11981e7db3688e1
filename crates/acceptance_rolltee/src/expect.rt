// What these tests compare: a call of these makes a proof shorter than `assert_eq!` or `format!` does.
use std::fmt::Debug;
use std::process::Abort;

/// What a test needs of its runtime, where it starts nothing.
pub(crate) trait AllocAndAbort: AllocGlobal + Abort {}

impl<R: AllocGlobal + Abort> AllocAndAbort for R {}

/// Ends the test if a value isn't the expected one.
pub(crate) fn expect_eq<T: Copy + PartialEq + Debug>(rt: &impl Abort, got: T, wanted: T) {
    assert!(rt; got == wanted, "{got:?} where {wanted:?} is wanted");
}
