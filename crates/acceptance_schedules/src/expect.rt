// What these tests compare: a call of these makes a proof shorter than `assert_eq!` does.
use appender_non_blocking::non_blocking;
use std::fmt::Debug;
use std::process::Abort;

/// The runtime of a test.
pub(crate) trait Host: non_blocking::Host + Abort {}

impl<R: non_blocking::Host + Abort> Host for R {}

/// Ends the test if a value isn't the expected one.
pub(crate) fn expect_eq<T: Copy + PartialEq + Debug>(rt: &impl Abort, got: T, wanted: T) {
    assert!(rt; got == wanted, "{got:?} where {wanted:?} is wanted");
}
