// What these tests compare: a call of these makes a proof shorter than `assert_eq!` or `format!` does.
use std::fmt::Debug;
use std::process::Abort;

/// What the tests ask of their runtime. What a helper can't get ends the test.
pub(crate) trait AllocAndAbort: AllocGlobal + Abort {}

impl<R: AllocGlobal + Abort> AllocAndAbort for R {}

/// Ends the test if a value isn't the expected one.
pub(crate) fn expect_eq<T: Copy + PartialEq + Debug>(rt: &impl Abort, got: T, wanted: T) {
    expect_eq_of(rt, "a value", got, wanted);
}

/// The same, and prints which value it is: a name, or the row of a table.
pub(crate) fn expect_eq_of<P: Copy + Debug, T: Copy + PartialEq + Debug>(
    rt: &impl Abort,
    place: P,
    got: T,
    wanted: T,
) {
    assert!(rt;
        got == wanted,
        "{place:?}: {got:?} where {wanted:?} is wanted"
    );
}

/// Ends the test if a value has no `Debug` text.
pub(crate) fn expect_shown<T: Copy + Debug>(rt: &impl AllocAndAbort, value: T) {
    let text = format!(in rt.alloc(); "{value:?}").expect(rt, "memory");
    expect_eq(rt, text.is_empty(), false);
}

/// Returns a copy of a text.
pub(crate) fn copy_of(rt: &impl AllocAndAbort, text: &str) -> String {
    String::from_str(rt.alloc(), text).expect(rt, "memory")
}

/// Returns the bytes of a text.
pub(crate) fn bytes(rt: &impl AllocAndAbort, text: &str) -> Vec<u8> {
    text.as_bytes().to_vec(rt.alloc()).expect(rt, "memory")
}
