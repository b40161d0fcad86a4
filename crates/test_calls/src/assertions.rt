//! What the tests assert. The proof of a call of these costs a small part of that of an assertion that is written out.
use std::fmt::Debug;
use std::process::Abort;

/// Asserts that a value is the one that is wanted.
pub fn assert_same<R: Abort, T: PartialEq + Debug + Drop>(rt: &R, seen: T, wanted: T) {
    assert_eq!(rt; seen, wanted);
}

/// Asserts that a value is the one that is wanted, and says at which row of a table it isn't.
pub fn assert_same_at<R: Abort, T: PartialEq + Debug + Drop>(
    rt: &R,
    row: &str,
    seen: T,
    wanted: T,
) {
    assert_eq!(rt; seen, wanted, "{row}");
}
