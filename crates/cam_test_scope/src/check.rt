//! What a test asserts, as a call: an `assert_eq!` in place makes the proof of its test longer.
use std::fmt::Debug;
use std::process::Abort;

/// Fails the test, and tells both, where they differ.
pub(crate) fn same<T: PartialEq + Debug + Copy>(rt: &impl Abort, got: T, wanted: T) {
    assert_eq!(rt; got, wanted);
}
