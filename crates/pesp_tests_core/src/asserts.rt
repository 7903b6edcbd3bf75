//! Assertions in small functions: a message that is written out is proved each time.

use std::fmt::Debug;
use std::process::Abort;

/// The condition of the message holds.
pub(crate) fn hold(rt: &impl Abort, holds: bool, message: &str) {
    assert!(rt; holds, "{message}");
}

/// The value found is the expected one.
pub(crate) fn same<T: Copy + PartialEq + Debug>(
    rt: &impl Abort,
    found: T,
    wanted: T,
    message: &str,
) {
    assert_eq!(rt; found, wanted, "{message}");
}

/// The value found is the expected one. The message is words and a number.
pub(crate) fn same_at<T: Copy + PartialEq + Debug>(
    rt: &impl Abort,
    found: T,
    wanted: T,
    words: &str,
    number: u32,
) {
    assert_eq!(rt; found, wanted, "{words} {number}");
}
