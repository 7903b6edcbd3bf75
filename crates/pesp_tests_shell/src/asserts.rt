//! Assertions in small functions: a message that is written out is proved each time.

use std::fmt::Debug;
use std::process::Abort;

/// The condition holds.
pub(crate) fn hold(rt: &impl Abort, holds: bool, message: &str) {
    assert!(rt; holds, "{message}");
}

/// The condition holds. The message is words and a number.
pub(crate) fn hold_at(rt: &impl Abort, holds: bool, words: &str, number: usize) {
    assert!(rt; holds, "{words} {number}");
}

/// Both are the same.
pub(crate) fn same<T: PartialEq + Debug + Drop>(
    rt: &impl Abort,
    found: T,
    wanted: T,
    message: &str,
) {
    assert_eq!(rt; found, wanted, "{message}");
}

/// Both are the same, and the message is words and a number.
pub(crate) fn same_at<T: PartialEq + Debug + Drop>(
    rt: &impl Abort,
    found: T,
    wanted: T,
    words: &str,
    number: usize,
) {
    assert_eq!(rt; found, wanted, "{words} {number}");
}

/// Both are the same, over a keeper.
pub(crate) fn same_with<T: PartialEq + Debug + Drop>(
    rt: &impl Abort,
    found: T,
    wanted: T,
    keeper: &str,
    message: &str,
) {
    assert_eq!(rt; found, wanted, "{keeper}: {message}");
}

/// The bytes are those of the text.
pub(crate) fn same_text(rt: &impl Abort, found: &[u8], wanted: &str, message: &str) {
    assert_eq!(rt; found, wanted.as_bytes(), "{message}");
}
