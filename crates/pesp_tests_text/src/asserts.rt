//! Assertions in small functions: a message that is written out is proved each time.

use pesplib_reader::{FaultKind, ReadFault};
use std::fmt::Debug;
use std::process::Abort;

/// Both are the same.
pub(crate) fn same<T: PartialEq + Debug + Drop>(
    rt: &impl Abort,
    found: T,
    wanted: T,
    message: &str,
) {
    assert_eq!(rt; found, wanted, "{message}");
}

/// Both are the same, and the message is words and a number.
pub(crate) fn same_at<T: PartialEq + Debug + Drop>(
    rt: &impl Abort,
    found: T,
    wanted: T,
    words: &str,
    number: usize,
) {
    assert_eq!(rt; found, wanted, "{words} {number}");
}

/// The bytes are those of the text.
pub(crate) fn same_text(rt: &impl Abort, found: &[u8], wanted: &str, message: &str) {
    assert_eq!(rt; found, wanted.as_bytes(), "{message}");
}

/// A file is refused at this record, for this reason.
pub(crate) fn refused(rt: &impl Abort, fault: Option<ReadFault>, place: u64, kind: FaultKind) {
    assert_eq!(rt; fault, Some(ReadFault { place, kind }), "{kind}");
}
