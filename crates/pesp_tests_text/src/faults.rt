//! The texts of the faults of files.

use crate::asserts::same_text;
use pesplib_reader::FaultKind;
use std::alloc::{AllocError, Global};
use std::test::Fail;

/// The text of a fault.
fn shown(alloc: Global, kind: FaultKind) -> Result<String, AllocError> {
    kind.to_string(alloc)
}

#[test]
fn texts_of_faults(rt: HostRuntime) -> Result<(), Fail> {
    let texts = [
        (FaultKind::FieldCount, "wrong number of fields"),
        (FaultKind::BadNumber(6), "field 6 is not a number"),
        (FaultKind::OutOfRange(1), "field 1 is out of range"),
        (FaultKind::FractionalWeight, "weight has a fraction"),
        (FaultKind::Crossed, "lower bound above upper bound"),
        (FaultKind::DuplicateActivity, "activity number is repeated"),
        (FaultKind::DuplicateEvent, "event is repeated"),
        (FaultKind::NoEvent, "event is not in the instance"),
        (FaultKind::TooManyEvents, "too many events"),
        (FaultKind::TooManyActivities, "too many activities"),
        (FaultKind::Memory, "out of memory"),
    ];
    for (kind, text) in texts {
        let shown = shown(rt.alloc(), kind)?;
        same_text(&rt, shown.as_bytes(), text, text);
    }
    Ok(())
}
