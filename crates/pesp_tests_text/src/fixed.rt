//! The worked examples of files of fixed times.

use crate::asserts::{refused, same};
use crate::made::{apply, assert_fixed, event};
use crate::reading::{fix, read_both};
use pesp_instance::{Edit, Instance};
use pesplib_reader::FaultKind;
use std::process::Abort;
use std::test::Fail;

/// A file is refused at this record, for this reason, and no event is fixed.
fn assert_refused(
    rt: &(impl Abort + AllocGlobal),
    instance: &mut Instance,
    text: &str,
    place: u64,
    kind: FaultKind,
) {
    let fixed = fix(rt.alloc(), instance, text.as_bytes());
    refused(rt, fixed.err(), place, kind);
    assert_fixed(
        rt,
        instance,
        (None, None),
        "no event is fixed after a fault",
    );
}

/// A file is accepted, and the events are then fixed at these times, or not at all.
fn assert_taken(
    rt: &(impl Abort + AllocGlobal),
    instance: &mut Instance,
    text: &str,
    times: (Option<u16>, Option<u16>),
    message: &str,
) {
    let fixed = fix(rt.alloc(), instance, text.as_bytes());
    same(rt, fixed, Ok(()), message);
    assert_fixed(rt, instance, times, message);
}

const TAKEN: &[(&str, (Option<u16>, Option<u16>), &str)] = &[
    ("1; 12", (Some(2), None), "one event"),
    ("2; -1\n1; 3\n", (Some(3), Some(9)), "both events"),
];

const REFUSED: &[(&str, u64, FaultKind)] = &[
    ("7; 0", 1, FaultKind::NoEvent),
    ("1; 0\n1; 0", 2, FaultKind::DuplicateEvent),
    ("1; 0\n2; 3; 4", 2, FaultKind::FieldCount),
];

/// A fixed time from a file replaces a window of any length.
fn fix_in_place_of_a_window(rt: &(impl Abort + AllocGlobal), instance: &mut Instance) {
    apply(rt, instance, Edit::SetWindow(event(rt, 2), 0, 3));
    assert_fixed(rt, instance, (Some(3), None), "a window of three residues");
    let times = (Some(3), Some(7));
    assert_taken(rt, instance, "2; 7\n", times, "in place of a window");
}

/// Faulty files first, and then two that are accepted.
fn assert_files(rt: &(impl Abort + AllocGlobal), instance: &mut Instance) {
    for (text, place, kind) in REFUSED {
        assert_refused(rt, instance, text, *place, *kind);
    }
    for (text, times, message) in TAKEN {
        assert_taken(rt, instance, text, *times, message);
    }
}

#[test]
fn times_are_fixed_together_or_not_at_all(rt: HostRuntime) -> Result<(), Fail> {
    let mut instance = read_both(&rt, "1; 1; 2; 3; 5; 2\n2; 2; 1; 4; 6; 1\n", "")?;
    assert_files(&rt, &mut instance);
    fix_in_place_of_a_window(&rt, &mut instance);
    Ok(())
}
