//! Files of activities: the worked examples, the faults, and the limits.

use crate::asserts::{refused, same};
use crate::made::{assert_two_activities, period};
use crate::reading::read;
use pesp_base::Period;
use pesplib_reader::{FaultKind, ReadFault};
use std::alloc::{AllocError, Global};
use std::process::Abort;
use std::test::Fail;

/// Why a file of activities is refused.
fn fault_of(alloc: Global, period: Period, text: &[u8]) -> Option<ReadFault> {
    read(alloc, period, text).err()
}

const READ: &[(&[u8], &str)] = &[
    (b"1; 1; 2; 3; 5; 2\n2; 2; 1; 4; 6; 1\n", "a canonical text"),
    (
        b"activity; from; to; lower; upper; weight\r\n# note\r\n1; 1; 2; 3; 5; 2.0;\r\n2; 2; 1; 4; 6; 1\r\n",
        "a header, a comment, a separator at the end and a weight with a point",
    ),
    (
        b"\xEF\xBB\xBF1,1,2,3,5,2\n2,2,1,4,6,1",
        "a byte order mark and commas",
    ),
    (
        b"\xEF\xBB\xBFid,from\n\"2\",\" 2\",1,4,\t6,\"1\"\n\n \t \n+1,01,2,+3,05,2.\n",
        "quotes, blank lines, signs and zeros, in no order",
    ),
];

#[test]
fn two_activities_are_read(rt: HostRuntime) -> Result<(), Fail> {
    let period = period(&rt, 10);
    for (text, message) in READ {
        let instance = read(rt.alloc(), period, text)?;
        assert_two_activities(&rt, &instance, message);
    }
    Ok(())
}

const FAULTY: &[(&[u8], u64, FaultKind)] = &[
    (b"1; 1; 2; 3; 5; 2.5", 1, FaultKind::FractionalWeight),
    (b"1; 1; 2; 3; 5", 1, FaultKind::FieldCount),
    (b"1; 1; 2; 3; 5; 2; x", 1, FaultKind::FieldCount),
    (b"1; 1; 2; 3; 5; 2; ;", 1, FaultKind::FieldCount),
    (b"1; 1; 2; 5; 3; 2", 1, FaultKind::Crossed),
    (b"1000000000; 1; 2; 3; 5; 2", 1, FaultKind::OutOfRange(1)),
    (b"1; 1; 2; 3; 5; 2. 0", 1, FaultKind::BadNumber(6)),
    (b"x\n# a; b\n1,1,2,3,5,2", 3, FaultKind::FieldCount),
    (
        b"1; 1; 2; 3; 5; 2\n1; 2; 1; 4; 6; 1",
        2,
        FaultKind::DuplicateActivity,
    ),
    (b"1; 1; 2; 3; 5; 2\n2; 2; 1; 4", 2, FaultKind::FieldCount),
    (
        b"1; 1; 2; 3; 5; 2\n1; 2; 1; 4; 6; 1\n2; 2; 1",
        2,
        FaultKind::DuplicateActivity,
    ),
];

#[test]
fn first_faulty_activity_is_named(rt: HostRuntime) {
    let period = period(&rt, 10);
    for (text, place, kind) in FAULTY {
        refused(&rt, fault_of(rt.alloc(), period, text), *place, *kind);
    }
}

/// Appends the row of an activity.
fn put_row(
    text: &mut String,
    number: u32,
    from: u32,
    to: u32,
    rest: &str,
) -> Result<(), AllocError> {
    writeln!(text, "{number}; {from}; {to}; {rest}")
}

/// This number of loops, each at an event of its own.
fn loops(alloc: Global, count: u32) -> Result<String, Fail> {
    let mut text = String::new(alloc);
    for number in 0..count {
        put_row(&mut text, number, number, number, "0; 9; 1")?;
    }
    Ok(text)
}

/// This number of activities between two events.
fn between_two_events(alloc: Global, count: u32) -> Result<String, Fail> {
    let mut text = String::new(alloc);
    for number in 0..count {
        put_row(&mut text, number, 1, 2, "3; 5; 2")?;
    }
    Ok(text)
}

/// A file of this number of rows has the fault in the last one, and a file of one row fewer has
/// none.
fn full_at(
    rt: &(impl Abort + AllocGlobal),
    length: u16,
    text: Result<String, Fail>,
    rows: u32,
    kind: FaultKind,
) -> Result<(), Fail> {
    let fault = fault_of(rt.alloc(), period(rt, length), text?.as_bytes());
    let place = u64::from(rows);
    same(
        rt,
        fault,
        Some(ReadFault { place, kind }),
        "one row too many",
    );
    Ok(())
}

/// Periods, with the first event and the first activity beyond the limit of each.
const LIMITS: &[(u16, u32, u32)] = &[
    (60, 20_001, 100_001),
    (121, 19_835, 99_174),
    (1_440, 1_667, 8_334),
];

#[test]
fn limits_on_events_and_activities(rt: HostRuntime) -> Result<(), Fail> {
    for (length, events, activities) in LIMITS {
        let text = loops(rt.alloc(), *events);
        full_at(&rt, *length, text, *events, FaultKind::TooManyEvents)?;
        let text = between_two_events(rt.alloc(), *activities);
        full_at(
            &rt,
            *length,
            text,
            *activities,
            FaultKind::TooManyActivities,
        )?;
    }
    Ok(())
}
