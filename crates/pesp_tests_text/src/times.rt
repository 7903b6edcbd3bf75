//! The worked examples of files of times.

use crate::asserts::{refused, same};
use crate::made::event;
use crate::reading::timetable;
use pesplib_reader::{FaultKind, ReadFault};
use std::process::Abort;

/// The time of an event in a file, if it has one.
fn time_in(
    rt: &(impl Abort + AllocGlobal),
    text: &str,
    number: u32,
) -> Result<Option<u16>, ReadFault> {
    let times = timetable(rt, text.as_bytes())?;
    Ok(times.get(event(rt, number)))
}

const FAULTY_FILES: &[(&str, u64, FaultKind)] = &[
    ("1; 0\n2", 2, FaultKind::FieldCount),
    ("1; 1000000001", 1, FaultKind::OutOfRange(2)),
    ("1; 0.0", 1, FaultKind::BadNumber(2)),
    ("1; 0\n1; 0", 2, FaultKind::DuplicateEvent),
];

const TIMES: &[(u32, Option<u16>, &str)] = &[
    (1, Some(9), "event 1"),
    (7, Some(3), "event 7"),
    (2, None, "event 2"),
];

#[test]
fn times_are_taken_modulo_the_period(rt: HostRuntime) {
    let text = "event; time\n1; -1\n7; 23\n";
    for (number, time, message) in TIMES {
        same(&rt, time_in(&rt, text, *number), Ok(*time), message);
    }
    for (text, place, kind) in FAULTY_FILES {
        refused(&rt, timetable(&rt, text.as_bytes()).err(), *place, *kind);
    }
}
