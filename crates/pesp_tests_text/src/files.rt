//! The worked examples of written files.

use crate::asserts::same_text;
use crate::made::{apply, event, lone_event};
use crate::reading::{read_both, timetable};
use pesp_instance::Edit;
use pesplib_writer::{write_activities, write_fixed, write_times};
use std::process::Abort;
use std::test::Fail;

const ACTIVITIES: &str = "1; 1; 2; 3; 5; 2\n2; 2; 1; 4; 6; 1\n";

/// The activities of a file, written again.
///
/// Like the next functions it has no contract, so that proofs of the tests compute no text.
fn activities_written(rt: &(impl Abort + AllocGlobal), activities: &str) -> Result<Vec<u8>, Fail> {
    let instance = read_both(rt, activities, "")?;
    Ok(write_activities(rt.alloc(), &instance)?)
}

/// The fixed times of a file, written again.
fn fixed_written(
    rt: &(impl Abort + AllocGlobal),
    activities: &str,
    fixed: &str,
) -> Result<Vec<u8>, Fail> {
    let instance = read_both(rt, activities, fixed)?;
    Ok(write_fixed(rt.alloc(), &instance)?)
}

/// The fixed times of an instance of one event with a window, of this first residue and length, written.
fn window_written(
    rt: &(impl Abort + AllocGlobal),
    number: u32,
    window: (u16, u16),
) -> Result<Vec<u8>, Fail> {
    let mut instance = lone_event(rt, number);
    let edit = Edit::SetWindow(event(rt, number), window.0, window.1);
    apply(rt, &mut instance, edit);
    Ok(write_fixed(rt.alloc(), &instance)?)
}

/// The activities of an instance of one event and nothing else, written.
fn lone_event_written(rt: &(impl Abort + AllocGlobal), number: u32) -> Result<Vec<u8>, Fail> {
    let instance = lone_event(rt, number);
    Ok(write_activities(rt.alloc(), &instance)?)
}

/// The times of a file, written again.
fn times_written(rt: &(impl Abort + AllocGlobal), times: &str) -> Result<Vec<u8>, Fail> {
    let timetable = timetable(rt, times.as_bytes())?;
    Ok(write_times(rt.alloc(), &timetable)?)
}

const ACTIVITY_FILES: &[(&str, &str, &str)] = &[
    (ACTIVITIES, ACTIVITIES, "a canonical text"),
    (
        "id,from\n+2,2,01,4,6,1.0\n1,1,2,3,5,2",
        ACTIVITIES,
        "a header, commas and signs, in no order",
    ),
    (
        "7; 3; 3; -2; 0; 1000000000\n",
        "7; 3; 3; -2; 0; 1000000000\n",
        "a loop with a negative lower bound and the greatest weight",
    ),
    ("", "", "no activities"),
];

#[test]
fn activities_are_written(rt: HostRuntime) -> Result<(), Fail> {
    for (given, expected, message) in ACTIVITY_FILES {
        let text = activities_written(&rt, given)?;
        same_text(&rt, text.as_slice(), expected, message);
    }
    Ok(())
}

#[test]
fn event_without_activities_has_no_row(rt: HostRuntime) -> Result<(), Fail> {
    let text = lone_event_written(&rt, 7)?;
    same_text(&rt, text.as_slice(), "", "an event without activities");
    Ok(())
}

const FIXED_FILES: &[(&str, &str, &str)] = &[
    ("1; 0", "1; 0\n", "one of two events is fixed"),
    (
        "2; -1\n1; 13\n",
        "1; 3\n2; 9\n",
        "both are, and their times are residues",
    ),
    ("", "", "none is fixed"),
];

#[test]
fn fixed_times_are_written(rt: HostRuntime) -> Result<(), Fail> {
    for (given, expected, message) in FIXED_FILES {
        let text = fixed_written(&rt, ACTIVITIES, given)?;
        same_text(&rt, text.as_slice(), expected, message);
    }
    Ok(())
}

const WINDOWS: &[((u16, u16), &str, &str)] = &[
    ((3, 1), "7; 3\n", "a window of one residue"),
    ((3, 2), "", "of two"),
    ((0, 10), "", "of all"),
];

#[test]
fn wide_windows_are_no_fixed_times(rt: HostRuntime) -> Result<(), Fail> {
    for (window, expected, message) in WINDOWS {
        let text = window_written(&rt, 7, *window)?;
        same_text(&rt, text.as_slice(), expected, message);
    }
    Ok(())
}

const TIME_FILES: &[(&str, &str, &str)] = &[
    ("", "", "no times"),
    ("2; 4\n1; 0\n", "1; 0\n2; 4\n", "two times"),
];

#[test]
fn times_are_written(rt: HostRuntime) -> Result<(), Fail> {
    for (given, expected, message) in TIME_FILES {
        let text = times_written(&rt, given)?;
        same_text(&rt, text.as_slice(), expected, message);
    }
    Ok(())
}
