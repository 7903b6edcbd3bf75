//! The worked examples of instances written as scripts.

use crate::asserts::same_text;
use crate::made::{apply, event, lone_event};
use crate::reading::read_both;
use pesp_instance::Edit;
use pesplib_writer::dump;
use std::process::Abort;
use std::test::Fail;

/// The script of the instance of these files at period 10.
///
/// Like the next function it has no contract, so that proofs of the tests compute no text.
fn dumped(rt: &(impl Abort + AllocGlobal), activities: &str, fixed: &str) -> Result<Vec<u8>, Fail> {
    let instance = read_both(rt, activities, fixed)?;
    Ok(dump(rt.alloc(), &instance)?)
}

/// The script of an instance of one event with a window, of this first residue and length, and nothing else.
fn lone_event_dumped(
    rt: &(impl Abort + AllocGlobal),
    number: u32,
    window: (u16, u16),
) -> Result<Vec<u8>, Fail> {
    let mut instance = lone_event(rt, number);
    let edit = Edit::SetWindow(event(rt, number), window.0, window.1);
    apply(rt, &mut instance, edit);
    Ok(dump(rt.alloc(), &instance)?)
}

const INSTANCES: &[(&str, &str, &str, &str)] = &[
    (
        "1; 1; 2; 3; 5; 2\n2; 2; 1; 4; 6; 1\n",
        "",
        "# period 10 lines 4\nadd event 1\nadd event 2\nadd activity 1 1 2 3 5 2\nadd activity 2 2 1 4 6 1\n",
        "two activities",
    ),
    (
        "7; 4; 3; -2; 5; 0\n",
        "4; 9\n3; 0\n",
        "# period 10 lines 5\nadd event 3\nadd event 4\nfix 3 0\nfix 4 9\nadd activity 7 4 3 -2 5 0\n",
        "an activity between two fixed events",
    ),
    ("", "", "# period 10 lines 0\n", "nothing"),
];

#[test]
fn instances_are_dumped(rt: HostRuntime) -> Result<(), Fail> {
    for (activities, fixed, script, message) in INSTANCES {
        let text = dumped(&rt, activities, fixed)?;
        same_text(&rt, text.as_slice(), script, message);
    }
    Ok(())
}

const LONE_EVENTS: &[((u16, u16), &str, &str)] = &[
    (
        (3, 1),
        "# period 10 lines 2\nadd event 7\nfix 7 3\n",
        "a fixed event",
    ),
    (
        (9, 3),
        "# period 10 lines 2\nadd event 7\nwindow 7 9 3\n",
        "a window that wraps",
    ),
    (
        (4, 10),
        "# period 10 lines 2\nadd event 7\nwindow 7 4 10\n",
        "a window of all residues",
    ),
];

#[test]
fn lone_event_is_dumped(rt: HostRuntime) -> Result<(), Fail> {
    for (window, script, message) in LONE_EVENTS {
        let text = lone_event_dumped(&rt, 7, *window)?;
        same_text(&rt, text.as_slice(), script, message);
    }
    Ok(())
}
