//! Windows and the residues in them, and edits of windows with their refusals.

use crate::asserts::{same, same_at};
use crate::changes::{Change, TWO_ACTIVITIES, edit_of};
use crate::made::event;
use pesp_base::{Period, Refusal, Window};
use pesp_instance::Instance;
use std::process::Abort;

fn ten(rt: &impl Abort) -> Period {
    Period::new(10).expect(rt, "a period")
}

/// First residues and lengths, and whether they make a window at period 10.
const LIMITS: &[(u16, u16, bool, &str)] = &[
    (0, 1, true, "one residue"),
    (9, 10, true, "all residues, from the last one"),
    (0, 0, false, "no residue"),
    (0, 11, false, "one residue too many"),
    (10, 1, false, "from the period"),
];

#[test]
fn limits_of_windows(rt: HostRuntime) {
    for (first, length, is_window, message) in LIMITS {
        let window = Window::new(ten(&rt), *first, *length);
        same(&rt, window.is_some(), *is_window, message);
    }
}

/// First residues and lengths, the residues up to 11 that are in the window at period 10, and the
/// time of a window of one residue.
const RESIDUES: &[(u16, u16, &[u16], Option<u16>)] = &[
    (9, 3, &[0, 1, 9], None),
    (0, 2, &[0, 1], None),
    (4, 1, &[4], Some(4)),
    (3, 10, &[0, 1, 2, 3, 4, 5, 6, 7, 8, 9], None),
];

fn assert_residues(rt: &impl Abort, window: Window, residues: &[u16]) {
    for residue in 0..12 {
        let is_wanted = residues.contains(&residue);
        let holds = window.holds(ten(rt), residue);
        same_at(rt, holds, is_wanted, "residue", u32::from(residue));
    }
}

#[test]
fn residues_of_windows(rt: HostRuntime) {
    for (first, length, residues, time) in RESIDUES {
        let window = Window::new(ten(&rt), *first, *length).expect(&rt, "a window");
        same(&rt, window.first(), *first, "the first residue");
        same(&rt, window.length(), *length, "the length");
        same(&rt, window.only_time(), *time, "the only time");
        assert_residues(&rt, window, residues);
    }
}

/// An event's window, as its first residue and its length.
type Seen = Option<(u16, u16)>;

fn seen(rt: &impl Abort, instance: &Instance, number: u32) -> Seen {
    let window = instance.window(event(rt, number))?;
    Some((window.first(), window.length()))
}

/// Edits of event 1, its window after each, and its fixed time.
const EDITS: &[(Change, Seen, Option<u16>, &str)] = &[
    (Change::SetWindow(1, 9, 3), Some((9, 3)), None, "it wraps"),
    (Change::SetWindow(1, 0, 2), Some((0, 2)), None, "narrower"),
    (Change::Fix(1, 7), Some((7, 1)), Some(7), "fixed"),
    (
        Change::SetWindow(1, 4, 1),
        Some((4, 1)),
        Some(4),
        "of one residue",
    ),
    (Change::SetWindow(1, 0, 10), Some((0, 10)), None, "of all"),
    (Change::Unfix(1), None, None, "no window"),
];

fn two_activities(rt: &(impl Abort + AllocGlobal)) -> Instance {
    let mut instance = Instance::new(rt.alloc(), ten(rt));
    for change in TWO_ACTIVITIES {
        same(rt, instance.apply(&edit_of(rt, *change)), Ok(()), "an edit");
    }
    instance
}

fn assert_edits(rt: &impl Abort, instance: &mut Instance) {
    for (change, window, time, message) in EDITS {
        same(rt, instance.apply(&edit_of(rt, *change)), Ok(()), message);
        same(rt, seen(rt, instance, 1), *window, message);
        same(rt, instance.fixed(event(rt, 1)), *time, message);
    }
}

#[test]
fn windows_come_and_go(rt: HostRuntime) {
    let mut instance = two_activities(&rt);
    assert_edits(&rt, &mut instance);
    drop(instance);
}

/// Why a window is refused.
#[derive(Clone, Copy)]
enum Why {
    /// No event has this number.
    NoEvent(u32),
    /// The first residue is not below the period.
    First(u16),
    Length(u16),
}

fn refusal_of(rt: &impl Abort, why: Why) -> Refusal {
    match why {
        Why::NoEvent(number) => Refusal::NoEvent(event(rt, number)),
        Why::First(first) => Refusal::TimeOutOfRange(first),
        Why::Length(length) => Refusal::LengthOutOfRange(length),
    }
}

/// Refused windows, each for the first of its reasons.
const REFUSALS: &[(Change, Why, &str)] = &[
    (Change::SetWindow(9, 0, 1), Why::NoEvent(9), "no event"),
    (Change::SetWindow(9, 10, 0), Why::NoEvent(9), "all three"),
    (Change::SetWindow(1, 10, 0), Why::First(10), "two reasons"),
    (Change::SetWindow(1, 10, 1), Why::First(10), "a late one"),
    (Change::SetWindow(1, 0, 0), Why::Length(0), "no residue"),
    (Change::SetWindow(1, 0, 11), Why::Length(11), "too long"),
];

/// A refusal does not change the window of event 1.
fn assert_refusals(rt: &impl Abort, instance: &mut Instance, window: Seen) {
    for (change, why, message) in REFUSALS {
        let refused = instance.apply(&edit_of(rt, *change));
        same(rt, refused, Err(refusal_of(rt, *why)), message);
        same(rt, seen(rt, instance, 1), window, message);
    }
}

fn refuse_beside_a_window(rt: &impl Abort, instance: &mut Instance) {
    let window = edit_of(rt, Change::SetWindow(1, 9, 3));
    same(rt, instance.apply(&window), Ok(()), "a window");
    assert_refusals(rt, instance, Some((9, 3)));
}

#[test]
fn windows_are_refused(rt: HostRuntime) {
    let mut instance = two_activities(&rt);
    assert_refusals(&rt, &mut instance, None);
    refuse_beside_a_window(&rt, &mut instance);
    drop(instance);
}
