//! Edits as plain values for tables, and those of the worked examples.

use crate::made::{activity, event, id, span, weight};
use pesp_instance::Edit;
use std::process::Abort;

/// An edit, by the numbers of events and activities.
#[derive(Clone, Copy)]
pub(crate) enum Change {
    AddEvent(u32),
    DropEvent(u32),
    Fix(u32, u16),
    /// The event, and the first residue and the length of its window.
    SetWindow(u32, u16, u16),
    Unfix(u32),
    /// Its number, ends, bounds and weight.
    AddActivity(u32, (u32, u32), (i32, i32), u32),
    DropActivity(u32),
    SetSpan(u32, i32, i32),
    SetWeight(u32, u32),
    SetEnds(u32, u32, u32),
}

pub(crate) fn edit_of(rt: &impl Abort, change: Change) -> Edit {
    match change {
        Change::AddEvent(number) => Edit::AddEvent(event(rt, number)),
        Change::DropEvent(number) => Edit::DropEvent(event(rt, number)),
        Change::Fix(number, time) => Edit::Fix(event(rt, number), time),
        Change::SetWindow(number, first, length) => {
            Edit::SetWindow(event(rt, number), first, length)
        }
        Change::Unfix(number) => Edit::Unfix(event(rt, number)),
        Change::AddActivity(number, ends, bounds, weighs) => {
            Edit::AddActivity(activity(rt, number, ends, bounds, weighs))
        }
        Change::DropActivity(number) => Edit::DropActivity(id(rt, number)),
        Change::SetSpan(number, lower, upper) => {
            Edit::SetSpan(id(rt, number), span(rt, lower, upper))
        }
        Change::SetWeight(number, weighs) => Edit::SetWeight(id(rt, number), weight(rt, weighs)),
        Change::SetEnds(number, from, to) => {
            Edit::SetEnds(id(rt, number), event(rt, from), event(rt, to))
        }
    }
}

/// Two events and an activity each way between them, at period ten.
pub(crate) const TWO_ACTIVITIES: &[Change] = &[
    Change::AddEvent(1),
    Change::AddEvent(2),
    Change::AddActivity(1, (1, 2), (3, 5), 2),
    Change::AddActivity(2, (2, 1), (4, 6), 1),
];

/// Four events and an activity between any two, at period three.
pub(crate) const FOUR_EVENTS: &[Change] = &[
    Change::AddEvent(1),
    Change::AddEvent(2),
    Change::AddEvent(3),
    Change::AddEvent(4),
    Change::AddActivity(1, (1, 2), (1, 2), 1),
    Change::AddActivity(2, (1, 3), (1, 2), 1),
    Change::AddActivity(3, (2, 3), (1, 2), 1),
    Change::AddActivity(4, (1, 4), (1, 2), 1),
    Change::AddActivity(5, (2, 4), (1, 2), 1),
    Change::AddActivity(6, (3, 4), (1, 2), 1),
];
