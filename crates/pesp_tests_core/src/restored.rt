//! The pairs that an edit restores, as the keeper by counts reports them.

use crate::asserts::{same, same_at};
use crate::changes::Change;
use crate::made::{event, push};
use crate::unpushed::Counted;
use pesp_counts::CountKeeper;
use pesp_domains::{Keeper, Pair};
use std::process::Abort;

/// These residues of an event are among the restored pairs.
fn assert_among(rt: &impl Abort, restored: &[Pair], number: u32, residues: &[u16], message: &str) {
    let event = event(rt, number);
    for residue in residues {
        let found = restored
            .iter()
            .any(|pair| pair.event == event && pair.residue == *residue);
        same_at(rt, found, true, message, u32::from(*residue));
    }
}

/// These residues of both events are restored, in any order, and no others.
fn assert_restored(
    rt: &impl Abort,
    keeper: &CountKeeper,
    first: &[u16],
    second: &[u16],
    message: &str,
) {
    let restored = keeper.restored();
    let wanted = first.len().saturating_add(second.len());
    same(rt, restored.len(), wanted, message);
    assert_among(rt, restored, 1, first, message);
    assert_among(rt, restored, 2, second, message);
}

/// Edits, and the residues of both events that each restores.
type Edits<'a> = &'a [(Change, &'a [u16], &'a [u16], &'a str)];

fn take(rt: &impl Abort, kept: &mut Counted, edits: Edits<'_>) {
    for (change, first, second, message) in edits {
        kept.change(rt, *change);
        assert_restored(rt, &kept.keeper, first, second, message);
    }
}

/// The two activities after these edits.
fn edited(rt: &(impl Abort + AllocGlobal), edits: Edits<'_>) -> Counted {
    let mut kept = Counted::two_activities(rt);
    take(rt, &mut kept, edits);
    kept
}

/// Tries each edit of the two activities. A call drops the keeper: a drop at the end makes the
/// proof slower.
fn try_edits(rt: &(impl Abort + AllocGlobal), edits: Edits<'_>) {
    drop(edited(rt, edits));
}

const A_FIXED_TIME_IS_MOVED: Edits<'_> = &[
    (Change::Fix(1, 0), &[], &[], "a first time"),
    (Change::Fix(1, 0), &[], &[], "the same time"),
    (Change::Fix(1, 1), &[1], &[6, 7], "another time"),
    (Change::SetWeight(1, 3), &[], &[], "a weight"),
];

#[test]
fn a_fixed_time_is_moved(rt: HostRuntime) {
    try_edits(&rt, A_FIXED_TIME_IS_MOVED);
}

const A_FIXED_TIME_IS_TAKEN_AWAY: Edits<'_> = &[
    (Change::Fix(1, 0), &[], &[], "a first time"),
    (Change::SetSpan(1, 3, 4), &[], &[], "a narrower span"),
    (
        Change::Unfix(1),
        &[1, 2, 3, 4, 5, 6, 7, 8, 9],
        &[0, 1, 2, 3, 5, 6, 7, 8, 9],
        "no time",
    ),
    (Change::SetSpan(1, 3, 6), &[], &[], "full rows"),
];

#[test]
fn a_fixed_time_is_taken_away(rt: HostRuntime) {
    try_edits(&rt, A_FIXED_TIME_IS_TAKEN_AWAY);
}

const A_WINDOW_IS_MOVED: Edits<'_> = &[
    (Change::SetWindow(1, 9, 3), &[], &[], "a window that wraps"),
    (Change::SetWindow(1, 0, 2), &[], &[], "it is narrowed"),
    (Change::SetWindow(1, 1, 2), &[2], &[7, 8], "it is moved"),
    (
        Change::SetWindow(1, 0, 10),
        &[0, 3, 4, 5, 6, 7, 8, 9],
        &[0, 1, 2, 3, 4, 8, 9],
        "all residues",
    ),
    (Change::Unfix(1), &[], &[], "no window"),
];

#[test]
fn a_window_is_moved(rt: HostRuntime) {
    try_edits(&rt, A_WINDOW_IS_MOVED);
}

/// The residues of the second event that return where the second activity has no partners.
const SECOND: &[u16] = &[0, 1, 2, 3, 6, 7, 8, 9];

const AN_ACTIVITY_IS_DROPPED: Edits<'_> = &[
    (Change::Fix(1, 0), &[], &[], "a first time"),
    (Change::DropActivity(2), &[], SECOND, "no activity back"),
];

#[test]
fn an_activity_is_dropped(rt: HostRuntime) {
    try_edits(&rt, AN_ACTIVITY_IS_DROPPED);
}

const THE_SAME_ENDS_ARE_GIVEN_AGAIN: Edits<'_> = &[
    (Change::Fix(1, 0), &[], &[], "a first time"),
    (Change::SetEnds(2, 2, 1), &[], SECOND, "the same ends"),
];

#[test]
fn the_same_ends_are_given_again(rt: HostRuntime) {
    try_edits(&rt, THE_SAME_ENDS_ARE_GIVEN_AGAIN);
}

const A_WIDER_SPAN_IS_GIVEN: Edits<'_> = &[
    (Change::Fix(1, 0), &[], &[], "a first time"),
    (Change::SetSpan(2, 4, 7), &[], SECOND, "a wider span"),
];

#[test]
fn a_wider_span_is_given(rt: HostRuntime) {
    try_edits(&rt, A_WIDER_SPAN_IS_GIVEN);
}

#[test]
fn no_edit_puts_nothing_back(rt: HostRuntime) {
    let kept = edited(&rt, &[]);
    assert_restored(&rt, &kept.keeper, &[], &[], "no edit that restores");
    drop(kept);
}

/// A push and a pop do not change the list.
fn assert_pushed(rt: &impl Abort, kept: &mut Counted, first: &[u16], second: &[u16]) {
    push(rt, &mut kept.keeper, event(rt, 2), 5);
    assert_restored(rt, &kept.keeper, first, second, "a push");
    kept.keeper.pop_fix();
    assert_restored(rt, &kept.keeper, first, second, "a pop");
}

/// A refused edit, a push and a pop do not change the list.
fn assert_kept(rt: &impl Abort, kept: &mut Counted, first: &[u16], second: &[u16]) {
    kept.refuse_a_time(rt);
    assert_restored(rt, &kept.keeper, first, second, "a refused edit");
    assert_pushed(rt, kept, first, second);
}

const TWO_FIXED_TIMES: Edits<'_> = &[
    (Change::Fix(1, 0), &[], &[], "a first time"),
    (Change::Fix(1, 1), &[1], &[6, 7], "another time"),
];

#[test]
fn nothing_but_an_accepted_edit_changes_the_list(rt: HostRuntime) {
    let mut kept = edited(&rt, TWO_FIXED_TIMES);
    assert_kept(&rt, &mut kept, &[1], &[6, 7]);
    drop(kept);
}
