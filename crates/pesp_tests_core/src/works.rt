//! The work of an edit, as the keeper by counts reports it.

use crate::asserts::{hold, same};
use crate::changes::Change;
use crate::made::{activity, event, push};
use crate::unpushed::Counted;
use pesp_base::{Activity, Period};
use pesp_counts::{CountKeeper, Work};
use pesp_domains::Keeper;
use pesp_instance::{Edit, Instance};
use std::process::Abort;

/// The numbers of pairs that an edit restored and removed, and the greatest number of probes, if
/// one is given.
type Taken = (u64, u64, Option<u64>);

fn assert_taken(rt: &impl Abort, keeper: &CountKeeper, taken: Taken, message: &str) {
    let (restored, removed, most) = taken;
    let work = keeper.last_work();
    same(rt, work.restored, restored, message);
    same(rt, work.removed, removed, message);
    let probes = work.probes;
    hold(rt, probes <= most.unwrap_or(probes), message);
}

/// Edits, and the work of each.
type Edits<'a> = &'a [(Change, Taken, &'a str)];

fn take(rt: &impl Abort, kept: &mut Counted, edits: Edits<'_>) {
    for (change, taken, message) in edits {
        kept.change(rt, *change);
        assert_taken(rt, &kept.keeper, *taken, message);
    }
}

/// The two activities after these edits.
fn edited(rt: &(impl Abort + AllocGlobal), edits: Edits<'_>) -> Counted {
    let mut kept = Counted::two_activities(rt);
    take(rt, &mut kept, edits);
    kept
}

/// Tries each edit of the two activities. A call drops the keeper: a drop at the end makes the
/// proof slower.
fn try_edits(rt: &(impl Abort + AllocGlobal), edits: Edits<'_>) {
    drop(edited(rt, edits));
}

const BOTH_ROWS_ARE_FILLED_AGAIN: Edits<'_> = &[
    (Change::Fix(1, 0), (0, 17, None), "a first time"),
    (Change::SetSpan(1, 3, 4), (0, 1, None), "a narrower span"),
    (Change::Unfix(1), (18, 0, None), "no time"),
];

#[test]
fn both_rows_are_filled_again(rt: HostRuntime) {
    try_edits(&rt, BOTH_ROWS_ARE_FILLED_AGAIN);
}

const A_FIXED_TIME_IS_MOVED: Edits<'_> = &[
    (Change::Fix(1, 0), (0, 17, None), "a first time"),
    (Change::Fix(1, 1), (3, 3, None), "another time"),
];

#[test]
fn a_fixed_time_is_moved(rt: HostRuntime) {
    try_edits(&rt, A_FIXED_TIME_IS_MOVED);
}

const A_WINDOW_IS_MOVED: Edits<'_> = &[
    (
        Change::SetWindow(1, 9, 3),
        (0, 13, None),
        "a window that wraps",
    ),
    (Change::SetWindow(1, 0, 2), (0, 2, None), "it is narrowed"),
    (Change::SetWindow(1, 1, 2), (3, 3, None), "it is moved"),
    (Change::SetWindow(1, 0, 10), (15, 0, None), "all residues"),
    (Change::Unfix(1), (0, 0, None), "no window"),
];

#[test]
fn a_window_is_moved(rt: HostRuntime) {
    try_edits(&rt, A_WINDOW_IS_MOVED);
}

const THE_SAME_TIME_IS_GIVEN_AGAIN: Edits<'_> = &[
    (Change::Fix(1, 0), (0, 17, None), "a first time"),
    (Change::Fix(1, 0), (0, 0, Some(400)), "the same time"),
];

#[test]
fn the_same_time_is_given_again(rt: HostRuntime) {
    try_edits(&rt, THE_SAME_TIME_IS_GIVEN_AGAIN);
}

const AN_ACTIVITY_IS_DROPPED: Edits<'_> = &[
    (Change::Fix(1, 0), (0, 17, None), "a first time"),
    (
        Change::DropActivity(2),
        (8, 7, Some(1300)),
        "no activity back",
    ),
];

#[test]
fn an_activity_is_dropped(rt: HostRuntime) {
    try_edits(&rt, AN_ACTIVITY_IS_DROPPED);
}

const THE_SAME_ENDS_ARE_GIVEN_AGAIN: Edits<'_> = &[
    (Change::Fix(1, 0), (0, 17, None), "a first time"),
    (Change::SetEnds(2, 2, 1), (8, 8, None), "the same ends"),
];

#[test]
fn the_same_ends_are_given_again(rt: HostRuntime) {
    try_edits(&rt, THE_SAME_ENDS_ARE_GIVEN_AGAIN);
}

fn accept(rt: &impl Abort, instance: &mut Instance, edit: Edit) {
    same(rt, instance.apply(&edit), Ok(()), "the edit is accepted");
}

fn join(rt: &impl Abort, instance: &mut Instance, activity: Activity) {
    accept(rt, instance, Edit::AddActivity(activity));
}

/// Events 1001 to 3000 beside events 1 and 2.
fn add_events(rt: &impl Abort, instance: &mut Instance) {
    for number in (1..3).chain(1001..3001) {
        accept(rt, instance, Edit::AddEvent(event(rt, number)));
    }
}

/// Activities 1 and 2 between events 1 and 2, and activities 1001 to 2999, each from one other
/// event to the next.
fn join_events(rt: &impl Abort, instance: &mut Instance) {
    join(rt, instance, activity(rt, 1, (1, 2), (3, 5), 2));
    join(rt, instance, activity(rt, 2, (2, 1), (4, 6), 1));
    for number in 1001..3000 {
        let next = activity(rt, number, (number, number + 1), (2, 4), 1);
        join(rt, instance, next);
    }
}

fn chain(rt: &(impl Abort + AllocGlobal)) -> Instance {
    let period = Period::new(10).expect(rt, "a period");
    let mut instance = Instance::new(rt.alloc(), period);
    add_events(rt, &mut instance);
    join_events(rt, &mut instance);
    instance
}

#[test]
fn a_long_chain(rt: HostRuntime) {
    let mut kept = Counted::of(&rt, chain(&rt));
    kept.change(&rt, Change::SetSpan(1, 3, 6));
    assert_taken(&rt, &kept.keeper, (0, 0, Some(400)), "a wider span");
    drop(kept);
}

/// This is the work of the last edit.
fn assert_work(rt: &impl Abort, keeper: &CountKeeper, work: Work, message: &str) {
    same(rt, keeper.last_work(), work, message);
}

#[test]
fn no_edit_takes_nothing(rt: HostRuntime) {
    let kept = Counted::made(&rt, 10, &[]);
    let none = Work {
        restored: 0,
        removed: 0,
        probes: 0,
    };
    assert_work(&rt, &kept.keeper, none, "no edit");
    drop(kept);
}

/// A push and a pop do not change the work.
fn assert_pushed(rt: &impl Abort, kept: &mut Counted, work: Work) {
    push(rt, &mut kept.keeper, event(rt, 2), 5);
    assert_work(rt, &kept.keeper, work, "a push");
    kept.keeper.pop_fix();
    assert_work(rt, &kept.keeper, work, "a pop");
}

/// A refused edit, a push and a pop do not change the work.
fn assert_kept(rt: &impl Abort, kept: &mut Counted) {
    let work = kept.keeper.last_work();
    kept.refuse_a_time(rt);
    assert_work(rt, &kept.keeper, work, "a refused edit");
    assert_pushed(rt, kept, work);
}

const A_FIRST_TIME: Edits<'_> = &[(Change::Fix(1, 0), (0, 17, None), "a first time")];

#[test]
fn nothing_but_an_accepted_edit_changes_the_work(rt: HostRuntime) {
    let mut kept = edited(&rt, A_FIRST_TIME);
    assert_kept(&rt, &mut kept);
    drop(kept);
}
