//! The rows of the worked examples, by edits, pushes and pops.

use crate::asserts::{hold, same};
use crate::changes::{Change, FOUR_EVENTS, TWO_ACTIVITIES};
use crate::made::{event, push};
use crate::unpushed::Unpushed;
use pesp_counts::CountKeeper;
use pesp_domains::{Keeper, PlainKeeper};
use std::process::Abort;

/// Events and the residues in their rows.
type Rows<'a> = &'a [(u32, &'a [u16])];

/// Edits, the rows after each, and a message.
type Edits<'a> = &'a [(Change, Rows<'a>, &'a str)];

/// The residues at period 10.
const ALL: &[u16] = &[0, 1, 2, 3, 4, 5, 6, 7, 8, 9];

/// Both rows of the two activities.
const BOTH: Rows<'_> = &[(1, ALL), (2, ALL)];

fn assert_row<K: Keeper>(rt: &impl Abort, keeper: &K, number: u32, wanted: &[u16], message: &str) {
    let event = event(rt, number);
    let row = keeper.row(event).expect(rt, "a row");
    same(rt, row.len(), wanted.len(), message);
    let mut next = 0;
    for residue in wanted {
        same(rt, row.next_from(next), Some(*residue), message);
        hold(rt, row.holds(*residue), message);
        hold(rt, keeper.holds(event, *residue), message);
        next = residue.saturating_add(1);
    }
    same(rt, row.next_from(next), None, message);
}

fn assert_rows<K: Keeper>(rt: &impl Abort, keeper: &K, rows: Rows<'_>, message: &str) {
    for (number, wanted) in rows {
        assert_row(rt, keeper, *number, wanted, message);
    }
}

fn assert_edits<K: Keeper>(rt: &impl Abort, kept: &mut Unpushed<K>, edits: Edits<'_>) {
    for (change, rows, message) in edits {
        kept.change(rt, *change);
        assert_rows(rt, &kept.keeper, rows, message);
    }
}

fn edited_by<K: Keeper>(
    rt: &(impl Abort + AllocGlobal),
    period: u16,
    made: &[Change],
    first: Rows<'_>,
    edits: Edits<'_>,
) -> Unpushed<K> {
    let mut kept: Unpushed<K> = Unpushed::made(rt, period, made);
    assert_rows(rt, &kept.keeper, first, "before the edits");
    assert_edits(rt, &mut kept, edits);
    kept
}

/// A keeper of either kind, of the instance that the edits make at period 10, has the first rows,
/// and after each further edit the rows beside it.
fn try_edits(rt: &(impl Abort + AllocGlobal), made: &[Change], first: Rows<'_>, edits: Edits<'_>) {
    drop(edited_by::<PlainKeeper>(rt, 10, made, first, edits));
    drop(edited_by::<CountKeeper>(rt, 10, made, first, edits));
}

/// Two events at a period of a day. The second is a day less a minute after the first.
const A_DAY_APART: &[Change] = &[
    Change::AddEvent(1),
    Change::AddEvent(2),
    Change::AddActivity(1, (1, 2), (1439, 1439), 1),
];

const FIXED_IN_THE_LAST_MINUTE: Edits<'_> = &[(
    Change::Fix(1, 1439),
    &[(1, &[1439]), (2, &[1438])],
    "event 1 at 1439",
)];

#[test]
fn domains_at_the_longest_period(rt: HostRuntime) {
    let edits = FIXED_IN_THE_LAST_MINUTE;
    drop(edited_by::<PlainKeeper>(&rt, 1_440, A_DAY_APART, &[], edits));
    drop(edited_by::<CountKeeper>(&rt, 1_440, A_DAY_APART, &[], edits));
}

const FIXED_EVENT_NARROWS_DOMAINS: Edits<'_> = &[
    (
        Change::Fix(1, 0),
        &[(1, &[0]), (2, &[4, 5])],
        "event 1 at 0",
    ),
    (
        Change::Fix(1, 1),
        &[(1, &[1]), (2, &[5, 6])],
        "event 1 at 1",
    ),
];

#[test]
fn fixed_event_narrows_domains(rt: HostRuntime) {
    try_edits(&rt, TWO_ACTIVITIES, BOTH, FIXED_EVENT_NARROWS_DOMAINS);
}

const UNFIX_REFILLS_BOTH_ROWS: Edits<'_> = &[
    (Change::Fix(1, 0), &[(1, &[0]), (2, &[4, 5])], "fixed"),
    (
        Change::SetSpan(1, 3, 4),
        &[(1, &[0]), (2, &[4])],
        "a narrower span",
    ),
    (Change::Unfix(1), BOTH, "event 1 is free"),
];

#[test]
fn unfix_refills_both_rows(rt: HostRuntime) {
    try_edits(&rt, TWO_ACTIVITIES, BOTH, UNFIX_REFILLS_BOTH_ROWS);
}

const WINDOWS_NARROW_DOMAINS: Edits<'_> = &[
    (
        Change::SetWindow(1, 9, 3),
        &[(1, &[0, 1, 9]), (2, &[3, 4, 5, 6])],
        "a window that wraps",
    ),
    (
        Change::SetWindow(1, 0, 2),
        &[(1, &[0, 1]), (2, &[4, 5, 6])],
        "it is narrowed",
    ),
    (
        Change::SetWindow(1, 1, 2),
        &[(1, &[1, 2]), (2, &[5, 6, 7])],
        "it is moved",
    ),
    (Change::SetWindow(1, 0, 10), BOTH, "all residues"),
    (Change::Unfix(1), BOTH, "no window"),
];

#[test]
fn windows_narrow_domains(rt: HostRuntime) {
    try_edits(&rt, TWO_ACTIVITIES, BOTH, WINDOWS_NARROW_DOMAINS);
}

const INFEASIBLE_INSTANCES: Edits<'_> = &[
    (Change::SetSpan(1, 3, 3), BOTH, "full domains"),
    (Change::Fix(1, 0), &[(1, &[]), (2, &[])], "empty domains"),
    (
        Change::AddEvent(3),
        &[(1, &[]), (2, &[]), (3, ALL)],
        "a new event",
    ),
    (Change::DropEvent(3), &[(1, &[]), (2, &[])], "it goes"),
];

fn assert_no_third_event<K: Keeper>(rt: &impl Abort, keeper: &K) {
    let three = event(rt, 3);
    hold(rt, keeper.row(three).is_none(), "no event, no row");
    hold(rt, !keeper.holds(three, 0), "no event, no residue");
}

fn infeasible_instances_by<K: Keeper, R: Abort + AllocGlobal>(rt: &R) {
    let kept: Unpushed<K> = edited_by(rt, 10, TWO_ACTIVITIES, BOTH, INFEASIBLE_INSTANCES);
    assert_no_third_event(rt, &kept.keeper);
}

#[test]
fn infeasible_instances(rt: HostRuntime) {
    infeasible_instances_by::<PlainKeeper, _>(&rt);
    infeasible_instances_by::<CountKeeper, _>(&rt);
}

/// All residues of four events at period 3.
const THREE_EACH: Rows<'_> = &[
    (1, &[0, 1, 2]),
    (2, &[0, 1, 2]),
    (3, &[0, 1, 2]),
    (4, &[0, 1, 2]),
];

fn four_events_at_period_three_by<K: Keeper, R: Abort + AllocGlobal>(rt: &R) {
    let kept: Unpushed<K> = Unpushed::made(rt, 3, FOUR_EVENTS);
    assert_rows(rt, &kept.keeper, THREE_EACH, "full domains");
}

#[test]
fn four_events_at_period_three(rt: HostRuntime) {
    four_events_at_period_three_by::<PlainKeeper, _>(&rt);
    four_events_at_period_three_by::<CountKeeper, _>(&rt);
}

const ONE_EVENT: &[Change] = &[Change::AddEvent(1)];

/// The row of one event alone.
const ONE_ROW: Rows<'_> = &[(1, ALL)];

const LOOPS_AND_SPANS: Edits<'_> = &[
    (
        Change::AddActivity(3, (1, 1), (1, 2), 1),
        ONE_ROW,
        "a partner in its own row",
    ),
    (Change::SetSpan(3, 0, 0), ONE_ROW, "itself as its partner"),
    (Change::AddEvent(2), BOTH, "one event more"),
    (
        Change::AddActivity(1, (1, 2), (-2, 1), 1),
        BOTH,
        "full rows",
    ),
    (Change::Fix(1, 0), &[(2, &[0, 1, 8, 9])], "a negative bound"),
    (
        Change::SetSpan(1, 7, 16),
        &[(2, ALL)],
        "a span as wide as the period",
    ),
];

#[test]
fn loops_and_spans(rt: HostRuntime) {
    try_edits(&rt, ONE_EVENT, ONE_ROW, LOOPS_AND_SPANS);
}

/// Pushes a pair, and then a second one if there is one. Pops restore the rows from before.
fn assert_pushed<K: Keeper>(
    rt: &impl Abort,
    kept: &mut Unpushed<K>,
    first: (u16, Rows<'_>),
    second: Option<(u16, Rows<'_>)>,
) {
    push(rt, &mut kept.keeper, event(rt, 1), first.0);
    assert_rows(rt, &kept.keeper, first.1, "event 1 is pushed");
    if let Some((residue, rows)) = second {
        push(rt, &mut kept.keeper, event(rt, 2), residue);
        assert_rows(rt, &kept.keeper, rows, "event 2 is pushed");
        kept.keeper.pop_fix();
        assert_rows(rt, &kept.keeper, first.1, "event 2 is popped");
    }
    kept.keeper.pop_fix();
    assert_rows(rt, &kept.keeper, BOTH, "nothing is pushed");
}

/// The rows with event 1 at 0, and with event 2 at 4 too.
const FIRST_PUSHED: Rows<'_> = &[(1, &[0]), (2, &[4, 5])];

const BOTH_PUSHED: Rows<'_> = &[(1, &[0]), (2, &[4])];

fn two_pushes_and_two_pops_by<K: Keeper, R: Abort + AllocGlobal>(rt: &R) {
    let mut kept: Unpushed<K> = Unpushed::two_activities(rt);
    assert_pushed(rt, &mut kept, (0, FIRST_PUSHED), Some((4, BOTH_PUSHED)));
}

#[test]
fn two_pushes_and_two_pops(rt: HostRuntime) {
    two_pushes_and_two_pops_by::<PlainKeeper, _>(&rt);
    two_pushes_and_two_pops_by::<CountKeeper, _>(&rt);
}

const NO_ROWS: Rows<'_> = &[(1, &[]), (2, &[])];

fn push_empties_both_rows_by<K: Keeper, R: Abort + AllocGlobal>(rt: &R) {
    let mut kept: Unpushed<K> = Unpushed::two_activities(rt);
    kept.change(rt, Change::SetSpan(1, 3, 3));
    assert_pushed(rt, &mut kept, (0, NO_ROWS), None);
}

#[test]
fn push_empties_both_rows(rt: HostRuntime) {
    push_empties_both_rows_by::<PlainKeeper, _>(&rt);
    push_empties_both_rows_by::<CountKeeper, _>(&rt);
}
