//! The cost of the working timetable after each kind of change, with a loop and parallel
//! activities.

use crate::asserts::same;
use crate::changes::Change;
use crate::made::event;
use crate::workbench::{assert_set, bench, change};
use pesp_base::Refusal;
use pesp_bench::Bench;
use pesp_counts::CountKeeper;
use pesp_domains::{Keeper, PlainKeeper};
use std::process::Abort;

/// A change of the times or of the instance, which is accepted.
#[derive(Clone, Copy)]
enum Move {
    Set(u32, u16),
    Clear(u32),
    Edit(Change),
}

/// What the workbench returns for the cost.
#[derive(Clone, Copy)]
enum Told {
    Cost(u64),
    /// The least event without a time.
    Missing(u32),
}

type Moves<'a> = &'a [(Move, Told, &'a str)];

/// Of the two activities at period ten: 1 to 2 in 3 to 5 at weight 2, and back in 4 to 6 at weight 1.
const COSTS: Moves<'_> = &[
    (Move::Set(1, 0), Told::Missing(2), "event 2 to come"),
    (Move::Set(2, 3), Told::Cost(3), "0 and 3"),
    (Move::Set(2, 4), Told::Cost(4), "1 and 2 of slack"),
    (
        Move::Edit(Change::AddActivity(3, (1, 1), (4, 6), 7)),
        Told::Cost(46),
        "a loop of slack 6",
    ),
    (Move::Set(1, 5), Told::Cost(61), "the loop stays"),
    (
        Move::Edit(Change::AddActivity(4, (1, 2), (3, 5), 1)),
        Told::Cost(67),
        "side by side",
    ),
    (Move::Set(1, 4), Told::Cost(69), "slacks of 7 and 6"),
    (Move::Set(1, 5), Told::Cost(67), "and back"),
    (
        Move::Edit(Change::SetWeight(4, 3)),
        Told::Cost(79),
        "12 more",
    ),
    (
        Move::Edit(Change::SetSpan(3, 0, 5)),
        Told::Cost(37),
        "the loop is free",
    ),
    (
        Move::Edit(Change::SetEnds(4, 2, 1)),
        Told::Cost(43),
        "slack 8 in place of 6",
    ),
    (
        Move::Edit(Change::AddEvent(3)),
        Told::Missing(3),
        "event 3 to come",
    ),
    (Move::Set(3, 2), Told::Cost(43), "no activity there"),
    (
        Move::Edit(Change::DropEvent(3)),
        Told::Cost(43),
        "dropped with its time",
    ),
    (
        Move::Edit(Change::AddEvent(3)),
        Told::Missing(3),
        "event 3 again",
    ),
    (
        Move::Edit(Change::DropEvent(3)),
        Told::Cost(43),
        "dropped without a time",
    ),
    (
        Move::Edit(Change::SetWindow(1, 0, 3)),
        Told::Cost(43),
        "a window",
    ),
    (
        Move::Edit(Change::Fix(1, 0)),
        Told::Cost(43),
        "a fixed time",
    ),
    (
        Move::Edit(Change::Unfix(1)),
        Told::Cost(43),
        "none any more",
    ),
    (
        Move::Edit(Change::DropActivity(4)),
        Told::Cost(19),
        "24 fewer",
    ),
    (Move::Clear(2), Told::Missing(2), "event 2 cleared"),
    (
        Move::Edit(Change::SetWeight(1, 4)),
        Told::Missing(2),
        "an edit beside it",
    ),
    (Move::Set(2, 4), Told::Cost(31), "24 and 7"),
];

fn assert_cleared<K: Keeper>(rt: &impl Abort, bench: &mut Bench<K>, number: u32, message: &str) {
    same(rt, bench.clear_time(event(rt, number)), Ok(()), message);
}

fn take<K: Keeper>(rt: &impl Abort, bench: &mut Bench<K>, step: Move, message: &str) {
    match step {
        Move::Set(number, time) => assert_set(rt, bench, number, time, Ok(())),
        Move::Clear(number) => assert_cleared(rt, bench, number, message),
        Move::Edit(edit) => change(rt, bench, edit),
    }
}

fn wanted(rt: &impl Abort, told: Told) -> Result<u64, Refusal> {
    match told {
        Told::Cost(cost) => Ok(cost),
        Told::Missing(number) => Err(Refusal::MissingTime(event(rt, number))),
    }
}

fn try_moves<K: Keeper>(rt: &impl Abort, bench: &mut Bench<K>, moves: Moves<'_>) {
    for (step, told, message) in moves {
        take(rt, bench, *step, message);
        same(rt, bench.cost(), wanted(rt, *told), message);
    }
}

fn costs_by<K: Keeper, R: Abort + AllocGlobal>(rt: &R) {
    let mut bench: Bench<K> = bench(rt);
    try_moves(rt, &mut bench, COSTS);
}

#[test]
fn costs(rt: HostRuntime) {
    costs_by::<PlainKeeper, _>(&rt);
    costs_by::<CountKeeper, _>(&rt);
}
