//! Timetables that meet everything, and others.

use crate::asserts::same;
use crate::changes::Change;
use crate::made::event;
use crate::unpushed::Unpushed;
use pesp_domains::{Keeper, PlainKeeper};
use pesp_instance::Instance;
use pesp_search::member_cost;
use pesp_tension::Timetable;
use std::process::Abort;

/// A timetable of the instance's period with these times.
fn timetable(
    rt: &(impl Abort + AllocGlobal),
    instance: &Instance,
    times: &[(u32, u16)],
) -> Timetable {
    let mut timetable = Timetable::new(rt.alloc(), instance.period());
    for (number, time) in times {
        same(
            rt,
            timetable.set(event(rt, *number), *time),
            Ok(()),
            "a time",
        );
    }
    timetable
}

/// Times, and their cost if they are a timetable that meets everything.
type Costs<'a> = &'a [(&'a [(u32, u16)], Option<u64>, &'a str)];

fn assert_member_cost(
    rt: &(impl Abort + AllocGlobal),
    instance: &Instance,
    times: &[(u32, u16)],
    cost: Option<u64>,
    message: &str,
) {
    let timetable = timetable(rt, instance, times);
    same(rt, member_cost(instance, &timetable), cost, message);
}

fn assert_costs<K: Keeper>(rt: &(impl Abort + AllocGlobal), kept: &Unpushed<K>, cases: Costs<'_>) {
    let instance = kept.keeper.instance();
    for (times, cost, message) in cases {
        assert_member_cost(rt, instance, times, *cost, message);
    }
}

const COST_OF_A_MEMBER: Costs<'_> = &[
    (&[(1, 0), (2, 4)], Some(4), "the optimum"),
    (&[(1, 5), (2, 9)], Some(4), "the optimum, five later"),
    (&[(1, 0), (2, 5)], Some(5), "another one"),
    (&[(1, 0), (2, 3)], None, "activity 2 is not met"),
    (&[(1, 0)], None, "event 2 has no time"),
    (&[(1, 0), (2, 4), (3, 0)], None, "event 3 is none"),
];

#[test]
fn cost_of_a_member(rt: HostRuntime) {
    let kept: Unpushed<PlainKeeper> = Unpushed::two_activities(&rt);
    assert_costs(&rt, &kept, COST_OF_A_MEMBER);
    drop(kept);
}

const COST_OF_A_MEMBER_WITH_A_FIXED_TIME: Costs<'_> = &[
    (&[(1, 0), (2, 4)], Some(4), "fixed there"),
    (&[(1, 5), (2, 9)], None, "fixed elsewhere"),
];

const COST_OF_A_MEMBER_WITH_A_WINDOW: Costs<'_> = &[
    (&[(1, 9), (2, 3)], Some(4), "the first of its residues"),
    (&[(1, 1), (2, 5)], Some(4), "the last of them"),
    (&[(1, 2), (2, 6)], None, "after it"),
];

const COST_OF_NO_MEMBER: Costs<'_> = &[(&[(1, 0), (2, 4)], None, "infeasible")];

/// The cost of these times after an edit.
fn assert_costs_after<K: Keeper>(
    rt: &(impl Abort + AllocGlobal),
    kept: &mut Unpushed<K>,
    edit: Change,
    cases: Costs<'_>,
) {
    kept.change(rt, edit);
    assert_costs(rt, kept, cases);
}

#[test]
fn cost_of_a_member_with_a_window(rt: HostRuntime) {
    let mut kept: Unpushed<PlainKeeper> = Unpushed::two_activities(&rt);
    let windowed = COST_OF_A_MEMBER_WITH_A_WINDOW;
    assert_costs_after(&rt, &mut kept, Change::SetWindow(1, 9, 3), windowed);
    let fixed = COST_OF_A_MEMBER_WITH_A_FIXED_TIME;
    assert_costs_after(&rt, &mut kept, Change::Fix(1, 0), fixed);
    assert_costs_after(&rt, &mut kept, Change::SetSpan(1, 3, 3), COST_OF_NO_MEMBER);
    drop(kept);
}
