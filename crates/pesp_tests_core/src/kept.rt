//! Known answers that edits keep or forget.

use crate::changes::Change;
use crate::unpushed::Unpushed;
use crate::workbench::{FIRST, Known, Step, Steps, bench_of, take_steps, try_steps};
use pesp_bench::Bench;
use pesp_counts::CountKeeper;
use pesp_domains::{Keeper, PlainKeeper};
use std::process::Abort;

const EDITS_THAT_KEEP_THE_ANSWER: Steps<'_> = &[
    (Step::Find, FIRST, "the optimum"),
    (
        Step::Edit(Change::SetSpan(1, 3, 4)),
        FIRST,
        "a narrower span",
    ),
    (Step::Edit(Change::Fix(1, 0)), FIRST, "fixed at its time"),
    (
        Step::Edit(Change::AddActivity(3, (1, 2), (4, 9), 7)),
        FIRST,
        "met without slack",
    ),
    (Step::FindAgain, FIRST, "the kept one serves"),
];

#[test]
fn edits_that_keep_the_answer(rt: HostRuntime) {
    try_steps(&rt, EDITS_THAT_KEEP_THE_ANSWER);
}

const SMALLER_WEIGHT_FORGETS: Steps<'_> = &[
    (Step::Find, FIRST, "the optimum"),
    (
        Step::Edit(Change::SetWeight(1, 1)),
        Known::Nothing,
        "a smaller weight",
    ),
    (
        Step::Find,
        Known::Optimal(3, &[(1, 0), (2, 4)]),
        "a smaller weight",
    ),
];

#[test]
fn smaller_weight_forgets(rt: HostRuntime) {
    try_steps(&rt, SMALLER_WEIGHT_FORGETS);
}

const LARGER_WEIGHT_FORGETS: Steps<'_> = &[
    (Step::Find, FIRST, "the optimum"),
    (
        Step::Edit(Change::SetWeight(1, 3)),
        Known::Nothing,
        "a larger weight",
    ),
    (
        Step::Find,
        Known::Optimal(5, &[(1, 0), (2, 4)]),
        "a larger weight",
    ),
];

#[test]
fn larger_weight_forgets(rt: HostRuntime) {
    try_steps(&rt, LARGER_WEIGHT_FORGETS);
}

const FIXED_ELSEWHERE_FORGETS: Steps<'_> = &[
    (Step::Find, FIRST, "the optimum"),
    (
        Step::Edit(Change::Fix(1, 3)),
        Known::Nothing,
        "fixed elsewhere",
    ),
    (
        Step::Find,
        Known::Optimal(4, &[(1, 3), (2, 7)]),
        "fixed elsewhere",
    ),
    (
        Step::Edit(Change::SetSpan(1, 3, 6)),
        Known::Nothing,
        "a wider span with the same lower bound",
    ),
];

#[test]
fn fixed_elsewhere_forgets(rt: HostRuntime) {
    try_steps(&rt, FIXED_ELSEWHERE_FORGETS);
}

const INFEASIBLE_IS_KEPT: Steps<'_> = &[
    (
        Step::Edit(Change::SetSpan(1, 3, 3)),
        Known::Nothing,
        "3 to 3",
    ),
    (Step::Find, Known::Infeasible, "3 to 3"),
    (
        Step::Edit(Change::SetWeight(1, 9)),
        Known::Infeasible,
        "another weight",
    ),
    (
        Step::Edit(Change::AddEvent(3)),
        Known::Infeasible,
        "one event more",
    ),
    (
        Step::Edit(Change::Fix(1, 0)),
        Known::Infeasible,
        "a first time",
    ),
    (Step::FindAgain, Known::Infeasible, "the kept one serves"),
    (Step::Edit(Change::Unfix(1)), Known::Nothing, "unfixed"),
    (Step::Find, Known::Infeasible, "found again"),
];

#[test]
fn infeasible_is_kept(rt: HostRuntime) {
    try_steps(&rt, INFEASIBLE_IS_KEPT);
}

const NARROWER_WINDOW_KEEPS: Steps<'_> = &[
    (
        Step::Edit(Change::SetWindow(1, 9, 3)),
        Known::Nothing,
        "a window that wraps",
    ),
    (Step::Find, FIRST, "it wraps"),
    (Step::Edit(Change::SetWindow(1, 0, 2)), FIRST, "narrowed"),
    (Step::FindAgain, FIRST, "the kept one serves"),
    (
        Step::Edit(Change::SetWindow(1, 1, 2)),
        Known::Nothing,
        "moved",
    ),
    (
        Step::Find,
        Known::Optimal(4, &[(1, 1), (2, 5)]),
        "found again",
    ),
    (
        Step::Edit(Change::SetWindow(1, 0, 10)),
        Known::Nothing,
        "all residues",
    ),
    (Step::Find, FIRST, "found once more"),
    (Step::Edit(Change::Unfix(1)), FIRST, "no new residue"),
    (Step::FindAgain, FIRST, "the kept one serves"),
];

#[test]
fn narrower_window_keeps(rt: HostRuntime) {
    try_steps(&rt, NARROWER_WINDOW_KEEPS);
}

const INFEASIBLE_IS_KEPT_BY_WINDOWS: Steps<'_> = &[
    (
        Step::Edit(Change::SetSpan(1, 3, 3)),
        Known::Nothing,
        "3 to 3",
    ),
    (Step::Find, Known::Infeasible, "3 to 3"),
    (
        Step::Edit(Change::SetWindow(1, 0, 10)),
        Known::Infeasible,
        "all residues",
    ),
    (
        Step::Edit(Change::SetWindow(1, 4, 3)),
        Known::Infeasible,
        "some of them",
    ),
    (
        Step::Edit(Change::SetWindow(1, 5, 3)),
        Known::Nothing,
        "a new residue",
    ),
];

#[test]
fn infeasible_is_kept_by_windows(rt: HostRuntime) {
    try_steps(&rt, INFEASIBLE_IS_KEPT_BY_WINDOWS);
}

/// A workbench of one activity of number 2 between these events.
fn one_activity<K: Keeper>(
    rt: &(impl Abort + AllocGlobal),
    period: u16,
    ends: (u32, u32),
    bounds: (i32, i32),
    weight: u32,
) -> Bench<K> {
    let edits = &[
        Change::AddEvent(ends.0),
        Change::AddEvent(ends.1),
        Change::AddActivity(2, ends, bounds, weight),
    ];
    bench_of(rt, Unpushed::made(rt, period, edits))
}

const WITHOUT_SLACK: Steps<'_> = &[
    (
        Step::Find,
        Known::Optimal(0, &[(0, 0), (1, 1)]),
        "with weight",
    ),
    (
        Step::Edit(Change::SetWeight(2, 0)),
        Known::Nothing,
        "no weight",
    ),
    (
        Step::Find,
        Known::Optimal(0, &[(0, 0), (1, 0)]),
        "no weight",
    ),
];

fn weight_without_slack_forgets_by<K: Keeper, R: Abort + AllocGlobal>(rt: &R) {
    let mut bench: Bench<K> = one_activity(rt, 2, (0, 1), (1, 2), 1);
    take_steps(rt, &mut bench, WITHOUT_SLACK);
}

#[test]
fn weight_without_slack_forgets(rt: HostRuntime) {
    weight_without_slack_forgets_by::<PlainKeeper, _>(&rt);
    weight_without_slack_forgets_by::<CountKeeper, _>(&rt);
}

const NO_LONGER_FIRST: Steps<'_> = &[
    (Step::Edit(Change::Fix(1, 5)), Known::Nothing, "fixed"),
    (Step::Find, Known::Optimal(0, &[(1, 5), (2, 0)]), "fixed"),
    (Step::Edit(Change::Unfix(1)), Known::Nothing, "unfixed"),
    (
        Step::Find,
        Known::Optimal(0, &[(1, 0), (2, 3)]),
        "an earlier one",
    ),
];

fn old_optimum_is_no_longer_first_by<K: Keeper, R: Abort + AllocGlobal>(rt: &R) {
    let mut bench: Bench<K> = one_activity(rt, 10, (1, 2), (3, 5), 0);
    take_steps(rt, &mut bench, NO_LONGER_FIRST);
}

#[test]
fn old_optimum_is_no_longer_first(rt: HostRuntime) {
    old_optimum_is_no_longer_first_by::<PlainKeeper, _>(&rt);
    old_optimum_is_no_longer_first_by::<CountKeeper, _>(&rt);
}
