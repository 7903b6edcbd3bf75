//! The optimum of a workbench: found, known, forgotten, and searched for within limits.

use crate::asserts::{hold, same};
use crate::changes::Change;
use crate::workbench::{
    FIRST, Known, Step, Steps, assert_known, assert_knows, assert_no_nodes, assert_set,
    assert_times, bench, is_answered, try_steps,
};
use pesp_bench::{Attempt, Bench};
use pesp_counts::CountKeeper;
use pesp_domains::{Keeper, PlainKeeper};
use std::process::Abort;

const OPTIMUM_IS_FOUND_AND_KEPT: Steps<'_> = &[
    (Step::Search, FIRST, "the optimum"),
    (Step::FindAgain, FIRST, "a known one serves"),
    (
        Step::Edit(Change::SetSpan(1, 3, 3)),
        Known::Nothing,
        "an edit forgets it",
    ),
    (Step::Find, Known::Infeasible, "3 to 3"),
];

#[test]
fn optimum_is_found_and_kept(rt: HostRuntime) {
    try_steps(&rt, OPTIMUM_IS_FOUND_AND_KEPT);
}

/// The optimum is known, and the time and the instance are unchanged.
fn assert_optimum_beside_seven<K: Keeper>(rt: &impl Abort, bench: &Bench<K>, message: &str) {
    assert_known(rt, bench, 4, &[(1, 0), (2, 4)], message);
    assert_times(rt, bench.timetable(), &[(1, 7)], message);
    same(rt, bench.instance().event_count(), 2, message);
    same(rt, bench.instance().activity_count(), 2, message);
}

/// The optimum is returned, found now or known before. Nothing changes but what is known of it.
fn assert_answered<K: Keeper>(
    rt: &(impl Abort + AllocGlobal),
    bench: &mut Bench<K>,
    is_known: bool,
    message: &str,
) {
    same(rt, bench.known().is_some(), is_known, message);
    hold(rt, is_answered(rt, bench), message);
    hold(rt, !is_known || bench.last_nodes() == 0, message);
    assert_optimum_beside_seven(rt, bench, message);
}

fn answer_twice<K: Keeper>(rt: &(impl Abort + AllocGlobal), bench: &mut Bench<K>) {
    assert_set(rt, bench, 1, 7, Ok(()));
    assert_answered(rt, bench, false, "found");
    assert_answered(rt, bench, true, "known before");
}

fn optimum_leaves_all_but_what_is_known_by<K: Keeper, R: Abort + AllocGlobal>(rt: &R) {
    let mut bench: Bench<K> = bench(rt);
    answer_twice(rt, &mut bench);
}

#[test]
fn optimum_leaves_all_but_what_is_known(rt: HostRuntime) {
    optimum_leaves_all_but_what_is_known_by::<PlainKeeper, _>(&rt);
    optimum_leaves_all_but_what_is_known_by::<CountKeeper, _>(&rt);
}

/// Whether a search with a limit on its nodes ends.
fn is_done<K: Keeper>(rt: &(impl Abort + AllocGlobal), bench: &mut Bench<K>, limit: u64) -> bool {
    let tried = bench.try_optimum(rt.alloc(), limit);
    matches!(tried, Ok(Attempt::Done))
}

/// Whether a search with a limit on its nodes stops before it has found a timetable.
fn is_stopped<K: Keeper>(
    rt: &(impl Abort + AllocGlobal),
    bench: &mut Bench<K>,
    limit: u64,
) -> bool {
    let tried = bench.try_optimum(rt.alloc(), limit);
    matches!(tried, Ok(Attempt::Stopped(None)))
}

fn assert_done<K: Keeper>(
    rt: &(impl Abort + AllocGlobal),
    bench: &mut Bench<K>,
    limit: u64,
    message: &str,
) {
    hold(rt, is_done(rt, bench, limit), message);
    assert_knows(rt, bench, FIRST, message);
}

fn try_within_limits<K: Keeper>(rt: &(impl Abort + AllocGlobal), bench: &mut Bench<K>) {
    hold(rt, is_stopped(rt, bench, 0), "limit 0");
    assert_done(rt, bench, 1_000_000, "limit 1,000,000");
    assert_done(rt, bench, 0, "limit 0 again");
    assert_no_nodes(rt, bench, "limit 0 again");
}

fn limited_tries_by<K: Keeper, R: Abort + AllocGlobal>(rt: &R) {
    let mut bench: Bench<K> = bench(rt);
    try_within_limits(rt, &mut bench);
}

#[test]
fn limited_tries(rt: HostRuntime) {
    limited_tries_by::<PlainKeeper, _>(&rt);
    limited_tries_by::<CountKeeper, _>(&rt);
}
