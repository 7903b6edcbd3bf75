//! The timetable of a forgotten optimum, or of a stopped search, which a later search may return if
//! it stops.

use crate::asserts::{hold, same};
use crate::changes::Change;
use crate::unpushed::Unpushed;
use crate::workbench::{assert_times, assert_unknown, bench, bench_of, change, find};
use pesp_bench::{Attempt, Bench};
use pesp_counts::CountKeeper;
use pesp_domains::{Keeper, PlainKeeper};
use pesp_search::Best;
use std::process::Abort;

/// Three events. The tree finds a timetable of them before it proves that none costs less.
const THREE_EVENTS: &[Change] = &[
    Change::AddEvent(1),
    Change::AddEvent(2),
    Change::AddEvent(3),
    Change::AddActivity(1, (3, 2), (2, 8), 3),
    Change::AddActivity(2, (3, 2), (8, 14), 3),
    Change::AddActivity(3, (1, 2), (1, 7), 1),
];

/// More activities like the first one, without cost. They make too many cycles, so only the tree is
/// searched.
const COPIES: std::ops::Range<u32> = 4..406;

/// The old optimum of the two activities.
const OLD: &[(u32, u16)] = &[(1, 0), (2, 4)];

/// The timetable that is found of the three events.
const FOUND: &[(u32, u16)] = &[(1, 0), (2, 1), (3, 9)];

/// The timetable with which a search within this number of nodes stops. None also if it ends.
fn stopped_with<K: Keeper>(
    rt: &(impl Abort + AllocGlobal),
    bench: &mut Bench<K>,
    limit: u64,
) -> Option<Best> {
    match bench.try_optimum(rt.alloc(), limit) {
        Ok(Attempt::Stopped(best)) => best,
        _ => None,
    }
}

/// A search within this number of nodes stops with this timetable, at this cost.
fn assert_stopped_with<K: Keeper>(
    rt: &(impl Abort + AllocGlobal),
    bench: &mut Bench<K>,
    limit: u64,
    cost: u64,
    wanted: &[(u32, u16)],
) {
    let best = stopped_with(rt, bench, limit).expect(rt, "a timetable");
    same(rt, best.cost, cost, "its cost");
    assert_times(rt, &best.times, wanted, "its times");
}

fn assert_no_candidate<K: Keeper>(
    rt: &(impl Abort + AllocGlobal),
    bench: &mut Bench<K>,
    message: &str,
) {
    hold(rt, stopped_with(rt, bench, 0).is_none(), message);
    assert_unknown(rt, bench, message);
}

/// Finds the optimum, and then makes the edit.
fn find_before<K: Keeper>(rt: &(impl Abort + AllocGlobal), bench: &mut Bench<K>, edit: Change) {
    same(rt, find(rt, bench), Ok(()), "found before");
    change(rt, bench, edit);
}

fn hand_out_twice<K: Keeper>(rt: &(impl Abort + AllocGlobal), bench: &mut Bench<K>) {
    find_before(rt, bench, Change::SetWeight(1, 3));
    assert_stopped_with(rt, bench, 0, 5, OLD);
    assert_stopped_with(rt, bench, 0, 5, OLD);
}

fn candidate_is_handed_out_by<K: Keeper, R: Abort + AllocGlobal>(rt: &R) {
    let mut bench: Bench<K> = bench(rt);
    hand_out_twice(rt, &mut bench);
}

#[test]
fn candidate_is_handed_out(rt: HostRuntime) {
    candidate_is_handed_out_by::<PlainKeeper, _>(&rt);
    candidate_is_handed_out_by::<CountKeeper, _>(&rt);
}

fn keep_no_member<K: Keeper>(rt: &(impl Abort + AllocGlobal), bench: &mut Bench<K>) {
    find_before(rt, bench, Change::Fix(1, 3));
    assert_no_candidate(rt, bench, "fixed elsewhere");
    change(rt, bench, Change::Unfix(1));
    assert_stopped_with(rt, bench, 0, 4, OLD);
}

fn candidate_that_is_no_member_by<K: Keeper, R: Abort + AllocGlobal>(rt: &R) {
    let mut bench: Bench<K> = bench(rt);
    keep_no_member(rt, &mut bench);
}

#[test]
fn candidate_that_is_no_member(rt: HostRuntime) {
    candidate_that_is_no_member_by::<PlainKeeper, _>(&rt);
    candidate_that_is_no_member_by::<CountKeeper, _>(&rt);
}

fn keep_what_is_found<K: Keeper>(rt: &(impl Abort + AllocGlobal), bench: &mut Bench<K>) {
    for number in COPIES {
        change(rt, bench, Change::AddActivity(number, (3, 2), (2, 8), 0));
    }
    assert_no_candidate(rt, bench, "nothing is found yet");
    assert_stopped_with(rt, bench, 3, 12, FOUND);
    assert_stopped_with(rt, bench, 0, 12, FOUND);
    change(rt, bench, Change::SetWeight(2, 4));
    assert_stopped_with(rt, bench, 0, 16, FOUND);
}

fn found_is_kept_by<K: Keeper, R: Abort + AllocGlobal>(rt: &R) {
    let mut bench: Bench<K> = bench_of(rt, Unpushed::made(rt, 10, THREE_EVENTS));
    keep_what_is_found(rt, &mut bench);
}

#[test]
fn found_is_kept(rt: HostRuntime) {
    found_is_kept_by::<PlainKeeper, _>(&rt);
    found_is_kept_by::<CountKeeper, _>(&rt);
}
