//! Workbenches over either keeper, and the steps that tests take on them.

use crate::asserts::{hold, same};
use crate::changes::{Change, edit_of};
use crate::made::event;
use crate::unpushed::Unpushed;
use pesp_base::Refusal;
use pesp_bench::Bench;
use pesp_counts::CountKeeper;
use pesp_domains::{Keeper, PlainKeeper};
use pesp_instance::Edit;
use pesp_search::Answer;
use pesp_tension::Timetable;
use std::process::Abort;

/// The edit is accepted.
pub(crate) fn change<K: Keeper>(rt: &impl Abort, bench: &mut Bench<K>, change: Change) {
    edit(rt, bench, edit_of(rt, change));
}

fn edit<K: Keeper>(rt: &impl Abort, bench: &mut Bench<K>, edit: Edit) {
    same(rt, bench.apply(&edit), Ok(()), "the edit is accepted");
}

pub(crate) fn bench_of<K: Keeper>(rt: &(impl Abort + AllocGlobal), kept: Unpushed<K>) -> Bench<K> {
    Bench::new(rt.alloc(), kept.keeper)
}

/// A workbench of the two activities.
pub(crate) fn bench<K: Keeper>(rt: &(impl Abort + AllocGlobal)) -> Bench<K> {
    bench_of(rt, Unpushed::two_activities(rt))
}

pub(crate) fn assert_times(
    rt: &impl Abort,
    times: &Timetable,
    wanted: &[(u32, u16)],
    message: &str,
) {
    for (number, time) in wanted {
        same(rt, times.get(event(rt, *number)), Some(*time), message);
    }
    same(rt, times.walk().count(), wanted.len(), message);
}

pub(crate) fn assert_known<K: Keeper>(
    rt: &impl Abort,
    bench: &Bench<K>,
    cost: u64,
    wanted: &[(u32, u16)],
    message: &str,
) {
    match bench.known() {
        Some(Answer::Optimal { cost: found, times }) => {
            same(rt, *found, cost, message);
            assert_times(rt, times, wanted, message);
        }
        Some(Answer::Infeasible) | None => hold(rt, false, message),
    }
}

/// Whether the optimum is returned, found now or known before.
///
/// Like the functions that call others of a workbench it has no contract, so that proofs of the
/// tests do not compute the workbench after each call.
pub(crate) fn is_answered<K: Keeper>(
    rt: &(impl Abort + AllocGlobal),
    bench: &mut Bench<K>,
) -> bool {
    bench.optimum(rt.alloc()).is_ok()
}

/// A search without a limit.
pub(crate) fn find<K: Keeper>(
    rt: &(impl Abort + AllocGlobal),
    bench: &mut Bench<K>,
) -> Result<(), Refusal> {
    bench.find_optimum(rt.alloc())
}

pub(crate) fn assert_unknown<K: Keeper>(rt: &impl Abort, bench: &Bench<K>, message: &str) {
    hold(rt, bench.known().is_none(), message);
}

fn assert_infeasible<K: Keeper>(rt: &impl Abort, bench: &Bench<K>, message: &str) {
    let is_infeasible = matches!(bench.known(), Some(Answer::Infeasible));
    hold(rt, is_infeasible, message);
}

pub(crate) fn assert_no_nodes<K: Keeper>(rt: &impl Abort, bench: &Bench<K>, message: &str) {
    same(rt, bench.last_nodes(), 0, message);
}

/// A step that a test takes on a workbench.
#[derive(Clone, Copy)]
pub(crate) enum Step {
    /// The edit is accepted.
    Edit(Change),
    /// The optimum is searched for.
    Find,
    /// The optimum is searched for, because none is known.
    Search,
    /// The known optimum is returned, without a node.
    FindAgain,
}

/// What is known of the optimum.
#[derive(Clone, Copy)]
pub(crate) enum Known<'a> {
    Nothing,
    Infeasible,
    Optimal(u64, &'a [(u32, u16)]),
}

pub(crate) fn assert_knows<K: Keeper>(
    rt: &impl Abort,
    bench: &Bench<K>,
    known: Known<'_>,
    message: &str,
) {
    match known {
        Known::Nothing => assert_unknown(rt, bench, message),
        Known::Infeasible => assert_infeasible(rt, bench, message),
        Known::Optimal(cost, times) => assert_known(rt, bench, cost, times, message),
    }
}

fn search<K: Keeper>(rt: &(impl Abort + AllocGlobal), bench: &mut Bench<K>, message: &str) {
    assert_unknown(rt, bench, message);
    hold(rt, is_answered(rt, bench), message);
}

fn find_again<K: Keeper>(rt: &(impl Abort + AllocGlobal), bench: &mut Bench<K>, message: &str) {
    same(rt, find(rt, bench), Ok(()), message);
    assert_no_nodes(rt, bench, message);
}

fn take<K: Keeper>(
    rt: &(impl Abort + AllocGlobal),
    bench: &mut Bench<K>,
    step: Step,
    message: &str,
) {
    match step {
        Step::Edit(edit) => change(rt, bench, edit),
        Step::Find => same(rt, find(rt, bench), Ok(()), message),
        Step::Search => search(rt, bench, message),
        Step::FindAgain => find_again(rt, bench, message),
    }
}

/// Steps, what is known after each, and a message.
pub(crate) type Steps<'a> = &'a [(Step, Known<'a>, &'a str)];

/// Takes these steps in order. After each, this is known.
pub(crate) fn take_steps<K: Keeper>(
    rt: &(impl Abort + AllocGlobal),
    bench: &mut Bench<K>,
    steps: Steps<'_>,
) {
    for (step, known, message) in steps {
        take(rt, bench, *step, message);
        assert_knows(rt, bench, *known, message);
    }
}

fn try_steps_by<K: Keeper>(rt: &(impl Abort + AllocGlobal), steps: Steps<'_>) {
    let mut bench: Bench<K> = bench(rt);
    assert_unknown(rt, &bench, "before the first step");
    assert_no_nodes(rt, &bench, "before the first step");
    take_steps(rt, &mut bench, steps);
}

/// Takes the steps on a workbench of the two activities, over either keeper.
pub(crate) fn try_steps(rt: &(impl Abort + AllocGlobal), steps: Steps<'_>) {
    try_steps_by::<PlainKeeper>(rt, steps);
    try_steps_by::<CountKeeper>(rt, steps);
}

/// The optimum of the two activities.
pub(crate) const FIRST: Known<'_> = Known::Optimal(4, &[(1, 0), (2, 4)]);

fn set_time<K: Keeper>(
    rt: &impl Abort,
    bench: &mut Bench<K>,
    number: u32,
    time: u16,
) -> Result<(), Refusal> {
    bench.set_time(event(rt, number), time)
}

pub(crate) fn assert_set<K: Keeper>(
    rt: &impl Abort,
    bench: &mut Bench<K>,
    number: u32,
    time: u16,
    answer: Result<(), Refusal>,
) {
    same(rt, set_time(rt, bench, number, time), answer, "a time");
}
