//! The steps that tests of searches take on a keeper.

use crate::asserts::{hold, same};
use crate::changes::Change;
use crate::made::event;
use crate::unpushed::Unpushed;
use pesp_counts::CountKeeper;
use pesp_domains::{Keeper, PlainKeeper};
use pesp_search::{Answer, Known, Tried};
use pesp_tension::Timetable;
use std::process::Abort;

/// The event and the time of each.
pub(crate) type Times<'a> = &'a [(u32, u16)];

/// A step that a test takes on a keeper.
#[derive(Clone, Copy)]
pub(crate) enum Step<'a> {
    /// The edit is accepted.
    Edit(Change),
    /// The optimum has this cost and these times, also with its own cost as the bound.
    Best(u64, Times<'a>),
    /// No timetable meets everything. The search has this number of nodes, if one is given.
    Infeasible(Option<u64>),
    /// A search within this number of nodes has this outcome.
    Within(u64, Outcome<'a>),
    /// Within this number of nodes these are known: the cost of the best timetable, if any, the
    /// lower bound, and whether the search stopped.
    Known(u64, Option<u64>, u64, bool),
    /// The same after two searches within this number of nodes each, where the second one resumes
    /// the first.
    KnownAfter(u64, Option<u64>, u64, bool),
}

/// The outcome of a search within a limit.
#[derive(Clone, Copy)]
pub(crate) enum Outcome<'a> {
    /// It ends with the optimum.
    Done(u64, Times<'a>),
    /// It finds this timetable, and ends or stops.
    Found(u64, Times<'a>),
    /// It proves that no timetable meets everything.
    Infeasible,
    /// It stops without a timetable.
    Stopped,
}

fn assert_times(rt: &impl Abort, times: &Timetable, wanted: Times<'_>, message: &str) {
    for (number, time) in wanted {
        same(rt, times.get(event(rt, *number)), Some(*time), message);
    }
    same(rt, times.walk().count(), wanted.len(), message);
}

fn assert_optimal(rt: &impl Abort, answer: &Answer, cost: u64, wanted: Times<'_>, message: &str) {
    match answer {
        Answer::Optimal { cost: found, times } => {
            same(rt, *found, cost, message);
            assert_times(rt, times, wanted, message);
        }
        Answer::Infeasible => hold(rt, false, message),
    }
}

fn assert_best<K: Keeper>(
    rt: &(impl Abort + AllocGlobal),
    kept: &mut Unpushed<K>,
    cost: u64,
    wanted: Times<'_>,
    message: &str,
) {
    let (answer, _) = kept.best(rt);
    assert_optimal(rt, &answer, cost, wanted, message);
    let again = kept.best_at_its_cost(rt);
    assert_optimal(rt, &again, cost, wanted, message);
}

fn assert_infeasible<K: Keeper>(
    rt: &(impl Abort + AllocGlobal),
    kept: &mut Unpushed<K>,
    wanted: Option<u64>,
    message: &str,
) {
    let (answer, nodes) = kept.best(rt);
    hold(rt, matches!(answer, Answer::Infeasible), message);
    same(rt, nodes, wanted.unwrap_or(nodes), message);
}

pub(crate) fn assert_done(
    rt: &impl Abort,
    tried: &Tried,
    cost: u64,
    wanted: Times<'_>,
    message: &str,
) {
    match tried {
        Tried::Done(answer) => assert_optimal(rt, answer, cost, wanted, message),
        Tried::Stopped { .. } => hold(rt, false, message),
    }
}

pub(crate) fn assert_found(
    rt: &impl Abort,
    tried: &Tried,
    cost: u64,
    wanted: Times<'_>,
    message: &str,
) {
    match tried {
        Tried::Done(answer) => assert_optimal(rt, answer, cost, wanted, message),
        Tried::Stopped { best: Some(best) } => {
            same(rt, best.cost, cost, message);
            assert_times(rt, &best.times, wanted, message);
        }
        Tried::Stopped { best: None } => hold(rt, false, message),
    }
}

pub(crate) fn assert_stopped(rt: &impl Abort, tried: &Tried, message: &str) {
    hold(rt, matches!(tried, Tried::Stopped { best: None }), message);
}

fn assert_done_infeasible(rt: &impl Abort, tried: &Tried, message: &str) {
    hold(
        rt,
        matches!(tried, Tried::Done(Answer::Infeasible)),
        message,
    );
}

fn assert_outcome(rt: &impl Abort, tried: &Tried, outcome: Outcome<'_>, message: &str) {
    match outcome {
        Outcome::Done(cost, times) => assert_done(rt, tried, cost, times, message),
        Outcome::Found(cost, times) => assert_found(rt, tried, cost, times, message),
        Outcome::Infeasible => assert_done_infeasible(rt, tried, message),
        Outcome::Stopped => assert_stopped(rt, tried, message),
    }
}

fn assert_within<K: Keeper>(
    rt: &(impl Abort + AllocGlobal),
    kept: &mut Unpushed<K>,
    limit: u64,
    outcome: Outcome<'_>,
    message: &str,
) {
    let (tried, nodes) = kept.tried(rt, limit);
    hold(rt, nodes <= limit, message);
    assert_outcome(rt, &tried, outcome, message);
}

fn assert_known(rt: &impl Abort, known: &Known, wanted: (Option<u64>, u64, bool), message: &str) {
    let cost = known.best.as_ref().map(|best| best.cost);
    same(rt, cost, wanted.0, message);
    same(rt, known.lower_bound, wanted.1, message);
    same(rt, known.is_stopped, wanted.2, message);
}

fn take<K: Keeper>(
    rt: &(impl Abort + AllocGlobal),
    kept: &mut Unpushed<K>,
    step: Step<'_>,
    message: &str,
) {
    match step {
        Step::Edit(change) => kept.change(rt, change),
        Step::Best(cost, times) => assert_best(rt, kept, cost, times, message),
        Step::Infeasible(nodes) => assert_infeasible(rt, kept, nodes, message),
        Step::Within(limit, outcome) => assert_within(rt, kept, limit, outcome, message),
        Step::Known(limit, cost, bound, is_stopped) => {
            let known = kept.known(rt, limit);
            assert_known(rt, &known, (cost, bound, is_stopped), message);
        }
        Step::KnownAfter(limit, cost, bound, is_stopped) => {
            let known = kept.known_after(rt, limit);
            assert_known(rt, &known, (cost, bound, is_stopped), message);
        }
    }
}

/// Steps, with a message each.
pub(crate) type Steps<'a> = &'a [(Step<'a>, &'a str)];

fn take_all<K: Keeper>(rt: &(impl Abort + AllocGlobal), kept: &mut Unpushed<K>, steps: Steps<'_>) {
    for (step, message) in steps {
        take(rt, kept, *step, message);
    }
}

fn try_steps_by<K: Keeper>(
    rt: &(impl Abort + AllocGlobal),
    period: u16,
    made: &[Change],
    steps: Steps<'_>,
) {
    let mut kept: Unpushed<K> = Unpushed::made(rt, period, made);
    take_all(rt, &mut kept, steps);
}

/// Takes the steps in order, on a keeper of either kind of the instance that the edits make.
pub(crate) fn try_steps(
    rt: &(impl Abort + AllocGlobal),
    period: u16,
    made: &[Change],
    steps: Steps<'_>,
) {
    try_steps_by::<PlainKeeper>(rt, period, made, steps);
    try_steps_by::<CountKeeper>(rt, period, made, steps);
}
