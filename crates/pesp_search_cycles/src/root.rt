//! The boxes of the root node, which contain all maps with these residues.

ghost use Rattle.std.specs.Prelude.{◌≡◌, ℕ, List, ◌+◌, ◌<◌, ◌≤◌, pos, ◌+ℤ◌, IfOk, IfSome, IsTrue, length, slice_index, slice_index_or};
ghost use Rattle.pesp_base.specs.Tensions.{is_met, slack_of};
ghost use Rattle.pesp_search_network.specs.Arcs.{IsMet};
ghost use Rattle.pesp_search_cycles.specs.Maps.{AreBoxes, IsInside, numbers_of};
ghost use Rattle.pesp_search_cycles.specs.Ranges.{AreIn, IsIn, no_range, width};
ghost use Rattle.pesp_search_cycles.specs.Walks.{AreNarrow, Path, RoundsAreIn, ends, no_path, residue, round, signed, times, widths};

use crate::boxes::Boxes;
use crate::{Cycles, Range, Walk};
use pesp_base::{Memory, Period, slack};
use pesp_search_graph::{Arc, Step};
use pesp_search_network::Network;
use std::alloc::Global;

/// The times of a step along or against the arc at these slacks.
pub(crate) fn step_range(arc: &Arc, along: bool, slacks: Range) -> Option<Range>
    ensures inside { IfSome result (λ range. (y : ℕ) → IsIn slacks (pos y)
        → IsIn range (signed along (arc.now.span.lower +ℤ pos y))) }
    ensures narrow { IfSome result (λ range. width range ≤ width slacks) }
{
    let lower = i64::from(arc.span.lower());
    let fixed = Range {
        low: lower,
        high: lower,
    };
    let range = fixed.plus(slacks)?;
    if along { Some(range) } else { range.negated() }
}

/// The times of the steps together, for variables in these ranges.
fn time_range(arcs: &[Arc], numbers: &[Range], steps: &[Step]) -> Option<Range>
    ensures inside { IfSome result (λ range. (zs : List ℕ) → AreIn numbers.now zs
        → IsIn range (times arcs.now zs steps.now)) }
    ensures narrow { IfSome result (λ range. width range ≤ widths numbers.now steps.now) }
{
    let mut range = Range { low: 0, high: 0 };
    for step in steps {
        let arc = arcs.get(step.arc)?;
        let slacks = numbers.get(step.arc)?;
        range = range.plus(step_range(arc, step.along, *slacks)?)?;
    }
    Some(range)
}

/// The range of an event's residue.
pub(crate) fn residue_range(arcs: &[Arc], numbers: &[Range], event: usize) -> Option<Range>
    ensures { IfSome result (λ range. (zs : List ℕ) → AreIn numbers.now zs
        → IsIn range (residue arcs.now zs event)) }
{
    let index = arcs.len().checked_add(event)?;
    let range = numbers.get(index)?;
    Some(*range)
}

/// The residue at the first event of a walk less that at its last; 0 if the walk is closed. Counting it twice
/// made rounds a period too wide (docs/HISTORY.md, "Rounds a period too wide").
fn ends_range(arcs: &[Arc], numbers: &[Range], walk: &Walk) -> Option<Range>
    ensures inside { IfSome result (λ range. (zs : List ℕ) → AreIn numbers.now zs
        → IsIn range (ends arcs.now zs walk.now)) }
    ensures closed { walk.now.from ≡ walk.now.to → IfSome result (λ range. width range ≡ 0) }
{
    if walk.from == walk.to {
        return Some(Range { low: 0, high: 0 });
    }
    let from = residue_range(arcs, numbers, walk.from)?;
    let to = residue_range(arcs, numbers, walk.to)?;
    let back = to.negated()?;
    let range = from.plus(back)?;
    Some(range)
}

/// The rounds of a walk.
fn walk_range(arcs: &[Arc], numbers: &[Range], walk: &Walk) -> Option<Range>
    ensures inside { IfSome result (λ range. (zs : List ℕ) → AreIn numbers.now zs
        → IsIn range (round arcs.now zs walk.now)) }
    ensures closed { walk.now.from ≡ walk.now.to
        → IfSome result (λ range. width range ≤ widths numbers.now walk.now.steps) }
{
    let steps = time_range(arcs, numbers, &walk.steps)?;
    let ends = ends_range(arcs, numbers, walk)?;
    let range = steps.plus(ends)?;
    Some(range)
}

/// The same for a walk by index, in whole periods.
fn round_range(cycles: &Cycles, numbers: &[Range], index: usize) -> Option<Range>
    requires { index < length cycles.now.walks }
    ensures inside { IfSome result (λ range. (xs : List ℕ)
        → AreIn numbers.now (numbers_of cycles.now.network xs)
        → IsIn range (round cycles.now.network.arcs (numbers_of cycles.now.network xs)
        (slice_index_or cycles.now.walks index no_path))) }
    ensures closed { (walk : Path) → walk ≡ slice_index_or cycles.now.walks index no_path
        → walk.from ≡ walk.to
        → IfSome result (λ range. width range ≤ widths numbers.now walk.steps) }
{
    let walk = &cycles.walks()[index];
    let times = walk_range(cycles.network().arcs(), numbers, walk)?;
    let range = times.rounded(cycles.period().get())?;
    Some(range)
}

/// The slacks of an arc that is met.
fn span_range(arc: &Arc, period: Period) -> Range
    ensures { (r s : ℕ) → IsTrue (is_met period arc.now.span r s)
        → IsIn result (pos (slack_of period arc.now.span r s)) }
{
    let width = i64::from(arc.span.upper()) - i64::from(arc.span.lower());
    Range {
        low: 0,
        high: width.min(i64::from(period.get()) - 1),
    }
}

/// The slack of a loop, if it can be met.
fn loop_range(arc: &Arc, period: Period) -> Range
    ensures { (r : ℕ) → IsTrue (is_met period arc.now.span r r)
        → IsIn result (pos (slack_of period arc.now.span r r)) }
{
    let range = span_range(arc, period);
    range.at(slack(period, arc.span, 0, 0))
}

/// The slacks of an arc that is met, with these ranges of residues at its ends. There may be none.
fn slack_range(arc: &Arc, period: Period, from: Range, to: Range) -> Range
    ensures { (r s : ℕ) → IsIn from (pos r) → IsIn to (pos s)
        → IsTrue (is_met period arc.now.span r s)
        → IsIn result (pos (slack_of period arc.now.span r s)) }
{
    let range = span_range(arc, period);
    match (from.only(period), to.only(period)) {
        (Some(from), Some(to)) => range.at(slack(period, arc.span, from, to)),
        _ => range,
    }
}

/// The same for an arc of a network whose events have these ranges.
fn arc_range(arc: &Arc, period: Period, residues: &[Range]) -> Range
    requires from { arc.now.from < length residues.now }
    requires to { arc.now.to < length residues.now }
    ensures { (xs : List ℕ) → AreIn residues.now xs
        → IsTrue (is_met period arc.now.span (slice_index xs arc.now.from)
        (slice_index xs arc.now.to))
        → IsIn result (pos (slack_of period arc.now.span (slice_index xs arc.now.from)
        (slice_index xs arc.now.to))) }
{
    if arc.from == arc.to {
        loop_range(arc, period)
    } else {
        slack_range(arc, period, residues[arc.from], residues[arc.to])
    }
}

/// The ranges of the slacks of all arcs.
fn slack_ranges(alloc: Global, network: &Network, residues: &[Range]) -> Result<Vec<Range>, Memory>
    requires { length residues.now ≡ network.now.events }
    ensures long { IfOk result (λ ranges. length ranges.items ≡ length network.now.arcs) }
    ensures inside { IfOk result (λ ranges. (xs : List ℕ) → IsMet network.now xs
        → AreIn residues.now xs → (k : ℕ) → k < length network.now.arcs
        → IsIn (slice_index_or ranges.items k no_range)
        (pos (slice_index (numbers_of network.now xs) k))) }
{
    let arcs = network.arcs();
    let period = network.period();
    let mut ranges = Vec::new(alloc);
    for index in 0..arcs.len() {
        if ranges
            .push(arc_range(&arcs[index], period, residues))
            .is_err()
        {
            return Err(Memory);
        }
    }
    Ok(ranges)
}

/// The ranges of all variables: slacks, then residues.
fn number_ranges(alloc: Global, network: &Network, residues: &[Range]) -> Result<Vec<Range>, Memory>
    requires { length residues.now ≡ network.now.events }
    ensures long { IfOk result (λ ranges.
        length ranges.items ≡ length network.now.arcs + network.now.events) }
    ensures inside { IfOk result (λ ranges. (xs : List ℕ) → IsMet network.now xs
        → AreIn residues.now xs → AreIn ranges.items (numbers_of network.now xs)) }
    ensures within { IfOk result (λ ranges. (xs : List ℕ) → length xs ≡ network.now.events
        → AreIn ranges.items (numbers_of network.now xs) → AreIn residues.now xs) }
{
    let mut ranges = slack_ranges(alloc, network, residues)?;
    if ranges.extend_from_slice(residues).is_err() {
        return Err(Memory);
    }
    Ok(ranges)
}

/// The ranges of all rounds, if they fit.
fn round_ranges(
    alloc: Global,
    cycles: &Cycles,
    numbers: &[Range],
) -> Result<Option<Vec<Range>>, Memory>
    ensures long { IfOk result (λ found. IfSome found (λ ranges.
        length ranges.items ≡ length cycles.now.walks)) }
    ensures inside { IfOk result (λ found. IfSome found (λ ranges. (xs : List ℕ)
        → AreIn numbers.now (numbers_of cycles.now.network xs)
        → RoundsAreIn ranges.items cycles.now.network.arcs
        (numbers_of cycles.now.network xs) cycles.now.walks)) }
    ensures narrow { IfOk result (λ found. IfSome found (λ ranges.
        AreNarrow ranges.items numbers.now cycles.now.walks)) }
{
    let count = cycles.walks().len();
    let mut ranges = Vec::new(alloc);
    for index in 0..count {
        let Some(range) = round_range(cycles, numbers, index) else {
            return Ok(None);
        };
        if ranges.push(range).is_err() {
            return Err(Memory);
        }
    }
    Ok(Some(ranges))
}

/// Boxes that contain exactly the maps that meet each arc and have these residues, if all numbers fit.
pub(crate) fn root(
    alloc: Global,
    cycles: &Cycles,
    residues: &[Range],
) -> Result<Option<Boxes>, Memory>
    requires { length residues.now ≡ cycles.now.network.events }
    ensures fit { IfOk result (λ found. IfSome found (AreBoxes cycles.now)) }
    ensures inside { IfOk result (λ found. IfSome found (λ boxes. (xs : List ℕ)
        → IsMet cycles.now.network xs → AreIn residues.now xs
        → IsInside cycles.now boxes xs)) }
    ensures within { IfOk result (λ found. IfSome found (λ boxes. (xs : List ℕ)
        → length xs ≡ cycles.now.network.events → IsInside cycles.now boxes xs
        → AreIn residues.now xs)) }
    ensures narrow { IfOk result (λ found. IfSome found (λ boxes.
        AreNarrow boxes.rounds.items boxes.numbers.items cycles.now.walks)) }
{
    let numbers = number_ranges(alloc, cycles.network(), residues)?;
    let Some(rounds) = round_ranges(alloc, cycles, &numbers)? else {
        return Ok(None);
    };
    Ok(Some(Boxes { numbers, rounds }))
}
