//! Whether boxes contain a map, and its cost.

ghost use Rattle.std.specs.Prelude.{◌≡◌, ℕ, List, ◌+◌, ◌<◌, ◌≤◌, ◌++◌, All, IfNone, IfOk, IfSome, MatchBool, length, pos, slice_index};
ghost use Rattle.pesp_search_network.specs.Arcs.{IsMet};
ghost use Rattle.pesp_search_cycles.specs.Maps.{AreBoxes, IsSummed, numbers_of, slacks_of};
ghost use Rattle.pesp_search_cycles.specs.Ranges.{AreIn, IsIn};
ghost use Rattle.pesp_search_cycles.specs.Splits.{AreSingle};
ghost use Rattle.pesp_search_cycles.specs.Walks.{RoundsAreIn, residue, round, time_of, times};

use crate::boxes::Boxes;
use crate::{Cycles, Range, Walk};
use pesp_base::{Memory, slack};
use pesp_search_graph::{Arc, Step};
use pesp_search_network::Network;
use std::alloc::Global;

/// The slacks of the arcs at a map.
fn slacks(alloc: Global, network: &Network, map: &[u16]) -> Result<Vec<u16>, Memory>
    requires { IsMet network.now map.now }
    ensures { IfOk result (λ slacks.
        slacks.items ≡ slacks_of network.now map.now) }
{
    let arcs = network.arcs();
    let period = network.period();
    let mut slacks = Vec::new(alloc);
    for index in 0..arcs.len() {
        let arc = arcs[index];
        let slack = slack(period, arc.span, map[arc.from], map[arc.to]);
        if slacks.push(slack).is_err() {
            return Err(Memory);
        }
    }
    Ok(slacks)
}

/// The variables of a map: the slacks of the arcs, then the residues.
fn numbers(alloc: Global, network: &Network, map: &[u16]) -> Result<Vec<u16>, Memory>
    requires { IsMet network.now map.now }
    ensures { IfOk result (λ numbers. numbers.items ≡ numbers_of network.now map.now) }
{
    let mut numbers = slacks(alloc, network, map)?;
    if numbers.extend_from_slice(map).is_err() {
        return Err(Memory);
    }
    Ok(numbers)
}

/// Whether each variable is in its range.
fn are_in(ranges: &[Range], numbers: &[u16]) -> bool
    ensures { MatchBool result (AreIn ranges.now numbers.now) (AreIn ranges.now numbers.now → ⊥) }
{
    if ranges.len() != numbers.len() {
        return false;
    }
    for index in 0..ranges.len() {
        if !ranges[index].has(i64::from(numbers[index])) {
            return false;
        }
    }
    true
}

/// The time of a step at these values, if its arc exists.
fn step_time(arcs: &[Arc], numbers: &[u16], step: Step) -> Option<i64>
    ensures { IfSome result (λ time. time ≡ time_of arcs.now numbers.now step) }
{
    if step.arc >= arcs.len() || step.arc >= numbers.len() {
        return None;
    }
    let arc = arcs[step.arc];
    let time = i64::from(arc.span.lower()) + i64::from(numbers[step.arc]);
    if step.along { Some(time) } else { Some(-time) }
}

/// The time of the steps at these values, if it fits.
fn time(arcs: &[Arc], numbers: &[u16], steps: &[Step]) -> Option<i64>
    ensures { IfSome result (λ time. time ≡ times arcs.now numbers.now steps.now) }
{
    let mut sum: i64 = 0;
    for step in steps {
        sum = sum.checked_add(step_time(arcs, numbers, *step)?)?;
    }
    Some(sum)
}

/// The residue of an event at these values.
fn residue_at(arcs: &[Arc], numbers: &[u16], event: usize) -> Option<i64>
    ensures { IfSome result (λ time. time ≡ residue arcs.now numbers.now event) }
{
    let index = arcs.len().checked_add(event)?;
    if index >= numbers.len() {
        return None;
    }
    Some(i64::from(numbers[index]))
}

/// The round of a walk at these values: its time, plus the residue at its first event, less that at its last.
fn round_at(arcs: &[Arc], numbers: &[u16], walk: &Walk) -> Option<i64>
    ensures { IfSome result (λ time. time ≡ round arcs.now numbers.now walk.now) }
{
    let steps = time(arcs, numbers, &walk.steps)?;
    let from = residue_at(arcs, numbers, walk.from)?;
    let to = residue_at(arcs, numbers, walk.to)?;
    let ends = from.checked_sub(to)?;
    let time = steps.checked_add(ends)?;
    Some(time)
}

/// Whether each range contains the round of its walk, if all rounds fit.
fn rounds_are_in(ranges: &[Range], arcs: &[Arc], numbers: &[u16], walks: &[Walk]) -> Option<bool>
    requires { length ranges.now ≡ length walks.now }
    ensures { IfSome result (λ inside. MatchBool inside
        (RoundsAreIn ranges.now arcs.now numbers.now walks.now)
        (RoundsAreIn ranges.now arcs.now numbers.now walks.now → ⊥)) }
{
    for index in 0..walks.len() {
        let time = round_at(arcs, numbers, &walks[index])?;
        if !ranges[index].has(time) {
            return Some(false);
        }
    }
    Some(true)
}

/// Whether the boxes contain a map that meets everything. A time that does not fit counts as out of memory;
/// `root` has excluded that before.
fn is_inside(alloc: Global, cycles: &Cycles, boxes: &Boxes, map: &[u16]) -> Result<bool, Memory>
    requires boxes { AreBoxes cycles.now boxes.now }
    requires met { IsMet cycles.now.network map.now }
    ensures { IfOk result (λ inside. MatchBool inside
        ((AreIn boxes.now.numbers.items (numbers_of cycles.now.network map.now))
        × RoundsAreIn boxes.now.rounds.items cycles.now.network.arcs
        (numbers_of cycles.now.network map.now) cycles.now.walks)
        ((AreIn boxes.now.numbers.items (numbers_of cycles.now.network map.now))
        × RoundsAreIn boxes.now.rounds.items cycles.now.network.arcs
        (numbers_of cycles.now.network map.now) cycles.now.walks → ⊥)) }
{
    let numbers = numbers(alloc, cycles.network(), map)?;
    if !are_in(&boxes.numbers, &numbers) {
        return Ok(false);
    }
    let arcs = cycles.network().arcs();
    match rounds_are_in(&boxes.rounds, arcs, &numbers, cycles.walks()) {
        Some(inside) => Ok(inside),
        None => Err(Memory),
    }
}

/// The cost of a map, if it meets everything and is in the boxes.
pub(crate) fn admitted_cost(
    alloc: Global,
    cycles: &Cycles,
    boxes: &Boxes,
    map: &[u16],
) -> Result<Option<u64>, Memory>
    requires { AreBoxes cycles.now boxes.now }
    ensures none { IfOk result (λ found. IfNone found ((cost : ℕ)
        → IsSummed cycles.now boxes.now map.now cost → ⊥)) }
    ensures some { IfOk result (λ found. IfSome found (IsSummed cycles.now boxes.now map.now)) }
{
    let Some(cost) = cycles.network().cost(map) else {
        return Ok(None);
    };
    if is_inside(alloc, cycles, boxes, map)? {
        Ok(Some(cost))
    } else {
        Ok(None)
    }
}

/// The map of the least number of each range, if these are residues.
pub(crate) fn only_map(alloc: Global, ranges: &[Range]) -> Result<Option<Vec<u16>>, Memory>
    requires { AreSingle ranges.now }
    ensures none { IfOk result (λ found. IfNone found ((xs : List ℕ)
        → All (λ r. r < 65536) xs → AreIn ranges.now xs → ⊥)) }
    ensures some { IfOk result (λ found. IfSome found (λ map. (xs : List ℕ)
        → AreIn ranges.now xs → xs ≡ map.items)) }
{
    let mut map = Vec::new(alloc);
    for index in 0..ranges.len() {
        let least = ranges[index].low;
        if least < 0 || least > 65_535 {
            return Ok(None);
        }
        if map.push(least as u16).is_err() {
            return Err(Memory);
        }
    }
    Ok(Some(map))
}
