//! Linear expressions over the slacks of arcs and the residues of events: a constant, and a coefficient for
//! each variable.
//!
//! A sum that does not fit gives `None`.

ghost use Rattle.std.specs.Prelude.{◌≡◌, ℕ, List, ◌+◌, ◌*◌, ◌<◌, ◌≤◌, ◌++◌, ◌^◌, pos, ◌*ℤ◌, ◌+ℤ◌, ◌-ℤ◌, ◌≤ℤ◌, All, IfSome, MatchOption, length, slice_index, slice_index_or};
ghost use Rattle.pesp_search_least.specs.Sums.{IsEmpty, IsLowerBound};
ghost use Rattle.pesp_search_cycles.specs.Maps.{AreBoxes, IsSummed};
ghost use Rattle.pesp_search_cycles.specs.Ranges.{AreIn, IsIn};
ghost use Rattle.pesp_search_cycles.specs.Terms.{IsKept, left, products, rate_at, value, weighed};
ghost use Rattle.pesp_search_cycles.specs.Walks.{RoundsAreIn, residue, round, time_of, times};

use crate::boxes::Boxes;
use crate::flip::{FlipCut, Part};
use crate::{Cycles, Range, Walk};
use pesp_search_graph::{Arc, Step};

/// The round of a walk: its range, and its multiplier.
#[derive(Clone, Copy)]
struct Multiple {
    // The range; any.
    range: Range,
    // The multiplier; any number.
    multiplier: i64,
}

/// The scale times the weight of an arc; 0 if there is no arc.
fn rate(arcs: &[Arc], scale: u32, index: usize) -> i64
    ensures { result ≡ rate_at scale arcs.now index }
{
    if index < arcs.len() {
        let rate = u64::from(scale) * u64::from(arcs[index].weight.get());
        rate as i64
    } else {
        0
    }
}

/// Sets the coefficient of each arc to the scale times its weight and all others to 0, so that the sum is the
/// scale times the cost.
fn weigh(arcs: &[Arc], scale: u32, rates: &mut [i64])
    ensures long { length rates.new ≡ length rates.old }
    ensures each { (k : ℕ) → k < length rates.old
        → slice_index_or rates.new k (pos 0) ≡ rate_at scale arcs.now k }
{
    for index in 0..rates.len() {
        rates[index] = rate(arcs, scale, index);
    }
}

/// Subtracts a multiple of a variable from the sum.
fn take_number(index: usize, multiplier: i64, rates: &mut [i64]) -> Option<()>
    requires { index < length rates.old }
    ensures long { length rates.new ≡ length rates.old }
    ensures taken { IfSome result (λ _. (zs : List ℕ) → length zs ≡ length rates.old
        → products rates.new zs
        ≡ products rates.old zs -ℤ multiplier *ℤ pos (slice_index zs index)) }
{
    rates[index] = rates[index].checked_sub(multiplier)?;
    Some(())
}

/// Subtracts a multiple of the residue at the first event of a walk, less that at its last, from the sum.
fn take_ends(arcs: &[Arc], walk: &Walk, multiplier: i64, rates: &mut [i64]) -> Option<()>
    ensures long { length rates.new ≡ length rates.old }
    ensures taken { IfSome result (λ _. (zs : List ℕ) → length zs ≡ length rates.old
        → products rates.new zs
        ≡ products rates.old zs
        -ℤ multiplier *ℤ (residue arcs.now zs walk.now.from -ℤ residue arcs.now zs walk.now.to)) }
{
    let from = arcs.len().checked_add(walk.from)?;
    let to = arcs.len().checked_add(walk.to)?;
    if from >= rates.len() || to >= rates.len() {
        return None;
    }
    let back = multiplier.checked_neg()?;
    take_number(from, multiplier, rates)?;
    take_number(to, back, rates)?;
    Some(())
}

/// Subtracts a multiple of a step's time from the sum.
fn take_step(arcs: &[Arc], step: Step, multiplier: i64, sum: i64, rates: &mut [i64]) -> Option<i64>
    requires arc { step.arc < length arcs.now }
    requires rates { step.arc < length rates.old }
    ensures long { length rates.new ≡ length rates.old }
    ensures taken { IfSome result (λ less. (zs : List ℕ) → length zs ≡ length rates.old
        → value less rates.new zs
        ≡ value sum rates.old zs -ℤ multiplier *ℤ time_of arcs.now zs step) }
{
    let arc = arcs[step.arc];
    let part = if step.along {
        multiplier
    } else {
        multiplier.checked_neg()?
    };
    let fixed = part.checked_mul(i64::from(arc.span.lower()))?;
    let less = sum.checked_sub(fixed)?;
    rates[step.arc] = rates[step.arc].checked_sub(part)?;
    Some(less)
}

/// Subtracts a multiple of the steps' time from the sum.
fn take_steps(
    arcs: &[Arc],
    steps: &[Step],
    multiplier: i64,
    sum: i64,
    rates: &mut [i64],
) -> Option<i64>
    ensures long { length rates.new ≡ length rates.old }
    ensures taken { IfSome result (λ less. (zs : List ℕ) → length zs ≡ length rates.old
        → value less rates.new zs
        ≡ value sum rates.old zs -ℤ multiplier *ℤ times arcs.now zs steps.now) }
{
    let mut less = sum;
    for step in steps {
        if step.arc >= arcs.len() || step.arc >= rates.len() {
            return None;
        }
        less = take_step(arcs, *step, multiplier, less, rates)?;
    }
    Some(less)
}

/// Subtracts a multiple of a walk's round from the sum, and adds its minimum.
fn take_walk(
    arcs: &[Arc],
    walk: &Walk,
    multiple: Multiple,
    sum: i64,
    rates: &mut [i64],
) -> Option<i64>
    ensures long { length rates.new ≡ length rates.old }
    ensures taken { IfSome result (λ less. (zs : List ℕ) → length zs ≡ length rates.old
        → IsIn multiple.range (round arcs.now zs walk.now)
        → value less rates.new zs ≤ℤ value sum rates.old zs) }
{
    let product = multiple.range.least_product(multiple.multiplier)?;
    let more = sum.checked_add(product)?;
    take_ends(arcs, walk, multiple.multiplier, rates)?;
    let less = take_steps(arcs, &walk.steps, multiple.multiplier, more, rates)?;
    Some(less)
}

/// The same for each walk with its multiplier, from index 0.
fn take_walks(
    arcs: &[Arc],
    walks: &[Walk],
    ranges: &[Range],
    multipliers: &[i64],
    rates: &mut [i64],
) -> Option<i64>
    requires ranges { length ranges.now ≡ length walks.now }
    requires multipliers { length multipliers.now ≡ length walks.now }
    ensures long { length rates.new ≡ length rates.old }
    ensures taken { IfSome result (λ less. (zs : List ℕ) → length zs ≡ length rates.old
        → RoundsAreIn ranges.now arcs.now zs walks.now
        → value less rates.new zs ≤ℤ products rates.old zs) }
{
    let mut less = 0;
    for index in 0..walks.len() {
        let multiple = Multiple {
            range: ranges[index],
            multiplier: multipliers[index],
        };
        less = take_walk(arcs, &walks[index], multiple, less, rates)?;
    }
    Some(less)
}

/// Subtracts a multiple of all terms from the sum.
fn take_terms(terms: &[Part], multiplier: i64, rates: &mut [i64]) -> Option<()>
    ensures long { length rates.new ≡ length rates.old }
    ensures taken { IfSome result (λ _. (zs : List ℕ) → length zs ≡ length rates.old
        → products rates.new zs ≡ products rates.old zs -ℤ multiplier *ℤ left terms.now zs) }
{
    for term in terms {
        if term.number >= rates.len() {
            return None;
        }
        let multiple = multiplier.checked_mul(term.rate)?;
        take_number(term.number, multiple, rates)?;
    }
    Some(())
}

/// Subtracts a multiple of a cut's terms from the sum, and adds its minimum. A negative multiplier has no
/// effect.
fn take_cut(cut: &FlipCut, multiplier: i64, sum: i64, rates: &mut [i64]) -> Option<i64>
    ensures long { length rates.new ≡ length rates.old }
    ensures taken { IfSome result (λ less. (zs : List ℕ) → length zs ≡ length rates.old
        → IsKept cut.now zs
        → value less rates.new zs ≤ℤ value sum rates.old zs) }
{
    if multiplier <= 0 {
        return Some(sum);
    }
    let product = multiplier.checked_mul(cut.least)?;
    let more = sum.checked_add(product)?;
    take_terms(&cut.terms, multiplier, rates)?;
    Some(more)
}

/// The same for each cut with its multiplier.
fn take_cuts(cuts: &[FlipCut], multipliers: &[i64], sum: i64, rates: &mut [i64]) -> Option<i64>
    requires { length multipliers.now ≡ length cuts.now }
    ensures long { length rates.new ≡ length rates.old }
    ensures taken { IfSome result (λ less. (zs : List ℕ) → length zs ≡ length rates.old
        → All (λ cut. IsKept cut zs) cuts.now
        → value less rates.new zs ≤ℤ value sum rates.old zs) }
{
    let mut less = sum;
    for index in 0..cuts.len() {
        less = take_cut(&cuts[index], multipliers[index], less, rates)?;
    }
    Some(less)
}

/// The minimum of the sum for variables in these ranges.
fn settle(sum: i64, rates: &[i64], ranges: &[Range]) -> Option<i64>
    requires { length ranges.now ≡ length rates.now }
    ensures { IfSome result (λ least. (ys : List ℕ) → AreIn ranges.now ys
        → least ≤ℤ value sum rates.now ys) }
{
    let mut least = sum;
    for index in 0..rates.len() {
        least = least.checked_add(ranges[index].least_product(rates[index])?)?;
    }
    Some(least)
}

/// The least cost whose product with the scale is at least the sum, if it fits.
fn least_cost(sum: i64, scale: u32) -> Option<u64>
    ensures { MatchOption result
        ((cost : ℕ) → sum ≤ℤ pos (scale * cost) → ⊥)
        (λ least. (cost : ℕ) → sum ≤ℤ pos (scale * cost) → least ≤ cost) }
{
    if sum <= 0 {
        return Some(0);
    }
    if scale == 0 {
        return None;
    }
    Some(sum.unsigned_abs().div_ceil(u64::from(scale)))
}

/// The minimum of the scale times the cost in the boxes.
fn least_value(
    cycles: &Cycles,
    boxes: &Boxes,
    multipliers: &[i64],
    scale: u32,
    rates: &mut [i64],
) -> Option<i64>
    requires boxes { AreBoxes cycles.now boxes.now }
    requires multipliers { length multipliers.now ≡ length cycles.now.walks + length cycles.now.cuts }
    requires rates { length rates.old ≡ length cycles.now.network.arcs + cycles.now.network.events }
    ensures long { length rates.new ≡ length rates.old }
    ensures least { IfSome result (λ least. (ys xs : List ℕ) → length ys ≡ length cycles.now.network.arcs
        → AreIn boxes.now.numbers.items (ys ++ xs)
        → RoundsAreIn boxes.now.rounds.items cycles.now.network.arcs (ys ++ xs) cycles.now.walks
        → All (λ cut. IsKept cut (ys ++ xs)) cycles.now.cuts
        → least ≤ℤ pos (scale * weighed cycles.now.network.arcs ys)) }
{
    let arcs = cycles.network().arcs();
    weigh(arcs, scale, rates);
    let walks = cycles.walks();
    let (of_walks, of_cuts) = multipliers.split_at(walks.len());
    let sum = take_walks(arcs, walks, &boxes.rounds, of_walks, rates)?;
    let less = take_cuts(cycles.cuts(), of_cuts, sum, rates)?;
    let least = settle(less, rates, &boxes.numbers)?;
    Some(least)
}

/// A lower bound on the cost of maps in the boxes, from any multipliers of walks and cuts and any scale; none
/// if these show that there is no map. A sum that does not fit gives 0 (docs/DECISIONS.md, "A search by
/// cycles").
pub(crate) fn floor(
    cycles: &Cycles,
    boxes: &Boxes,
    multipliers: &[i64],
    scale: u32,
    rates: &mut [i64],
) -> Option<u64>
    requires boxes { AreBoxes cycles.now boxes.now }
    requires multipliers { length multipliers.now ≡ length cycles.now.walks + length cycles.now.cuts }
    requires rates { length rates.old ≡ length cycles.now.network.arcs + cycles.now.network.events }
    ensures long { length rates.new ≡ length rates.old }
    ensures floor { MatchOption result (IsEmpty (IsSummed cycles.now boxes.now))
        (IsLowerBound (IsSummed cycles.now boxes.now)) }
{
    cycles.sound();
    match least_value(cycles, boxes, multipliers, scale, rates) {
        Some(sum) => least_cost(sum, scale),
        None => Some(0),
    }
}
