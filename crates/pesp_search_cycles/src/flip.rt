//! Flip cuts: lower bounds on sums of variables, which hold because the round of a walk is a whole number of
//! periods.
//!
//! Each step of a walk has a least and a greatest time, and some steps are counted. Let `base` be the least
//! times of the counted steps plus the greatest times of the others. The excess of the counted steps over their
//! least times is at least 0, and at least the time of the walk less `base`. Let `base` plus `rest`, which is
//! below the period, be k periods, and the time of the walk m periods. Then the excess is at least `rest` times
//! (m - k + 1).

ghost use Rattle.std.specs.Prelude.{◌≡◌, ◌<◌, ℕ, ℤ, List, pos, neg_ℤ, ◌+ℤ◌, ◌*ℤ◌, IfSome, slice_index};
ghost use Rattle.pesp_search_network.specs.Arcs.{IsMet};
ghost use Rattle.pesp_search_cycles.specs.Maps.{Holds, numbers_of};
ghost use Rattle.pesp_search_cycles.specs.Ranges.{AreIn, IsIn};
ghost use Rattle.pesp_search_cycles.specs.Terms.{IsKept, IsMade, left};
ghost use Rattle.pesp_search_cycles.specs.Walks.{residue, round, time_of, times};

use crate::range::whole_below;
use crate::root::{residue_range, step_range};
use crate::{Cycles, Range, Walk};
use pesp_base::Memory;
use pesp_search_graph::{Arc, Step};
use std::alloc::Global;

/// A multiple of a variable.
#[derive(Clone, Copy)]
pub(crate) struct Part {
    // The index of the variable, a slack or a residue.
    pub(crate) number: usize,
    // Its coefficient, any number.
    pub(crate) rate: i64,
}

/// A linear inequality that holds for each map.
#[derive(Drop)]
pub(crate) struct FlipCut {
    // The terms of its left side.
    pub(crate) terms: Vec<Part>,
    // The lower bound of their sum.
    pub(crate) least: i64,
}

/// A walk and the steps of it that are counted. Any choice gives a valid cut.
#[derive(Drop)]
pub(crate) struct Flip {
    // A closed walk, or one between events with few residues.
    pub(crate) walk: Walk,
    // One flag for each step, then one for the first event and one for the last.
    pub(crate) counted: Vec<bool>,
    // The distance from `base` to the next multiple of the period.
    pub(crate) rest: i64,
}

impl Flip {
    /// A copy of the flip.
    pub(crate) fn copy(&self) -> Result<Flip, Memory> {
        let Ok(counted) = self.counted.clone() else {
            return Err(Memory);
        };
        Ok(Flip {
            walk: self.walk.copy()?,
            counted,
            rest: self.rest,
        })
    }
}

/// Copies of flips.
pub(crate) fn copies_of(alloc: Global, flips: &[Flip]) -> Result<Vec<Flip>, Memory> {
    let mut copies = Vec::new(alloc);
    for flip in flips {
        if copies.push(flip.copy()?).is_err() {
            return Err(Memory);
        }
    }
    Ok(copies)
}

/// A step or an end of a walk. Its time is `fixed` plus `rate` times a variable.
#[derive(Clone, Copy)]
struct Piece {
    // The index of the variable.
    number: usize,
    // 1 if the time grows with the variable, -1 if it falls.
    rate: i64,
    // The part of the time that does not depend on the variable.
    fixed: i64,
    // The range of the time.
    range: Range,
    // Whether the step is counted.
    is_counted: bool,
}

/// The period, and the distance to the next multiple of it.
#[derive(Clone, Copy)]
struct Rest {
    // The period; any number.
    period: u16,
    // The distance; any number.
    rest: i64,
}

/// A flip cut in the making, for the steps so far.
#[derive(Drop)]
struct Making {
    // The terms of these steps.
    terms: Vec<Part>,
    // The least times of counted steps plus the greatest times of others.
    base: i64,
    // A lower bound on the terms plus `rest` times the time of these steps.
    least: i64,
}

impl Making {
    /// The same with one more term.
    fn with(self, number: usize, rate: i64, base: i64, least: i64) -> Option<Making>
        ensures { IfSome result (λ made. (made.base ≡ base) × ((made.least ≡ least)
            × ((zs : List ℕ) → left made.terms.items zs ≡ left self.terms.items zs
            +ℤ rate *ℤ pos (slice_index zs number)))) }
    {
        let mut terms = self.terms;
        if terms.push(Part { number, rate }).is_err() {
            return None;
        }
        Some(Making { terms, base, least })
    }

    /// The same with one more counted step.
    fn with_counted(self, piece: Piece, rest: Rest) -> Option<Making>
        ensures { IfSome result (λ made. (zs : List ℕ) (time : ℤ)
            → IsIn piece.range (piece.fixed +ℤ piece.rate *ℤ pos (slice_index zs piece.number))
            → IsMade rest.period rest.rest self zs time
            → IsMade rest.period rest.rest made zs
            (time +ℤ (piece.fixed +ℤ piece.rate *ℤ pos (slice_index zs piece.number)))) }
    {
        let period = i64::from(rest.period);
        let often = period.checked_sub(rest.rest)?;
        let base = self.base.checked_add(piece.range.low)?;
        let fixed = often.checked_mul(piece.fixed)?;
        let low = period.checked_mul(piece.range.low)?;
        let more = low.checked_sub(fixed)?;
        let least = self.least.checked_add(more)?;
        let rate = often.checked_mul(piece.rate)?;
        let made = self.with(piece.number, rate, base, least)?;
        Some(made)
    }

    /// The same with one more step that is not counted.
    fn with_other(self, piece: Piece, rest: Rest) -> Option<Making>
        ensures { IfSome result (λ made. (zs : List ℕ) (time : ℤ)
            → IsIn piece.range (piece.fixed +ℤ piece.rate *ℤ pos (slice_index zs piece.number))
            → IsMade rest.period rest.rest self zs time
            → IsMade rest.period rest.rest made zs
            (time +ℤ (piece.fixed +ℤ piece.rate *ℤ pos (slice_index zs piece.number)))) }
    {
        let base = self.base.checked_add(piece.range.high)?;
        let more = rest.rest.checked_mul(piece.fixed)?;
        let least = self.least.checked_add(more)?;
        let often = rest.rest.checked_mul(piece.rate)?;
        let rate = often.checked_neg()?;
        let made = self.with(piece.number, rate, base, least)?;
        Some(made)
    }

    /// The same with one more step.
    fn with_piece(self, piece: Piece, rest: Rest) -> Option<Making>
        ensures { IfSome result (λ made. (zs : List ℕ) (time : ℤ)
            → IsIn piece.range (piece.fixed +ℤ piece.rate *ℤ pos (slice_index zs piece.number))
            → IsMade rest.period rest.rest self zs time
            → IsMade rest.period rest.rest made zs
            (time +ℤ (piece.fixed +ℤ piece.rate *ℤ pos (slice_index zs piece.number)))) }
    {
        if piece.is_counted {
            self.with_counted(piece, rest)
        } else {
            self.with_other(piece, rest)
        }
    }
}

/// A step of a walk along or against its arc.
fn step_piece(arcs: &[Arc], numbers: &[Range], step: Step, is_counted: bool) -> Option<Piece>
    ensures { IfSome result (λ piece. (zs : List ℕ) → AreIn numbers.now zs
        → (piece.fixed +ℤ piece.rate *ℤ pos (slice_index zs piece.number) ≡ time_of arcs.now zs step)
        × IsIn piece.range (time_of arcs.now zs step)) }
{
    let arc = arcs.get(step.arc)?;
    let slacks = numbers.get(step.arc)?;
    let range = step_range(arc, step.along, *slacks)?;
    let lower = i64::from(arc.span.lower());
    if step.along {
        Some(Piece {
            number: step.arc,
            rate: 1,
            fixed: lower,
            range,
            is_counted,
        })
    } else {
        Some(Piece {
            number: step.arc,
            rate: -1,
            fixed: -lower,
            range,
            is_counted,
        })
    }
}

/// The residue at the first event of a walk.
fn first_piece(arcs: &[Arc], numbers: &[Range], event: usize, is_counted: bool) -> Option<Piece>
    ensures { IfSome result (λ piece. (zs : List ℕ) → AreIn numbers.now zs
        → (piece.fixed +ℤ piece.rate *ℤ pos (slice_index zs piece.number) ≡ residue arcs.now zs event)
        × IsIn piece.range (residue arcs.now zs event)) }
{
    let range = residue_range(arcs, numbers, event)?;
    let number = arcs.len().checked_add(event)?;
    Some(Piece {
        number,
        rate: 1,
        fixed: 0,
        range,
        is_counted,
    })
}

/// The residue at the last event of a walk, which is subtracted.
fn last_piece(arcs: &[Arc], numbers: &[Range], event: usize, is_counted: bool) -> Option<Piece>
    ensures { IfSome result (λ piece. (zs : List ℕ) → AreIn numbers.now zs
        → (piece.fixed +ℤ piece.rate *ℤ pos (slice_index zs piece.number) ≡ neg_ℤ (residue arcs.now zs event))
        × IsIn piece.range (neg_ℤ (residue arcs.now zs event))) }
{
    let residues = residue_range(arcs, numbers, event)?;
    let range = residues.negated()?;
    let number = arcs.len().checked_add(event)?;
    Some(Piece {
        number,
        rate: -1,
        fixed: 0,
        range,
        is_counted,
    })
}

/// Whether the step at an index is counted.
fn is_counted(counted: &[bool], index: usize) -> bool {
    counted.get(index).copied() == Some(true)
}

/// The inequality of the steps of a walk.
fn of_steps(
    alloc: Global,
    arcs: &[Arc],
    numbers: &[Range],
    steps: &[Step],
    counted: &[bool],
    rest: Rest,
) -> Option<Making>
    ensures { IfSome result (λ made. (zs : List ℕ) → AreIn numbers.now zs
        → IsMade rest.period rest.rest made zs (times arcs.now zs steps.now)) }
{
    let mut made = Making {
        terms: Vec::new(alloc),
        base: 0,
        least: 0,
    };
    for index in 0..steps.len() {
        let piece = step_piece(arcs, numbers, steps[index], is_counted(counted, index))?;
        made = made.with_piece(piece, rest)?;
    }
    Some(made)
}

/// The inequality of a walk. If the walk is closed, the residue at its ends cancels.
fn of_walk(
    alloc: Global,
    arcs: &[Arc],
    numbers: &[Range],
    flip: &Flip,
    rest: Rest,
) -> Option<Making>
    ensures { IfSome result (λ made. (zs : List ℕ) → AreIn numbers.now zs
        → IsMade rest.period rest.rest made zs (round arcs.now zs flip.now.walk)) }
{
    let walk = &flip.walk;
    let made = of_steps(alloc, arcs, numbers, &walk.steps, &flip.counted, rest)?;
    if walk.from == walk.to {
        return Some(made);
    }
    let steps = walk.steps.len();
    let first = first_piece(arcs, numbers, walk.from, is_counted(&flip.counted, steps))?;
    let last = last_piece(arcs, numbers, walk.to, is_counted(&flip.counted, steps + 1))?;
    let begun = made.with_piece(first, rest)?;
    let ended = begun.with_piece(last, rest)?;
    Some(ended)
}

/// The cut of these steps, if base and rest are a multiple of the period and all numbers fit.
fn completed(made: Making, rest: Rest) -> Option<FlipCut>
    requires { 0 < rest.period }
    ensures { IfSome result (λ cut. (zs : List ℕ) (periods : ℤ)
        → IsMade rest.period rest.rest made zs (pos rest.period *ℤ periods)
        → IsKept cut zs) }
{
    let whole = made.base.checked_add(rest.rest)?;
    let period = i64::from(rest.period);
    let below = whole_below(whole, rest.period)?;
    if below != whole || rest.rest < 0 || rest.rest > period {
        return None;
    }
    let first = period.checked_sub(whole)?;
    let product = rest.rest.checked_mul(first)?;
    let least = made.least.checked_add(product)?;
    Some(FlipCut {
        terms: made.terms,
        least,
    })
}

/// The flip cut of a walk, if it leads from its first event to its last, the rest is valid, and all numbers
/// fit.
pub(crate) fn flip_cut(
    alloc: Global,
    cycles: &Cycles,
    numbers: &[Range],
    flip: &Flip,
) -> Option<FlipCut>
    requires { (xs : List ℕ) → IsMet cycles.now.network xs
        → AreIn numbers.now (numbers_of cycles.now.network xs) }
    ensures { IfSome result (Holds cycles.now.network) }
{
    let network = cycles.network();
    let arcs = network.arcs();
    if !flip.walk.joins(network.events(), arcs) {
        return None;
    }
    let rest = Rest {
        period: cycles.period().get(),
        rest: flip.rest,
    };
    let made = of_walk(alloc, arcs, numbers, flip, rest)?;
    let cut = completed(made, rest)?;
    Some(cut)
}
