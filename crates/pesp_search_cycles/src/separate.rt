//! The choice of the counted steps of a walk, so that the tableau violates its flip cut. Any choice is valid.

use crate::flip::Flip;
use crate::proposer::Proposer;
use crate::{Range, Walk};
use pesp_base::{Memory, Period};
use pesp_search_graph::Arc;
use pesp_search_simplex::PARTS;
use std::alloc::Global;

/// The least violation of a cut, divided by its greatest coefficient: weaker cuts cost a row and gain little.
/// No trial of this number is recorded.
const LEAST_MISSING: i64 = PARTS / 8;

/// A step or an end of a walk in a tableau.
#[derive(Clone, Copy)]
struct Seen {
    // Its time, in units of 1 / `PARTS`.
    time: i64,
    // Its least time.
    low: i64,
    // Its greatest time.
    high: i64,
}

impl Seen {
    /// A step along or against a variable.
    fn of(proposer: &Proposer, numbers: &[Range], number: usize, lower: i64, along: bool) -> Seen {
        let range = match numbers.get(number) {
            Some(range) => *range,
            None => Range { low: 0, high: 0 },
        };
        let time = proposer
            .parts(number)
            .saturating_add(lower.saturating_mul(PARTS));
        let low = lower.saturating_add(range.low);
        let high = lower.saturating_add(range.high);
        if along {
            return Seen { time, low, high };
        }
        Seen {
            time: time.saturating_neg(),
            low: high.saturating_neg(),
            high: low.saturating_neg(),
        }
    }

    /// The excess over its least time, in units of 1 / `PARTS`.
    fn over(&self) -> i64 {
        self.time.saturating_sub(self.low.saturating_mul(PARTS))
    }

    /// The distance to its greatest time, in units of 1 / `PARTS`.
    fn under(&self) -> i64 {
        self.high.saturating_mul(PARTS).saturating_sub(self.time)
    }

    fn width(&self) -> i64 {
        self.high.saturating_sub(self.low)
    }
}

/// The sums of a walk for one choice of counted steps.
#[derive(Clone, Copy)]
struct Count {
    // The time of all steps, in units of 1 / `PARTS`.
    time: i64,
    // The excess of the counted steps over their least times, in units of 1 / `PARTS`.
    over: i64,
    // The least times of the counted steps plus the greatest times of others.
    base: i64,
}

impl Count {
    /// The distance from `base` to the next multiple of the period.
    fn rest(&self, period: i64) -> i64 {
        self.base.saturating_neg().rem_euclid(period.max(1))
    }

    /// The violation of the cut, divided by its greatest coefficient.
    fn missing(&self, period: i64) -> i64 {
        let rest = self.rest(period);
        if rest == 0 {
            return 0;
        }
        let whole = self.base.saturating_add(rest);
        let periods = period.saturating_sub(whole).saturating_mul(PARTS);
        let least = periods
            .saturating_add(self.time)
            .saturating_mul(rest)
            .saturating_sub(self.over.saturating_mul(period));
        let greatest = rest.max(period.saturating_sub(rest));
        least.checked_div(greatest).unwrap_or(0)
    }

    /// The sums after one step is counted, or no longer counted.
    fn turned(self, seen: Seen, is_counted: bool) -> Count {
        if is_counted {
            Count {
                time: self.time,
                over: self.over.saturating_sub(seen.over()),
                base: self.base.saturating_add(seen.width()),
            }
        } else {
            Count {
                time: self.time,
                over: self.over.saturating_add(seen.over()),
                base: self.base.saturating_sub(seen.width()),
            }
        }
    }
}

/// The steps of a walk in a tableau, and its ends if they differ.
fn seen_of(
    alloc: Global,
    arcs: &[Arc],
    numbers: &[Range],
    proposer: &Proposer,
    walk: &Walk,
) -> Result<Vec<Seen>, Memory> {
    let mut all = Vec::new(alloc);
    for step in &walk.steps {
        let lower = match arcs.get(step.arc) {
            Some(arc) => i64::from(arc.span.lower()),
            None => 0,
        };
        let seen = Seen::of(proposer, numbers, step.arc, lower, step.along);
        if all.push(seen).is_err() {
            return Err(Memory);
        }
    }
    if walk.from != walk.to {
        let from = arcs.len().saturating_add(walk.from);
        let to = arcs.len().saturating_add(walk.to);
        let first = Seen::of(proposer, numbers, from, 0, true);
        let last = Seen::of(proposer, numbers, to, 0, false);
        if all.push(first).is_err() || all.push(last).is_err() {
            return Err(Memory);
        }
    }
    Ok(all)
}

/// Counts each step that is nearer to its least time than to its greatest.
fn nearest(alloc: Global, all: &[Seen]) -> Result<(Vec<bool>, Count), Memory> {
    let mut counted = Vec::new(alloc);
    let mut count = Count {
        time: 0,
        over: 0,
        base: 0,
    };
    for seen in all {
        let is_counted = seen.over() <= seen.under();
        count.time = count.time.saturating_add(seen.time);
        if is_counted {
            count.over = count.over.saturating_add(seen.over());
            count.base = count.base.saturating_add(seen.low);
        } else {
            count.base = count.base.saturating_add(seen.high);
        }
        if counted.push(is_counted).is_err() {
            return Err(Memory);
        }
    }
    Ok((counted, count))
}

/// The step whose flip raises the violation most, with the sums after it; none if no flip raises it. Without
/// these flips, 200 wide events took 1.3 to 1.7 times as long (docs/HISTORY.md, "What the search could do
/// without").
fn best_turn(all: &[Seen], counted: &[bool], count: Count, period: i64) -> Option<(usize, Count)> {
    let mut best = None;
    let mut most = count.missing(period);
    for index in 0..all.len() {
        let turned = match counted.get(index) {
            Some(is_counted) => count.turned(all[index], *is_counted),
            None => count,
        };
        let missing = turned.missing(period);
        if most < missing {
            most = missing;
            best = Some((index, turned));
        }
    }
    best
}

/// The flip of a walk with the greatest violation found, and that violation; none if there is none.
pub(crate) fn separate(
    alloc: Global,
    arcs: &[Arc],
    period: Period,
    numbers: &[Range],
    proposer: &Proposer,
    walk: &Walk,
) -> Result<Option<(i64, Flip)>, Memory> {
    let period = i64::from(period.get());
    let all = seen_of(alloc, arcs, numbers, proposer, walk)?;
    let (mut counted, mut count) = nearest(alloc, &all)?;
    for _turn in 0..all.len() {
        let Some((index, turned)) = best_turn(&all, &counted, count, period) else {
            break;
        };
        if let Some(is_counted) = counted.get_mut(index) {
            *is_counted = !*is_counted;
        }
        count = turned;
    }
    let missing = count.missing(period);
    if missing < LEAST_MISSING {
        return Ok(None);
    }
    let flip = Flip {
        walk: walk.copy()?,
        counted,
        rest: count.rest(period),
    };
    Ok(Some((missing, flip)))
}
