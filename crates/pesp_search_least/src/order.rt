//! The first map of least sum. Events are settled in ascending order, each at the least residue that some map
//! of least sum has there.

ghost use Rattle.std.specs.Prelude.{◌≡◌, ◌+◌, ◌<◌, ◌≤◌, ◌^◌, ℕ, true, false, Some, IfOk};
ghost use Rattle.pesp_search_least.specs.Order.{EndsUnlessSpent, IsFirstAt, IsFirstOutcome, IsSettled, IsSettledWithin};
ghost use Rattle.pesp_search_least.specs.Spending.{OnlySpends};
ghost use Rattle.pesp_search_least.specs.Sums.{AreLong, IsLeast};

use crate::{Budget, Candidate, First, Outcome, Region};
use pesp_base::Memory;
use std::alloc::Global;

/// Turns a map of least sum into one with the least residue at the event among all maps of that sum. The flag
/// is false if the budget ran out first.
fn first_at<R: Region>(
    alloc: Global,
    rest: &R,
    event: usize,
    candidate: Candidate,
    budget: &mut Budget,
) -> Result<(Candidate, bool), Memory>
    requires least { IsLeast (R.sums rest.now) candidate }
    requires event { event < R.events rest.now }
    requires long { AreLong (R.sums rest.now) (R.events rest.now) }
    requires room { candidate.cost + 1 < 2 ^ 64 }
    ensures least { IfOk result (λ r. IsLeast (R.sums rest.now) r.0) }
    ensures costs { IfOk result (λ r. r.0.cost ≡ candidate.cost) }
    ensures first { IfOk result (λ r. r.1 ≡ true → IsFirstAt (R.sums rest.now) event r.0) }
    ensures spent { IfOk result (λ r. r.1 ≡ false → budget.new.left ≡ Some 0) }
    ensures budget { OnlySpends budget.old.left budget.new.left }
{
    let mut best = candidate;
    'lesser: while 0 < best.map[event] {
        match rest.least_below(alloc, event, best.map[event], best.cost, budget)? {
            Outcome::Found(found) => best = found,
            Outcome::NoneBelow => return Ok((best, true)),
            Outcome::Spent { .. } => return Ok((best, false)),
        }
    }
    Ok((best, true))
}

/// The first map of least sum, given one that no other precedes at the first `settled` events.
///
/// Of two maps, the one with the smaller residue at the first event where they differ comes first. A search
/// that stops returns what a later call needs to resume it.
pub fn first<R: Region>(
    alloc: Global,
    region: R,
    candidate: Candidate,
    settled: usize,
    budget: &mut Budget,
) -> Result<First, Memory>
    requires least { IsLeast (R.sums region) candidate }
    requires room { candidate.cost + 1 < 2 ^ 64 }
    requires events { settled ≤ R.events region }
    requires settled { IsSettled (R.sums region) settled candidate }
    ensures first { IfOk result (IsFirstOutcome (R.sums region) candidate.cost) }
    ensures events { IfOk result (IsSettledWithin settled (R.events region)) }
    ensures spent { IfOk result (EndsUnlessSpent budget.new.left) }
    ensures budget { OnlySpends budget.old.left budget.new.left }
{
    // The maps that agree with the best one at all events before this one.
    let mut rest = region;
    let events = rest.events();
    'held: for event in 0..settled {
        rest.hold(event, candidate.map[event]);
    }
    let mut best = candidate;
    'events: for event in settled..events {
        let (found, is_first) = first_at(alloc, &rest, event, best, budget)?;
        if !is_first {
            return Ok(First::Spent {
                best: found,
                settled: event,
            });
        }
        rest.hold(event, found.map[event]);
        best = found;
    }
    Ok(First::Done(best))
}
