//! Stopped searches for the first map of least cost, and how many events they have settled.

ghost use Rattle.std.specs.Prelude.{◌≡◌, ℕ, ◌+◌, ◌<◌, ◌≤◌, ◌^◌, List, Some, IfOk, IfSome, IsNone, length};
ghost use Rattle.pesp_search_least.specs.Order.{EndsUnlessSpent, IsFirstOutcome, IsSettled};
ghost use Rattle.pesp_search_least.specs.Spending.{OnlySpends};
ghost use Rattle.pesp_search_least.specs.Sums.{IsLeast};
ghost use Rattle.pesp_search_network.specs.Arcs.{IsCosted, IsMet};
ghost use Rattle.pesp_search_cycles.specs.Ranges.{AreIn};
ghost use Rattle.pesp_search_cycles.specs.Settlings.{AreLeaves, IsKnown, IsSettling, IsTold, IsUnclosed, IsUnsettled};
ghost use Rattle.pesp_search_cycles.specs.Maps.{Net};

use crate::held::Held;
use crate::leaves::Leaves;
use crate::open::{Open, leaves_at_once, leaves_of};
use crate::parts::Parts;
use crate::residues::residue_ranges;
use crate::spent::spent_of;
use crate::starts::{Site, starts_of};
use crate::{Cycles, Range};
use pesp_base::Memory;
use pesp_search_least::{Budget, Candidate, First, first};
use std::alloc::Global;

/// The boxes that contain the maps of least cost, as far as known.
#[derive(Drop)]
pub(crate) enum Known {
    /// Nothing is known.
    Nothing,
    /// Leaves that are still to be searched.
    Open(Leaves),
    /// Leaves that are complete.
    Closed(Leaves),
}

/// A search for the first map of least cost.
#[derive(Drop)]
pub(crate) struct Settling {
    // If leaves are known, they contain all maps of least cost.
    known: Known,
    // A map of least cost; none precedes it at the settled events.
    pub(crate) best: Candidate,
    // The number of leading events that are settled.
    settled: usize,
    // The units of the last step if it settled no event, and else 0.
    in_vain: u64,
}

/// The budget of a step: the rest, and at least twice the units of a last step without progress. With equal
/// steps of 20 units, a wide region was not settled after 91,100 of them (docs/HISTORY.md, "Searches that
/// restarted").
fn allowance(budget: &Budget, in_vain: u64) -> Budget
    ensures { OnlySpends result.left budget.now.left }
{
    match budget.left {
        Some(left) => Budget::of(left.max(in_vain.saturating_mul(2))),
        None => Budget::unlimited(),
    }
}

/// Boxes that contain each map with these residues that costs as much as the candidate, if none costs less; and
/// whether all parts were searched for them. Parts are searched separately, because otherwise each repeats its
/// nodes for each node of another (docs/HISTORY.md, "The first timetable, in leaves of a second search").
fn leaves_by_parts<'a>(
    alloc: Global,
    cycles: &'a Cycles<'a>,
    residues: &'a [Range],
    best: &'a Candidate,
    budget: &mut Budget,
) -> Result<(Leaves, bool), Memory>
    requires long { length residues.now ≡ cycles.now.network.events }
    requires room { best.now.cost + 1 < 2 ^ 64 }
    requires all { (map : List ℕ) → IsMet cycles.now.network map → AreIn residues.now map }
    ensures leaves { IfOk result (λ r. AreLeaves cycles.now best.now.cost r.0) }
    ensures budget { OnlySpends budget.old.left budget.new.left }
{
    let parts = Parts::of(alloc, cycles, residues)?;
    if 1 < parts.count() {
        if let Some(leaves) = leaves_at_once(alloc, cycles, residues, best.cost, budget)? {
            return Ok((leaves, true));
        }
    }
    let site = Site {
        cycles,
        residues,
        map: &best.map,
    };
    let starts = starts_of(alloc, &site, &parts, best.cost, budget)?;
    let are_all = !budget.is_spent();
    let stack = Open::at(alloc, &starts, residues)?;
    let leaves = leaves_of(alloc, stack, residues, best.cost, budget)?;
    Ok((leaves, are_all))
}

/// The same from leaves to resume.
fn leaves_again<'a>(
    alloc: Global,
    cycles: &'a Cycles<'a>,
    leaves: Leaves,
    cost: u64,
    budget: &mut Budget,
) -> Result<Leaves, Memory>
    requires leaves { AreLeaves cycles.now cost leaves }
    requires room { cost + 1 < 2 ^ 64 }
    ensures leaves { IfOk result (AreLeaves cycles.now cost) }
    ensures budget { OnlySpends budget.old.left budget.new.left }
{
    let residues = residue_ranges(alloc, cycles.network())?;
    let stack = Open::again(alloc, cycles, leaves)?;
    leaves_of(alloc, stack, &residues, cost, budget)
}

impl Known {
    /// These leaves, to be resumed if the budget is empty.
    fn of(leaves: Leaves, budget: &Budget) -> Known
        ensures known { (N : Net) (cost : ℕ) → AreLeaves N cost leaves → IsKnown N cost result }
        ensures unclosed { IsUnclosed result → budget.now.left ≡ Some 0 }
    {
        if budget.is_spent() {
            Known::Open(leaves)
        } else {
            Known::Closed(leaves)
        }
    }

    /// Completes the leaves as far as the budget lasts.
    fn advance<'a>(
        self,
        alloc: Global,
        cycles: &'a Cycles<'a>,
        best: &'a Candidate,
        budget: &mut Budget,
    ) -> Result<Known, Memory>
        requires known { IsKnown cycles.now best.now.cost self }
        requires room { best.now.cost + 1 < 2 ^ 64 }
        ensures known { IfOk result (IsKnown cycles.now best.now.cost) }
        ensures spent { IfOk result (λ known. IsUnclosed known → budget.new.left ≡ Some 0) }
        ensures budget { OnlySpends budget.old.left budget.new.left }
    {
        match self {
            Known::Closed(leaves) => return Ok(Known::Closed(leaves)),
            Known::Open(leaves) => {
                let leaves = leaves_again(alloc, cycles, leaves, best.cost, budget)?;
                return Ok(Known::of(leaves, budget));
            }
            Known::Nothing => {}
        }
        let residues = residue_ranges(alloc, cycles.network())?;
        let (leaves, are_all) = leaves_by_parts(alloc, cycles, &residues, best, budget)?;
        if !are_all && budget.is_spent() {
            return Ok(Known::Nothing);
        }
        Ok(Known::of(leaves, budget))
    }
}

impl Settling {
    /// A search from a map of least cost, with no event settled.
    pub(crate) fn new(best: Candidate) -> Settling
        ensures settling { (N : Net) → IsLeast (IsCosted N.network) best → best.cost + 1 < 2 ^ 64
            → IsSettling N result }
        ensures best { result.best ≡ best }
    {
        Settling {
            known: Known::Nothing,
            best,
            settled: 0,
            in_vain: 0,
        }
    }

    /// The result of a stop, and the state to resume.
    fn stopped(self) -> Result<(First, Option<Settling>), Memory>
        ensures first { IfOk result (λ r. IsTold self r.0) }
        ensures settling { IfOk result (λ r. r.1 ≡ Some self) }
    {
        let told = First::Spent {
            best: self.best.copy()?,
            settled: self.settled,
        };
        Ok((told, Some(self)))
    }

    /// The same state after a step of these units, which had no progress if no more events are settled than
    /// before.
    fn after(self, units: u64, settled_before: usize) -> Settling
        ensures settling { (N : Net) → IsSettling N self → IsSettling N result }
        ensures best { result.best ≡ self.best }
    {
        let in_vain = if settled_before < self.settled {
            0
        } else {
            units
        };
        Settling { in_vain, ..self }
    }

    /// Continues as long as the budget lasts. Returns the result, and the state to resume if the search stops.
    /// After a step without progress the next one is longer, so steps of any size reach the end.
    pub(crate) fn advance<'a>(
        self,
        alloc: Global,
        cycles: &'a Cycles<'a>,
        budget: &mut Budget,
    ) -> Result<(First, Option<Settling>), Memory>
        requires { IsSettling cycles.now self }
        ensures first { IfOk result (λ r. IsFirstOutcome (IsCosted cycles.now.network) self.best.cost r.0) }
        ensures settling { IfOk result (λ r. IfSome r.1 (IsSettling cycles.now)) }
        ensures cost { IfOk result (λ r. IfSome r.1 (λ settling. settling.best.cost ≡ self.best.cost)) }
        ensures ends { IfOk result (λ r. IsNone r.1 → IsUnsettled r.0 → ⊥) }
        ensures spent { IfOk result (λ r. EndsUnlessSpent budget.new.left r.0) }
        ensures budget { OnlySpends budget.old.left budget.new.left }
    {
        let before = self.settled;
        let mut own = allowance(budget, self.in_vain);
        let given = own.left;
        let (told, rest) = self.go_on(alloc, cycles, &mut own)?;
        let units = spent_of(given, own.left);
        budget.spend(units);
        match rest {
            Some(settling) => Ok((told, Some(settling.after(units, before)))),
            None => Ok((told, None)),
        }
    }

    /// The same with exactly this budget.
    fn go_on<'a>(
        self,
        alloc: Global,
        cycles: &'a Cycles<'a>,
        budget: &mut Budget,
    ) -> Result<(First, Option<Settling>), Memory>
        requires { IsSettling cycles.now self }
        ensures first { IfOk result (λ r. IsFirstOutcome (IsCosted cycles.now.network) self.best.cost r.0) }
        ensures settling { IfOk result (λ r. IfSome r.1 (IsSettling cycles.now)) }
        ensures cost { IfOk result (λ r. IfSome r.1 (λ settling. settling.best.cost ≡ self.best.cost)) }
        ensures ends { IfOk result (λ r. IsNone r.1 → IsUnsettled r.0 → ⊥) }
        ensures spent { IfOk result (λ r. EndsUnlessSpent budget.new.left r.0) }
        ensures budget { OnlySpends budget.old.left budget.new.left }
    {
        let Settling {
            known,
            best,
            settled,
            in_vain,
        } = self;
        let leaves = match known.advance(alloc, cycles, &best, budget)? {
            Known::Closed(leaves) => leaves,
            known => {
                let settling = Settling {
                    known,
                    best,
                    settled,
                    in_vain,
                };
                return settling.stopped();
            }
        };
        let known = Known::Closed(leaves.copy(alloc)?);
        let residues = residue_ranges(alloc, cycles.network())?;
        let region = Held::new(alloc, cycles, residues, leaves)?;
        match first(alloc, region, best, settled, budget)? {
            First::Done(best) => Ok((First::Done(best), None)),
            First::Spent { best, settled } => {
                let settling = Settling {
                    known,
                    best,
                    settled,
                    in_vain,
                };
                settling.stopped()
            }
        }
    }
}
