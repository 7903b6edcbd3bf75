//! A set of maps that can be searched for a least sum below a residue.

use crate::{Budget, Outcome};
use pesp_base::Memory;
use std::alloc::Global;

/// A set of maps from events to residues, each with a sum. It can be searched for a map of least sum with a
/// residue below a given one.
pub trait Region: Drop {
    ghost use Rattle.std.specs.Prelude.{◌≡◌, ℕ, ◌+◌, ◌<◌, ◌^◌, IfOk, slice_index};
    ghost use Rattle.pesp_search_least.specs.Order.{BelowResidue, IsHeld};
    ghost use Rattle.pesp_search_least.specs.Spending.{OnlySpends};
    ghost use Rattle.pesp_search_least.specs.Sums.{AreLong, IsLowerBound, IsOutcome, StopsWhereSpent, Sums};

    /// The sum of each map that has one.
    ghost sums: { Self → Sums };

    /// The number of residues of each map.
    ghost events: { Self → ℕ };

    fn events(&self) -> usize
        ensures events { result ≡ events self.now }
        ensures maps { AreLong (sums self.now) result };

    /// A map with sum `cost`, the least of all sums, and a residue below `residue` at the event, or the answer
    /// that there is none.
    fn least_below(
        &self,
        alloc: Global,
        event: usize,
        residue: u16,
        cost: u64,
        budget: &mut Budget,
    ) -> Result<Outcome, Memory>
        requires event { event < events self.now }
        requires floor { IsLowerBound (sums self.now) cost }
        requires room { cost + 1 < 2 ^ 64 }
        ensures outcome { IfOk result (IsOutcome (BelowResidue (sums self.now) event residue)
            (cost + 1)) }
        ensures spent { IfOk result (StopsWhereSpent budget.new.left) }
        ensures budget { OnlySpends budget.old.left budget.new.left };

    /// Keeps only maps with this residue at the event. All others lose their sums.
    fn hold(&mut self, event: usize, residue: u16)
        requires { event < events self.old }
        ensures held { IsHeld event residue (sums self.old) (sums self.new) }
        ensures events { events self.new ≡ events self.old };
}
