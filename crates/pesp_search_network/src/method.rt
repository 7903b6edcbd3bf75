//! Methods that search an undivided network.

use crate::Network;
use pesp_base::Memory;
use pesp_search_least::{Budget, Limits, Outcome};
use std::alloc::Global;

/// A search for maps of least cost of a network that is not divided further. It may keep its state when it
/// stops, and resume if it is called for the same network again.
pub trait Method {
    ghost use Rattle.std.specs.Prelude.{◌≡◌, ◌≢◌, ◌<◌, Some, IfOk, OnOk};
    ghost use Rattle.pesp_search_least.specs.Spending.{OnlySpends, SpendsUnit};
    ghost use Rattle.pesp_search_least.specs.Sums.{IsLowerBound, IsOutcome, IsStop, StopsWhereSpent};
    ghost use Rattle.pesp_search_network.specs.Arcs.{IsCosted};

    /// A map of least cost, if some cost is below the cap.
    ///
    /// No cost is below the floor. The search ends with a map of least cost, unless the budget runs out first.
    fn least(
        &mut self,
        alloc: Global,
        network: &Network,
        limits: Limits,
        budget: &mut Budget,
    ) -> Result<Outcome, Memory>
        requires floor { IsLowerBound (IsCosted network.now) limits.floor }
        ensures outcome { IfOk result (IsOutcome (IsCosted network.now) limits.cap) }
        ensures spent { IfOk result (StopsWhereSpent budget.new.left) }
        ensures budget { OnlySpends budget.old.left budget.new.left }
        // Without a unit nothing is known.
        ensures stops { limits.floor < limits.cap → budget.old.left ≡ Some 0 → IfOk result IsStop }
        ensures spends { limits.floor < limits.cap → budget.old.left ≢ Some 0
            → OnOk result (SpendsUnit budget.old.left budget.new.left) };
}
