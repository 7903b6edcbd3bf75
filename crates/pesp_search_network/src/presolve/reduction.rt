//! Reductions of a network.

ghost use Rattle.std.specs.Prelude.{◌≡◌, ◌↔◌, ℕ, ◌+◌, ◌*◌, ◌-◌, ◌^◌, ◌<◌, IfOk, min};
ghost use Rattle.pesp_search_least.specs.Sums.{IsCandidate};
ghost use Rattle.pesp_search_network.specs.Arcs.{IsCosted};
ghost use Rattle.pesp_search_network.specs.Reduced.{IsReduction};
ghost use Rattle.pesp_search_network.specs.Shifts.{lifted};

use crate::Network;
use crate::presolve::shift::{Shift, lifted_map};
use pesp_base::Memory;
use pesp_search_least::Candidate;
use std::alloc::Global;

/// A network that is searched instead of another, the original.
#[derive(Drop)]
pub struct Reduction {
    /// The network to search.
    pub network: Network,
    /// For each original event, the event that represents it.
    pub shifts: Vec<Shift>,
    /// The original cost of a map, less `factor` times its cost here.
    pub fixed: u64,
    /// The original cost of a unit of cost here.
    pub factor: u64,
}

impl Reduction {
    /// The cap here for a cap on original costs.
    pub fn cap(&self, cap: u64) -> u64
        requires { 0 < self.now.factor }
        ensures { (part : ℕ) → (part < result) ↔ (self.now.fixed + self.now.factor * part < cap) }
    {
        cap.saturating_sub(self.fixed).div_ceil(self.factor)
    }

    /// The lower bound on original costs from a lower bound here.
    pub fn lower_bound(&self, bound: u64) -> u64
        ensures { result ≡ min (self.now.fixed + self.now.factor * bound) (2 ^ 64 - 1) }
    {
        self.factor.saturating_mul(bound).saturating_add(self.fixed)
    }
}

impl Network {
    /// The original map from a map of the reduced network.
    pub fn lift(
        &self,
        alloc: Global,
        reduction: &Reduction,
        candidate: &Candidate,
    ) -> Result<Candidate, Memory>
        requires reduction { IsReduction self.now reduction.now }
        requires candidate { IsCandidate (IsCosted reduction.now.network) candidate.now }
        ensures costed { IfOk result (IsCandidate (IsCosted self.now)) }
        ensures map { IfOk result (λ of_map. of_map.map.items
            ≡ lifted reduction.now.network.period reduction.now.shifts.items candidate.now.map.items) }
        ensures cost { IfOk result (λ of_map. of_map.cost
            ≡ reduction.now.fixed + reduction.now.factor * candidate.now.cost) }
    {
        let period = reduction.network.period();
        let map = lifted_map(alloc, period, &reduction.shifts, &candidate.map)?;
        match self.cost(&map) {
            Some(cost) => Ok(Candidate { cost, map }),
            None => unreachable!(),
        }
    }
}
