//! Costs of maps.

ghost use Rattle.std.specs.Prelude.{◌≡◌, ℕ, ◌<◌, ◌≤◌, IfSome, IsTrue, MatchBool, MatchOption, slice_index};
ghost use Rattle.pesp_search_network.specs.Arcs.{IsBetween, IsCosted, KeepsRows, cost_met, has};

use crate::{Arc, Network};
use pesp_base::{Period, allows, slack};

/// The weight times the slack of an arc between these residues of its ends, if they meet it.
pub(crate) fn cost_between(period: Period, arc: &Arc, from: u16, to: u16) -> Option<u64>
    requires from { from < period }
    requires to { to < period }
    ensures value { result ≡ cost_met period arc.now from to }
    ensures small { IfSome result (λ cost. cost ≤ 1439000000000) }
{
    if allows(period, arc.span, from, to) {
        let slack = slack(period, arc.span, from, to);
        Some(u64::from(arc.weight.get()) * u64::from(slack))
    } else {
        None
    }
}

impl Network {
    /// Whether the event's domain contains the residue.
    pub(crate) fn may_have(&self, event: usize, residue: u16) -> bool
        requires { event < self.now.events }
        ensures { MatchBool result
            ((residue < self.now.period) × IsTrue (has self.now event residue))
            ((residue < self.now.period) × IsTrue (has self.now event residue) → ⊥) }
    {
        match self.row(event).get(usize::from(residue)) {
            Some(held) => *held,
            None => false,
        }
    }

    /// Whether the map gives each event a residue of its domain.
    fn keeps_rows(&self, map: &[u16]) -> bool
        ensures { MatchBool result (KeepsRows self.now map.now) (KeepsRows self.now map.now → ⊥) }
    {
        if map.len() != self.events() {
            return false;
        }
        for event in 0..map.len() {
            if !self.may_have(event, map[event]) {
                return false;
            }
        }
        true
    }

    /// The weight times the slack of an arc at a map, if the map meets it.
    fn arc_cost(&self, arc: Arc, map: &[u16]) -> Option<u64>
        requires between { IsBetween self.now.events arc }
        requires keeps_rows { KeepsRows self.now map.now }
        ensures value { result ≡ cost_met self.now.period arc (slice_index map.now arc.from)
            (slice_index map.now arc.to) }
        ensures small { IfSome result (λ cost. cost ≤ 1439000000000) }
    {
        cost_between(self.period(), &arc, map[arc.from], map[arc.to])
    }

    /// The cost of a map within the domains, if it meets each arc.
    fn cost_in_rows(&self, map: &[u16]) -> Option<u64>
        requires { KeepsRows self.now map.now }
        ensures { MatchOption result ((cost : ℕ) → IsCosted self.now map.now cost → ⊥)
            (IsCosted self.now map.now) }
    {
        let mut cost = 0;
        for index in 0..self.arc_count() {
            cost += self.arc_cost(self.arc(index), map)?;
        }
        Some(cost)
    }

    /// The cost of a map; none if it leaves a domain or violates an arc.
    pub fn cost(&self, map: &[u16]) -> Option<u64>
        ensures { MatchOption result ((cost : ℕ) → IsCosted self.now map.now cost → ⊥)
            (IsCosted self.now map.now) }
    {
        if !self.keeps_rows(map) {
            return None;
        }
        self.cost_in_rows(map)
    }
}
