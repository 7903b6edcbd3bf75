//! A local search beside a search by cycles. No proof relies on it: the cost of its maps is computed.

ghost use Rattle.pesp_search_least.specs.Spending.{OnlySpends};

use crate::graph::Graph;
use crate::residues::residue_ranges;
use pesp_base::Memory;
use pesp_search_least::{Budget, Candidate};
use pesp_search_maps::{LocalSearch, first_map};
use pesp_search_network::Network;
use std::alloc::Global;

/// The visited numbers of one unit (docs/DECISIONS.md, "Search").
const NUMBERS_OF_UNIT: u64 = 1_024;

/// It gets one unit for this number of units of the search by cycles, at each step: run only between turns, it
/// did nothing in long ones (docs/HISTORY.md, "A local search, turns by bounds, and tied events as one").
const SHARE: u64 = 4;

/// A local search for maps of one network.
#[derive(Drop)]
pub(crate) struct Local {
    // Over the network's arcs and those from the origin; none before its first unit.
    search: Option<LocalSearch>,
    // The number of units it may spend.
    units: u64,
}

/// A local search from the best known map, or else from one along narrow arcs.
fn search_from(
    alloc: Global,
    network: &Network,
    best: &Option<Candidate>,
) -> Result<LocalSearch, Memory> {
    let residues = residue_ranges(alloc, network)?;
    let graph = Graph::of(alloc, network, &residues)?;
    let (period, nodes) = (network.period(), graph.nodes());
    let origin = Some(network.events());
    if let Some(best) = best {
        return LocalSearch::new(alloc, period, nodes, graph.arcs(), origin, &best.map);
    }
    let map = first_map(alloc, period, nodes, graph.arcs(), origin)?;
    LocalSearch::new(alloc, period, nodes, graph.arcs(), origin, &map)
}

/// Whether the best map of a local search is worse than a known one.
fn is_behind(search: &LocalSearch, best: &Option<Candidate>) -> bool {
    let charge = search.charge();
    match best {
        Some(best) => 0 < charge.excess || best.cost < u64::try_from(charge.cost).unwrap_or(0),
        None => false,
    }
}

/// The same local search, or a new one from the best map if that costs less.
fn caught_up(
    alloc: Global,
    network: &Network,
    search: LocalSearch,
    best: &Option<Candidate>,
) -> Result<LocalSearch, Memory> {
    if is_behind(&search, best) {
        return search_from(alloc, network, best);
    }
    Ok(search)
}

impl Local {
    /// One without units.
    pub(crate) fn new() -> Local {
        Local {
            search: None,
            units: 0,
        }
    }

    /// Adds its share of these units.
    pub(crate) fn earn(&mut self, units: u64) {
        self.units = self.units.saturating_add(units / SHARE);
    }

    /// Adds units.
    pub(crate) fn give(&mut self, units: u64) {
        self.units = self.units.saturating_add(units);
    }

    /// Spends these units. Returns its best map, without the origin.
    fn go_on(
        &mut self,
        alloc: Global,
        network: &Network,
        best: &Option<Candidate>,
        units: u64,
    ) -> Result<Vec<u16>, Memory> {
        let mut search = match self.search.take() {
            Some(search) => caught_up(alloc, network, search, best)?,
            None => search_from(alloc, network, best)?,
        };
        let mut work = units.saturating_mul(NUMBERS_OF_UNIT);
        search.advance(alloc, &mut work)?;
        let Ok(mut map) = Vec::from_slice(alloc, search.best()) else {
            return Err(Memory);
        };
        map.truncate(network.events());
        self.search = Some(search);
        Ok(map)
    }

    /// Spends its units, as far as the budget lasts. Returns its best map, if it had a unit.
    pub(crate) fn advance(
        &mut self,
        alloc: Global,
        network: &Network,
        best: &Option<Candidate>,
        budget: &mut Budget,
    ) -> Result<Option<Vec<u16>>, Memory>
        ensures { OnlySpends budget.old.left budget.new.left }
    {
        let units = budget.part(self.units).left.unwrap_or(self.units);
        budget.spend(units);
        if units == 0 {
            return Ok(None);
        }
        self.units = self.units.saturating_sub(units);
        Ok(Some(self.go_on(alloc, network, best, units)?))
    }
}
