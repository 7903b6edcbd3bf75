//! The networks that are searched by cycles, and the cycles used.

ghost use Rattle.pesp_search_least.specs.Spending.{OnlySpends};

use crate::graph::{Basis, Graph, units_of};
use crate::residues::residue_ranges;
use crate::{Range, Walk};
use pesp_base::Memory;
use pesp_search_least::Budget;
use pesp_search_network::Network;
use std::alloc::Global;

/// The most cycles of a network. Above these three limits a pivot takes too long, and only a local search finds
/// timetables (docs/DECISIONS.md, "Search"). No trial of the numbers is recorded.
const MOST_CYCLES: usize = 1_000;

/// The most events.
const MOST_EVENTS: usize = 2_000;

/// The most entries of a tableau, which takes 16 MB then.
const MOST_ENTRIES: usize = 2_097_152;

/// Whether the network is small enough for a search by cycles.
pub fn is_of_use(alloc: Global, network: &Network) -> Result<bool, Memory> {
    if network.events() > MOST_EVENTS {
        return Ok(false);
    }
    let residues = residue_ranges(alloc, network)?;
    let graph = Graph::of(alloc, network, &residues)?;
    let cycles = graph.cycle_count(alloc, network.period())?;
    let numbers = network.arcs().len().saturating_add(network.events());
    Ok(cycles <= MOST_CYCLES && cycles.saturating_mul(numbers) <= MOST_ENTRIES)
}

/// The units needed to find narrow cycles; none if there are too many cycles.
pub(crate) fn units_of_narrow(
    alloc: Global,
    network: &Network,
    residues: &[Range],
) -> Result<Option<u64>, Memory> {
    let graph = Graph::of(alloc, network, residues)?;
    graph.units_of_narrow(alloc, network.period())
}

/// Narrow cycles if finding them takes less than a quarter of the budget, and else those of a spanning tree.
pub(crate) fn basis_within(
    alloc: Global,
    network: &Network,
    residues: &[Range],
    budget: &Budget,
) -> Result<Basis, Memory> {
    let narrow = units_of_narrow(alloc, network, residues)?;
    match (narrow, budget.left) {
        (None, _) => Ok(Basis::Tree),
        (Some(units), Some(left)) if left / 4 <= units => Ok(Basis::Tree),
        (Some(_), _) => Ok(Basis::Narrow),
    }
}

/// The walks of a cycle basis. The work of finding them is spent.
pub(crate) fn walks_of(
    alloc: Global,
    network: &Network,
    residues: &[Range],
    basis: Basis,
    budget: &mut Budget,
) -> Result<Vec<Walk>, Memory>
    ensures { OnlySpends budget.old.left budget.new.left }
{
    let graph = Graph::of(alloc, network, residues)?;
    let mut work = 0;
    let walks = graph.walks(alloc, network.period(), basis, &mut work)?;
    budget.spend(units_of(work));
    Ok(walks)
}
