//! Maps near the tableau's solution.

use super::Proposer;
use crate::Range;
use crate::graph::Graph;
use pesp_base::{Memory, Period};
use pesp_search_graph::Arc;
use pesp_search_maps::{map_of, polish};
use pesp_search_network::Network;
use pesp_search_simplex::PARTS;
use std::alloc::Global;

/// From this depth on a map is made only at some nodes, because it takes as long as a few pivots
/// (docs/DECISIONS.md, "A search by cycles"). No trial of this depth is recorded.
const DEEP: usize = 8;

/// One node of this number gets a map there. Without this rule a 9 by 9 grid took 1.8 s instead of 1.1
/// (docs/HISTORY.md, "What the search could do without").
const NODES_OF_MAP: usize = 4;

/// The most numbers visited to polish a map. Polishing is not charged to the budget, so it needs a limit of its
/// own. No trial of this number is recorded.
const POLISHING: u64 = 4_194_304;

impl Proposer {
    /// The slack of an arc. An idle arc is in no walk, so its slack in the tableau means nothing: half a unit
    /// ranks it after all others.
    fn slack(&self, index: usize, arc: &Arc, period: Period) -> i64 {
        if arc.weight.get() == 0 && arc.width(period) == period.get() - 1 {
            PARTS / 2
        } else {
            self.tableau.value(index)
        }
    }

    /// The slacks of the graph's arcs.
    fn slacks(&self, alloc: Global, network: &Network, graph: &Graph) -> Result<Vec<i64>, Memory> {
        let own = network.arcs().len();
        let mut slacks = Vec::new(alloc);
        for (index, arc) in graph.arcs().iter().enumerate() {
            let slack = if index < own {
                self.slack(index, arc, network.period())
            } else {
                let residue = self.tableau.value(own.saturating_add(arc.to));
                residue.saturating_sub(i64::from(arc.span.lower()).saturating_mul(PARTS))
            };
            if slacks.push(slack).is_err() {
                return Err(Memory);
            }
        }
        Ok(slacks)
    }

    /// Whether a map of this node is worth its work. If all rounds are whole, it costs what the tableau says.
    pub(crate) fn has_map(&self, period: Period) -> bool {
        self.depth < DEEP || self.depth % NODES_OF_MAP == 0 || self.is_whole(period)
    }

    /// A map near the tableau's slacks, polished or not.
    pub(crate) fn map(
        &self,
        alloc: Global,
        network: &Network,
        residues: &[Range],
        is_polished: bool,
    ) -> Result<Vec<u16>, Memory> {
        let graph = Graph::of(alloc, network, residues)?;
        let slacks = self.slacks(alloc, network, &graph)?;
        let origin = Some(network.events());
        let period = network.period();
        let mut map = map_of(alloc, period, graph.nodes(), graph.arcs(), &slacks, origin)?;
        if is_polished {
            let mut work = POLISHING;
            polish(alloc, period, graph.arcs(), &mut map, origin, &mut work)?;
        }
        map.truncate(network.events());
        Ok(map)
    }
}
