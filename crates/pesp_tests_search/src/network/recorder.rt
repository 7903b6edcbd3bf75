//! A method that records the networks that it is called for.

use pesp_base::Memory;
use pesp_search_cycles::ByCycles;
use pesp_search_least::{Budget, Limits, Outcome};
use pesp_search_network::{Method, Network};
use std::alloc::Global;

/// The search by cycles, which records the arcs of each network.
#[derive(Drop)]
pub(crate) struct Recorder {
    // Does the searches.
    pub(crate) cycles: ByCycles,
    // For each network, in order, the ends of its arcs.
    pub(crate) searched: Vec<Vec<(usize, usize)>>,
}

impl Recorder {
    fn note(&mut self, alloc: Global, network: &Network) -> Result<(), Memory> {
        let mut ends = Vec::new(alloc);
        for arc in network.arcs() {
            if ends.push((arc.from, arc.to)).is_err() {
                return Err(Memory);
            }
        }
        match self.searched.push(ends) {
            Ok(()) => Ok(()),
            Err(_) => Err(Memory),
        }
    }
}

impl Method for Recorder {
    fn least(
        &mut self,
        alloc: Global,
        network: &Network,
        limits: Limits,
        budget: &mut Budget,
    ) -> Result<Outcome, Memory> {
        self.note(alloc, network)?;
        self.cycles.least(alloc, network, limits, budget)
    }
}
