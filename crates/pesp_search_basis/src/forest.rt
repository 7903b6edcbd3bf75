//! Forests.

use crate::graph::Graph;
use crate::growth::{add, repeat};
use crate::link::Link;
use crate::parts::Parts;
use crate::ways::Ways;
use pesp_base::Memory;
use std::alloc::Global;

/// A spanning forest of least width.
#[derive(Drop)]
pub(crate) struct Forest {
    // For each arc its link, if the arc is in the forest.
    links: Vec<Option<Link>>,
    /// The links outside the forest, short ones first. Each closes one cycle with the forest.
    pub(crate) outside: Vec<usize>,
}

/// The arcs that have links, short ones first.
fn by_length(alloc: Global, links: &[Option<Link>]) -> Result<Vec<(u64, usize)>, Memory> {
    let mut order = Vec::new(alloc);
    for (arc, link) in links.iter().enumerate() {
        if let Some(link) = link {
            add(&mut order, (link.length, arc))?;
        }
    }
    order.sort_unstable();
    Ok(order)
}

impl Forest {
    /// Kruskal's forest: of the links in ascending order, those that join two parts.
    pub(crate) fn new(
        alloc: Global,
        nodes: usize,
        links: &[Option<Link>],
    ) -> Result<Forest, Memory> {
        let mut parts = Parts::new(alloc, nodes)?;
        let mut forest = Forest {
            links: repeat(alloc, None, links.len())?,
            outside: Vec::new(alloc),
        };
        for (_, arc) in &by_length(alloc, links)? {
            if let Some(Some(link)) = links.get(*arc) {
                if !parts.join(link.from, link.to) {
                    add(&mut forest.outside, *arc)?;
                } else if let Some(place) = forest.links.get_mut(*arc) {
                    *place = Some(*link);
                }
            }
        }
        Ok(forest)
    }

    /// The paths in the forest to each node from the first node of its part, and the links outside.
    pub(crate) fn into_ways(
        self,
        alloc: Global,
        nodes: usize,
    ) -> Result<(Ways, Vec<usize>), Memory> {
        let graph = Graph::new(alloc, nodes, self.links)?;
        let mut ways = Ways::none(alloc, nodes)?;
        for node in 0..nodes {
            if !ways.is_reached(node) {
                ways.reach(alloc, &graph, node, &[])?;
            }
        }
        Ok((ways, self.outside))
    }
}
