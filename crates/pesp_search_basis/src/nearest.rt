//! Shortest paths to the nearest of some nodes.

use crate::graph::Graph;
use crate::link::{Idle, links_of};
use crate::steps::turn_round;
use crate::ways::Ways;
use pesp_base::{Memory, Period};
use pesp_search_graph::{Arc, Step};
use std::alloc::Global;

/// A path of least width from a node to the nearest wanted one; none if none is reachable.
///
/// Idle arcs are used only if there is no other path. The first step starts at the node, and each other step
/// where the one before it ends. A wanted node has an empty path.
pub fn way(
    alloc: Global,
    period: Period,
    nodes: usize,
    arcs: &[Arc],
    from: usize,
    wanted: &[bool],
) -> Result<Option<Vec<Step>>, Memory> {
    let links = links_of(alloc, period, nodes, arcs, Idle::Last)?;
    let graph = Graph::new(alloc, nodes, links)?;
    let mut ways = Ways::none(alloc, nodes)?;
    let Some(nearest) = ways.reach(alloc, &graph, from, wanted)? else {
        return Ok(None);
    };
    let mut steps = Vec::new(alloc);
    ways.add_back(&graph, nearest, from, &mut steps)?;
    turn_round(steps.as_mut_slice());
    Ok(Some(steps))
}
