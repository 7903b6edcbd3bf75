//! Graphs.

use crate::growth::repeat;
use crate::link::Link;
use pesp_base::Memory;
use std::alloc::Global;

/// An adjacency list of the arcs that paths may use.
#[derive(Drop)]
pub(crate) struct Graph {
    // For each arc its link; none if no path may use the arc.
    links: Vec<Option<Link>>,
    // The arcs at each node, node by node, in ascending order at each.
    ends: Vec<usize>,
    // For each node the end of its arcs in `ends`. They start where those of the node before end.
    stops: Vec<usize>,
}

/// The number of arcs at each node.
fn degrees_of(alloc: Global, nodes: usize, links: &[Option<Link>]) -> Result<Vec<usize>, Memory> {
    let mut degrees = repeat(alloc, 0usize, nodes)?;
    for link in links {
        if let Some(link) = link {
            for node in [link.from, link.to] {
                if let Some(degree) = degrees.get_mut(node) {
                    *degree = degree.saturating_add(1);
                }
            }
        }
    }
    Ok(degrees)
}

/// Replaces each number by the sum of all before it, and returns the total.
fn sum_before(numbers: &mut [usize]) -> usize {
    let mut sum = 0usize;
    for number in numbers.iter_mut() {
        let before = sum;
        sum = sum.saturating_add(*number);
        *number = before;
    }
    sum
}

/// Writes an arc at the next free place of a node.
fn put(ends: &mut [usize], places: &mut [usize], node: usize, arc: usize) {
    if let Some(place) = places.get_mut(node) {
        if let Some(end) = ends.get_mut(*place) {
            *end = arc;
        }
        *place = place.saturating_add(1);
    }
}

impl Graph {
    /// The graph of all arcs that have links.
    pub(crate) fn new(
        alloc: Global,
        nodes: usize,
        links: Vec<Option<Link>>,
    ) -> Result<Graph, Memory> {
        let mut stops = degrees_of(alloc, nodes, &links)?;
        let count = sum_before(&mut stops);
        let mut ends = repeat(alloc, 0usize, count)?;
        for (arc, link) in links.iter().enumerate() {
            if let Some(link) = link {
                put(&mut ends, &mut stops, link.from, arc);
                put(&mut ends, &mut stops, link.to, arc);
            }
        }
        Ok(Graph { links, ends, stops })
    }

    pub(crate) fn nodes(&self) -> usize {
        self.stops.len()
    }

    pub(crate) fn arcs(&self) -> usize {
        self.links.len()
    }

    /// The number of ends of arcs, and one.
    pub(crate) fn size(&self) -> usize {
        self.ends.len().saturating_add(1)
    }

    /// The link of an arc.
    pub(crate) fn link(&self, arc: usize) -> Option<Link> {
        self.links.get(arc).copied().unwrap_or(None)
    }

    /// The arcs at a node.
    pub(crate) fn arcs_at(&self, node: usize) -> &[usize] {
        let from = match node.checked_sub(1) {
            Some(before) => self.stops.get(before).copied().unwrap_or(0),
            None => 0,
        };
        let to = self.stops.get(node).copied().unwrap_or(0);
        if from <= to && to <= self.ends.len() {
            &self.ends[from..to]
        } else {
            &[]
        }
    }
}
