//! Shortest-path trees.

use crate::graph::Graph;
use crate::growth::repeat;
use crate::queue::Queue;
use pesp_base::Memory;
use std::alloc::Global;

/// The length of the path to an unreached node.
const FAR: u64 = u64::MAX;

/// The last arc of a path without arcs.
const NONE: u32 = u32::MAX;

/// Shortest paths from one node: each is the path to the node before it and one more arc.
#[derive(Drop)]
pub(crate) struct Ways {
    // For each node the length of its path, or `FAR`.
    lengths: Vec<u64>,
    // For each node the last arc of its path; `NONE` for a start and for an unreached node.
    last: Vec<u32>,
}

impl Ways {
    /// No node is reached.
    pub(crate) fn none(alloc: Global, nodes: usize) -> Result<Ways, Memory> {
        Ok(Ways {
            lengths: repeat(alloc, FAR, nodes)?,
            last: repeat(alloc, NONE, nodes)?,
        })
    }

    /// The length of the path to a node.
    pub(crate) fn length(&self, node: usize) -> u64 {
        self.lengths.get(node).copied().unwrap_or(FAR)
    }

    pub(crate) fn is_reached(&self, node: usize) -> bool {
        self.length(node) < FAR
    }

    /// The last arc of the path to a node.
    pub(crate) fn last(&self, node: usize) -> Option<usize> {
        match self.last.get(node) {
            Some(arc) if *arc < NONE => Some(*arc as usize),
            _ => None,
        }
    }

    fn set(&mut self, node: usize, length: u64, last: u32) {
        if let Some(place) = self.lengths.get_mut(node) {
            *place = length;
        }
        if let Some(place) = self.last.get_mut(node) {
            *place = last;
        }
    }

    /// Finds shortest paths from a node until a wanted one is reached, and returns that one, the nearest.
    pub(crate) fn reach(
        &mut self,
        alloc: Global,
        graph: &Graph,
        start: usize,
        wanted: &[bool],
    ) -> Result<Option<usize>, Memory> {
        let mut queue = Queue::new(alloc);
        self.set(start, 0, NONE);
        queue.add(0, start)?;
        for _taken in 0..graph.size() {
            let Some((length, node)) = queue.take() else {
                return Ok(None);
            };
            // Otherwise a shorter path to the node was found earlier.
            if length == self.length(node) {
                if wanted.get(node).copied().unwrap_or(false) {
                    return Ok(Some(node));
                }
                self.go_on(graph, node, &mut queue)?;
            }
        }
        Ok(None)
    }

    /// Extends the path to a node by each arc there.
    fn go_on(&mut self, graph: &Graph, node: usize, queue: &mut Queue) -> Result<(), Memory> {
        let length = self.length(node);
        for arc in graph.arcs_at(node) {
            if let Some(link) = graph.link(*arc) {
                let other = link.other(node);
                let longer = length.saturating_add(link.length);
                if longer < self.length(other) {
                    self.set(other, longer, u32::try_from(*arc).unwrap_or(NONE));
                    queue.add(longer, other)?;
                }
            }
        }
        Ok(())
    }
}
