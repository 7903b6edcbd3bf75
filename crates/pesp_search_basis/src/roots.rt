//! Roots: nodes that together meet every cycle.

use crate::graph::Graph;
use crate::growth::{add, repeat};
use pesp_base::Memory;
use std::alloc::Global;

/// A graph from which nodes are removed.
#[derive(Drop)]
struct Rest {
    // For each node the number of its remaining arcs; none if the node was removed.
    degrees: Vec<Option<usize>>,
    // Nodes to remove, each at most twice.
    waiting: Vec<usize>,
}

impl Rest {
    /// The whole graph.
    fn new(alloc: Global, graph: &Graph) -> Result<Rest, Memory> {
        let mut degrees = Vec::new(alloc);
        for node in 0..graph.nodes() {
            add(&mut degrees, Some(graph.arcs_at(node).len()))?;
        }
        Ok(Rest {
            degrees,
            waiting: Vec::new(alloc),
        })
    }

    /// The number of a node's remaining arcs.
    fn degree(&self, node: usize) -> Option<usize> {
        self.degrees.get(node).copied().unwrap_or(None)
    }

    fn set(&mut self, node: usize, degree: Option<usize>) {
        if let Some(place) = self.degrees.get_mut(node) {
            *place = degree;
        }
    }

    /// Removes one arc at a node. The node is to be removed too if one arc remains.
    fn lessen(&mut self, node: usize) -> Result<(), Memory> {
        if let Some(degree) = self.degree(node) {
            self.set(node, Some(degree.saturating_sub(1)));
            if degree == 2 {
                add(&mut self.waiting, node)?;
            }
        }
        Ok(())
    }

    /// Removes a node, and then all nodes that are on no cycle any more.
    fn take(&mut self, graph: &Graph, node: usize) -> Result<(), Memory> {
        add(&mut self.waiting, node)?;
        for _taken in 0..graph.size() {
            let Some(node) = self.waiting.pop() else {
                return Ok(());
            };
            if self.degree(node).is_some() {
                self.set(node, None);
                for arc in graph.arcs_at(node) {
                    if let Some(link) = graph.link(*arc) {
                        self.lessen(link.other(node))?;
                    }
                }
            }
        }
        Ok(())
    }

    /// Removes all nodes that are on no cycle.
    fn take_ends(&mut self, graph: &Graph) -> Result<(), Memory> {
        for node in 0..graph.nodes() {
            if self.degree(node).is_some_and(|degree| degree < 2) {
                self.take(graph, node)?;
            }
        }
        Ok(())
    }

    /// The first node with the most remaining arcs.
    fn fullest(&self) -> Option<usize> {
        let mut fullest = None;
        let mut most = 0;
        for (node, degree) in self.degrees.iter().enumerate() {
            if let Some(degree) = degree {
                if *degree > most {
                    most = *degree;
                    fullest = Some(node);
                }
            }
        }
        fullest
    }
}

/// Nodes that together meet every cycle (a feedback vertex set), chosen greedily.
pub(crate) fn roots_of(alloc: Global, graph: &Graph) -> Result<Vec<usize>, Memory> {
    let mut rest = Rest::new(alloc, graph)?;
    rest.take_ends(graph)?;
    let mut roots = Vec::new(alloc);
    for _root in 0..graph.nodes() {
        let Some(root) = rest.fullest() else {
            return Ok(roots);
        };
        add(&mut roots, root)?;
        rest.take(graph, root)?;
    }
    Ok(roots)
}
