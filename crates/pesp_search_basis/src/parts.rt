//! Disjoint sets of nodes.

use crate::growth::add;
use pesp_base::Memory;
use std::alloc::Global;

/// Disjoint sets of nodes (union-find).
#[derive(Drop)]
pub(crate) struct Parts {
    // For each node another node of its set, nearer to the representative, which has itself.
    next: Vec<usize>,
}

impl Parts {
    /// Puts each node into a set of its own.
    pub(crate) fn new(alloc: Global, nodes: usize) -> Result<Parts, Memory> {
        let mut next = Vec::new(alloc);
        for node in 0..nodes {
            add(&mut next, node)?;
        }
        Ok(Parts { next })
    }

    fn next(&self, node: usize) -> usize {
        self.next.get(node).copied().unwrap_or(node)
    }

    fn set(&mut self, node: usize, next: usize) {
        if let Some(place) = self.next.get_mut(node) {
            *place = next;
        }
    }

    /// The representative of a node's set. The call shortens the paths to it.
    fn find(&mut self, node: usize) -> usize {
        let mut node = node;
        for _step in 0..self.next.len() {
            let next = self.next(node);
            if next == node {
                return node;
            }
            let after = self.next(next);
            self.set(node, after);
            node = after;
        }
        node
    }

    /// Joins two sets, and returns whether they were different.
    pub(crate) fn join(&mut self, from: usize, to: usize) -> bool {
        let from = self.find(from);
        let to = self.find(to);
        self.set(from, to);
        from != to
    }
}
