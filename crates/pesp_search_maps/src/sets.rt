//! Disjoint sets of nodes.

use crate::numbers::{append, number_at, put, refill};
use pesp_base::Memory;
use std::alloc::Global;

/// Disjoint sets of nodes (union by size).
#[derive(Drop)]
pub(crate) struct Sets {
    // For each node another one of its set, nearer to the representative, which has itself.
    parents: Vec<usize>,
    // The size of each set, at its representative.
    sizes: Vec<usize>,
}

impl Sets {
    /// Puts each node into a set of its own.
    pub(crate) fn new(alloc: Global, nodes: usize) -> Result<Sets, Memory> {
        let mut sets = Sets {
            parents: Vec::new(alloc),
            sizes: Vec::new(alloc),
        };
        sets.part(nodes)?;
        Ok(sets)
    }

    /// Restarts with a set for each of `nodes` nodes.
    pub(crate) fn part(&mut self, nodes: usize) -> Result<(), Memory> {
        refill(&mut self.sizes, nodes, 1)?;
        self.parents.clear();
        for node in 0..nodes {
            append(&mut self.parents, node)?;
        }
        Ok(())
    }

    /// The representative of a node's set.
    fn root(&self, node: usize) -> usize {
        let mut root = node;
        for _step in 0..self.parents.len() {
            let parent = number_at(&self.parents, root, root);
            if parent == root {
                return root;
            }
            root = parent;
        }
        root
    }

    /// Joins two sets, and returns whether they were different.
    pub(crate) fn join(&mut self, one: usize, other: usize) -> bool {
        let (one, other) = (self.root(one), self.root(other));
        if one == other {
            return false;
        }
        let (mine, others) = (
            number_at(&self.sizes, one, 0),
            number_at(&self.sizes, other, 0),
        );
        let (kept, gone) = if mine >= others {
            (one, other)
        } else {
            (other, one)
        };
        put(&mut self.parents, gone, kept);
        put(&mut self.sizes, kept, mine.saturating_add(others));
        true
    }
}
