//! The adjacency of nodes.
//!
//! Nothing is proved of it except that it is safe: the cuts found with it are checked.

use pesp_base::Memory;
use std::alloc::Global;

/// The neighbours of each node.
#[derive(Drop)]
pub(crate) struct Graph {
    // For each node its neighbours; adjacency is symmetric.
    lists: Vec<Vec<usize>>,
}

impl Graph {
    /// A graph of unconnected nodes.
    pub(crate) fn new(alloc: Global, nodes: usize) -> Result<Graph, Memory> {
        let mut lists = Vec::new(alloc);
        for _node in 0..nodes {
            if lists.push(Vec::new(alloc)).is_err() {
                return Err(Memory);
            }
        }
        Ok(Graph { lists })
    }

    pub(crate) fn nodes(&self) -> usize {
        self.lists.len()
    }

    pub(crate) fn neighbours(&self, node: usize) -> &[usize] {
        match self.lists.get(node) {
            Some(list) => list,
            None => &[],
        }
    }

    fn put(&mut self, node: usize, neighbour: usize) -> Result<(), Memory> {
        if let Some(list) = self.lists.get_mut(node) {
            if list.push(neighbour).is_err() {
                return Err(Memory);
            }
        }
        Ok(())
    }

    /// Joins two nodes, unless they are joined.
    pub(crate) fn join(&mut self, one: usize, other: usize) -> Result<(), Memory> {
        if self.neighbours(other).contains(&one) {
            return Ok(());
        }
        self.put(one, other)?;
        self.put(other, one)
    }
}
