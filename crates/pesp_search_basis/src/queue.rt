//! Priority queues of nodes.

use pesp_base::Memory;
use std::alloc::Global;
use std::cmp::Reverse;
use std::collections::BinaryHeap;

/// The open nodes of a shortest-path search.
#[derive(Drop)]
pub(crate) struct Queue {
    // Each node with the length of a path to it; a node may occur several times.
    nodes: BinaryHeap<Reverse<(u64, usize)>>,
}

impl Queue {
    pub(crate) fn new(alloc: Global) -> Queue {
        Queue {
            nodes: BinaryHeap::new(alloc),
        }
    }

    pub(crate) fn add(&mut self, length: u64, node: usize) -> Result<(), Memory> {
        match self.nodes.push(Reverse((length, node))) {
            Ok(()) => Ok(()),
            Err(_) => Err(Memory),
        }
    }

    /// Removes the nearest node, and returns it with the length of its path.
    pub(crate) fn take(&mut self) -> Option<(u64, usize)> {
        let Reverse(nearest) = self.nodes.pop()?;
        Some(nearest)
    }
}
