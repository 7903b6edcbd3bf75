//! The arcs at each node.

use pesp_base::Memory;
use pesp_search_graph::Arc;
use std::alloc::Global;

/// An arc as seen from one of its nodes.
#[derive(Clone, Copy)]
pub(crate) struct End {
    // The index of the arc.
    pub(crate) arc: usize,
    // The node at the other end.
    pub(crate) other: usize,
    // Whether the arc leads to this node, not from it.
    pub(crate) is_head: bool,
}

/// The ends of arcs at each node.
#[derive(Drop)]
pub(crate) struct Ends {
    // For each node its ends. Each arc is in the lists of both its nodes, a loop in none.
    lists: Vec<Vec<End>>,
}

impl Ends {
    pub(crate) fn new(alloc: Global, nodes: usize, arcs: &[Arc]) -> Result<Ends, Memory> {
        let mut ends = Ends {
            lists: Vec::new(alloc),
        };
        for _node in 0..nodes {
            if ends.lists.push(Vec::new(alloc)).is_err() {
                return Err(Memory);
            }
        }
        for (index, arc) in arcs.iter().enumerate() {
            if arc.from != arc.to {
                ends.join(index, arc)?;
            }
        }
        Ok(ends)
    }

    fn join(&mut self, index: usize, arc: &Arc) -> Result<(), Memory> {
        let tail = End {
            arc: index,
            other: arc.to,
            is_head: false,
        };
        let head = End {
            arc: index,
            other: arc.from,
            is_head: true,
        };
        self.put(arc.from, tail)?;
        self.put(arc.to, head)
    }

    fn put(&mut self, node: usize, end: End) -> Result<(), Memory> {
        if let Some(list) = self.lists.get_mut(node) {
            if list.push(end).is_err() {
                return Err(Memory);
            }
        }
        Ok(())
    }

    pub(crate) fn nodes(&self) -> usize {
        self.lists.len()
    }

    /// The ends at a node.
    pub(crate) fn ends_at(&self, node: usize) -> &[End] {
        match self.lists.get(node) {
            Some(list) => list,
            None => &[],
        }
    }
}
