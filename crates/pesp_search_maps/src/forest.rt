//! A spanning forest, in the order of a depth-first walk.

use crate::ends::{End, Ends};
use crate::sets::Sets;
use pesp_base::Memory;
use pesp_search_graph::Arc;
use std::alloc::Global;

/// A node in the order of the walk.
#[derive(Clone, Copy)]
pub(crate) struct Place {
    // The node; each has one place.
    pub(crate) node: usize,
    // The end, at this node, of the arc by which the walk came; none where it started.
    pub(crate) by: Option<End>,
    // The number of places of the subtree from here: the nodes on this side of the arc.
    pub(crate) size: usize,
}

/// The nodes of a spanning forest in the order of a walk.
#[derive(Drop)]
pub(crate) struct Forest {
    // The places, one for each node.
    places: Vec<Place>,
    // For each node the index of its place.
    indices: Vec<Option<usize>>,
}

/// For each arc whether it is in the forest: those that join two parts, taken in this order.
fn choose_arcs(
    alloc: Global,
    nodes: usize,
    arcs: &[Arc],
    order: &[usize],
) -> Result<Vec<bool>, Memory> {
    let mut sets = Sets::new(alloc, nodes)?;
    let Ok(mut chosen) = vec![in alloc; false; arcs.len()] else {
        return Err(Memory);
    };
    for index in order {
        if let (Some(arc), Some(is_chosen)) = (arcs.get(*index), chosen.get_mut(*index)) {
            *is_chosen = sets.join(arc.from, arc.to);
        }
    }
    Ok(chosen)
}

impl Forest {
    /// The forest of the arcs that join two parts, taken in this order. The walk starts at the origin.
    pub(crate) fn new(
        alloc: Global,
        ends: &Ends,
        arcs: &[Arc],
        order: &[usize],
        origin: Option<usize>,
    ) -> Result<Forest, Memory> {
        let chosen = choose_arcs(alloc, ends.nodes(), arcs, order)?;
        let Ok(indices) = vec![in alloc; None; ends.nodes()] else {
            return Err(Memory);
        };
        let mut forest = Forest {
            places: Vec::new(alloc),
            indices,
        };
        let mut waiting = Vec::new(alloc);
        if let Some(origin) = origin {
            forest.walk_from(origin, ends, &chosen, &mut waiting)?;
        }
        for node in 0..ends.nodes() {
            forest.walk_from(node, ends, &chosen, &mut waiting)?;
        }
        forest.find_sizes();
        Ok(forest)
    }

    /// Walks through the tree of a node that was not visited before.
    fn walk_from(
        &mut self,
        node: usize,
        ends: &Ends,
        chosen: &[bool],
        waiting: &mut Vec<Place>,
    ) -> Result<(), Memory> {
        let root = Place {
            node,
            by: None,
            size: 1,
        };
        self.visit(root, ends, chosen, waiting)?;
        for _step in 0..usize::MAX {
            let Some(place) = waiting.pop() else {
                return Ok(());
            };
            self.visit(place, ends, chosen, waiting)?;
        }
        Ok(())
    }

    /// Adds a place, and pushes the arcs by which the walk may continue.
    fn visit(
        &mut self,
        place: Place,
        ends: &Ends,
        chosen: &[bool],
        waiting: &mut Vec<Place>,
    ) -> Result<(), Memory> {
        let Some(None) = self.indices.get(place.node) else {
            return Ok(());
        };
        let index = self.places.len();
        if self.places.push(place).is_err() {
            return Err(Memory);
        }
        if let Some(old) = self.indices.get_mut(place.node) {
            *old = Some(index);
        }
        for end in ends.ends_at(place.node) {
            if let Some(true) = chosen.get(end.arc) {
                let next = Place {
                    node: end.other,
                    by: Some(End {
                        arc: end.arc,
                        other: place.node,
                        is_head: !end.is_head,
                    }),
                    size: 1,
                };
                if waiting.push(next).is_err() {
                    return Err(Memory);
                }
            }
        }
        Ok(())
    }

    /// Adds the size of each place to that of its parent, in descending order.
    fn find_sizes(&mut self) {
        for index in (0..self.places.len()).rev() {
            let Some(place) = self.places.get(index) else {
                return;
            };
            let place = *place;
            if let Some(end) = place.by {
                self.grow(end.other, place.size);
            }
        }
    }

    fn grow(&mut self, node: usize, by: usize) {
        let Some(index) = self.index_of(node) else {
            return;
        };
        if let Some(place) = self.places.get_mut(index) {
            place.size = place.size.saturating_add(by);
        }
    }

    /// The index of a node's place.
    pub(crate) fn index_of(&self, node: usize) -> Option<usize> {
        match self.indices.get(node) {
            Some(index) => *index,
            None => None,
        }
    }

    pub(crate) fn places(&self) -> &[Place] {
        &self.places
    }

    /// The places of the subtree that starts at a place.
    pub(crate) fn side(&self, index: usize) -> &[Place] {
        let Some(place) = self.places.get(index) else {
            return &[];
        };
        let end = index.saturating_add(place.size).min(self.places.len());
        &self.places[index..end]
    }
}
