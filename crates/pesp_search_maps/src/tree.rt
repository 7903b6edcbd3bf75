//! A walk through a spanning tree of a neighbourhood.

use crate::neighbourhood::Neighbourhood;
use crate::numbers::{NONE, append, number_at, put, refill};
use crate::spanning::Spanning;
use pesp_base::Memory;
use std::alloc::Global;

/// The nodes of a neighbourhood in the order of a depth-first walk. All nodes outside are one, where the walk
/// starts.
///
/// The subtree of a stop is a run of stops that starts with it. Of the subtrees right below a stop the greatest
/// comes last, so few subtrees wait for another when stops are visited in descending order.
#[derive(Drop)]
pub(crate) struct Tree {
    // The places of the neighbourhood, each after the one above it.
    order: Vec<usize>,
    // For each place the one above it; `NONE` where a walk starts.
    parents: Vec<usize>,
    // For each place the size of its subtree; 0 if it was not visited.
    sizes: Vec<usize>,
    // For each place the greatest subtree right below it; `NONE` for a leaf.
    greatest: Vec<usize>,
    // For each place its stop.
    stops: Vec<usize>,
    // For each place the stop of its next child.
    frees: Vec<usize>,
    // For each stop its node; `NONE` for all nodes outside.
    nodes: Vec<usize>,
    // For each stop the one above it; `NONE` where a walk starts.
    aboves: Vec<usize>,
    // For each stop the size of its subtree.
    lengths: Vec<usize>,
}

impl Tree {
    pub(crate) fn new(alloc: Global) -> Tree {
        Tree {
            order: Vec::new(alloc),
            parents: Vec::new(alloc),
            sizes: Vec::new(alloc),
            greatest: Vec::new(alloc),
            stops: Vec::new(alloc),
            frees: Vec::new(alloc),
            nodes: Vec::new(alloc),
            aboves: Vec::new(alloc),
            lengths: Vec::new(alloc),
        }
    }

    pub(crate) fn len(&self) -> usize {
        self.nodes.len()
    }

    /// The node at a stop; `NONE` for all nodes outside.
    pub(crate) fn node(&self, stop: usize) -> usize {
        number_at(&self.nodes, stop, NONE)
    }

    /// The stop of a place of the neighbourhood.
    pub(crate) fn stop(&self, place: usize) -> usize {
        number_at(&self.stops, place, 0)
    }

    /// The stop above; `NONE` where a walk starts.
    pub(crate) fn parent(&self, stop: usize) -> usize {
        number_at(&self.aboves, stop, NONE)
    }

    /// The number of stops of the subtree.
    pub(crate) fn size(&self, stop: usize) -> usize {
        number_at(&self.lengths, stop, 0)
    }

    /// The nodes of the subtree.
    pub(crate) fn nodes_from(&self, stop: usize) -> &[usize] {
        let end = stop.saturating_add(self.size(stop)).min(self.nodes.len());
        &self.nodes[stop.min(end)..end]
    }

    /// Walks through the branches.
    pub(crate) fn walk(&mut self, spanning: &Spanning, hood: &Neighbourhood) -> Result<(), Memory> {
        let count = hood.members().len().saturating_add(1);
        refill(&mut self.parents, count, NONE)?;
        refill(&mut self.sizes, count, 0)?;
        refill(&mut self.greatest, count, NONE)?;
        self.order.clear();
        for place in 0..count {
            let seen = self.order.len();
            self.see(place, NONE)?;
            self.spread(spanning, seen)?;
        }
        self.find_sizes();
        self.give_stops(count)?;
        self.list_stops(hood)
    }

    /// Appends a place to the order, unless it was visited.
    fn see(&mut self, place: usize, parent: usize) -> Result<(), Memory> {
        if number_at(&self.sizes, place, 1) == 0 {
            put(&mut self.sizes, place, 1);
            put(&mut self.parents, place, parent);
            append(&mut self.order, place)?;
        }
        Ok(())
    }

    /// Visits all places that the branches reach from this index of the order on.
    fn spread(&mut self, spanning: &Spanning, first: usize) -> Result<(), Memory> {
        for index in first..self.sizes.len() {
            let Some(place) = self.order.get(index) else {
                return Ok(());
            };
            let place = *place;
            self.see_branches(spanning, place)?;
        }
        Ok(())
    }

    fn see_branches(&mut self, spanning: &Spanning, place: usize) -> Result<(), Memory> {
        let mut index = spanning.first(place);
        for _branch in 0..self.sizes.len() {
            let Some((to, next)) = spanning.branch(index) else {
                return Ok(());
            };
            self.see(to, place)?;
            index = next;
        }
        Ok(())
    }

    /// Adds the sizes upwards, from the last place of the order.
    fn find_sizes(&mut self) {
        for place in self.order.iter().rev() {
            let size = number_at(&self.sizes, *place, 0);
            let parent = number_at(&self.parents, *place, NONE);
            let sum = number_at(&self.sizes, parent, 0).saturating_add(size);
            put(&mut self.sizes, parent, sum);
            let greatest = number_at(&self.greatest, parent, NONE);
            if size > number_at(&self.sizes, greatest, 0) {
                put(&mut self.greatest, parent, *place);
            }
        }
    }

    /// Gives each place its stop, so that the greatest subtree below another one comes last.
    fn give_stops(&mut self, count: usize) -> Result<(), Memory> {
        refill(&mut self.stops, count, 0)?;
        refill(&mut self.frees, count, 0)?;
        let mut seen: usize = 0;
        for place in &self.order {
            let size = number_at(&self.sizes, *place, 0);
            let parent = number_at(&self.parents, *place, NONE);
            let stop = if parent == NONE {
                seen = seen.saturating_add(size);
                seen.saturating_sub(size)
            } else if number_at(&self.greatest, parent, NONE) == *place {
                number_at(&self.stops, parent, 0)
                    .saturating_add(number_at(&self.sizes, parent, 0))
                    .saturating_sub(size)
            } else {
                let free = number_at(&self.frees, parent, 0);
                put(&mut self.frees, parent, free.saturating_add(size));
                free
            };
            put(&mut self.stops, *place, stop);
            put(&mut self.frees, *place, stop.saturating_add(1));
        }
        Ok(())
    }

    /// Lists what is known of the places, by stop.
    fn list_stops(&mut self, hood: &Neighbourhood) -> Result<(), Memory> {
        let count = self.order.len();
        refill(&mut self.nodes, count, NONE)?;
        refill(&mut self.aboves, count, NONE)?;
        refill(&mut self.lengths, count, 0)?;
        for place in &self.order {
            let stop = number_at(&self.stops, *place, 0);
            let parent = number_at(&self.parents, *place, NONE);
            put(&mut self.nodes, stop, hood.member(*place));
            put(&mut self.aboves, stop, number_at(&self.stops, parent, NONE));
            put(&mut self.lengths, stop, number_at(&self.sizes, *place, 0));
        }
        Ok(())
    }
}
