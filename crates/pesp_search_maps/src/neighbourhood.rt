//! Sets of nodes that are moved while all others stay.

use crate::chance::Chance;
use crate::links::Links;
use crate::numbers::{NONE, append, number_at, put};
use pesp_base::Memory;
use std::alloc::Global;

/// The number of links tried for each node of a cluster: fewer often leave a cluster too small, more take time.
/// No trial of this number is recorded.
const TRIES: usize = 6;

/// A set of nodes, in the order in which they were added.
#[derive(Drop)]
pub(crate) struct Neighbourhood {
    // The nodes, each once, and never `fixed`.
    members: Vec<usize>,
    // For each node of the network its index among the members plus 1; 0 for all others.
    places: Vec<usize>,
    // The node that is never a member.
    fixed: usize,
}

impl Neighbourhood {
    pub(crate) fn new(alloc: Global, nodes: usize, fixed: usize) -> Result<Self, Memory> {
        let Ok(places) = vec![in alloc; 0; nodes] else {
            return Err(Memory);
        };
        Ok(Neighbourhood {
            members: Vec::new(alloc),
            places,
            fixed,
        })
    }

    pub(crate) fn members(&self) -> &[usize] {
        &self.members
    }

    /// The member at a place, counted from 1; `NONE` at place 0.
    pub(crate) fn member(&self, place: usize) -> usize {
        number_at(&self.members, place.wrapping_sub(1), NONE)
    }

    /// The place of a node, counted from 1; 0 if it is no member.
    pub(crate) fn place(&self, node: usize) -> usize {
        number_at(&self.places, node, 0)
    }

    fn clear(&mut self) {
        for member in &self.members {
            put(&mut self.places, *member, 0);
        }
        self.members.clear();
    }

    /// Adds a node unless it is a member or `fixed`.
    fn add(&mut self, node: usize) -> Result<(), Memory> {
        if node == self.fixed || number_at(&self.places, node, 1) != 0 {
            return Ok(());
        }
        append(&mut self.members, node)?;
        put(&mut self.places, node, self.members.len());
        Ok(())
    }

    /// Makes all nodes but `fixed` members.
    pub(crate) fn take_all(&mut self) -> Result<(), Memory> {
        self.clear();
        for node in 0..self.places.len() {
            self.add(node)?;
        }
        Ok(())
    }

    fn add_neighbours(&mut self, links: &Links, node: usize) -> Result<(), Memory> {
        for link in links.links_at(node) {
            self.add(link.other)?;
        }
        Ok(())
    }

    /// Makes the nodes nearest to the given ones members: `size` of them, or a few more.
    pub(crate) fn take_around(
        &mut self,
        links: &Links,
        nodes: &[usize],
        size: usize,
    ) -> Result<(), Memory> {
        self.clear();
        for node in nodes {
            self.add(*node)?;
        }
        for index in 0..size {
            if self.members.len() >= size {
                return Ok(());
            }
            let Some(node) = self.members.get(index) else {
                return Ok(());
            };
            let node = *node;
            self.add_neighbours(links, node)?;
        }
        Ok(())
    }

    /// Makes a random connected set of another neighbourhood's members the members, at most `size`.
    pub(crate) fn take_cluster(
        &mut self,
        links: &Links,
        hood: &Neighbourhood,
        chance: &mut Chance,
        begin: (usize, usize),
    ) -> Result<(), Memory> {
        let (first, size) = begin;
        self.clear();
        self.add(first)?;
        for _try in 0..size.saturating_mul(TRIES) {
            if self.members.len() >= size {
                return Ok(());
            }
            let from = number_at(
                &self.members,
                chance.number_below(self.members.len()),
                first,
            );
            let links = links.links_at(from);
            if let Some(link) = links.get(chance.number_below(links.len())) {
                if hood.place(link.other) != 0 {
                    self.add(link.other)?;
                }
            }
        }
        Ok(())
    }
}
