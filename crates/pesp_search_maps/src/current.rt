//! The current map of a local search.

use crate::charge::Charge;
use crate::links::{Link, Links};
use crate::residue::residue_of;
use pesp_base::{Memory, Period};
use pesp_search_graph::Arc;
use std::alloc::Global;

/// A map with the arcs at each of its nodes.
#[derive(Drop)]
pub(crate) struct Current {
    // The period of the map.
    pub(crate) period: Period,
    // The arcs at each node, for as many nodes as there are residues.
    pub(crate) links: Links,
    // The residue of each node, below the period.
    pub(crate) residues: Vec<u16>,
}

impl Current {
    pub(crate) fn new(
        alloc: Global,
        period: Period,
        arcs: &[Arc],
        residues: Vec<u16>,
    ) -> Result<Current, Memory> {
        Ok(Current {
            period,
            links: Links::new(alloc, period, residues.len(), arcs)?,
            residues,
        })
    }

    pub(crate) fn residue(&self, node: usize) -> u16 {
        match self.residues.get(node) {
            Some(residue) => *residue,
            None => 0,
        }
    }

    pub(crate) fn set(&mut self, node: usize, residue: u16) {
        if let Some(old) = self.residues.get_mut(node) {
            *old = residue;
        }
    }

    /// The rise of a link of a node.
    pub(crate) fn rise(&self, node: usize, link: &Link) -> u16 {
        link.rise(
            self.period.get(),
            self.residue(node),
            self.residue(link.other),
        )
    }

    /// Turns the nodes: each gets later by this number, which is below the period.
    pub(crate) fn turn(&mut self, nodes: &[usize], by: u16) {
        let period = self.period.get();
        for node in nodes {
            if let Some(residue) = self.residues.get_mut(*node) {
                let later = (*residue).wrapping_add(by);
                *residue = later.min(later.wrapping_sub(period));
            }
        }
    }

    /// The charge of the arcs that end at a node.
    fn charge_at(&self, node: usize) -> Charge {
        let mut charge = Charge::NONE;
        for link in self.links.links_at(node) {
            if link.is_head {
                charge.add(link.charge(self.period.get(), self.rise(node, link)));
            }
        }
        charge
    }

    pub(crate) fn charge(&self) -> Charge {
        let mut charge = Charge::NONE;
        for node in 0..self.residues.len() {
            charge.add(self.charge_at(node));
        }
        charge
    }
}
