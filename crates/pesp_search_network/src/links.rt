//! The dependencies between events of a network.
//!
//! Nothing is proved of them except that they are safe to compute: the cuts found with them are checked.

ghost use Rattle.std.specs.Prelude.{◌<◌};
ghost use Rattle.pesp_search_network.specs.Arcs.{IsBetween};

use crate::graph::Graph;
use crate::{Arc, Network};
use pesp_base::Memory;
use std::alloc::Global;

/// Two nodes that an arc joins.
#[derive(Clone, Copy)]
struct Link {
    // An event, or the origin.
    one: usize,
    // An event with more than one residue.
    other: usize,
}

/// Whether a domain contains every residue.
fn is_full(row: &[bool]) -> bool {
    row.iter().all(|held| *held)
}

impl Network {
    /// The nodes that an arc joins: its ends, or the origin and one end if the other end has a single residue.
    fn link_of(&self, arc: &Arc) -> Option<Link>
        requires { IsBetween self.now.events arc.now }
    {
        let origin = self.events();
        let is_tail_fixed = self.only(arc.from).is_some();
        let is_head_fixed = self.only(arc.to).is_some();
        if arc.from == arc.to || (is_tail_fixed && is_head_fixed) {
            return None;
        }
        let (one, other) = if is_tail_fixed {
            (origin, arc.to)
        } else if is_head_fixed {
            (origin, arc.from)
        } else {
            (arc.from.min(arc.to), arc.from.max(arc.to))
        };
        Some(Link { one, other })
    }

    /// The events and the origin, which is joined to all events whose domains are not full.
    fn rooted_graph(&self, alloc: Global) -> Result<Graph, Memory> {
        let origin = self.events();
        let mut graph = Graph::new(alloc, origin + 1)?;
        for event in 0..origin {
            if !is_full(self.row(event)) && self.only(event).is_none() {
                graph.join(origin, event)?;
            }
        }
        Ok(graph)
    }

    /// A graph of the events and the origin, in which arcs join events with more than one residue. The origin
    /// is joined to the events whose domains are not full, and to those with an arc to an event with a single
    /// residue.
    pub(crate) fn links(&self, alloc: Global) -> Result<Graph, Memory> {
        let mut graph = self.rooted_graph(alloc)?;
        for index in 0..self.arc_count() {
            if let Some(link) = self.link_of(&self.arc(index)) {
                graph.join(link.one, link.other)?;
            }
        }
        Ok(graph)
    }
}
