//! Links: arcs as edges of a weighted graph.

use crate::growth::add;
use pesp_base::{Memory, Period};
use pesp_search_graph::Arc;
use std::alloc::Global;

/// The length of a unit of width; a step has length 1. So width decides, and the number of steps breaks ties.
const LENGTH_OF_WIDTH: u64 = 1000;

/// The extra length of an idle arc, more than that of all other arcs of a path together.
const LENGTH_OF_IDLE: u64 = 1 << 40;

/// The two nodes that an arc joins, and the arc's length.
#[derive(Clone, Copy)]
pub(crate) struct Link {
    // A node of the network.
    pub(crate) from: usize,
    // Another node of the network.
    pub(crate) to: usize,
    // Above 0.
    pub(crate) length: u64,
}

/// What to do with idle arcs.
#[derive(Clone, Copy)]
pub(crate) enum Idle {
    /// They get no link.
    LeftOut,
    /// They get links that are longer than all others.
    Last,
}

/// Whether an arc constrains nothing and costs nothing.
fn is_idle(arc: &Arc, period: Period) -> bool {
    arc.weight.get() == 0 && u64::from(arc.width(period)) + 1 == u64::from(period.get())
}

impl Link {
    /// The link of an arc; none for a loop, and for an arc to a node outside the network.
    fn new(arc: &Arc, period: Period, nodes: usize) -> Option<Link> {
        if arc.from == arc.to || arc.from >= nodes || arc.to >= nodes {
            return None;
        }
        Some(Link {
            from: arc.from,
            to: arc.to,
            length: u64::from(arc.width(period)) * LENGTH_OF_WIDTH + 1,
        })
    }

    /// The link of an idle arc.
    fn if_idle(self, idle: Idle) -> Option<Link> {
        match idle {
            Idle::LeftOut => None,
            Idle::Last => Some(Link {
                from: self.from,
                to: self.to,
                length: self.length.saturating_add(LENGTH_OF_IDLE),
            }),
        }
    }

    /// The other end of the link.
    pub(crate) fn other(self, node: usize) -> usize {
        if node == self.from {
            self.to
        } else {
            self.from
        }
    }
}

/// The link of each arc.
pub(crate) fn links_of(
    alloc: Global,
    period: Period,
    nodes: usize,
    arcs: &[Arc],
    idle: Idle,
) -> Result<Vec<Option<Link>>, Memory> {
    let mut links = Vec::new(alloc);
    for arc in arcs {
        let link = match Link::new(arc, period, nodes) {
            Some(link) if is_idle(arc, period) => link.if_idle(idle),
            other => other,
        };
        add(&mut links, link)?;
    }
    Ok(links)
}
