//! The arcs as seen from each node.

use crate::charge::Charge;
use pesp_base::{Memory, Period};
use pesp_search_graph::Arc;
use std::alloc::Global;

/// An arc as seen from one of its nodes.
///
/// Its rise is its slack if it leads to the node, and else the width less the slack, modulo the period. So the
/// rise grows by one if the node gets one later, at either end.
#[derive(Clone, Copy)]
pub(crate) struct Link {
    // The node at the other end.
    pub(crate) other: usize,
    // The rise if both nodes have residue 0.
    offset: u16,
    // The greatest slack of the arc, and so the greatest rise at which it is met.
    pub(crate) width: u16,
    // The cost of a unit of slack.
    weight: i64,
    // Whether the arc leads to this node.
    pub(crate) is_head: bool,
}

/// The number modulo the period, for numbers below twice the period.
fn reduce(period: u16, number: u16) -> u16 {
    number.min(number.wrapping_sub(period))
}

impl Link {
    /// The arc as seen from its end, or from its start.
    pub(crate) fn new(period: Period, arc: &Arc, is_head: bool) -> Link {
        let length = i64::from(period.get());
        let head = Link {
            other: arc.from,
            offset: (0 - i64::from(arc.span.lower())).rem_euclid(length) as u16,
            width: arc.width(period),
            weight: i64::from(arc.weight.get()),
            is_head: true,
        };
        if is_head {
            head
        } else {
            head.reverse(period.get(), arc.to)
        }
    }

    /// The rise at the residues of the node and of the other one.
    pub(crate) fn rise(&self, period: u16, own: u16, other: u16) -> u16 {
        let ahead = reduce(period, own.wrapping_add(period).wrapping_sub(other));
        reduce(period, ahead.wrapping_add(self.offset))
    }

    /// The same arc as seen from its other node.
    pub(crate) fn reverse(&self, period: u16, node: usize) -> Link {
        let offset = self.width.wrapping_add(period).wrapping_sub(self.offset);
        Link {
            other: node,
            offset: reduce(period, offset),
            width: self.width,
            weight: self.weight,
            is_head: !self.is_head,
        }
    }

    /// The change of the cost for each unit of rise.
    pub(crate) fn rate(&self) -> i64 {
        if self.is_head {
            self.weight
        } else {
            0i64.wrapping_sub(self.weight)
        }
    }

    /// The charge of the arc.
    pub(crate) fn charge(&self, period: u16, rise: u16) -> Charge {
        let slack = if self.is_head {
            rise
        } else {
            reduce(period, self.width.wrapping_add(period).wrapping_sub(rise))
        };
        let over = slack.saturating_sub(self.width);
        Charge {
            excess: i64::from(over.min(period.saturating_sub(slack))),
            cost: self.weight.wrapping_mul(i64::from(slack)),
        }
    }

    /// Whether the slack is 0 or the width.
    pub(crate) fn is_at_end(&self, rise: u16) -> bool {
        rise == 0 || rise == self.width
    }
}

/// Whether an arc matters: it joins two different known nodes, and is not idle (full width and no weight).
fn counts(period: Period, nodes: usize, arc: &Arc) -> bool {
    let is_open = arc.width(period) == period.get() - 1 && arc.weight.get() == 0;
    arc.from != arc.to && arc.from < nodes && arc.to < nodes && !is_open
}

/// The links of all nodes.
#[derive(Drop)]
pub(crate) struct Links {
    // For each node the index of its first link, and one entry more for the end.
    starts: Vec<usize>,
    // The links of all nodes, node by node.
    links: Vec<Link>,
}

fn add_to(numbers: &mut [usize], index: usize, by: usize) {
    if let Some(number) = numbers.get_mut(index) {
        *number = number.saturating_add(by);
    }
}

/// For each node the number of links of all nodes before it, and last the number of all links.
fn starts_of(
    alloc: Global,
    period: Period,
    nodes: usize,
    arcs: &[Arc],
) -> Result<Vec<usize>, Memory> {
    let Ok(mut starts) = vec![in alloc; 0; nodes] else {
        return Err(Memory);
    };
    for arc in arcs {
        if counts(period, nodes, arc) {
            add_to(&mut starts, arc.from, 1);
            add_to(&mut starts, arc.to, 1);
        }
    }
    let mut sum: usize = 0;
    for start in &mut starts {
        let count = *start;
        *start = sum;
        sum = sum.saturating_add(count);
    }
    if starts.push(sum).is_err() {
        return Err(Memory);
    }
    Ok(starts)
}

impl Links {
    pub(crate) fn new(
        alloc: Global,
        period: Period,
        nodes: usize,
        arcs: &[Arc],
    ) -> Result<Links, Memory> {
        let starts = starts_of(alloc, period, nodes, arcs)?;
        let count = match starts.get(nodes) {
            Some(count) => *count,
            None => 0,
        };
        let none = Link {
            other: 0,
            offset: 0,
            width: 0,
            weight: 0,
            is_head: true,
        };
        let (Ok(links), Ok(mut ends)) = (
            vec![in alloc; none; count],
            Vec::from_slice(alloc, &starts),
        ) else {
            return Err(Memory);
        };
        let mut links = Links { starts, links };
        for arc in arcs {
            if counts(period, nodes, arc) {
                links.put(&mut ends, arc.to, Link::new(period, arc, true));
                links.put(&mut ends, arc.from, Link::new(period, arc, false));
            }
        }
        Ok(links)
    }

    /// Writes a link after those that its node already has.
    fn put(&mut self, ends: &mut [usize], node: usize, link: Link) {
        if let Some(end) = ends.get_mut(node) {
            if let Some(old) = self.links.get_mut(*end) {
                *old = link;
            }
            *end = end.saturating_add(1);
        }
    }

    /// The links of a node.
    pub(crate) fn links_at(&self, node: usize) -> &[Link] {
        let Some(start) = self.starts.get(node) else {
            return &[];
        };
        let Some(end) = self.starts.get(node.saturating_add(1)) else {
            return &[];
        };
        let end = (*end).min(self.links.len());
        &self.links[(*start).min(end)..end]
    }
}
