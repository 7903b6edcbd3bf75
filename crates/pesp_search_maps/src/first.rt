//! An initial map, from the arcs alone.

use crate::ends::{End, Ends};
use crate::forest::Forest;
use crate::residue::{residue_after, residue_of};
use pesp_base::{Memory, Period};
use pesp_search_graph::Arc;
use std::alloc::Global;

/// The rank of an arc for the forest; the least comes first.
#[derive(Clone, Copy, PartialEq, Eq, PartialOrd, Ord)]
struct Rank {
    // The greatest slack of the arc.
    width: u16,
    // `u32::MAX` less the weight, so that heavy arcs come first.
    lightness: u32,
    // The index of the arc, which breaks ties.
    index: usize,
}

/// The arcs by rank.
fn order_of(alloc: Global, period: Period, arcs: &[Arc]) -> Result<Vec<usize>, Memory> {
    let mut ranks = Vec::new(alloc);
    for (index, arc) in arcs.iter().enumerate() {
        let rank = Rank {
            width: arc.width(period),
            lightness: u32::MAX - arc.weight.get(),
            index,
        };
        if ranks.push(rank).is_err() {
            return Err(Memory);
        }
    }
    ranks.sort_unstable();
    let mut order = Vec::new(alloc);
    for rank in &ranks {
        if order.push(rank.index).is_err() {
            return Err(Memory);
        }
    }
    Ok(order)
}

/// The difference of the node's residue to the other node's, with the arc at its lower bound.
fn distance(arcs: &[Arc], end: End) -> i64 {
    match arcs.get(end.arc) {
        Some(arc) if end.is_head => i64::from(arc.span.lower()),
        Some(arc) => 0 - i64::from(arc.span.lower()),
        None => 0,
    }
}

/// A map in which the arcs of a forest are at their lower bounds: narrow arcs first, and of two alike the
/// heavier one.
///
/// The origin, and the first node of each part without it, has residue 0.
pub fn first_map(
    alloc: Global,
    period: Period,
    nodes: usize,
    arcs: &[Arc],
    origin: Option<usize>,
) -> Result<Vec<u16>, Memory> {
    let order = order_of(alloc, period, arcs)?;
    let ends = Ends::new(alloc, nodes, arcs)?;
    let forest = Forest::new(alloc, &ends, arcs, &order, origin)?;
    let Ok(mut map) = vec![in alloc; 0; nodes] else {
        return Err(Memory);
    };
    for place in forest.places() {
        if let Some(end) = place.by {
            let from = residue_of(period, &map, end.other);
            if let Some(old) = map.get_mut(place.node) {
                *old = residue_after(period, from, distance(arcs, end));
            }
        }
    }
    Ok(map)
}
