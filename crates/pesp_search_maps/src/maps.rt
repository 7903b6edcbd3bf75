//! Maps from slacks.

use crate::ends::{End, Ends};
use crate::forest::Forest;
use crate::residue::{residue_after, residue_of};
use pesp_base::{Memory, Period};
use pesp_search_graph::Arc;
use std::alloc::Global;

/// Slacks are given in units of 1 / `UNIT`.
const UNIT: i64 = 65_536;

/// A slack within this distance of a whole number, 2^-10, counts as whole, to allow for rounding errors. No
/// trial of this number is recorded.
const NEAR: i64 = 64;

/// The greatest width that counts for the rank of an arc: slacks are mostly wrong by little, so a wide arc
/// loses no more than one of this width. No trial of this number is recorded.
const WIDE: u16 = 8;

/// The rank of an arc for the forest; the least comes first.
#[derive(Clone, Copy, PartialEq, Eq, PartialOrd, Ord)]
struct Rank {
    // Whether the arc has a choice of slacks. An arc of width 0 has none, so its slack is surely right.
    is_free: bool,
    // Whether the slack lies between two whole numbers.
    is_between: bool,
    // `u64::MAX` less the possible cost of a wrong slack, so that costly arcs come first.
    lightness: u64,
    // The index of the arc, which breaks ties.
    index: usize,
}

/// The slack of an arc, in units of 1 / `UNIT`.
fn parts_of(slacks: &[i64], index: usize) -> i64 {
    match slacks.get(index) {
        Some(slack) => (*slack).max(0),
        None => 0,
    }
}

/// The nearest whole number of units, at most the width.
fn nearest_slack(parts: i64, width: u16) -> i64 {
    (parts.saturating_add(UNIT / 2) / UNIT).min(i64::from(width))
}

fn rank_of(period: Period, arc: &Arc, index: usize, parts: i64) -> Rank {
    let width = arc.width(period);
    let off = parts % UNIT;
    let loss = u64::from(arc.weight.get()) * u64::from(width.min(WIDE));
    Rank {
        is_free: width != 0,
        is_between: off > NEAR && off < UNIT - NEAR,
        lightness: u64::MAX - loss,
        index,
    }
}

/// The arcs by rank.
fn order_of(
    alloc: Global,
    period: Period,
    arcs: &[Arc],
    slacks: &[i64],
) -> Result<Vec<usize>, Memory> {
    let mut ranks = Vec::new(alloc);
    for (index, arc) in arcs.iter().enumerate() {
        let rank = rank_of(period, arc, index, parts_of(slacks, index));
        if ranks.push(rank).is_err() {
            return Err(Memory);
        }
    }
    ranks.sort_unstable();
    let mut order = Vec::new(alloc);
    for rank in &ranks {
        if order.push(rank.index).is_err() {
            return Err(Memory);
        }
    }
    Ok(order)
}

/// The difference of the node's residue to the other node's, with the arc at its rounded slack.
fn distance(period: Period, arcs: &[Arc], slacks: &[i64], end: End) -> i64 {
    let Some(arc) = arcs.get(end.arc) else {
        return 0;
    };
    let slack = nearest_slack(parts_of(slacks, end.arc), arc.width(period));
    let tension = slack.wrapping_add(i64::from(arc.span.lower()));
    if end.is_head {
        tension
    } else {
        0i64.wrapping_sub(tension)
    }
}

/// The map that follows from these slacks, which are in units of 1 / 65,536.
///
/// It uses a spanning forest of arcs: those of width 0 first, then those with whole slacks, and of these the
/// heavy ones. Residues follow along the forest from rounded slacks. The origin, and the first node of each
/// part without it, has residue 0.
pub fn map_of(
    alloc: Global,
    period: Period,
    nodes: usize,
    arcs: &[Arc],
    slacks: &[i64],
    origin: Option<usize>,
) -> Result<Vec<u16>, Memory> {
    let order = order_of(alloc, period, arcs, slacks)?;
    let ends = Ends::new(alloc, nodes, arcs)?;
    let forest = Forest::new(alloc, &ends, arcs, &order, origin)?;
    let Ok(mut map) = vec![in alloc; 0; nodes] else {
        return Err(Memory);
    };
    for place in forest.places() {
        if let Some(end) = place.by {
            let from = residue_of(period, &map, end.other);
            let residue = residue_after(period, from, distance(period, arcs, slacks, end));
            if let Some(old) = map.get_mut(place.node) {
                *old = residue;
            }
        }
    }
    Ok(map)
}
