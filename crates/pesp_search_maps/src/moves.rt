//! A local search from any map: it turns one side of a fundamental cut while that lowers the charge.
//!
//! These are the moves of the modulo network simplex method (Nachtigall and Opitz, 2008). Violations come
//! before cost, so the search also leads from an infeasible map to a feasible one.

use crate::ends::Ends;
use crate::forest::Forest;
use crate::links::Link;
use crate::residue::{residue_after, residue_of, settle, slack_at};
use crate::turns::Turns;
use pesp_base::{Memory, Period};
use pesp_search_graph::Arc;
use std::alloc::Global;

/// What stays the same while a map is polished, and the work space of turns.
#[derive(Drop)]
struct Moves<'a> {
    // The period of the map.
    period: Period,
    // The arcs of the network.
    arcs: &'a [Arc],
    // The ends of the arcs at each node of the map.
    ends: Ends,
    // The arcs, heavy ones first, and of two alike the narrower one.
    order: Vec<usize>,
    // The charges of the turns of one side; empty between two sides.
    turns: Turns,
}

/// The rank of an arc; the least comes first.
#[derive(Clone, Copy, PartialEq, Eq, PartialOrd, Ord)]
struct Rank {
    // `u32::MAX` less the weight, so that heavy arcs come first.
    lightness: u32,
    // The greatest slack of the arc.
    width: u16,
    // The index of the arc, which breaks ties.
    index: usize,
}

/// The arcs by rank.
fn order_of(alloc: Global, period: Period, arcs: &[Arc]) -> Result<Vec<usize>, Memory> {
    let mut ranks = Vec::new(alloc);
    for (index, arc) in arcs.iter().enumerate() {
        let rank = Rank {
            lightness: u32::MAX - arc.weight.get(),
            width: arc.width(period),
            index,
        };
        if ranks.push(rank).is_err() {
            return Err(Memory);
        }
    }
    ranks.sort_unstable();
    let mut order = Vec::new(alloc);
    for rank in &ranks {
        if order.push(rank.index).is_err() {
            return Err(Memory);
        }
    }
    Ok(order)
}

fn spend(work: &mut u64, numbers: usize) {
    *work = (*work).saturating_sub(numbers as u64);
}

impl Moves<'_> {
    /// Whether the slack of an arc is 0 or its width.
    fn is_at_end(&self, map: &[u16], index: usize) -> bool {
        let Some(arc) = self.arcs.get(index) else {
            return false;
        };
        let slack = slack_at(self.period, map, arc);
        slack == 0 || slack == arc.width(self.period)
    }

    /// A spanning forest of arcs at an end of their spans first, then of heavy ones. Without that preference,
    /// 200 events with wide spans took two to three times as long (docs/HISTORY.md, "What the search could do
    /// without").
    fn forest(&self, alloc: Global, map: &[u16], origin: Option<usize>) -> Result<Forest, Memory> {
        let mut order = Vec::new(alloc);
        for is_at_end in [true, false] {
            for index in &self.order {
                if self.is_at_end(map, *index) == is_at_end && order.push(*index).is_err() {
                    return Err(Memory);
                }
            }
        }
        Forest::new(alloc, &self.ends, self.arcs, &order, origin)
    }

    /// Adds the charges of the arcs across the cut at a node of the side.
    fn cross(&mut self, forest: &Forest, map: &[u16], index: usize, node: usize) {
        let side = forest.side(index).len();
        for end in self.ends.ends_at(node) {
            let is_inside = match forest.index_of(end.other) {
                Some(other) => other >= index && other - index < side,
                None => true,
            };
            if let (false, Some(arc)) = (is_inside, self.arcs.get(end.arc)) {
                let link = Link::new(self.period, arc, end.is_head);
                let own = residue_of(self.period, map, node);
                let other = residue_of(self.period, map, end.other);
                let rise = link.rise(self.period.get(), own, other);
                self.turns.add(&link, rise, 1);
            }
        }
    }

    /// Turns a side by its best turn, and returns whether that changed it.
    fn turn_side(
        &mut self,
        forest: &Forest,
        index: usize,
        map: &mut [u16],
        work: &mut u64,
    ) -> bool {
        self.turns.clear();
        for place in forest.side(index) {
            self.cross(forest, map, index, place.node);
            spend(work, self.ends.ends_at(place.node).len().saturating_add(1));
        }
        spend(work, usize::from(self.period.get()));
        let (turn, _charge) = self.turns.best();
        if turn == 0 {
            return false;
        }
        for place in forest.side(index) {
            if let Some(residue) = map.get_mut(place.node) {
                *residue = residue_after(self.period, *residue, i64::from(turn));
            }
        }
        true
    }

    /// Tries each side of a forest once, and returns whether one was turned.
    fn pass(&mut self, forest: &Forest, map: &mut [u16], work: &mut u64) -> bool {
        let mut helped = false;
        for (index, place) in forest.places().iter().enumerate() {
            if *work == 0 {
                return false;
            }
            if place.by.is_some() && self.turn_side(forest, index, map, work) {
                helped = true;
            }
        }
        helped
    }
}

/// Turns sides of the map while that lowers its violation, or at equal violation its cost.
///
/// In the result the origin has residue 0 and each residue is below the period. The search ends if no side
/// helps, or if the work, a number of visited numbers, is spent.
pub fn polish(
    alloc: Global,
    period: Period,
    arcs: &[Arc],
    map: &mut [u16],
    origin: Option<usize>,
    work: &mut u64,
) -> Result<(), Memory> {
    settle(period, map, origin);
    let mut moves = Moves {
        period,
        arcs,
        ends: Ends::new(alloc, map.len(), arcs)?,
        order: order_of(alloc, period, arcs)?,
        turns: Turns::new(alloc, period)?,
    };
    for _pass in 0..u64::MAX {
        let forest = moves.forest(alloc, map, origin)?;
        spend(work, arcs.len().saturating_add(map.len()));
        if !moves.pass(&forest, map, work) {
            return Ok(());
        }
    }
    Ok(())
}
