//! The arcs across a cut, if they are few.

use crate::charge::Charge;
use crate::links::Link;
use crate::numbers::append;
use pesp_base::Memory;
use std::alloc::Global;

/// An arc across the cut, as seen from its node on the side that is turned.
#[derive(Clone, Copy)]
struct Crossing {
    // The arc, from the node on the turned side.
    link: Link,
    // The rise of the arc before the turn, below the period.
    rise: u16,
}

/// The number modulo the period, for numbers below twice the period.
fn reduce(period: u16, number: u16) -> u16 {
    number.min(number.wrapping_sub(period))
}

/// The arcs across a cut.
#[derive(Drop)]
pub(crate) struct Crossings {
    // The period of the map.
    period: u16,
    // The arcs added since the last `clear`.
    list: Vec<Crossing>,
}

impl Crossings {
    pub(crate) fn new(alloc: Global, period: u16) -> Crossings {
        Crossings {
            period,
            list: Vec::new(alloc),
        }
    }

    pub(crate) fn len(&self) -> usize {
        self.list.len()
    }

    pub(crate) fn clear(&mut self) {
        self.list.clear();
    }

    pub(crate) fn add(&mut self, link: &Link, rise: u16) -> Result<(), Memory> {
        append(&mut self.list, Crossing { link: *link, rise })
    }

    /// The charge of these arcs after a turn.
    pub(crate) fn charge(&self, turn: u16) -> Charge {
        let mut charge = Charge::NONE;
        for crossing in &self.list {
            let rise = reduce(self.period, crossing.rise.wrapping_add(turn));
            charge.add(crossing.link.charge(self.period, rise));
        }
        charge
    }

    /// The turn with the least charge, and its change of the charge; 0 if no turn improves it.
    ///
    /// Only turns that bring an arc to an end of its span are tried: one of them is always the best.
    pub(crate) fn best(&self) -> (u16, Charge) {
        let none = self.charge(0);
        let (mut best, mut best_turn) = (none, 0);
        for crossing in &self.list {
            let to_first = reduce(self.period, self.period.wrapping_sub(crossing.rise));
            let to_last = reduce(self.period, to_first.wrapping_add(crossing.link.width));
            for turn in [to_first, to_last] {
                let charge = self.charge(turn);
                if charge < best {
                    best = charge;
                    best_turn = turn;
                }
            }
        }
        (best_turn, best.difference(none))
    }
}
