//! The charges of all turns of one side of a cut.

use crate::charge::Charge;
use crate::links::Link;
use pesp_base::{Memory, Period};
use std::alloc::Global;

/// The changes at a turn.
#[derive(Clone, Copy)]
struct Change {
    // The second difference of the violation at this turn.
    bend: i64,
    // The rise of the cost to the next turn besides the rate.
    jump: i64,
}

impl Change {
    /// No change.
    const NONE: Change = Change { bend: 0, jump: 0 };
}

/// The charge of each turn of a side, from 0 to the period less 1, relative to turn 0.
///
/// The violation of an arc is piecewise linear in the turn, and its cost is linear but for a jump where its
/// slack passes from the period less 1 to 0. So an arc adds a few entries here instead of one for each turn,
/// and one summation at the end covers all arcs.
#[derive(Drop)]
pub(crate) struct Turns {
    // The number of changes.
    period: u16,
    // One for each turn, in a circle.
    changes: Vec<Change>,
    // The rise of the violation from the last turn to turn 0.
    slope: i64,
    // The rise of the cost with each unit of turn.
    rate: i64,
}

impl Turns {
    pub(crate) fn new(alloc: Global, period: Period) -> Result<Turns, Memory> {
        let Ok(changes) = vec![in alloc; Change::NONE; usize::from(period.get())] else {
            return Err(Memory);
        };
        Ok(Turns {
            period: period.get(),
            changes,
            slope: 0,
            rate: 0,
        })
    }

    /// Sets all charges to 0.
    pub(crate) fn clear(&mut self) {
        self.changes.fill(Change::NONE);
        self.slope = 0;
        self.rate = 0;
    }

    /// The change at which the rise of a link reaches a given one, from 0 to the period.
    fn change(&mut self, rise: u16, at: u16) -> Option<&mut Change> {
        let ahead = at.wrapping_add(self.period).wrapping_sub(rise);
        let turn = ahead.min(ahead.wrapping_sub(self.period));
        let turn = turn.min(turn.wrapping_sub(self.period));
        self.changes.get_mut(usize::from(turn))
    }

    fn bend(&mut self, rise: u16, at: u16, by: i64) {
        if let Some(change) = self.change(rise, at) {
            change.bend = change.bend.wrapping_add(by);
        }
    }

    fn jump(&mut self, rise: u16, at: u16, by: i64) {
        if let Some(change) = self.change(rise, at) {
            change.jump = change.jump.wrapping_add(by);
        }
    }

    /// Adds the violation of a link across the cut, multiplied by `times`.
    fn add_excess(&mut self, width: u16, rise: u16, times: i64) {
        // Outside the span, the violation grows for this distance from either end, and then falls.
        let half = self.period.wrapping_sub(width) / 2;
        if half == 0 {
            return;
        }
        let less = 0i64.wrapping_sub(times);
        let (crest, fall) = (width.wrapping_add(half), self.period.wrapping_sub(half));
        self.bend(rise, width, times);
        self.bend(rise, crest, less);
        self.bend(rise, fall, less);
        self.bend(rise, 0, times);
        // The step that leads to this rise; for rise 0 it is the last one of the circle.
        let step = if rise == 0 { self.period } else { rise };
        if step > fall {
            self.slope = self.slope.wrapping_sub(times);
        } else if step > width && step <= crest {
            self.slope = self.slope.wrapping_add(times);
        }
    }

    /// Adds the charge of a link across the cut, as seen from the turned side; -1 times subtracts it.
    pub(crate) fn add(&mut self, link: &Link, rise: u16, times: i64) {
        self.add_excess(link.width, rise, times);
        let rate = link.rate().wrapping_mul(times);
        let lap = rate.wrapping_mul(i64::from(self.period));
        let last = if link.is_head {
            self.period.wrapping_sub(1)
        } else {
            link.width
        };
        self.jump(rise, last, 0i64.wrapping_sub(lap));
        self.rate = self.rate.wrapping_add(rate);
    }

    /// Adds all charges of others.
    pub(crate) fn add_all(&mut self, others: &Turns) {
        for (change, other) in self.changes.iter_mut().zip(&others.changes) {
            change.bend = change.bend.wrapping_add(other.bend);
            change.jump = change.jump.wrapping_add(other.jump);
        }
        self.slope = self.slope.wrapping_add(others.slope);
        self.rate = self.rate.wrapping_add(others.rate);
    }

    /// Shifts the circle so that this turn becomes turn 0.
    pub(crate) fn rotate(&mut self, turn: u16) {
        let turn = usize::from(turn).min(self.changes.len());
        for change in &self.changes[..turn] {
            self.slope = self.slope.wrapping_add(change.bend);
        }
        self.changes.rotate_left(turn);
    }

    /// The turn with the least charge, and that charge; 0 if no turn helps.
    pub(crate) fn best(&self) -> (u16, Charge) {
        let mut best = Charge::NONE;
        let mut now = best;
        let mut slope = self.slope;
        let mut turn: u16 = 0;
        let mut best_turn: u16 = 0;
        for change in &self.changes {
            slope = slope.wrapping_add(change.bend);
            now.excess = now.excess.wrapping_add(slope);
            now.cost = now.cost.wrapping_add(self.rate).wrapping_add(change.jump);
            turn = turn.wrapping_add(1);
            // Most turns raise the violation, so one comparison rejects them.
            if now.excess <= best.excess && now < best {
                best = now;
                best_turn = turn;
            }
        }
        (best_turn, best)
    }
}
