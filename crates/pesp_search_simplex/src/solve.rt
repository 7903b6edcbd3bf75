//! The dual simplex method.

use crate::{End, Tableau};

/// The number of pivots between two checks of the equations. Checks cost time and undo rounding in long runs
/// (docs/HISTORY.md, "What the search could do without").
const PIVOTS: u32 = 64;

/// `AtCap` requires that the cost exceeds the cap less 1 by 2^-7, a margin for rounding errors. No trial of
/// this number is recorded.
const MARGIN_BITS: u32 = 7;

impl Tableau {
    /// Minimizes the cost, within a limit of work.
    ///
    /// The result holds up to rounding. Before it returns, the equations are checked, and the tableau is
    /// recomputed with the same basic variables if an error is too great. If there is no memory for entries
    /// that were left out, nothing is done.
    pub fn solve(&mut self, cap: u64, most: u64) -> End {
        let gone_through = self.basics.len().saturating_add(self.columns.len());
        self.spend(gone_through);
        let most_work = self.work.saturating_add(most);
        if self.wake().is_err() {
            return End::Spent;
        }
        self.mend();
        for _ in 0..most {
            if most_work <= self.work {
                return End::Spent;
            }
            let end = self.step(cap);
            if (end.is_some() || PIVOTS <= self.untried) && self.is_off() {
                self.refresh();
                self.mend();
            } else if let Some(end) = end {
                return end;
            }
        }
        End::Spent
    }

    /// Makes one pivot, or returns how the run ends.
    fn step(&mut self, cap: u64) -> Option<End> {
        self.empty = None;
        if self.is_at(cap) {
            self.mend();
            if self.is_at(cap) {
                return Some(End::AtCap);
            }
        }
        let Some(worst) = self.worst() else {
            return Some(End::Least);
        };
        let Some(column) = self.entering_column(worst) else {
            self.empty = Some((worst.row, worst.above));
            return Some(End::Empty);
        };
        self.pivot(worst.row, column, worst.above);
        self.untried = self.untried.saturating_add(1);
        None
    }

    /// Whether the cost, rounded up, has reached the cap in spite of rounding errors. The run stops then: the
    /// node is cut anyway (docs/HISTORY.md, "What the search could do without").
    fn is_at(&self, cap: u64) -> bool {
        let before = i128::from(cap).wrapping_sub(1);
        let margin = 1i128.wrapping_shl(self.cost_bits.saturating_sub(MARGIN_BITS));
        before.wrapping_shl(self.cost_bits).wrapping_add(margin) < self.cost
    }
}
