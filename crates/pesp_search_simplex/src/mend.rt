//! Restoring dual feasibility: nonbasic variables move to the cheaper ends of their ranges.

use crate::Tableau;

/// A reduced cost of at most this absolute value counts as 0, so that rounding errors flip no variable. No
/// trial of this number is recorded.
const SMALL_COST: i64 = 65_536;

impl Tableau {
    /// Moves the variable of a column to the other end of its range.
    pub(crate) fn flip(&mut self, column: usize) {
        let Some(&flipped) = self.columns.get(column) else {
            return;
        };
        if let Some(number) = self.numbers.get_mut(flipped.number) {
            let before = number.end();
            number.is_high = !number.is_high;
            let by = number.end().wrapping_sub(before);
            self.shift(column, by);
        }
    }

    /// Whether the cost falls if the variable of a column moves to its other end.
    fn falls(&self, column: usize) -> bool {
        let Some(found) = self.columns.get(column) else {
            return false;
        };
        if self.number(found.number).is_high {
            SMALL_COST < found.cost
        } else {
            found.cost < -SMALL_COST
        }
    }

    /// Moves each nonbasic variable to the end where the cost is less. Rounding can leave it at the wrong one
    /// (docs/HISTORY.md, "What the search could do without").
    pub(crate) fn mend(&mut self) {
        for column in 0..self.columns.len() {
            if self.falls(column) {
                self.flip(column);
            }
        }
    }
}
