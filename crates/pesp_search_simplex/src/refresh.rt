//! Rounding errors: finding them, and recomputing the tableau.

use crate::Tableau;
use crate::fixed::{cost_in, product, times};
use crate::number::Place;

/// The greatest error of an equation, 2^-17. A smaller limit would recompute tableaus more often, a larger one
/// lets errors grow. No trial of this number is recorded.
const MOST_RESIDUAL: u64 = 8_388_608;

/// While recomputing, an entry of at most 2^-14 is no pivot: dividing by it would magnify rounding errors. No
/// trial of this number is recorded.
const LEAST_PIVOT: u64 = 67_108_864;

impl Tableau {
    /// The error of a row's equation at the current values.
    fn residual(&self, row: usize) -> u64 {
        let index = self.columns.len().saturating_add(row);
        let unit = self.number(index).unit();
        let mut sum: i64 = 0;
        for term in self.equations.row(row) {
            if term.number < self.columns.len() {
                let rate = i64::from(term.rate).wrapping_mul(unit);
                sum = sum.wrapping_add(times(rate, self.raw(term.number)));
            }
        }
        sum.abs_diff(self.raw(index))
    }

    /// Whether an equation has too great an error; false without a check if there was no pivot since the last
    /// one.
    pub(crate) fn is_off(&mut self) -> bool {
        if self.untried == 0 {
            return false;
        }
        self.untried = 0;
        let terms = self.equations.len();
        self.spend(terms);
        self.is_some_off()
    }

    /// Whether some equation has too great an error.
    fn is_some_off(&self) -> bool {
        for row in 0..self.equations.count() {
            if MOST_RESIDUAL < self.residual(row) {
                return true;
            }
        }
        false
    }

    /// Recomputes the tableau from its equations, with the same basic variables as far as possible.
    pub(crate) fn refresh(&mut self) {
        self.note_basics();
        self.reset_columns();
        self.entries.clear();
        for row in 0..self.basics.len() {
            self.reset_row(row);
        }
        for row in 0..self.basics.len() {
            self.pivot_anew(row);
        }
        self.untried = 0;
    }

    /// Records which variables are basic.
    fn note_basics(&mut self) {
        for number in &mut self.numbers {
            number.was_basic = number.is_basic();
        }
    }

    /// Makes the given variables nonbasic, in their own columns.
    fn reset_columns(&mut self) {
        self.cost = 0;
        for index in 0..self.columns.len() {
            let cost = match self.costs.get(index) {
                Some(cost) => cost_in(*cost, self.cost_bits),
                None => 0,
            };
            if let Some(column) = self.columns.get_mut(index) {
                column.number = index;
                column.cost = cost;
            }
            if let Some(number) = self.numbers.get_mut(index) {
                number.place = Place::Column(index);
                self.cost = self.cost.wrapping_add(product(cost, number.end()));
            }
        }
    }

    /// Makes a row's own variable basic in its row.
    fn reset_row(&mut self, row: usize) {
        let index = self.columns.len().saturating_add(row);
        if let Some(basic) = self.basics.get_mut(row) {
            basic.number = index;
        }
        if let Some(number) = self.numbers.get_mut(index) {
            number.place = Place::Row(row);
        }
        self.fill(row, self.number(index).unit());
    }

    /// Replaces the row's own variable by one that was basic, unless the row's own was basic too.
    fn pivot_anew(&mut self, row: usize) {
        let leaving = self.number(self.columns.len().saturating_add(row));
        if leaving.was_basic {
            return;
        }
        if let Some(column) = self.column_anew(row) {
            self.pivot(row, column, leaving.is_high);
        }
    }

    /// The column with the greatest entry of the row among variables that were basic.
    fn column_anew(&self, row: usize) -> Option<usize> {
        let mut greatest = LEAST_PIVOT;
        let mut best = None;
        for (index, column) in self.columns.iter().enumerate() {
            let size = self.entries.entry(row, index).unsigned_abs();
            if greatest < size && self.number(column.number).was_basic {
                greatest = size;
                best = Some(index);
            }
        }
        best
    }
}
