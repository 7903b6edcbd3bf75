//! Pivots.

use crate::Tableau;
use crate::basic::Basic;
use crate::fixed::{ONE, clean, product, times};
use crate::inverse::Inverse;
use crate::number::Place;

/// A nonzero entry of the pivot row.
#[derive(Clone, Copy)]
pub(crate) struct Touch {
    // The index of its column.
    column: usize,
    // Never 0.
    entry: i64,
}

/// Adds the touched entries to a row.
fn add_once(row: &mut [i64], touched: &[Touch]) {
    for touch in touched {
        if let Some(entry) = row.get_mut(touch.column) {
            *entry = clean(entry.wrapping_add(touch.entry));
        }
    }
}

/// Subtracts the touched entries from a row.
fn take_once(row: &mut [i64], touched: &[Touch]) {
    for touch in touched {
        if let Some(entry) = row.get_mut(touch.column) {
            *entry = clean(entry.wrapping_sub(touch.entry));
        }
    }
}

/// Adds a multiple of the touched entries to a row.
fn add_times(row: &mut [i64], touched: &[Touch], factor: i64) {
    for touch in touched {
        if let Some(entry) = row.get_mut(touch.column) {
            *entry = clean(entry.wrapping_add(times(factor, touch.entry)));
        }
    }
}

/// Adds a multiple of the touched entries to a row. Most factors are 1 or -1, which need no product.
fn add_touched(row: &mut [i64], touched: &[Touch], factor: i64) {
    if factor == ONE {
        add_once(row, touched);
    } else if factor == -ONE {
        take_once(row, touched);
    } else {
        add_times(row, touched, factor);
    }
}

impl Tableau {
    /// Moves the basic variable of a row to an end of its range and makes the variable of the column basic.
    pub(crate) fn pivot(&mut self, row: usize, column: usize, above: bool) {
        let inverse = Inverse::new(self.entries.entry(row, column));
        let (Some(&basic), Some(&entering)) = (self.basics.get(row), self.columns.get(column))
        else {
            return;
        };
        let leaving = self.number(basic.number);
        let bound = if above { leaving.high } else { leaving.low };
        let delta = inverse.quotient(bound.wrapping_sub(basic.value));
        let rows = self.basics.len();
        let columns = self.columns.len();
        self.spend(rows.saturating_add(columns));
        self.turn(row, column, inverse);
        for other in 0..rows {
            if other != row {
                self.combine(other, column, delta, inverse.get());
            }
        }
        self.combine_cost(column, delta, inverse.get());
        let value = self.number(entering.number).end().wrapping_add(delta);
        self.change_places(row, column, value, above);
    }

    /// Solves the row for the variable of the column, and collects the row's other nonzero entries.
    fn turn(&mut self, row: usize, column: usize, inverse: Inverse) {
        self.touched.clear();
        let Some(entries) = self.entries.row_mut(row) else {
            return;
        };
        let mut index: usize = 0;
        for entry in entries {
            if index == column {
                *entry = inverse.get();
            } else if *entry != 0 {
                *entry = clean(inverse.quotient(entry.wrapping_neg()));
                let entry = *entry;
                let _ = self.touched.push(Touch {
                    column: index,
                    entry,
                });
            }
            index = index.wrapping_add(1);
        }
    }

    /// Substitutes the solved row into another row.
    fn combine(&mut self, row: usize, column: usize, delta: i64, inverse: i64) {
        let factor = self.entries.entry(row, column);
        if factor == 0 {
            return;
        }
        let changed = self.touched.len();
        self.spend(changed);
        if let Some(entries) = self.entries.row_mut(row) {
            add_touched(entries, &self.touched, factor);
        }
        self.entries.set(row, column, clean(times(factor, inverse)));
        if let Some(basic) = self.basics.get_mut(row) {
            basic.value = basic.value.wrapping_add(times(factor, delta));
        }
    }

    /// Substitutes the solved row into the reduced costs.
    fn combine_cost(&mut self, column: usize, delta: i64, inverse: i64) {
        let Some(&entering) = self.columns.get(column) else {
            return;
        };
        for touch in &self.touched {
            if let Some(other) = self.columns.get_mut(touch.column) {
                other.cost = other.cost.wrapping_add(times(entering.cost, touch.entry));
            }
        }
        if let Some(own) = self.columns.get_mut(column) {
            own.cost = times(entering.cost, inverse);
        }
        self.cost = self.cost.wrapping_add(product(entering.cost, delta));
    }

    /// Exchanges the variables of a row and a column.
    fn change_places(&mut self, row: usize, column: usize, value: i64, above: bool) {
        let (Some(basic), Some(own)) = (self.basics.get_mut(row), self.columns.get_mut(column))
        else {
            return;
        };
        let leaving = basic.number;
        let entering = own.number;
        *basic = Basic {
            number: entering,
            value,
        };
        own.number = leaving;
        if let Some(number) = self.numbers.get_mut(entering) {
            number.place = Place::Row(row);
        }
        if let Some(number) = self.numbers.get_mut(leaving) {
            number.place = Place::Column(column);
            number.is_high = above;
        }
    }
}
