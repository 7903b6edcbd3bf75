//! Tableaus.

use crate::Term;
use crate::basic::Basic;
use crate::column::Column;
use crate::enter::Point;
use crate::equations::Equations;
use crate::fixed::{cost_bits_of, cost_in, product, times};
use crate::matrix::Matrix;
use crate::number::{Number, Place};
use crate::pivot::Touch;
use pesp_base::Memory;
use std::alloc::Global;

/// The greatest absolute value of an end of a range: 2^21 in units of 1 / `ONE`.
const GREATEST: i64 = 2_305_843_009_213_693_952;

/// A simplex tableau: bounded variables with costs, and rows that define further variables as sums.
///
/// Each row states that its basic variable is the sum of its entries times the nonbasic variables. Each
/// nonbasic variable is at an end of its range. So the reduced costs of every tableau give a lower bound on the
/// cost.
#[derive(Drop)]
pub struct Tableau {
    // Allocates everything in this tableau.
    pub(crate) alloc: Global,
    // The cost of each given variable.
    pub(crate) costs: Vec<u32>,
    // The number of bits after the point of reduced costs.
    pub(crate) cost_bits: u32,
    // The equation of each row, as it was pushed.
    pub(crate) equations: Equations,
    // The given variables, then those of the rows.
    pub(crate) numbers: Vec<Number>,
    // One for each given variable.
    pub(crate) columns: Vec<Column>,
    // One for each row.
    pub(crate) basics: Vec<Basic>,
    // One row for each basic variable, one column for each nonbasic one, in units of 1 / `ONE`.
    pub(crate) entries: Matrix,
    // Whether the entries are left out until the tableau is next solved.
    pub(crate) is_light: bool,
    // The cost at the current values, with `cost_bits` bits after the point.
    pub(crate) cost: i128,
    // The work so far; never decreases.
    pub(crate) work: u64,
    // The number of pivots since the equations were last checked.
    pub(crate) untried: u32,
    // The row that could not reach its range, and whether it was above it.
    pub(crate) empty: Option<(usize, bool)>,
    // The breakpoints of the current pivot. It has room for all columns, so filling it cannot fail.
    pub(crate) points: Vec<Point>,
    // The entries of the pivot row. It has room for all columns, so filling it cannot fail.
    pub(crate) touched: Vec<Touch>,
}

/// The initial columns, those of the given variables.
fn columns_of(alloc: Global, costs: &[u32], bits: u32) -> Result<Vec<Column>, Memory> {
    let mut columns = Vec::new(alloc);
    for (number, &cost) in costs.iter().enumerate() {
        let cost = cost_in(cost, bits);
        if columns.push(Column { number, cost }).is_err() {
            return Err(Memory);
        }
    }
    Ok(columns)
}

/// The given variables at the start, each with the range 0 alone.
fn numbers_of(alloc: Global, count: usize) -> Result<Vec<Number>, Memory> {
    let mut numbers = Vec::new(alloc);
    for number in 0..count {
        if numbers.push(Number::new(Place::Column(number), 0)).is_err() {
            return Err(Memory);
        }
    }
    Ok(numbers)
}

/// The least number of halvings after which no coefficient exceeds 1. Without halving, 40 events with 80
/// activities took 1.6 times as long (docs/HISTORY.md, "What the search could do without").
fn shift_of(terms: &[Term]) -> u32 {
    let mut greatest: u32 = 1;
    for term in terms {
        greatest = greatest.max(term.rate.unsigned_abs());
    }
    32 - greatest.wrapping_sub(1).leading_zeros()
}

impl Tableau {
    /// A tableau without rows. Each variable has the range 0 alone.
    pub fn new(alloc: Global, costs: &[u32]) -> Result<Tableau, Memory> {
        let (Ok(own), Ok(points), Ok(touched)) = (
            Vec::from_slice(alloc, costs),
            Vec::with_capacity(alloc, costs.len()),
            Vec::with_capacity(alloc, costs.len()),
        ) else {
            return Err(Memory);
        };
        let cost_bits = cost_bits_of(costs);
        Ok(Tableau {
            alloc,
            costs: own,
            cost_bits,
            equations: Equations::new(alloc),
            numbers: numbers_of(alloc, costs.len())?,
            columns: columns_of(alloc, costs, cost_bits)?,
            basics: Vec::new(alloc),
            entries: Matrix::new(alloc, costs.len()),
            is_light: false,
            cost: 0,
            work: 0,
            untried: 0,
            empty: None,
            points,
            touched,
        })
    }

    /// A copy of the tableau.
    pub fn copy(&self) -> Result<Tableau, Memory> {
        self.copy_with(self.entries.copy()?, self.is_light)
    }

    /// A copy of the tableau with other entries.
    pub(crate) fn copy_with(&self, entries: Matrix, is_light: bool) -> Result<Tableau, Memory> {
        let (Ok(costs), Ok(numbers), Ok(columns), Ok(basics)) = (
            Vec::from_slice(self.alloc, &self.costs),
            Vec::from_slice(self.alloc, &self.numbers),
            Vec::from_slice(self.alloc, &self.columns),
            Vec::from_slice(self.alloc, &self.basics),
        ) else {
            return Err(Memory);
        };
        let (Ok(points), Ok(touched)) = (
            Vec::with_capacity(self.alloc, self.columns.len()),
            Vec::with_capacity(self.alloc, self.columns.len()),
        ) else {
            return Err(Memory);
        };
        Ok(Tableau {
            alloc: self.alloc,
            costs,
            cost_bits: self.cost_bits,
            equations: self.equations.copy()?,
            numbers,
            columns,
            basics,
            entries,
            is_light,
            cost: self.cost,
            work: self.work,
            untried: self.untried,
            empty: self.empty,
            points,
            touched,
        })
    }

    /// Adds a row: a variable that is the sum of the terms, with the range 0 alone. Terms of variables that
    /// were not given are ignored. If memory runs out, the tableau is no longer usable.
    pub fn push_row(&mut self, terms: &[Term]) -> Result<(), Memory> {
        let row = self.basics.len();
        let number = Number::new(Place::Row(row), shift_of(terms));
        let basic = Basic {
            number: self.numbers.len(),
            value: 0,
        };
        self.entries.push_row()?;
        self.equations.push(terms)?;
        if self.numbers.push(number).is_err() || self.basics.push(basic).is_err() {
            return Err(Memory);
        }
        self.fill(row, number.unit());
        Ok(())
    }

    /// Adds the terms of a row, whose entries are 0, to its entries, and computes its value.
    pub(crate) fn fill(&mut self, row: usize, unit: i64) {
        let mut value: i64 = 0;
        for index in 0..self.equations.row(row).len() {
            let Some(&term) = self.equations.row(row).get(index) else {
                return;
            };
            if term.number < self.columns.len() {
                let rate = i64::from(term.rate).wrapping_mul(unit);
                value = value.wrapping_add(times(rate, self.raw(term.number)));
                self.put(row, rate, self.number(term.number).place);
            }
        }
        if let Some(basic) = self.basics.get_mut(row) {
            basic.value = value;
        }
    }

    /// Adds a multiple of the variable at the place to a row.
    fn put(&mut self, row: usize, rate: i64, place: Place) {
        match place {
            Place::Column(column) => {
                self.entries.add(row, column, rate);
                self.spend(1);
            }
            Place::Row(other) => {
                let columns = self.columns.len();
                for column in 0..columns {
                    let by = times(rate, self.entries.entry(other, column));
                    self.entries.add(row, column, by);
                }
                self.spend(columns);
            }
        }
    }

    /// Sets the range of a variable, to `low` alone if `high` is below it.
    ///
    /// An end whose absolute value exceeds 2^21 times the greatest coefficient of the row is cut to that. An
    /// unknown variable is ignored.
    pub fn set_range(&mut self, number: usize, low: i64, high: i64) {
        let old = self.number(number);
        let mut new = old;
        new.low = low.saturating_mul(old.unit()).clamp(-GREATEST, GREATEST);
        new.high = high
            .saturating_mul(old.unit())
            .clamp(-GREATEST, GREATEST)
            .max(new.low);
        if (new.low, new.high) == (old.low, old.high) {
            return;
        }
        if let Some(slot) = self.numbers.get_mut(number) {
            *slot = new;
            if let Place::Column(column) = new.place {
                self.shift(column, new.end().wrapping_sub(old.end()));
            }
        }
    }

    /// Moves the variable of a column, and updates the cost and the rows.
    pub(crate) fn shift(&mut self, column: usize, by: i64) {
        let Some(&moved) = self.columns.get(column) else {
            return;
        };
        if by == 0 {
            return;
        }
        self.cost = self.cost.wrapping_add(product(moved.cost, by));
        let rows = self.basics.len();
        self.spend(rows);
        let mut row: usize = 0;
        for basic in &mut self.basics {
            let entry = self.entries.entry(row, column);
            if entry != 0 {
                basic.value = basic.value.wrapping_add(times(entry, by));
            }
            row = row.wrapping_add(1);
        }
    }

    /// A variable, or one with the range 0 in no column if there is none.
    pub(crate) fn number(&self, number: usize) -> Number {
        match self.numbers.get(number) {
            Some(number) => *number,
            None => Number::new(Place::Column(usize::MAX), 0),
        }
    }

    /// The current value of a variable.
    pub(crate) fn raw(&self, number: usize) -> i64 {
        let number = self.number(number);
        match number.place {
            Place::Column(_) => number.end(),
            Place::Row(row) => match self.basics.get(row) {
                Some(basic) => basic.value,
                None => 0,
            },
        }
    }

    /// Adds to the work.
    pub(crate) fn spend(&mut self, work: usize) {
        self.work = self.work.saturating_add(work as u64);
    }
}
