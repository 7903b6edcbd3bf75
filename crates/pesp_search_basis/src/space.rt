//! The cycle space modulo 2.

use crate::growth::{add, copy_of, repeat};
use pesp_base::Memory;
use pesp_search_graph::Step;
use std::alloc::Global;

/// A reduced row echelon form of cycles modulo 2. Each arc outside a spanning forest is a column, so a cycle is
/// the set of such arcs that it contains.
#[derive(Drop)]
pub(crate) struct Space {
    // For each arc its column, if it has one.
    columns: Vec<Option<usize>>,
    // For each column a sum that contains it and no other column that has a sum; empty if there is none.
    rows: Vec<Vec<u64>>,
    // The row under test, as long as each other row.
    sum: Vec<u64>,
}

/// Whether a row contains a column.
fn has(row: &[u64], column: usize) -> bool {
    let word = row.get(column / 64).copied().unwrap_or(0);
    word & bit(column) != 0
}

/// The bit of a column within its word.
fn bit(column: usize) -> u64 {
    1 << (column % 64)
}

/// The first column of a row.
fn first(row: &[u64]) -> Option<usize> {
    for (index, word) in row.iter().enumerate() {
        if *word != 0 {
            let before = index.saturating_mul(64);
            return Some(before.saturating_add(word.trailing_zeros() as usize));
        }
    }
    None
}

/// Adds a column to a row.
fn flip(row: &mut [u64], column: usize) {
    if let Some(word) = row.get_mut(column / 64) {
        *word ^= bit(column);
    }
}

/// Adds one row to another.
fn add_row(row: &mut [u64], other: &[u64]) {
    for (word, more) in row.iter_mut().zip(other) {
        *word ^= *more;
    }
}

impl Space {
    /// A space without cycles.
    pub(crate) fn new(alloc: Global, arcs: usize, outside: &[usize]) -> Result<Space, Memory> {
        let mut columns = repeat(alloc, None, arcs)?;
        let mut rows = Vec::new(alloc);
        for (column, arc) in outside.iter().enumerate() {
            if let Some(place) = columns.get_mut(*arc) {
                *place = Some(column);
            }
            add(&mut rows, Vec::new(alloc))?;
        }
        Ok(Space {
            columns,
            rows,
            sum: repeat(alloc, 0u64, outside.len().div_ceil(64))?,
        })
    }

    /// Adds a cycle unless it is a sum of others, and returns whether it was added.
    ///
    /// The work grows by the numbers visited.
    pub(crate) fn adds(&mut self, steps: &[Step], work: &mut u64) -> Result<bool, Memory> {
        let mut added = steps.len();
        self.sum.fill(0);
        for step in steps {
            if let Some(Some(column)) = self.columns.get(step.arc) {
                flip(self.sum.as_mut_slice(), *column);
                if let Some(row) = self.rows.get(*column) {
                    add_row(self.sum.as_mut_slice(), row.as_slice());
                }
            }
        }
        let kept = first(self.sum.as_slice());
        if let Some(column) = kept {
            self.keep(column)?;
            added = added.saturating_add(self.rows.len());
        }
        *work = work.saturating_add(added.saturating_mul(self.sum.len()) as u64);
        Ok(kept.is_some())
    }

    /// Keeps the sum as the row of a column, and eliminates the column from all other rows.
    fn keep(&mut self, column: usize) -> Result<(), Memory> {
        for row in self.rows.iter_mut() {
            if has(row.as_slice(), column) {
                add_row(row.as_mut_slice(), self.sum.as_slice());
            }
        }
        let sum = copy_of(&self.sum)?;
        if let Some(row) = self.rows.get_mut(column) {
            *row = sum;
        }
        Ok(())
    }
}
