//! Matrices.

use pesp_base::Memory;
use std::alloc::Global;

/// Rows of entries, all of one width.
#[derive(Drop)]
pub(crate) struct Matrix {
    // The number of entries in each row.
    width: usize,
    // The entries of all rows, row by row.
    cells: Vec<i64>,
}

impl Matrix {
    /// A matrix without rows.
    pub(crate) fn new(alloc: Global, width: usize) -> Matrix {
        Matrix {
            width,
            cells: Vec::new(alloc),
        }
    }

    /// Appends a row of zeros.
    pub(crate) fn push_row(&mut self) -> Result<(), Memory> {
        let len = self.cells.len().saturating_add(self.width);
        if self.cells.resize(len, 0).is_err() {
            return Err(Memory);
        }
        Ok(())
    }

    /// Replaces all rows by this number of rows of zeros.
    pub(crate) fn fill(&mut self, rows: usize) -> Result<(), Memory> {
        self.cells.clear();
        if self
            .cells
            .resize(rows.saturating_mul(self.width), 0)
            .is_err()
        {
            return Err(Memory);
        }
        Ok(())
    }

    /// Sets all entries to 0.
    pub(crate) fn clear(&mut self) {
        for cell in &mut self.cells {
            *cell = 0;
        }
    }

    fn index(&self, row: usize, column: usize) -> usize {
        row.wrapping_mul(self.width).wrapping_add(column)
    }

    /// An entry; 0 if there is none.
    pub(crate) fn entry(&self, row: usize, column: usize) -> i64 {
        match self.cells.get(self.index(row, column)) {
            Some(cell) => *cell,
            None => 0,
        }
    }

    /// Sets an entry, if there is one.
    pub(crate) fn set(&mut self, row: usize, column: usize, entry: i64) {
        let index = self.index(row, column);
        if let Some(cell) = self.cells.get_mut(index) {
            *cell = entry;
        }
    }

    /// Adds to an entry, if there is one.
    pub(crate) fn add(&mut self, row: usize, column: usize, by: i64) {
        let index = self.index(row, column);
        if let Some(cell) = self.cells.get_mut(index) {
            *cell = cell.wrapping_add(by);
        }
    }

    /// The entries of a row; empty if there is no such row.
    pub(crate) fn row(&self, row: usize) -> &[i64] {
        let start = self.index(row, 0);
        match self.cells.get(start..start.wrapping_add(self.width)) {
            Some(entries) => entries,
            None => &[],
        }
    }

    /// The entries of a row, to be changed.
    pub(crate) fn row_mut(&mut self, row: usize) -> Option<&mut [i64]> {
        let start = self.index(row, 0);
        self.cells
            .as_mut_slice()
            .get_mut(start..start.wrapping_add(self.width))
    }

    pub(crate) fn copy(&self) -> Result<Matrix, Memory> {
        let Ok(cells) = self.cells.clone() else {
            return Err(Memory);
        };
        Ok(Matrix {
            width: self.width,
            cells,
        })
    }
}
