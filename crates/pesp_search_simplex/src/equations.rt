//! The equations of the rows.

use crate::Term;
use pesp_base::Memory;
use std::alloc::Global;

/// The terms of each row's equation.
#[derive(Drop)]
pub(crate) struct Equations {
    // The terms of all rows, row by row.
    terms: Vec<Term>,
    // For each row, the index after its last term.
    ends: Vec<usize>,
}

impl Equations {
    pub(crate) fn new(alloc: Global) -> Equations {
        Equations {
            terms: Vec::new(alloc),
            ends: Vec::new(alloc),
        }
    }

    /// The number of rows.
    pub(crate) fn count(&self) -> usize {
        self.ends.len()
    }

    /// The number of terms in all rows.
    pub(crate) fn len(&self) -> usize {
        self.terms.len()
    }

    fn end(&self, count: usize) -> usize {
        match self.ends.get(count.wrapping_sub(1)) {
            Some(end) => *end,
            None => 0,
        }
    }

    /// The terms of a row; empty if there is no such row.
    pub(crate) fn row(&self, row: usize) -> &[Term] {
        match self.terms.get(self.end(row)..self.end(row.wrapping_add(1))) {
            Some(terms) => terms,
            None => &[],
        }
    }

    /// Appends a row.
    pub(crate) fn push(&mut self, terms: &[Term]) -> Result<(), Memory> {
        let end = self.terms.len().saturating_add(terms.len());
        if self.ends.push(end).is_err() {
            return Err(Memory);
        }
        if self.terms.extend_from_slice(terms).is_err() {
            let _ = self.ends.pop();
            return Err(Memory);
        }
        Ok(())
    }

    pub(crate) fn copy(&self) -> Result<Equations, Memory> {
        let Ok(terms) = self.terms.clone() else {
            return Err(Memory);
        };
        let Ok(ends) = self.ends.clone() else {
            return Err(Memory);
        };
        Ok(Equations { terms, ends })
    }
}
