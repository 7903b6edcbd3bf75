//! Tableaus that leave out their entries while they wait: four wide regions take 23 MB instead of 40
//! (docs/HISTORY.md, "What the search could do without").

use crate::Tableau;
use crate::matrix::Matrix;
use pesp_base::Memory;

impl Tableau {
    /// The number of entries.
    pub fn size(&self) -> usize {
        self.basics.len().saturating_mul(self.columns.len())
    }

    /// A copy without entries. They are recomputed when it is next solved.
    pub fn light(&self) -> Result<Tableau, Memory> {
        self.copy_with(Matrix::new(self.alloc, self.columns.len()), true)
    }

    /// Recomputes the entries if they were left out.
    pub(crate) fn wake(&mut self) -> Result<(), Memory> {
        if self.is_light {
            self.entries.fill(self.basics.len())?;
            self.is_light = false;
            self.refresh();
        }
        Ok(())
    }
}
