//! Rows of residues.

ghost use Rattle.std.specs.Prelude.{◌≡◌, ℕ, ◌==◌, ◌&&◌, ◌||◌, ◌<◌, not, nat_le, nat_lt, ◌-◌, true, false, replicate, length, find, IfOk};
ghost use Rattle.std.specs.List.{range_with_len};
ghost use Rattle.pesp_base.specs.Windows.{is_held};
ghost use Rattle.pesp_domains.specs.Domains.{holds, residues};
ghost use Rattle.pesp_domains.specs.Rows.{is_open};

use pesp_base::{Period, Window};
use std::alloc::{AllocError, Global};
use std::marker::Model;

/// A set of residues. The model is a list with a truth value for each residue below the period.
#[derive(Drop)]
pub struct Row {
    // One for each residue below the period. Bits would have saved 2 of 41 MB of the greatest
    // network: docs/HISTORY.md, "Before blocks".
    tests: Vec<bool>,
}

impl Model for Row {
    ghost use Rattle.std.specs.Prelude.{List, Bool, length, ◌≤◌};
    ghost use Rattle.pesp_base.specs.Limits.{greatest_period};

    ghost Value = { List Bool };

    ghost view = { λ a. a.tests.items };

    ghost invariant = { λ a. length a.tests.items ≤ greatest_period };
}

impl Row {
    /// The row of all residues.
    pub fn full(alloc: Global, period: Period) -> Result<Row, AllocError>
        ensures { IfOk result (λ row. row ≡ replicate period true) }
    {
        let tests = vec![in alloc; true; period.get() as usize]?;
        Ok(Row { tests })
    }

    /// The row of no residue.
    pub fn empty(alloc: Global, period: Period) -> Result<Row, AllocError>
        ensures { IfOk result (λ row. row ≡ replicate period false) }
    {
        let tests = vec![in alloc; false; period.get() as usize]?;
        Ok(Row { tests })
    }

    /// The period. All residues are below it.
    fn period(&self) -> u16
        ensures { result ≡ length self.now }
    {
        self.tests.len() as u16
    }

    /// The test of each residue below the period, ascending.
    pub fn tests(&self) -> &[bool]
        ensures { result.now ≡ self.now }
    {
        &self.tests
    }

    /// Whether the residue is in the set.
    pub fn holds(&self, residue: u16) -> bool
        ensures { result ≡ holds self.now residue }
    {
        let place = residue as usize;
        place < self.tests.len() && self.tests[place]
    }

    /// The number of residues in the set.
    pub fn len(&self) -> usize
        ensures { result ≡ length (residues self.now) }
    {
        (0..self.period())
            .filter(|residue| self.holds(*residue))
            .count()
    }

    /// The least residue of the set that is not below `residue`.
    pub fn next_from(&self, residue: u16) -> Option<u16>
        ensures { result ≡ find (λ r. nat_le residue r) (residues self.now) }
    {
        self.first_between(residue, self.period())
    }

    /// The least residue of the set from `low` on and below `high`.
    fn first_between(&self, low: u16, high: u16) -> Option<u16>
        ensures { result ≡ find (holds self.now) (range_with_len low (high - low)) }
    {
        (low..high).find(|residue| self.holds(*residue))
    }

    /// Removes a residue.
    pub fn take_out(&mut self, residue: u16)
        ensures long { length self.new ≡ length self.old }
        ensures holds { (r : ℕ) → holds self.new r ≡ (holds self.old r && not (r == residue)) }
    {
        if self.holds(residue) {
            self.tests[residue as usize] = false;
        }
    }

    /// Adds a residue below the period.
    pub fn put_in(&mut self, residue: u16)
        requires { residue < length self.old }
        ensures long { length self.new ≡ length self.old }
        ensures holds { (r : ℕ) → holds self.new r ≡ (holds self.old r || r == residue) }
    {
        let place = residue as usize;
        self.tests[place] = true;
    }

    /// Removes all other residues.
    pub(crate) fn keep_only(&mut self, residue: u16)
        ensures long { length self.new ≡ length self.old }
        ensures holds { (r : ℕ) → holds self.new r ≡ (holds self.old r && r == residue) }
    {
        let stays = self.holds(residue);
        self.tests.fill(false);
        if stays {
            self.tests[residue as usize] = true;
        }
    }

    /// Removes all residues that are not in a window of the period.
    fn keep_window(&mut self, period: Period, window: Window)
        requires { period ≡ length self.old }
        ensures long { length self.new ≡ length self.old }
        ensures holds { (r : ℕ) → holds self.new r ≡ (holds self.old r && is_held period window r) }
    {
        for residue in 0..period.get() {
            if !window.holds(period, residue) {
                self.take_out(residue);
            }
        }
    }

    /// Adds all residues.
    pub fn fill(&mut self)
        ensures long { length self.new ≡ length self.old }
        ensures holds { (r : ℕ) → holds self.new r ≡ nat_lt r (length self.old) }
    {
        self.tests.fill(true);
    }

    /// Makes the row all residues of the period, or those of the window alone.
    pub fn open(&mut self, period: Period, window: Option<Window>)
        requires { period ≡ length self.old }
        ensures long { length self.new ≡ length self.old }
        ensures holds { (r : ℕ) → holds self.new r ≡ is_open window (length self.old) r }
    {
        self.fill();
        if let Some(window) = window {
            self.keep_window(period, window);
        }
    }
}
