//! The texts of residues.

ghost use Rattle.std.specs.Prelude.{◌≡◌, ◌≤◌, ◌-◌, ◌++◌, ◌∷◌, IfOk, OnOk, decimal};
ghost use Rattle.std.specs.List.{range_with_len};
ghost use Rattle.pesp_shell_replies.specs.Spaced.{spaced};

use pesp_base::Period;
use pesplib_writer::{put, put_number};
use std::alloc::{AllocError, Global};
use std::marker::Model;

/// Appends one residue.
pub(crate) fn put_residue(text: &mut Vec<u8>, residue: u16) -> Result<(), AllocError>
    ensures { OnOk result (text.new.items ≡ text.old.items ++ 32 ∷ decimal residue) }
{
    put(text, b" ")?;
    put_number(text, u64::from(residue))
}

/// The texts of all residues of a period, made once, so that a run of them is appended as one
/// slice.
#[derive(Drop)]
pub(crate) struct ResidueTexts {
    // The residues are those below it.
    period: Period,
    // The residues, ascending, each after a space.
    text: Vec<u8>,
    // Where each residue begins, with its space, and then where the text ends.
    starts: Vec<usize>,
}

impl Model for ResidueTexts {
    ghost use Rattle.std.specs.Prelude.{ℕ};
    ghost use Rattle.pesp_shell_replies.specs.Spaced.{IsTable};

    ghost Value = { ℕ };

    ghost view = { λ a. a.period };

    ghost invariant = { λ a. IsTable a.period a.text.items a.starts.items };
}

impl ResidueTexts {
    pub(crate) fn new(alloc: Global, period: Period) -> Result<ResidueTexts, AllocError>
        ensures { IfOk result (λ texts. texts ≡ period) }
    {
        let mut text = Vec::new(alloc);
        let mut starts = Vec::with_capacity(alloc, period.get() as usize + 1)?;
        for residue in 0..period.get() {
            starts.push(text.len())?;
            put_residue(&mut text, residue)?;
        }
        starts.push(text.len())?;
        Ok(ResidueTexts {
            period,
            text,
            starts,
        })
    }

    pub(crate) fn period(&self) -> Period
        ensures { result ≡ self.now }
    {
        self.period
    }

    /// The text of the residues from `low` on and below `high`.
    fn run_text(&self, low: u16, high: u16) -> &[u8]
        requires order { low ≤ high }
        requires within { high ≤ self.now }
        ensures { result.now ≡ spaced (range_with_len low (high - low)) }
    {
        let start = self.starts[low as usize];
        let end = self.starts[high as usize];
        &self.text[start..end]
    }

    /// Appends the residues from `low` on and below `high`: none unless `high` is greater.
    pub(crate) fn put_run(&self, text: &mut Vec<u8>, low: u16, high: u16) -> Result<(), AllocError>
        requires { high ≤ self.now }
        ensures { OnOk result (text.new.items
            ≡ text.old.items ++ spaced (range_with_len low (high - low))) }
    {
        // In a narrow row most runs are empty.
        if high <= low {
            return Ok(());
        }
        put(text, self.run_text(low, high))
    }
}
