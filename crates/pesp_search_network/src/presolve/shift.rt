//! How maps of a network follow from those of one with fewer events.

ghost use Rattle.std.specs.Prelude.{◌≡◌, ◌+◌, ◌%◌, IfOk, slice_index};
ghost use Rattle.pesp_search_network.specs.Shifts.{lifted};

use pesp_base::{Memory, Period};
use std::alloc::Global;

/// The event that represents another one, which is later by a fixed offset.
#[derive(Clone, Copy, PartialEq, Eq)]
pub struct Shift {
    /// The index of the event that represents it.
    pub index: usize,
    // How much later it is, below the period.
    pub offset: u16,
}

/// The sum of two residues modulo the period.
pub(crate) fn later(period: Period, residue: u16, offset: u16) -> u16
    ensures { result ≡ (residue + offset) % period }
{
    ((u32::from(residue) + u32::from(offset)) % u32::from(period.get())) as u16
}

impl Shift {
    /// The residue of the event at a map of the reduced network.
    fn residue(self, period: Period, map: &[u16]) -> u16
        ensures { result ≡ (slice_index map.now self.index + self.offset) % period }
    {
        let residue = match map.get(self.index) {
            Some(residue) => *residue,
            None => 0,
        };
        later(period, residue, self.offset)
    }
}

/// The map that follows from a map of the reduced network.
pub(crate) fn lifted_map(
    alloc: Global,
    period: Period,
    shifts: &[Shift],
    map: &[u16],
) -> Result<Vec<u16>, Memory>
    ensures { IfOk result (λ of_map. of_map.items ≡ lifted period shifts.now map.now) }
{
    let mut of_map = Vec::new(alloc);
    for shift in shifts {
        if of_map.push(shift.residue(period, map)).is_err() {
            return Err(Memory);
        }
    }
    Ok(of_map)
}
