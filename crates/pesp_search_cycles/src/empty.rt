//! Whether boxes contain no map.

ghost use Rattle.std.specs.Prelude.{◌≡◌, ℕ, ℤ, List, ◌<◌, ◌≤◌, false, pos, IsTrue, length, slice_index_or};
ghost use Rattle.pesp_search_network.specs.Arcs.{IsMet};
ghost use Rattle.pesp_search_cycles.specs.Ranges.{AllIn, AreIn, IsIn};

use crate::Range;
use pesp_search_network::Network;

/// Whether one of the ranges is empty.
pub(crate) fn has_empty(ranges: &[Range]) -> bool
    ensures { IsTrue result → (n : ℕ) (z : ℕ → ℤ) → AllIn ranges.now n z → ⊥ }
{
    for index in 0..ranges.len() {
        if ranges[index].low > ranges[index].high {
            return true;
        }
    }
    false
}

/// Whether a domain contains the least residue of the range.
fn has_least(row: &[bool], range: Range) -> bool {
    match usize::try_from(range.low) {
        Ok(low) if range.low <= range.high => row.get(low).copied() == Some(true),
        _ => false,
    }
}

/// Whether a domain has no residue in the range.
fn lacks_all(row: &[bool], range: Range) -> bool
    requires { length row.now ≤ 1440 }
    ensures { IsTrue result → (r : ℕ) → r < length row.now
        → IsTrue (slice_index_or row.now r false) → IsIn range (pos r) → ⊥ }
{
    // Mostly the domain contains the least residue, so this test saves the loop.
    if has_least(row, range) {
        return false;
    }
    for index in 0..row.len() {
        if row[index] {
            if range.has(i64::from(index as u16)) {
                return false;
            }
        }
    }
    true
}

/// Whether the domain of some event has no residue in the event's range.
pub(crate) fn has_lost_event(network: &Network, residues: &[Range]) -> bool
    requires { length residues.now ≡ network.now.events }
    ensures { IsTrue result → (xs : List ℕ) → IsMet network.now xs
        → AreIn residues.now xs → ⊥ }
{
    network.sound();
    for event in 0..residues.len() {
        if lacks_all(network.row(event), residues[event]) {
            return true;
        }
    }
    false
}
