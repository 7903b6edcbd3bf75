//! Ranges of residues from the domains of a network.

ghost use Rattle.std.specs.Prelude.{◌≡◌, ℕ, List, ◌<◌, ◌≤◌, false, pos, IfOk, IsTrue, length, slice_index_or};
ghost use Rattle.pesp_search_network.specs.Arcs.{IsMet};
ghost use Rattle.pesp_search_cycles.specs.Ranges.{AreIn, IsIn};

use crate::Range;
use pesp_base::Memory;
use pesp_search_network::Network;
use std::alloc::Global;

/// The range from the least residue of a domain to its greatest.
pub(crate) fn row_range(row: &[bool]) -> Range
    requires { length row.now ≤ 1440 }
    ensures { (r : ℕ) → r < length row.now → IsTrue (slice_index_or row.now r false)
        → IsIn result (pos r) }
{
    let mut low = row.len();
    let mut high = 0;
    for index in 0..row.len() {
        if row[index] {
            low = low.min(index);
            high = index;
        }
    }
    Range {
        low: i64::from(low as u16),
        high: i64::from(high as u16),
    }
}

/// The ranges of all events.
pub(crate) fn residue_ranges(alloc: Global, network: &Network) -> Result<Vec<Range>, Memory>
    ensures long { IfOk result (λ ranges. length ranges.items ≡ network.now.events) }
    ensures inside { IfOk result (λ ranges. (xs : List ℕ) → IsMet network.now xs
        → AreIn ranges.items xs) }
{
    network.sound();
    let mut ranges = Vec::new(alloc);
    for event in 0..network.events() {
        if ranges.push(row_range(network.row(event))).is_err() {
            return Err(Memory);
        }
    }
    Ok(ranges)
}
