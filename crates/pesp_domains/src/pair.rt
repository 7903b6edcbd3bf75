//! Pairs.

use pesp_base::EventId;

/// An event and a residue, which is below the period.
#[derive(Clone, Copy, Debug, PartialEq, Eq)]
pub struct Pair {
    pub event: EventId,
    pub residue: u16,
}
