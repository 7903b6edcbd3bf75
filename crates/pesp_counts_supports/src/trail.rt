//! Pairs by place.

/// A pair, by the place of its event, which fits 32 bits.
#[derive(Clone, Copy, Debug, PartialEq, Eq)]
pub struct Placed {
    pub place: u32,
    pub residue: u16,
}

/// Restored pairs, in the order in which they returned.
pub type Back = Vec<Placed>;
