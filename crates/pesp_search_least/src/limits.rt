//! The sums that a search looks for.

/// A known lower bound on all sums, and the cap below which sums are looked for.
#[derive(Clone, Copy)]
pub struct Limits {
    /// No sum is below this.
    pub floor: u64,
    /// Only sums below this are looked for.
    pub cap: u64,
}
