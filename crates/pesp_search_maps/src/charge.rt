//! The objective of a local search.

/// The violation and the cost of a map. Charges compare by violation first, then by cost.
///
/// They are two numbers, not a weighted sum, so that great weights fit in 64 bits (docs/DECISIONS.md, "A search
/// by cycles"). The violation of an arc is the distance of its slack to the nearer end of its span.
#[derive(Clone, Copy, Debug, PartialEq, Eq, PartialOrd, Ord)]
pub struct Charge {
    /// The total violation, in units of time.
    pub excess: i64,
    /// The total of slacks times weights, including slacks outside the spans.
    pub cost: i64,
}

impl Charge {
    /// The charge of a feasible map without cost, and the change by no move.
    pub(crate) const NONE: Charge = Charge { excess: 0, cost: 0 };

    pub(crate) fn add(&mut self, other: Charge) {
        self.excess = self.excess.wrapping_add(other.excess);
        self.cost = self.cost.wrapping_add(other.cost);
    }

    /// The difference to another charge.
    pub(crate) fn difference(self, other: Charge) -> Charge {
        Charge {
            excess: self.excess.wrapping_sub(other.excess),
            cost: self.cost.wrapping_sub(other.cost),
        }
    }
}
