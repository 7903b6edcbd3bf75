//! The turns of a search.

use crate::graph::Basis;
use pesp_search_least::Budget;

/// The cycles of a tree come first, with this many times the units that finding narrow cycles takes: a share
/// that does not depend on the limit (docs/DECISIONS.md, "Search"). No trial of this number is recorded.
const TREE_SHARE: u64 = 4;

/// The units of the first turn by narrow cycles: a third of a second, enough for most networks (some 18 us a
/// unit: docs/HISTORY.md, "Searches that restarted").
const FIRST_UNITS: u64 = 20_000;

/// A search whose bound is no worse than the other's gets a turn longer by this fraction, 1 / 4, than the
/// longer of both searches' last turns. No trial of this number is recorded.
const LONGER: u64 = 4;

/// The other search gets this fraction of that turn, 1 / 8: with equal turns a network took twice as long
/// (docs/HISTORY.md, "Rounds a period too wide").
const SHORTER: u64 = 8;

/// A turn, and how much of it is left. Its length does not depend on a budget, so a search with a larger budget
/// starts with the same work as one with a smaller budget.
#[derive(Clone, Copy)]
pub(crate) struct Turn {
    // The cycle basis of this turn.
    pub(crate) basis: Basis,
    // The units of the turn; none if it is unlimited.
    pub(crate) given: Option<u64>,
    // The units left; none if it is unlimited.
    pub(crate) units: Option<u64>,
}

fn longer(units: u64) -> u64 {
    units.saturating_add(units / LONGER)
}

impl Turn {
    fn of(basis: Basis, given: Option<u64>) -> Turn {
        Turn {
            basis,
            given,
            units: given,
        }
    }

    /// The first turn of a search, if finding narrow cycles takes these units; none means too many cycles.
    /// Without a limit it uses narrow cycles at once.
    pub(crate) fn first(narrow: Option<u64>, budget: &Budget) -> Turn {
        match (narrow, budget.left) {
            (None, _) => Turn::of(Basis::Tree, None),
            (Some(_), None) => Turn::narrow(),
            (Some(units), Some(_)) => {
                Turn::of(Basis::Tree, Some(units.saturating_mul(TREE_SHARE)))
            }
        }
    }

    /// Whether it uses the cycles of a tree.
    pub(crate) fn is_by_tree(self) -> bool {
        !self.basis.is_narrow()
    }

    /// The first turn by narrow cycles.
    pub(crate) fn narrow() -> Turn {
        Turn::of(Basis::Narrow, Some(FIRST_UNITS))
    }

    /// The same turn with nothing left.
    pub(crate) fn ended(self) -> Turn {
        Turn {
            units: Some(0),
            ..self
        }
    }

    /// The same turn from its start.
    pub(crate) fn again(self) -> Turn {
        Turn::of(self.basis, self.given)
    }

    /// The next turn after the longer of two, for a search whose bound is worse than the other's or not.
    pub(crate) fn after_both(self, other: Turn, is_worse: bool) -> Turn {
        let given = match (self.given, other.given) {
            (Some(one), Some(other)) if is_worse => Some(one.max(other) / SHORTER),
            (Some(one), Some(other)) => Some(longer(one.max(other))),
            _ => None,
        };
        Turn::of(self.basis, given)
    }

    /// A longer turn.
    pub(crate) fn longer(self) -> Turn {
        let given = match self.given {
            Some(given) => Some(longer(given)),
            None => None,
        };
        Turn::of(self.basis, given)
    }

    /// The same turn after spending these units.
    pub(crate) fn after(self, units: u64) -> Turn {
        let units = match self.units {
            Some(left) => Some(left.saturating_sub(units)),
            None => None,
        };
        Turn { units, ..self }
    }
}
