//! What cuts are sought for, and whether they are useful.

/// A round is poor if it closes less than this fraction, 1 / 100, of the gap between the bound and the best
/// map. A greater number allows longer rounds that gain little. No trial of this number is recorded.
const LEAST_GAIN: u64 = 100;

/// Cuts are useful if they close this many hundredths of the gap between the bound without them and the best
/// map. At a half, some wide regions continued without cuts (docs/HISTORY.md, "A local search, turns by bounds,
/// and tied events as one").
const LEAST_SHARE: u64 = 25;

/// Cuts are useful, too, if they leave a gap of at most this many hundredths of the best map's cost
/// (docs/HISTORY.md, "Rounds a period too wide").
const MOST_LEFT: u64 = 10;

/// No cuts are sought if the gap is at most this fraction, 1 / 64, of the bound: they take time, and little is
/// left to gain. No trial of this number is recorded.
const LEAST_GAP: u64 = 64;

/// What is known of the least cost when cuts are sought.
#[derive(Clone, Copy)]
pub(crate) struct Aim {
    // The cost of the best known map.
    pub(crate) best: Option<u64>,
    // Only maps that cost less are useful.
    pub(crate) cap: u64,
    // A lower bound on all costs, known without cuts.
    pub(crate) floor: u64,
}

impl Aim {
    /// The aim if a map of this cost is known to have least cost.
    pub(crate) fn at(cost: u64) -> Aim {
        Aim {
            best: Some(cost),
            cap: cost,
            floor: 0,
        }
    }
}

/// An interval that contains the least cost, as far as is known.
#[derive(Clone, Copy)]
pub(crate) struct Estimate {
    // No map costs less.
    pub(crate) bound: u64,
    // The cost of the best known map, or 9 / 8 of the bound if none is known; at most the cap.
    top: u64,
    // The lower bound that was known without cuts.
    floor: u64,
}

impl Estimate {
    /// The estimate from a bound, and from the cost of a map if there is one.
    pub(crate) fn of(bound: u64, cost: Option<u64>, aim: Aim) -> Estimate {
        let top = match (cost, aim.best) {
            (Some(cost), Some(best)) => cost.min(best),
            (Some(cost), None) => cost,
            (None, Some(best)) => best,
            (None, None) => bound.saturating_add(bound / 8),
        };
        Estimate {
            bound,
            top: top.min(aim.cap),
            floor: aim.floor,
        }
    }

    /// The same estimate, with a map of this cost known too.
    pub(crate) fn with_best(self, best: Option<u64>) -> Estimate {
        let top = self.top.min(best.unwrap_or(self.top));
        Estimate { top, ..self }
    }

    /// Whether to seek the first cuts.
    pub(crate) fn wants_cuts(self) -> bool {
        let gap = self.top.saturating_sub(self.bound);
        self.bound == 0 || self.bound < gap.saturating_mul(LEAST_GAP)
    }

    /// Whether to seek more cuts after a round with this gain, if this number of rounds is left.
    pub(crate) fn wants_more(self, gain: u64, rounds: u64) -> bool {
        let gap = self.top.saturating_sub(self.bound);
        let gains = gain.saturating_mul(rounds);
        0 < gap && gap <= gain.saturating_mul(LEAST_GAIN) && self.is_near(gains)
    }

    /// Whether the bound would be near the cost of the best map if it rose by `more`.
    pub(crate) fn is_near(self, more: u64) -> bool {
        let bound = self.bound.saturating_add(more);
        let gain = bound.saturating_sub(self.floor);
        let gap = self.top.saturating_sub(self.floor);
        let left = self.top.saturating_sub(bound);
        gap.saturating_mul(LEAST_SHARE) <= gain.saturating_mul(100)
            || left.saturating_mul(100) <= self.top.saturating_mul(MOST_LEFT)
    }
}
