//! The most promising split.

use super::Proposer;
use pesp_base::Period;
use pesp_search_simplex::PARTS;

/// Gains, and positions between two multiples of the period, are in units of 1 / `UNIT`.
const UNIT: i64 = 256;

/// The walk to split, and where.
#[derive(Clone, Copy)]
pub(crate) struct Proposal {
    // The index of the walk.
    pub(crate) walk: usize,
    // The time at which its round is split, a multiple of the period.
    pub(crate) at: i64,
    // Whether the half with the greater round comes first: the nearer one, without which 200 wide events took
    // over 4 s instead of 0.7 (docs/HISTORY.md, "What the search could do without").
    pub(crate) is_above_first: bool,
}

/// The score of a split by the gains of both halves (the product rule): without it, 200 narrow events took ten
/// times as long (docs/HISTORY.md, "What the search could do without"). With an eighth added to both gains, a
/// split with one gain of 0 still ranks by the other.
fn score(down: i64, up: i64) -> i64 {
    down.saturating_add(UNIT / 8)
        .saturating_mul(up.saturating_add(UNIT / 8))
}

impl Proposer {
    /// The score of a split of a walk, if its round is between two multiples of the period.
    fn value_of(&self, walk: usize, period: i64) -> Option<(i64, Proposal)> {
        let number = self.number_of(walk);
        if !self.tableau.is_basic(number) {
            return None;
        }
        let base = (*self.bases.get(walk)?)?.saturating_mul(PARTS);
        let time = self.tableau.value(number).saturating_add(base);
        let whole = period.saturating_mul(PARTS);
        if whole <= 0 {
            return None;
        }
        let rest = time.rem_euclid(whole);
        if rest == 0 {
            return None;
        }
        let at = (time.saturating_sub(rest)) / PARTS;
        let part = (rest.saturating_mul(UNIT) / whole).clamp(1, UNIT - 1);
        let steps = self.tableau.steps(number, UNIT);
        let down = steps.down.saturating_mul(period.saturating_mul(part)) / UNIT;
        let up = steps.up.saturating_mul(period.saturating_mul(UNIT - part)) / UNIT;
        let proposal = Proposal {
            walk,
            at,
            is_above_first: part > UNIT / 2,
        };
        Some((score(down, up), proposal))
    }

    /// The most promising split, if the round of some walk is between two multiples of the period.
    pub(crate) fn split(&self, period: Period) -> Option<Proposal> {
        let mut best = None;
        let mut most = -1;
        for walk in 0..self.bases.len() {
            if let Some((value, proposal)) = self.value_of(walk, i64::from(period.get())) {
                if value > most {
                    most = value;
                    best = Some(proposal);
                }
            }
        }
        best
    }

    /// Whether the round of each walk is a multiple of the period.
    pub(crate) fn is_whole(&self, period: Period) -> bool {
        for walk in 0..self.bases.len() {
            if self.value_of(walk, i64::from(period.get())).is_some() {
                return false;
            }
        }
        true
    }
}
