//! Ranges of whole numbers.

ghost use Rattle.std.specs.Prelude.{◌≡◌, ℕ, ℤ, ◌+◌, ◌<◌, ◌≤◌, ◌↔◌, pos, neg_ℤ, ◌+ℤ◌, ◌≤ℤ◌, ◌<ℤ◌, IfNone, IfSome, MatchBool};
ghost use Rattle.pesp_search_cycles.specs.Ranges.{IsHalved, IsIn, IsMultiple, least_product, width};

use pesp_base::Period;

/// The whole numbers from `low` to `high`.
#[derive(Clone, Copy)]
pub struct Range {
    // The least number.
    pub low: i64,
    // The greatest number; below `low` if the range is empty.
    pub high: i64,
}

/// The two halves of a range.
#[derive(Clone, Copy)]
pub(crate) struct Halves {
    // Narrower than the range; after `swapped` it has the greater numbers.
    pub(crate) below: Range,
    // Narrower than the range, too.
    pub(crate) above: Range,
}

/// The greatest multiple of the step that is at most `at`.
pub(crate) fn whole_below(at: i64, step: u16) -> Option<i64>
    requires { 0 < step }
    ensures whole { IfSome result (IsMultiple step) }
    ensures below { IfSome result (λ whole. whole ≤ℤ at) }
    ensures near { IfSome result (λ whole. at <ℤ (whole +ℤ pos step)) }
{
    let whole = at.checked_sub(at.rem_euclid(i64::from(step)))?;
    Some(whole)
}

impl Halves {
    /// The same halves in the other order.
    pub(crate) fn swapped(self) -> Halves
        ensures { (step : ℕ) (range : Range) → IsHalved step range self → IsHalved step range result }
    {
        Halves {
            below: self.above,
            above: self.below,
        }
    }
}

impl Range {
    /// The least product of the rate and a number of the range, if it fits.
    pub(crate) fn least_product(self, rate: i64) -> Option<i64>
        ensures { IfSome result (λ least. least ≡ least_product rate self) }
    {
        if rate >= 0 {
            rate.checked_mul(self.low)
        } else {
            rate.checked_mul(self.high)
        }
    }

    /// The numbers up to `at`, and those from `next` on, if both are fewer.
    fn cut(self, at: i64, next: i64, step: u16) -> Option<Halves>
        requires some { 0 < step }
        requires at { IsMultiple step at }
        requires next { next ≡ at +ℤ pos step }
        ensures some { IfSome result (IsHalved step self) }
        ensures none { IfNone result (self.low ≤ℤ at → self.high ≤ℤ at) }
    {
        if self.low > at || at >= self.high {
            return None;
        }
        Some(Halves {
            below: Range {
                low: self.low,
                high: at,
            },
            above: Range {
                low: next,
                high: self.high,
            },
        })
    }

    /// The least number and the others, if there are others.
    pub(crate) fn without_least(self) -> Option<Halves>
        ensures some { IfSome result (IsHalved 1 self) }
        ensures none { IfNone result (self.high ≤ℤ self.low) }
    {
        let next = self.low.checked_add(1)?;
        self.cut(self.low, next, 1)
    }

    /// The numbers up to the greatest multiple of the step that is at most `at`, and those from the next
    /// multiple on, if both are fewer.
    pub(crate) fn cut_at(self, at: i64, step: u16) -> Option<Halves>
        requires { 0 < step }
        ensures { IfSome result (IsHalved step self) }
    {
        let at = whole_below(at, step)?;
        let next = at.checked_add(i64::from(step))?;
        self.cut(at, next, step)
    }

    /// About half of the multiples of the step each, if there are several.
    pub(crate) fn halved(self, step: u16) -> Option<Halves>
        requires { 0 < step }
        ensures { IfSome result (IsHalved step self) }
    {
        let half = self.high.checked_sub(self.low)? / 2;
        self.cut_at(self.low.checked_add(half)?, step)
    }

    /// The range from its first to its last multiple of the step.
    pub(crate) fn rounded(self, step: u16) -> Option<Range>
        requires { 0 < step }
        ensures inside { IfSome result (λ range. (z : ℤ) → IsMultiple step z → IsIn self z → IsIn range z) }
        ensures narrow { IfSome result (λ range. width range ≤ width self) }
    {
        let low = whole_below(self.low.checked_add(i64::from(step) - 1)?, step)?;
        let high = whole_below(self.high, step)?;
        Some(Range { low, high })
    }

    /// The sums of a number of each range.
    pub(crate) fn plus(self, other: Range) -> Option<Range>
        ensures inside { IfSome result (λ sum. (y z : ℤ) → IsIn self y → IsIn other z → IsIn sum (y +ℤ z)) }
        ensures narrow { IfSome result (λ sum. width sum ≤ width self + width other) }
    {
        let low = self.low.checked_add(other.low)?;
        let high = self.high.checked_add(other.high)?;
        Some(Range { low, high })
    }

    /// The negated numbers.
    pub(crate) fn negated(self) -> Option<Range>
        ensures inside { IfSome result (λ range. (z : ℤ) → IsIn self z → IsIn range (neg_ℤ z)) }
        ensures narrow { IfSome result (λ range. width range ≤ width self) }
    {
        let low = self.high.checked_neg()?;
        let high = self.low.checked_neg()?;
        Some(Range { low, high })
    }

    /// The single number of the range, if it is a residue.
    pub(crate) fn only(self, period: Period) -> Option<u16>
        ensures { IfSome result (λ only. (only < period)
            × ((x : ℕ) → IsIn self (pos x) → x ≡ only)) }
    {
        if self.low != self.high || self.low < 0 || self.low >= i64::from(period.get()) {
            return None;
        }
        Some(self.low as u16)
    }

    /// The numbers below a residue.
    pub(crate) fn below(self, residue: u16) -> Range
        ensures { (x : ℕ) → IsIn result (pos x) ↔ (IsIn self (pos x) × (x < residue)) }
    {
        Range {
            low: self.low,
            high: self.high.min(i64::from(residue) - 1),
        }
    }

    /// The residue alone, if the range contains it.
    pub(crate) fn at(self, residue: u16) -> Range
        ensures { (x : ℕ) → IsIn result (pos x) ↔ (IsIn self (pos x) × (x ≡ residue)) }
    {
        Range {
            low: self.low.max(i64::from(residue)),
            high: self.high.min(i64::from(residue)),
        }
    }

    /// The intersection.
    pub(crate) fn both(self, other: Range) -> Range
        ensures { (z : ℤ) → IsIn result z ↔ (IsIn self z × IsIn other z) }
    {
        Range {
            low: self.low.max(other.low),
            high: self.high.min(other.high),
        }
    }

    /// Whether the range contains the number.
    pub(crate) fn has(self, number: i64) -> bool
        ensures { MatchBool result (IsIn self number) (IsIn self number → ⊥) }
    {
        self.low <= number && number <= self.high
    }
}
