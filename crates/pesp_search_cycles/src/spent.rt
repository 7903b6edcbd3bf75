//! The units spent of a budget.

ghost use Rattle.std.specs.Prelude.{◌≡◌, ℕ, Some};

/// The difference between what was left before and after.
pub(crate) fn spent_of(before: Option<u64>, after: Option<u64>) -> u64
    ensures all { (left : ℕ) → before ≡ Some left → after ≡ Some 0 → result ≡ left }
{
    match (before, after) {
        (Some(before), Some(after)) => before.saturating_sub(after),
        _ => 0,
    }
}
