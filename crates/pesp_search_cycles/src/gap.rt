//! Gaps of domains.

use crate::Range;

/// The last residue of a domain that is at most `at`.
fn last_below(row: &[bool], at: i64) -> Option<i64> {
    let mut last = None;
    for (index, is_there) in row.iter().enumerate() {
        let residue = index as i64;
        if *is_there && residue <= at {
            last = Some(residue);
        }
    }
    last
}

/// The first residue of a domain that is at least `at`.
fn first_above(row: &[bool], at: i64) -> Option<i64> {
    for (index, is_there) in row.iter().enumerate() {
        let residue = index as i64;
        if *is_there && at <= residue {
            return Some(residue);
        }
    }
    None
}

/// The end of the lower half if a range is split at the gap of its domain around the residue; none if the
/// domain contains the residue.
pub(crate) fn gap_at(row: &[bool], range: Range, residue: i64) -> Option<i64> {
    let next = first_above(row, residue);
    if next == Some(residue) {
        return None;
    }
    match next {
        Some(next) if next <= range.high => next.checked_sub(1),
        _ => last_below(row, residue),
    }
}
