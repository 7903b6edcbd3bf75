//! Arrays of indices.

use pesp_base::Memory;

/// The sentinel for no index.
pub(crate) const NONE: usize = usize::MAX;

/// The entry at an index; the fallback if there is none.
pub(crate) fn number_at(numbers: &[usize], index: usize, fallback: usize) -> usize {
    match numbers.get(index) {
        Some(number) => *number,
        None => fallback,
    }
}

pub(crate) fn put(numbers: &mut [usize], index: usize, number: usize) {
    if let Some(old) = numbers.get_mut(index) {
        *old = number;
    }
}

/// Fills a vector with copies of a number, and reuses its room.
pub(crate) fn refill(numbers: &mut Vec<usize>, length: usize, number: usize) -> Result<(), Memory> {
    numbers.clear();
    match numbers.resize(length, number) {
        Ok(()) => Ok(()),
        Err(_) => Err(Memory),
    }
}

pub(crate) fn append<T: Drop>(row: &mut Vec<T>, value: T) -> Result<(), Memory> {
    match row.push(value) {
        Ok(()) => Ok(()),
        Err(_) => Err(Memory),
    }
}
