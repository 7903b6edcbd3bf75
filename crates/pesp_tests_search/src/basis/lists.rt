//! Growing vectors.

use pesp_base::Memory;
use std::alloc::Global;

/// Appends an item.
pub(crate) fn add<T: Drop>(list: &mut Vec<T>, item: T) -> Result<(), Memory> {
    match list.push(item) {
        Ok(()) => Ok(()),
        Err(_) => Err(Memory),
    }
}

/// A list of copies of an item.
pub(crate) fn repeated<T: Copy + Drop>(
    alloc: Global,
    item: T,
    count: usize,
) -> Result<Vec<T>, Memory> {
    let mut items = Vec::new(alloc);
    for _more in 0..count {
        add(&mut items, item)?;
    }
    Ok(items)
}
