//! Rows as lines.

use pesp_base::EventId;
use pesp_domains::{Keeper, Row};

/// Events and activities with numbers below this are printed. It bounds the output; no measurement
/// chose it.
pub(crate) const NUMBERS: u32 = 8;

/// The mark of a residue by a row and its keeper: a question mark if they differ.
fn mark(row: Option<&Row>, residue: u16, holds: bool) -> &'static str {
    match row {
        None if !holds => "-",
        Some(row) if row.holds(residue) && holds => "#",
        Some(row) if !row.holds(residue) && !holds => ".",
        _ => "?",
    }
}

fn tell_row<K: Keeper>(rt: &impl Print, keeper: &K, event: EventId) {
    let row = keeper.row(event);
    let _ = print!(rt; "row {} {} ", event.get(), row.map_or(0, |row| row.len()));
    for residue in 0..keeper.instance().period().get() {
        let _ = rt.print(mark(row, residue, keeper.holds(event, residue)));
    }
    let _ = rt.println("");
}

/// A line for each number of an event: the number of residues in its row, and a mark for each
/// residue.
pub(crate) fn tell<K: Keeper>(rt: &impl Print, keeper: &K) {
    for number in 0..NUMBERS {
        if let Some(event) = EventId::new(number) {
            tell_row(rt, keeper, event);
        }
    }
}
