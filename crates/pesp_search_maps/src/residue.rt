//! Residues and slacks at a map.

ghost use Rattle.std.specs.Prelude.{◌<◌};

use pesp_base::{Period, slack};
use pesp_search_graph::Arc;

/// A node's residue; 0 if the map does not have the node.
pub(crate) fn residue_of(period: Period, map: &[u16], node: usize) -> u16
    ensures { result < period }
{
    match map.get(node) {
        // The comparison avoids a division, which takes longer.
        Some(residue) if *residue < period.get() => *residue,
        Some(residue) => *residue % period.get(),
        None => 0,
    }
}

/// The slack of an arc at a map.
pub(crate) fn slack_at(period: Period, map: &[u16], arc: &Arc) -> u16
    ensures { result < period }
{
    let from = residue_of(period, map, arc.from);
    let to = residue_of(period, map, arc.to);
    slack(period, arc.span, from, to)
}

/// The remainder of a number modulo the period.
pub(crate) fn remainder(period: Period, number: i64) -> u16
    ensures { result < period }
{
    number.rem_euclid(i64::from(period.get())) as u16
}

/// The residue later than another by this number.
pub(crate) fn residue_after(period: Period, residue: u16, by: i64) -> u16
    ensures { result < period }
{
    remainder(period, i64::from(residue).wrapping_add(by))
}

/// Turns the whole map so that the origin has residue 0, with each residue below the period.
pub(crate) fn settle(period: Period, map: &mut [u16], origin: Option<usize>) {
    let by = match origin {
        Some(origin) => 0 - i64::from(residue_of(period, map, origin)),
        None => 0,
    };
    for residue in map {
        *residue = residue_after(period, *residue, by);
    }
}
