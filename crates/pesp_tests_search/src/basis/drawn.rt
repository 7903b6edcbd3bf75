//! Cycles and paths of random networks.

use crate::basis::lists::{add, repeated};
use crate::basis::short::{Short, arcs_of, end_of, ends_of, period, width_of};
use pesp_base::{Memory, Period};
use pesp_search_basis::{cycle_count, narrow_cycles, tree_cycles, way};
use pesp_search_graph::{Arc, Step};
use std::alloc::Global;
use std::process::Abort;
use std::test::Fail;

/// The number of random networks.
const DRAWN: usize = 300;

/// A pseudorandom generator.
#[derive(Drop)]
struct Draws {
    // Any number; each draw computes the next one from it.
    state: u64,
}

impl Draws {
    /// A number below `end`.
    fn below(&mut self, end: u64) -> u64 {
        self.state = self
            .state
            .wrapping_mul(6364136223846793005)
            .wrapping_add(1442695040888963407);
        (self.state >> 33).checked_rem(end).unwrap_or(0)
    }

    /// The number of nodes of a network.
    fn nodes(&mut self) -> usize {
        (self.below(12) as usize).saturating_add(1)
    }

    /// An arc between nodes, sometimes a loop or idle.
    fn arc(&mut self, nodes: usize) -> Short {
        let from = self.below(nodes as u64) as usize;
        let to = self.below(nodes as u64) as usize;
        let width = (self.below(10) & 15) as u16;
        (from, to, width, (self.below(2) & 1) as u32)
    }

    fn network(&mut self, alloc: Global, nodes: usize) -> Result<Vec<Short>, Memory> {
        let mut network = Vec::new(alloc);
        for _arc in 0..self.below(30) {
            let arc = self.arc(nodes);
            add(&mut network, arc)?;
        }
        Ok(network)
    }

    /// For each node whether it is wanted; few are.
    fn flags(&mut self, alloc: Global, nodes: usize) -> Result<Vec<bool>, Memory> {
        let mut flags = Vec::new(alloc);
        for _node in 0..nodes {
            let is_wanted = self.below(6) == 0;
            add(&mut flags, is_wanted)?;
        }
        Ok(flags)
    }
}

/// Whether a walk is closed and visits no node twice.
fn is_cycle(alloc: Global, nodes: usize, arcs: &[Arc], steps: &[Step]) -> Result<bool, Memory> {
    let mut was_there = repeated(alloc, false, nodes)?;
    for step in steps {
        let Some((begin, _)) = ends_of(arcs, *step) else {
            return Ok(false);
        };
        match was_there.get_mut(begin) {
            Some(mark) if !*mark => *mark = true,
            _ => return Ok(false),
        }
    }
    let Some(first) = steps.first() else {
        return Ok(false);
    };
    let Some((begin, _)) = ends_of(arcs, *first) else {
        return Ok(false);
    };
    Ok(end_of(arcs, begin, steps) == Some(begin))
}

/// Whether all walks are cycles.
fn are_cycles(
    alloc: Global,
    nodes: usize,
    arcs: &[Arc],
    cycles: &[Vec<Step>],
) -> Result<bool, Memory> {
    for steps in cycles {
        if !is_cycle(alloc, nodes, arcs, steps.as_slice())? {
            return Ok(false);
        }
    }
    Ok(true)
}

/// Adds one row to another modulo 2, if that one contains the column.
fn add_row(row: &mut [bool], other: &[bool], column: usize) {
    if row.get(column).copied().unwrap_or(false) {
        for (bit, more) in row.iter_mut().zip(other) {
            *bit = *bit != *more;
        }
    }
}

/// For each arc whether a walk passes it.
fn row_of(alloc: Global, arcs: usize, steps: &[Step]) -> Result<Vec<bool>, Memory> {
    let mut row = repeated(alloc, false, arcs)?;
    for step in steps {
        if let Some(bit) = row.get_mut(step.arc) {
            *bit = !*bit;
        }
    }
    Ok(row)
}

/// Whether no walk is a sum of others modulo 2.
fn are_independent(alloc: Global, arcs: usize, walks: &[Vec<Step>]) -> Result<bool, Memory> {
    let mut rows: Vec<(usize, Vec<bool>)> = Vec::new(alloc);
    for steps in walks {
        let mut row = row_of(alloc, arcs, steps.as_slice())?;
        for (column, other) in &rows {
            add_row(row.as_mut_slice(), other.as_slice(), *column);
        }
        let Some(column) = row.iter().position(|bit| *bit) else {
            return Ok(false);
        };
        add(&mut rows, (column, row))?;
    }
    Ok(true)
}

/// The total width of walks.
fn width_of_all(period: Period, arcs: &[Arc], walks: &[Vec<Step>]) -> u64 {
    let mut sum = 0u64;
    for steps in walks {
        sum = sum.saturating_add(width_of(period, arcs, steps.as_slice()));
    }
    sum
}

/// The fault of a network's cycles, if there is one.
fn fault_of(
    alloc: Global,
    period: Period,
    nodes: usize,
    arcs: &[Arc],
) -> Result<Option<&'static str>, Memory> {
    let count = cycle_count(alloc, period, nodes, arcs)?;
    let tree = tree_cycles(alloc, period, nodes, arcs)?;
    let narrow = narrow_cycles(alloc, period, nodes, arcs, &mut 0)?;
    let mut widths = [0u64; 2];
    for (cycles, width) in [&tree, &narrow].into_iter().zip(widths.iter_mut()) {
        if cycles.len() != count {
            return Ok(Some("how many"));
        }
        if !are_cycles(alloc, nodes, arcs, cycles.as_slice())? {
            return Ok(Some("no cycle"));
        }
        if !are_independent(alloc, arcs.len(), cycles.as_slice())? {
            return Ok(Some("a sum of others"));
        }
        *width = width_of_all(period, arcs, cycles.as_slice());
    }
    if widths[0] < widths[1] {
        return Ok(Some("wider than a tree's"));
    }
    Ok(None)
}

/// The width of an arc; an idle one is wider than all others.
fn width_beside(period: Period, arc: &Arc) -> u64 {
    let width = u64::from(arc.width(period));
    if width == 9 && arc.weight.get() == 0 {
        width + 1000
    } else {
        width
    }
}

/// Relaxes an arc: neither end is farther than the other end and the arc.
fn relax(widths: &mut [u64], arc: &Arc, width: u64) {
    for (from, to) in [(arc.from, arc.to), (arc.to, arc.from)] {
        let by_arc = widths
            .get(from)
            .copied()
            .unwrap_or(u64::MAX)
            .saturating_add(width);
        if let Some(least) = widths.get_mut(to) {
            *least = by_arc.min(*least);
        }
    }
}

/// The width of a shortest path to the nearest wanted node.
fn least_width(
    alloc: Global,
    period: Period,
    arcs: &[Arc],
    from: usize,
    wanted: &[bool],
) -> Result<u64, Memory> {
    let mut widths = repeated(alloc, u64::MAX, wanted.len())?;
    if let Some(width) = widths.get_mut(from) {
        *width = 0;
    }
    for _node in wanted {
        for arc in arcs {
            relax(widths.as_mut_slice(), arc, width_beside(period, arc));
        }
    }
    let mut least = u64::MAX;
    for (width, is_wanted) in widths.iter().zip(wanted) {
        if *is_wanted {
            least = least.min(*width);
        }
    }
    Ok(least)
}

/// The width of a walk from a node to a wanted one.
fn width_of_way(
    period: Period,
    arcs: &[Arc],
    from: usize,
    wanted: &[bool],
    steps: &[Step],
) -> Option<u64> {
    let end = end_of(arcs, from, steps)?;
    if !wanted.get(end).copied().unwrap_or(false) {
        return None;
    }
    let mut sum = 0u64;
    for step in steps {
        sum = sum.saturating_add(width_beside(period, arcs.get(step.arc)?));
    }
    Some(sum)
}

/// Whether the path from the first node to a wanted one is a shortest one.
fn is_least(alloc: Global, period: Period, arcs: &[Arc], wanted: &[bool]) -> Result<bool, Memory> {
    let least = least_width(alloc, period, arcs, 0, wanted)?;
    match way(alloc, period, wanted.len(), arcs, 0, wanted)? {
        Some(steps) => Ok(width_of_way(period, arcs, 0, wanted, steps.as_slice()) == Some(least)),
        None => Ok(least == u64::MAX),
    }
}

fn assert_none(rt: &impl Abort, fault: Option<&'static str>) {
    assert_eq!(rt;
        fault.unwrap_or("none"),
        "none",
        "cycles of a drawn network"
    );
}

fn assert_least(rt: &impl Abort, is_least: bool) {
    assert!(rt; is_least, "a way in a drawn network");
}

#[test]
fn cycles_of_drawn_networks(rt: HostRuntime) -> Result<(), Fail> {
    let mut draws = Draws { state: 1 };
    for _network in 0..DRAWN {
        let nodes = draws.nodes();
        let network = draws.network(rt.alloc(), nodes)?;
        let arcs = arcs_of(rt.alloc(), network.as_slice())?;
        assert_none(
            &rt,
            fault_of(rt.alloc(), period(&rt), nodes, arcs.as_slice())?,
        );
    }
    Ok(())
}

#[test]
fn ways_in_drawn_networks(rt: HostRuntime) -> Result<(), Fail> {
    let mut draws = Draws { state: 2 };
    for _network in 0..DRAWN {
        let nodes = draws.nodes();
        let network = draws.network(rt.alloc(), nodes)?;
        let arcs = arcs_of(rt.alloc(), network.as_slice())?;
        let wanted = draws.flags(rt.alloc(), nodes)?;
        assert_least(
            &rt,
            is_least(rt.alloc(), period(&rt), arcs.as_slice(), wanted.as_slice())?,
        );
    }
    Ok(())
}
