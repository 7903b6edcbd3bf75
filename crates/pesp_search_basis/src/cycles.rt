//! Cycles.

use crate::candidates::{narrowest, shortest};
use crate::forest::Forest;
use crate::graph::Graph;
use crate::growth::add;
use crate::link::{Idle, links_of};
use crate::parts::Parts;
use crate::roots::roots_of;
use crate::ways::Ways;
use pesp_base::{Memory, Period};
use pesp_search_graph::{Arc, Step};
use std::alloc::Global;

/// The work of a node, or of an end of an arc, in a shortest-path search: each goes through a heap. It only
/// affects how fast a budget is spent; no trial of this number is recorded.
const WAY_WORK: u64 = 12;

/// The cyclomatic number: arcs less nodes plus parts.
///
/// Loops and idle arcs do not count. An idle arc constrains nothing and costs nothing: its width is the period
/// less 1, its weight 0.
pub fn cycle_count(
    alloc: Global,
    period: Period,
    nodes: usize,
    arcs: &[Arc],
) -> Result<usize, Memory> {
    let mut parts = Parts::new(alloc, nodes)?;
    let mut count = 0usize;
    for link in &links_of(alloc, period, nodes, arcs, Idle::LeftOut)? {
        if let Some(link) = link {
            if !parts.join(link.from, link.to) {
                count = count.saturating_add(1);
            }
        }
    }
    Ok(count)
}

/// A fundamental cycle basis: each arc outside a spanning forest of least width with its path through the
/// forest, narrow arcs first.
///
/// Each step starts where the one before it ends, and the first where the last ends. A cycle visits no node
/// twice.
pub fn tree_cycles(
    alloc: Global,
    period: Period,
    nodes: usize,
    arcs: &[Arc],
) -> Result<Vec<Vec<Step>>, Memory> {
    let links = links_of(alloc, period, nodes, arcs, Idle::LeftOut)?;
    let (ways, outside) = Forest::new(alloc, nodes, links.as_slice())?.into_ways(alloc, nodes)?;
    let graph = Graph::new(alloc, nodes, links)?;
    let mut cycles = Vec::new(alloc);
    for arc in &outside {
        let mut steps = Vec::new(alloc);
        ways.write_cycle(&graph, *arc, &mut steps)?;
        add(&mut cycles, steps)?;
    }
    Ok(cycles)
}

/// The shortest paths from each root, and last those in the forest. Roots are enough, and fewer than all nodes
/// (docs/HISTORY.md, "What the search could do without").
fn all_ways(
    alloc: Global,
    graph: &Graph,
    by_forest: Ways,
    work: &mut u64,
) -> Result<Vec<Ways>, Memory> {
    let mut all = Vec::new(alloc);
    for root in &roots_of(alloc, graph)? {
        let mut ways = Ways::none(alloc, graph.nodes())?;
        ways.reach(alloc, graph, *root, &[])?;
        let queued = graph.size().saturating_add(graph.nodes()) as u64;
        *work = work.saturating_add(queued.saturating_mul(WAY_WORK));
        add(&mut all, ways)?;
    }
    add(&mut all, by_forest)?;
    Ok(all)
}

/// A cycle basis of narrow cycles, in total no wider than that of a forest.
///
/// This is Horton's algorithm: each candidate is an arc with the shortest paths to its ends from one of the
/// roots, which together meet every cycle. Candidates are taken in ascending order, unless they are sums of
/// others modulo 2. A unit of width adds 1,000 to the length of a path, a step adds one.
///
/// The work grows by one for each visited number of a row, and by a comparable amount for other steps.
pub fn narrow_cycles(
    alloc: Global,
    period: Period,
    nodes: usize,
    arcs: &[Arc],
    work: &mut u64,
) -> Result<Vec<Vec<Step>>, Memory> {
    let links = links_of(alloc, period, nodes, arcs, Idle::LeftOut)?;
    let (by_forest, outside) = Forest::new(alloc, nodes, links.as_slice())?.into_ways(
        alloc, nodes,
    )?;
    let graph = Graph::new(alloc, nodes, links)?;
    let all = all_ways(alloc, &graph, by_forest, work)?;
    shortest(alloc, &graph, outside.as_slice(), all.as_slice(), work)
}

/// The narrowest candidates, at most this number, whether or not they are sums of others.
pub fn candidate_cycles(
    alloc: Global,
    period: Period,
    nodes: usize,
    arcs: &[Arc],
    most: usize,
    work: &mut u64,
) -> Result<Vec<Vec<Step>>, Memory> {
    let links = links_of(alloc, period, nodes, arcs, Idle::LeftOut)?;
    let (by_forest, _) = Forest::new(alloc, nodes, links.as_slice())?.into_ways(alloc, nodes)?;
    let graph = Graph::new(alloc, nodes, links)?;
    let all = all_ways(alloc, &graph, by_forest, work)?;
    narrowest(alloc, &graph, all.as_slice(), most, work)
}
