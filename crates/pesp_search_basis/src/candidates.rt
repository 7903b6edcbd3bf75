//! Candidates.

use crate::graph::Graph;
use crate::growth::{add, copy_of};
use crate::space::Space;
use crate::ways::Ways;
use pesp_base::Memory;
use pesp_search_graph::Step;
use std::alloc::Global;

/// The work of a step, as a number of visited numbers: a step reads several arrays. It only affects how fast a
/// budget is spent; no trial of this number is recorded.
const STEP_WORK: u64 = 4;

/// The work of a candidate besides its steps, in steps: candidates are sorted.
const CANDIDATE_STEPS: u64 = 4;

/// An odd number with mixed bits (2^64 divided by the golden ratio), for hashing.
const MIXER: u64 = 11_400_714_819_323_198_485;

/// The cycle of an arc and the shortest paths to its ends, from where these diverge.
#[derive(Clone, Copy, PartialEq, Eq, PartialOrd, Ord)]
struct Candidate {
    // The first field, so that shorter candidates sort first.
    length: u64,
    // The number of steps of both paths, from where they diverge.
    steps: usize,
    // The index of the root's shortest paths.
    ways: usize,
    // An arc on neither of the two paths.
    arc: usize,
}

/// Adds the work of steps.
fn bill(work: &mut u64, steps: u64) {
    *work = work.saturating_add(steps.saturating_mul(STEP_WORK));
}

/// The candidate of an arc and the shortest paths of one root.
fn candidate_of(ways: &Ways, graph: &Graph, index: usize, arc: usize) -> Option<Candidate> {
    let link = graph.link(arc)?;
    if ways.last(link.from) == Some(arc) || ways.last(link.to) == Some(arc) {
        return None;
    }
    let (fork, steps) = ways.fork(graph, link.from, link.to)?;
    let both = ways.length(link.from).saturating_add(ways.length(link.to));
    let common = ways.length(fork).saturating_mul(2);
    Some(Candidate {
        length: both.saturating_sub(common).saturating_add(link.length),
        steps,
        ways: index,
        arc,
    })
}

/// All candidates, the shortest first.
fn candidates_of(
    alloc: Global,
    graph: &Graph,
    all: &[Ways],
    work: &mut u64,
) -> Result<Vec<Candidate>, Memory> {
    let mut candidates = Vec::new(alloc);
    for (index, ways) in all.iter().enumerate() {
        for arc in 0..graph.arcs() {
            if let Some(candidate) = candidate_of(ways, graph, index, arc) {
                let steps = (candidate.steps as u64).saturating_add(CANDIDATE_STEPS);
                bill(work, steps);
                add(&mut candidates, candidate)?;
            }
        }
    }
    candidates.sort_unstable();
    Ok(candidates)
}

/// The shortest linearly independent candidates, one for each link outside a spanning forest.
pub(crate) fn shortest(
    alloc: Global,
    graph: &Graph,
    outside: &[usize],
    all: &[Ways],
    work: &mut u64,
) -> Result<Vec<Vec<Step>>, Memory> {
    let mut space = Space::new(alloc, graph.arcs(), outside)?;
    let mut cycles = Vec::new(alloc);
    let mut steps = Vec::new(alloc);
    for candidate in &candidates_of(alloc, graph, all, work)? {
        if cycles.len() == outside.len() {
            return Ok(cycles);
        }
        if let Some(ways) = all.get(candidate.ways) {
            ways.write_cycle(graph, candidate.arc, &mut steps)?;
            bill(work, (steps.len() as u64).saturating_mul(2));
            if space.adds(steps.as_slice(), work)? {
                add(&mut cycles, copy_of(&steps)?)?;
            }
        }
    }
    Ok(cycles)
}

/// A hash of a cycle that does not depend on where it starts. Different cycles seldom have the same one.
fn mark_of(steps: &[Step]) -> u64 {
    let mut mark: u64 = 0;
    for step in steps {
        let arc = (step.arc as u64).wrapping_add(1);
        let mixed = arc.wrapping_mul(MIXER);
        mark = mark.wrapping_add((mixed ^ (mixed >> 29)).wrapping_mul(MIXER));
    }
    mark
}

/// The shortest candidates, at most `most`, without duplicates.
pub(crate) fn narrowest(
    alloc: Global,
    graph: &Graph,
    all: &[Ways],
    most: usize,
    work: &mut u64,
) -> Result<Vec<Vec<Step>>, Memory> {
    let mut cycles = Vec::new(alloc);
    let mut steps = Vec::new(alloc);
    // The hashes of the kept cycles of the current length: only these can be duplicates.
    let mut marks = Vec::new(alloc);
    let mut length = 0;
    for candidate in &candidates_of(alloc, graph, all, work)? {
        if cycles.len() == most {
            return Ok(cycles);
        }
        let Some(ways) = all.get(candidate.ways) else {
            continue;
        };
        ways.write_cycle(graph, candidate.arc, &mut steps)?;
        bill(work, steps.len() as u64);
        if candidate.length != length {
            length = candidate.length;
            marks.clear();
        }
        let mark = mark_of(steps.as_slice());
        if !marks.contains(&mark) {
            add(&mut marks, mark)?;
            add(&mut cycles, copy_of(&steps)?)?;
        }
    }
    Ok(cycles)
}
