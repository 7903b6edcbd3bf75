//! Where flip cuts are sought, and those that the optimal slacks there violate.

ghost use Rattle.std.specs.Prelude.{ℕ, List};
ghost use Rattle.pesp_search_network.specs.Arcs.{IsMet};
ghost use Rattle.pesp_search_cycles.specs.Maps.{numbers_of};
ghost use Rattle.pesp_search_cycles.specs.Ranges.{AreIn};

use crate::aim::Aim;
use crate::boxes::Boxes;
use crate::flip::{Flip, flip_cut};
use crate::graph::{Graph, units_of};
use crate::proposer::Proposer;
use crate::separate::separate;
use crate::{Cycles, Range, Walk};
use pesp_base::Memory;
use pesp_search_least::Budget;
use pesp_search_network::Network;
use std::alloc::Global;

/// The most narrow cycles that are tried. Cycles besides the walks count too: without them 200 wide events took
/// twice as long (docs/HISTORY.md, "What the search could do without"). No trial of this number is recorded.
const MOST_CANDIDATES: usize = 1_000;

/// The most cuts that a round adds. More raise the bound faster and make each pivot dearer. No trial of this
/// number is recorded.
const MOST_OF_ROUND: usize = 100;

/// Where cuts are sought: at the root node of a network.
#[derive(Drop)]
pub(crate) struct Site<'a> {
    // The network with its walks, without cuts.
    pub(crate) cycles: &'a Cycles<'a>,
    // One for each event.
    pub(crate) residues: &'a [Range],
    // The ranges of all variables.
    pub(crate) boxes: &'a Boxes,
    // What is known of the least cost.
    pub(crate) aim: Aim,
    ghost inside: { (xs : List ℕ) → IsMet cycles.now.network xs
        → AreIn boxes.now.numbers.items (numbers_of cycles.now.network xs) },
}

/// A candidate by index; the one with the greatest violation sorts first.
#[derive(Clone, Copy, PartialEq, Eq, PartialOrd, Ord)]
struct Rank {
    // The negated violation, below 0.
    kept: i64,
    // The index of the candidate.
    candidate: usize,
}

/// The walks to try: narrow cycles, if there are not too many.
pub(crate) fn candidates_of(
    alloc: Global,
    network: &Network,
    residues: &[Range],
    budget: &mut Budget,
) -> Result<Vec<Walk>, Memory> {
    let graph = Graph::of(alloc, network, residues)?;
    let mut work = 0;
    let walks = graph.candidates(alloc, network.period(), MOST_CANDIDATES, &mut work)?;
    budget.spend(units_of(work));
    Ok(walks)
}

/// Adds the cuts of flips to the tableau.
pub(crate) fn push_cuts(
    alloc: Global,
    site: &Site,
    flips: &[Flip],
    proposer: &mut Proposer,
) -> Result<(), Memory> {
    let network = site.cycles.network();
    for index in 0..flips.len() {
        let Some(cut) = flip_cut(alloc, site.cycles, &site.boxes.numbers, &flips[index]) else {
            continue;
        };
        proposer.push_cut(alloc, network, &cut, None)?;
    }
    Ok(())
}

/// The candidates whose cuts the tableau violates, the greatest violation first.
fn ranked(
    alloc: Global,
    site: &Site,
    proposer: &Proposer,
    candidates: &[Walk],
    work: &mut u64,
) -> Result<Vec<Rank>, Memory> {
    let mut ranks = Vec::new(alloc);
    for (candidate, walk) in candidates.iter().enumerate() {
        let steps = walk.steps.len() as u64;
        *work = work.saturating_add(steps.saturating_mul(steps).saturating_mul(2));
        if let Some((missing, _)) = separated(alloc, site, proposer, walk)? {
            let kept = missing.saturating_neg();
            if ranks.push(Rank { kept, candidate }).is_err() {
                return Err(Memory);
            }
        }
    }
    ranks.sort_unstable();
    Ok(ranks)
}

/// The flip of a walk with the greatest violation found, and that violation.
fn separated(
    alloc: Global,
    site: &Site,
    proposer: &Proposer,
    walk: &Walk,
) -> Result<Option<(i64, Flip)>, Memory> {
    let network = site.cycles.network();
    let (arcs, period) = (network.arcs(), network.period());
    separate(alloc, arcs, period, &site.boxes.numbers, proposer, walk)
}

/// The flips of the most violated cuts.
pub(crate) fn missed_by(
    alloc: Global,
    site: &Site,
    proposer: &Proposer,
    candidates: &[Walk],
    work: &mut u64,
) -> Result<Vec<Flip>, Memory> {
    let ranks = ranked(alloc, site, proposer, candidates, work)?;
    let mut flips = Vec::new(alloc);
    for (index, rank) in ranks.iter().enumerate() {
        if index == MOST_OF_ROUND {
            break;
        }
        let Some(walk) = candidates.get(rank.candidate) else {
            continue;
        };
        if let Some((_, flip)) = separated(alloc, site, proposer, walk)? {
            if flips.push(flip).is_err() {
                return Err(Memory);
            }
        }
    }
    Ok(flips)
}
