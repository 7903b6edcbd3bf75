//! Spanning trees of a neighbourhood, in which all nodes outside are one.

use crate::chance::Chance;
use crate::current::Current;
use crate::neighbourhood::Neighbourhood;
use crate::numbers::{NONE, append, number_at, put, refill};
use crate::sets::Sets;
use pesp_base::Memory;
use std::alloc::Global;

/// An arc that the tree may use; the least comes first.
#[derive(Clone, Copy, PartialEq, Eq, PartialOrd, Ord)]
struct Candidate {
    // Whether its slack is neither 0 nor its width.
    is_between: bool,
    // The greatest slack of the arc.
    width: u16,
    // A random number that breaks ties, so that each pass has another tree.
    chance: u64,
    // Its nodes, by place in the neighbourhood; 0 is all nodes outside.
    one: usize,
    // The other node, in the same way.
    other: usize,
}

/// A branch of the tree, as seen from one of its nodes.
#[derive(Clone, Copy)]
struct Branch {
    // The node at the other end, by place in the neighbourhood.
    to: usize,
    // The index of the next branch of the same node; `NONE` after the last one.
    next: usize,
}

/// The branches of a spanning tree.
#[derive(Drop)]
pub(crate) struct Spanning {
    // The arcs, in the order in which they are tried.
    candidates: Vec<Candidate>,
    // The places that the branches join so far.
    sets: Sets,
    // For each place its first branch; `NONE` if it has none.
    firsts: Vec<usize>,
    // The branches, two for each arc of the tree.
    branches: Vec<Branch>,
}

impl Spanning {
    pub(crate) fn new(alloc: Global) -> Result<Spanning, Memory> {
        Ok(Spanning {
            candidates: Vec::new(alloc),
            sets: Sets::new(alloc, 0)?,
            firsts: Vec::new(alloc),
            branches: Vec::new(alloc),
        })
    }

    /// Chooses arcs at an end of their spans first, and of these the narrow ones.
    pub(crate) fn choose(
        &mut self,
        current: &Current,
        hood: &Neighbourhood,
        chance: &mut Chance,
    ) -> Result<(), Memory> {
        self.candidates.clear();
        for node in hood.members() {
            self.gather(current, hood, chance, *node)?;
        }
        self.candidates.sort_unstable();
        self.join(hood.members().len().saturating_add(1))
    }

    /// Collects the arcs at a node; an arc between members is collected only at its end.
    fn gather(
        &mut self,
        current: &Current,
        hood: &Neighbourhood,
        chance: &mut Chance,
        node: usize,
    ) -> Result<(), Memory> {
        for link in current.links.links_at(node) {
            let other = hood.place(link.other);
            if link.is_head || other == 0 {
                let candidate = Candidate {
                    is_between: !link.is_at_end(current.rise(node, link)),
                    width: link.width,
                    chance: chance.number(),
                    one: hood.place(node),
                    other,
                };
                append(&mut self.candidates, candidate)?;
            }
        }
        Ok(())
    }

    /// Makes branches of the arcs that join two parts.
    fn join(&mut self, count: usize) -> Result<(), Memory> {
        self.sets.part(count)?;
        refill(&mut self.firsts, count, NONE)?;
        self.branches.clear();
        for candidate in &self.candidates {
            let (one, other) = (candidate.one, candidate.other);
            if self.sets.join(one, other) {
                branch_off(&mut self.firsts, &mut self.branches, one, other)?;
                branch_off(&mut self.firsts, &mut self.branches, other, one)?;
            }
        }
        Ok(())
    }

    /// The index of the first branch at a place.
    pub(crate) fn first(&self, place: usize) -> usize {
        number_at(&self.firsts, place, NONE)
    }

    /// The other end of a branch, and the index of the next one at the same place.
    pub(crate) fn branch(&self, index: usize) -> Option<(usize, usize)> {
        match self.branches.get(index) {
            Some(branch) => Some((branch.to, branch.next)),
            None => None,
        }
    }

    /// The number of arcs to choose from.
    pub(crate) fn count(&self) -> usize {
        self.candidates.len()
    }
}

fn branch_off(
    firsts: &mut [usize],
    branches: &mut Vec<Branch>,
    from: usize,
    to: usize,
) -> Result<(), Memory> {
    let branch = Branch {
        to,
        next: number_at(firsts, from, NONE),
    };
    put(firsts, from, branches.len());
    append(branches, branch)
}
