//! The leaves of a search for all maps of least cost: boxes that together contain each of them.
//!
//! Questions for the first map start from these leaves, not from the root: questions from the root took 80 to
//! 90 per cent of a region's time (docs/HISTORY.md, "The first timetable, in leaves of a second search").

ghost use Rattle.std.specs.Prelude.{◌≡◌, ◌++◌, ◌∷◌, ◌≤◌, [], IfOk, IfSome, OnOk};
ghost use Rattle.std.specs.List.{AllZip};
ghost use Rattle.pesp_search_least.specs.Sums.{IsLowerBound};
ghost use Rattle.pesp_search_cycles.specs.Leaves.{sums_of};
ghost use Rattle.pesp_search_cycles.specs.Maps.{AreBoxes};
ghost use Rattle.pesp_search_cycles.specs.Splits.{AreSame};

use crate::Walk;
use crate::boxes::Boxes;
use crate::node::Node;
use crate::proposer::Proposer;
use pesp_base::Memory;
use pesp_search_graph::Arc;
use pesp_search_least::Relaxation;
use std::alloc::Global;

/// The most leaves: asking more of them takes as long as asking for all maps at once. No trial of this number
/// is recorded.
const MOST_LEAVES: usize = 64;

/// The most entries of their tableaus together: 16 MB. With larger tableaus fewer leaves are kept. No trial of
/// this number is recorded.
const MOST_ENTRIES: usize = 2_097_152;

/// Boxes, and a proposer for each.
#[derive(Drop)]
pub(crate) struct Leaves {
    // Boxes of one network with the same walks.
    pub(crate) boxes: Vec<Boxes>,
    // One for each of the boxes. It may have more walks, and no proof relies on it.
    pub(crate) proposers: Vec<Proposer>,
    // A lower bound on the cost of the maps in all boxes.
    pub(crate) least: u64,
}

/// The smaller of two lower bounds, the second of which is none if it belongs to no map.
fn lesser(least: u64, bound: Option<u64>) -> u64
    ensures least { result ≤ least }
    ensures bound { IfSome bound (λ bound. result ≤ bound) }
{
    match bound {
        Some(bound) => least.min(bound),
        None => least,
    }
}

impl Leaves {
    /// No leaves yet, with this lower bound.
    pub(crate) fn new(alloc: Global, least: u64) -> Leaves
        ensures boxes { result.boxes.items ≡ [] }
        ensures least { result.least ≡ least }
    {
        Leaves {
            boxes: Vec::new(alloc),
            proposers: Vec::new(alloc),
            least,
        }
    }

    /// Appends a leaf.
    pub(crate) fn push(&mut self, node: Node) -> Result<(), Memory>
        ensures boxes { OnOk result (self.new.boxes.items ≡ self.old.boxes.items ++ node.entry.boxes ∷ []) }
        ensures fit { AreBoxes node.entry.cycles.now node.entry.boxes }
        ensures least { self.new.least ≤ self.old.least }
        ensures bound { OnOk result (IsLowerBound (sums_of node.entry) self.new.least) }
    {
        self.least = lesser(self.least, node.bound());
        let (boxes, proposer) = node.into_parts();
        if self.proposers.push(proposer).is_err() || self.boxes.push(boxes).is_err() {
            return Err(Memory);
        }
        Ok(())
    }

    /// Whether their tableaus together have few enough entries.
    pub(crate) fn are_few(&self) -> bool {
        match self.proposers.first() {
            Some(proposer) => self.boxes.len() <= most_of(proposer.size()),
            None => true,
        }
    }

    /// A copy of the leaves.
    pub(crate) fn copy(&self, alloc: Global) -> Result<Leaves, Memory>
        ensures { IfOk result (λ copy. AllZip AreSame self.now.boxes.items copy.boxes.items) }
    {
        let mut copy = Leaves::new(alloc, self.least);
        for index in 0..self.boxes.len() {
            if copy.boxes.push(self.boxes[index].copy()?).is_err() {
                return Err(Memory);
            }
        }
        for proposer in &self.proposers {
            if copy.proposers.push(proposer.copy()?).is_err() {
                return Err(Memory);
            }
        }
        Ok(copy)
    }

    /// The proposer of a leaf, with one more walk if there is one.
    pub(crate) fn proposer(
        &self,
        alloc: Global,
        leaf: usize,
        arcs: &[Arc],
        walk: &Option<Walk>,
    ) -> Result<Proposer, Memory> {
        let Some(proposer) = self.proposers.get(leaf) else {
            return Err(Memory);
        };
        let mut copy = proposer.copy()?;
        if let Some(walk) = walk {
            copy.push(alloc, arcs, walk)?;
        }
        Ok(copy)
    }

    /// Adds a walk to each proposer.
    pub(crate) fn take(&mut self, alloc: Global, arcs: &[Arc], walk: &Walk) -> Result<(), Memory>
        ensures { self.new.boxes ≡ self.old.boxes }
    {
        for leaf in 0..self.proposers.len() {
            self.proposers[leaf].push(alloc, arcs, walk)?;
        }
        Ok(())
    }
}

/// The most leaves to keep if each tableau has this number of entries.
pub(crate) fn most_of(entries: usize) -> usize {
    (MOST_ENTRIES / entries.max(1)).clamp(1, MOST_LEAVES)
}
