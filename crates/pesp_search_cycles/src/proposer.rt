//! Proposals of multipliers, splits and maps, from a tableau of the walks' equations. No proof relies on them.

ghost use Rattle.std.specs.Prelude.{◌≡◌, length};

mod maps;
mod splits;
mod terms;

use crate::boxes::Boxes;
use crate::flip::FlipCut;
use crate::parts::Part;
use crate::{Cycles, Walk};
use pesp_base::Memory;
use pesp_search_graph::Arc;
use pesp_search_network::Network;
use pesp_search_simplex::{End, PARTS, Tableau, Term};
use std::alloc::Global;
use terms::{are_of, base_of, costs_of, most_of, room_of, terms_of, terms_of_cut};

/// The most entries of the tableaus of waiting nodes together: 16 MB. Other nodes recompute theirs. With all
/// entries kept, 100 events took 546 MB (docs/HISTORY.md, "First forms").
const MOST_ENTRIES: usize = 2_097_152;

/// A tableau of the walks' equations. Its variables are the slacks, the residues, and the rounds of the walks
/// less the sums of their arcs' lower bounds.
#[derive(Drop)]
pub(crate) struct Proposer {
    // One row for each walk and each cut.
    tableau: Tableau,
    // For each walk the sum of its arcs' lower bounds; none if the walk is left out.
    bases: Vec<Option<i64>>,
    // Whether some walks are left out.
    is_part: bool,
    // The number of walks before the cuts.
    before: usize,
    // The number of cuts.
    cuts: usize,
    // The number of slacks and residues.
    numbers: usize,
    // The number of bits after the point of multipliers, so that the sums of the bound fit.
    scale_bits: u32,
    // The result of the last run.
    end: End,
    // The number of nodes from the root to here.
    depth: usize,
}

impl Proposer {
    /// The tableau of a network with these walks.
    pub(crate) fn new(alloc: Global, cycles: &Cycles) -> Result<Proposer, Memory> {
        Proposer::of(alloc, cycles, None)
    }

    /// The same with only the walks and cuts of one part, if one is given. The rounds of others are free.
    pub(crate) fn of(
        alloc: Global,
        cycles: &Cycles,
        part: Option<Part>,
    ) -> Result<Proposer, Memory> {
        let network = cycles.network();
        let costs = costs_of(alloc, network)?;
        let tableau = Tableau::new(alloc, &costs)?;
        let scale_bits = tableau.scale_bits().min(room_of(network));
        let mut proposer = Proposer {
            tableau,
            bases: Vec::new(alloc),
            is_part: part.is_some(),
            before: cycles.walks().len(),
            cuts: 0,
            numbers: costs.len(),
            scale_bits,
            end: End::Spent,
            depth: 0,
        };
        for walk in cycles.walks() {
            let terms = terms_of(alloc, network.arcs().len(), walk)?;
            let base = base_of(network.arcs(), walk);
            proposer.push_row(
                &terms,
                if are_of(&terms, part) {
                    Some(base)
                } else {
                    None
                },
            )?;
        }
        for cut in cycles.cuts() {
            proposer.push_cut(alloc, network, cut, part)?;
        }
        Ok(proposer)
    }

    /// Adds a walk.
    pub(crate) fn push(&mut self, alloc: Global, arcs: &[Arc], walk: &Walk) -> Result<(), Memory> {
        let terms = terms_of(alloc, arcs.len(), walk)?;
        self.push_row(&terms, Some(base_of(arcs, walk)))
    }

    /// Adds the terms of a walk, with the sum of its arcs' lower bounds unless it is left out.
    fn push_row(&mut self, terms: &[Term], base: Option<i64>) -> Result<(), Memory> {
        self.tableau.push_row(terms)?;
        if self.bases.push(base).is_err() {
            return Err(Memory);
        }
        Ok(())
    }

    /// Adds a cut: a variable for the sum of its terms.
    pub(crate) fn push_cut(
        &mut self,
        alloc: Global,
        network: &Network,
        cut: &FlipCut,
        part: Option<Part>,
    ) -> Result<(), Memory> {
        let terms = terms_of_cut(alloc, cut)?;
        self.tableau.push_row(&terms)?;
        if are_of(&terms, part) {
            let number = self.number_of_cut(self.cuts);
            let most = most_of(network, &cut.terms).max(cut.least);
            self.tableau.set_range(number, cut.least, most);
        }
        self.cuts = self.cuts.saturating_add(1);
        Ok(())
    }

    /// The tableau's variable for the round of a walk.
    fn number_of(&self, walk: usize) -> usize {
        let own = self.numbers.saturating_add(walk);
        if walk < self.before {
            own
        } else {
            own.saturating_add(self.cuts)
        }
    }

    /// The tableau's variable for the sum of a cut's terms.
    fn number_of_cut(&self, cut: usize) -> usize {
        self.numbers.saturating_add(self.before).saturating_add(cut)
    }

    /// Whether a cut is tight.
    pub(crate) fn is_tight(&self, cut: usize) -> bool {
        !self.tableau.is_basic(self.number_of_cut(cut))
    }

    /// Whether some walks are left out.
    pub(crate) fn is_part(&self) -> bool {
        self.is_part
    }

    /// The tableau's value of a slack or a residue, in units of 1 / `PARTS`.
    pub(crate) fn parts(&self, index: usize) -> i64 {
        self.tableau.value(index)
    }

    /// The same with another tableau.
    fn with(&self, tableau: Tableau) -> Result<Proposer, Memory> {
        let Ok(bases) = self.bases.clone() else {
            return Err(Memory);
        };
        Ok(Proposer {
            tableau,
            bases,
            is_part: self.is_part,
            before: self.before,
            cuts: self.cuts,
            numbers: self.numbers,
            scale_bits: self.scale_bits,
            end: self.end,
            depth: self.depth,
        })
    }

    /// A copy of the proposer.
    pub(crate) fn copy(&self) -> Result<Proposer, Memory> {
        self.with(self.tableau.copy()?)
    }

    /// A copy for the other half of a node, which waits: without entries if those of all waiting nodes may be
    /// too many.
    pub(crate) fn waiting(&self) -> Result<Proposer, Memory> {
        if self.depth.saturating_mul(self.tableau.size()) <= MOST_ENTRIES {
            self.copy()
        } else {
            self.with(self.tableau.light()?)
        }
    }

    /// The number of entries that a copy needs.
    pub(crate) fn size(&self) -> usize {
        self.tableau.size()
    }

    /// Sets the tableau's ranges to those of the boxes.
    fn enter(&mut self, boxes: &Boxes) {
        for (number, range) in boxes.numbers.iter().enumerate() {
            self.tableau.set_range(number, range.low, range.high);
        }
        for (index, range) in boxes.rounds.iter().enumerate() {
            if let Some(Some(base)) = self.bases.get(index) {
                let low = range.low.saturating_sub(*base);
                let high = range.high.saturating_sub(*base);
                let number = self.number_of(index);
                self.tableau.set_range(number, low, high);
            }
        }
    }

    /// Minimizes the cost in the boxes within this amount of work, and returns the work done.
    pub(crate) fn solve(&mut self, boxes: &Boxes, cap: u64, most: u64) -> u64 {
        self.depth = self.depth.saturating_add(1);
        let before = self.tableau.work();
        self.enter(boxes);
        self.end = self.tableau.solve(cap, most);
        self.tableau.work().saturating_sub(before)
    }

    /// Whether the last run stopped before the optimum.
    pub(crate) fn is_spent(&self) -> bool {
        self.end == End::Spent
    }

    /// The least cost according to the tableau; `u64::MAX` if it is infeasible.
    pub(crate) fn cost(&self) -> u64 {
        match self.end {
            End::Empty => u64::MAX,
            _ => self.tableau.cost(),
        }
    }

    /// Writes the multipliers of the walks and cuts for a bound, and returns their scale.
    pub(crate) fn write_multipliers(&self, multipliers: &mut [i64]) -> u32
        ensures { length multipliers.new ≡ length multipliers.old }
    {
        let is_empty = self.end == End::Empty;
        let walks = multipliers.len().saturating_sub(self.cuts);
        for index in 0..multipliers.len() {
            let number = if index < walks {
                self.number_of(index)
            } else {
                self.number_of_cut(index - walks)
            };
            let row = number.saturating_sub(self.numbers);
            multipliers[index] = if is_empty {
                self.tableau.refutation(row)
            } else {
                self.tableau.multiplier(row, self.scale_bits)
            };
        }
        if is_empty {
            0
        } else {
            1u32.wrapping_shl(self.scale_bits)
        }
    }

    /// The tableau's value of a variable, rounded.
    pub(crate) fn number(&self, index: usize) -> i64 {
        self.tableau.value(index).saturating_add(PARTS / 2) / PARTS
    }
}
