//! The maps of least cost with some events held at residues, and questions for maps with smaller residues.

ghost use Rattle.std.specs.Prelude.{◌≡◌, ◌+◌, ◌++◌, ◌<◌, ◌^◌, All, List, IfOk, length, slice_set};
ghost use Rattle.pesp_search_least.specs.Spending.{OnlySpends};
ghost use Rattle.pesp_search_least.specs.Sums.{IsLowerBound, IsOutcome, StopsWhereSpent};
ghost use Rattle.pesp_search_cycles.specs.Maps.{AreBoxes, IsHere};
ghost use Rattle.pesp_search_cycles.specs.Walks.{Path};

use crate::boxes::Boxes;
use crate::graph::{Graph, units_of};
use crate::leaves::Leaves;
use crate::node::Node;
use crate::proposer::Proposer;
use crate::walk::copied;
use crate::{Cycles, Range, Walk};
use pesp_base::Memory;
use pesp_search_least::{Budget, Limits, Outcome, Region, least};
use std::alloc::Global;

/// The maps in the leaves with residues in these ranges. Held events have a single residue.
#[derive(Drop)]
pub(crate) struct Held<'a> {
    // The whole network.
    cycles: &'a Cycles<'a>,
    // One for each event.
    residues: Vec<Range>,
    // Boxes of this network.
    leaves: Leaves,
    // Walks to held events.
    walks: Vec<Walk>,
    // For each node whether it is held; the origin is.
    held: Vec<bool>,
    // Allocates everything here.
    alloc: Global,
    ghost long: { length residues.items ≡ cycles.now.network.events },
    ghost fit: { All (AreBoxes cycles.now) leaves.boxes.items },
}

/// A question to each leaf.
#[derive(Drop)]
struct Question<'a> {
    // The network with the walks to held events and that of the question.
    cycles: Cycles<'a>,
    // One for each event, narrowed at the event in question.
    residues: Vec<Range>,
    // A walk from the event in question to a held one, if there is one.
    walk: Option<Walk>,
    // The least cost, which no map is below.
    cost: u64,
    ghost long: { length residues.items ≡ cycles.network.events },
    ghost room: { cost + 1 < 2 ^ 64 },
}

impl<'a> Held<'a> {
    /// The maps in the leaves with these residues.
    pub(crate) fn new(
        alloc: Global,
        cycles: &'a Cycles<'a>,
        residues: Vec<Range>,
        leaves: Leaves,
    ) -> Result<Held<'a>, Memory>
        requires long { length residues.items ≡ cycles.now.network.events }
        requires fit { All (AreBoxes cycles.now) leaves.boxes.items }
        ensures cycles { IfOk result (λ held. held.cycles.now ≡ cycles.now) }
        ensures residues { IfOk result (λ held. held.residues ≡ residues) }
        ensures leaves { IfOk result (λ held. held.leaves ≡ leaves) }
    {
        let Ok(mut held) = vec![in alloc; false; cycles.network().events() + 1] else {
            return Err(Memory);
        };
        if let Some(origin) = held.last_mut() {
            *origin = true;
        }
        Ok(Held {
            cycles,
            residues,
            leaves,
            walks: Vec::new(alloc),
            held,
            alloc,
        })
    }

    /// A walk from the event to a held one, if there is one.
    fn walk(&self, event: usize) -> Result<Option<Walk>, Memory> {
        let network = self.cycles.network();
        let graph = Graph::of(self.alloc, network, &self.residues)?;
        graph.walk_from(self.alloc, network.period(), event, &self.held)
    }

    /// Adds a walk from the event to a held one. Without such walks the leaves' bounds miss the held residues:
    /// 16 of 19 networks took over 4 s (docs/HISTORY.md, "What the search could do without").
    fn join(&mut self, event: usize) -> Result<(), Memory>
        ensures cycles { self.new.cycles ≡ self.old.cycles }
        ensures residues { self.new.residues ≡ self.old.residues }
        ensures leaves { self.new.leaves.boxes ≡ self.old.leaves.boxes }
    {
        let Some(walk) = self.walk(event)? else {
            return Ok(());
        };
        // With both ends of an arc held, the range of its slack says the same. It does not if one end has a window.
        if walk.steps.len() < 2 && self.held.get(walk.to) == Some(&true) {
            return Ok(());
        }
        let arcs = self.cycles.network().arcs();
        self.leaves.take(self.alloc, arcs, &walk)?;
        if self.walks.push(walk).is_err() {
            return Err(Memory);
        }
        Ok(())
    }

    /// The ranges, with another one for the event.
    fn with(&self, event: usize, range: Range) -> Result<Vec<Range>, Memory>
        requires { event < self.now.cycles.now.network.events }
        ensures { IfOk result (λ residues.
            residues.items ≡ slice_set self.now.residues.items event range) }
    {
        let Ok(mut residues) = self.residues.clone() else {
            return Err(Memory);
        };
        residues[event] = range;
        Ok(residues)
    }

    /// The network with the walks to held events, and with one more walk if there is one.
    fn cycles_with(&self, walk: &Option<Walk>) -> Result<Cycles<'a>, Memory>
        ensures network { IfOk result (λ cycles. cycles.network ≡ self.now.cycles.now.network) }
        ensures walks { IfOk result (λ cycles. (others : List Path)
            × (cycles.walks ≡ self.now.cycles.now.walks ++ others)) }
    {
        let mut walks = copied(self.alloc, &self.walks)?;
        if let Some(walk) = walk {
            if walks.push(walk.copy()?).is_err() {
                return Err(Memory);
            }
        }
        self.cycles.with(self.alloc, &walks)
    }

    /// The question whether a map has these residues, which are narrowed at the event.
    fn question(
        &self,
        event: usize,
        residues: Vec<Range>,
        cost: u64,
    ) -> Result<Question<'a>, Memory>
        requires long { length residues.items ≡ self.now.cycles.now.network.events }
        requires room { cost + 1 < 2 ^ 64 }
        ensures network { IfOk result (λ question.
            question.cycles.network ≡ self.now.cycles.now.network) }
        ensures walks { IfOk result (λ question. (others : List Path)
            × (question.cycles.walks ≡ self.now.cycles.now.walks ++ others)) }
        ensures residues { IfOk result (λ question. question.residues ≡ residues) }
        ensures cost { IfOk result (λ question. question.cost ≡ cost) }
    {
        let walk = self.walk(event)?;
        let cycles = self.cycles_with(&walk)?;
        Ok(Question {
            cycles,
            residues,
            walk,
            cost,
        })
    }

    /// An estimate of the numbers copied for a question before it is searched.
    fn copying(&self, proposer: &Proposer) -> u64 {
        let network = self.cycles.network();
        let numbers = network.arcs().len() + network.events();
        (numbers as u64)
            .saturating_mul(8)
            .saturating_add(proposer.size() as u64)
    }

    /// A map of least cost in a leaf with the residues of the question, or the answer that there is none.
    fn answer(
        &self,
        leaf: usize,
        boxes: &Boxes,
        question: &Question,
        budget: &mut Budget,
    ) -> Result<Outcome, Memory>
        requires boxes { AreBoxes self.now.cycles.now boxes.now }
        requires network { question.now.cycles.network ≡ self.now.cycles.now.network }
        requires walks { (others : List Path)
            × (question.now.cycles.walks ≡ self.now.cycles.now.walks ++ others) }
        requires floor { IsLowerBound
            (IsHere self.now.cycles.now question.now.residues.items boxes.now) question.now.cost }
        ensures outcome { IfOk result (IsOutcome
            (IsHere self.now.cycles.now question.now.residues.items boxes.now)
            (question.now.cost + 1)) }
        ensures spent { IfOk result (StopsWhereSpent budget.new.left) }
        ensures budget { OnlySpends budget.old.left budget.new.left }
    {
        let arcs = self.cycles.network().arcs();
        let proposer = self
            .leaves
            .proposer(self.alloc, leaf, arcs, &question.walk)?;
        budget.spend(units_of(self.copying(&proposer)));
        let cycles = &question.cycles;
        let Some(root) = Node::among(self.alloc, cycles, &question.residues, proposer, false)?
        else {
            return Err(Memory);
        };
        let node = root.narrowed(boxes);
        let limits = Limits {
            floor: question.cost,
            cap: question.cost + 1,
        };
        least(self.alloc, node, limits, budget)
    }
}

impl<'a> Region for Held<'a> {
    ghost use Rattle.pesp_search_cycles.specs.Maps.{IsLeft};

    ghost sums = { λ h. IsLeft h.cycles.now h.residues.items h.leaves.boxes.items };

    ghost events = { λ h. h.cycles.now.network.events };

    fn events(&self) -> usize {
        self.cycles.network().events()
    }

    fn least_below(
        &self,
        _alloc: Global,
        event: usize,
        residue: u16,
        cost: u64,
        budget: &mut Budget,
    ) -> Result<Outcome, Memory> {
        let residues = self.with(event, self.residues[event].below(residue))?;
        let question = self.question(event, residues, cost)?;
        for leaf in 0..self.leaves.boxes.len() {
            let boxes = &self.leaves.boxes[leaf];
            match self.answer(leaf, boxes, &question, budget)? {
                Outcome::NoneBelow => {}
                Outcome::Found(found) => return Ok(Outcome::Found(found)),
                Outcome::Spent { best, .. } => {
                    return Ok(Outcome::Spent {
                        best,
                        lower_bound: cost,
                    });
                }
            }
        }
        Ok(Outcome::NoneBelow)
    }

    fn hold(&mut self, event: usize, residue: u16) {
        // If memory runs out, one walk is missing, which only weakens bounds.
        let _ = self.join(event);
        if let Some(held) = self.held.get_mut(event) {
            *held = true;
        }
        self.residues[event] = self.residues[event].at(residue);
    }
}
