//! Nodes of the search: boxes that contain some maps of a network, with a lower bound on their costs.

ghost use Rattle.std.specs.Prelude.{◌≡◌, ℕ, ◌+◌, ◌<◌, ◌≤◌, IfNone, IfOk, IfSome, IsTrue, MatchOption, drop, length};
ghost use Rattle.std.specs.Option.{ForNone, ForSome};
ghost use Rattle.pesp_search_least.specs.Spending.{OnlySpends};
ghost use Rattle.pesp_search_least.specs.Sums.{IsCandidate, IsEmpty, IsLeast, IsLowerBound, IsWithin};
ghost use Rattle.pesp_search_cycles.specs.Maps.{AreBoxes, AreCycles, IsAmong, IsSummed, Net};
ghost use Rattle.pesp_search_cycles.specs.Splits.{AreSingle, IsNarrowed, size};
ghost use Rattle.pesp_search_cycles.specs.Terms.{greater};
ghost use Rattle.pesp_search_cycles.specs.Waiting.{IsWaiting};

mod splits;

use crate::admitted::{admitted_cost, only_map};
use crate::boxes::Boxes;
use crate::empty::{has_empty, has_lost_event};
use crate::graph::units_of;
use crate::proposer::Proposer;
use crate::root::root;
use crate::terms::floor;
use crate::waiting::Waiting;
use crate::{Cycles, Range};
use pesp_base::Memory;
use pesp_search_least::{Budget, Candidate, Relaxation, Split};
use std::alloc::Global;

/// The most numbers visited for one node, so that each node ends.
const MOST_NUMBERS: u64 = 1_073_741_824;

/// The maps of a network in some boxes.
#[derive(Drop)]
pub struct Node<'a> {
    // The whole network; the node contains some of its maps.
    cycles: &'a Cycles<'a>,
    // The ranges of the variables and rounds of its maps.
    boxes: Boxes,
    // A lower bound on the cost of its maps; none if it contains no map.
    bound: Option<u64>,
    // The work space of sums: one coefficient for each variable.
    rates: Vec<i64>,
    // The multipliers of the walks, then those of the cuts.
    multipliers: Vec<i64>,
    // Proposes multipliers, splits and maps; no proof relies on it.
    proposer: Proposer,
    // Whether its maps are polished.
    is_polished: bool,
    ghost sound: { AreCycles cycles.now },
    ghost fit: { AreBoxes cycles.now boxes },
    ghost room: { length rates.items ≡ length cycles.now.network.arcs + cycles.now.network.events },
    ghost walks: { length multipliers.items ≡ length cycles.now.walks + length cycles.now.cuts },
    ghost none: { ForNone bound (IsEmpty (IsSummed cycles.now boxes)) },
    ghost lower: { ForSome bound (IsLowerBound (IsSummed cycles.now boxes)) },
}

/// The greater of two lower bounds; none if either shows that there is no map.
fn greater(bound: Option<u64>, other: Option<u64>) -> Option<u64>
    ensures { result ≡ greater bound other }
{
    match (bound, other) {
        (Some(bound), Some(other)) => Some(bound.max(other)),
        _ => None,
    }
}

/// The numbers that may be visited with the rest of a budget.
pub(crate) fn most_of(budget: &Budget) -> u64 {
    match budget.left {
        Some(left) => left
            .saturating_add(1)
            .saturating_mul(1_024)
            .min(MOST_NUMBERS),
        None => MOST_NUMBERS,
    }
}

impl<'a> Node<'a> {
    /// The node of all maps with these residues, if all numbers fit.
    pub(crate) fn among(
        alloc: Global,
        cycles: &'a Cycles<'a>,
        residues: &[Range],
        proposer: Proposer,
        is_polished: bool,
    ) -> Result<Option<Node<'a>>, Memory>
        requires { length residues.now ≡ cycles.now.network.events }
        ensures cycles { IfOk result (λ found. IfSome found (λ node.
            node.cycles.now ≡ cycles.now)) }
        ensures all { IfOk result (λ found. IfSome found (λ node.
            IsWithin (IsAmong cycles.now.network residues.now) (IsSummed node.cycles.now node.boxes))) }
        ensures within { IfOk result (λ found. IfSome found (λ node.
            IsWithin (IsSummed node.cycles.now node.boxes) (IsAmong cycles.now.network residues.now))) }
    {
        cycles.sound();
        let Some(boxes) = root(alloc, cycles, residues)? else {
            return Ok(None);
        };
        let network = cycles.network();
        let Ok(rates) = vec![in alloc; 0; network.arcs().len() + network.events()] else {
            return Err(Memory);
        };
        let Ok(multipliers) = vec![in alloc; 0; cycles.walks().len() + cycles.cuts().len()] else {
            return Err(Memory);
        };
        Ok(Some(Node {
            cycles,
            boxes,
            bound: Some(0),
            rates,
            multipliers,
            proposer,
            is_polished,
        }))
    }

    /// Whether the boxes are plainly empty.
    fn is_empty(&self) -> bool
        ensures { IsTrue result → IsEmpty (IsSummed self.now.cycles.now self.now.boxes) }
    {
        if has_empty(&self.boxes.numbers) {
            return true;
        }
        if has_empty(&self.boxes.rounds) {
            return true;
        }
        has_lost_event(self.cycles.network(), self.residues())
    }

    /// The bound that the proposer's multipliers give.
    fn told(&mut self) -> Option<u64>
        ensures cycles { self.new.cycles ≡ self.old.cycles }
        ensures boxes { self.new.boxes ≡ self.old.boxes }
        ensures bound { self.new.bound ≡ self.old.bound }
        ensures told { MatchOption result
            (IsEmpty (IsSummed self.new.cycles.now self.new.boxes))
            (IsLowerBound (IsSummed self.new.cycles.now self.new.boxes)) }
    {
        if self.is_empty() {
            return None;
        }
        let scale = self.proposer.write_multipliers(&mut self.multipliers);
        let rates = &mut self.rates;
        let told = floor(self.cycles, &self.boxes, &self.multipliers, scale, rates);
        told
    }

    /// Raises the bound to that of the proposer's multipliers.
    fn raise(&mut self)
        ensures cycles { self.new.cycles ≡ self.old.cycles }
        ensures boxes { self.new.boxes ≡ self.old.boxes }
    {
        let told = self.told();
        self.bound = greater(self.bound, told);
    }

    /// Tries to raise the bound of maps below the cap.
    pub(crate) fn solve(&mut self, cap: u64, budget: &mut Budget)
        ensures cycles { self.new.cycles ≡ self.old.cycles }
        ensures boxes { self.new.boxes ≡ self.old.boxes }
        ensures budget { OnlySpends budget.old.left budget.new.left }
    {
        let most = most_of(budget);
        let work = self.proposer.solve(&self.boxes, cap, most);
        budget.spend(units_of(work));
        self.raise();
    }

    /// The node of those maps that are in other boxes too, which may have fewer walks.
    pub(crate) fn narrowed(mut self, others: &Boxes) -> Node<'a>
        requires numbers { length others.now.numbers.items ≤ length self.boxes.numbers.items }
        requires rounds { length others.now.rounds.items ≤ length self.boxes.rounds.items }
        ensures cycles { result.cycles ≡ self.entry.cycles }
        ensures boxes { IsNarrowed self.entry.boxes others.now result.boxes }
    {
        self.boxes.narrow(others);
        self
    }

    /// Whether a map is available. If the proposer leaves walks out, whether the rounds of the others are
    /// whole.
    pub(crate) fn is_settled(&self, alloc: Global) -> Result<bool, Memory> {
        if self.proposer.is_part() {
            return Ok(self.proposer.is_whole(self.cycles.period()));
        }
        Ok(self.candidate(alloc)?.is_some())
    }

    /// The number of entries of its tableau.
    pub(crate) fn entries(&self) -> usize {
        self.proposer.size()
    }

    /// The boxes and the proposer.
    pub(crate) fn into_parts(self) -> (Boxes, Proposer)
        ensures boxes { result.0 ≡ self.entry.boxes }
        ensures fit { AreBoxes self.entry.cycles.now self.entry.boxes }
    {
        (self.boxes, self.proposer)
    }

    /// The same node without its cycles.
    pub(crate) fn asleep(self) -> Waiting
        ensures waiting { IsWaiting self.entry.cycles.now result }
        ensures boxes { result.boxes ≡ self.entry.boxes }
    {
        Waiting {
            boxes: self.boxes,
            bound: self.bound,
            proposer: self.proposer,
            is_polished: self.is_polished,
        }
    }

    /// The waiting node with its cycles.
    pub(crate) fn awake(
        alloc: Global,
        cycles: &'a Cycles<'a>,
        waiting: Waiting,
    ) -> Result<Node<'a>, Memory>
        requires { IsWaiting cycles.now waiting }
        ensures cycles { IfOk result (λ node. node.cycles.now ≡ cycles.now) }
        ensures boxes { IfOk result (λ node. node.boxes ≡ waiting.boxes) }
    {
        cycles.sound();
        let network = cycles.network();
        let Ok(rates) = vec![in alloc; 0; network.arcs().len() + network.events()] else {
            return Err(Memory);
        };
        let Ok(multipliers) = vec![in alloc; 0; cycles.walks().len() + cycles.cuts().len()] else {
            return Err(Memory);
        };
        let Waiting {
            boxes,
            bound,
            proposer,
            is_polished,
        } = waiting;
        Ok(Node {
            cycles,
            boxes,
            bound,
            rates,
            multipliers,
            proposer,
            is_polished,
        })
    }

    /// A map with its cost, if the boxes contain it.
    fn candidate_of(&self, alloc: Global, map: Vec<u16>) -> Result<Option<Candidate>, Memory>
        ensures none { IfOk result (λ found. IfNone found ((cost : ℕ)
            → IsSummed self.now.cycles.now self.now.boxes map.items cost → ⊥)) }
        ensures same { IfOk result (λ found. IfSome found (λ candidate.
            candidate.map.items ≡ map.items)) }
        ensures some { IfOk result (λ found. IfSome found
            (IsCandidate (IsSummed self.now.cycles.now self.now.boxes))) }
    {
        let found = admitted_cost(alloc, self.cycles, &self.boxes, &map)?;
        match found {
            Some(cost) => Ok(Some(Candidate { cost, map })),
            None => Ok(None),
        }
    }

    /// The ranges of the residues.
    fn residues(&self) -> &[Range]
        ensures { result.now ≡ drop (length self.now.cycles.now.network.arcs)
            self.now.boxes.numbers.items }
    {
        let arcs = self.cycles.network().arcs().len();
        &self.boxes.numbers[arcs..]
    }

    /// The single map left if each event has at most one residue, if the boxes contain it.
    fn last(&self, alloc: Global) -> Result<Option<Candidate>, Memory>
        requires { AreSingle (drop (length self.now.cycles.now.network.arcs)
            self.now.boxes.numbers.items) }
        ensures { IfOk result (λ last. MatchOption last
            (IsEmpty (IsSummed self.now.cycles.now self.now.boxes))
            (IsLeast (IsSummed self.now.cycles.now self.now.boxes))) }
    {
        let Some(map) = only_map(alloc, self.residues())? else {
            return Ok(None);
        };
        let found = self.candidate_of(alloc, map)?;
        Ok(found)
    }
}

impl<'a> Relaxation for Node<'a> {
    ghost sums = { λ n. IsSummed n.cycles.now n.boxes };

    ghost size = { λ n. size n.boxes };

    ghost Base = { Net };

    ghost base = { λ n. n.cycles.now };

    fn bound(&self) -> Option<u64> {
        self.bound
    }

    fn tighten(&mut self, cap: u64, budget: &mut Budget) {
        self.solve(cap, budget);
    }

    fn candidate(&self, alloc: Global) -> Result<Option<Candidate>, Memory> {
        let network = self.cycles.network();
        if !self.proposer.has_map(network.period()) {
            return Ok(None);
        }
        let residues = self.residues();
        let map = self
            .proposer
            .map(alloc, network, residues, self.is_polished)?;
        self.candidate_of(alloc, map)
    }

    fn split(&mut self, alloc: Global) -> Result<Split<Self>, Memory> {
        match self.halves()? {
            Some(other) => Ok(Split::Halves(other)),
            None => match self.last(alloc)? {
                Some(candidate) => Ok(Split::Solved(candidate)),
                None => Ok(Split::Empty),
            },
        }
    }
}
