//! The search for a map of least cost, and the state that it keeps when it stops.

ghost use Rattle.std.specs.Prelude.{◌≡◌, ◌+◌, ◌<◌, ◌^◌, IfOk, IfSome};
ghost use Rattle.pesp_search_least.specs.Order.{EndsUnlessSpent, IsFirstOutcome};
ghost use Rattle.pesp_search_least.specs.Spending.{OnlySpends};
ghost use Rattle.pesp_search_least.specs.Sums.{IsBelow, IsLeast, IsLowerBound, IsOutcome, IsStop, StopsWhereSpent};
ghost use Rattle.pesp_search_network.specs.Arcs.{IsCosted};

use crate::basis::units_of_narrow;
use crate::first_search::{CutsKnown, FirstSearch};
use crate::flip::{Flip, copies_of};
use crate::least_search::LeastSearch;
use crate::least_turns::LeastTurns;
use crate::local::Local;
use crate::residues::residue_ranges;
use crate::settling::Settling;
use crate::spent::spent_of;
use crate::stack::Progress;
use crate::turn::Turn;
use pesp_base::Memory;
use pesp_search_least::{Budget, Candidate, First, Limits, Outcome};
use pesp_search_network::{Method, Network};
use std::alloc::Global;

/// The most turns of a search; the last one is unlimited. It bounds the recursion over turns, each of which may
/// be longer than the last by a quarter.
const MOST_TURNS: usize = 64;

/// The most solved networks that are kept: more than the pieces of a network (`MOST_PIECES` in
/// pesp_search_network).
const MOST_SOLVED: usize = 128;

/// A network and a map of least cost of it.
#[derive(Drop)]
struct Solved {
    // The network that was searched.
    network: Network,
    // A map of least cost.
    least: Candidate,
    ghost solves: { IsLeast (IsCosted network) least },
}

impl Solved {
    /// The result of a search below the cap.
    fn outcome(&self, cap: u64) -> Result<Outcome, Memory>
        ensures outcome { IfOk result (IsOutcome (IsCosted self.now.network) cap) }
        ensures ends { IfOk result (λ outcome. IsStop outcome → ⊥) }
    {
        if self.least.cost < cap {
            Ok(Outcome::Found(self.least.copy()?))
        } else {
            Ok(Outcome::NoneBelow)
        }
    }
}

/// A network with too many cycles, and the local search for its maps.
#[derive(Drop)]
struct Rough {
    // The network that is searched.
    network: Network,
    // Its local search.
    local: Local,
}

/// Searches by cycles.
///
/// A search that stops is kept, and resumed if the same network is searched again. Networks are compared, so no
/// caller has to promise that they are the same (docs/DECISIONS.md, "A search by cycles").
#[derive(Drop)]
pub struct ByCycles {
    // The last search for a least map, if it stopped.
    stopped: Option<LeastTurns>,
    // The last search for a first map, if it stopped.
    unsettled: Option<FirstSearch>,
    // The local search of a network with too many cycles.
    rough: Option<Rough>,
    // Networks solved within budgets.
    solved: Vec<Solved>,
    // The flips with which the last search ended. No proof relies on them.
    flips: Vec<Flip>,
    // The number of arcs of that search's network.
    arcs: usize,
}

impl ByCycles {
    /// A state before the first search.
    pub fn new(alloc: Global) -> ByCycles {
        ByCycles {
            stopped: None,
            unsettled: None,
            rough: None,
            solved: Vec::new(alloc),
            flips: Vec::new(alloc),
            arcs: 0,
        }
    }

    /// The number of solved networks. Repeating the result of one takes a unit.
    pub fn solved(&self) -> usize {
        self.solved.len()
    }

    /// The result of a search of the network below the cap, if a map of least cost is known.
    fn known(&self, network: &Network, cap: u64) -> Result<Option<Outcome>, Memory>
        ensures outcome { IfOk result (λ known. IfSome known (IsOutcome (IsCosted network.now) cap)) }
        ensures ends { IfOk result (λ known. IfSome known (λ outcome. IsStop outcome → ⊥)) }
    {
        for index in 0..self.solved.len() {
            if self.solved[index].network.is_same(network) {
                return Ok(Some(self.solved[index].outcome(cap)?));
            }
        }
        Ok(None)
    }

    /// Keeps a map of least cost if there is memory for it.
    fn keep(&mut self, network: &Network, least: &Candidate)
        requires { IsLeast (IsCosted network.now) least.now }
    {
        if self.solved.len() >= MOST_SOLVED {
            self.solved.clear();
        }
        let (Ok(network), Ok(least)) = (network.copy(), least.copy()) else {
            return;
        };
        // If memory runs out, it is not kept.
        let _ = self.solved.push(Solved { network, least });
    }

    /// The stopped search of the network, if it can be resumed for these limits.
    fn stopped(&mut self, network: &Network, limits: Limits) -> Option<LeastTurns>
        requires { IsLowerBound (IsCosted network.now) limits.floor }
        ensures network { IfSome result (λ turns. turns.search.network ≡ network.now) }
        ensures cap { IfSome result (λ turns. turns.search.cap ≡ limits.cap) }
    {
        let search = self.stopped.take()?;
        if !search.network().is_same(network) {
            return None;
        }
        search.within(limits)
    }

    /// A new search of the network.
    fn begun(
        alloc: Global,
        network: &Network,
        limits: Limits,
        budget: &mut Budget,
    ) -> Result<LeastTurns, Memory>
        requires { IsLowerBound (IsCosted network.now) limits.floor }
        ensures network { IfOk result (λ turns. turns.search.network ≡ network.now) }
        ensures cap { IfOk result (λ turns. turns.search.cap ≡ limits.cap) }
        ensures budget { OnlySpends budget.old.left budget.new.left }
    {
        let residues = residue_ranges(alloc, network)?;
        let narrow = units_of_narrow(alloc, network, &residues)?;
        let turn = Turn::first(narrow, budget);
        let progress = Progress { limits, best: None };
        let search = LeastSearch::new(alloc, network.copy()?, turn, progress, budget)?;
        Ok(LeastTurns::alone(search))
    }

    /// Keeps the flips with which a search ended, if it has any.
    fn end_by(&mut self, flips: Vec<Flip>, arcs: usize) {
        if !flips.is_empty() {
            self.flips = flips;
            self.arcs = arcs;
        }
    }

    /// Continues a search as long as the budget lasts: by `left` limited turns, then by an unlimited one.
    fn go_on(
        &mut self,
        alloc: Global,
        turns: LeastTurns,
        left: usize,
        budget: &mut Budget,
    ) -> Result<Outcome, Memory>
        ensures outcome { IfOk result (IsOutcome (IsCosted turns.search.network)
            turns.search.cap) }
        ensures spent { IfOk result (StopsWhereSpent budget.new.left) }
        ensures budget { OnlySpends budget.old.left budget.new.left }
    {
        let flips = turns.flips(alloc)?;
        let arcs = turns.network().arc_count();
        let units = if left == 0 { None } else { turns.units() };
        let Some(units) = units else {
            let (outcome, rest) = turns.advance(alloc, budget)?;
            if rest.is_none() {
                self.end_by(flips, arcs);
            }
            self.stopped = rest;
            return Ok(outcome);
        };
        let mut part = budget.part(units);
        let given = part.left;
        let (outcome, rest) = turns.advance(alloc, &mut part)?;
        budget.spend(spent_of(given, part.left));
        let Some(rest) = rest else {
            self.end_by(flips, arcs);
            return Ok(outcome);
        };
        if budget.is_spent() {
            self.stopped = Some(rest);
            return Ok(outcome);
        }
        let next = rest.next(alloc, budget)?;
        self.go_on(alloc, next, left - 1, budget)
    }
}

impl ByCycles {
    /// A map below the cap of a network with too many cycles, if a local search finds one. The search is kept,
    /// and resumed if the same network is searched again.
    pub fn rough(
        &mut self,
        alloc: Global,
        network: &Network,
        cap: u64,
        units: u64,
    ) -> Result<Option<Candidate>, Memory>
        ensures { IfOk result (λ found. IfSome found (IsBelow (IsCosted network.now) cap)) }
    {
        let mut local = match self.rough.take() {
            Some(rough) if rough.network.is_same(network) => rough.local,
            _ => Local::new(),
        };
        local.give(units);
        let found = local.advance(alloc, network, &None, &mut Budget::unlimited())?;
        self.rough = Some(Rough {
            network: network.copy()?,
            local,
        });
        let Some(map) = found else {
            return Ok(None);
        };
        match network.cost(&map) {
            Some(cost) if cost < cap => Ok(Some(Candidate { cost, map })),
            _ => Ok(None),
        }
    }

    /// The stopped search for the first map of the network at this cost, if there is one.
    fn unsettled(&mut self, network: &Network, cost: u64) -> Option<FirstSearch>
        ensures network { IfSome result (λ search. search.network ≡ network.now) }
        ensures cost { IfSome result (λ search. search.cost ≡ cost) }
    {
        let search = self.unsettled.take()?;
        if search.cost() == cost && search.network().is_same(network) {
            Some(search)
        } else {
            None
        }
    }

    /// A new search for the first map, from a map of least cost.
    fn begun_from(
        &mut self,
        alloc: Global,
        network: &Network,
        candidate: Candidate,
        budget: &mut Budget,
    ) -> Result<FirstSearch, Memory>
        requires least { IsLeast (IsCosted network.now) candidate }
        requires room { candidate.cost + 1 < 2 ^ 64 }
        ensures network { IfOk result (λ search. search.network ≡ network.now) }
        ensures cost { IfOk result (λ search. search.cost ≡ candidate.cost) }
        ensures budget { OnlySpends budget.old.left budget.new.left }
    {
        let known = if self.arcs == network.arc_count() {
            CutsKnown::Flips(copies_of(alloc, &self.flips)?)
        } else if self.flips.is_empty() {
            CutsKnown::Nothing
        } else {
            CutsKnown::OfAPart
        };
        let settling = Settling::new(candidate);
        FirstSearch::new(alloc, network.copy()?, known, settling, budget)
    }

    /// The first map of least cost, given any map of least cost.
    ///
    /// Of two maps, the one with the smaller residue at the first event where they differ comes first. A search
    /// that stops is kept, and resumed if the same network is searched again.
    pub fn first(
        &mut self,
        alloc: Global,
        network: &Network,
        candidate: Candidate,
        budget: &mut Budget,
    ) -> Result<First, Memory>
        requires least { IsLeast (IsCosted network.now) candidate }
        requires room { candidate.cost + 1 < 2 ^ 64 }
        ensures first { IfOk result (IsFirstOutcome (IsCosted network.now) candidate.cost) }
        ensures spent { IfOk result (EndsUnlessSpent budget.new.left) }
        ensures budget { OnlySpends budget.old.left budget.new.left }
    {
        if budget.is_spent() {
            return Ok(First::Spent {
                best: candidate,
                settled: 0,
            });
        }
        let search = match self.unsettled(network, candidate.cost) {
            Some(search) => search,
            None => self.begun_from(alloc, network, candidate, budget)?,
        };
        let (told, rest) = search.advance(alloc, budget)?;
        self.unsettled = rest;
        Ok(told)
    }
}

impl Method for ByCycles {
    fn least(
        &mut self,
        alloc: Global,
        network: &Network,
        limits: Limits,
        budget: &mut Budget,
    ) -> Result<Outcome, Memory> {
        if limits.cap <= limits.floor {
            return Ok(Outcome::NoneBelow);
        }
        if budget.is_spent() {
            return Ok(Outcome::Spent {
                best: None,
                lower_bound: limits.floor,
            });
        }
        budget.spend(1);
        if let Some(outcome) = self.known(network, limits.cap)? {
            return Ok(outcome);
        }
        let search = match self.stopped(network, limits) {
            Some(search) => search,
            None => ByCycles::begun(alloc, network, limits, budget)?,
        };
        let is_kept = budget.left.is_some();
        let outcome = self.go_on(alloc, search, MOST_TURNS, budget)?;
        if let Outcome::Found(least) = &outcome {
            if is_kept {
                self.keep(network, least);
            }
        }
        Ok(outcome)
    }
}
