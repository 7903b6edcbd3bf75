//! Searches for a map of least cost that are kept and can be resumed.

ghost use Rattle.std.specs.Prelude.{◌≡◌, IfOk, IfSome, IsNone};
ghost use Rattle.pesp_search_least.specs.Spending.{OnlySpends};
ghost use Rattle.pesp_search_least.specs.Sums.{IsLowerBound, IsOutcome, IsStop, StopsWhereSpent};
ghost use Rattle.pesp_search_network.specs.Arcs.{IsCosted};
ghost use Rattle.pesp_search_cycles.specs.Stacks.{IsProgress};

use crate::aim::Aim;
use crate::basis::walks_of;
use crate::cut_rounds::{Rounds, seek_cuts};
use crate::cuts::cuts_beside;
use crate::flip::{Flip, FlipCut};
use crate::local::Local;
use crate::residues::residue_ranges;
use crate::spent::spent_of;
use crate::stack::{Progress, Stack};
use crate::turn::Turn;
use crate::walk::copied;
use crate::{Cycles, Walk};
use pesp_base::Memory;
use pesp_search_least::{Budget, Candidate, Limits, Outcome};
use pesp_search_network::Network;
use std::alloc::Global;
use std::marker::Model;

/// A stopped search for a map of least cost.
#[derive(Drop)]
pub(crate) struct LeastSearch {
    // The network that is searched.
    network: Network,
    // Each holds for all maps of the network.
    cuts: Vec<FlipCut>,
    // The flips of the cuts.
    flips: Vec<Flip>,
    // Each leads from its first event to its last.
    walks: Vec<Walk>,
    // The open nodes, over these walks and cuts.
    stack: Stack,
    // The current turn, and how much of it is left.
    turn: Turn,
}

impl Model for LeastSearch {
    ghost use Rattle.pesp_search_cycles.specs.Maps.{AreCycles};
    ghost use Rattle.pesp_search_cycles.specs.Searches.{LeastStanding};
    ghost use Rattle.pesp_search_cycles.specs.Stacks.{IsStack, net_of};

    ghost Value = { LeastStanding };

    ghost view = { λ a. record { network = a.network; cap = a.stack.progress.limits.cap } };

    ghost invariant = { λ a. AreCycles (net_of a.network a.walks.items a.cuts.items)
        × IsStack (net_of a.network a.walks.items a.cuts.items) a.stack };
}

impl LeastSearch {
    /// A search without cuts that has not started.
    pub(crate) fn new(
        alloc: Global,
        network: Network,
        turn: Turn,
        progress: Progress,
        budget: &mut Budget,
    ) -> Result<LeastSearch, Memory>
        requires { IsProgress (IsCosted network) progress }
        ensures network { IfOk result (λ search. search.network ≡ network) }
        ensures cap { IfOk result (λ search. search.cap ≡ progress.limits.cap) }
        ensures budget { OnlySpends budget.old.left budget.new.left }
    {
        let before = budget.left;
        let residues = residue_ranges(alloc, &network)?;
        let walks = walks_of(alloc, &network, &residues, turn.basis, budget)?;
        let search = LeastSearch::of(alloc, network, walks, Vec::new(alloc), progress)?;
        Ok(search.at(turn.after(spent_of(before, budget.left))))
    }

    /// A search with walks and with the cuts of flips that has not started.
    fn of(
        alloc: Global,
        network: Network,
        walks: Vec<Walk>,
        flips: Vec<Flip>,
        progress: Progress,
    ) -> Result<LeastSearch, Memory>
        requires { IsProgress (IsCosted network) progress }
        ensures network { IfOk result (λ search. search.network ≡ network) }
        ensures cap { IfOk result (λ search. search.cap ≡ progress.limits.cap) }
    {
        let residues = residue_ranges(alloc, &network)?;
        let cuts = cuts_beside(alloc, &network, &walks, &flips)?;
        let cycles = Cycles::new(alloc, &network, walks, &cuts)?;
        let stack = Stack::new(alloc, &cycles, &residues, progress)?;
        let walks = cycles.into_walks();
        Ok(LeastSearch {
            network,
            cuts,
            flips,
            walks,
            stack,
            turn: Turn::narrow(),
        })
    }

    /// The network that is searched.
    pub(crate) fn network(&self) -> &Network
        ensures { result.now ≡ self.now.network }
    {
        &self.network
    }

    /// The units left in its turn; none if the turn is unlimited.
    pub(crate) fn units(&self) -> Option<u64> {
        self.turn.units
    }

    /// The same search for costs below another cap, if its nodes cover that.
    pub(crate) fn within(self, limits: Limits) -> Option<LeastSearch>
        requires { IsLowerBound (IsCosted self.network) limits.floor }
        ensures network { IfSome result (λ search. search.network ≡ self.network) }
        ensures cap { IfSome result (λ search. search.cap ≡ limits.cap) }
    {
        let LeastSearch {
            network,
            cuts,
            flips,
            walks,
            stack,
            turn,
        } = self;
        let stack = stack.within(limits)?;
        Some(LeastSearch {
            network,
            cuts,
            flips,
            walks,
            stack,
            turn,
        })
    }

    /// Continues as long as the budget lasts. Returns the result, and the state to resume if the search stops.
    pub(crate) fn advance(
        self,
        alloc: Global,
        budget: &mut Budget,
    ) -> Result<(Outcome, Option<LeastSearch>), Memory>
        ensures outcome { IfOk result (λ r. IsOutcome (IsCosted self.network)
            self.cap r.0) }
        ensures network { IfOk result (λ r. IfSome r.1 (λ search. search.network ≡ self.network)) }
        ensures cap { IfOk result (λ r. IfSome r.1 (λ search.
            search.cap ≡ self.cap)) }
        ensures ends { IfOk result (λ r. IsNone r.1 → IsStop r.0 → ⊥) }
        ensures spent { IfOk result (λ r. StopsWhereSpent budget.new.left r.0) }
        ensures budget { OnlySpends budget.old.left budget.new.left }
    {
        let before = budget.left;
        let LeastSearch {
            network,
            cuts,
            flips,
            walks,
            stack,
            turn,
        } = self;
        let cycles = Cycles::joined(&network, walks, &cuts);
        let (outcome, rest) = stack.advance(alloc, &cycles, budget)?;
        let walks = cycles.into_walks();
        let Some(stack) = rest else {
            return Ok((outcome, None));
        };
        let turn = turn.after(spent_of(before, budget.left));
        let search = LeastSearch {
            network,
            cuts,
            flips,
            walks,
            stack,
            turn,
        };
        Ok((outcome, Some(search)))
    }

    /// Whether it uses cuts.
    pub(crate) fn has_cuts(&self) -> bool {
        !self.cuts.is_empty()
    }

    /// The flips of its cuts.
    pub(crate) fn flips(&self) -> &[Flip] {
        &self.flips
    }

    /// The current turn.
    pub(crate) fn turn(&self) -> Turn {
        self.turn
    }

    /// The same search in another turn.
    pub(crate) fn at(self, turn: Turn) -> LeastSearch
        ensures network { result.network ≡ self.network }
        ensures cap { result.cap ≡ self.cap }
    {
        LeastSearch { turn, ..self }
    }

    /// Another search for the same, from the root, which knows what this one has found.
    pub(crate) fn beside(
        &self,
        alloc: Global,
        turn: Turn,
        budget: &mut Budget,
    ) -> Result<LeastSearch, Memory>
        ensures network { IfOk result (λ search. search.network ≡ self.now.network) }
        ensures cap { IfOk result (λ search. search.cap ≡ self.now.cap) }
        ensures budget { OnlySpends budget.old.left budget.new.left }
    {
        let network = self.network.copy()?;
        let progress = self.stack.progress.copy()?;
        LeastSearch::new(alloc, network, turn, progress, budget)
    }

    /// Another search for the same with the cuts of these flips, from the root, which knows what this one has
    /// found.
    pub(crate) fn with_cuts(
        &self,
        alloc: Global,
        turn: Turn,
        flips: Vec<Flip>,
    ) -> Result<LeastSearch, Memory>
        ensures network { IfOk result (λ search. search.network ≡ self.now.network) }
        ensures cap { IfOk result (λ search. search.cap ≡ self.now.cap) }
    {
        let network = self.network.copy()?;
        let walks = copied(alloc, &self.walks)?;
        let progress = self.stack.progress.copy()?;
        Ok(LeastSearch::of(alloc, network, walks, flips, progress)?.at(turn))
    }

    /// What cuts are sought for.
    pub(crate) fn aim(&self) -> Aim {
        self.stack.progress.aim()
    }

    /// Resumes the rounds for flip cuts, if they are open. Returns the units spent.
    pub(crate) fn seek_cuts(
        &self,
        alloc: Global,
        rounds: &mut Rounds,
        budget: &mut Budget,
    ) -> Result<u64, Memory>
        ensures { OnlySpends budget.old.left budget.new.left }
    {
        let aim = self.aim();
        seek_cuts(alloc, &self.network, &self.walks, aim, rounds, budget)
    }

    /// The same search with a better map, if the local search finds one.
    pub(crate) fn improved(
        self,
        alloc: Global,
        local: &mut Local,
        budget: &mut Budget,
    ) -> Result<LeastSearch, Memory>
        ensures network { IfOk result (λ search. search.network ≡ self.network) }
        ensures cap { IfOk result (λ search. search.cap ≡ self.cap) }
        ensures budget { OnlySpends budget.old.left budget.new.left }
    {
        let best = &self.stack.progress.best;
        match local.advance(alloc, &self.network, best, budget)? {
            Some(map) => self.with_map(map),
            None => Ok(self),
        }
    }

    /// What is known with a map found elsewhere, if it is valid and better than the best one.
    fn progress_with(&self, map: Vec<u16>) -> Option<Progress>
        ensures progress { IfSome result (IsProgress (IsCosted self.now.network)) }
        ensures cap { IfSome result (λ progress. progress.limits.cap ≡ self.now.cap) }
    {
        let limits = self.stack.progress.limits;
        let cost = self.network.cost(&map)?;
        if limits.cap <= cost || self.stack.progress.limit() <= cost {
            return None;
        }
        let best = Some(Candidate { cost, map });
        Some(Progress { limits, best })
    }

    /// The same search with a map found elsewhere, if that is better.
    fn with_map(self, map: Vec<u16>) -> Result<LeastSearch, Memory>
        ensures network { IfOk result (λ search. search.network ≡ self.network) }
        ensures cap { IfOk result (λ search. search.cap ≡ self.cap) }
    {
        match self.progress_with(map) {
            Some(progress) => self.with_progress(&progress),
            None => Ok(self),
        }
    }

    /// The lower bound of its own nodes.
    pub(crate) fn own_bound(&self) -> u64 {
        self.stack.own_bound()
    }

    /// The same search with what another one for the same has found.
    pub(crate) fn knowing(self, other: &LeastSearch) -> Result<LeastSearch, Memory>
        requires network { other.now.network ≡ self.network }
        requires cap { other.now.cap ≡ self.cap }
        ensures network { IfOk result (λ search. search.network ≡ self.network) }
        ensures cap { IfOk result (λ search. search.cap ≡ self.cap) }
    {
        self.with_progress(&other.stack.progress)
    }

    /// The same search with more knowledge of the network below the same cap.
    fn with_progress(self, progress: &Progress) -> Result<LeastSearch, Memory>
        requires progress { IsProgress (IsCosted self.network) progress.now }
        requires cap { progress.now.limits.cap ≡ self.cap }
        ensures network { IfOk result (λ search. search.network ≡ self.network) }
        ensures cap { IfOk result (λ search. search.cap ≡ self.cap) }
    {
        let LeastSearch {
            network,
            cuts,
            flips,
            walks,
            stack,
            turn,
        } = self;
        let stack = stack.knowing(progress)?;
        Ok(LeastSearch {
            network,
            cuts,
            flips,
            walks,
            stack,
            turn,
        })
    }
}
