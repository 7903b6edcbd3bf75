//! Searches for the first map of least cost that are kept and can be resumed.

ghost use Rattle.std.specs.Prelude.{◌≡◌, ◌+◌, ◌<◌, ◌^◌, IfOk, IfSome, IsNone};
ghost use Rattle.pesp_search_least.specs.Order.{EndsUnlessSpent, IsFirstOutcome};
ghost use Rattle.pesp_search_least.specs.Spending.{OnlySpends};
ghost use Rattle.pesp_search_least.specs.Sums.{IsLeast};
ghost use Rattle.pesp_search_network.specs.Arcs.{IsCosted};
ghost use Rattle.pesp_search_cycles.specs.Maps.{Net};
ghost use Rattle.pesp_search_cycles.specs.Settlings.{IsSettling, IsUnsettled};

use crate::aim::Aim;
use crate::basis::{basis_within, walks_of};
use crate::cut_rounds::flips_of;
use crate::cuts::cuts_beside;
use crate::flip::{Flip, FlipCut};
use crate::residues::residue_ranges;
use crate::settling::Settling;
use crate::{Cycles, Walk};
use pesp_base::Memory;
use pesp_search_least::{Budget, First};
use pesp_search_network::Network;
use std::alloc::Global;
use std::marker::Model;

/// The cuts with which the least cost was found.
#[derive(Drop)]
pub(crate) enum CutsKnown {
    /// It was found without cuts.
    Nothing,
    /// The cuts of these flips.
    Flips(Vec<Flip>),
    /// A part of the network had cuts: new ones are sought.
    OfAPart,
}

/// A stopped search for the first map of least cost.
#[derive(Drop)]
pub(crate) struct FirstSearch {
    // The network that is searched.
    network: Network,
    // Each holds for all maps of the network.
    cuts: Vec<FlipCut>,
    // Each leads from its first event to its last.
    walks: Vec<Walk>,
    // The state of the search, over these walks and cuts.
    settling: Settling,
}

impl Model for FirstSearch {
    ghost use Rattle.pesp_search_cycles.specs.Maps.{AreCycles};
    ghost use Rattle.pesp_search_cycles.specs.Searches.{FirstStanding};
    ghost use Rattle.pesp_search_cycles.specs.Settlings.{IsSettling};
    ghost use Rattle.pesp_search_cycles.specs.Stacks.{net_of};

    ghost Value = { FirstStanding };

    ghost view = { λ a. record { network = a.network; cost = a.settling.best.cost } };

    ghost invariant = { λ a. AreCycles (net_of a.network a.walks.items a.cuts.items)
        × IsSettling (net_of a.network a.walks.items a.cuts.items) a.settling };
}

impl FirstSearch {
    /// A search that has not started, with cuts or without. It uses cuts only if they found the least cost:
    /// always using them made four narrow regions take three times as long (docs/HISTORY.md, "What the search
    /// could do without").
    pub(crate) fn new(
        alloc: Global,
        network: Network,
        known: CutsKnown,
        settling: Settling,
        budget: &mut Budget,
    ) -> Result<FirstSearch, Memory>
        requires { (N : Net) → N.network ≡ network → IsSettling N settling }
        ensures network { IfOk result (λ search. search.network ≡ network) }
        ensures cost { IfOk result (λ search. search.cost ≡ settling.best.cost) }
        ensures budget { OnlySpends budget.old.left budget.new.left }
    {
        let residues = residue_ranges(alloc, &network)?;
        let basis = basis_within(alloc, &network, &residues, budget)?;
        let walks = walks_of(alloc, &network, &residues, basis, budget)?;
        let flips = match known {
            CutsKnown::Flips(flips) => flips,
            CutsKnown::OfAPart if basis.is_narrow() => {
                let cost = settling.best.cost;
                flips_of(alloc, &network, &walks, Aim::at(cost), budget)?
            }
            _ => Vec::new(alloc),
        };
        let cuts = cuts_beside(alloc, &network, &walks, &flips)?;
        let walks = Cycles::new(alloc, &network, walks, &cuts)?.into_walks();
        Ok(FirstSearch {
            network,
            cuts,
            walks,
            settling,
        })
    }

    /// The network that is searched.
    pub(crate) fn network(&self) -> &Network
        ensures { result.now ≡ self.now.network }
    {
        &self.network
    }

    /// The least cost of the network.
    pub(crate) fn cost(&self) -> u64
        ensures { result ≡ self.now.cost }
    {
        self.settling.best.cost
    }

    /// Continues as long as the budget lasts. Returns the result, and the state to resume if the search stops.
    pub(crate) fn advance(
        self,
        alloc: Global,
        budget: &mut Budget,
    ) -> Result<(First, Option<FirstSearch>), Memory>
        ensures first { IfOk result (λ r. IsFirstOutcome (IsCosted self.network)
            self.cost r.0) }
        ensures network { IfOk result (λ r. IfSome r.1 (λ search. search.network ≡ self.network)) }
        ensures cost { IfOk result (λ r. IfSome r.1 (λ search.
            search.cost ≡ self.cost)) }
        ensures ends { IfOk result (λ r. IsNone r.1 → IsUnsettled r.0 → ⊥) }
        ensures spent { IfOk result (λ r. EndsUnlessSpent budget.new.left r.0) }
        ensures budget { OnlySpends budget.old.left budget.new.left }
    {
        let FirstSearch {
            network,
            cuts,
            walks,
            settling,
        } = self;
        let cycles = Cycles::joined(&network, walks, &cuts);
        let (told, rest) = settling.advance(alloc, &cycles, budget)?;
        let walks = cycles.into_walks();
        let Some(settling) = rest else {
            return Ok((told, None));
        };
        let search = FirstSearch {
            network,
            cuts,
            walks,
            settling,
        };
        Ok((told, Some(search)))
    }
}
