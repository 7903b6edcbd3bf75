//! Two searches for the same map of least cost, with cuts and without, that alternate.
//!
//! Neither suits all networks: with cuts, wide spans have far fewer nodes, but narrow ones dearer nodes
//! (docs/HISTORY.md, "Flip cuts").

ghost use Rattle.std.specs.Prelude.{◌≡◌, IfOk, IfSome, IsNone};
ghost use Rattle.std.specs.Option.{ForSome};
ghost use Rattle.pesp_search_least.specs.Spending.{OnlySpends};
ghost use Rattle.pesp_search_least.specs.Sums.{IsLowerBound, IsOutcome, IsStop, StopsWhereSpent};
ghost use Rattle.pesp_search_network.specs.Arcs.{IsCosted};

use crate::cut_rounds::Rounds;
use crate::flip::{Flip, copies_of};
use crate::least_search::LeastSearch;
use crate::local::Local;
use crate::spent::spent_of;
use crate::turn::Turn;
use pesp_base::Memory;
use pesp_search_least::{Budget, Limits, Outcome};
use pesp_search_network::Network;
use std::alloc::Global;

/// A search for a map of least cost, and another for the same that waits.
#[derive(Drop)]
pub(crate) struct LeastTurns {
    // The search whose turn it is.
    pub(crate) search: LeastSearch,
    // The waiting search, of the same network and below the same cap.
    resting: Option<LeastSearch>,
    // The stopped rounds for the cuts of another search.
    rounds: Option<Rounds>,
    // The local search for maps of the same network.
    local: Local,
    ghost same_network: { ForSome resting (λ other. other.network ≡ search.network) },
    ghost same_cap: { ForSome resting (λ other. other.cap ≡ search.cap) },
}

impl LeastTurns {
    /// A search alone.
    pub(crate) fn alone(search: LeastSearch) -> LeastTurns
        ensures { result.search ≡ search }
    {
        LeastTurns {
            search,
            resting: None,
            rounds: None,
            local: Local::new(),
        }
    }

    /// The network that is searched.
    pub(crate) fn network(&self) -> &Network
        ensures { result.now ≡ self.now.search.network }
    {
        self.search.network()
    }

    /// The units left in the turn; none if it is unlimited.
    pub(crate) fn units(&self) -> Option<u64> {
        self.search.turn().units
    }

    /// A copy of the flips of the search's cuts.
    pub(crate) fn flips(&self, alloc: Global) -> Result<Vec<Flip>, Memory> {
        copies_of(alloc, self.search.flips())
    }

    /// The same searches for costs below another cap, if their nodes cover that.
    pub(crate) fn within(self, limits: Limits) -> Option<LeastTurns>
        requires { IsLowerBound (IsCosted self.search.network) limits.floor }
        ensures network { IfSome result (λ turns. turns.search.network ≡ self.search.network) }
        ensures cap { IfSome result (λ turns. turns.search.cap ≡ limits.cap) }
    {
        let LeastTurns {
            search,
            resting,
            rounds,
            local,
        } = self;
        let search = search.within(limits)?;
        let resting = match resting {
            Some(other) => other.within(limits),
            None => None,
        };
        Some(LeastTurns {
            search,
            resting,
            rounds,
            local,
        })
    }

    /// Continues as long as the budget lasts. Returns the result, and the state to resume if the search stops.
    pub(crate) fn advance(
        self,
        alloc: Global,
        budget: &mut Budget,
    ) -> Result<(Outcome, Option<LeastTurns>), Memory>
        ensures outcome { IfOk result (λ r. IsOutcome (IsCosted self.search.network)
            self.search.cap r.0) }
        ensures network { IfOk result (λ r. IfSome r.1 (λ turns.
            turns.search.network ≡ self.search.network)) }
        ensures cap { IfOk result (λ r. IfSome r.1 (λ turns.
            turns.search.cap ≡ self.search.cap)) }
        ensures ends { IfOk result (λ r. IsNone r.1 → IsStop r.0 → ⊥) }
        ensures spent { IfOk result (λ r. StopsWhereSpent budget.new.left r.0) }
        ensures budget { OnlySpends budget.old.left budget.new.left }
    {
        let LeastTurns {
            search,
            resting,
            rounds,
            mut local,
        } = self;
        let search = search.improved(alloc, &mut local, budget)?;
        let before = budget.left;
        let (outcome, rest) = search.advance(alloc, budget)?;
        let Some(search) = rest else {
            return Ok((outcome, None));
        };
        local.earn(spent_of(before, budget.left));
        Ok((
            outcome,
            Some(LeastTurns {
                search,
                resting,
                rounds,
                local,
            }),
        ))
    }

    /// The next turn.
    pub(crate) fn next(self, alloc: Global, budget: &mut Budget) -> Result<LeastTurns, Memory>
        ensures network { IfOk result (λ turns. turns.search.network ≡ self.search.network) }
        ensures cap { IfOk result (λ turns. turns.search.cap ≡ self.search.cap) }
        ensures budget { OnlySpends budget.old.left budget.new.left }
    {
        let LeastTurns {
            search,
            resting,
            rounds,
            mut local,
        } = self;
        if let Some(other) = resting {
            return exchanged(search, other, local);
        }
        if search.turn().is_by_tree() {
            let search = search.beside(alloc, Turn::narrow(), budget)?;
            return Ok(LeastTurns {
                search,
                resting: None,
                rounds: None,
                local,
            });
        }
        let mut rounds = match rounds {
            Some(rounds) => rounds,
            None => Rounds::new(alloc),
        };
        local.earn(search.seek_cuts(alloc, &mut rounds, budget)?);
        after_rounds(alloc, search, rounds, local)
    }
}

/// The turn after one of rounds for cuts: of a search with the cuts if they are useful, and else of the same
/// search.
fn after_rounds(
    alloc: Global,
    search: LeastSearch,
    rounds: Rounds,
    local: Local,
) -> Result<LeastTurns, Memory>
    ensures network { IfOk result (λ turns. turns.search.network ≡ search.network) }
    ensures cap { IfOk result (λ turns. turns.search.cap ≡ search.cap) }
{
    let turn = search.turn();
    if rounds.is_open() || !rounds.are_of_use(search.aim()) {
        return Ok(LeastTurns {
            search: search.at(rounds.turn_beside(turn)),
            resting: None,
            rounds: Some(rounds),
            local,
        });
    }
    let other = search.with_cuts(alloc, turn.longer(), rounds.into_flips())?;
    Ok(LeastTurns {
        search: other,
        resting: Some(search),
        rounds: None,
        local,
    })
}

/// The other search's turn, longer if its bound is no worse.
fn exchanged(search: LeastSearch, other: LeastSearch, local: Local) -> Result<LeastTurns, Memory>
    requires network { other.network ≡ search.network }
    requires cap { other.cap ≡ search.cap }
    ensures network { IfOk result (λ turns. turns.search.network ≡ search.network) }
    ensures cap { IfOk result (λ turns. turns.search.cap ≡ search.cap) }
{
    let is_worse = other.own_bound() < search.own_bound();
    let turn = other.turn().after_both(search.turn(), is_worse);
    let other = other.knowing(&search)?.at(turn);
    Ok(LeastTurns {
        search: other,
        resting: Some(search),
        rounds: None,
        local,
    })
}
