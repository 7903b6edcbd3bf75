//! Maps of least cost, by pieces of the network that are solved separately.

ghost use Rattle.std.specs.Prelude.{◌≡◌, ◌≢◌, ◌+◌, ◌-◌, ◌<◌, ◌≤◌, ◌^◌, ℕ, Option, Some, IfOk, OnOk};
ghost use Rattle.pesp_search_least.specs.Spending.{OnlySpends, SpendsUnit};
ghost use Rattle.pesp_search_least.specs.Sums.{IsCandidate, IsLeast, IsLowerBound, IsOutcome, IsStop, StopsWhereSpent};
ghost use Rattle.pesp_search_network.specs.Arcs.{IsCosted};
ghost use Rattle.pesp_search_network.specs.Pieces.{IsPeeled};

use crate::pieces::Peeled;
use crate::{Method, Network};
use pesp_base::Memory;
use pesp_search_least::{Budget, Candidate, Limits, Outcome};
use std::alloc::Global;

/// The most pieces peeled off, each from the rest of the one before: it bounds the depth of the recursion, and
/// later pieces are searched together. No trial of this number is recorded; pieces themselves are
/// (docs/HISTORY.md, "What the search could do without").
const MOST_PIECES: usize = 100;

impl Network {
    /// The map of the piece and of the rest joined, with the sum of their costs.
    fn join(&self, peeled: &Peeled, piece: &Candidate, rest: Candidate) -> Candidate
        requires peeled { IsPeeled self.now peeled.now.piece peeled.now.rest
            peeled.now.cut.inner.items peeled.now.cut.joint }
        requires piece { IsCandidate (IsCosted peeled.now.piece) piece.now }
        requires rest { IsCandidate (IsCosted peeled.now.rest) rest }
        requires room { piece.now.cost + rest.cost < 2 ^ 64 }
        ensures costed { IsCandidate (IsCosted self.now) result }
        ensures cost { result.cost ≡ piece.now.cost + rest.cost }
    {
        let Candidate { cost, map } = rest;
        let turn = peeled.cut.turn(self.period(), &piece.map, &map);
        Candidate {
            cost: piece.cost + cost,
            map: peeled.cut.join(self.period(), turn, &piece.map, map),
        }
    }

    /// The outcome if the piece has a map of least cost, and the rest was searched below the cap less that
    /// cost.
    fn joined_outcome(&self, peeled: &Peeled, piece: &Candidate, cap: u64, rest: Outcome) -> Outcome
        requires peeled { IsPeeled self.now peeled.now.piece peeled.now.rest
            peeled.now.cut.inner.items peeled.now.cut.joint }
        requires least { IsLeast (IsCosted peeled.now.piece) piece.now }
        requires below { piece.now.cost ≤ cap }
        requires rest { IsOutcome (IsCosted peeled.now.rest) (cap - piece.now.cost) rest }
        ensures outcome { IsOutcome (IsCosted self.now) cap result }
        ensures spent { (left : Option ℕ) → StopsWhereSpent left rest
            → StopsWhereSpent left result }
    {
        match rest {
            Outcome::Found(rest) => Outcome::Found(self.join(peeled, piece, rest)),
            Outcome::NoneBelow => Outcome::NoneBelow,
            Outcome::Spent { best, lower_bound } => {
                let best = match best {
                    Some(rest) => Some(self.join(peeled, piece, rest)),
                    None => None,
                };
                Outcome::Spent {
                    best,
                    lower_bound: piece.cost.saturating_add(lower_bound),
                }
            }
        }
    }

    /// As [`Network::least`], with at most `pieces` pieces solved separately.
    fn least_apart<M: Method>(
        &self,
        alloc: Global,
        method: &mut M,
        limits: Limits,
        budget: &mut Budget,
        pieces: usize,
    ) -> Result<Outcome, Memory>
        requires floor { IsLowerBound (IsCosted self.now) limits.floor }
        ensures outcome { IfOk result (IsOutcome (IsCosted self.now) limits.cap) }
        ensures spent { IfOk result (StopsWhereSpent budget.new.left) }
        ensures budget { OnlySpends budget.old.left budget.new.left }
        ensures stops { limits.floor < limits.cap → budget.old.left ≡ Some 0 → IfOk result IsStop }
        ensures spends { limits.floor < limits.cap → budget.old.left ≢ Some 0
            → OnOk result (SpendsUnit budget.old.left budget.new.left) }
    {
        if pieces == 0 {
            return method.least(alloc, self, limits, budget);
        }
        let Some(peeled) = self.peel(alloc)? else {
            return method.least(alloc, self, limits, budget);
        };
        let of_piece = Limits {
            floor: 0,
            cap: limits.cap,
        };
        match method.least(alloc, &peeled.piece, of_piece, budget)? {
            Outcome::Found(piece) => {
                let left = Limits {
                    floor: limits.floor.saturating_sub(piece.cost),
                    cap: limits.cap - piece.cost,
                };
                let rest = peeled
                    .rest
                    .least_apart(alloc, method, left, budget, pieces - 1)?;
                Ok(self.joined_outcome(&peeled, &piece, limits.cap, rest))
            }
            Outcome::NoneBelow => Ok(Outcome::NoneBelow),
            Outcome::Spent { lower_bound, .. } => Ok(Outcome::Spent {
                best: None,
                lower_bound: lower_bound.max(limits.floor),
            }),
        }
    }

    /// A map of least cost, if some cost is below the cap. The method searches each piece.
    ///
    /// No cost is below the floor. The search ends with a map of least cost, unless the budget runs out first.
    pub fn least<M: Method>(
        &self,
        alloc: Global,
        method: &mut M,
        limits: Limits,
        budget: &mut Budget,
    ) -> Result<Outcome, Memory>
        requires floor { IsLowerBound (IsCosted self.now) limits.floor }
        ensures outcome { IfOk result (IsOutcome (IsCosted self.now) limits.cap) }
        ensures spent { IfOk result (StopsWhereSpent budget.new.left) }
        ensures budget { OnlySpends budget.old.left budget.new.left }
        // Without a unit nothing is known.
        ensures stops { limits.floor < limits.cap → budget.old.left ≡ Some 0 → IfOk result IsStop }
        ensures spends { limits.floor < limits.cap → budget.old.left ≢ Some 0
            → OnOk result (SpendsUnit budget.old.left budget.new.left) }
    {
        self.least_apart(alloc, method, limits, budget, MOST_PIECES)
    }
}
