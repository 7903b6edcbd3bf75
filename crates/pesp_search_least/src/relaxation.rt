//! Relaxations: sets of maps with a lower bound on their sums, which can be split.

use crate::{Budget, Candidate};
use pesp_base::Memory;
use std::alloc::Global;

/// The result of a split.
#[derive(Drop)]
pub enum Split<R> {
    /// No map has a smaller sum than this one.
    Solved(Candidate),
    /// No map has a sum.
    Empty,
    /// The relaxation is now the half to search first. This is the other half.
    Halves(R),
}

/// A set of maps from events to residues, each with a sum, and a lower bound on the sums.
///
/// A map may lose its sum, by a cut or because a split moves it to the other half. No map gets another sum. How
/// to compute the bound, and which cuts and splits to make, is up to the relaxation.
pub trait Relaxation: Drop {
    ghost use Rattle.std.specs.Prelude.{◌≡◌, ℕ, ◌<◌, ◌≤◌, IfOk, IfSome, MatchOption};
    ghost use Rattle.pesp_search_least.specs.Spending.{OnlySpends};
    ghost use Rattle.pesp_search_least.specs.Sums.{IsCandidate, IsCut, IsEmpty, IsLowerBound, IsOn, IsSplit, Sums};

    /// The sum of each map that has one.
    ghost sums: { Self → Sums };

    /// Decreases with each split, so that the search ends.
    ghost size: { Self → ℕ };

    /// What all nodes of one search share.
    ghost Base: { Type 0 };

    /// The base of this node. Neither tightening nor splitting changes it.
    ghost base: { Self → Base };

    /// A lower bound on every sum, or none if no map has a sum.
    fn bound(&self) -> Option<u64>
        ensures { MatchOption result (IsEmpty (sums self.now)) (IsLowerBound (sums self.now)) };

    /// Tries to raise the bound. Only maps whose sum is at least the cap may lose it. The work is spent from
    /// the budget, and may stop once the budget is empty.
    fn tighten(&mut self, cap: u64, budget: &mut Budget)
        ensures cut { IsCut cap (sums self.old) (sums self.new) }
        ensures size { size self.new ≤ size self.old }
        ensures base { base self.new ≡ base self.old }
        ensures budget { OnlySpends budget.old.left budget.new.left };

    /// A map with its sum, if one is available.
    fn candidate(&self, alloc: Global) -> Result<Option<Candidate>, Memory>
        ensures { IfOk result (λ found. IfSome found (IsCandidate (sums self.now))) };

    /// Splits the maps in two. Returns a map of least sum if one is known, and `Empty` if no map has a sum.
    fn split(&mut self, alloc: Global) -> Result<Split<Self>, Memory>
        ensures split { IfOk result (IsSplit sums size self.old self.new) }
        ensures base { base self.new ≡ base self.old }
        ensures other { IfOk result (IsOn base (base self.old)) };
}
