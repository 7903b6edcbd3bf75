//! A simple example: one event, and a sum for each of its residues.

ghost use Rattle.std.specs.Prelude.{◌≡◌, ◌≤◌, ◌<◌, ◌∷◌, [], min, ℕ, List, Option, IfOk, MatchOption, Some, None, slice_get};

use pesp_base::Memory;
use pesp_search_least::{Budget, Candidate, Limits, Outcome, Region, Relaxation, Split, least};
use std::alloc::Global;

/// The maps that give the one event a residue from `lowest` on and below `end`.
#[derive(Drop)]
pub(crate) struct Line {
    /// The sum of each residue; None if it has no sum.
    pub(crate) costs: [Option<u64>; 6],
    // The least remaining residue.
    pub(crate) lowest: u16,
    // No residue remains from here on; at most 6.
    pub(crate) end: u16,
    ghost within: { end ≤ 6 },
}

impl Line {
    /// The same with other residues.
    pub(crate) fn part(&self, lowest: u16, end: u16) -> Line
        ensures costs { result.costs ≡ self.now.costs }
        ensures lowest { result.lowest ≡ lowest }
        ensures end { result.end ≡ min end 6 }
    {
        Line {
            costs: self.costs,
            lowest,
            end: end.min(6),
        }
    }

    /// The map that gives the event this residue, if it has a sum.
    fn at(&self, alloc: Global, residue: u16) -> Result<Option<Candidate>, Memory>
        requires { residue < 6 }
        ensures { IfOk result (λ found.
            MatchOption found (slice_get self.now.costs residue ≡ Some None)
            (λ candidate. (candidate.map.items ≡ residue ∷ []) × (slice_get self.now.costs residue ≡ Some (Some candidate.cost)))) }
    {
        let Some(cost) = self.costs[usize::from(residue)] else {
            return Ok(None);
        };
        let Ok(map) = vec![in alloc; residue; 1] else {
            return Err(Memory);
        };
        Ok(Some(Candidate { cost, map }))
    }
}

impl Relaxation for Line {
    ghost use Rattle.std.specs.Prelude.{◌-◌};
    ghost use Rattle.pesp_tests_search.specs.Lines.{IsOnLine};

    ghost sums = { λ line. IsOnLine line.costs line.lowest line.end };

    ghost size = { λ line. line.end - line.lowest };

    ghost Base = { List (Option ℕ) };

    ghost base = { λ line. line.costs };

    fn bound(&self) -> Option<u64> {
        if self.lowest < self.end {
            Some(0)
        } else {
            None
        }
    }

    fn tighten(&mut self, _cap: u64, _budget: &mut Budget) {}

    fn candidate(&self, alloc: Global) -> Result<Option<Candidate>, Memory> {
        if self.lowest < self.end {
            self.at(alloc, self.lowest)
        } else {
            Ok(None)
        }
    }

    fn split(&mut self, alloc: Global) -> Result<Split<Self>, Memory> {
        if self.end <= self.lowest {
            return Ok(Split::Empty);
        }
        let middle = self.lowest + (self.end - self.lowest) / 2;
        if self.lowest < middle {
            let other = self.part(self.lowest, middle);
            self.lowest = middle;
            return Ok(Split::Halves(other));
        }
        match self.at(alloc, self.lowest)? {
            Some(candidate) => Ok(Split::Solved(candidate)),
            None => Ok(Split::Empty),
        }
    }
}

impl Region for Line {
    ghost use Rattle.pesp_tests_search.specs.Lines.{IsOnLine};

    ghost sums = { λ line. IsOnLine line.costs line.lowest line.end };

    ghost events = { λ line. 1 };

    fn events(&self) -> usize {
        1
    }

    fn least_below(
        &self,
        alloc: Global,
        _event: usize,
        residue: u16,
        cost: u64,
        budget: &mut Budget,
    ) -> Result<Outcome, Memory> {
        let limits = Limits {
            floor: cost,
            cap: cost + 1,
        };
        let lesser = self.part(self.lowest, self.end.min(residue));
        least(alloc, lesser, limits, budget)
    }

    fn hold(&mut self, _event: usize, residue: u16) {
        self.lowest = self.lowest.max(residue);
        self.end = self.end.min(residue.saturating_add(1));
    }
}
