//! Stopped searches for a map of least cost: their open nodes, and the best map found.

ghost use Rattle.std.specs.Prelude.{◌≡◌, ℕ, List, IfOk, IfSome, IsNone, length};
ghost use Rattle.pesp_search_least.specs.Expansions.{limit_of};
ghost use Rattle.pesp_search_least.specs.Spending.{OnlySpends};
ghost use Rattle.pesp_search_least.specs.Sums.{IsLowerBound, IsOutcome, IsStop, StopsWhereSpent};
ghost use Rattle.pesp_search_network.specs.Arcs.{IsCosted, IsMet};
ghost use Rattle.pesp_search_cycles.specs.Maps.{Net};
ghost use Rattle.pesp_search_cycles.specs.Ranges.{AreIn};
ghost use Rattle.pesp_search_cycles.specs.Stacks.{AreEqualBests, IsProgress, IsStack};

use crate::aim::Aim;
use crate::open::whole;
use crate::waiting::{Waiting, asleep, awake};
use crate::{Cycles, Range};
use pesp_base::Memory;
use pesp_search_least::{Budget, Candidate, Limits, Outcome, go_on};
use std::alloc::Global;

/// The limits of a search, and the best map found.
#[derive(Drop)]
pub(crate) struct Progress {
    // No map costs less than the floor; maps below the cap are sought.
    pub(crate) limits: Limits,
    // The best map found below the cap.
    pub(crate) best: Option<Candidate>,
}

/// The open nodes of a search. Each map that costs less than the best, or than the cap if there is none, is in
/// one of them.
#[derive(Drop)]
pub(crate) struct Stack {
    // Nodes of one network with its walks and cuts.
    pub(crate) nodes: Vec<Waiting>,
    // The limits, and the best map found.
    pub(crate) progress: Progress,
}

/// A copy of the best map, if there is one.
fn copy_of(best: &Option<Candidate>) -> Result<Option<Candidate>, Memory>
    ensures { IfOk result (AreEqualBests best.now) }
{
    match best {
        Some(best) => Ok(Some(best.copy()?)),
        None => Ok(None),
    }
}

impl Progress {
    /// Only maps that cost less are useful.
    pub(crate) fn limit(&self) -> u64
        ensures { result ≡ limit_of self.now.limits.cap self.now.best }
    {
        match &self.best {
            Some(best) => best.cost,
            None => self.limits.cap,
        }
    }

    /// What cuts are sought for.
    pub(crate) fn aim(&self) -> Aim {
        Aim {
            best: match &self.best {
                Some(best) => Some(best.cost),
                None => None,
            },
            cap: self.limits.cap,
            floor: self.limits.floor,
        }
    }

    /// A copy.
    pub(crate) fn copy(&self) -> Result<Progress, Memory>
        ensures limits { IfOk result (λ copy. copy.limits ≡ self.now.limits) }
        ensures best { IfOk result (λ copy. AreEqualBests self.now.best copy.best) }
    {
        Ok(Progress {
            limits: self.limits,
            best: copy_of(&self.best)?,
        })
    }
}

impl Stack {
    /// The lower bound of its nodes, without what was known before.
    pub(crate) fn own_bound(&self) -> u64 {
        let mut least = self.progress.limit();
        for node in &self.nodes {
            least = least.min(node.bound.unwrap_or(least));
        }
        least
    }

    /// A search that has not started: the root is open.
    pub(crate) fn new<'a>(
        alloc: Global,
        cycles: &'a Cycles<'a>,
        residues: &[Range],
        progress: Progress,
    ) -> Result<Stack, Memory>
        requires long { length residues.now ≡ cycles.now.network.events }
        requires all { (map : List ℕ) → IsMet cycles.now.network map → AreIn residues.now map }
        requires progress { IsProgress (IsCosted cycles.now.network) progress }
        ensures stack { IfOk result (IsStack cycles.now) }
        ensures progress { IfOk result (λ stack. stack.progress ≡ progress) }
    {
        let root = whole(alloc, cycles, residues, None)?;
        let mut nodes = Vec::new(alloc);
        if nodes.push(root.asleep()).is_err() {
            return Err(Memory);
        }
        Ok(Stack { nodes, progress })
    }

    /// The same search for costs below another cap, if its nodes cover that.
    pub(crate) fn within(self, limits: Limits) -> Option<Stack>
        ensures { (N : Net) → IsStack N self → IsLowerBound (IsCosted N.network) limits.floor
            → IfSome result (λ stack. IsStack N stack × (stack.progress.limits.cap ≡ limits.cap)) }
    {
        let Stack { nodes, progress } = self;
        let limits = Limits {
            floor: limits.floor.max(progress.limits.floor),
            cap: limits.cap,
        };
        let best = match progress.best {
            Some(best) if best.cost < limits.cap => Some(best),
            Some(_) => None,
            None if limits.cap <= progress.limits.cap => None,
            None => return None,
        };
        let progress = Progress { limits, best };
        Some(Stack { nodes, progress })
    }

    /// The same search with what another one for the same has found.
    pub(crate) fn knowing(self, other: &Progress) -> Result<Stack, Memory>
        requires { other.now.limits.cap ≡ self.progress.limits.cap }
        ensures stack { (N : Net) → IsStack N self → IsProgress (IsCosted N.network) other.now
            → IfOk result (IsStack N) }
        ensures cap { IfOk result (λ stack.
            stack.progress.limits.cap ≡ self.progress.limits.cap) }
    {
        let Stack { nodes, progress } = self;
        let limits = Limits {
            floor: progress.limits.floor.max(other.limits.floor),
            cap: progress.limits.cap,
        };
        let best = if other.limit() < progress.limit() {
            copy_of(&other.best)?
        } else {
            progress.best
        };
        let progress = Progress { limits, best };
        Ok(Stack { nodes, progress })
    }

    /// Continues as long as the budget lasts. Returns the result, and the state to resume if the search stops.
    pub(crate) fn advance<'a>(
        self,
        alloc: Global,
        cycles: &'a Cycles<'a>,
        budget: &mut Budget,
    ) -> Result<(Outcome, Option<Stack>), Memory>
        requires { IsStack cycles.now self }
        ensures outcome { IfOk result (λ r. IsOutcome (IsCosted cycles.now.network)
            self.progress.limits.cap r.0) }
        ensures stack { IfOk result (λ r. IfSome r.1 (IsStack cycles.now)) }
        ensures cap { IfOk result (λ r. IfSome r.1 (λ stack.
            stack.progress.limits.cap ≡ self.progress.limits.cap)) }
        ensures ends { IfOk result (λ r. IsNone r.1 → IsStop r.0 → ⊥) }
        ensures spent { IfOk result (λ r. StopsWhereSpent budget.new.left r.0) }
        ensures budget { OnlySpends budget.old.left budget.new.left }
    {
        let Stack { nodes, progress } = self;
        let Progress { limits, best } = progress;
        let mut open = awake(alloc, cycles, nodes)?;
        let outcome = go_on(alloc, &mut open, best, limits, budget)?;
        let Outcome::Spent { best, lower_bound } = &outcome else {
            return Ok((outcome, None));
        };
        let best = copy_of(best)?;
        let limits = Limits {
            floor: limits.floor.max((*lower_bound).min(limits.cap)),
            cap: limits.cap,
        };
        let nodes = asleep(alloc, cycles, open)?;
        let progress = Progress { limits, best };
        Ok((outcome, Some(Stack { nodes, progress })))
    }
}
