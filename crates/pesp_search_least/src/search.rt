//! The search for a least sum: depth first, over a stack of open nodes.

ghost use Rattle.std.specs.Prelude.{◌≡◌, ◌≢◌, ◌≤◌, ◌<◌, ◌++◌, ◌∷◌, [], ℕ, All, IfOk, IfSome, OnOk, Some};
ghost use Rattle.pesp_search_least.specs.Expansions.{limit_of};
ghost use Rattle.pesp_search_least.specs.Reached.{IsLeft, IsReached};
ghost use Rattle.pesp_search_least.specs.Spending.{OnlySpends, SpendsUnit};
ghost use Rattle.pesp_search_least.specs.Sums.{InSome, IsLowerBound, IsOutcome, IsStop, StopsWhereSpent};

use crate::expand::expand;
use crate::incumbent::Incumbent;
use crate::{Budget, Candidate, Limits, Outcome, Relaxation};
use pesp_base::Memory;
use std::alloc::Global;

/// A lower bound on the sums of a node, or the limit if that is smaller.
fn bound_of<R: Relaxation>(node: &R, limit: u64) -> u64
    ensures bound { IsLowerBound (R.sums node.now) result }
    ensures within { result ≤ limit }
{
    match node.bound() {
        Some(bound) => bound.min(limit),
        None => limit,
    }
}

/// The least of the limit and the bounds of these nodes.
fn lowest<R: Relaxation>(nodes: &[R], limit: u64) -> u64
    ensures bound { IsLowerBound (InSome R.sums nodes.now) result }
    ensures within { result ≤ limit }
{
    let mut lower_bound = limit;
    for node in nodes {
        lower_bound = bound_of(node, lower_bound);
    }
    lower_bound
}

/// Pushes both halves, the first one on top.
fn push_halves<R: Drop>(nodes: &mut Vec<R>, first: R, second: R) -> Result<(), Memory>
    ensures { OnOk result (nodes.new.items ≡ (nodes.old.items ++ second ∷ []) ++ first ∷ []) }
{
    if nodes.push(second).is_err() || nodes.push(first).is_err() {
        return Err(Memory);
    }
    Ok(())
}

/// A stack of one node.
fn stack_of<R: Drop>(alloc: Global, root: R) -> Result<Vec<R>, Memory>
    ensures { IfOk result (λ nodes. nodes.items ≡ root ∷ []) }
{
    let mut nodes = Vec::new(alloc);
    if nodes.push(root).is_err() {
        return Err(Memory);
    }
    Ok(nodes)
}

/// Resumes a search with these open nodes, the last one first, and this incumbent: a map of least sum of all
/// that the nodes contain, if some sum is below the cap.
///
/// Without a limit in the budget the search runs to its end. With one it stops when the budget is empty, and
/// returns the best candidate and a lower bound on every sum below the cap. The remaining nodes and the best
/// candidate are then enough to resume it. Each expansion spends one unit.
pub fn go_on<R: Relaxation>(
    alloc: Global,
    nodes: &mut Vec<R>,
    best: Option<Candidate>,
    limits: Limits,
    budget: &mut Budget,
) -> Result<Outcome, Memory>
    requires floor { IsLowerBound (IsReached R.sums nodes.old.items best) limits.floor }
    requires below { IfSome best (λ best. best.cost < limits.cap) }
    ensures outcome { IfOk result (IsOutcome (IsReached R.sums nodes.old.items best) limits.cap) }
    ensures left { IfOk result (IsLeft R.sums (IsReached R.sums nodes.old.items best) nodes.new.items limits.cap best) }
    ensures base { OnOk result ((b : R.Base) → All (λ n. R.base n ≡ b) nodes.old.items
        → All (λ n. R.base n ≡ b) nodes.new.items) }
    ensures spent { IfOk result (StopsWhereSpent budget.new.left) }
    ensures budget { OnlySpends budget.old.left budget.new.left }
    // Without a unit no node is expanded, so nothing more is known.
    ensures stops { limits.floor < limit_of limits.cap best → nodes.old.items ≢ [] → budget.old.left ≡ Some 0
        → IfOk result IsStop }
    ensures spends { limits.floor < limit_of limits.cap best → nodes.old.items ≢ [] → budget.old.left ≢ Some 0
        → OnOk result (SpendsUnit budget.old.left budget.new.left) }
{
    let mut incumbent = Incumbent::new(limits.cap, best);
    'expansions: while limits.floor < incumbent.limit() && !nodes.is_empty() {
        if budget.is_spent() {
            let lower_bound = lowest(nodes, incumbent.limit());
            return Ok(Outcome::Spent {
                best: incumbent.best,
                lower_bound: lower_bound.max(limits.floor),
            });
        }
        let Some(mut node) = nodes.pop() else {
            break;
        };
        if let Some(other) = expand(alloc, &mut node, &mut incumbent, budget)? {
            push_halves(nodes, node, other)?;
        }
    }
    Ok(incumbent.outcome())
}

/// A map of least sum, if some sum is below the cap.
///
/// Without a limit in the budget the search runs to its end. With one it stops when the budget is empty, and
/// returns the best candidate and a lower bound on every sum below the cap. Each expansion spends one unit.
pub fn least<R: Relaxation>(
    alloc: Global,
    root: R,
    limits: Limits,
    budget: &mut Budget,
) -> Result<Outcome, Memory>
    requires floor { IsLowerBound (R.sums root) limits.floor }
    ensures outcome { IfOk result (IsOutcome (R.sums root) limits.cap) }
    ensures spent { IfOk result (StopsWhereSpent budget.new.left) }
    ensures budget { OnlySpends budget.old.left budget.new.left }
    // Without a unit no node is expanded, so nothing is known.
    ensures stops { limits.floor < limits.cap → budget.old.left ≡ Some 0 → IfOk result IsStop }
    ensures spends { limits.floor < limits.cap → budget.old.left ≢ Some 0
        → OnOk result (SpendsUnit budget.old.left budget.new.left) }
{
    let mut nodes = stack_of(alloc, root)?;
    go_on(alloc, &mut nodes, None, limits, budget)
}
