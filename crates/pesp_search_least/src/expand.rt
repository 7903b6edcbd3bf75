//! The expansion of one node.

ghost use Rattle.std.specs.Prelude.{◌≡◌, ◌≢◌, ◌≤◌, ℕ, IfOk, IfSome, OnOk, Some};
ghost use Rattle.pesp_search_least.specs.Spending.{SpendsUnit};
ghost use Rattle.pesp_search_least.specs.Expansions.{IsBetter, IsExpanded, limit_of};

use crate::incumbent::Incumbent;
use crate::{Budget, Relaxation, Split};
use pesp_base::Memory;
use std::alloc::Global;

/// Tightens a node, asks it for a candidate, and splits it if its bound is below the limit.
///
/// After a split the node is the half to search first; the other half is returned.
pub(crate) fn expand<R: Relaxation>(
    alloc: Global,
    node: &mut R,
    incumbent: &mut Incumbent,
    budget: &mut Budget,
) -> Result<Option<R>, Memory>
    requires { budget.old.left ≢ Some 0 }
    ensures expanded { IfOk result (IsExpanded (limit_of incumbent.new.cap incumbent.new.best)
        R.sums R.size node.old node.new) }
    ensures base { R.base node.new ≡ R.base node.old }
    ensures other { IfOk result (λ other. IfSome other (λ other. R.base other ≡ R.base node.old)) }
    ensures cap { incumbent.new.cap ≡ incumbent.old.cap }
    ensures better { IsBetter (R.sums node.old) incumbent.old.cap incumbent.old.best
        incumbent.new.best }
    ensures budget { SpendsUnit budget.old.left budget.new.left }
{
    budget.spend(1);
    node.tighten(incumbent.limit(), budget);
    let Some(bound) = node.bound() else {
        return Ok(None);
    };
    if incumbent.limit() <= bound {
        return Ok(None);
    }
    if let Some(candidate) = node.candidate(alloc)? {
        incumbent.keep(candidate);
        if incumbent.limit() <= bound {
            return Ok(None);
        }
    }
    match node.split(alloc)? {
        Split::Solved(candidate) => {
            incumbent.keep(candidate);
            Ok(None)
        }
        Split::Empty => Ok(None),
        Split::Halves(other) => Ok(Some(other)),
    }
}
