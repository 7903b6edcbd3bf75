//! Propagation: restores pairs, and removes those without a partner.

ghost use Rattle.std.specs.Prelude.{◌≡◌, ◌≤◌, ◌+◌, ◌*◌, ℕ, List, [], Some, length, vec_capacity};
ghost use Rattle.std.specs.List.{Contains};
ghost use Rattle.pesp_instance.specs.Network.{Network};
ghost use Rattle.pesp_counts_arcs.specs.Ends.{ends_of};
ghost use Rattle.pesp_counts_supports.specs.Counts.{KeepsClosed, has_at};
ghost use Rattle.pesp_counts_supports.specs.Resting.{ArePendingBut};
ghost use Rattle.pesp_counts_supports.specs.Supports.{HaveSameShape, IsTaken, Keeps};
ghost use Rattle.pesp_counts_supports.specs.declared.trail.Placed.{Placed as SomePlaced};
ghost use Rattle.pesp_counts.specs.Changes.{AreWaitingBut, IsPutBack, IsReady};
ghost use Rattle.pesp_counts.specs.Keeping.{AreFor};
ghost use Rattle.pesp_counts.specs.Works.{IsWorked};

use super::change::Change;
use super::limits::limit;
use pesp_counts_arcs::Links;
use pesp_counts_supports::{Back, Supports};
use pesp_instance::Instance;

/// Restores what a change reaches, and removes what its window excludes and what has no partner.
pub fn propagate(
    change: &Change,
    instance: &Instance,
    links: &Links,
    supports: &mut Supports,
    back: &mut Back,
)
    requires ready { IsReady instance.now links.now supports.old change.now }
    requires empty { (back.old).items ≡ [] }
    requires room { length (supports.old).rows * (supports.old).period ≤ vec_capacity (back.old) }
    ensures back { IsPutBack instance.now links.now change.now supports.old supports.new
        (back.new).items }
    ensures room { vec_capacity (back.new) ≡ vec_capacity (back.old) }
    ensures worked { IsWorked links.now supports.old supports.new (back.new).items }
{
    let starts = change.loosened.places();
    supports.restore(instance, links, starts, change.recounted, back);
    limit(instance, supports, &change.limited);
    recount(links, supports, change.recounted);
    supports.settle_back(links, back);
}

/// Recounts both ends of an activity, if its place is given, and removes the pairs without a
/// partner there.
fn recount(links: &Links, supports: &mut Supports, recounted: Option<usize>)
    requires fits { (I : Network) × AreFor I links.now supports.old }
    requires listed { (q : ℕ) → recounted ≡ Some q
        → (p : ℕ) × Contains (ends_of (links.now).lists p) (2 * q) }
    ensures counted { (back : List SomePlaced)
        → AreWaitingBut links.now supports.old recounted back
        → ArePendingBut links.now supports.new back
        × KeepsClosed (supports.old).period (links.now).ends (links.now).lists
        (has_at (supports.old).rows) (has_at (supports.new).rows) }
    ensures taken { IsTaken supports.old supports.new }
    ensures shape { HaveSameShape supports.old supports.new }
    ensures probes { (supports.new).probes ≤ (supports.old).probes + 8 * (supports.old).period }
{
    if let Some(place) = recounted {
        let tail = links.tail_at(place);
        let end = links.end(tail);
        let head = end.mate as usize;
        let mate = links.end(head);
        supports.recount(tail, end);
        supports.recount(head, mate);
        supports.sift(mate.looks_at as usize, tail);
        supports.sift(end.looks_at as usize, head);
    }
}
