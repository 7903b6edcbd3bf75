//! Limits events to one residue, or to those of their windows.

ghost use Rattle.std.specs.Prelude.{◌≡◌, ◌<◌, ◌≤◌, ◌+◌, ◌*◌, ◌==◌, ◌&&◌, ℕ, [], Some, IsSome, drop, length, nat_lt};
ghost use Rattle.pesp_instance.specs.Network.{IsNetwork, Network};
ghost use Rattle.pesp_domains.specs.Sweeps.{AreOpen};
ghost use Rattle.pesp_counts_supports.specs.Counts.{has_at};
ghost use Rattle.pesp_counts.specs.declared.keeper.change.PlacedEvent.{PlacedEvent as SomeEvent};
ghost use Rattle.pesp_counts.specs.Changes.{left};
ghost use Rattle.pesp_counts.specs.Keeping.{AreFor, rows_of};
ghost use Rattle.pesp_counts_supports.specs.Resting.{AreAtRest, IsNarrowed};
ghost use Rattle.pesp_counts_arcs.specs.Places.{place_of};
ghost use Rattle.pesp_counts_supports.specs.Supports.{IsTaken, Keeps};
ghost use Rattle.pesp_counts_supports.specs.Spent.{ends_at};

use super::change::PlacedEvent;
use pesp_base::EventId;
use pesp_counts_arcs::Links;
use pesp_counts_supports::Supports;
use pesp_instance::Instance;

/// Removes all residues of an event but one, and then all other pairs left without a partner.
pub fn limit_event(links: &Links, supports: &mut Supports, event: EventId, residue: u16)
    requires fits { (I : Network) × AreFor I links.now supports.old }
    requires rest { AreAtRest links.now supports.old }
    requires place { IsSome (place_of (links.now).events event) }
    ensures narrowed { (p : ℕ) → place_of (links.now).events event ≡ Some p
        → IsNarrowed links.now p (λ r. r == residue) supports.old supports.new }
    ensures probes { (supports.new).probes
        ≤ (supports.old).probes + (supports.old).period
        * ends_at links.now (drop (length (supports.old).trail) (supports.new).trail) }
{
    if let Some(place) = links.event(event) {
        let mark = supports.mark();
        supports.limit(place, residue);
        supports.settle(links, mark);
    }
}

/// Removes the residues of an event that are not in its window, if there is such an event.
pub fn limit(instance: &Instance, supports: &mut Supports, limited: &Option<PlacedEvent>)
    requires period { (supports.old).period ≡ (instance.now).period }
    requires place { (w : SomeEvent) → limited.now ≡ Some w → w.place < length (supports.old).rows }
    ensures rows { (p r : ℕ) → has_at (supports.new).rows p r
        ≡ left instance.now limited.now (has_at (supports.old).rows) p r }
    ensures taken { IsTaken supports.old supports.new }
    ensures keeps { Keeps supports.old supports.new }
    ensures probes { (supports.new).probes ≡ (supports.old).probes }
{
    if let Some(at) = limited {
        if let Some(window) = instance.window(at.event) {
            supports.limit_to(at.place, window);
        }
    }
}

/// Removes the residues that are not in the windows of their events.
pub fn limit_windows(instance: &Instance, links: &Links, supports: &mut Supports)
    requires fits { AreFor instance.now links.now supports.old }
    requires full { (p r : ℕ) → has_at (supports.old).rows p r
        ≡ (nat_lt p (length (supports.old).rows) && nat_lt r (supports.old).period) }
    ensures network { IsNetwork instance.now }
    ensures all { AreOpen instance.now [] (rows_of links.now supports.new) }
    ensures taken { IsTaken supports.old supports.new }
    ensures keeps { Keeps supports.old supports.new }
{
    for event in instance.events() {
        if let Some(place) = links.event(event.id) {
            let event = event.id;
            limit(instance, supports, &Some(PlacedEvent { event, place }));
        }
    }
}
