//! Places, rows and counts of an instance, and how they are made.

ghost use Rattle.std.specs.Prelude.{◌≡◌, ◌≤◌, ℕ, None, Some, Ok, [], length, IfOk, OnOk, OnErr, vec_capacity};
ghost use Rattle.pesp_instance.specs.declared.edit.Edit.TheVariants as edits;
ghost use Rattle.pesp_instance.specs.Edited.{edited, effect};
ghost use Rattle.pesp_instance.specs.Network.{IsNetwork, Network};
ghost use Rattle.pesp_counts_arcs.specs.Links.{IsChangedAt};
ghost use Rattle.pesp_counts_arcs.specs.Places.{place_of};
ghost use Rattle.pesp_counts_supports.specs.Supports.{HaveSameShape, IsRoomier};
ghost use Rattle.pesp_counts.specs.Keeping.{AreFor, AreSettled, IsHousedAt, KeepsRoom, SeeSame};

use super::Pushed;
use super::limits::limit_windows;
use pesp_base::{Activity, EventId, Period};
use pesp_counts_arcs::Links;
use pesp_counts_supports::{Back, Supports};
use pesp_domains::Pair;
use pesp_instance::Instance;
use std::alloc::{AllocError, Global};

/// Places, rows and counts, and what an edit restores.
#[derive(Drop)]
pub struct Counted {
    /// The links represent the instance.
    pub links: Links,
    /// The rows are the domains under the pushed pairs, and nothing waits to be counted out.
    pub supports: Supports,
    /// The pairs that the last edit restored, by place. Cleared at the next edit.
    pub back: Back,
    /// The same by number, for the last accepted edit.
    pub restored: Vec<Pair>,
}

/// Gives a new event a place and empty rows. If memory runs out, the links still represent the same
/// instance.
pub fn house_event(
    alloc: Global,
    counted: &mut Counted,
    event: EventId,
) -> Result<usize, AllocError>
    requires absent { place_of (counted.old.links).events event ≡ None }
    ensures grown { IsRoomier counted.old.supports counted.new.supports }
    ensures ok { OnOk result ((I : Network) → AreFor I counted.old.links counted.old.supports
        → AreFor (effect I (edits.AddEvent event)) counted.new.links counted.new.supports) }
    ensures place { IfOk result (λ p. IsHousedAt counted.old.links counted.new.links event p) }
    ensures back { OnErr result ((I J : Network) → IsNetwork I
        → edited I (edits.AddEvent event) ≡ Ok J → AreFor I counted.old.links counted.old.supports
        → AreFor I counted.new.links counted.new.supports
        × SeeSame counted.old.links counted.new.links) }
    ensures room { KeepsRoom counted.old counted.new }
    ensures listed { counted.new.back.items ≡ counted.old.back.items }
    ensures restored { counted.new.restored.items ≡ counted.old.restored.items }
{
    let place = counted.links.add_event(event)?;
    if let Err(fault) = counted.supports.make_rows(
        alloc,
        counted.links.places(),
        &mut counted.back,
        &mut counted.restored,
    ) {
        counted.links.drop_event(event);
        return Err(fault);
    }
    Ok(place)
}

/// Gives each event a place and empty rows.
fn house_events(alloc: Global, instance: &Instance, counted: &mut Counted) -> Result<(), AllocError>
    requires { AreFor (record instance.now { events = []; activities = [] }) counted.old.links
        counted.old.supports }
    ensures ok { OnOk result (AreFor (record instance.now { activities = [] }) counted.new.links
        counted.new.supports) }
    ensures room { KeepsRoom counted.old counted.new }
    ensures restored { counted.new.restored.items ≡ counted.old.restored.items }
{
    // Reserves all rows at once, which saves moving them: docs/HISTORY.md, "Numbers looked up by a
    // guess".
    counted.supports.make_rows(
        alloc,
        instance.event_count(),
        &mut counted.back,
        &mut counted.restored,
    )?;
    for event in instance.events() {
        house_event(alloc, counted, event.id)?;
    }
    Ok(())
}

/// Gives a new activity a place, lists its ends, and makes their counts. If memory runs out, the
/// links still represent the same instance.
pub fn house_activity(
    period: Period,
    links: &mut Links,
    supports: &mut Supports,
    activity: &Activity,
) -> Result<(), AllocError>
    requires period { supports.old.period ≡ period }
    requires stands { (I : Network) × (J : Network)
        × (edited I (edits.AddActivity activity.now) ≡ Ok J) × AreFor I links.old supports.old }
    ensures grown { IsRoomier supports.old supports.new }
    ensures ok { OnOk result ((I J : Network) → edited I (edits.AddActivity activity.now) ≡ Ok J
        → AreFor I links.old supports.old → AreFor J links.new supports.new) }
    ensures changed { OnOk result ((q : ℕ)
        × (place_of (links.new).activities (activity.now).id ≡ Some q)
        × IsChangedAt links.old links.new q) }
    ensures back { OnErr result ((I J : Network) → IsNetwork I
        → edited I (edits.AddActivity activity.now) ≡ Ok J → AreFor I links.old supports.old
        → AreFor I links.new supports.new × SeeSame links.old links.new) }
    ensures rows { length supports.new.rows ≡ length supports.old.rows }
{
    links.add_activity(period, activity)?;
    if let Err(fault) = supports.make_counts(links.end_count()) {
        links.drop_activity(activity.id);
        return Err(fault);
    }
    Ok(())
}

/// Gives each activity a place, and its ends counts.
fn house_activities(
    instance: &Instance,
    links: &mut Links,
    supports: &mut Supports,
) -> Result<(), AllocError>
    requires { AreFor (record instance.now { activities = [] }) links.old supports.old }
    ensures ok { OnOk result (AreFor instance.now links.new supports.new) }
    ensures period { supports.new.period ≡ supports.old.period }
    ensures rows { length supports.new.rows ≡ length supports.old.rows }
{
    // Makes all counts at once, for the same reason as all rows.
    supports.make_counts(instance.activity_count().saturating_mul(2))?;
    for activity in instance.activities() {
        house_activity(instance.period(), links, supports, activity)?;
    }
    Ok(())
}

/// Gives each event and each activity a place, with rows and counts, and reserves room for a push
/// of each event.
pub fn house(
    alloc: Global,
    instance: &Instance,
    pushed: &mut Vec<Pushed>,
    counted: &mut Counted,
) -> Result<(), AllocError>
    requires pushed { pushed.old.items ≡ [] }
    requires start { AreFor (record instance.now { events = []; activities = [] }) counted.old.links
        counted.old.supports }
    ensures ok { OnOk result (AreFor instance.now counted.new.links counted.new.supports) }
    ensures many { OnOk result (length instance.now.events ≤ vec_capacity pushed.new) }
    ensures pushed { pushed.new.items ≡ [] }
    ensures room { KeepsRoom counted.old counted.new }
    ensures restored { counted.new.restored.items ≡ counted.old.restored.items }
{
    // Reserves all places at once, for the same reason as all rows.
    let events = instance.event_count();
    counted.links.make_room(events, instance.activity_count())?;
    pushed.reserve(events)?;
    house_events(alloc, instance, counted)?;
    house_activities(instance, &mut counted.links, &mut counted.supports)
}

/// Makes the rows the domains, whatever they are before.
pub fn remake(instance: &Instance, links: &Links, supports: &mut Supports)
    requires { AreFor instance.now links.now supports.old }
    ensures settled { AreSettled instance.now [] links.now supports.new }
    ensures shape { HaveSameShape supports.old supports.new }
{
    supports.refill(links);
    limit_windows(instance, links, supports);
    supports.settle(links, 0);
}
