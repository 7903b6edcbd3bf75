//! Places, rows and counts follow an edit.

ghost use Rattle.std.specs.Prelude.{◌≡◌, ◌≤◌, ◌*◌, [], false, true, length, Ok, OnOk, OnErr, vec_capacity};
ghost use Rattle.pesp_instance.specs.declared.edit.Edit.TheVariants as edits;
ghost use Rattle.pesp_instance.specs.Edited.{edited};
ghost use Rattle.pesp_instance.specs.Network.{IsNetwork, Network};
ghost use Rattle.pesp_counts_arcs.specs.Links.{StandFor};
ghost use Rattle.pesp_counts_supports.specs.Supports.{HaveSameShape};
ghost use Rattle.pesp_counts.specs.Changes.{Follows, HaveFollowed, IsBefore, IsChange, Stays};
ghost use Rattle.pesp_counts.specs.Keeping.{KeepsRoom, adds};

use super::Pushed;
use super::change::Change;
use super::counted::{Counted, house_activity, house_event};
use super::propagating::propagate;
use pesp_base::{Activity, EventId, Period};
use pesp_counts_arcs::Links;
use pesp_instance::{Edit, Instance};
use std::alloc::{AllocError, Global};

/// Follows an edit that adds an event. If memory runs out, the rows are still the domains of the
/// earlier instance.
pub fn add_event(
    alloc: Global,
    instance: &Instance,
    pushed: &mut Vec<Pushed>,
    counted: &mut Counted,
    event: EventId,
) -> Result<(), AllocError>
    requires pushed { pushed.old.items ≡ [] }
    requires before { (I : Network) × IsBefore I instance.now (edits.AddEvent event) counted.old }
    requires empty { counted.old.back.items ≡ [] }
    ensures ok { OnOk result ((I : Network)
        → Follows I instance.now (edits.AddEvent event) counted.old counted.new) }
    ensures many { OnOk result (length instance.now.events ≤ vec_capacity pushed.new) }
    ensures pushed { pushed.new.items ≡ [] }
    ensures more { vec_capacity pushed.old ≤ vec_capacity pushed.new }
    ensures err { OnErr result ((I : Network)
        → Stays I instance.now (edits.AddEvent event) counted.old counted.new) }
    ensures room { KeepsRoom counted.old counted.new }
    ensures restored { counted.new.restored.items ≡ counted.old.restored.items }
{
    pushed.reserve(instance.event_count())?;
    let place = house_event(alloc, counted, event)?;
    counted.supports.open(place);
    Ok(())
}

/// Follows an edit that adds an activity. If memory runs out, the rows are still the domains of the
/// earlier instance.
pub fn add_activity(
    instance: &Instance,
    counted: &mut Counted,
    activity: &Activity,
) -> Result<(), AllocError>
    requires before { (I : Network)
        × IsBefore I instance.now (edits.AddActivity activity.now) counted.old }
    requires empty { counted.old.back.items ≡ [] }
    requires room { length counted.old.supports.rows * counted.old.supports.period
        ≤ vec_capacity counted.old.back }
    ensures ok { OnOk result ((I : Network)
        → Follows I instance.now (edits.AddActivity activity.now) counted.old counted.new) }
    ensures err { OnErr result ((I : Network)
        → Stays I instance.now (edits.AddActivity activity.now) counted.old counted.new) }
    ensures period { counted.new.supports.period ≡ counted.old.supports.period }
    ensures rows { length counted.new.supports.rows ≡ length counted.old.supports.rows }
    ensures room { vec_capacity counted.new.back ≡ vec_capacity counted.old.back }
    ensures restored { counted.new.restored ≡ counted.old.restored }
{
    let Counted {
        links,
        supports,
        back,
        ..
    } = counted;
    house_activity(instance.period(), links, supports, activity)?;
    let mut change = Change::none();
    change.recounted = links.activity(activity.id);
    propagate(&change, instance, links, supports, back);
    Ok(())
}

/// Follows an edit that adds nothing, by its change.
pub fn follow(instance: &Instance, counted: &mut Counted, edit: &Edit, change: &Change)
    requires adds { adds edit.now ≡ false }
    requires before { (I : Network) × IsBefore I instance.now edit.now counted.old
        × IsChange I edit.now counted.old.links change.now }
    requires empty { counted.old.back.items ≡ [] }
    requires room { length counted.old.supports.rows * counted.old.supports.period
        ≤ vec_capacity counted.old.back }
    ensures followed { (I : Network) → IsChange I edit.now counted.old.links change.now
        → Follows I instance.now edit.now counted.old counted.new }
    ensures shape { HaveSameShape counted.old.supports counted.new.supports }
    ensures room { vec_capacity counted.new.back ≡ vec_capacity counted.old.back }
    ensures restored { counted.new.restored ≡ counted.old.restored }
{
    let Counted {
        links,
        supports,
        back,
        ..
    } = counted;
    relink(instance.period(), links, edit);
    propagate(change, instance, links, supports, back);
}

/// Updates the links after an edit that adds nothing.
fn relink(period: Period, links: &mut Links, edit: &Edit)
    requires adds { adds edit.now ≡ false }
    requires before { (I : Network) × (J : Network) × (I.period ≡ period)
        × (edited I edit.now ≡ Ok J) × StandFor I links.old }
    ensures { (I J : Network) → I.period ≡ period → edited I edit.now ≡ Ok J
        → StandFor I links.old → HaveFollowed I J edit.now links.old links.new }
{
    match *edit {
        Edit::DropEvent(event) => links.drop_event(event),
        Edit::DropActivity(id) => links.drop_activity(id),
        Edit::SetSpan(id, span) => links.set_span(period, id, span),
        Edit::SetEnds(id, from, to) => links.set_ends(id, from, to),
        _ => {}
    }
}

/// Undoes an edit that added an event or an activity for which memory ran out.
pub fn take_back(instance: &mut Instance, edit: &Edit)
    requires { adds edit.now ≡ true }
    ensures { (I : Network) → IsNetwork I → edited I edit.now ≡ Ok instance.old → instance.new ≡ I }
{
    // Nothing refers to what was added, so none of these is refused.
    let undoing = match *edit {
        Edit::AddEvent(event) => Edit::DropEvent(event),
        Edit::AddActivity(activity) => Edit::DropActivity(activity.id),
        _ => return,
    };
    let _ = instance.apply(&undoing);
}
