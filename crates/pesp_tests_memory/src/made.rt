//! What the calls need.

use pesp_base::{Activity, ActivityId, EventId, Period, Span, Weight};
use pesp_instance::{Edit, Instance};
use std::alloc::Global;

/// Events and activities have numbers below this. It trades run time for more growths of each
/// container; no measurement chose it.
pub(crate) const MANY: u32 = 14;

pub(crate) fn activity(number: u32, from: u32, to: u32) -> Option<Activity> {
    Some(Activity {
        id: ActivityId::new(number)?,
        from: EventId::new(from)?,
        to: EventId::new(to)?,
        span: Span::new(3, 5).ok()?,
        weight: Weight::new(2)?,
    })
}

/// The edits that make the instance of [`two`].
fn first_edits() -> Option<[Edit; 5]> {
    let first = EventId::new(1)?;
    Some([
        Edit::AddEvent(first),
        Edit::AddEvent(EventId::new(2)?),
        Edit::AddActivity(activity(1, 1, 2)?),
        Edit::AddActivity(activity(2, 2, 1)?),
        Edit::Fix(first, 7),
    ])
}

/// An instance at period 10 of two events, the first of them fixed, and an activity each way between them.
pub(crate) fn two(alloc: Global) -> Option<Instance> {
    let edits = first_edits()?;
    let mut instance = Instance::new(alloc, Period::new(10)?);
    for edit in &edits {
        instance.apply(edit).ok()?;
    }
    Some(instance)
}

/// The same with more activities. They make too many cycles, so only the tree is searched.
pub(crate) fn dense(alloc: Global) -> Option<Instance> {
    let mut instance = two(alloc)?;
    for number in 3..1_005 {
        instance
            .apply(&Edit::AddActivity(activity(number, 1, 2)?))
            .ok()?;
    }
    Some(instance)
}

/// The edits that allocate, each of a number: a new event, a new activity, an activity that leads
/// to another event.
pub(crate) fn edit(kind: Kind, number: u32) -> Option<Edit> {
    Some(match kind {
        Kind::Event => Edit::AddEvent(EventId::new(number)?),
        Kind::Activity => Edit::AddActivity(activity(number, 1, 2)?),
        Kind::Ends => Edit::SetEnds(
            ActivityId::new(number)?,
            EventId::new(2)?,
            EventId::new(number)?,
        ),
    })
}

#[derive(Clone, Copy)]
pub(crate) enum Kind {
    Event,
    Activity,
    Ends,
}

/// Each kind, in an order in which all are accepted.
pub(crate) const KINDS: [Kind; 3] = [Kind::Event, Kind::Activity, Kind::Ends];
