//! Numbers, spans and activities for the examples, and assertions that several of them share.

use crate::asserts::same;
use pesp_base::{Activity, ActivityId, EventId, Period, Span, Weight};
use pesp_instance::{Edit, Event, Instance};
use std::process::Abort;

pub(crate) fn period(rt: &impl Abort, length: u16) -> Period {
    Period::new(length).expect(rt, "a period")
}

pub(crate) fn event(rt: &impl Abort, number: u32) -> EventId {
    EventId::new(number).expect(rt, "the number of an event")
}

pub(crate) fn id(rt: &impl Abort, number: u32) -> ActivityId {
    ActivityId::new(number).expect(rt, "the number of an activity")
}

pub(crate) fn span(rt: &impl Abort, lower: i32, upper: i32) -> Span {
    Span::new(lower, upper).expect(rt, "a span")
}

pub(crate) fn weight(rt: &impl Abort, value: u32) -> Weight {
    Weight::new(value).expect(rt, "a weight")
}

/// An activity with this number, from the first of these events to the second.
pub(crate) fn activity(
    rt: &impl Abort,
    number: u32,
    ends: (u32, u32),
    bounds: (i32, i32),
    weighs: u32,
) -> Activity {
    Activity {
        id: id(rt, number),
        from: event(rt, ends.0),
        to: event(rt, ends.1),
        span: span(rt, bounds.0, bounds.1),
        weight: weight(rt, weighs),
    }
}

pub(crate) fn apply(rt: &impl Abort, instance: &mut Instance, edit: Edit) {
    let applied = instance.apply(&edit);
    assert_eq!(rt; applied, Ok(()), "{edit:?}");
}

/// Events 1 and 2 are fixed at these times, or not at all.
pub(crate) fn assert_fixed(
    rt: &impl Abort,
    instance: &Instance,
    times: (Option<u16>, Option<u16>),
    message: &str,
) {
    let fixed = (instance.fixed(event(rt, 1)), instance.fixed(event(rt, 2)));
    same(rt, fixed, times, message);
}

/// An instance at period 10 of one event and nothing else.
pub(crate) fn lone_event(rt: &(impl Abort + AllocGlobal), number: u32) -> Instance {
    let mut instance = Instance::new(rt.alloc(), period(rt, 10));
    apply(rt, &mut instance, Edit::AddEvent(event(rt, number)));
    instance
}

/// An event with this number, without a window.
fn unfixed(rt: &impl Abort, number: u32) -> Event {
    Event {
        id: event(rt, number),
        window: None,
    }
}

fn assert_events(
    rt: &(impl Abort + AllocGlobal),
    instance: &Instance,
    events: &[Event],
    message: &str,
) {
    let walk = instance.events().copied();
    let found = walk.collect::<Vec<Event>>(rt.alloc()).expect(rt, "memory");
    same(rt, found.as_slice(), events, message);
}

fn assert_activities(
    rt: &(impl Abort + AllocGlobal),
    instance: &Instance,
    activities: &[Activity],
    message: &str,
) {
    let walk = instance.activities().copied();
    let found = walk
        .collect::<Vec<Activity>>(rt.alloc())
        .expect(rt, "memory");
    same(rt, found.as_slice(), activities, message);
}

/// The instance has events 1 and 2, an activity each way between them, and nothing else.
pub(crate) fn assert_two_activities(
    rt: &(impl Abort + AllocGlobal),
    instance: &Instance,
    message: &str,
) {
    let events = [unfixed(rt, 1), unfixed(rt, 2)];
    assert_events(rt, instance, &events, message);
    let there = activity(rt, 1, (1, 2), (3, 5), 2);
    let back = activity(rt, 2, (2, 1), (4, 6), 1);
    assert_activities(rt, instance, &[there, back], message);
}
