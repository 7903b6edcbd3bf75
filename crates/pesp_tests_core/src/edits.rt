//! Edits of instances, their refusals, look-ups and walks, and the limits.

use crate::asserts::{hold, same, same_at};
use crate::changes::{Change, edit_of};
use crate::made::{self, event, id};
use pesp_base::{Activity, Period, Refusal, max_activities, max_events};
use pesp_instance::{Edit, Instance};
use std::process::Abort;

fn activity(rt: &impl Abort, number: u32, from: u32, to: u32) -> Activity {
    made::activity(rt, number, (from, to), (3, 5), 2)
}

fn empty(rt: &(impl Abort + AllocGlobal), period: u16) -> Instance {
    Instance::new(rt.alloc(), Period::new(period).expect(rt, "a period"))
}

fn accepted(rt: &impl Abort, instance: &mut Instance, edit: Edit, message: &str) {
    same(rt, instance.apply(&edit), Ok(()), message);
}

fn refused(rt: &impl Abort, instance: &mut Instance, edit: Edit, refusal: Refusal, message: &str) {
    same(rt, instance.apply(&edit), Err(refusal), message);
}

/// The result of an edit, by the numbers of events and activities.
#[derive(Clone, Copy)]
enum Answer {
    Accepted,
    /// The event is an end of the activity.
    EventInUse(u32, u32),
    EventExists(u32),
    NotFixed(u32),
}

fn answer_of(rt: &impl Abort, answer: Answer) -> Result<(), Refusal> {
    match answer {
        Answer::Accepted => Ok(()),
        Answer::EventInUse(number, by) => Err(Refusal::EventInUse(event(rt, number), id(rt, by))),
        Answer::EventExists(number) => Err(Refusal::EventExists(event(rt, number))),
        Answer::NotFixed(number) => Err(Refusal::NotFixed(event(rt, number))),
    }
}

/// Edits, the result of each, and a message.
type Edits<'a> = &'a [(Change, Answer, &'a str)];

fn assert_answer(
    rt: &impl Abort,
    instance: &mut Instance,
    change: Change,
    answer: Answer,
    message: &str,
) {
    let found = instance.apply(&edit_of(rt, change));
    same(rt, found, answer_of(rt, answer), message);
}

fn try_edits(rt: &impl Abort, instance: &mut Instance, edits: Edits<'_>) {
    for (change, answer, message) in edits {
        assert_answer(rt, instance, *change, *answer, message);
    }
}

/// Two events and an activity each way between them, added in no order.
const TWO_ACTIVITIES: Edits<'_> = &[
    (Change::AddEvent(2), Answer::Accepted, "event 2 is new"),
    (Change::AddEvent(1), Answer::Accepted, "event 1 is new"),
    (
        Change::AddActivity(2, (2, 1), (3, 5), 2),
        Answer::Accepted,
        "activity 2 is new",
    ),
    (
        Change::AddActivity(1, (1, 2), (3, 5), 2),
        Answer::Accepted,
        "activity 1 is new",
    ),
];

/// The two activities after these edits.
fn edited(rt: &(impl Abort + AllocGlobal), edits: Edits<'_>) -> Instance {
    let mut instance = empty(rt, 10);
    try_edits(rt, &mut instance, TWO_ACTIVITIES);
    try_edits(rt, &mut instance, edits);
    instance
}

const REFUSALS: Edits<'_> = &[
    (
        Change::DropEvent(1),
        Answer::EventInUse(1, 1),
        "event 1 is used by activity 1",
    ),
    (
        Change::AddEvent(1),
        Answer::EventExists(1),
        "event 1 exists",
    ),
    (
        Change::Unfix(1),
        Answer::NotFixed(1),
        "event 1 is not fixed",
    ),
];

/// Tries each edit of the two activities. A call drops the instance: a drop at the end makes the
/// proof slower.
fn try_edited(rt: &(impl Abort + AllocGlobal), edits: Edits<'_>) {
    drop(edited(rt, edits));
}

#[test]
fn refusals(rt: HostRuntime) {
    try_edited(&rt, REFUSALS);
}

const ENDS_CHANGED: Edits<'_> = &[
    (Change::AddEvent(3), Answer::Accepted, "event 3 is new"),
    (
        Change::SetEnds(2, 3, 1),
        Answer::Accepted,
        "activity 2 has new ends",
    ),
    (
        Change::DropEvent(2),
        Answer::EventInUse(2, 1),
        "event 2 is used by activity 1",
    ),
];

#[test]
fn ends_changed(rt: HostRuntime) {
    try_edited(&rt, ENDS_CHANGED);
}

/// Period 10, two events and two activities.
fn assert_two_of_each(rt: &impl Abort, instance: &Instance) {
    same(rt, instance.period().get(), 10, "the period");
    same(rt, instance.event_count(), 2, "events");
    same(rt, instance.activity_count(), 2, "activities");
}

fn assert_activity(rt: &impl Abort, instance: &Instance, activity: Activity) {
    let found = instance.activity(activity.id).copied();
    same(rt, found, Some(activity), "an activity");
}

const SECOND_FIXED: Edits<'_> = &[(Change::Fix(2, 7), Answer::Accepted, "event 2 is fixed")];

/// Event 1 exists, and event 2 is fixed at 7.
fn assert_second_fixed(rt: &impl Abort, instance: &Instance) {
    hold(rt, instance.has_event(event(rt, 1)), "event 1");
    same(rt, instance.fixed(event(rt, 2)), Some(7), "event 2");
}

fn assert_looked_up(rt: &impl Abort, instance: &Instance) {
    assert_two_of_each(rt, instance);
    assert_second_fixed(rt, instance);
    assert_activity(rt, instance, activity(rt, 1, 1, 2));
}

#[test]
fn look_ups(rt: HostRuntime) {
    let instance = edited(&rt, SECOND_FIXED);
    assert_looked_up(&rt, &instance);
    drop(instance);
}

fn assert_events(rt: &(impl Abort + AllocGlobal), instance: &Instance, numbers: &[u32]) {
    let walk = instance.events().map(|e| e.id.get());
    let found = walk.collect::<Vec<u32>>(rt.alloc()).expect(rt, "memory");
    same(rt, found.as_slice(), numbers, "events");
}

fn assert_activities(rt: &(impl Abort + AllocGlobal), instance: &Instance, numbers: &[u32]) {
    let walk = instance.activities().map(|a| a.id.get());
    let found = walk.collect::<Vec<u32>>(rt.alloc()).expect(rt, "memory");
    same(rt, found.as_slice(), numbers, "activities");
}

fn assert_around(rt: &(impl Abort + AllocGlobal), instance: &Instance, at: u32, numbers: &[u32]) {
    let walk = instance.around(event(rt, at)).map(|a| a.id.get());
    let found = walk.collect::<Vec<u32>>(rt.alloc()).expect(rt, "memory");
    same_at(rt, found.as_slice(), numbers, "around event", at);
}

/// Events and the activities around each.
type Around<'a> = &'a [(u32, &'a [u32])];

fn assert_all_around(rt: &(impl Abort + AllocGlobal), instance: &Instance, around: Around<'_>) {
    for (at, numbers) in around {
        assert_around(rt, instance, *at, numbers);
    }
}

const LOOP_ADDED: Edits<'_> = &[(
    Change::AddActivity(3, (2, 2), (3, 5), 2),
    Answer::Accepted,
    "a loop at event 2",
)];

const WITH_A_LOOP: Around<'_> = &[(1, &[1, 2]), (2, &[1, 2, 3])];

fn assert_walks(rt: &(impl Abort + AllocGlobal), instance: &Instance) {
    assert_events(rt, instance, &[1, 2]);
    assert_activities(rt, instance, &[1, 2, 3]);
    assert_all_around(rt, instance, WITH_A_LOOP);
}

const FIRST_DROPPED: Edits<'_> = &[(Change::DropActivity(1), Answer::Accepted, "activity 1 goes")];

const WITHOUT_THE_FIRST: Around<'_> = &[(2, &[2, 3])];

#[test]
fn walks(rt: HostRuntime) {
    let mut instance = edited(&rt, LOOP_ADDED);
    assert_walks(&rt, &instance);
    try_edits(&rt, &mut instance, FIRST_DROPPED);
    assert_all_around(&rt, &instance, WITHOUT_THE_FIRST);
    drop(instance);
}

/// Adds the greatest number of events. One more is refused.
fn fill_events(rt: &impl Abort, instance: &mut Instance) {
    let most = max_events(instance.period()) as u32;
    for number in 0..most {
        accepted(rt, instance, Edit::AddEvent(event(rt, number)), "an event");
    }
    let one_more = Edit::AddEvent(event(rt, most));
    let full = Refusal::TooManyEvents;
    refused(rt, instance, one_more, full, "one event too many");
}

/// Adds the greatest number of activities between the events. One more is refused.
fn fill_activities(rt: &impl Abort, instance: &mut Instance) {
    let events = max_events(instance.period()) as u32;
    let most = max_activities(instance.period()) as u32;
    for number in 0..most {
        let one = activity(rt, number, number % events, number / 5 % events);
        accepted(rt, instance, Edit::AddActivity(one), "an activity");
    }
    let one_more = Edit::AddActivity(activity(rt, most, 1, 2));
    let full = Refusal::TooManyActivities;
    refused(rt, instance, one_more, full, "one activity too many");
}

/// Fills an instance with this number of events and activities, which are the greatest.
fn fill(rt: &impl Abort, instance: &mut Instance, events: usize, activities: usize) {
    fill_events(rt, instance);
    fill_activities(rt, instance);
    same(rt, instance.event_count(), events, "events");
    same(rt, instance.activity_count(), activities, "activities");
}

#[test]
fn limits(rt: HostRuntime) {
    let mut instance = empty(&rt, 60);
    fill(&rt, &mut instance, 20_000, 100_000);
    drop(instance);
}

#[test]
fn limits_past_two_hours(rt: HostRuntime) {
    let mut instance = empty(&rt, 121);
    fill(&rt, &mut instance, 19_834, 99_173);
    drop(instance);
}

#[test]
fn limits_at_the_longest_period(rt: HostRuntime) {
    let mut instance = empty(&rt, 1_440);
    fill(&rt, &mut instance, 1_666, 8_333);
    drop(instance);
}

const THE_SAME_ENDS: Edits<'_> = &[(
    Change::SetEnds(1, 1, 2),
    Answer::Accepted,
    "activity 1 stays where it is",
)];

const BOTH_AROUND_BOTH: Around<'_> = &[(1, &[1, 2]), (2, &[1, 2])];

#[test]
fn the_same_ends(rt: HostRuntime) {
    let instance = edited(&rt, THE_SAME_ENDS);
    assert_all_around(&rt, &instance, BOTH_AROUND_BOTH);
    drop(instance);
}

/// Activities, each by its number and its ends.
type Given<'a> = &'a [(u32, u32, u32)];

fn activities_of(rt: &(impl Abort + AllocGlobal), given: Given<'_>) -> Vec<Activity> {
    let mut activities = Vec::new(rt.alloc());
    for (number, from, to) in given {
        let one = activity(rt, *number, *from, *to);
        hold(rt, activities.push(one).is_ok(), "memory");
    }
    activities
}

/// The instance of events 1 and 2 with these activities, if they can be stored at once.
fn stored(rt: &(impl Abort + AllocGlobal), given: Given<'_>) -> Option<Instance> {
    let mut instance = empty(rt, 10);
    accepted(rt, &mut instance, Edit::AddEvent(event(rt, 2)), "event 2");
    accepted(rt, &mut instance, Edit::AddEvent(event(rt, 1)), "event 1");
    let stored = instance.with_activities(activities_of(rt, given));
    stored.ok().expect(rt, "memory")
}

/// Two activities each way, and a loop.
const STORED_AT_ONCE: Given<'_> = &[(2, 2, 1), (3, 2, 2), (1, 1, 2)];

#[test]
fn stored_at_once(rt: HostRuntime) {
    let instance = stored(&rt, STORED_AT_ONCE).expect(&rt, "all are stored");
    assert_walks(&rt, &instance);
    drop(instance);
}

fn refused_at_once(rt: &(impl Abort + AllocGlobal), given: Given<'_>, message: &str) {
    hold(rt, stored(rt, given).is_none(), message);
}

#[test]
fn not_stored_at_once(rt: HostRuntime) {
    refused_at_once(&rt, &[(1, 1, 2), (1, 2, 1)], "a number stands twice");
    refused_at_once(&rt, &[(1, 1, 3)], "there is no event 3");
}
