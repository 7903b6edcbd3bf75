//! The path to the current node of a search.

ghost use Rattle.std.specs.Prelude.{◌≡◌, ◌≤◌, ◌<◌, ◌*◌, ◌-◌, ◌++◌, ◌∷◌, [], IsSome, IsTrue, IfOk, None, length, filter, sum_by, slice_index, vec_capacity};
ghost use Rattle.pesp_base.specs.Limits.{greatest_period, greatest_weight, max_activities};
ghost use Rattle.pesp_instance.specs.Network.{IsNetwork, around, event_ids};
ghost use Rattle.pesp_tension.specs.Answers.{cost_in, first_missing};
ghost use Rattle.pesp_tension.specs.Timetables.{time_of, with_time};
ghost use Rattle.pesp_search.specs.Branch.{IsBranch, IsFront, IsPopped, is_complete_at};
ghost use Rattle.pesp_search.specs.Nodes.{known_cost};

use pesp_base::{Activity, EventId, Memory};
use pesp_instance::Instance;
use pesp_tension::{Timetable, cost_of_activity};
use std::alloc::Global;

/// The times of the leading events, and their known cost.
#[derive(Drop)]
pub(crate) struct Branch {
    // The time of each pushed pair, in the order of the events.
    pub(crate) times: Vec<u16>,
    // The cost of the activities both of whose ends have times.
    pub(crate) cost: u64,
    // These times, and any time for each later event, so that setting a time needs no memory.
    pub(crate) timetable: Timetable,
}

/// Whether neither end of the activity comes after this event.
fn is_complete_at(activity: &Activity, event: EventId) -> bool
    ensures { result ≡ is_complete_at event activity.now }
{
    activity.from <= event && activity.to <= event
}

/// The cost of the activities that end or start at the event and have no later end.
fn cost_completed_at(instance: &Instance, timetable: &Timetable, event: EventId) -> u64
    requires { first_missing instance.now timetable.now ≡ None }
    ensures value { result ≡ sum_by (cost_in timetable.now)
        (filter (is_complete_at event) (around instance.now event)) }
    ensures small { result ≤ greatest_weight * (greatest_period - 1)
        * max_activities instance.now.period }
{
    let mut cost = 0;
    for activity in instance.around(event) {
        if is_complete_at(activity, event) {
            cost += cost_of_activity(activity, timetable);
        }
    }
    cost
}

/// Changes the time of an event that has one.
pub(crate) fn put_time(timetable: &mut Timetable, event: EventId, time: u16)
    requires known { IsSome (time_of timetable.old event) }
    requires below { time < timetable.old.period }
    ensures { timetable.new ≡ with_time timetable.old event time }
{
    let _ = timetable.set(event, time);
}

/// The timetable with each event at time 0.
pub(crate) fn all_at_zero(alloc: Global, instance: &Instance) -> Result<Timetable, Memory>
    ensures { IfOk result (IsFront instance.now []) }
{
    let mut timetable = Timetable::new(alloc, instance.period());
    for event in instance.events() {
        if timetable.set(event.id, 0).is_err() {
            return Err(Memory);
        }
    }
    Ok(timetable)
}

impl Branch {
    /// An empty path, with all the room that it will need.
    pub(crate) fn new(alloc: Global, instance: &Instance) -> Result<Branch, Memory>
        ensures branch { IfOk result (λ b.
            IsBranch instance.now b.times.items b.cost b.timetable (vec_capacity b.times)) }
        ensures times { IfOk result (λ b. b.times.items ≡ []) }
    {
        let Ok(times) = Vec::with_capacity(alloc, instance.event_count()) else {
            return Err(Memory);
        };
        let timetable = all_at_zero(alloc, instance)?;
        Ok(Branch {
            times,
            cost: 0,
            timetable,
        })
    }

    /// The known cost if the next event gets this time, which the timetable then has too.
    pub(crate) fn cost_with(&mut self, instance: &Instance, event: EventId, time: u16) -> u64
        requires network { IsNetwork instance.now }
        requires branch { IsBranch instance.now self.old.times.items self.old.cost
            self.old.timetable (vec_capacity self.old.times) }
        requires next { event ≡ slice_index (event_ids instance.now) (length self.old.times.items) }
        requires depth { length self.old.times.items < length (event_ids instance.now) }
        requires below { time < instance.now.period }
        ensures times { self.new.times ≡ self.old.times }
        ensures cost { self.new.cost ≡ self.old.cost }
        ensures front { IsFront instance.now (self.old.times.items ++ time ∷ [])
            self.new.timetable }
        ensures value { result ≡ known_cost instance.now (self.old.times.items ++ time ∷ []) }
    {
        put_time(&mut self.timetable, event, time);
        self.cost + cost_completed_at(instance, &self.timetable, event)
    }

    /// Sets the time of the next event.
    pub(crate) fn push(&mut self, instance: &Instance, event: EventId, time: u16)
        requires network { IsNetwork instance.now }
        requires branch { IsBranch instance.now self.old.times.items self.old.cost
            self.old.timetable (vec_capacity self.old.times) }
        requires next { event ≡ slice_index (event_ids instance.now) (length self.old.times.items) }
        requires depth { length self.old.times.items < length (event_ids instance.now) }
        requires below { time < instance.now.period }
        ensures branch { IsBranch instance.now self.new.times.items self.new.cost self.new.timetable
            (vec_capacity self.new.times) }
        ensures times { self.new.times.items ≡ self.old.times.items ++ time ∷ [] }
    {
        self.cost = self.cost_with(instance, event, time);
        self.times.push_reserved(time);
    }

    /// Removes the time of the last event.
    pub(crate) fn pop(&mut self, instance: &Instance, events: &[EventId]) -> Option<u16>
        requires network { IsNetwork instance.now }
        requires branch { IsBranch instance.now self.old.times.items self.old.cost
            self.old.timetable (vec_capacity self.old.times) }
        requires events { events.now ≡ event_ids instance.now }
        ensures branch { IsBranch instance.now self.new.times.items self.new.cost self.new.timetable
            (vec_capacity self.new.times) }
        ensures times { IsPopped self.old.times.items self.new.times.items result }
    {
        let time = self.times.pop()?;
        let event = events[self.times.len()];
        self.cost -= cost_completed_at(instance, &self.timetable, event);
        Some(time)
    }
}
