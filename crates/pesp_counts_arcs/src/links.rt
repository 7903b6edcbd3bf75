//! Places for an instance's events and activities, and the ends of its activities by place.

ghost use Rattle.std.specs.Prelude.{◌≡◌, ◌*◌, ◌+◌, ◌^◌, ◌<◌, ◌≤◌, ℕ, [], Ok, Some, None, IsSome, length, IfOk, IfSome, OnOk, OnErr};
ghost use Rattle.std.specs.List.{Contains};
ghost use Rattle.pesp_instance.specs.declared.edit.Edit.TheVariants as edits;
ghost use Rattle.pesp_instance.specs.Edited.{edited, effect};
ghost use Rattle.pesp_instance.specs.Network.{Network};
ghost use Rattle.pesp_domains.specs.declared.side.Side.TheVariants as side;
ghost use Rattle.pesp_counts_arcs.specs.Ends.{end_at, ends_of};
ghost use Rattle.pesp_counts_arcs.specs.Links.{AreListedAt, AreUnlisted, IsChangedAt, IsEndFor, IsEndOfPlace, KeepOthers, LookAt, LookSame, StandFor, no_links};
ghost use Rattle.pesp_counts_arcs.specs.Lists.{AreStored};
ghost use Rattle.pesp_counts_arcs.specs.Places.{place_of};

mod numbers;

use crate::End;
use crate::lists::{Lists, Walk};
use crate::places::Places;
use pesp_base::{Activity, ActivityId, EventId, Period, Span};
use std::alloc::{AllocError, Global};
use std::marker::Model;

/// The ends of activities, listed at the places of their events. The activity at place q has the
/// ends 2q and 2q + 1. The lists share one store, so `SetEnds` needs no memory.
#[derive(Drop)]
pub struct Links {
    /// The places of events. Each has a list in `at`.
    events: Places,
    /// The places of activities. Each has both its ends in `ends`.
    activities: Places,
    /// Each end, by its number. Those of a place without an activity have no meaning.
    ends: Vec<End>,
    /// The ends at each event's place. There is an item for each end, and each listed one is of an
    /// activity that has a place.
    at: Lists,
}

impl Model for Links {
    ghost use Rattle.pesp_counts_arcs.specs.Links as words;

    ghost Value = { words.Links };

    ghost view = { λ a. record {
      events = a.events;
      activities = a.activities;
      ends = a.ends.items;
      lists = a.at.lists;
    } };

    ghost invariant = { λ a. words.AreHoused a.events a.activities a.ends.items a.at };
}

impl Links {
    /// Links without places.
    pub fn new(alloc: Global) -> Links
        ensures { result ≡ no_links }
    {
        Links {
            events: Places::new(alloc),
            activities: Places::new(alloc),
            ends: Vec::new(alloc),
            at: Lists::new(alloc),
        }
    }

    /// Reserves room for this number of events and activities, and gives them no places.
    pub fn make_room(&mut self, events: usize, activities: usize) -> Result<(), AllocError>
        ensures { self.new ≡ self.old }
    {
        let ends = activities.saturating_mul(2);
        self.events.make_room(events)?;
        self.activities.make_room(activities)?;
        self.at.make_room(events, ends)?;
        self.ends.reserve(ends)
    }

    /// The place of an event.
    pub fn event(&self, event: EventId) -> Option<usize>
        ensures { result ≡ place_of (self.now).events event }
    {
        self.events.place(event.get())
    }

    /// The place of an activity.
    pub fn activity(&self, id: ActivityId) -> Option<usize>
        ensures { result ≡ place_of (self.now).activities id }
    {
        self.activities.place(id.get())
    }

    /// An end.
    pub fn end(&self, number: usize) -> End
        requires { number < length (self.now).ends }
        ensures { result ≡ end_at (self.now).ends number }
    {
        self.ends[number]
    }

    /// The ends at the place of an event. A number that is not a place has none.
    pub fn ends_at(&self, place: usize) -> Walk<'_>
        ensures { result ≡ ends_of (self.now).lists place }
    {
        self.at.walk(place)
    }

    /// Gives a new event a place, at which no end is listed. If memory runs out, the links still
    /// represent the same instance.
    pub fn add_event(&mut self, event: EventId) -> Result<usize, AllocError>
        requires absent { place_of (self.old).events event ≡ None }
        ensures ok { OnOk result ((I : Network) → StandFor I self.old →
            StandFor (effect I (edits.AddEvent event)) self.new) }
        ensures place { IfOk result (λ p. place_of (self.new).events event ≡ Some p) }
        ensures room { IfOk result (λ p. p < length (self.new).lists) }
        ensures fresh { IfOk result (λ p. (e : ℕ) → place_of (self.old).events e ≡ Some p → ⊥) }
        ensures others { OnOk result ((e : ℕ) → (e ≡ event → ⊥) →
            place_of (self.new).events e ≡ place_of (self.old).events e) }
        ensures ends { (self.new).ends ≡ (self.old).ends }
        ensures lists { (p : ℕ) → ends_of (self.new).lists p ≡ ends_of (self.old).lists p }
        ensures more { length (self.old).lists ≤ length (self.new).lists }
        ensures err { OnErr result (LookSame self.old self.new) }
    {
        let place = self.events.insert(event.get())?;
        if self.at.grow_lists(place.saturating_add(1)).is_err() {
            self.events.remove(event.get());
            return Err(AllocError);
        }
        Ok(place)
    }

    /// Frees the place of an event.
    pub fn drop_event(&mut self, event: EventId)
        ensures stand { (I J : Network) → edited I (edits.DropEvent event) ≡ Ok J →
            StandFor I self.old → StandFor J self.new }
        ensures others { (e : ℕ) → (e ≡ event → ⊥) →
            place_of (self.new).events e ≡ place_of (self.old).events e }
        ensures ends { (self.new).ends ≡ (self.old).ends }
        ensures lists { (self.new).lists ≡ (self.old).lists }
    {
        self.events.remove(event.get());
    }

    /// Gives a new activity a place, and lists its ends. If memory runs out, the links still
    /// represent the same instance.
    pub fn add_activity(&mut self, period: Period, activity: &Activity) -> Result<usize, AllocError>
        requires absent { place_of (self.old).activities (activity.now).id ≡ None }
        requires from { IsSome (place_of (self.old).events (activity.now).from) }
        requires to { IsSome (place_of (self.old).events (activity.now).to) }
        ensures ok { OnOk result ((I J : Network) → I.period ≡ period →
            edited I (edits.AddActivity activity.now) ≡ Ok J →
            StandFor I self.old → StandFor J self.new) }
        ensures place { IfOk result (λ q.
            place_of (self.new).activities (activity.now).id ≡ Some q) }
        ensures changed { IfOk result (λ q. IsChangedAt self.old self.new q) }
        ensures lists { length (self.new).lists ≡ length (self.old).lists }
        ensures more { length (self.old).ends ≤ length (self.new).ends }
        ensures err { OnErr result (LookSame self.old self.new) }
    {
        let place = self.activities.insert(activity.id.get())?;
        if make_ends(&mut self.ends, &mut self.at, place).is_err() {
            self.activities.remove(activity.id.get());
            return Err(AllocError);
        }
        let tail_at = self.events.place(activity.from.get()).unwrap();
        let head_at = self.events.place(activity.to.get()).unwrap();
        let tail = 2 * place;
        self.ends[tail] = End::tail(period, activity.span, head_at as u32, tail as u32 + 1);
        self.ends[tail + 1] = End::head(period, activity.span, tail_at as u32, tail as u32);
        self.at.add(tail_at, tail);
        self.at.add(head_at, tail + 1);
        Ok(place)
    }

    /// Frees the place of an activity, and removes its ends from the lists.
    pub fn drop_activity(&mut self, id: ActivityId)
        requires { (I : Network) × StandFor I self.old }
        ensures stand { (I J : Network) → edited I (edits.DropActivity id) ≡ Ok J →
            StandFor I self.old → StandFor J self.new }
        ensures changed { IfSome (place_of (self.old).activities id)
            (λ q. IsChangedAt self.old self.new q) }
        ensures gone { IfSome (place_of (self.old).activities id) (λ q. (p k : ℕ) →
            Contains (ends_of (self.new).lists p) k → IsEndOfPlace q k → ⊥) }
        ensures events { (self.new).events ≡ (self.old).events }
        ensures lists { length (self.new).lists ≡ length (self.old).lists }
        ensures ends { length (self.new).ends ≡ length (self.old).ends }
    {
        if let Some(place) = self.activity(id) {
            let tail = self.tail_at(place);
            let (from_at, to_at) = self.events_of(place);
            self.at.remove(from_at, tail);
            self.at.remove(to_at, tail + 1);
            self.activities.remove(id.get());
        }
    }

    /// Gives the ends of an activity another span.
    pub fn set_span(&mut self, period: Period, id: ActivityId, span: Span)
        ensures stand { (I J : Network) → I.period ≡ period →
            edited I (edits.SetSpan id span) ≡ Ok J → StandFor I self.old → StandFor J self.new }
        ensures changed { IfSome (place_of (self.old).activities id)
            (λ q. IsChangedAt self.old self.new q) }
        ensures events { (self.new).events ≡ (self.old).events }
        ensures activities { (self.new).activities ≡ (self.old).activities }
        ensures lists { (self.new).lists ≡ (self.old).lists }
        ensures ends { length (self.new).ends ≡ length (self.old).ends }
    {
        if let Some(place) = self.activity(id) {
            let tail = self.tail_at(place);
            let (head_at, tail_at) = (self.ends[tail].looks_at, self.ends[tail + 1].looks_at);
            self.ends[tail] = End::tail(period, span, head_at, tail as u32 + 1);
            self.ends[tail + 1] = End::head(period, span, tail_at, tail as u32);
        }
    }

    /// Moves the ends of an activity to other events.
    pub fn set_ends(&mut self, id: ActivityId, from: EventId, to: EventId)
        requires stood { (I : Network) × StandFor I self.old }
        requires from { IsSome (place_of (self.old).events from) }
        requires to { IsSome (place_of (self.old).events to) }
        ensures stand { (I J : Network) → edited I (edits.SetEnds id from to) ≡ Ok J →
            StandFor I self.old → StandFor J self.new }
        ensures changed { IfSome (place_of (self.old).activities id)
            (λ q. IsChangedAt self.old self.new q) }
        ensures listed { (p k : ℕ) → Contains (ends_of (self.new).lists p) k →
            (q : ℕ) × Contains (ends_of (self.old).lists q) k }
        ensures events { (self.new).events ≡ (self.old).events }
        ensures activities { (self.new).activities ≡ (self.old).activities }
        ensures lists { length (self.new).lists ≡ length (self.old).lists }
        ensures ends { length (self.new).ends ≡ length (self.old).ends }
    {
        if let Some(place) = self.activity(id) {
            let tail = self.tail_at(place);
            let (tail_at, head_at) = self.events_of(place);
            let from_at = self.event(from).unwrap();
            let to_at = self.event(to).unwrap();
            self.at.remove(tail_at, tail);
            self.at.remove(head_at, tail + 1);
            self.ends[tail].looks_at = to_at as u32;
            self.ends[tail + 1].looks_at = from_at as u32;
            self.at.add(from_at, tail);
            self.at.add(to_at, tail + 1);
        }
    }
}

/// Makes the two ends of the activity at a place, and room to list them, unless they exist.
fn make_ends(ends: &mut Vec<End>, at: &mut Lists, place: usize) -> Result<(), AllocError>
    requires { length (ends.old).items ≤ (at.old).items }
    ensures ok { OnOk result (2 * place + 1 < length (ends.new).items) }
    ensures items { length (ends.new).items ≤ (at.new).items }
    ensures ends { (k : ℕ) → end_at (ends.new).items k ≡ end_at (ends.old).items k }
    ensures more { length (ends.old).items ≤ length (ends.new).items }
    ensures lists { (at.new).lists ≡ (at.old).lists }
    ensures stored { AreStored (at.new).items (at.new).lists }
    ensures err { OnErr result ((ends.new).items ≡ (ends.old).items) }
{
    // A saturated count is more than memory can hold, so it is refused below.
    let count = place.saturating_mul(2).saturating_add(2);
    at.grow_items(count)?;
    if ends.len() < count {
        ends.resize(count, End::default())?;
    }
    Ok(())
}
