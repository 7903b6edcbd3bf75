//! Instances and their look-ups.

ghost use Rattle.std.specs.Prelude.{◌≡◌, ◌<◌, ◌≤◌, [], map, All, IfNone, IfOk, IfSome, MatchOption, OnErr, length, option_copied};
ghost use Rattle.std.specs.List.Sorted.{IsStrictlyIncreasing};
ghost use Rattle.pesp_base.specs.Limits as limits;
ghost use Rattle.pesp_instance.specs.Edited.{empty_network};
ghost use Rattle.pesp_instance.specs.Filled.{IsFilled};
ghost use Rattle.pesp_instance.specs.Network.{HasEnds, IsNetwork, Network, has_event, fixed_of, window_of, activity_of, around};

use crate::table::Table;
use crate::vertex::Vertex;
use crate::{Around, Events, Walk};
use pesp_base::{Activity, ActivityId, EventId, LEAST_PERIOD, Period, Window, max_activities};
use std::alloc::{AllocError, Global};
use std::marker::Model;

/// A period, events, some of them with windows, and activities.
///
/// Each number, window and count is within its limit, and activities lead between events.
#[derive(Drop)]
pub struct Instance {
    // Allocates the set of a new event.
    pub(crate) alloc: Global,
    // Every window fits this period.
    pub(crate) period: Period,
    // Each event, with the numbers of the activities that end or start there.
    pub(crate) vertices: Table<Vertex>,
    // Each leads between events, and is listed at both.
    pub(crate) activities: Table<Activity>,
}

impl Model for Instance {
    ghost use Rattle.pesp_instance.specs.Network.{Network};

    ghost Value = { Network };

    ghost use Rattle.pesp_instance.specs.Stored.{network_in, IsStored};

    ghost view = { network_in };

    ghost invariant = { IsStored };
}

impl Instance {
    /// The instance without events.
    pub fn new(alloc: Global, period: Period) -> Instance
        ensures value { result ≡ empty_network period }
        ensures network { IsNetwork result }
    {
        // The type's invariant, as a fact for that of the instance.
        prove!(period.get() >= LEAST_PERIOD);
        Instance {
            alloc,
            period,
            vertices: Table::new(alloc),
            activities: Table::new(alloc),
        }
    }

    /// The instance with all of these activities. None if it already has some, a number occurs
    /// twice, an end is not an event, or there are too many.
    pub fn with_activities(self, activities: Vec<Activity>) -> Result<Option<Instance>, AllocError>
        ensures filled { IfOk result (λ found. MatchOption found
            ((J : Network) → IsFilled self activities.items J → ⊥)
            (IsFilled self activities.items)) }
        ensures err { OnErr result ((self.activities ≡ []) × (0 < length activities.items)
            × (length activities.items ≤ limits.max_activities self.period)) }
    {
        if self.activities.len() != 0 {
            return Ok(None);
        }
        if activities.is_empty() {
            return Ok(Some(self));
        }
        if activities.len() > max_activities(self.period) {
            return Ok(None);
        }
        match Table::from_values(self.alloc, activities)? {
            Some(activities) => self.with_table(activities),
            None => Ok(None),
        }
    }

    /// The instance, which has no activities, with those of a table. None if an end is not an
    /// event.
    fn with_table(self, activities: Table<Activity>) -> Result<Option<Instance>, AllocError>
        requires none { self.activities ≡ [] }
        requires rising { IsStrictlyIncreasing (map (λ a. a.id) activities.values) }
        requires few { length activities.values ≤ limits.max_activities self.period }
        ensures none { IfOk result (λ found. IfNone found
            (All (HasEnds self.events) activities.values → ⊥)) }
        ensures value { IfOk result (λ found. IfSome found (λ new.
            new ≡ record self { activities = activities.values })) }
        ensures network { IfOk result (λ found. IfSome found IsNetwork) }
    {
        let mut vertices = self.vertices;
        if !vertices.link_all(&activities)? {
            return Ok(None);
        }
        Ok(Some(Instance {
            alloc: self.alloc,
            period: self.period,
            vertices,
            activities,
        }))
    }

    pub fn period(&self) -> Period
        ensures value { result ≡ self.now.period }
        ensures network { IsNetwork self.now }
    {
        self.period
    }

    /// Whether such an event exists.
    pub fn has_event(&self, event: EventId) -> bool
        ensures value { result ≡ has_event self.now event }
        ensures network { IsNetwork self.now }
    {
        self.vertices.contains(event.get())
    }

    pub fn event_count(&self) -> usize
        ensures value { result ≡ length self.now.events }
        ensures network { IsNetwork self.now }
    {
        self.vertices.len()
    }

    pub fn activity_count(&self) -> usize
        ensures value { result ≡ length self.now.activities }
        ensures network { IsNetwork self.now }
    {
        self.activities.len()
    }

    /// The activity with this number.
    pub fn activity(&self, id: ActivityId) -> Option<&Activity>
        ensures value { option_copied result ≡ activity_of self.now id }
        ensures network { IsNetwork self.now }
    {
        self.activities.get(id.get())
    }

    /// The window of an event, if it has one.
    pub fn window(&self, event: EventId) -> Option<Window>
        ensures value { result ≡ window_of self.now event }
        ensures network { IsNetwork self.now }
    {
        self.vertices.get(event.get())?.event.window
    }

    /// The fixed time of an event, if it has one: that of a window of one residue.
    pub fn fixed(&self, event: EventId) -> Option<u16>
        ensures value { result ≡ fixed_of self.now event }
        ensures network { IsNetwork self.now }
    {
        self.vertices.get(event.get())?.event.fixed_time()
    }

    /// The events, by rising number.
    pub fn events(&self) -> Events<'_>
        ensures value { result ≡ self.now.events }
        ensures network { IsNetwork self.now }
    {
        Events {
            vertices: self.vertices.iter(),
        }
    }

    /// The activities, by rising number.
    pub fn activities(&self) -> Walk<'_, Activity>
        ensures value { result ≡ self.now.activities }
        ensures network { IsNetwork self.now }
    {
        self.activities.iter()
    }

    /// The activities that have the event as an end, by rising number, a loop once.
    pub fn around(&self, event: EventId) -> Around<'_>
        ensures value { result ≡ around self.now event }
        ensures network { IsNetwork self.now }
    {
        Around {
            numbers: self.vertices.numbers_at(event),
            activities: &self.activities,
        }
    }
}
