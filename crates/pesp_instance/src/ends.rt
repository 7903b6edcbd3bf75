//! The activities at each event.

ghost use Rattle.std.specs.Prelude.{◌≡◌, ℕ, true, false, Some, [], map, All, IfOk, OnOk, OnErr, is_some, not, ◌==◌, ◌&&◌, ◌||◌};
ghost use Rattle.std.specs.List.Sorted.{IsStrictlyIncreasing, IsStrictlySortedBy};
ghost use Rattle.std.specs.Ordering.{nat_cmp};
ghost use Rattle.pesp_base.specs.Numbered.{with_number};
ghost use Rattle.pesp_instance.specs.Ends.{AreListed, vertex_number, numbers_at, numbers_left, events_of, with_window, lists, ListTheSame, ListsMore, ListsLess, KeepsEvents, is_pair_of, is_old_pair_of};
ghost use Rattle.pesp_instance.specs.Network.{HasEnds, IsActivity, is_end_of};
ghost use Rattle.pesp_instance.specs.Table.{slot_of, IsSlot};

use crate::table::Table;
use crate::vertex::Vertex;
use pesp_base::{Activity, EventId, GREATEST_NUMBER, GREATEST_WEIGHT, Window};
use std::alloc::AllocError;
use std::collections::btree_set;

/// Whether the event is an end of the activity.
fn is_end(activity: &Activity, event: EventId) -> bool
    ensures { result ≡ is_end_of event activity.now }
{
    activity.from == event || activity.to == event
}

impl Table<Vertex> {
    /// The slot of an event.
    pub fn event_slot(&self, event: EventId) -> Option<usize>
        ensures slot { result ≡ slot_of self.now event }
        ensures known { is_some result
            ≡ is_some (with_number (λ x. x.id) event (events_of self.now.values)) }
    {
        self.slot(event.get())
    }

    /// The numbers of the activities at an event, ascending; none if the event does not exist.
    pub fn numbers_at(&self, event: EventId) -> Option<btree_set::Iter<'_, u32>>
        ensures known { is_some result
            ≡ is_some (with_number (λ x. x.id) event (events_of self.now.values)) }
        ensures value { numbers_left result
            ≡ numbers_at (with_number vertex_number event self.now.values) }
        ensures ordered { IsStrictlySortedBy nat_cmp (numbers_left result) }
    {
        Some(self.get(event.get())?.activities.iter())
    }

    /// Adds a number to the list of a slot's event, and returns whether it is new there.
    ///
    /// Only the set of that event allocates. If memory runs out, no list changes.
    fn list(&mut self, slot: usize, number: u32) -> Result<bool, AllocError>
        requires slot { IsSlot self.old slot }
        ensures added { IfOk result (λ added. (e : ℕ) → slot_of self.old e ≡ Some slot
            → added ≡ not (lists self.old.values e number)) }
        ensures ok { OnOk result ((e : ℕ) → slot_of self.old e ≡ Some slot
            → ListsMore (λ x n. e == x && number == n) self.old.values self.new.values) }
        ensures err { OnErr result (ListTheSame self.old.values self.new.values) }
        ensures kept { KeepsEvents self.old self.new }
    {
        Ok(self.slots[slot].activities.insert(number)?)
    }

    /// Removes a number from the list of a slot's event.
    fn unlist(&mut self, slot: usize, number: u32)
        requires slot { IsSlot self.old slot }
        ensures listed { (e : ℕ) → slot_of self.old e ≡ Some slot
            → ListsLess (λ x n. e == x && number == n) self.old.values self.new.values }
        ensures kept { KeepsEvents self.old self.new }
    {
        self.slots[slot].activities.remove(&number);
    }

    /// Removes a number from the list of an event.
    fn unlist_at(&mut self, event: EventId, number: u32)
        ensures listed { ListsLess (λ x n. event == x && number == n) self.old.values
            self.new.values }
        ensures kept { KeepsEvents self.old self.new }
    {
        if let Some(slot) = self.slot(event.get()) {
            self.unlist(slot, number);
        }
    }

    /// Replaces the window of a slot's event.
    pub fn rewindow(&mut self, slot: usize, window: Option<Window>)
        requires slot { IsSlot self.old slot }
        ensures events { (e : ℕ) → slot_of self.old e ≡ Some slot
            → events_of self.new.values ≡ with_window e window (events_of self.old.values) }
        ensures listed { ListTheSame self.old.values self.new.values }
    {
        self.slots[slot].event.window = window;
    }

    /// Lists an activity at its ends, which have these slots. If memory runs out, no list changes.
    ///
    /// An ordered set cannot reserve room, so the first end is undone if the second one fails.
    pub fn link(&mut self, activity: &Activity, from: usize, to: usize) -> Result<(), AllocError>
        requires from { slot_of self.old activity.now.from ≡ Some from }
        requires to { slot_of self.old activity.now.to ≡ Some to }
        ensures ok { OnOk result (ListsMore (is_pair_of activity.now) self.old.values
            self.new.values) }
        ensures err { OnErr result (ListTheSame self.old.values self.new.values) }
        ensures kept { KeepsEvents self.old self.new }
    {
        let number = activity.id.get();
        let is_new = self.list(from, number)?;
        match self.list(to, number) {
            Ok(_) => Ok(()),
            Err(refused) => {
                if is_new {
                    self.unlist(from, number);
                }
                Err(refused)
            }
        }
    }

    /// Removes an activity from the lists of its ends.
    pub fn unlink(&mut self, activity: &Activity)
        ensures listed { ListsLess (is_pair_of activity.now) self.old.values self.new.values }
        ensures kept { KeepsEvents self.old self.new }
    {
        let number = activity.id.get();
        self.unlist_at(activity.from, number);
        self.unlist_at(activity.to, number);
    }

    /// Removes an activity from the lists of those ends that it no longer has.
    pub fn unlink_old(&mut self, old: &Activity, new: &Activity)
        ensures listed { ListsLess (is_old_pair_of old.now new.now) self.old.values
            self.new.values }
        ensures kept { KeepsEvents self.old self.new }
    {
        let number = old.id.get();
        if !is_end(new, old.from) {
            self.unlist_at(old.from, number);
        }
        if !is_end(new, old.to) {
            self.unlist_at(old.to, number);
        }
    }

    /// Lists these activities at their ends, and returns whether all of those are events.
    pub fn link_all(&mut self, activities: &Table<Activity>) -> Result<bool, AllocError>
        requires rising { IsStrictlyIncreasing (map (λ a. a.id) activities.now.values) }
        requires none { AreListed self.old.values [] }
        ensures missing { IfOk result (λ all. all ≡ false
            → All (HasEnds (events_of self.old.values)) activities.now.values → ⊥) }
        ensures listed { IfOk result (λ all. all ≡ true
            → AreListed self.new.values activities.now.values) }
        ensures ends { IfOk result (λ all. all ≡ true
            → All (HasEnds (events_of self.old.values)) activities.now.values) }
        ensures within { IfOk result (λ all. all ≡ true → All IsActivity activities.now.values) }
        ensures kept { IfOk result (λ all. all ≡ true
            → events_of self.new.values ≡ events_of self.old.values) }
    {
        for activity in activities.iter() {
            // The types' invariants, as facts for that of the instance.
            prove!(activity.id.get() <= GREATEST_NUMBER);
            prove!(activity.span.lower() <= activity.span.upper());
            prove!(activity.weight.get() <= GREATEST_WEIGHT);
            let Some(from) = self.event_slot(activity.from) else {
                return Ok(false);
            };
            let Some(to) = self.event_slot(activity.to) else {
                return Ok(false);
            };
            self.link(activity, from, to)?;
        }
        Ok(true)
    }
}
