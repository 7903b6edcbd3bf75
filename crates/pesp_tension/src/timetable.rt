//! Timetables.

ghost use Rattle.std.specs.Prelude.{◌≡◌, ◌<◌, ◌≤◌, Ok, IfOk, IfSome, IfErr, OnOk, OnErr, is_ok, is_some, length};
ghost use Rattle.std.specs.List.Sorted.{IsStrictlyIncreasing};
ghost use Rattle.pesp_base.specs.Limits.{max_events};
ghost use Rattle.pesp_base.specs.declared.refusal.Refusal.TheVariants as no;
ghost use Rattle.pesp_tension.specs.Places.{IsAt, IsGap};
ghost use Rattle.pesp_tension.specs.Timetables.{no_times, time_of, timed_events, set_time, with_time, without_time, IsSetRefusal, IsTimetable};

use crate::Walk;
use crate::look_up::place;
use pesp_base::{EventId, Period, Refusal, max_events};
use std::alloc::Global;
use std::marker::Model;

/// Times of events, each below the period. An event need not have one.
#[derive(Drop)]
pub struct Timetable {
    // Greater than each time.
    period: Period,
    // The number and the time of each event that has one, by rising numbers. One sorted list
    // replaced an ordered map: docs/HISTORY.md, "One list of times".
    times: Vec<(u32, u16)>,
}

impl Model for Timetable {
    ghost use Rattle.pesp_tension.specs.Timetables.{Times};
    ghost use Rattle.pesp_tension.specs.Places.{IsKept};

    ghost Value = { Times };

    ghost view = { λ a. record { period = a.period; entries = a.times.items } };

    ghost invariant = { λ a. IsKept (record { period = a.period; entries = a.times.items }) };
}

impl Timetable {
    /// The timetable without times.
    pub fn new(alloc: Global, period: Period) -> Timetable
        ensures { result ≡ no_times period }
    {
        Timetable {
            period,
            times: Vec::new(alloc),
        }
    }

    pub fn period(&self) -> Period
        ensures { result ≡ self.now.period }
    {
        self.period
    }

    /// The event's time, below the period.
    pub fn get(&self, event: EventId) -> Option<u16>
        ensures time { result ≡ time_of self.now event }
        ensures below { IfSome result (λ t. t < self.now.period) }
    {
        match place(&self.times, event) {
            Ok(place) => Some(self.times[place].1),
            Err(_) => None,
        }
    }

    /// The events that have times, in ascending order.
    pub fn walk(&self) -> Walk<'_>
        ensures entries { result ≡ self.now.entries }
        ensures rising { IsStrictlyIncreasing (timed_events self.now) }
        ensures few { length self.now.entries ≤ max_events self.now.period }
        ensures within { IsTimetable self.now }
    {
        Walk {
            entries: self.times.iter(),
        }
    }

    /// Sets the time of an event, and replaces any earlier one.
    ///
    /// Refusals in order: 4 if the time is not below the period; 7 if the event has no time and the
    /// greatest number of others have one; 10. An event that has a time is never refused memory.
    pub fn set(&mut self, event: EventId, time: u16) -> Result<(), Refusal>
        ensures ok { OnOk result (set_time self.old event time ≡ Ok self.new) }
        ensures refused { IfErr result (IsSetRefusal self.old event time) }
        ensures unchanged { OnErr result (self.new ≡ self.old) }
    {
        if time >= self.period.get() {
            return Err(Refusal::TimeOutOfRange(time));
        }
        match self.place_to_set(event) {
            Ok(place) => {
                self.replace(place, event, time);
                Ok(())
            }
            Err(_) if self.times.len() >= max_events(self.period) => Err(Refusal::TooManyEvents),
            Err(place) => self.insert(place, event, time),
        }
    }

    /// The place of the event, or the place where it belongs.
    fn place_to_set(&self, event: EventId) -> Result<usize, usize>
        ensures known { is_ok result ≡ is_some (time_of self.now event) }
        ensures found { IfOk result (IsAt self.now.entries event) }
        ensures absent { IfErr result (IsGap self.now.entries event) }
    {
        place(&self.times, event)
    }

    /// Replaces the time of the event at the place.
    fn replace(&mut self, place: usize, event: EventId, time: u16)
        requires below { time < self.old.period }
        requires at { IsAt self.old.entries event place }
        ensures { self.new ≡ with_time self.old event time }
    {
        self.times[place] = (event.get(), time);
    }

    /// Inserts a time at the place where its event belongs.
    fn insert(&mut self, place: usize, event: EventId, time: u16) -> Result<(), Refusal>
        requires below { time < self.old.period }
        requires gap { IsGap self.old.entries event place }
        requires room { length self.old.entries < max_events self.old.period }
        ensures ok { OnOk result (self.new ≡ with_time self.old event time) }
        ensures refused { IfErr result (λ r. r ≡ no.Memory) }
        ensures unchanged { OnErr result (self.new ≡ self.old) }
    {
        match self.times.insert(place, (event.get(), time)) {
            Ok(()) => Ok(()),
            Err(_) => Err(Refusal::Memory),
        }
    }

    /// Removes the event's time, and returns whether there was one.
    pub fn clear(&mut self, event: EventId) -> bool
        ensures had { result ≡ is_some (time_of self.old event) }
        ensures without { self.new ≡ without_time self.old event }
    {
        match place(&self.times, event) {
            Ok(place) => {
                self.times.remove(place);
                true
            }
            Err(_) => false,
        }
    }
}
