//! The walk over a timetable.

ghost use Rattle.std.specs.Iterator.{YieldsFirstBy, item_count};

use pesp_base::EventId;
use std::marker::Model;
use std::slice;

/// The time of an event, below the timetable's period.
#[derive(Clone, Copy, Debug, PartialEq, Eq)]
pub struct EventTime {
    pub event: EventId,
    pub time: u16,
}

/// The remaining events of a timetable, in ascending order, each with its time.
#[derive(Drop)]
pub struct Walk<'a> {
    // The remaining entries, by rising numbers.
    pub(crate) entries: slice::Iter<'a, (u32, u16)>,
}

impl<'a> Model for Walk<'a> {
    ghost use Rattle.std.specs.Prelude.{ℕ, List, ◌≤◌, All};
    ghost use Rattle.std.specs.Map.{keys_of};
    ghost use Rattle.std.specs.Slice.Iter.{iter_rest};
    ghost use Rattle.pesp_base.specs.Limits.{greatest_number};

    ghost Value = { List (ℕ × ℕ) };

    ghost view = { λ w. iter_rest w.entries };

    ghost invariant = { λ w. All (λ e. e ≤ greatest_number) (keys_of (iter_rest w.entries)) };
}

impl<'a> Iterator for Walk<'a> {
    type Item = EventTime;

    ghost next_gives = { YieldsFirstBy (λ x. (x.event, x.time)) (λ rest. rest) };

    ghost remaining = { item_count (λ rest. rest) };

    fn next(&mut self) -> Option<EventTime> {
        let (event, time) = *self.entries.next()?;
        let event = EventId::new(event).unwrap();
        Some(EventTime { event, time })
    }
}
