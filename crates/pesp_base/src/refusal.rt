//! Refusals and their numbers.

ghost use Rattle.std.specs.Prelude.{◌≡◌};
ghost use Rattle.pesp_base.specs.Refusals.{number_of};

use crate::{ActivityId, EventId};

/// Why an edit or a question is refused.
#[derive(Clone, Copy, Debug, PartialEq, Eq)]
pub enum Refusal {
    /// An event with this number exists.
    EventExists(EventId),
    /// No event has this number.
    NoEvent(EventId),
    /// The event is an end of an activity; the one with the least number is named.
    EventInUse(EventId, ActivityId),
    /// The time is not below the period.
    TimeOutOfRange(u16),
    /// An activity with this number exists.
    ActivityExists(ActivityId),
    /// No activity has this number.
    NoActivity(ActivityId),
    /// The greatest number of events is reached.
    TooManyEvents,
    /// The greatest number of activities is reached.
    TooManyActivities,
    /// The event has no window, so it is not fixed.
    NotFixed(EventId),
    /// Out of memory.
    Memory,
    /// The event has no time.
    MissingTime(EventId),
    /// No timetable exists.
    Infeasible,
    /// The length is not from 1 to the period.
    LengthOutOfRange(u16),
}

impl Refusal {
    /// The number that replies print.
    pub fn number(self) -> u8
        ensures { result ≡ number_of self }
    {
        match self {
            Refusal::EventExists(_) => 1,
            Refusal::NoEvent(_) => 2,
            Refusal::EventInUse(_, _) => 3,
            Refusal::TimeOutOfRange(_) => 4,
            Refusal::ActivityExists(_) => 5,
            Refusal::NoActivity(_) => 6,
            Refusal::TooManyEvents => 7,
            Refusal::TooManyActivities => 8,
            Refusal::NotFixed(_) => 9,
            Refusal::Memory => 10,
            Refusal::MissingTime(_) => 11,
            Refusal::Infeasible => 12,
            Refusal::LengthOutOfRange(_) => 13,
        }
    }
}
