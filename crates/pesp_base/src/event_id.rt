//! The numbers of events.

ghost use Rattle.std.specs.Prelude.{◌≡◌, ℕ, ◌≤◌, SomeIff};
ghost use Rattle.pesp_base.specs.Limits.{greatest_number};

use crate::GREATEST_NUMBER;
use std::marker::Model;

/// The number of an event, at most [`GREATEST_NUMBER`].
#[derive(Clone, Copy, Debug, PartialEq, Eq, PartialOrd, Ord)]
pub struct EventId {
    // At most GREATEST_NUMBER.
    value: u32,
}

impl Model for EventId {
    ghost Value = { ℕ };

    ghost view = { λ a. a.value };

    ghost invariant = { λ a. a.value ≤ greatest_number };

    ghost inverse = { λ n. record { value = n } };
}

impl EventId {
    /// The number, if it is within the limit.
    pub fn new(value: u32) -> Option<EventId>
        ensures { SomeIff result (value ≤ greatest_number) value }
    {
        if value <= GREATEST_NUMBER {
            Some(EventId { value })
        } else {
            None
        }
    }

    pub fn get(self) -> u32
        ensures value { result ≡ self }
        ensures limit { self ≤ greatest_number }
    {
        self.value
    }
}
