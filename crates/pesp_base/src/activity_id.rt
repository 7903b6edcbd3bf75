//! The numbers of activities.

ghost use Rattle.std.specs.Prelude.{◌≡◌, ℕ, ◌≤◌, SomeIff};
ghost use Rattle.pesp_base.specs.Limits.{greatest_number};

use crate::GREATEST_NUMBER;
use std::marker::Model;

/// The number of an activity, at most [`GREATEST_NUMBER`].
#[derive(Clone, Copy, Debug, PartialEq, Eq, PartialOrd, Ord)]
pub struct ActivityId {
    // At most GREATEST_NUMBER.
    value: u32,
}

impl Model for ActivityId {
    ghost Value = { ℕ };

    ghost view = { λ a. a.value };

    ghost invariant = { λ a. a.value ≤ greatest_number };

    ghost inverse = { λ n. record { value = n } };
}

impl ActivityId {
    /// The number, if it is within the limit.
    pub fn new(value: u32) -> Option<ActivityId>
        ensures { SomeIff result (value ≤ greatest_number) value }
    {
        if value <= GREATEST_NUMBER {
            Some(ActivityId { value })
        } else {
            None
        }
    }

    pub fn get(self) -> u32
        ensures value { result ≡ self }
        ensures limit { self ≤ greatest_number }
    {
        self.value
    }
}
