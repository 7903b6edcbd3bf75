//! The periods of timetables.

ghost use Rattle.std.specs.Prelude.{◌≡◌, ℕ, ◌≤◌, SomeIff};
ghost use Rattle.pesp_base.specs.Limits.{least_period, greatest_period};

use crate::{GREATEST_PERIOD, LEAST_PERIOD};
use std::marker::Model;

/// The number of time units after which a timetable repeats, from [`LEAST_PERIOD`] to
/// [`GREATEST_PERIOD`].
#[derive(Clone, Copy, Debug, PartialEq, Eq)]
pub struct Period {
    // From LEAST_PERIOD to GREATEST_PERIOD.
    value: u16,
}

impl Model for Period {
    ghost Value = { ℕ };

    ghost view = { λ a. a.value };

    ghost invariant = { λ a. (least_period ≤ a.value) × (a.value ≤ greatest_period) };

    ghost inverse = { λ n. record { value = n } };
}

impl Period {
    /// The period, if it is within the limits.
    pub fn new(value: u16) -> Option<Period>
        ensures { SomeIff result ((least_period ≤ value) × (value ≤ greatest_period)) value }
    {
        if value >= LEAST_PERIOD && value <= GREATEST_PERIOD {
            Some(Period { value })
        } else {
            None
        }
    }

    pub fn get(self) -> u16
        ensures value { result ≡ self }
        ensures limits { (least_period ≤ self) × (self ≤ greatest_period) }
    {
        self.value
    }
}
