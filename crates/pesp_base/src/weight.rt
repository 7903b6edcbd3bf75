//! The weights of activities.

ghost use Rattle.std.specs.Prelude.{◌≡◌, ℕ, ◌≤◌, SomeIff};
ghost use Rattle.pesp_base.specs.Limits.{greatest_weight};

use crate::GREATEST_WEIGHT;
use std::marker::Model;

/// What one unit of an activity's slack costs, at most [`GREATEST_WEIGHT`].
#[derive(Clone, Copy, Debug, PartialEq, Eq, PartialOrd, Ord)]
pub struct Weight {
    // At most GREATEST_WEIGHT.
    value: u32,
}

impl Model for Weight {
    ghost Value = { ℕ };

    ghost view = { λ a. a.value };

    ghost invariant = { λ a. a.value ≤ greatest_weight };

    ghost inverse = { λ n. record { value = n } };
}

impl Weight {
    /// The weight, if it is within the limit.
    pub fn new(value: u32) -> Option<Weight>
        ensures { SomeIff result (value ≤ greatest_weight) value }
    {
        if value <= GREATEST_WEIGHT {
            Some(Weight { value })
        } else {
            None
        }
    }

    pub fn get(self) -> u32
        ensures value { result ≡ self }
        ensures limit { self ≤ greatest_weight }
    {
        self.value
    }
}
