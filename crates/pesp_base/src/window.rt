//! Windows of residues.

ghost use Rattle.std.specs.Prelude.{◌≡◌, ◌<◌, ◌≤◌, ◌↔◌, IsTrue, SomeIff};
ghost use Rattle.pesp_base.specs.Windows.{Interval, IsWindow, IsHeld, is_held, only_time};

use crate::Period;
use crate::arithmetic::remainder;
use std::marker::Model;

/// The residues at which an event may take place: consecutive ones, where 0 follows the last
/// residue of the period.
#[derive(Clone, Copy, Debug, PartialEq, Eq)]
pub struct Window {
    // Below the period passed to `new`. A window keeps no period: the instance knows that it fits.
    first: u16,
    // From 1 to the period passed to `new`.
    length: u16,
}

impl Model for Window {
    ghost Value = { Interval };

    ghost view = { λ a. record { first = a.first; length = a.length } };

    ghost inverse = { λ w. record { first = w.first; length = w.length } };
}

impl Window {
    /// The window, if its first residue is below the period and its length from 1 to the period.
    pub fn new(period: Period, first: u16, length: u16) -> Option<Window>
        ensures { SomeIff result (IsWindow period (record { first = first; length = length }))
            (record { first = first; length = length }) }
    {
        if first < period.get() && 1 <= length && length <= period.get() {
            Some(Window { first, length })
        } else {
            None
        }
    }

    pub fn first(self) -> u16
        ensures { result ≡ self.first }
    {
        self.first
    }

    pub fn length(self) -> u16
        ensures { result ≡ self.length }
    {
        self.length
    }

    /// Whether the residue is in the window: `first + k` modulo the period, for a `k` below
    /// `length`.
    pub fn holds(self, period: Period, residue: u16) -> bool
        ensures value { result ≡ is_held period self residue }
        ensures held { IsTrue result ↔ IsHeld period self residue }
    {
        residue < period.get()
            && remainder(residue as i32 - self.first as i32, period) < self.length
    }

    /// The only residue of a window of length 1.
    pub fn only_time(self) -> Option<u16>
        ensures { result ≡ only_time self }
    {
        if self.length == 1 {
            Some(self.first)
        } else {
            None
        }
    }
}
