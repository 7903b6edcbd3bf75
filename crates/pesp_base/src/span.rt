//! Spans of activities.

ghost use Rattle.std.specs.Prelude.{◌≡◌, ℤ, ◌≤ℤ◌, ◌<ℤ◌, ◌⊎◌, ◌↔◌, Ok, Err, negsuc, pos};
ghost use Rattle.pesp_base.specs.Bounds.{Bounds, AreBounds, is_out, span_of};

use crate::{GREATEST_BOUND, LEAST_BOUND};
use std::marker::Model;

/// The least and the greatest tension with which an activity is met, each from [`LEAST_BOUND`] to
/// [`GREATEST_BOUND`].
#[derive(Clone, Copy, Debug, PartialEq, Eq)]
pub struct Span {
    // At least LEAST_BOUND, and at most `upper`.
    lower: i32,
    // At most GREATEST_BOUND.
    upper: i32,
}

impl Model for Span {
    ghost Value = { Bounds };

    ghost view = { λ a. record { lower = a.lower; upper = a.upper } };

    ghost invariant = { λ a. AreBounds a.lower a.upper };

    ghost inverse = { λ b. record { lower = b.lower; upper = b.upper } };
}

/// Why two bounds are not a span.
#[derive(Clone, Copy, Debug, PartialEq, Eq)]
pub enum SpanFault {
    /// A bound is outside the limits.
    OutOfRange,
    /// The lower bound is above the upper one.
    Crossed,
}

/// Whether a bound is outside the limits.
fn is_outside(bound: i32) -> bool
    ensures { result ≡ is_out bound }
{
    bound < LEAST_BOUND || bound > GREATEST_BOUND
}

impl Span {
    /// The span, or the first fault: `OutOfRange`, then `Crossed`.
    pub fn new(lower: i32, upper: i32) -> Result<Span, SpanFault>
        ensures { result ≡ span_of lower upper }
    {
        if is_outside(lower) || is_outside(upper) {
            return Err(SpanFault::OutOfRange);
        }
        if lower > upper {
            return Err(SpanFault::Crossed);
        }
        Ok(Span { lower, upper })
    }

    pub fn lower(self) -> i32
        ensures value { result ≡ self.lower }
        ensures limits { AreBounds self.lower self.upper }
    {
        self.lower
    }

    pub fn upper(self) -> i32
        ensures value { result ≡ self.upper }
        ensures limits { AreBounds self.lower self.upper }
    {
        self.upper
    }
}
