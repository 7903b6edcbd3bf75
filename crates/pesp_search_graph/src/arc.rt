//! Arcs.

ghost use Rattle.std.specs.Int.{int_min};
ghost use Rattle.std.specs.Prelude.{pos, ◌≡◌, ◌<◌, ◌≤◌, ◌-ℤ◌};

use pesp_base::{Period, Span, Weight};

/// An activity whose ends are indices of events.
#[derive(Clone, Copy, PartialEq, Eq)]
pub struct Arc {
    /// The index of the event where the arc starts.
    pub from: usize,
    /// The index of the event where it ends.
    pub to: usize,
    /// The span of the activity.
    pub span: Span,
    /// The cost of a unit of slack.
    pub weight: Weight,
}

impl Arc {
    /// The greatest slack: the width of the span, at most the period less 1.
    pub fn width(&self, period: Period) -> u16
        ensures value { pos result ≡ int_min (self.now.span.upper -ℤ self.now.span.lower) (pos period -ℤ pos 1) }
        ensures below { result < period }
    {
        let most = period.get() - 1;
        let width = self.span.upper().abs_diff(self.span.lower());
        if width < u32::from(most) {
            width as u16
        } else {
            most
        }
    }
}
