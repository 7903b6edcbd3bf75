//! Edits.

use pesp_base::{Activity, ActivityId, EventId, Span, Weight};

/// A change of an instance.
#[derive(Clone, Copy, Debug, PartialEq, Eq)]
pub enum Edit {
    /// Adds an event, without a window.
    AddEvent(EventId),
    /// Drops an event, and its window.
    DropEvent(EventId),
    /// Fixes an event's time: its window, which replaces any earlier one, holds this residue alone.
    Fix(EventId, u16),
    /// Gives an event the window of this first residue and this length, which replaces any earlier
    /// one.
    SetWindow(EventId, u16, u16),
    /// Removes an event's window.
    Unfix(EventId),
    /// Adds an activity.
    AddActivity(Activity),
    /// Drops an activity.
    DropActivity(ActivityId),
    /// Gives an activity another span.
    SetSpan(ActivityId, Span),
    /// Gives an activity another weight.
    SetWeight(ActivityId, Weight),
    /// Gives an activity other ends.
    SetEnds(ActivityId, EventId, EventId),
}
