//! Activities: the constraints between two events.

use crate::{ActivityId, EventId, Span, Weight};

/// A constraint from one event to another: the time between them is in its span, up to whole
/// periods.
///
/// A loop, whose ends are one event, is an activity like any other.
#[derive(Clone, Copy, Debug, PartialEq, Eq)]
pub struct Activity {
    pub id: ActivityId,
    pub from: EventId,
    pub to: EventId,
    pub span: Span,
    pub weight: Weight,
}
