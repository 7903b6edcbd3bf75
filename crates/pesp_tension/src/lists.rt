//! The lists that calls return.

use pesp_base::{ActivityId, EventId};

/// The tension and the slack of an activity.
#[derive(Clone, Copy, Debug, PartialEq, Eq)]
pub struct ActivityTension {
    pub id: ActivityId,
    pub tension: i32,
    pub slack: u16,
}

/// The tensions of activities, in ascending order of activities.
pub type Tensions = Vec<ActivityTension>;

/// What a timetable violates.
#[derive(Clone, Copy, Debug, PartialEq, Eq)]
pub enum Violation {
    /// The activity is not met.
    Activity(ActivityId),
    /// The event's time is not in its window.
    Event(EventId),
}

/// The violations of a timetable: activities in ascending order, then events in ascending order.
pub type Violations = Vec<Violation>;
