//! The ends of activities.

ghost use Rattle.std.specs.Prelude.{◌≡◌};
ghost use Rattle.pesp_domains.specs.Domains.{own, other};

use pesp_base::{Activity, EventId};

/// An end of an activity.
#[derive(Clone, Copy, Debug, PartialEq, Eq)]
pub enum Side {
    /// The event that the activity leads from.
    Tail,
    /// The event that it leads to.
    Head,
}

impl Side {
    /// The event at this end.
    pub fn own(self, activity: &Activity) -> EventId
        ensures { result ≡ own self activity.now }
    {
        match self {
            Side::Tail => activity.from,
            Side::Head => activity.to,
        }
    }

    /// The event at the other end.
    pub fn other(self, activity: &Activity) -> EventId
        ensures { result ≡ other self activity.now }
    {
        match self {
            Side::Tail => activity.to,
            Side::Head => activity.from,
        }
    }
}
