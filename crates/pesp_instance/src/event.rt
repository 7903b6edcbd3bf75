//! Events.

use pesp_base::{EventId, Period, Window};

/// An event, with its window if it has one. A window of one residue is a fixed time.
#[derive(Clone, Copy, Debug, PartialEq, Eq)]
pub struct Event {
    pub id: EventId,
    pub window: Option<Window>,
}

impl Event {
    ghost use Rattle.std.specs.Prelude.{◌≡◌};
    ghost use Rattle.pesp_instance.specs.Network.{agrees_with, fixed_time};

    /// The fixed time, if there is one.
    pub fn fixed_time(&self) -> Option<u16>
        ensures { result ≡ fixed_time self.now }
    {
        self.window?.only_time()
    }

    /// Whether the event may take place at this residue of the period: always, unless its window
    /// excludes it.
    pub fn admits(&self, period: Period, residue: u16) -> bool
        ensures { result ≡ agrees_with period self.now.window residue }
    {
        match self.window {
            Some(window) => window.holds(period, residue),
            None => true,
        }
    }
}
