//! Events as they are stored.

use crate::Event;
use std::alloc::Global;
use std::collections::BTreeSet;

/// An event, with the numbers of its activities in order, a loop once.
///
/// docs/HISTORY.md compares this with one set for all events under "A set of activities for each
/// event".
#[derive(Drop)]
pub struct Vertex {
    pub event: Event,
    pub activities: BTreeSet<u32>,
}

impl Vertex {
    ghost use Rattle.std.specs.Prelude.{◌≡◌, []};

    /// An event without activities. Nothing is allocated.
    pub fn new(alloc: Global, event: Event) -> Self
        ensures event { result.event ≡ event }
        ensures activities { result.activities.keys ≡ [] }
    {
        Vertex {
            event,
            activities: BTreeSet::new(alloc),
        }
    }
}
