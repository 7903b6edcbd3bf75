//! Searches that can be resumed, and the request to a search.

use pesp_search_cycles::ByCycles;
use std::alloc::Global;

/// Stopped searches, which are resumed if the same instance is searched again.
#[derive(Drop)]
pub struct Searches {
    // Of any networks: their networks are compared with the instance's before they are resumed.
    pub(crate) cycles: ByCycles,
    // Whether the last search was one by cycles.
    pub(crate) by_cycles: bool,
}

impl Searches {
    /// A state before the first search.
    pub fn new(alloc: Global) -> Searches {
        Searches {
            cycles: ByCycles::new(alloc),
            by_cycles: false,
        }
    }

    /// Whether the last search, if it stopped, can be resumed. A search through the tree always restarts.
    pub fn goes_on(&self) -> bool {
        self.by_cycles
    }
}

/// The request to a search.
#[derive(Clone, Copy)]
pub(crate) struct Ask {
    // An upper bound on the least cost, if one is known.
    pub(crate) bound: Option<u64>,
    // The most nodes; None without a limit.
    pub(crate) limit: Option<u64>,
}
