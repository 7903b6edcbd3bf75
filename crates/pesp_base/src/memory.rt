//! Out of memory.

/// The allocator refused a request.
#[derive(Clone, Copy, Debug, PartialEq, Eq)]
pub struct Memory;
