//! Steps.

/// An arc by index, traversed in one direction.
#[derive(Clone, Copy)]
pub struct Step {
    /// The index of the arc.
    pub arc: usize,
    /// Whether the arc is traversed from its start to its end.
    pub along: bool,
}
