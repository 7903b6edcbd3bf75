//! Directional derivatives of the cost.

/// How much the cost rises for each unit by which a variable moves, until the next pivot.
#[derive(Clone, Copy)]
pub struct Steps {
    /// The rise if the variable moves down.
    pub down: i64,
    /// The rise if it moves up.
    pub up: i64,
}
