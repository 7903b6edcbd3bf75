//! Basic variables.

/// A row of the tableau: its basic variable and that variable's value.
#[derive(Clone, Copy)]
pub(crate) struct Basic {
    // The index of the basic variable among all variables.
    pub(crate) number: usize,
    /// The value, in units of 1 / `ONE`.
    pub(crate) value: i64,
}
