//! Columns.

/// A column of the tableau: its nonbasic variable and that variable's reduced cost.
#[derive(Clone, Copy)]
pub(crate) struct Column {
    // The index of the nonbasic variable among all variables.
    pub(crate) number: usize,
    /// The reduced cost, with `cost_bits` bits after the point.
    pub(crate) cost: i64,
}
