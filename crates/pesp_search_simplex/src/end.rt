//! The ways a run of the simplex ends.

/// How a run of the simplex ends.
#[derive(Clone, Copy, PartialEq, Eq, Debug)]
pub enum End {
    /// Optimal: every variable is in its range.
    Least,
    /// The cost, rounded up, has reached the cap.
    AtCap,
    /// Infeasible: one row cannot reach its range for any values of the other variables.
    Empty,
    /// The work limit was reached.
    Spent,
}
