//! Terms.

/// A multiple of a variable.
#[derive(Clone, Copy)]
pub struct Term {
    /// The index of the variable.
    pub number: usize,
    /// Its coefficient.
    pub rate: i32,
}
