//! Presolving: a smaller network that is searched instead.

mod clustered;
mod clusters;
mod moved;
mod presolved;
pub(crate) mod reduction;
mod rows;
pub(crate) mod shift;
mod ties;
