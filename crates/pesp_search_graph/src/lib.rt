//! Arcs between events by index, and steps along and against arcs.
#![tactic(auto)]

mod arc;
mod step;

pub use arc::Arc;
pub use step::Step;
