//! Readers of files of activities, of times and of fixed times.
#![tactic(auto)]

mod activities;
mod fault;
mod fixed;
mod records;
mod rows;
mod times;
mod trim;

pub use activities::read_activities;
pub use fault::{FaultKind, ReadFault};
pub use fixed::read_fixed;
pub use times::read_times;
