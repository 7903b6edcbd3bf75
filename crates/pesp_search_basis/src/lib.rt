//! Narrow cycles of a network, and narrow paths through it.
#![tactic(auto)]

mod candidates;
mod cycles;
mod forest;
mod graph;
mod growth;
mod link;
mod nearest;
mod parts;
mod queue;
mod roots;
mod space;
mod steps;
mod ways;

pub use cycles::{candidate_cycles, cycle_count, narrow_cycles, tree_cycles};
pub use nearest::way;
