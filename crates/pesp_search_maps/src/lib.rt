//! Maps from nodes to residues: computed from slacks, and improved.
//!
//! Nothing is proved of a map except that computing it is safe. The caller computes its cost.
#![tactic(auto)]

mod chance;
mod charge;
mod crossings;
mod current;
mod cuts;
mod descent;
mod ends;
mod first;
mod forest;
mod kick;
mod links;
mod local_search;
mod maps;
mod moves;
mod neighbourhood;
mod numbers;
mod residue;
mod sets;
mod spanning;
mod tree;
mod turns;

pub use charge::Charge;
pub use first::first_map;
pub use local_search::LocalSearch;
pub use maps::map_of;
pub use moves::polish;
