//! Rows of residues by place, with a count of partners for each residue at each end of an activity.
#![tactic(auto)]

mod bringing;
mod counting;
mod counts;
mod growing;
mod moving;
mod probes;
mod raising;
mod restoring;
mod sums;
mod supports;
mod taking;
mod trail;
mod widths;

pub use supports::Supports;
pub use trail::{Back, Placed};
