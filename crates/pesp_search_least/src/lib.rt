//! Branch and bound over any relaxation: a map of least sum, and the first such map.
#![tactic(auto)]

mod budget;
mod expand;
mod incumbent;
mod limits;
mod order;
mod outcome;
mod region;
mod relaxation;
mod search;

pub use budget::Budget;
pub use limits::Limits;
pub use order::first;
pub use outcome::{Candidate, First, Outcome};
pub use region::Region;
pub use relaxation::{Relaxation, Split};
pub use search::{go_on, least};
