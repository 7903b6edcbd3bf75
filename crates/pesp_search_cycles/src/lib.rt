//! Maps of least cost of a network, by bounds on the sums of slacks along walks.
#![tactic(auto)]

mod admitted;
mod aim;
mod basis;
mod boxes;
mod cut;
mod cut_rounds;
mod cuts;
mod cycles;
mod empty;
mod first_search;
mod flip;
mod gap;
mod graph;
mod held;
mod least_search;
mod least_turns;
mod leaves;
mod local;
mod method;
mod node;
mod open;
mod parts;
mod proposer;
mod range;
mod residues;
mod root;
mod separate;
mod settling;
mod site;
mod spent;
mod stack;
mod starts;
mod terms;
mod turn;
mod waiting;
mod walk;

pub use basis::is_of_use;
pub use cycles::Cycles;
pub use method::ByCycles;
pub use range::Range;
pub use walk::Walk;
