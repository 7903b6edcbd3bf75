//! Networks of arcs between events by index, and maps of least cost, by pieces and by any method for one piece.
#![tactic(auto)]

mod apart;
mod costs;
mod graph;
mod links;
mod method;
mod narrow;
mod network;
mod pieces;
mod presolve;
mod separation;
mod share;
mod traversal;

pub use method::Method;
pub use network::Network;
pub use pesp_search_graph::Arc;
pub use presolve::reduction::Reduction;
pub use presolve::shift::Shift;
