//! Pieces of networks, and networks with merged events.

mod pieces;
mod presolve;
mod recorder;
