//! Cycles of networks, and paths through them.

mod drawn;
mod examples;
mod lists;
mod short;
