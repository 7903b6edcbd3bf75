//! The program but for its `main`.
#![tactic(auto)]

mod answering;
mod ending;
mod fault;
mod file_bytes;
mod files;
mod messages;
mod paths;
mod program;

pub use program::{run, status};
