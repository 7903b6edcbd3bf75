//! The commands of the workbench, and the scripts that build instances.
#![tactic(auto)]

mod command;
mod name;
mod number_word;
mod numbers;
mod parsing;
mod replaying;
mod words;

pub use command::Command;
pub use parsing::{ParseFault, parse};
pub use replaying::{ReplayFault, ReplayKind, replay};
