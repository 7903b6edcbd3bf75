//! The canonical texts of instances and timetables, and the script that builds an instance.
//!
//! Each call allocates in proportion to its text, and nothing else.
#![tactic(auto)]

mod fields;
mod files;
mod script;
mod text;

pub use files::{write_activities, write_fixed, write_times};
pub use script::dump;
pub use text::{put, put_between, put_number, put_signed};
