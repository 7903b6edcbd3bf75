//! Maps: computed from slacks, polished, and searched for.

mod examples;
mod searches;
mod tables;
