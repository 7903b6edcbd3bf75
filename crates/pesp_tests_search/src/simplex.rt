//! Optima of random problems, and single calls.

mod drawn;
mod examples;
