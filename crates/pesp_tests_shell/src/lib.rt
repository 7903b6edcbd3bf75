//! The worked examples of runs, checks and command lines.
//!
//! They are in a crate above pesp_shell, so that it is not proved again with tests in it.
#![tactic(auto)]

#[cfg(test)]
mod asserts;
#[cfg(test)]
mod checks;
#[cfg(test)]
mod devices;
#[cfg(test)]
mod options;
#[cfg(test)]
mod sessions;
#[cfg(test)]
mod streams;
