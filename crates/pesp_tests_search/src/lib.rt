//! Tests of the search for a map of least cost and of its lower crates, by their public calls.
//!
//! They are in a crate above the tested ones, so that none of those is proved a second time with tests in it.
#![tactic(auto)]

#[cfg(test)]
mod basis;
#[cfg(test)]
mod cycles;
#[cfg(test)]
mod least;
#[cfg(test)]
mod maps;
#[cfg(test)]
mod network;
#[cfg(test)]
mod networks;
#[cfg(test)]
mod simplex;
