//! The worked examples of files, scripts, lines, commands and replies.
//!
//! They are in a crate above those that they call, so that none of these is proved again with tests
//! in it.
#![tactic(auto)]

#[cfg(test)]
mod activities;
#[cfg(test)]
mod asserts;
#[cfg(test)]
mod faults;
#[cfg(test)]
mod files;
#[cfg(test)]
mod fixed;
#[cfg(test)]
mod line_reader;
#[cfg(test)]
mod line_writer;
#[cfg(test)]
mod made;
#[cfg(test)]
mod parsing;
#[cfg(test)]
mod reading;
#[cfg(test)]
mod replaying;
#[cfg(test)]
mod replies;
#[cfg(test)]
mod script;
#[cfg(test)]
mod times;
