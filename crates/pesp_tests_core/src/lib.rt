//! The worked examples of edits, timetables, domains, searches and workbenches.
//!
//! They are in a crate above those that they call, so that none of these is proved again with tests
//! in it. Their tables are constants, because a table inside a test is proved with it.
#![tactic(auto)]

#[cfg(test)]
mod asked;
#[cfg(test)]
mod asserts;
#[cfg(test)]
mod base;
#[cfg(test)]
mod bench;
#[cfg(test)]
mod candidates;
#[cfg(test)]
mod changes;
#[cfg(test)]
mod costs;
#[cfg(test)]
mod counts;
#[cfg(test)]
mod domains;
#[cfg(test)]
mod edits;
#[cfg(test)]
mod kept;
#[cfg(test)]
mod made;
#[cfg(test)]
mod members;
#[cfg(test)]
mod parts;
#[cfg(test)]
mod prices;
#[cfg(test)]
mod restored;
#[cfg(test)]
mod search;
#[cfg(test)]
mod timetables;
#[cfg(test)]
mod unpushed;
#[cfg(test)]
mod windows;
#[cfg(test)]
mod workbench;
#[cfg(test)]
mod working;
#[cfg(test)]
mod works;
