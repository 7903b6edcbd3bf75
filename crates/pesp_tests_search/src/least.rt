//! Branch and bound over one event.

mod examples;
mod line;
