//! Places for the events and activities of an instance, and the ends of its activities by place.
#![tactic(auto)]

mod end;
mod links;
mod lists;
mod places;

pub use end::{End, Ranges};
pub use links::Links;
pub use lists::Walk;
