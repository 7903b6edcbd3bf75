//! Numbers, spans, tensions and refusals of periodic timetables.
//!
//! Nothing in this crate allocates.
#![tactic(auto)]

mod activity;
mod activity_id;
mod arithmetic;
mod event_id;
mod limits;
mod memory;
mod number;
mod period;
mod refusal;
mod residues;
mod span;
mod weight;
mod window;

pub use activity::Activity;
pub use activity_id::ActivityId;
pub use arithmetic::{allows, slack, tension};
pub use event_id::EventId;
pub use limits::{
    GREATEST_BOUND, GREATEST_NUMBER, GREATEST_PERIOD, GREATEST_WEIGHT, LEAST_BOUND, LEAST_PERIOD,
    max_activities, max_events,
};
pub use memory::Memory;
pub use number::{NUMBER_CAP, NumberFault, number_between};
pub use period::Period;
pub use refusal::Refusal;
pub use residues::{Residues, partners, sources};
pub use span::{Span, SpanFault};
pub use weight::Weight;
pub use window::Window;
