//! Timetables, with their tensions, violations and cost in an instance.
#![tactic(auto)]

mod agreement;
mod answers;
mod assessment;
mod lists;
mod look_up;
mod timetable;
mod walk;

pub use agreement::{agrees_with_all, meets_all};
pub use answers::{cost, cost_of_activity, is_met, tensions, violations};
pub use assessment::{Assessment, assess};
pub use lists::{ActivityTension, Tensions, Violation, Violations};
pub use timetable::Timetable;
pub use walk::{EventTime, Walk};
