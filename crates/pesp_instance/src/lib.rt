//! An instance of the periodic event scheduling problem, and its edits.
//!
//! Look-ups and walks allocate nothing. Of the edits only `AddEvent`, `AddActivity` and `SetEnds`
//! can run out of memory.
#![tactic(auto)]

mod apply;
mod edit;
mod ends;
mod event;
mod guesses;
mod instance;
mod numbered;
mod table;
mod vertex;
mod walks;

pub use edit::Edit;
pub use event::Event;
pub use instance::Instance;
pub use walks::{Around, Events, Walk};
