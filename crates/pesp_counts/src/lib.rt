//! Domains kept by support counts: arc consistency as in AC-4, through edits that tighten and edits
//! that loosen.
#![tactic(auto)]

mod keeper;
mod work;

pub use keeper::CountKeeper;
pub use work::Work;
