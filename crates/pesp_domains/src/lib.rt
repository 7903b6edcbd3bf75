//! The arc-consistent domains of an instance: the residues of each event that remain when pairs
//! without a partner are removed until there are none.
//!
//! A trait for keepers of domains, while edits are made and pairs are pushed and popped, and a
//! plain keeper.
#![tactic(auto)]

mod keeper;
mod loosening;
mod pair;
mod plain;
mod reach;
pub mod removal;
mod row;
mod rows;
mod side;
mod sweep;

pub use keeper::{Keeper, NoRoom};
pub use loosening::{is_limited, is_looser, law_of_wider_spans, window_admits_anew};
pub use pair::Pair;
pub use plain::PlainKeeper;
pub use reach::{remainder, width_of};
pub use row::Row;
pub use side::Side;
