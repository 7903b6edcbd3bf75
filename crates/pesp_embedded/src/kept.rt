//! What a session keeps.

use pesp_bench::Bench;
use pesp_counts::CountKeeper;

/// What an open session keeps.
#[derive(Drop)]
pub struct Kept {
    /// The workbench, over the program's keeper.
    pub bench: Bench<CountKeeper>,
}
