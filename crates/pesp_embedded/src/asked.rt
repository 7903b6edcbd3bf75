//! Arguments of a run.

use pesp_base::Period;

/// The period of a run, and the bytes of its files and its commands.
#[derive(Clone, Copy, Debug)]
pub(crate) struct Asked<'a> {
    // The period of the run, which no file contains.
    pub(crate) period: Period,
    // The file of activities; a missing one has no bytes.
    pub(crate) activities: &'a [u8],
    // The file of fixed times; a missing one has no bytes.
    pub(crate) fixed: &'a [u8],
    // The file of times; a missing one has no bytes.
    pub(crate) times: &'a [u8],
    // All lines from the first, since nothing is kept between calls.
    pub(crate) commands: &'a [u8],
}
