//! What a command line asks for.

use pesp_base::Period;

/// What the words of a command line ask for. Files are named by their paths.
#[derive(Clone, Copy, Debug)]
pub struct Settings<'a> {
    pub period: Period,
    /// The file of fixed times; without one, no event has a fixed time.
    pub fixed: Option<&'a str>,
    /// The file of times; without one, no event has a time.
    pub times: Option<&'a str>,
    /// The file of activities; without one, there are none.
    pub activities: Option<&'a str>,
    /// Whether to check, which gives tensions, violations and cost, instead of reading commands.
    pub check: bool,
}
