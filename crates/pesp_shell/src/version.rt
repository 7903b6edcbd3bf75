//! The version.

/// The number of python/pespbench/VERSION; a test compares them.
pub(crate) const VERSION: &str = "0.2.0+unreleased";
