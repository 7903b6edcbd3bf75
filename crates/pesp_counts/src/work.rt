//! The work of an edit.

ghost use Rattle.std.specs.Prelude.{◌≡◌};

/// The work of an edit.
#[derive(Clone, Copy, Debug, PartialEq, Eq)]
pub struct Work {
    /// The number of restored pairs.
    pub restored: u64,
    /// The number of removed pairs, of those in the domains before and of the restored ones.
    pub removed: u64,
    /// The number of looks at one residue along one activity.
    pub probes: u64,
}

impl Work {
    /// The work of no edit.
    pub fn none() -> Work
        ensures { result ≡ record { restored = 0; removed = 0; probes = 0 } }
    {
        Work {
            restored: 0,
            removed: 0,
            probes: 0,
        }
    }
}
