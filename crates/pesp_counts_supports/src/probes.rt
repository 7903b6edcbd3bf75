//! Counts probes.
//!
//! A probe is a look at one residue along one activity. All code that looks along an activity
//! counts its probes here. Their number saturates.

ghost use Rattle.std.specs.Prelude.{◌≡◌, ◌+◌, ◌-◌, ◌≤◌, ◌<◌, min};
ghost use Rattle.pesp_counts_supports.specs.Spent.{most_probes};

use std::ops::Range;

/// The residues from `low` on and below `high`, each counted as a probe.
pub(crate) fn probe_range(probes: &mut u64, low: u16, high: u16) -> Range<u16>
    requires { low ≤ high }
    ensures range { result ≡ record { start = low; end = high } }
    ensures counted { probes.new ≡ min (probes.old + (high - low)) most_probes }
{
    *probes = probes.saturating_add(u64::from(high - low));
    low..high
}
