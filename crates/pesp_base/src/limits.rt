//! The limits of numbers and counts, as docs/FORMATS.md has them. The interface sets them; no
//! measurement chose one.

ghost use Rattle.std.specs.Prelude.{◌≡◌, ◌≤◌, ◌*◌};
ghost use Rattle.pesp_base.specs.Limits as limits;

use crate::Period;

/// The least period.
pub const LEAST_PERIOD: u16 = 2;

/// The greatest period.
pub const GREATEST_PERIOD: u16 = 1_440;

/// The greatest number of an event or an activity.
pub const GREATEST_NUMBER: u32 = 999_999_999;

/// The greatest weight.
pub const GREATEST_WEIGHT: u32 = 1_000_000_000;

/// The least bound of a span.
pub const LEAST_BOUND: i32 = -1_000_000;

/// The greatest bound of a span.
pub const GREATEST_BOUND: i32 = 1_000_000;

/// The greatest number of events of an instance or a timetable with this period: 20,000, or fewer
/// so that events times period is at most 2,400,000.
///
/// The product bounds the memory of the domains, which have a row of residues for each event.
pub fn max_events(period: Period) -> usize
    ensures value { result ≡ limits.max_events period }
    ensures few { result ≤ 20000 }
    ensures small { result * period ≤ 2400000 }
{
    (2_400_000 / usize::from(period.get())).min(20_000)
}

/// The greatest number of activities of an instance with this period: 100,000, or fewer so that
/// activities times period is at most 12,000,000.
///
/// The product bounds the memory of support counts and the greatest cost.
pub fn max_activities(period: Period) -> usize
    ensures value { result ≡ limits.max_activities period }
    ensures few { result ≤ 100000 }
    ensures small { result * period ≤ 12000000 }
{
    (12_000_000 / usize::from(period.get())).min(100_000)
}
