//! The ends of activities, as the counts see them.

ghost use Rattle.std.specs.Prelude.{◌≡◌, ℕ, ◌<◌, ◌≤◌, ◌*◌, ◌↔◌, ◌||◌, IsTrue};
ghost use Rattle.pesp_base.specs.Tensions.{IsMet};
ghost use Rattle.pesp_counts_arcs.specs.Ends.{is_from_to, passes};

use pesp_base::{Period, Span};
use pesp_domains::{remainder, width_of};

/// An end of an activity. For a residue `r` of its own event the activity admits `width` residues
/// of the other event: those from `r + first` on, modulo the period.
#[derive(Clone, Copy, Debug, Default, PartialEq, Eq)]
pub struct End {
    /// The place of the event at the other end.
    pub looks_at: u32,
    /// The other end.
    pub mate: u32,
    pub first: u16,
    pub width: u16,
}

/// Residues in two ranges: from `start` on and below `end`, and below `wrapped`.
#[derive(Clone, Copy)]
pub struct Ranges {
    pub start: u16,
    pub end: u16,
    pub wrapped: u16,
}

impl End {
    /// The end of an activity of this span at the event that it leads from.
    pub fn tail(period: Period, span: Span, looks_at: u32, mate: u32) -> End
        ensures looks { result.looks_at ≡ looks_at }
        ensures mate { result.mate ≡ mate }
        ensures first { result.first < period }
        ensures some { 0 < result.width }
        ensures width { result.width ≤ period }
        ensures joins { (r s : ℕ) → IsTrue (passes period result r s) ↔ IsMet period span r s }
    {
        let width = width_of(period, span);
        let first = remainder(span.lower(), period);
        End {
            looks_at,
            mate,
            first,
            width,
        }
    }

    /// The end of an activity of this span at the event that it leads to.
    pub fn head(period: Period, span: Span, looks_at: u32, mate: u32) -> End
        ensures looks { result.looks_at ≡ looks_at }
        ensures mate { result.mate ≡ mate }
        ensures first { result.first < period }
        ensures some { 0 < result.width }
        ensures width { result.width ≤ period }
        ensures joins { (s r : ℕ) → IsTrue (passes period result s r) ↔ IsMet period span r s }
    {
        let width = width_of(period, span);
        let first = remainder(1 - span.lower() - width as i32, period);
        End {
            looks_at,
            mate,
            first,
            width,
        }
    }

    /// The residues of the other event that the activity admits for one of this event.
    pub fn ranges(&self, period: u16, residue: u16) -> Ranges
        requires period { 2 * period < 65536 }
        requires residue { residue < period }
        requires first { (self.now).first < period }
        requires width { (self.now).width ≤ period }
        ensures order { result.start ≤ result.end }
        ensures below { result.end ≤ period }
        ensures wrapped { result.wrapped ≤ result.start }
        ensures passes { (s : ℕ) → s < period → passes period self.now residue s
            ≡ (is_from_to result.start result.end s || is_from_to 0 result.wrapped s) }
    {
        let sum = residue + self.first;
        let start = if sum < period { sum } else { sum - period };
        let beyond = start + self.width;
        let end = beyond.min(period);
        Ranges {
            start,
            end,
            wrapped: beyond - end,
        }
    }
}
