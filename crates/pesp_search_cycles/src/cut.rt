//! The range of boxes to split, and where.

ghost use Rattle.std.specs.Prelude.{◌≡◌, ℕ, ◌<◌, ◌≤◌, ◌≤ℤ◌, IfNone, IfSome, drop, length, slice_index_or};
ghost use Rattle.pesp_search_cycles.specs.Maps.{AreBoxes, Net};
ghost use Rattle.pesp_search_cycles.specs.Ranges.{IsHalved, no_range};
ghost use Rattle.pesp_search_cycles.specs.Splits.{AreSingle, HasPlace, IsCut};

use crate::boxes::{Boxes, Place};
use crate::range::Halves;
use crate::{Cycles, Range};

/// A range by index, and its two halves.
#[derive(Clone, Copy)]
pub(crate) struct Cut {
    // The index of the range.
    pub(crate) index: usize,
    // The halves of that range.
    pub(crate) halves: Halves,
}

/// The widest range with several multiples of the step.
pub(crate) fn widest(ranges: &[Range], step: u16) -> Option<Cut>
    requires { 0 < step }
    ensures { IfSome result (λ cut. (cut.index < length ranges.now)
        × IsHalved step (slice_index_or ranges.now cut.index no_range) cut.halves) }
{
    let mut widest = None;
    let mut most = 0;
    for index in 0..ranges.len() {
        let range = ranges[index];
        let width = range.high.abs_diff(range.low);
        if width > most {
            if let Some(halves) = range.halved(step) {
                widest = Some(Cut { index, halves });
                most = width;
            }
        }
    }
    widest
}

/// The first range with several numbers.
pub(crate) fn first_wide(ranges: &[Range]) -> Option<Cut>
    ensures some { IfSome result (λ cut. (cut.index < length ranges.now)
        × IsHalved 1 (slice_index_or ranges.now cut.index no_range) cut.halves) }
    ensures none { IfNone result (AreSingle ranges.now) }
{
    for index in 0..ranges.len() {
        if let Some(halves) = ranges[index].without_least() {
            return Some(Cut { index, halves });
        }
    }
    None
}

/// A range by place, and its two halves.
#[derive(Clone, Copy)]
pub(crate) struct Choice {
    // The place of the range.
    pub(crate) place: Place,
    // The halves of that range.
    pub(crate) halves: Halves,
}

impl Choice {
    /// The same split with the other half first.
    pub(crate) fn swapped(self) -> Choice
        ensures place { (B : Boxes) → HasPlace B self.place → HasPlace B result.place }
        ensures cut { (N : Net) (B : Boxes) → IsCut N B self.place self.halves
            → IsCut N B result.place result.halves }
    {
        Choice {
            place: self.place,
            halves: self.halves.swapped(),
        }
    }
}

/// The first range of a residue with several numbers.
fn first_wide_residue(boxes: &Boxes, arcs: usize) -> Option<Choice>
    requires { arcs ≤ length boxes.now.numbers.items }
    ensures place { IfSome result (λ choice. HasPlace boxes.now choice.place) }
    ensures cut { (N : Net) → IfSome result (λ choice.
        IsCut N boxes.now choice.place choice.halves) }
    ensures none { IfNone result (AreSingle (drop arcs boxes.now.numbers.items)) }
{
    let cut = first_wide(&boxes.numbers[arcs..])?;
    Some(Choice {
        place: Place::Number(arcs + cut.index),
        halves: cut.halves,
    })
}

/// The split to make if nothing suggests one: a walk's round, then a variable. There is none once each event
/// has at most one residue.
pub(crate) fn last_cut(cycles: &Cycles, boxes: &Boxes) -> Option<Choice>
    requires { AreBoxes cycles.now boxes.now }
    ensures place { IfSome result (λ choice. HasPlace boxes.now choice.place) }
    ensures cut { IfSome result (λ choice. IsCut cycles.now boxes.now choice.place choice.halves) }
    ensures none { IfNone result (AreSingle
        (drop (length cycles.now.network.arcs) boxes.now.numbers.items)) }
{
    if let Some(cut) = widest(&boxes.rounds, cycles.period().get()) {
        return Some(Choice {
            place: Place::Round(cut.index),
            halves: cut.halves,
        });
    }
    first_wide_residue(boxes, cycles.network().arcs().len())
}

/// Splits a walk's round at a multiple of the period, if both halves are narrower.
pub(crate) fn round_cut(cycles: &Cycles, boxes: &Boxes, index: usize, at: i64) -> Option<Choice>
    ensures place { IfSome result (λ choice. HasPlace boxes.now choice.place) }
    ensures cut { IfSome result (λ choice. IsCut cycles.now boxes.now choice.place choice.halves) }
{
    let range = boxes.rounds.get(index)?;
    let halves = range.cut_at(at, cycles.period().get())?;
    Some(Choice {
        place: Place::Round(index),
        halves,
    })
}

/// Splits a variable's range, if both halves are narrower.
pub(crate) fn number_cut(boxes: &Boxes, index: usize, at: i64) -> Option<Choice>
    ensures place { IfSome result (λ choice. HasPlace boxes.now choice.place) }
    ensures cut { (N : Net) → IfSome result (λ choice.
        IsCut N boxes.now choice.place choice.halves) }
{
    let range = boxes.numbers.get(index)?;
    let halves = range.cut_at(at, 1)?;
    Some(Choice {
        place: Place::Number(index),
        halves,
    })
}
