//! Restores pairs to the rows, and lists them.

ghost use Rattle.std.specs.Prelude.{◌≡◌, ◌<◌, ◌≤◌, ◌+◌, ◌-◌, ◌*◌, ℕ, Bool, Some, None, [], false, cond, IsTrue, IfSome, All, length};
ghost use Rattle.std.specs.List.{Contains};
ghost use Rattle.pesp_base.specs.Windows.{is_held};
ghost use Rattle.pesp_domains.specs.Domains.{holds};
ghost use Rattle.pesp_counts_arcs.specs.declared.end.End.{End};
ghost use Rattle.pesp_counts_arcs.specs.Ends.{end_at, ends_of, is_from_to};
ghost use Rattle.pesp_counts_supports.specs.Blocks.{is_met_by, of_block, of_blocks, of_met};
ghost use Rattle.pesp_counts_supports.specs.Counts.{has_at};
ghost use Rattle.pesp_counts_supports.specs.Moves.{IsMoved, partners};
ghost use Rattle.pesp_counts_supports.specs.Restored.{AreRanges, HasRoom, IsBrought, IsMeeting, LooksAt, in_ranges, of_pair, of_range, of_ranges, of_start, of_starts, size_of};
ghost use Rattle.pesp_counts_supports.specs.Restoring.{admits_at};
ghost use Rattle.pesp_counts_supports.specs.Spent.{unmet, unmet_in};
ghost use Rattle.pesp_counts_supports.specs.Supports.{Fit};

use crate::moving::{Moved, is_spared_end, touched_ranges};
use crate::supports::Supports;
use crate::{Back, Placed, probes};
use pesp_base::{EventId, Period, Window};
use pesp_counts_arcs::{End, Links, Ranges};
use pesp_domains::Row;
use pesp_instance::Instance;
use std::ops::Range;

/// The residues of a window.
pub(crate) fn ranges_of(window: Window, period: Period) -> Ranges
    ensures ranges { AreRanges period result }
    ensures few { window.length < period → size_of result < period }
    ensures held { (r : ℕ) → r < period → in_ranges result r ≡ is_held period window r }
{
    let end = End {
        looks_at: 0,
        mate: 0,
        first: window.first() % period.get(),
        width: window.length().min(period.get()),
    };
    end.ranges(period.get(), 0)
}

/// The residues that the window of the event at a place admits, or `None` if it admits all. A place
/// without an event admits no residue.
fn admitted_at(instance: &Instance, links: &Links, place: usize) -> Option<Ranges>
    ensures some { IfSome result (λ w. AreRanges (instance.now).period w
        × (size_of w < (instance.now).period) × ((r : ℕ) → r < (instance.now).period
        → in_ranges w r ≡ admits_at instance.now links.now place r)) }
    ensures none { result ≡ None → (r : ℕ) → r < (instance.now).period
        → IsTrue (admits_at instance.now links.now place r) }
{
    let period = instance.period();
    let Some(number) = links.event_at(place) else {
        return Some(Ranges {
            start: 0,
            end: 0,
            wrapped: 0,
        });
    };
    let window = instance.window(EventId::new(number)?)?;
    if window.length() < period.get() {
        Some(ranges_of(window, period))
    } else {
        None
    }
}

/// Whether the row lacks a residue of the ranges.
fn lacks_some(row: &Row, ranges: Ranges) -> bool
    requires { ranges.start ≤ ranges.end }
    ensures full { result ≡ false → (r : ℕ) → IsTrue (in_ranges ranges r) → IsTrue (holds row.now r) }
{
    lacks_between(row, ranges.start, ranges.end) || lacks_between(row, 0, ranges.wrapped)
}

/// Whether the row lacks a residue of a range.
fn lacks_between(row: &Row, low: u16, high: u16) -> bool
    ensures full { result ≡ false → (r : ℕ) → IsTrue (is_from_to low high r)
        → IsTrue (holds row.now r) }
{
    for residue in low..high {
        if !row.holds(residue) {
            return true;
        }
    }
    false
}

/// Whether the window of a residue at an end has some of the moving residues, whose sums are given.
/// Without an end it is met.
fn is_met(sums: &[u16], met: Option<End>, residue: u16) -> bool
    requires { (end : End) → met ≡ Some end → end.first + end.width + residue < length sums.now }
    ensures { result ≡ is_met_by sums.now met residue }
{
    match met {
        Some(end) => {
            let low = end.first as usize + residue as usize;
            sums[low] < sums[low + end.width as usize]
        }
        None => true,
    }
}

impl Supports {
    /// Restores a residue that a place lacks, and appends it to the list. If there is an end, the
    /// moving residues must meet it there.
    fn bring(&mut self, place: usize, met: Option<End>, residue: u16, back: &mut Back)
        requires place { place < length (self.old).rows }
        requires met { IsMeeting (self.old).period met }
        requires residue { residue < (self.old).period }
        requires trail { (self.old).trail ≡ [] }
        requires room { HasRoom self.old back.old }
        ensures brought { IsBrought (of_met (self.old).sums met (of_pair place residue))
            self.old self.new back.old back.new }
        ensures probes { LooksAt (cond (is_met_by (self.old).sums met residue) 0 1)
            self.old self.new back.old back.new }
    {
        if self.holds(place, residue) {
            return;
        }
        probes::probe_range(&mut self.probes, residue, residue + 1);
        if is_met(&self.sums, met, residue) {
            self.rows[place].put_in(residue);
            back.push_reserved(Placed {
                place: place as u32,
                residue,
            });
        }
    }

    /// Restores those of a range of residues at a place that it lacks, and that the moving residues
    /// meet.
    fn bring_range(&mut self, place: usize, met: Option<End>, residues: Range<u16>, back: &mut Back)
        requires place { place < length (self.old).rows }
        requires met { IsMeeting (self.old).period met }
        requires order { residues.start ≤ residues.end }
        requires high { residues.end ≤ (self.old).period }
        requires trail { (self.old).trail ≡ [] }
        requires room { HasRoom self.old back.old }
        ensures brought { IsBrought (of_met (self.old).sums met
            (of_range place residues.start residues.end)) self.old self.new back.old back.new }
        ensures probes { LooksAt
            (unmet (self.old).sums met residues.start (residues.end - residues.start))
            self.old self.new back.old back.new }
    {
        for residue in residues {
            self.bring(place, met, residue, back);
        }
    }

    /// Restores those of two ranges of residues.
    fn bring_ranges(&mut self, place: usize, met: Option<End>, ranges: Ranges, back: &mut Back)
        requires place { place < length (self.old).rows }
        requires met { IsMeeting (self.old).period met }
        requires ranges { AreRanges (self.old).period ranges }
        requires trail { (self.old).trail ≡ [] }
        requires room { HasRoom self.old back.old }
        ensures brought { IsBrought (of_met (self.old).sums met (of_ranges place ranges))
            self.old self.new back.old back.new }
        ensures probes { LooksAt (unmet_in (self.old).sums met ranges)
            self.old self.new back.old back.new }
    {
        self.bring_range(place, met, ranges.start..ranges.end, back);
        self.bring_range(place, met, 0..ranges.wrapped, back);
    }

    /// Restores the partners, along an activity, of what moved at the place of an end.
    fn bring_along(
        &mut self,
        instance: &Instance,
        links: &Links,
        number: usize,
        came: Moved,
        back: &mut Back,
    )
        requires fit { Fit links.now self.old }
        requires period { (self.old).period ≡ (instance.now).period }
        requires listed { (p : ℕ) × Contains (ends_of (links.now).lists p) number }
        requires some { (comes : ℕ → Bool) × IsMoved (self.old).period came (self.old).sums comes
            × ((r : ℕ) × (r < (self.old).period)
            × (0 < partners (self.old).period (links.now).ends number comes r)) }
        requires trail { (self.old).trail ≡ [] }
        requires room { HasRoom self.old back.old }
        ensures brought { (comes : ℕ → Bool)
            → IsMoved (self.old).period came (self.old).sums comes
            → IsBrought (of_block (self.old).period instance.now links.now comes
            (end_at (links.now).ends (end_at (links.now).ends number).mate)
            (end_at (links.now).ends number).looks_at) self.old self.new back.old back.new }
        ensures probes { LooksAt ((self.old).period - 1) self.old self.new back.old back.new }
    {
        let near = links.end(number);
        let far = links.end(near.mate as usize);
        let place = near.looks_at as usize;
        let ranges = touched_ranges(came, near, self.period.get());
        // The row is read first, because that costs less: docs/HISTORY.md, "Counts move in one
        // way".
        if lacks_some(&self.rows[place], ranges) {
            let ranges = admitted_at(instance, links, place).unwrap_or(ranges);
            self.bring_ranges(place, Some(far), ranges, back);
        }
    }

    /// Restores the partners of what moved at a place, along all activities there but the spared
    /// one.
    pub(crate) fn bring_around(
        &mut self,
        instance: &Instance,
        links: &Links,
        spared: Option<usize>,
        place: usize,
        came: Moved,
        back: &mut Back,
    )
        requires fit { Fit links.now self.old }
        requires period { (self.old).period ≡ (instance.now).period }
        requires some { (comes : ℕ → Bool) × IsMoved (self.old).period came (self.old).sums comes
            × ((r : ℕ) × (r < (self.old).period) × IsTrue (comes r)) }
        requires trail { (self.old).trail ≡ [] }
        requires room { HasRoom self.old back.old }
        ensures brought { (comes : ℕ → Bool)
            → IsMoved (self.old).period came (self.old).sums comes
            → IsBrought (of_blocks (self.old).period instance.now links.now spared comes
            (ends_of (links.now).lists place)) self.old self.new back.old back.new }
        ensures probes { LooksAt (((self.old).period - 1) * length (ends_of (links.now).lists place))
            self.old self.new back.old back.new }
    {
        for number in links.ends_at(place) {
            if !is_spared_end(spared, number) {
                self.bring_along(instance, links, number, came, back);
            }
        }
    }

    /// Restores all admitted residues at these places.
    pub(crate) fn bring_starts(
        &mut self,
        instance: &Instance,
        links: &Links,
        starts: &[usize],
        back: &mut Back,
    )
        requires starts { All (λ p. p < length (self.old).rows) starts.now }
        requires period { (self.old).period ≡ (instance.now).period }
        requires trail { (self.old).trail ≡ [] }
        requires room { HasRoom self.old back.old }
        ensures brought { IsBrought (of_starts instance.now links.now starts.now) self.old self.new
            back.old back.new }
        ensures probes { LooksAt 0 self.old self.new back.old back.new }
    {
        let all = Ranges {
            start: 0,
            end: self.period.get(),
            wrapped: 0,
        };
        for place in starts {
            let ranges = admitted_at(instance, links, *place).unwrap_or(all);
            self.bring_ranges(*place, None, ranges, back);
        }
    }
}
