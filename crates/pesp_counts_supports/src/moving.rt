//! Moves residues of a place out of the counts or into them, one alone or many together.

ghost use Rattle.std.specs.Prelude.{◌≡◌, ◌<◌, ◌≤◌, ◌*◌, ◌+◌, ◌==◌, ◌&&◌, if◌then◌else◌, cond, ℕ, Bool, IsTrue, length};
ghost use Rattle.std.specs.List.{Contains};
ghost use Rattle.pesp_domains.specs.Sweeps.{Pairs};
ghost use Rattle.pesp_counts_arcs.specs.Ends.{ends_of, is_from_to, passes};
ghost use Rattle.pesp_counts_supports.specs.Blocks.{AreSums};
ghost use Rattle.pesp_counts_supports.specs.Counts.{count_at, has_at, supporters};
ghost use Rattle.pesp_counts_supports.specs.Moves.{CanMove, CanShift, IsMoved, IsOne, IsShifted, Moves, MovesBy, OnlyCounts, is_leveled, is_touched, moves_of};
ghost use Rattle.pesp_counts_supports.specs.Restored.{AreExactBut, AreSparedTogether, in_ranges};
ghost use Rattle.pesp_counts_supports.specs.Restoring.{is_spared};
ghost use Rattle.pesp_counts_supports.specs.Supports.{Fit};

use crate::sums::sum_one;
use crate::supports::Supports;
use crate::{Placed, probes};
use pesp_counts_arcs::{End, Links, Ranges};

/// What moves at a place, with its sums made: one residue, or all that wait there.
#[derive(Clone, Copy)]
pub(crate) enum Moved {
    One(u16),
    Block,
}

/// Whether residues leave the counts or enter them.
#[derive(Clone, Copy)]
pub(crate) enum Way {
    Out,
    In,
}

/// The least number of waiting residues of a place that move together: one pass over a period then
/// costs less than one over a window for each of them. No measurement of other values is written
/// down. docs/HISTORY.md has the cost without blocks under "Before blocks".
pub(crate) const BLOCK: u16 = 4;

/// Whether the first `many` pairs are likely to be of one place, judged by the first and the last.
/// This only decides whether to look for the residues waiting there, which costs more than moving
/// one pair.
pub(crate) fn begins_run(pairs: &[Placed], many: u16) -> bool
    requires { 0 < many }
{
    let last = usize::from(many - 1);
    last < pairs.len() && pairs[last].place == pairs[0].place
}

/// The residues at the other event of an end that may have partners among those that move.
pub(crate) fn touched_ranges(moved: Moved, end: End, period: u16) -> Ranges
    requires period { 2 * period < 65536 }
    requires one { IsOne period moved }
    requires first { end.first < period }
    requires width { end.width ≤ period }
    ensures order { result.start ≤ result.end }
    ensures below { result.end ≤ period }
    ensures wrapped { result.wrapped ≤ result.start }
    ensures touched { (s : ℕ) → s < period
        → in_ranges result s ≡ is_touched period moved end s }
{
    match moved {
        Moved::One(residue) => end.ranges(period, residue),
        Moved::Block => Ranges {
            start: 0,
            end: period,
            wrapped: 0,
        },
    }
}

/// Whether the end is one of the activity at the spared place.
pub(crate) fn is_spared_end(spared: Option<usize>, end: usize) -> bool
    ensures { result ≡ is_spared spared end }
{
    spared == Some(end / 2)
}

impl Supports {
    /// What moves with a waiting pair, with its sums: the pair alone, or all residues waiting at
    /// its place if they are many. They are looked for only in a run.
    pub(crate) fn moving_with(&mut self, pair: Placed, way: Way, in_run: bool) -> Moved
        requires place { pair.place < length (self.old).rows }
        requires residue { pair.residue < (self.old).period }
        ensures moving { IsMoved (self.old).period result (self.new).sums
            (moves_of way self.old pair.place result) }
        ensures alone { (residue : ℕ) → result ≡ Moved.One residue → residue ≡ pair.residue }
        ensures same { self.new ≡ record self.old { sums = (self.new).sums } }
    {
        if in_run && self.sum_waiting(pair.place as usize, way) >= BLOCK {
            return Moved::Block;
        }
        sum_one(pair.residue, self.period.get(), &mut self.sums);
        Moved::One(pair.residue)
    }

    /// Moves the counts of a range of residues at an end that refers to the moving place, each by
    /// the number of moving residues in its window.
    pub(crate) fn move_range(&mut self, number: usize, end: End, way: Way, low: u16, high: u16)
        requires order { low ≤ high }
        requires high { high ≤ (self.old).period }
        requires first { end.first < (self.old).period }
        requires width { end.width ≤ (self.old).period }
        requires block { number * (self.old).period + (self.old).period ≤ length (self.old).counts }
        requires can { (moved : ℕ → Bool) × AreSums (self.old).period moved (self.old).sums
            × ((r : ℕ) → IsTrue (is_from_to low high r) → CanShift (self.old).period way
            (supporters (self.old).period moved (passes (self.old).period end r))
            (count_at (self.old).period (self.old).counts number r)) }
        ensures moved { (moved : ℕ → Bool) → AreSums (self.old).period moved (self.old).sums
            → (k r : ℕ) → r < (self.old).period → IsShifted way
            (cond (k == number && is_from_to low high r)
            (supporters (self.old).period moved (passes (self.old).period end r)) 0)
            (count_at (self.old).period (self.old).counts k r)
            (count_at (self.old).period (self.new).counts k r) }
        ensures only { OnlyCounts self.old self.new }
        ensures probes { (self.new).probes + low ≤ (self.old).probes + high }
    {
        let base = self.counts.base(number, self.period.get());
        probes::probe_range(&mut self.probes, low, high);
        let first = end.first as usize;
        let last = first + end.width as usize;
        let below = &self.sums[first + low as usize..first + high as usize];
        let above = &self.sums[last + low as usize..last + high as usize];
        match way {
            Way::Out => self.counts.shift(base + low as usize, above, below),
            Way::In => self.counts.shift(base + low as usize, below, above),
        }
    }

    /// Moves the counts along an activity by what moves at the place of an end.
    fn move_along(&mut self, links: &Links, number: usize, moved: Moved, way: Way)
        requires fit { Fit links.now self.old }
        requires listed { (p : ℕ) × Contains (ends_of (links.now).lists p) number }
        requires can { (moves : ℕ → Bool)
            × IsMoved (self.old).period moved (self.old).sums moves
            × CanMove way (self.old).period (links.now).ends number moves (self.old).counts }
        ensures moved { (moves : ℕ → Bool)
            → IsMoved (self.old).period moved (self.old).sums moves
            → MovesBy way (self.old).period (links.now).ends number moves
            (self.old).counts (self.new).counts }
        ensures only { OnlyCounts self.old self.new }
        ensures probes { (self.new).probes ≤ (self.old).probes + (self.old).period }
    {
        let near = links.end(number);
        let mate = near.mate as usize;
        let far = links.end(mate);
        let ranges = touched_ranges(moved, near, self.period.get());
        self.move_range(mate, far, way, ranges.start, ranges.end);
        self.move_range(mate, far, way, 0, ranges.wrapped);
    }

    /// Moves the counts at all ends that refer to a place, except the spared ones, by what moves
    /// there.
    pub(crate) fn move_around(
        &mut self,
        links: &Links,
        spared: Option<usize>,
        place: usize,
        moved: Moved,
        way: Way,
    )
        requires fit { Fit links.now self.old }
        requires mates { AreSparedTogether links.now spared }
        requires moves { (from to : Pairs) × (moves : ℕ → Bool)
            × Moves links.now spared self.old place moved way from moves to }
        ensures exact { (from to : Pairs) → (moves : ℕ → Bool)
            → Moves links.now spared self.old place moved way from moves to
            → AreExactBut links.now spared self.new to }
        ensures only { OnlyCounts self.old self.new }
        ensures probes { (self.new).probes ≤ (self.old).probes
            + (self.old).period * length (ends_of (links.now).lists place) }
    {
        for number in links.ends_at(place) {
            if !is_spared_end(spared, number) {
                self.move_along(links, number, moved, way);
            }
        }
    }

    /// Makes the counted row of a place equal to its row, at the residue that moved or at all of
    /// them.
    pub(crate) fn level(&mut self, place: usize, moved: Moved)
        requires place { place < length (self.old).rows }
        requires one { IsOne (self.old).period moved }
        ensures counted { (p r : ℕ) → has_at (self.new).counted p r
            ≡ (if p == place && is_leveled (self.old).period moved r
            then has_at (self.old).rows p r else has_at (self.old).counted p r) }
        ensures long { length (self.new).counted ≡ length (self.old).counted }
        ensures same { self.new ≡ record self.old { counted = (self.new).counted } }
    {
        let residues = match moved {
            Moved::One(residue) => residue..residue + 1,
            Moved::Block => 0..self.period.get(),
        };
        for residue in residues {
            if self.rows[place].holds(residue) {
                self.counted[place].put_in(residue);
            } else {
                self.counted[place].take_out(residue);
            }
        }
    }
}
