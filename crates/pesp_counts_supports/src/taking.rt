//! Removes pairs without a partner, as their counts fall to 0.

ghost use Rattle.std.specs.Prelude.{◌≡◌, ◌<◌, ◌≤◌, ◌*◌, ◌+◌, ◌==◌, ◌&&◌, not, cond, ℕ, false, [], IsTrue, drop, length, slice_index_or};
ghost use Rattle.std.specs.List.{Contains};
ghost use Rattle.pesp_base.specs.Windows.{is_held};
ghost use Rattle.pesp_domains.specs.Sweeps.{Of, limited, narrowed_to};
ghost use Rattle.pesp_domains.specs.Removals.{without};
ghost use Rattle.pesp_counts_arcs.specs.Ends.{end_at, ends_of, is_from_to};
ghost use Rattle.pesp_counts_supports.specs.Counts.{count_at, has_at};
ghost use Rattle.pesp_counts_supports.specs.Lone.{IsFirst};
ghost use Rattle.pesp_counts_supports.specs.Moves.{IsOne, is_touched, owed};
ghost use Rattle.pesp_counts_supports.specs.Resting.{AreAtRest, AreLive, AreLiveBut, ArePendingBut, AreWaiting, KeepsAllClosed};
ghost use Rattle.pesp_counts_supports.specs.Supports.{AreExact, Fit, HaveSameShape, IsTaken, Keeps, OnlyTakes, is_in, lacks_partner};
ghost use Rattle.pesp_counts_supports.specs.Spent.{ends_at};

use crate::bringing::ranges_of;
use crate::moving::{BLOCK, Moved, Way, begins_run, touched_ranges};
use crate::supports::Supports;
use crate::{Placed, probes};
use pesp_base::Window;
use pesp_counts_arcs::Links;
use std::ops::Range;

impl Supports {
    /// Counts out each pair of the trail from `next` on, and removes the pairs left without a
    /// partner.
    pub fn settle(&mut self, links: &Links, next: usize)
        requires fit { Fit links.now self.old }
        requires pending { AreWaiting (self.old).period links.now self.old next }
        ensures pending { AreWaiting (self.old).period links.now self.new (length (self.new).trail) }
        ensures keeps { KeepsAllClosed links.now self.old self.new }
        ensures taken { IsTaken self.old self.new }
        ensures shape { HaveSameShape self.old self.new }
        ensures probes { (self.new).probes
            ≤ (self.old).probes + (self.old).period
            * ends_at links.now (drop next (self.new).trail) }
        ensures counts_on { (self.old).probes ≤ (self.new).probes }
    {
        let mut next = next;
        while next < self.trail.len() {
            self.settle_one(links, next);
            next += 1;
        }
    }

    /// Counts out one pair of the trail if it still counts, alone or with others that wait at its
    /// place.
    fn settle_one(&mut self, links: &Links, next: usize)
        requires fit { Fit links.now self.old }
        requires pending { AreWaiting (self.old).period links.now self.old next }
        requires next { next < length (self.old).trail }
        ensures pending { AreWaiting (self.old).period links.now self.new (next + 1) }
        ensures keeps { KeepsAllClosed links.now self.old self.new }
        ensures taken { IsTaken self.old self.new }
        ensures shape { HaveSameShape self.old self.new }
        ensures probes { let before = owed links.now (has_at (self.old).counted)
            (drop next (self.old).trail) in
            let after = owed links.now (has_at (self.new).counted) (drop (next + 1) (self.new).trail) in
            let came = ends_at links.now (drop (length (self.old).trail) (self.new).trail) in
            (self.new).probes + (self.old).period * after
            ≤ (self.old).probes + (self.old).period * (before + came) }
        ensures counts_on { (self.old).probes ≤ (self.new).probes }
    {
        let pair = self.trail[next];
        let place = pair.place as usize;
        if self.has_counted(place, pair.residue) && !self.holds(place, pair.residue) {
            let in_run = begins_run(&self.trail[next..], BLOCK);
            let leaving = self.moving_with(pair, Way::Out, in_run);
            self.move_around(links, None, place, leaving, Way::Out);
            self.level(place, leaving);
            // A second loop over the ends. Skipping it where no count fell to 0 measured no better:
            // docs/HISTORY.md, "Counts move in one way".
            self.sift_around(links, place, leaving);
        }
    }

    /// Whether the counts include the pair.
    pub(crate) fn has_counted(&self, place: usize, residue: u16) -> bool
        ensures { result ≡ has_at (self.now).counted place residue }
    {
        place < self.counted.len() && self.counted[place].holds(residue)
    }

    /// Removes the pairs without a partner at the ends that refer to a place which residues left.
    fn sift_around(&mut self, links: &Links, place: usize, left: Moved)
        requires fit { Fit links.now self.old }
        requires one { IsOne (self.old).period left }
        requires below { (p r : ℕ) → Of (has_at (self.old).rows) p r → r < (self.old).period }
        requires within { (p r : ℕ) → Of (has_at (self.old).rows) p r
            → Of (has_at (self.old).counted) p r }
        requires exact { AreExact links.now self.old (has_at (self.old).counted) }
        requires live { AreLiveBut links.now self.old left (ends_of (links.now).lists place) }
        ensures live { AreLive links.now self.new }
        ensures closed { KeepsAllClosed links.now self.old self.new }
        ensures takes { OnlyTakes self.old self.new }
    {
        for number in links.ends_at(place) {
            self.sift_along(links, number, left);
        }
    }

    /// Removes the pairs without a partner at the far place of an activity whose near place
    /// residues left.
    fn sift_along(&mut self, links: &Links, number: usize, left: Moved)
        requires fit { Fit links.now self.old }
        requires one { IsOne (self.old).period left }
        requires listed { (p : ℕ) × Contains (ends_of (links.now).lists p) number }
        ensures rows { let end = end_at (links.now).ends number in
            (p r : ℕ) → r < (self.old).period → has_at (self.new).rows p r
            ≡ (has_at (self.old).rows p r && not (p == end.looks_at
            && is_touched (self.old).period left end r
            && (count_at (self.old).period (self.old).counts end.mate r == 0))) }
        ensures takes { OnlyTakes self.old self.new }
    {
        let end = links.end(number);
        let ranges = touched_ranges(left, end, self.period.get());
        let (place, mate) = (end.looks_at as usize, end.mate as usize);
        self.sift_range(place, mate, ranges.start..ranges.end);
        self.sift_range(place, mate, 0..ranges.wrapped);
    }

    /// Removes the residues of a range at a place that have no partner at an end.
    fn sift_range(&mut self, place: usize, end: usize, residues: Range<u16>)
        requires place { place < length (self.old).rows }
        requires end { end * (self.old).period + (self.old).period ≤ length (self.old).counts }
        requires order { residues.start ≤ residues.end }
        requires high { residues.end ≤ (self.old).period }
        ensures rows { (p r : ℕ) → has_at (self.new).rows p r
            ≡ (has_at (self.old).rows p r && not (p == place
            && is_from_to residues.start residues.end r
            && (count_at (self.old).period (self.old).counts end r == 0))) }
        ensures takes { OnlyTakes self.old self.new }
    {
        let mut from = residues.start;
        'lone: while let Some(residue) = self.first_lone(place, end, from, residues.end) {
            self.take_out(place, residue);
            from = residue + 1;
        }
    }

    /// The first residue of a range at a place that has no partner at an end. Row and counts are
    /// read as slices, which is cheaper than one call a residue: docs/HISTORY.md, "Edits along
    /// slices".
    fn first_lone(&self, place: usize, end: usize, from: u16, to: u16) -> Option<u16>
        requires place { place < length (self.now).rows }
        requires end { end * (self.now).period + (self.now).period ≤ length (self.now).counts }
        requires order { from ≤ to }
        requires high { to ≤ (self.now).period }
        ensures { IsFirst (λ r. has_at (self.now).rows place r
            && (count_at (self.now).period (self.now).counts end r == 0)) from to result }
    {
        let base = self.counts.base(end, self.period.get());
        let held = &self.rows[place].tests()[usize::from(from)..usize::from(to)];
        let ahead = self.counts.first_lone(held, base + usize::from(from))?;
        Some(from + ahead as u16)
    }

    /// Removes all residues at a place but one.
    pub fn limit(&mut self, place: usize, residue: u16)
        requires { place < length (self.old).rows }
        ensures rows { (p r : ℕ) → has_at (self.new).rows p r
            ≡ limited (has_at (self.old).rows) place residue p r }
        ensures taken { IsTaken self.old self.new }
        ensures keeps { Keeps self.old self.new }
        ensures probes { (self.new).probes ≡ (self.old).probes }
    {
        for other in 0..self.period.get() {
            if other != residue && self.holds(place, other) {
                self.take_out(place, other);
            }
        }
    }

    /// Removes the residues at a place that are not in a window.
    pub fn limit_to(&mut self, place: usize, window: Window)
        requires { place < length (self.old).rows }
        ensures rows { (p r : ℕ) → has_at (self.new).rows p r
            ≡ narrowed_to (has_at (self.old).rows) place (is_held (self.old).period window) p r }
        ensures taken { IsTaken self.old self.new }
        ensures keeps { Keeps self.old self.new }
        ensures probes { (self.new).probes ≡ (self.old).probes }
    {
        let left = ranges_of(window, self.period);
        self.limit_range(place, left.wrapped..left.start);
        self.limit_range(place, left.end..self.period.get());
    }

    /// Removes a range of residues at a place.
    fn limit_range(&mut self, place: usize, residues: Range<u16>)
        requires place { place < length (self.old).rows }
        requires order { residues.start ≤ residues.end }
        ensures rows { (p r : ℕ) → has_at (self.new).rows p r
            ≡ (has_at (self.old).rows p r
            && not (p == place && is_from_to residues.start residues.end r)) }
        ensures takes { OnlyTakes self.old self.new }
    {
        for residue in residues {
            if self.row(place).holds(residue) {
                self.take_out(place, residue);
            }
        }
    }

    /// Removes the residues at a place that have no partner at an end.
    pub fn sift(&mut self, place: usize, end: usize)
        requires place { place < length (self.old).rows }
        requires end { end * (self.old).period + (self.old).period ≤ length (self.old).counts }
        ensures rows { (p r : ℕ) → has_at (self.new).rows p r
            ≡ (has_at (self.old).rows p r
            && not (p == place && (count_at (self.old).period (self.old).counts end r == 0))) }
        ensures taken { IsTaken self.old self.new }
        ensures keeps { Keeps self.old self.new }
        ensures probes { (self.new).probes ≤ (self.old).probes + (self.old).period }
        ensures counts_on { (self.old).probes ≤ (self.new).probes }
    {
        let residues = probes::probe_range(&mut self.probes, 0, self.period.get());
        self.sift_range(place, end, residues);
    }

    /// Removes the pairs of a list that have no partner, and then all other pairs left without one.
    pub fn settle_back(&mut self, links: &Links, back: &[Placed])
        requires fit { Fit links.now self.old }
        requires pending { ArePendingBut links.now self.old back.now }
        ensures rest { AreAtRest links.now self.new }
        ensures keeps { KeepsAllClosed links.now self.old self.new }
        ensures taken { IsTaken self.old self.new }
        ensures shape { HaveSameShape self.old self.new }
        ensures probes { (self.new).probes
            ≤ (self.old).probes + ends_at links.now back.now + (self.old).period
            * ends_at links.now (self.new).trail }
        ensures counts_on { (self.old).probes ≤ (self.new).probes }
    {
        self.sift_back(links, back);
        self.settle(links, 0);
    }

    /// Removes the pairs of a list that have a count of 0 at an end of their place.
    fn sift_back(&mut self, links: &Links, back: &[Placed])
        requires fit { Fit links.now self.old }
        requires below { (p r : ℕ) → Of (has_at (self.old).rows) p r → r < (self.old).period }
        ensures rows { (p r : ℕ) → has_at (self.new).rows p r
            ≡ (has_at (self.old).rows p r
            && not (is_in back.now p r && lacks_partner links.now self.old p r)) }
        ensures taken { IsTaken self.old self.new }
        ensures keeps { Keeps self.old self.new }
        ensures probes { (self.new).probes ≤ (self.old).probes + ends_at links.now back.now }
        ensures counts_on { (self.old).probes ≤ (self.new).probes }
    {
        for pair in back {
            let place = pair.place as usize;
            if self.holds(place, pair.residue) && self.lacks_partner(links, *pair) {
                self.take_out(place, pair.residue);
            }
        }
    }

    /// Whether a pair has a count of 0 at an end of its place.
    fn lacks_partner(&mut self, links: &Links, pair: Placed) -> bool
        requires fit { Fit links.now self.old }
        requires residue { pair.residue < (self.old).period }
        ensures lacks { result ≡ lacks_partner links.now self.old pair.place pair.residue }
        ensures same { self.new ≡ record self.old { probes = (self.new).probes } }
        ensures probes { (self.new).probes
            ≤ (self.old).probes + length (ends_of (links.now).lists pair.place) }
        ensures counts_on { (self.old).probes ≤ (self.new).probes }
    {
        for end in links.ends_at(pair.place as usize) {
            probes::probe_range(&mut self.probes, pair.residue, pair.residue + 1);
            if self.count(end, pair.residue) == 0 {
                return true;
            }
        }
        false
    }

    /// Removes a pair from the rows, and appends it to the trail.
    // Few of the counts that are read remove a pair.
    #[cold]
    #[inline(never)]
    fn take_out(&mut self, place: usize, residue: u16)
        requires { Of (has_at (self.old).rows) place residue }
        ensures rows { (p r : ℕ) → has_at (self.new).rows p r
            ≡ without (has_at (self.old).rows) place residue p r }
        ensures takes { OnlyTakes self.old self.new }
    {
        self.rows[place].take_out(residue);
        self.trail.push_reserved(Placed {
            place: place as u32,
            residue,
        });
    }

    /// Clears the trail, and resets the number of probes.
    pub fn forget(&mut self)
        ensures rows { (self.new).rows ≡ (self.old).rows }
        ensures counted { (self.new).counted ≡ (self.old).counted }
        ensures counts { (self.new).counts ≡ (self.old).counts }
        ensures trail { (self.new).trail ≡ [] }
        ensures shape { HaveSameShape self.old self.new }
        ensures probes { (self.new).probes ≡ 0 }
    {
        self.trail.clear();
        self.probes = 0;
    }
}
