//! Recounting.

ghost use Rattle.std.specs.Prelude.{◌≡◌, ◌<◌, ◌≤◌, ◌*◌, ◌+◌, ◌&&◌, ◌⊎◌, nat_lt, ℕ, [], length};
ghost use Rattle.std.specs.List.{Contains};
ghost use Rattle.pesp_counts_arcs.specs.Ends.{ends_of, passes};
ghost use Rattle.pesp_counts_supports.specs.Counts.{count_at, has_at, supporters};
ghost use Rattle.pesp_counts_supports.specs.Supports.{AreExact, Fit, HaveSameShape, IsWide};

use crate::moving::Way;
use crate::sums::sum_beyond;
use crate::supports::Supports;
use pesp_counts_arcs::{End, Links};

impl Supports {
    /// Recounts the partners at one end.
    pub fn recount(&mut self, number: usize, end: End)
        requires end { number * (self.old).period + (self.old).period ≤ length (self.old).counts }
        requires looks { end.looks_at < length (self.old).counted }
        requires first { end.first < (self.old).period }
        requires width { end.width ≤ (self.old).period }
        ensures exact { (r : ℕ) → r < (self.old).period
            → count_at (self.old).period (self.new).counts number r
            ≡ supporters (self.old).period (has_at (self.old).counted end.looks_at)
            (passes (self.old).period end r) }
        ensures elsewhere { (k r : ℕ) → (k ≡ number → ⊥) → r < (self.old).period
            → count_at (self.old).period (self.new).counts k r
            ≡ count_at (self.old).period (self.old).counts k r }
        ensures rows { (self.new).rows ≡ (self.old).rows }
        ensures counted { (self.new).counted ≡ (self.old).counted }
        ensures trail { (self.new).trail ≡ (self.old).trail }
        ensures shape { HaveSameShape self.old self.new }
        ensures probes { (self.new).probes ≤ (self.old).probes + 3 * (self.old).period }
        ensures counts_on { (self.old).probes ≤ (self.new).probes }
    {
        let period = self.period.get();
        let base = self.counts.base(number, period);
        let row = &self.counted[end.looks_at as usize];
        sum_beyond(row, row, true, period, &mut self.sums);
        self.counts.fill_range(base, base + period as usize, 0);
        self.move_range(number, end, Way::In, 0, period);
    }

    /// Adds every residue to every row, sets the counts accordingly, and clears the trail.
    pub fn refill(&mut self, links: &Links)
        requires fit { Fit links.now self.old }
        ensures rows { (p r : ℕ) → has_at (self.new).rows p r
            ≡ (nat_lt p (length (self.old).rows) && nat_lt r (self.old).period) }
        ensures counted { (p r : ℕ) → has_at (self.new).counted p r
            ≡ (nat_lt p (length (self.old).counted) && nat_lt r (self.old).period) }
        ensures exact { AreExact links.now self.new (has_at (self.new).counted) }
        ensures trail { (self.new).trail ≡ [] }
        ensures shape { HaveSameShape self.old self.new }
    {
        self.trail.clear();
        for place in 0..self.rows.len() {
            self.open(place);
            self.widen(links, place);
        }
    }

    /// Sets each count of the ends at a place to the width of its end.
    fn widen(&mut self, links: &Links, place: usize)
        requires fit { Fit links.now self.old }
        ensures wide { (k : ℕ) → Contains (ends_of links.now.lists place) k
            ⊎ IsWide (self.old).period links.now.ends (self.old).counts k
            → IsWide (self.old).period links.now.ends (self.new).counts k }
        ensures long { length (self.new).counts ≡ length (self.old).counts }
        ensures same { self.new ≡ record self.old { counts = (self.new).counts } }
    {
        let period = self.period.get();
        for number in links.ends_at(place) {
            let base = self.counts.base(number, period);
            self.counts
                .fill_range(base, base + period as usize, links.end(number).width);
        }
    }
}
