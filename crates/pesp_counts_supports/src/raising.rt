//! Restores the pairs of the trail, with their counts.

ghost use Rattle.std.specs.Prelude.{◌≡◌, ◌<◌, ◌≤◌, ◌||◌, ◌++◌, ◌∷◌, [], drop, take, false, ℕ, List, All, length};
ghost use Rattle.pesp_counts_supports.specs.Counts.{has_at};
ghost use Rattle.pesp_counts_supports.specs.Returning.{AreReturning};
ghost use Rattle.pesp_counts_supports.specs.Supports.{AreExact, AreLevel, AreOut, Fit, HaveSameShape, is_in, joined};

use crate::Placed;
use crate::moving::{BLOCK, Way, begins_run};
use crate::supports::Supports;
use pesp_counts_arcs::Links;
use pesp_domains::Row;

/// Adds the pairs of a list to the rows.
fn put_all(rows: &mut Vec<Row>, pairs: &[Placed])
    requires within { All (λ x. x.place < length rows.old.items) pairs.now }
    requires below { (long : ℕ) × All (λ row. length row ≡ long) rows.old.items
        × All (λ x. x.residue < long) pairs.now }
    ensures many { length rows.new.items ≡ length rows.old.items }
    ensures long { (long : ℕ) → All (λ row. length row ≡ long) rows.old.items
        → All (λ row. length row ≡ long) rows.new.items }
    ensures has { (p r : ℕ) → has_at rows.new.items p r
        ≡ (has_at rows.old.items p r || is_in pairs.now p r) }
{
    for pair in pairs {
        rows[pair.place as usize].put_in(pair.residue);
    }
}

impl Supports {
    /// Restores the pairs of the trail from a mark on, with their counts.
    pub fn put_back(&mut self, links: &Links, mark: usize)
        requires fit { Fit links.now self.old }
        requires exact { AreExact links.now self.old (has_at (self.old).counted) }
        requires level { AreLevel self.old }
        requires mark { mark ≤ length (self.old).trail }
        requires out { AreOut self.old (drop mark (self.old).trail) }
        ensures rows { (p r : ℕ) → has_at (self.new).rows p r
            ≡ (has_at (self.old).rows p r || is_in (drop mark (self.old).trail) p r) }
        ensures exact { AreExact links.now self.new (has_at (self.new).counted) }
        ensures level { AreLevel self.new }
        ensures trail { (self.new).trail ≡ take mark (self.old).trail }
        ensures shape { HaveSameShape self.old self.new }
    {
        // They wait in `counted` before the counts include them, so a pop needs no memory.
        put_all(&mut self.counted, &self.trail[mark..]);
        while self.trail.len() > mark {
            self.put_last(links, mark);
        }
    }

    /// Restores the last pair of the trail to the rows. If it still waits, it is counted in first.
    fn put_last(&mut self, links: &Links, mark: usize)
        requires fit { Fit links.now self.old }
        requires returning { AreReturning links.now self.old mark }
        requires more { mark < length (self.old).trail }
        ensures returning { AreReturning links.now self.new mark }
        ensures last { (last : Placed) × ((self.old).trail ≡ (self.new).trail ++ last ∷ [])
            × ((p r : ℕ) → has_at (self.new).rows p r
            ≡ joined (has_at (self.old).rows) last.place last.residue p r) }
        ensures shape { HaveSameShape self.old self.new }
    {
        self.count_last(links, mark);
        let pair = self.trail.take_last();
        let place = pair.place as usize;
        self.counted[place].put_in(pair.residue);
        self.rows[place].put_in(pair.residue);
    }

    /// Counts the last pair of the trail in, if it waits, alone or with others of its place.
    fn count_last(&mut self, links: &Links, mark: usize)
        requires fit { Fit links.now self.old }
        requires returning { AreReturning links.now self.old mark }
        requires more { mark < length (self.old).trail }
        ensures returning { AreReturning links.now self.new mark }
        ensures last { (rest : List Placed) → (last : Placed)
            → (self.old).trail ≡ rest ++ last ∷ []
            → has_at (self.new).counted last.place last.residue ≡ false }
        ensures rows { (self.new).rows ≡ (self.old).rows }
        ensures trail { (self.new).trail ≡ (self.old).trail }
        ensures shape { HaveSameShape self.old self.new }
    {
        let pair = self.trail[self.trail.len() - 1];
        let place = pair.place as usize;
        if self.has_counted(place, pair.residue) {
            let last = self.trail.len().saturating_sub(BLOCK as usize);
            let in_run = begins_run(&self.trail[mark.max(last)..], BLOCK);
            let coming = self.moving_with(pair, Way::Out, in_run);
            self.move_around(links, None, place, coming, Way::In);
            self.level(place, coming);
        }
    }
}
