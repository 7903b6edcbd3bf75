//! Rows, counts and room for new places.

ghost use Rattle.std.specs.Prelude.{◌≡◌, ◌<◌, ◌≤◌, ◌*◌, ◌+◌, ◌==◌, ◌&&◌, ◌||◌, nat_lt, ℕ, [], length, max, All, OnOk, OnErr, vec_capacity};
ghost use Rattle.pesp_counts_supports.specs.Counts.{has_at};
ghost use Rattle.pesp_counts_supports.specs.Resting.{HaveRoom};
ghost use Rattle.pesp_counts_supports.specs.Supports.{ArePadded, HaveSameShape, IsRoomier};

use crate::Back;
use crate::supports::Supports;
use pesp_base::Period;
use pesp_domains::{Pair, Row};
use std::alloc::{AllocError, Global};

/// The greatest number of places. A listed pair keeps its place in 32 bits, which saves a fifth of
/// the memory at period 1,440: docs/HISTORY.md, "Windows and counts of two widths".
const MOST_PLACES: usize = 4_294_967_295;

/// Adds empty rows to both lists, which are equally long, up to this number. If memory runs out,
/// the rows added so far remain.
fn add_rows(
    alloc: Global,
    period: Period,
    places: usize,
    rows: &mut Vec<Row>,
    counted: &mut Vec<Row>,
) -> Result<(), AllocError>
    requires rows { All (λ row. length row ≡ period) rows.old.items }
    requires counted { All (λ row. length row ≡ period) counted.old.items }
    requires even { length counted.old.items ≡ length rows.old.items }
    ensures rows { ArePadded period rows.old.items rows.new.items }
    ensures counted { ArePadded period counted.old.items counted.new.items }
    ensures even { length counted.new.items ≡ length rows.new.items }
    ensures few { length rows.new.items ≤ max (length rows.old.items) places }
    ensures ok { OnOk result (places ≤ length rows.new.items) }
{
    while rows.len() < places {
        let row = Row::empty(alloc, period)?;
        let other = Row::empty(alloc, period)?;
        rows.reserve(1)?;
        counted.reserve(1)?;
        rows.push_reserved(row);
        counted.push_reserved(other);
    }
    Ok(())
}

impl Supports {
    /// Adds rows up to this number of places, and room for each of their pairs in the trail and in
    /// the lists of restored pairs.
    ///
    /// New rows are empty and change no domain, also if memory runs out after some of them. More
    /// places than 32 bits can number count as out of memory.
    pub fn make_rows(
        &mut self,
        alloc: Global,
        places: usize,
        back: &mut Back,
        restored: &mut Vec<Pair>,
    ) -> Result<(), AllocError>
        ensures ok { OnOk result ((places ≤ length (self.new).rows)
            × (places ≤ length (self.new).counted)) }
        ensures grown { IsRoomier self.old self.new }
        ensures even { length (self.new).counted ≡ length (self.new).rows }
        ensures room { HaveRoom self.old (vec_capacity back.old) (vec_capacity restored.old)
            → HaveRoom self.new (vec_capacity back.new) (vec_capacity restored.new) }
        ensures back { back.new.items ≡ back.old.items }
        ensures restored { restored.new.items ≡ restored.old.items }
    {
        let period = self.period.get() as usize;
        if places > MOST_PLACES {
            return Err(AllocError);
        }
        let room = places * period;
        self.trail.reserve(room)?;
        back.reserve(room)?;
        restored.reserve(room)?;
        self.sums.resize(3 * period + 1, 0)?;
        let rows = &mut self.rows;
        let counted = &mut self.counted;
        add_rows(alloc, self.period, places, rows, counted)
    }

    /// Adds counts of 0 up to this number of ends.
    pub fn make_counts(&mut self, ends: usize) -> Result<(), AllocError>
        ensures ok { OnOk result (ends * (self.old).period ≤ length (self.new).counts) }
        ensures grown { IsRoomier self.old self.new }
        ensures even { length (self.new).counted ≡ length (self.new).rows }
        ensures rows { length (self.new).rows ≡ length (self.old).rows }
    {
        let Some(long) = ends.checked_mul(self.period.get() as usize) else {
            return Err(AllocError);
        };
        self.counts.grow(long)
    }

    /// Adds every residue to the rows of a place. The counts do not change.
    pub fn open(&mut self, place: usize)
        requires rows { place < length (self.old).rows }
        requires counted { place < length (self.old).counted }
        requires trail { (self.old).trail ≡ [] }
        ensures rows { (p r : ℕ) → has_at (self.new).rows p r
            ≡ (has_at (self.old).rows p r || (p == place && nat_lt r (self.old).period)) }
        ensures counted { (p r : ℕ) → has_at (self.new).counted p r
            ≡ (has_at (self.old).counted p r || (p == place && nat_lt r (self.old).period)) }
        ensures counts { (self.new).counts ≡ (self.old).counts }
        ensures trail { (self.new).trail ≡ [] }
        ensures shape { HaveSameShape self.old self.new }
        ensures probes { (self.new).probes ≡ (self.old).probes }
    {
        self.rows[place].fill();
        self.counted[place].fill();
    }
}
