//! Support counts, the rows that they belong to, and the trail of removed pairs.

ghost use Rattle.std.specs.Prelude.{◌≡◌, ◌<◌, ◌≤◌, ◌*◌, ◌+◌, ◌==◌, ◌&&◌, ◌||◌, not, nat_lt, ℕ, [], IsTrue, length, slice_index_or, take, drop, OnOk, OnErr};
ghost use Rattle.pesp_domains.specs.Sweeps.{Of, limited};
ghost use Rattle.pesp_counts_arcs.specs.Ends.{AreLinked, end_at, ends_of, passes};
ghost use Rattle.pesp_counts_supports.specs.Counts.{ArePending, KeepsClosed, count_at, has_at, supporters};
ghost use Rattle.pesp_counts_supports.specs.Supports.{AreExact, AreLevel, AreOut, Fit, HaveSameShape, IsRoomier, IsTaken, Keeps, is_in, no_supports};

use crate::Placed;
use crate::counts::Counts;
use pesp_base::Period;
use pesp_counts_arcs::{End, Links};
use pesp_domains::Row;
use std::alloc::{AllocError, Global};
use std::marker::Model;

/// Rows by place, and the counts of partners in them.
///
/// The counts are those of `counted`, the rows as the counts know them. A pair that was removed
/// from the rows is in the trail, and waits there until it is counted out. When nothing waits, both
/// hold the same pairs.
#[derive(Drop)]
pub struct Supports {
    // Each row has a test for each residue below it.
    pub(crate) period: Period,
    // By end, then residue, for `counted`.
    pub(crate) counts: Counts,
    // By place, as many as `rows`. A pair that waits to be counted out is still here.
    pub(crate) counted: Vec<Row>,
    // By place; no more than a pair can name in 32 bits.
    pub(crate) rows: Vec<Row>,
    // The removed pairs, the oldest first. There is room for every pair of the rows.
    pub(crate) trail: Vec<Placed>,
    // The sums of what moves, or of what moved last. If there is a row, they are one for each
    // residue of three periods and one more, so that no window wraps.
    pub(crate) sums: Vec<u16>,
    // The number of probes since the trail was cleared.
    pub(crate) probes: u64,
}

impl Model for Supports {
    ghost use Rattle.std.specs.Prelude.{vec_capacity};
    ghost use Rattle.pesp_counts_supports.specs.Supports as words;

    ghost Value = { words.Supports };

    ghost view = { λ a. record { period = a.period; counts = a.counts.values; counted = a.counted.items; rows = a.rows.items; trail = a.trail.items; room = vec_capacity a.trail; sums = a.sums.items; probes = a.probes } };

    ghost invariant = { λ a. words.AreSupports (record { period = a.period; counts = a.counts.values; counted = a.counted.items; rows = a.rows.items; trail = a.trail.items; room = vec_capacity a.trail; sums = a.sums.items; probes = a.probes }) a.counts.most };
}

impl Supports {
    /// No rows and no counts.
    pub fn new(alloc: Global, period: Period) -> Supports
        ensures { result ≡ no_supports period }
    {
        Supports {
            period,
            counts: Counts::new(alloc, period),
            counted: Vec::new(alloc),
            rows: Vec::new(alloc),
            trail: Vec::new(alloc),
            sums: Vec::new(alloc),
            probes: 0,
        }
    }

    /// Whether the row at a place holds the residue.
    pub fn holds(&self, place: usize, residue: u16) -> bool
        ensures { result ≡ has_at (self.now).rows place residue }
    {
        place < self.rows.len() && self.rows[place].holds(residue)
    }

    /// The row at a place.
    pub fn row(&self, place: usize) -> &Row
        requires { place < length (self.now).rows }
        ensures row { result.now ≡ slice_index_or (self.now).rows place [] }
        ensures long { length result.now ≡ (self.now).period }
    {
        &self.rows[place]
    }

    /// The count of a residue at an end.
    pub fn count(&self, end: usize, residue: u16) -> u16
        requires residue { residue < (self.now).period }
        requires end { end * (self.now).period + (self.now).period ≤ length (self.now).counts }
        ensures { result ≡ count_at (self.now).period (self.now).counts end residue }
    {
        let base = self.counts.base(end, self.period.get());
        self.counts.get(base + residue as usize)
    }

    /// The number of pairs in the trail.
    pub fn mark(&self) -> usize
        ensures { result ≡ length (self.now).trail }
    {
        self.trail.len()
    }

    /// The number of probes since the trail was cleared.
    pub fn probes(&self) -> u64
        ensures { result ≡ (self.now).probes }
    {
        self.probes
    }
}
