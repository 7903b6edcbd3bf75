//! Prefix sums of the residues that move: the number of them in a window is the difference of two.

ghost use Rattle.std.specs.Prelude.{◌≡◌, ◌<◌, ◌≤◌, ◌*◌, ◌+◌, ◌==◌, ℕ, length, slice_index_or};
ghost use Rattle.pesp_base.specs.Limits.{greatest_period};
ghost use Rattle.pesp_counts_supports.specs.Blocks.{AreSums, is_beyond, sum_below};
ghost use Rattle.pesp_counts_supports.specs.Moves.{waiting_at};

use crate::moving::Way;
use crate::supports::Supports;
use pesp_domains::Row;

/// Extends the sums of one period over two more, each with the same number of residues.
fn sum_on(sums: &mut [u16], period: u16, many: u16)
    requires period { period ≤ greatest_period }
    requires some { 0 < period }
    requires long { 3 * period < length sums.old }
    requires low { (i : ℕ) → i < period → slice_index_or sums.old i 0 ≤ many }
    requires few { many ≤ period }
    ensures long { length sums.new ≡ length sums.old }
    ensures once { (i : ℕ) → i < period
        → slice_index_or sums.new i 0 ≡ slice_index_or sums.old i 0 }
    ensures on { (i : ℕ) → i ≤ 2 * period
        → slice_index_or sums.new (period + i) 0 ≡ slice_index_or sums.new i 0 + many }
{
    let once = period as usize;
    for at in 0..2 * once + 1 {
        sums[once + at] = sums[at] + many;
    }
}

/// Computes the sums of the residues of a row, of all or of those that the other row lacks, and
/// returns their number.
// Each caller passes `all` as a constant, so inlining removes the choice from the loop.
#[inline(always)]
pub(crate) fn sum_beyond(row: &Row, other: &Row, all: bool, period: u16, sums: &mut [u16]) -> u16
    requires period { period ≤ greatest_period }
    requires some { 0 < period }
    requires row { length row.now ≡ period }
    requires other { length other.now ≡ period }
    requires long { 3 * period < length sums.old }
    ensures long { length sums.new ≡ length sums.old }
    ensures sums { AreSums period (is_beyond row.now other.now all) sums.new }
    ensures many { result ≡ sum_below period (is_beyond row.now other.now all) period }
{
    let held = row.tests();
    let others = other.tests();
    let mut many = 0;
    for at in 0..held.len() {
        sums[at] = many;
        many += u16::from(held[at] & (all | !others[at]));
    }
    sum_on(sums, period, many);
    many
}

/// Computes the sums of one residue alone.
pub(crate) fn sum_one(residue: u16, period: u16, sums: &mut [u16])
    requires period { period ≤ greatest_period }
    requires residue { residue < period }
    requires long { 3 * period < length sums.old }
    ensures long { length sums.new ≡ length sums.old }
    ensures sums { AreSums period (λ r. r == residue) sums.new }
{
    let next = residue as usize + 1;
    sums[..next].fill(0);
    sums[next..period as usize].fill(1);
    sum_on(sums, period, 1);
}

impl Supports {
    /// Computes the sums of the residues at a place that wait to leave the counts or to enter them,
    /// and returns their number.
    pub(crate) fn sum_waiting(&mut self, place: usize, way: Way) -> u16
        requires place { place < length (self.old).rows }
        ensures sums { AreSums (self.old).period (waiting_at way self.old place) (self.new).sums }
        ensures many { result ≡ sum_below (self.old).period (waiting_at way self.old place)
            (self.old).period }
        ensures same { self.new ≡ record self.old { sums = (self.new).sums } }
    {
        let period = self.period.get();
        let row = &self.rows[place];
        let counted = &self.counted[place];
        match way {
            Way::Out => sum_beyond(counted, row, false, period, &mut self.sums),
            Way::In => sum_beyond(row, counted, false, period, &mut self.sums),
        }
    }
}
