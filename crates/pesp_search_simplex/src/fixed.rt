//! Fixed-point arithmetic. Overflow wraps: a wrong result costs time only, because bounds are recomputed
//! exactly.

/// Values are reported in units of 1 / `PARTS`.
pub const PARTS: i64 = 65_536;

/// The most bits that multipliers have after the point.
const MOST_SCALE_BITS: u32 = 24;

/// Entries and values have 40 bits after the point.
pub(crate) const ONE: i64 = 1_099_511_627_776;

/// The most bits that costs have after the point.
const MOST_COST_BITS: u32 = 30;

/// The most bits of the sum of all given costs, including those after the point, so that reduced costs fit in
/// 64 bits.
const COST_ROOM: u32 = 58;

/// A smaller entry, below 2^-24, becomes 0: rounding errors would otherwise fill the matrix. No trial of this
/// number is recorded.
const TINY: i64 = 65_536;

/// Selects the low 64 bits.
const LOW_BITS: i128 = 0xffff_ffff_ffff_ffff;

/// The low 64 bits of a wide number.
pub(crate) fn narrow(wide: i128) -> i64 {
    ((wide & LOW_BITS) as u64).cast_signed()
}

/// The product of two numbers, one of them in units of 1 / `ONE`, rounded.
pub(crate) fn product(left: i64, right: i64) -> i128 {
    i128::from(left)
        .wrapping_mul(i128::from(right))
        .wrapping_add(549_755_813_888)
        .wrapping_shr(40)
}

/// The same product, cut to 64 bits.
pub(crate) fn times(left: i64, right: i64) -> i64 {
    narrow(product(left, right))
}

/// The entry, or 0 if it is tiny.
pub(crate) fn clean(entry: i64) -> i64 {
    if -TINY < entry && entry < TINY {
        0
    } else {
        entry
    }
}

/// The number of bits after the point of costs, fewer if the given costs are great.
pub(crate) fn cost_bits_of(costs: &[u32]) -> u32 {
    let mut total: u64 = 0;
    for cost in costs {
        total = total.saturating_add(u64::from(*cost));
    }
    let whole = 64 - total.leading_zeros();
    COST_ROOM.saturating_sub(whole).min(MOST_COST_BITS)
}

/// The number of bits after the point of multipliers, less than that of costs.
pub(crate) fn scale_bits_of(cost_bits: u32) -> u32 {
    cost_bits.saturating_sub(1).min(MOST_SCALE_BITS)
}

/// A given cost with this number of bits after the point.
pub(crate) fn cost_in(cost: u32, bits: u32) -> i64 {
    i64::from(cost).wrapping_shl(bits)
}
