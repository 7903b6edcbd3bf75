//! Division by a fixed number.

use crate::fixed::{ONE, narrow};

/// The reciprocal of a nonzero number, with 62 significant bits.
#[derive(Clone, Copy)]
pub(crate) struct Inverse {
    // Above 2^61 in absolute value; 0 if the number was 0.
    factor: i64,
    // How many bits a product with `factor` has to be shifted right.
    shift: u32,
}

impl Inverse {
    pub(crate) fn new(number: i64) -> Inverse {
        let bits = 63_u32.saturating_sub(number.unsigned_abs().leading_zeros());
        let wide = 1_i128.wrapping_shl(bits.saturating_add(62));
        let factor = match wide.checked_div(i128::from(number)) {
            Some(factor) => narrow(factor),
            None => 0,
        };
        Inverse {
            factor,
            shift: bits.saturating_add(22),
        }
    }

    /// The reciprocal, in units of 1 / `ONE`.
    pub(crate) fn get(&self) -> i64 {
        self.quotient(ONE)
    }

    /// The quotient of `left` and the number, rounded.
    pub(crate) fn quotient(&self, left: i64) -> i64 {
        let half = 1_i128.wrapping_shl(self.shift.wrapping_sub(1));
        narrow(
            i128::from(left)
                .wrapping_mul(i128::from(self.factor))
                .wrapping_add(half)
                .wrapping_shr(self.shift),
        )
    }
}
