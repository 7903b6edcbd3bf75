//! Variables of the simplex.

use crate::fixed::ONE;

/// The row or the column of a variable.
#[derive(Clone, Copy)]
pub(crate) enum Place {
    Row(usize),
    Column(usize),
}

/// A variable: its range, and its place in the tableau.
#[derive(Clone, Copy)]
pub(crate) struct Number {
    /// The least value, in units of 1 / `ONE`, divided by 2^`shift`.
    pub(crate) low: i64,
    /// The greatest value in the same units, at least `low`.
    pub(crate) high: i64,
    /// The variable of a row is stored divided by 2^`shift`, so that no coefficient of its equation exceeds 1.
    pub(crate) shift: u32,
    /// If nonbasic: whether the variable is at the high end of its range.
    pub(crate) is_high: bool,
    /// Whether it was basic before the last refresh.
    pub(crate) was_basic: bool,
    /// The row of a basic variable, or the column of a nonbasic one.
    pub(crate) place: Place,
}

impl Number {
    /// A variable whose range is 0 alone.
    pub(crate) fn new(place: Place, shift: u32) -> Number {
        Number {
            low: 0,
            high: 0,
            shift,
            is_high: false,
            was_basic: false,
            place,
        }
    }

    /// The number 1 in the units of this variable.
    pub(crate) fn unit(&self) -> i64 {
        ONE.wrapping_shr(self.shift)
    }

    /// The value while nonbasic: one end of the range.
    pub(crate) fn end(&self) -> i64 {
        if self.is_high { self.high } else { self.low }
    }

    /// The width of the range.
    pub(crate) fn width(&self) -> i64 {
        self.high.wrapping_sub(self.low)
    }

    pub(crate) fn is_basic(&self) -> bool {
        match self.place {
            Place::Row(_) => true,
            Place::Column(_) => false,
        }
    }
}
