//! Reading results from a tableau.

use crate::enter::SMALL;
use crate::fixed::{ONE, PARTS, narrow, scale_bits_of};
use crate::number::Place;
use crate::{Steps, Tableau};

/// The shift from units of 1 / `ONE` to units of 1 / `PARTS`.
const TO_PARTS: u32 = 24;

/// The shift from units of 1 / `ONE` to those of a refutation, 2^-32.
const ONE_TO_REFUTATION: u32 = 8;

/// The greatest rise that is reported; a variable that cannot move has it.
const MOST_STEP: i64 = 549_755_813_887;

/// The number divided by 2^`times`, rounded. `times` is at least 1.
fn halve(number: i64, times: u32) -> i64 {
    number
        .wrapping_shr(times.wrapping_sub(1))
        .wrapping_add(1)
        .wrapping_shr(1)
}

/// The nearest whole number if the value is within 16 / `PARTS` of it, and else the value.
fn snap_to_whole(value: i64) -> i64 {
    let whole = value
        .wrapping_add(PARTS / 2)
        .div_euclid(PARTS)
        .wrapping_mul(PARTS);
    if value.abs_diff(whole) < 16 {
        whole
    } else {
        value
    }
}

impl Tableau {
    /// The work since the tableau was made: the numbers of rows, columns and changed entries that were visited.
    pub fn work(&self) -> u64 {
        self.work
    }

    /// Whether a variable is basic.
    pub fn is_basic(&self, number: usize) -> bool {
        self.number(number).is_basic()
    }

    /// The value of a variable in units of 1 / `PARTS`, rounded to a whole number if it is nearly one.
    pub fn value(&self, number: usize) -> i64 {
        let wide = i128::from(self.raw(number)).wrapping_shl(self.number(number).shift);
        snap_to_whole(narrow(wide.wrapping_add(8_388_608).wrapping_shr(TO_PARTS)))
    }

    /// The cost at the current values, rounded up; 0 if it is negative.
    pub fn cost(&self) -> u64 {
        let most = 1i128.wrapping_shl(self.cost_bits).wrapping_sub(1);
        let whole = self.cost.wrapping_add(most).wrapping_shr(self.cost_bits);
        u64::try_from(whole.max(0)).unwrap_or(u64::MAX)
    }

    /// The number of bits after the point of multipliers: at most 24, fewer if costs are great.
    pub fn scale_bits(&self) -> u32 {
        scale_bits_of(self.cost_bits)
    }

    /// The multiplier of a row's equation in the lower bound, with this number of bits after the point, at most
    /// `scale_bits`.
    pub fn multiplier(&self, row: usize, bits: u32) -> i64 {
        let number = self.number(self.columns.len().saturating_add(row));
        let Place::Column(column) = number.place else {
            return 0;
        };
        let more = self.cost_bits.saturating_sub(bits);
        match self.columns.get(column) {
            Some(own) => halve(own.cost, more.saturating_add(number.shift)),
            None => 0,
        }
    }

    /// After `Empty`: the multiplier of a row's equation in the Farkas certificate, which ignores costs.
    pub fn refutation(&self, row: usize) -> i64 {
        let Some((empty, above)) = self.empty else {
            return 0;
        };
        let number = self.number(self.columns.len().saturating_add(row));
        let entry = match number.place {
            Place::Column(column) => self.entries.entry(empty, column),
            Place::Row(other) if other == empty => -ONE,
            Place::Row(_) => 0,
        };
        let sized = halve(entry, ONE_TO_REFUTATION.saturating_add(number.shift));
        if above { sized } else { sized.wrapping_neg() }
    }

    /// How much the cost rises for each unit by which a basic variable moves down or up, until the next pivot.
    /// `unit` is the unit of the result.
    pub fn steps(&self, number: usize, unit: i64) -> Steps {
        let mut steps = Steps {
            down: MOST_STEP,
            up: MOST_STEP,
        };
        let own = self.number(number);
        let Place::Row(row) = own.place else {
            return Steps { down: 0, up: 0 };
        };
        let entries = self.entries.row(row);
        for (index, &entry) in entries.iter().enumerate() {
            if -SMALL < entry && entry < SMALL {
                continue;
            }
            let Some(column) = self.columns.get(index) else {
                continue;
            };
            let other = self.number(column.number);
            if other.high <= other.low {
                continue;
            }
            let rise = step(column.cost, entry, unit, own.shift);
            if (0 < entry) != other.is_high {
                steps.up = steps.up.min(rise);
            } else {
                steps.down = steps.down.min(rise);
            }
        }
        steps
    }
}

/// The ratio of cost to entry, in the given unit.
fn step(cost: i64, entry: i64, unit: i64, shift: u32) -> i64 {
    let wide = i128::from(cost.wrapping_abs())
        .wrapping_mul(i128::from(unit))
        .wrapping_mul(1_024)
        .wrapping_shr(shift);
    match wide.checked_div(i128::from(entry.wrapping_abs())) {
        Some(rise) => narrow(rise).min(MOST_STEP),
        None => MOST_STEP,
    }
}
