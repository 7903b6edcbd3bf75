//! Random problems.

use pesp_base::Memory;
use pesp_search_simplex::{PARTS, Tableau, Term};
use std::alloc::Global;

/// The number of given variables up to which all whole solutions are tried.
const FEW: usize = 4;

/// A pseudorandom generator.
#[derive(Drop)]
pub(crate) struct Draw {
    // Any number; each draw computes the next one from it.
    pub(crate) state: u64,
}

impl Draw {
    /// A number from 0 on, below `end`.
    pub(crate) fn below(&mut self, end: i64) -> i64 {
        self.state = self
            .state
            .wrapping_mul(6_364_136_223_846_793_005)
            .wrapping_add(1_442_695_040_888_963_407);
        let drawn = (self.state.wrapping_shr(33) & 0xffff) as u16;
        i64::from(drawn).checked_rem(end).unwrap_or(0)
    }
}

/// Costs, rows and ranges of a problem.
#[derive(Drop)]
pub(crate) struct Problem {
    // The costs of the given variables.
    pub(crate) costs: Vec<u32>,
    // The coefficients of each row, one for each given variable.
    rates: Vec<i32>,
    // The ranges of the given variables, then those of the rows.
    pub(crate) ranges: Vec<(i64, i64)>,
    // A value in the range of each given variable; most rows have their ranges near it.
    point: Vec<i64>,
}

fn i64_at(list: &[i64], index: usize) -> i64 {
    match list.get(index) {
        Some(found) => *found,
        None => 0,
    }
}

impl Problem {
    /// A problem with this number of given variables, each at most 3.
    pub(crate) fn drawn(alloc: Global, draw: &mut Draw, count: usize) -> Result<Problem, Memory> {
        let mut problem = Problem {
            costs: Vec::new(alloc),
            rates: Vec::new(alloc),
            ranges: Vec::new(alloc),
            point: Vec::new(alloc),
        };
        for _ in 0..count {
            let cost = (draw.below(6) & 7) as u32;
            let high = draw.below(4);
            let at = draw.below(high.wrapping_add(1));
            if problem.costs.push(cost).is_err()
                || problem.ranges.push((0, high)).is_err()
                || problem.point.push(at).is_err()
            {
                return Err(Memory);
            }
        }
        Ok(problem)
    }

    /// The number of given variables.
    pub(crate) fn given(&self) -> usize {
        self.costs.len()
    }

    /// The number of rows.
    pub(crate) fn rows(&self) -> usize {
        self.ranges.len().saturating_sub(self.given())
    }

    pub(crate) fn range(&self, number: usize) -> (i64, i64) {
        match self.ranges.get(number) {
            Some(range) => *range,
            None => (0, 0),
        }
    }

    pub(crate) fn set_range(&mut self, number: usize, range: (i64, i64)) {
        if let Some(slot) = self.ranges.get_mut(number) {
            *slot = range;
        }
    }

    pub(crate) fn rate(&self, row: usize, number: usize) -> i64 {
        match self
            .rates
            .get(row.wrapping_mul(self.given()).wrapping_add(number))
        {
            Some(rate) => i64::from(*rate),
            None => 0,
        }
    }

    pub(crate) fn cost(&self, number: usize) -> i64 {
        match self.costs.get(number) {
            Some(cost) => i64::from(*cost),
            None => 0,
        }
    }

    /// Adds a row, here and in the tableau. One in eight has its range away from the point.
    pub(crate) fn push_row(
        &mut self,
        alloc: Global,
        draw: &mut Draw,
        tableau: &mut Tableau,
    ) -> Result<(), Memory> {
        let mut terms = Vec::new(alloc);
        let rates = draw.below(5).wrapping_add(3);
        let mut sum: i64 = if draw.below(8) == 0 { 3 } else { 0 };
        for number in 0..self.given() {
            let rate = draw.below(rates).wrapping_sub(1);
            sum = sum.wrapping_add(rate.wrapping_mul(i64_at(&self.point, number)));
            let rate = i32::try_from(rate).unwrap_or(0);
            if self.rates.push(rate).is_err() || terms.push(Term { number, rate }).is_err() {
                return Err(Memory);
            }
        }
        let low = sum.wrapping_sub(draw.below(2));
        let high = low.wrapping_add(draw.below(3));
        let number = self.ranges.len();
        if self.ranges.push((low, high)).is_err() {
            return Err(Memory);
        }
        tableau.push_row(&terms)?;
        tableau.set_range(number, low, high);
        Ok(())
    }

    /// The lower bound from multipliers of the rows, in units of 1 / `scale`.
    pub(crate) fn bound(&self, multipliers: &[i64], scale: i64) -> i64 {
        let mut bound: i64 = 0;
        for number in 0..self.given() {
            let mut rate = self.cost(number).wrapping_mul(scale);
            for row in 0..self.rows() {
                let part = i64_at(multipliers, row).wrapping_mul(self.rate(row, number));
                rate = rate.wrapping_sub(part);
            }
            bound = bound.wrapping_add(least(rate, self.range(number)));
        }
        for row in 0..self.rows() {
            let range = self.range(row.wrapping_add(self.given()));
            bound = bound.wrapping_add(least(i64_at(multipliers, row), range));
        }
        bound
    }

    /// The least cost of a whole solution, if there is one; none if there are too many to try.
    pub(crate) fn least_whole(&self) -> Option<i64> {
        let mut best: Option<i64> = None;
        if FEW < self.given() {
            return None;
        }
        for code in 0..256_i64 {
            if let Some(cost) = self.whole_cost(code)
                && best.is_none_or(|known| cost < known)
            {
                best = Some(cost);
            }
        }
        best
    }

    /// The cost of the solution whose values are the base-4 digits of a code, if they are in their ranges.
    fn whole_cost(&self, code: i64) -> Option<i64> {
        let mut cost: i64 = 0;
        for number in 0..self.given() {
            let value = digit(code, number);
            if self.range(number).1 < value || value < self.range(number).0 {
                return None;
            }
            cost = cost.wrapping_add(self.cost(number).wrapping_mul(value));
        }
        for row in 0..self.rows() {
            let mut sum: i64 = 0;
            for number in 0..self.given() {
                sum = sum.wrapping_add(self.rate(row, number).wrapping_mul(digit(code, number)));
            }
            let range = self.range(row.wrapping_add(self.given()));
            if sum < range.0 || range.1 < sum {
                return None;
            }
        }
        Some(cost)
    }
}

fn digit(code: i64, place: usize) -> i64 {
    let shift: u32 = match place {
        0 => 0,
        1 => 2,
        2 => 4,
        _ => 6,
    };
    code.wrapping_shr(shift) & 3
}

fn least(rate: i64, range: (i64, i64)) -> i64 {
    rate.wrapping_mul(range.0).min(rate.wrapping_mul(range.1))
}

/// The multipliers of all rows: for the bound, or after `Empty` for the refutation.
fn multipliers(
    alloc: Global,
    problem: &Problem,
    tableau: &Tableau,
    is_empty: bool,
) -> Result<Vec<i64>, Memory> {
    let mut all = Vec::new(alloc);
    for row in 0..problem.rows() {
        let multiplier = if is_empty {
            tableau.refutation(row)
        } else {
            tableau.multiplier(row, tableau.scale_bits())
        };
        if all.push(multiplier).is_err() {
            return Err(Memory);
        }
    }
    Ok(all)
}

/// Whether a variable is out of its range by more than 1 / 2,048.
fn is_out(problem: &Problem, tableau: &Tableau, number: usize) -> bool {
    let value = tableau.value(number);
    let range = problem.range(number);
    value < range.0.wrapping_mul(PARTS).wrapping_sub(32)
        || range.1.wrapping_mul(PARTS).wrapping_add(32) < value
}

/// The fault after `Least`, if there is one.
pub(crate) fn fault_of_least(
    alloc: Global,
    problem: &Problem,
    tableau: &Tableau,
) -> Result<Option<&'static str>, Memory> {
    let multipliers = multipliers(alloc, problem, tableau, false)?;
    let scale = 1i64.wrapping_shl(tableau.scale_bits());
    let bound = problem.bound(&multipliers, scale);
    let mut cost: i64 = 0;
    for number in 0..problem.ranges.len() {
        if is_out(problem, tableau, number) {
            return Ok(Some("a number is out of its range"));
        }
        cost = cost.wrapping_add(problem.cost(number).wrapping_mul(tableau.value(number)));
    }
    // Values have 16 bits after the point, and multipliers 24.
    if 65_536 < cost.wrapping_mul(256).abs_diff(bound) {
        return Ok(Some("the bound is not the cost"));
    }
    match problem.least_whole() {
        Some(whole) if whole.wrapping_mul(scale) < bound => { Ok(Some("the bound is too great")) }
        _ => Ok(None),
    }
}

/// The fault after `Empty`, if there is one.
pub(crate) fn fault_of_empty(
    alloc: Global,
    problem: &Problem,
    tableau: &Tableau,
) -> Result<Option<&'static str>, Memory> {
    let multipliers = multipliers(alloc, problem, tableau, true)?;
    if problem.bound(&multipliers, 0) <= 0 {
        return Ok(Some("it is not refuted"));
    }
    match problem.least_whole() {
        Some(_) => Ok(Some("it is not empty")),
        None => Ok(None),
    }
}
