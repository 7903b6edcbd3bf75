//! The choice of the leaving row and the entering column.

use crate::Tableau;
use crate::fixed::times;

/// A variable counts as out of its range only if it is by more than this, 2^-14: a smaller tolerance would
/// pivot on rounding errors, a larger one would accept worse solutions. No trial of this number is recorded.
pub(crate) const SMALL: i64 = 67_108_864;

/// An entry smaller than this, 2^-18, is no pivot: dividing by it would magnify rounding errors. No trial of
/// this number is recorded.
const LEAST_PIVOT: i64 = 4_194_304;

/// A breakpoint of the dual ratio test: a column whose variable helps to bring the row into its range.
#[derive(Clone, Copy)]
pub(crate) struct Point {
    // The index of the column.
    column: usize,
    // The absolute value of its reduced cost.
    cost: i64,
    // The absolute value of the row's entry, at least `LEAST_PIVOT`.
    entry: i64,
}

impl Point {
    /// Whether this breakpoint comes before another: its ratio of cost to entry is smaller, or equal with a
    /// greater entry, which is the more accurate pivot.
    fn is_before(&self, other: &Point) -> bool {
        let left = i128::from(self.cost).wrapping_mul(i128::from(other.entry));
        let right = i128::from(other.cost).wrapping_mul(i128::from(self.entry));
        left < right || left == right && other.entry < self.entry
    }
}

/// How far a row is outside its range.
#[derive(Clone, Copy)]
pub(crate) struct Infeasibility {
    // The index of the row.
    pub(crate) row: usize,
    // The distance to the range, in units of 1 / `ONE`; negative inside the range.
    pub(crate) by: i64,
    // Whether the row is above its range, not below.
    pub(crate) above: bool,
}

/// Swaps the first breakpoint at or after an index to that index. Few breakpoints are needed, so sorting all
/// would take longer.
fn bring_first(points: &mut [Point], from: usize) -> Option<Point> {
    let mut first = *points.get(from)?;
    let mut at = from;
    for index in from..points.len() {
        if let Some(&point) = points.get(index)
            && point.is_before(&first)
        {
            first = point;
            at = index;
        }
    }
    let displaced = *points.get(from)?;
    *points.get_mut(at)? = displaced;
    *points.get_mut(from)? = first;
    Some(first)
}

impl Tableau {
    /// How far a row is outside its range; negative if it is inside.
    pub(crate) fn infeasibility(&self, row: usize) -> Infeasibility {
        let Some(basic) = self.basics.get(row) else {
            let (by, above) = (0, false);
            return Infeasibility { row, by, above };
        };
        let number = self.number(basic.number);
        let below = number.low.wrapping_sub(basic.value);
        let over = basic.value.wrapping_sub(number.high);
        Infeasibility {
            row,
            by: below.max(over),
            above: below < over,
        }
    }

    /// The row farthest outside its range.
    pub(crate) fn worst(&self) -> Option<Infeasibility> {
        let mut most = SMALL;
        let mut worst = None;
        for row in 0..self.basics.len() {
            let infeasibility = self.infeasibility(row);
            if most < infeasibility.by {
                most = infeasibility.by;
                worst = Some(infeasibility);
            }
        }
        worst
    }

    /// The entering column for a row. Variables at earlier breakpoints are flipped to their other ends, which
    /// saves a pivot each (docs/HISTORY.md, "What the search could do without").
    pub(crate) fn entering_column(&mut self, infeasibility: Infeasibility) -> Option<usize> {
        self.gather(infeasibility);
        let mut left = infeasibility.by;
        for index in 0..self.points.len() {
            let point = bring_first(&mut self.points, index)?;
            left = left.wrapping_sub(self.row_change(point));
            if left <= SMALL {
                self.flip_first(index);
                return Some(point.column);
            }
        }
        None
    }

    /// How far the row moves when the breakpoint's variable is flipped to its other end.
    fn row_change(&self, point: Point) -> i64 {
        match self.columns.get(point.column) {
            Some(column) => times(point.entry, self.number(column.number).width()),
            None => 0,
        }
    }

    /// Flips the variables of the first `count` breakpoints.
    fn flip_first(&mut self, count: usize) {
        for index in 0..count {
            if let Some(&point) = self.points.get(index) {
                self.flip(point.column);
            }
        }
    }

    /// Collects the columns that can bring a row nearer to its range.
    fn gather(&mut self, infeasibility: Infeasibility) {
        self.points.clear();
        for column in 0..self.columns.len() {
            if let Some(point) = self.point(infeasibility, column) {
                let _ = self.points.push(point);
            }
        }
    }

    /// The breakpoint of a column, if the column can bring the row nearer to its range.
    fn point(&self, infeasibility: Infeasibility, index: usize) -> Option<Point> {
        let entry = self.entries.entry(infeasibility.row, index);
        if -LEAST_PIVOT < entry && entry < LEAST_PIVOT {
            return None;
        }
        let column = self.columns.get(index)?;
        let number = self.number(column.number);
        let rises = (0 < entry) != number.is_high;
        if rises == infeasibility.above || number.high <= number.low {
            return None;
        }
        Some(Point {
            column: index,
            cost: column.cost.wrapping_abs(),
            entry: entry.wrapping_abs(),
        })
    }
}
