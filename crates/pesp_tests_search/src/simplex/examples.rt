//! Results of the simplex on one problem and on random ones.

use crate::simplex::drawn::{Draw, Problem, fault_of_empty, fault_of_least};
use pesp_base::Memory;
use pesp_search_simplex::{End, PARTS, Tableau, Term};
use std::alloc::Global;

/// Twice the first variable, up to 4, plus the second one, up to 8, is to be 11 to 16.
fn two_numbers(alloc: Global) -> Result<Tableau, Memory> {
    let mut tableau = Tableau::new(alloc, &[2, 3])?;
    tableau.set_range(0, 0, 4);
    tableau.set_range(1, 0, 8);
    let terms = [Term { number: 0, rate: 2 }, Term { number: 1, rate: 1 }];
    tableau.push_row(&terms)?;
    tableau.set_range(2, 11, 16);
    Ok(tableau)
}

#[test]
fn calls(rt: HostRuntime) {
    let mut tableau = two_numbers(rt.alloc()).expect(&rt, "memory");
    tableau.set_range(9, 1, 2);
    assert_eq!(&rt; tableau.solve(100, 0), End::Spent, "no work");
    assert_eq!(&rt; tableau.solve(100, 1_000), End::Least, "2 times 4 and 3");
    assert_eq!(&rt; tableau.value(0), 4 * PARTS, "the cheaper one is full");
    assert_eq!(&rt; tableau.value(1), 3 * PARTS, "the other one is not");
    assert_eq!(&rt; tableau.value(2), 11 * PARTS, "the row is at its low end");
    assert_eq!(&rt; tableau.is_basic(1), true, "it lies within its range");
    assert_eq!(&rt;
        tableau.multiplier(0, tableau.scale_bits()),
        3 * 16_777_216,
        "3 for each of the row"
    );
    let steps = tableau.steps(1, 256);
    assert_eq!(&rt;
        steps.up,
        512,
        "one half of the first one less, which saved 4"
    );
    assert!(&rt;
        1_000_000 < steps.down,
        "neither of the others goes that way"
    );
    let work = tableau.work();
    let mut copy = tableau.copy().expect(&rt, "memory");
    assert_eq!(&rt; copy.solve(17, 1_000), End::AtCap, "the cost is 17");
    assert_eq!(&rt; copy.solve(18, 1_000), End::Least, "and not 18");
    copy.set_range(2, 17, 20);
    assert_eq!(&rt; copy.solve(100, 1_000), End::Empty, "16 at most");
    assert_eq!(&rt; tableau.work(), work, "the copy works for itself");
}

/// The number of problems that ended in each way.
#[derive(Drop)]
struct Seen {
    // Problems with an optimum.
    least: u32,
    // Infeasible problems.
    empty: u32,
}

/// Solves, and returns the fault of the result, if there is one.
fn fault(
    alloc: Global,
    problem: &Problem,
    tableau: &mut Tableau,
    seen: &mut Seen,
) -> Result<Option<&'static str>, Memory> {
    match tableau.solve(1_000_000, 1_000_000) {
        End::Least => {
            seen.least = seen.least.saturating_add(1);
            fault_of_least(alloc, problem, tableau)
        }
        End::Empty => {
            seen.empty = seen.empty.saturating_add(1);
            fault_of_empty(alloc, problem, tableau)
        }
        End::AtCap => Ok(Some("at a cap that is far away")),
        End::Spent => Ok(Some("it does not end")),
    }
}

/// Restricts a range to one end, and restores it; solves after each change.
fn fault_after_change(
    alloc: Global,
    draw: &mut Draw,
    problem: &mut Problem,
    tableau: &mut Tableau,
    seen: &mut Seen,
) -> Result<Option<&'static str>, Memory> {
    let all = i64::try_from(problem.ranges.len()).unwrap_or(0);
    let number = usize::try_from(draw.below(all)).unwrap_or(0);
    let range = problem.range(number);
    let end = if draw.below(2) == 0 { range.0 } else { range.1 };
    for now in [(end, end), range] {
        problem.set_range(number, now);
        tableau.set_range(number, now.0, now.1);
        if let Some(found) = fault(alloc, problem, tableau, seen)? {
            return Ok(Some(found));
        }
    }
    Ok(None)
}

/// Pushes rows, changes ranges, and sometimes continues from a copy without entries; solves after each step.
fn fault_of_drawn(
    alloc: Global,
    draw: &mut Draw,
    given: usize,
    rows: usize,
    seen: &mut Seen,
) -> Result<Option<&'static str>, Memory> {
    let mut problem = Problem::drawn(alloc, draw, given)?;
    let mut tableau = Tableau::new(alloc, &problem.costs)?;
    for number in 0..given {
        let range = problem.range(number);
        tableau.set_range(number, range.0, range.1);
    }
    for _ in 0..rows {
        problem.push_row(alloc, draw, &mut tableau)?;
        if draw.below(3) == 0 {
            continue;
        }
        if draw.below(8) < 3 {
            tableau = tableau.light()?;
        }
        if let Some(found) = fault_after_change(alloc, draw, &mut problem, &mut tableau, seen)? {
            return Ok(Some(found));
        }
    }
    Ok(None)
}

#[test]
fn drawn_problems(rt: HostRuntime) {
    for (given, rows, seeds) in [(4_usize, 4_usize, 200_u64), (24, 16, 20)] {
        let mut seen = Seen { least: 0, empty: 0 };
        for seed in 0..seeds {
            let mut draw = Draw { state: seed };
            let found = fault_of_drawn(rt.alloc(), &mut draw, given, rows, &mut seen);
            assert_eq!(&rt; found, Ok(None), "seed {seed}");
        }
        assert!(&rt; 200 < seen.least, "few had numbers");
        assert!(&rt; 80 < seen.empty, "few had none");
    }
}
