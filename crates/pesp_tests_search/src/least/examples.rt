//! Results of `least` and `first` on a line.

use crate::least::line::Line;
use pesp_search_least::{Budget, First, Limits, Outcome, first, least};
use std::alloc::Global;
use std::process::Abort;

/// Residues 2 and 4 have the least sum; 0 and 5 have none.
const COSTS: [Option<u64>; 6] = [None, Some(7), Some(4), Some(9), Some(4), None];

fn line() -> Line {
    Line {
        costs: COSTS,
        lowest: 0,
        end: 6,
    }
}

/// The result of a search in short: the cost, or the lower bound of a stop.
#[derive(Clone, Copy, PartialEq, Eq, Debug)]
enum Said {
    Found(u64),
    NoneBelow,
    Stopped(Option<u64>, u64),
}

fn told(outcome: &Outcome) -> Said {
    match outcome {
        Outcome::Found(found) => Said::Found(found.cost),
        Outcome::NoneBelow => Said::NoneBelow,
        Outcome::Spent {
            best: None,
            lower_bound,
        } => Said::Stopped(None, *lower_bound),
        Outcome::Spent {
            best: Some(best),
            lower_bound,
        } => Said::Stopped(Some(best.cost), *lower_bound),
    }
}

fn same(rt: &impl Abort, got: Said, wanted: Said, message: &str) {
    assert_eq!(rt; got, wanted, "{message}");
}

/// Searches the line for a sum below the cap with these units.
fn search(rt: &(impl Abort + AllocGlobal), cap: u64, budget: &mut Budget) -> Outcome {
    least(rt.alloc(), line(), Limits { floor: 0, cap }, budget).expect(rt, "memory")
}

fn assert_said(rt: &(impl Abort + AllocGlobal), cap: u64, units: u64, wanted: Said, message: &str) {
    let outcome = search(rt, cap, &mut Budget::of(units));
    same(rt, told(&outcome), wanted, message);
}

#[test]
fn least_of_a_line(rt: HostRuntime) {
    assert_said(&rt, 100, 100, Said::Found(4), "all are gone through");
    assert_said(&rt, 5, 100, Said::Found(4), "just below the cap");
    assert_said(&rt, 4, 100, Said::NoneBelow, "at the cap");
    assert_said(&rt, 100, 0, Said::Stopped(None, 0), "no unit");
    assert_said(
        &rt,
        100,
        2,
        Said::Stopped(Some(9), 0),
        "the upper half was expanded",
    );
    assert_said(&rt, 0, 0, Said::NoneBelow, "no sum is below the floor");
}

/// The residue of the first map of least sum, starting from what `least` finds.
fn first_residue(alloc: Global, all: &Line, units: u64) -> Option<u16> {
    let limits = Limits { floor: 0, cap: 100 };
    let mut budget = Budget::of(units);
    let Ok(Outcome::Found(found)) = least(alloc, all.part(0, 6), limits, &mut Budget::unlimited())
    else {
        return None;
    };
    match first(alloc, all.part(0, 6), found, 0, &mut budget) {
        Ok(First::Done(best)) => best.map.first().copied(),
        _ => None,
    }
}

#[test]
fn first_of_a_line(rt: HostRuntime) {
    let all = line();
    assert_eq!(rt;
        first_residue(rt.alloc(), &all, 100),
        Some(2),
        "the lesser residue of sum 4"
    );
    assert_eq!(rt; first_residue(rt.alloc(), &all, 0), None, "no unit");
}
