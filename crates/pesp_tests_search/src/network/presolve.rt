//! Reduced networks, whose least costs were found by another program that tries all maps.

ghost use Rattle.pesp_search_least.specs.Sums.{IsCandidate};
ghost use Rattle.pesp_search_network.specs.Arcs.{IsCosted};
ghost use Rattle.pesp_search_network.specs.Reduced.{IsReduction};

use crate::networks::{Line, Row, SQUARE, network_of};
use pesp_search_cycles::ByCycles;
use pesp_search_least::{Budget, Candidate, Limits, Outcome};
use pesp_search_network::{Network, Reduction};
use std::alloc::Global;
use std::process::Abort;

/// The arcs of the square, with two events tied to event 1 and to each other.
const TIED: &[Line] = &[
    (0, 1, 2, 9, 5),
    (1, 2, 2, 4, 3),
    (2, 3, 2, 9, 4),
    (3, 0, 2, 3, 7),
    (0, 2, 3, 5, 6),
    (1, 0, 1, 10, 1),
    (2, 2, 3, 10, 2),
    (4, 1, 3, 3, 2),
    (4, 5, -5, -5, 0),
    (5, 2, 1, 8, 1),
];

/// A map of least cost below the cap.
fn found(rt: &impl Abort, alloc: Global, network: &Network, cap: u64) -> Candidate
    ensures { IsCandidate (IsCosted network.now) result }
{
    let limits = Limits { floor: 0, cap };
    let mut budget = Budget::of(1_000_000);
    let mut cycles = ByCycles::new(alloc);
    let outcome = network.least(alloc, &mut cycles, limits, &mut budget);
    // A call of its own, so that proofs do not unfold all parts of the value.
    drop(cycles);
    match outcome.ok().expect(rt, "memory") {
        Outcome::Found(candidate) => candidate,
        _ => panic!(rt; "found"),
    }
}

/// Asserts that the lifted least map of the reduced network has this cost.
fn try_lift(rt: &impl Abort, alloc: Global, network: &Network, reduction: &Reduction, cost: u64)
    requires { IsReduction network.now reduction.now }
{
    let candidate = found(rt, alloc, &reduction.network, reduction.cap(1_000));
    let map = network.lift(alloc, reduction, &candidate);
    let map = map.ok().expect(rt, "memory");
    assert!(rt; map.cost == cost, "the least cost");
    assert!(rt; network.cost(&map.map) == Some(cost), "its map");
    assert!(rt;
        reduction.lower_bound(candidate.cost) == cost,
        "a lower bound"
    );
}

/// Compares the number of events of the reduced network, and the least cost of both.
fn try_reduced(
    rt: &(impl Abort + AllocGlobal),
    lines: &[Line],
    rows: &[Row],
    events: usize,
    cost: u64,
) {
    let alloc = rt.alloc();
    let network = network_of(rt, alloc, 6, lines, rows);
    let whole = found(rt, alloc, &network, 1_000);
    assert!(rt; whole.cost == cost, "the least cost without it");
    match network.presolve(alloc) {
        Ok(Some(reduction)) => {
            assert!(rt; reduction.network.events() == events, "events");
            try_lift(rt, alloc, &network, &reduction, cost);
        }
        _ => panic!(rt; "some map has a cost"),
    }
}

#[test]
fn nothing_tied(rt: HostRuntime) {
    try_reduced(&rt, SQUARE, &[], 6, 35);
}

#[test]
fn three_tied(rt: HostRuntime) {
    try_reduced(&rt, TIED, &[], 4, 40);
}

#[test]
fn three_tied_in_rows(rt: HostRuntime) {
    try_reduced(&rt, TIED, &[(5, 1, 2), (2, 3, 8)], 4, 68);
}
