//! Least costs and first maps of small networks, found by another program that tries all maps.

ghost use Rattle.std.specs.Prelude.{◌+◌, ◌<◌, ◌^◌};
ghost use Rattle.pesp_search_least.specs.Sums.{IsLeast, IsOutcome};
ghost use Rattle.pesp_search_network.specs.Arcs.{IsCosted};

use crate::networks::{BRIDGE, CHAIN, SQUARE, THREE_PARTS, TWO_CYCLES, network_of};
use pesp_search_cycles::ByCycles;
use pesp_search_least::{Budget, Candidate, First, Limits, Outcome};
use pesp_search_network::Network;
use std::alloc::Global;
use std::process::Abort;

/// The result of a search below the cap with these units.
fn found(rt: &impl Abort, alloc: Global, network: &Network, cap: u64, units: u64) -> Outcome
    ensures { IsOutcome (IsCosted network.now) cap result }
{
    let limits = Limits { floor: 0, cap };
    let mut budget = Budget::of(units);
    let mut cycles = ByCycles::new(alloc);
    let outcome = network.least(alloc, &mut cycles, limits, &mut budget);
    // A call of its own, so that proofs do not unfold all parts of the value.
    drop(cycles);
    outcome.ok().expect(rt, "memory")
}

/// A map of least cost, which has this cost.
fn least_at(rt: &impl Abort, alloc: Global, network: &Network, cost: u64) -> Candidate
    ensures least { IsLeast (IsCosted network.now) result }
    ensures room { result.cost + 1 < 2 ^ 64 }
{
    let candidate = match found(rt, alloc, network, 1_000, 1_000_000) {
        Outcome::Found(candidate) => Some(candidate),
        _ => None,
    };
    let candidate = candidate.expect(rt, "found");
    assert!(rt; candidate.cost == cost, "the least cost");
    assert!(rt; network.cost(&candidate.map) == Some(cost), "its map");
    candidate
}

/// Compares the first map of least cost, and its cost.
fn try_first(rt: &impl Abort, alloc: Global, network: &Network, cost: u64, map: &[u16]) {
    let candidate = least_at(rt, alloc, network, cost);
    let mut budget = Budget::of(1_000_000);
    match ByCycles::new(alloc)
        .first(alloc, network, candidate, &mut budget)
        .ok()
        .expect(rt, "memory")
    {
        First::Done(found) => assert!(rt; found.map.as_slice() == map, "the first map"),
        First::Spent { .. } => assert!(rt; false, "many units"),
    }
}

#[test]
fn first_maps(rt: HostRuntime) {
    let alloc = rt.alloc();
    let square = network_of(&rt, alloc, 4, SQUARE, &[]);
    try_first(&rt, alloc, &square, 35, &[0, 2, 4, 8]);
    let cycles = network_of(&rt, alloc, 5, TWO_CYCLES, &[]);
    try_first(&rt, alloc, &cycles, 12, &[0, 2, 7, 9, 6]);
}

#[test]
fn first_maps_in_rows(rt: HostRuntime) {
    let alloc = rt.alloc();
    let square = network_of(&rt, alloc, 4, SQUARE, &[(0, 7, 8), (2, 2, 4)]);
    try_first(&rt, alloc, &square, 40, &[7, 9, 2, 5]);
    let cycles = network_of(&rt, alloc, 5, TWO_CYCLES, &[(0, 3, 5), (3, 4, 6)]);
    try_first(&rt, alloc, &cycles, 16, &[4, 6, 1, 4, 0]);
}

#[test]
fn first_maps_of_parts(rt: HostRuntime) {
    let alloc = rt.alloc();
    let three = network_of(&rt, alloc, 9, THREE_PARTS, &[]);
    try_first(&rt, alloc, &three, 14, &[0, 2, 6, 0, 1, 3, 0, 7, 6]);
    let chain = network_of(&rt, alloc, 5, CHAIN, &[]);
    try_first(&rt, alloc, &chain, 25, &[0, 2, 8, 2, 7]);
    let bridge = network_of(&rt, alloc, 6, BRIDGE, &[]);
    try_first(&rt, alloc, &bridge, 15, &[0, 2, 8, 2, 6, 0]);
}

#[test]
fn first_maps_of_parts_in_rows(rt: HostRuntime) {
    let alloc = rt.alloc();
    let three = network_of(&rt, alloc, 9, THREE_PARTS, &[(3, 4, 6), (6, 2, 3)]);
    try_first(&rt, alloc, &three, 14, &[0, 2, 6, 4, 5, 7, 2, 9, 8]);
    let chain = network_of(&rt, alloc, 5, CHAIN, &[(2, 7, 8), (4, 0, 3)]);
    try_first(&rt, alloc, &chain, 33, &[9, 1, 7, 1, 2]);
    let bridge = network_of(&rt, alloc, 6, BRIDGE, &[(0, 3, 5), (4, 5, 7)]);
    try_first(&rt, alloc, &bridge, 18, &[3, 5, 0, 4, 6, 0]);
}

#[test]
fn ends(rt: HostRuntime) {
    let alloc = rt.alloc();
    let square = network_of(&rt, alloc, 4, SQUARE, &[]);
    assert!(rt;
        matches!(
            found(&rt, alloc, &square, 35, 1_000_000),
            Outcome::NoneBelow
        ),
        "no cost below the least"
    );
    assert!(rt;
        matches!(
            found(&rt, alloc, &square, 1_000, 0),
            Outcome::Spent { best: None, .. }
        ),
        "no unit"
    );
}
