//! Cycles and paths of small networks.

use crate::basis::short::{Gone, Short, arcs_of, is_walk, period};
use pesp_search_basis::{cycle_count, narrow_cycles, tree_cycles, way};
use pesp_search_graph::Step;
use std::process::Abort;

/// Three arcs in a ring, a loop, and an idle arc.
const TRIANGLE: [Short; 5] = [
    (0, 1, 2, 1),
    (1, 2, 3, 1),
    (0, 2, 4, 1),
    (1, 1, 5, 1),
    (2, 0, 9, 0),
];

/// A line of five nodes that arc 5 closes, with a shortcut by arc 4.
const RING: [Short; 6] = [
    (0, 1, 3, 1),
    (1, 2, 3, 1),
    (2, 3, 3, 1),
    (3, 4, 3, 1),
    (0, 3, 4, 1),
    (4, 0, 5, 1),
];

/// Two opposite arcs between two nodes, an arc to a third node, and an idle one from there.
const PAIR: [Short; 4] = [(0, 1, 1, 1), (1, 0, 2, 1), (1, 2, 0, 1), (2, 3, 9, 0)];

/// An idle arc, and a wide path beside it.
const BESIDE: [Short; 3] = [(0, 1, 9, 0), (0, 2, 8, 1), (2, 1, 8, 1)];

/// Three arcs between the same nodes, of which the second is the narrowest.
const THREE: [Short; 3] = [(0, 1, 5, 1), (0, 1, 1, 1), (0, 1, 2, 1)];

/// An arc that constrains nothing but has a weight, and one back.
const COSTLY: [Short; 2] = [(0, 1, 9, 1), (1, 0, 3, 1)];

/// Whether walks have these steps.
fn are_walks(walks: &[Vec<Step>], wanted: &[&[Gone]]) -> bool {
    let mut are_same = walks.len() == wanted.len();
    for (steps, gone) in walks.iter().zip(wanted) {
        are_same = are_same && is_walk(steps.as_slice(), *gone);
    }
    are_same
}

fn holds(rt: &impl Abort, is_met: bool, message: &str) {
    assert!(rt; is_met, "{message}");
}

fn assert_count(rt: &(impl Abort + AllocGlobal), nodes: usize, network: &[Short], wanted: usize) {
    let arcs = arcs_of(rt.alloc(), network).expect(rt, "arcs");
    let count = cycle_count(rt.alloc(), period(rt), nodes, arcs.as_slice()).expect(rt, "count");
    holds(rt, count == wanted, "how many cycles a basis has");
}

fn assert_tree(
    rt: &(impl Abort + AllocGlobal),
    nodes: usize,
    network: &[Short],
    wanted: &[&[Gone]],
) {
    let arcs = arcs_of(rt.alloc(), network).expect(rt, "arcs");
    let cycles = tree_cycles(rt.alloc(), period(rt), nodes, arcs.as_slice()).expect(rt, "cycles");
    holds(rt, are_walks(cycles.as_slice(), wanted), "cycles of a tree");
}

fn assert_narrow(
    rt: &(impl Abort + AllocGlobal),
    nodes: usize,
    network: &[Short],
    wanted: &[&[Gone]],
) {
    let arcs = arcs_of(rt.alloc(), network).expect(rt, "arcs");
    let mut work = 0;
    let cycles = narrow_cycles(rt.alloc(), period(rt), nodes, arcs.as_slice(), &mut work).expect(
        rt, "cycles",
    );
    holds(rt, are_walks(cycles.as_slice(), wanted), "narrow cycles");
    holds(rt, (work == 0) == wanted.is_empty(), "work");
}

fn assert_way(
    rt: &(impl Abort + AllocGlobal),
    network: &[Short],
    from: usize,
    wanted: &[bool],
    steps: Option<&[Gone]>,
) {
    let arcs = arcs_of(rt.alloc(), network).expect(rt, "arcs");
    let nodes = wanted.len();
    let found = way(rt.alloc(), period(rt), nodes, arcs.as_slice(), from, wanted).expect(rt, "way");
    let is_met = match (&found, steps) {
        (Some(found), Some(steps)) => is_walk(found.as_slice(), steps),
        (None, None) => true,
        _ => false,
    };
    holds(rt, is_met, "a way to the nearest");
}

#[test]
fn counts_of_cycles(rt: HostRuntime) {
    assert_count(&rt, 3, &TRIANGLE, 1);
    assert_count(&rt, 5, &RING, 2);
    assert_count(&rt, 4, &PAIR, 1);
    assert_count(&rt, 3, &BESIDE, 0);
    assert_count(&rt, 2, &THREE, 2);
    assert_count(&rt, 2, &COSTLY, 1);
    assert_count(&rt, 0, &[], 0);
}

#[test]
fn cycles_of_trees(rt: HostRuntime) {
    assert_tree(&rt, 3, &TRIANGLE, &[&[(2, true), (1, false), (0, false)]]);
    let around = [(0, true), (1, true), (2, true), (3, true), (5, true)];
    let within = [(4, true), (2, false), (1, false), (0, false)];
    assert_tree(&rt, 5, &RING, &[&within, &around]);
    assert_tree(&rt, 4, &PAIR, &[&[(0, true), (1, true)]]);
    assert_tree(&rt, 3, &BESIDE, &[]);
    let narrower = [(2, true), (1, false)];
    assert_tree(&rt, 2, &THREE, &[&narrower, &[(0, true), (1, false)]]);
}

#[test]
fn cycles_that_are_narrow(rt: HostRuntime) {
    assert_narrow(&rt, 3, &TRIANGLE, &[&[(0, true), (1, true), (2, false)]]);
    let least = [(4, true), (3, true), (5, true)];
    let next = [(0, true), (1, true), (2, true), (4, false)];
    assert_narrow(&rt, 5, &RING, &[&least, &next]);
    assert_narrow(&rt, 4, &PAIR, &[&[(0, true), (1, true)]]);
    assert_narrow(&rt, 3, &BESIDE, &[]);
    let narrower = [(2, true), (1, false)];
    assert_narrow(&rt, 2, &THREE, &[&narrower, &[(0, true), (1, false)]]);
}

#[test]
fn ways_to_the_nearest(rt: HostRuntime) {
    let last = [false, false, false, true];
    assert_way(
        &rt,
        &RING,
        0,
        &[false, false, false, true, true],
        Some(&[(4, true)]),
    );
    assert_way(&rt, &RING, 1, &[true, true, false, false, false], Some(&[]));
    assert_way(
        &rt,
        &BESIDE,
        0,
        &[false, true, false],
        Some(&[(1, true), (2, true)]),
    );
    assert_way(
        &rt,
        &PAIR,
        0,
        &last,
        Some(&[(0, true), (2, true), (3, true)]),
    );
    assert_way(&rt, &TRIANGLE, 0, &last, None);
}
