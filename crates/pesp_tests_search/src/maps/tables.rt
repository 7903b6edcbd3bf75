//! Maps computed and polished for a few small networks, at period ten.

use crate::maps::examples::{Line, arc_of, period_of};
use pesp_search_graph::Arc;
use pesp_search_maps::{map_of, polish};
use std::process::Abort;

fn arcs_of(rt: &(impl Abort + AllocGlobal), lines: &[Line]) -> Vec<Arc> {
    let mut arcs = Vec::new(rt.alloc());
    for line in lines {
        arcs.push(arc_of(rt, *line)).ok().expect(rt, "memory");
    }
    arcs
}

/// A circle of three nodes, and a node without arcs.
const CIRCLE: &[Line] = &[(0, 1, 2, 8, 1), (1, 2, 3, 9, 5), (0, 2, 1, 7, 9)];

/// Slacks in units of 1 / 65,536, the origin, the resulting map, and what the case shows.
type Made = (&'static [i64], Option<usize>, &'static [u16], &'static str);

const MADE: &[Made] = &[
    (
        &[98_304, 131_072, 196_608],
        Some(0),
        &[0, 9, 4, 0],
        "the arc with half a unit is left out",
    ),
    (
        &[98_310, 131_100, 196_580],
        Some(0),
        &[0, 9, 4, 0],
        "nearly whole is whole",
    ),
    (
        &[65_536, 98_304, 229_376],
        Some(0),
        &[0, 3, 5, 0],
        "of two with a half the heavy one is in",
    ),
    (
        &[65_536, 0, 229_376],
        Some(0),
        &[0, 3, 6, 0],
        "1 and 0 are whole",
    ),
    (
        &[65_536, 98_303, 6_000_000],
        Some(0),
        &[0, 3, 7, 0],
        "at most the width",
    ),
    (
        &[-70_000, 0, 98_304],
        Some(0),
        &[0, 2, 5, 0],
        "none is below 0",
    ),
    (
        &[65_536, 0, 98_304],
        Some(2),
        &[4, 7, 0, 0],
        "the origin last",
    ),
    (
        &[65_536, 0, 98_304],
        Some(3),
        &[0, 3, 6, 0],
        "an origin without arcs",
    ),
    (&[65_536, 0, 98_304], None, &[0, 3, 6, 0], "no origin"),
    (&[], None, &[0, 8, 1, 0], "no slacks"),
];

fn assert_made(rt: &(impl Abort + AllocGlobal), made: Made) {
    let (slacks, origin, wanted, message) = made;
    let arcs = arcs_of(rt, CIRCLE);
    let map = map_of(rt.alloc(), period_of(rt, 10), 4, &arcs, slacks, origin);
    let map = map.ok().expect(rt, "memory");
    assert_eq!(rt; map.as_slice(), wanted, "{message}");
}

#[test]
fn maps_of_slacks(rt: HostRuntime) {
    for made in MADE {
        assert_made(&rt, *made);
    }
}

/// Arcs, a map, the origin, the work, and the resulting map.
type Polished = (&'static [Line], [u16; 4], Option<usize>, u64, [u16; 4]);

/// Two parts of one arc each.
const PARTS: &[Line] = &[(0, 1, 3, 5, 2), (2, 3, 4, 4, 0)];

/// A window of one residue from the origin, and a costly arc on; a loop, and an arc to an unknown node.
const HELD: &[Line] = &[
    (0, 1, 4, 4, 0),
    (1, 2, 2, 9, 3),
    (2, 2, 1, 3, 5),
    (1, 9, 1, 2, 3),
];

/// A circle in which one arc has to take the remaining slack, and the light one does.
const LIGHT: &[Line] = &[(0, 1, 3, 9, 5), (1, 2, 3, 9, 4), (2, 0, 3, 9, 1)];

const POLISHED: &[Polished] = &[
    (PARTS, [0, 0, 0, 0], Some(0), 1_000, [0, 3, 0, 4]),
    (PARTS, [5, 5, 5, 5], Some(1), 1_000, [7, 0, 0, 4]),
    (PARTS, [5, 5, 15, 5], Some(0), 0, [0, 0, 0, 0]),
    (PARTS, [2, 7, 1, 5], None, 1_000, [2, 5, 1, 5]),
    (HELD, [0, 9, 9, 0], Some(0), 1_000, [0, 4, 6, 0]),
    (HELD, [3, 7, 9, 0], Some(0), 1_000, [0, 4, 6, 7]),
    (LIGHT, [0, 9, 8, 0], Some(0), 1_000, [0, 3, 6, 0]),
    (&[], [1, 2, 3, 14], Some(1), 1_000, [9, 0, 1, 2]),
];

fn assert_polished(rt: &(impl Abort + AllocGlobal), polished: &Polished) {
    let (lines, start, origin, work, wanted) = *polished;
    let arcs = arcs_of(rt, lines);
    let mut map = start.to_vec(rt.alloc()).ok().expect(rt, "memory");
    let mut left = work;
    let done = polish(
        rt.alloc(),
        period_of(rt, 10),
        &arcs,
        &mut map,
        origin,
        &mut left,
    );
    done.ok().expect(rt, "memory");
    assert_eq!(rt; map.as_slice(), wanted.as_slice(), "from {start:?}");
}

#[test]
fn polished_by_hand(rt: HostRuntime) {
    for polished in POLISHED {
        assert_polished(&rt, polished);
    }
}
