//! Local searches of random networks, and first maps of a few small ones.

use crate::maps::examples::{
    Drawn, Line, arc_of, charge_of, draw_network, period_of, residue, zeros_of,
};
use pesp_search_maps::{Charge, LocalSearch, first_map};
use std::process::Abort;

/// The search from residues 0, or from the random map.
fn search_of(rt: &(impl Abort + AllocGlobal), drawn: &Drawn, is_met: bool) -> LocalSearch {
    let zeros = zeros_of(rt, drawn);
    let map = if is_met { &drawn.map } else { &zeros };
    let search = LocalSearch::new(
        rt.alloc(),
        drawn.period,
        drawn.map.len(),
        &drawn.arcs,
        Some(0),
        map,
    );
    search.ok().expect(rt, "memory")
}

/// The difference of two charges.
fn above(charge: Charge, other: Charge) -> (i64, i64) {
    let excess = charge.excess.wrapping_sub(other.excess);
    (excess, charge.cost.wrapping_sub(other.cost))
}

/// Searches for this amount of work, in pieces, and returns the charge of the map.
fn advance(
    rt: &(impl Abort + AllocGlobal),
    drawn: &Drawn,
    search: &mut LocalSearch,
    pieces: u64,
    piece: u64,
) -> Charge {
    let start = charge_of(drawn.period, &drawn.arcs, search.best());
    let said = search.charge();
    for _piece in 0..pieces {
        let mut work = piece;
        search
            .advance(rt.alloc(), &mut work)
            .ok()
            .expect(rt, "memory");
    }
    let found = charge_of(drawn.period, &drawn.arcs, search.best());
    assert!(rt; found <= start, "{start:?} became {found:?}");
    // A loop has the same charge at each map.
    assert_eq!(rt;
        above(found, start),
        above(search.charge(), said),
        "the charge"
    );
    assert_eq!(rt; residue(search.best(), 0), 0, "the origin");
    found
}

/// Whether a feasible map is found, and the random one stays feasible.
fn is_met(rt: &(impl Abort + AllocGlobal), drawn: &Drawn) -> bool {
    let mut kept = search_of(rt, drawn, true);
    let charge = advance(rt, drawn, &mut kept, 1, 20_000);
    assert_eq!(rt; charge.excess, 0, "it stays met");
    let mut search = search_of(rt, drawn, false);
    advance(rt, drawn, &mut search, 1, 200_000).excess == 0
}

fn assert_all_met(rt: &(impl Abort + AllocGlobal), period: u16, nodes: u32, arcs: u32) {
    for seed in 0..10 {
        let drawn = draw_network(rt, seed, period, nodes, arcs);
        assert!(rt;
            is_met(rt, &drawn),
            "seed {seed}, {nodes} nodes, {arcs} arcs"
        );
    }
}

#[test]
fn small_networks_are_met(rt: HostRuntime) {
    assert_all_met(&rt, 2, 4, 3);
    assert_all_met(&rt, 10, 4, 4);
    assert_all_met(&rt, 10, 5, 7);
    assert_all_met(&rt, 60, 8, 12);
    assert_all_met(&rt, 60, 20, 30);
    assert_all_met(&rt, 1_440, 6, 9);
}

/// Asserts that pieces of any size lead to the same map.
fn assert_alike(rt: &(impl Abort + AllocGlobal), drawn: &Drawn, pieces: u64, piece: u64) {
    let mut one = search_of(rt, drawn, false);
    let mut other = search_of(rt, drawn, false);
    let _one = advance(rt, drawn, &mut one, 1, pieces.saturating_mul(piece));
    let _other = advance(rt, drawn, &mut other, pieces, piece);
    assert_eq!(rt; one.best(), other.best(), "{pieces} pieces");
    assert_eq!(rt; one.charge(), other.charge(), "{pieces} pieces");
}

#[test]
fn pieces_make_no_difference(rt: HostRuntime) {
    for seed in 0..3 {
        let drawn = draw_network(&rt, seed, 60, 20, 45);
        assert_alike(&rt, &drawn, 100, 1_000);
        assert_alike(&rt, &drawn, 2_000, 7);
    }
    let larger = draw_network(&rt, 1, 60, 900, 2_000);
    assert_alike(&rt, &larger, 40, 100_000);
}

/// A circle, and a node without arcs.
const CIRCLE: &[Line] = &[(0, 1, 2, 8, 1), (1, 2, 3, 9, 5), (0, 2, 1, 3, 0)];

/// The origin, and the first map at period ten.
const FIRST: &[(Option<usize>, [u16; 4])] = &[
    (Some(0), [0, 8, 1, 0]),
    (None, [0, 8, 1, 0]),
    (Some(2), [9, 7, 0, 0]),
    (Some(3), [0, 8, 1, 0]),
    (Some(9), [0, 8, 1, 0]),
];

#[test]
fn first_maps(rt: HostRuntime) {
    for (origin, wanted) in FIRST {
        assert_first(&rt, *origin, wanted);
    }
}

fn assert_first(rt: &(impl Abort + AllocGlobal), origin: Option<usize>, wanted: &[u16]) {
    let mut arcs = Vec::new(rt.alloc());
    for line in CIRCLE {
        arcs.push(arc_of(rt, *line)).ok().expect(rt, "memory");
    }
    let map = first_map(rt.alloc(), period_of(rt, 10), 4, &arcs, origin);
    let map = map.ok().expect(rt, "memory");
    assert_eq!(rt; map.as_slice(), wanted, "origin {origin:?}");
}

/// A search without nodes, and one from a map that is too short.
#[test]
fn odd_beginnings(rt: HostRuntime) {
    let none = LocalSearch::new(rt.alloc(), period_of(&rt, 10), 0, &[], None, &[]);
    assert_left(&rt, none.ok().expect(&rt, "memory"), &[]);
    let short = LocalSearch::new(rt.alloc(), period_of(&rt, 10), 3, &[], Some(1), &[14, 7]);
    assert_left(&rt, short.ok().expect(&rt, "memory"), &[7, 0, 3]);
}

/// Asserts that work is left over if no arc can cost less.
fn assert_left(rt: &(impl Abort + AllocGlobal), mut search: LocalSearch, wanted: &[u16]) {
    let mut work = 1_000;
    search
        .advance(rt.alloc(), &mut work)
        .ok()
        .expect(rt, "memory");
    assert_eq!(rt; work, 1_000, "nothing to gain");
    assert_eq!(rt; search.best(), wanted, "the map as it was");
}
