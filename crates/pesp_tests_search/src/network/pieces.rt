//! The pieces of a network that are searched separately.

use crate::network::recorder::Recorder;
use crate::networks::{BRIDGE, CHAIN, Line, Row, THREE_PARTS, TWO_CYCLES, network_of};
use pesp_search_cycles::ByCycles;
use pesp_search_least::{Budget, Limits};
use std::process::Abort;

/// The ends of an arc.
type Ends = (usize, usize);

/// The searched networks in order, by the ends of their arcs.
type Pieces<'a> = &'a [&'static [Ends]];

fn assert_pieces(
    rt: &(impl Abort + AllocGlobal),
    events: usize,
    lines: &[Line],
    rows: &[Row],
    wanted: Pieces<'_>,
) {
    let alloc = rt.alloc();
    let network = network_of(rt, alloc, events, lines, rows);
    let mut recorder = Recorder {
        cycles: ByCycles::new(alloc),
        searched: Vec::new(alloc),
    };
    let limits = Limits {
        floor: 0,
        cap: 1_000,
    };
    let mut budget = Budget::of(1_000_000);
    let outcome = network.least(alloc, &mut recorder, limits, &mut budget);
    assert!(rt; outcome.is_ok(), "memory");
    for (piece, ends) in recorder.searched.iter().zip(wanted) {
        assert_eq!(rt; piece.as_slice(), *ends, "a piece of {} arcs", lines.len());
    }
    assert_eq!(rt; recorder.searched.len(), wanted.len(), "how many pieces");
}

/// The cycles of `THREE_PARTS`.
const FIRST: &[Ends] = &[(0, 1), (1, 2), (2, 0)];

const SECOND: &[Ends] = &[(3, 4), (4, 5), (5, 3)];

const THIRD: &[Ends] = &[(6, 7), (6, 7), (7, 8), (8, 6)];

/// The second cycle of `TWO_CYCLES`; its first is `FIRST`.
const ANOTHER: &[Ends] = &[(2, 3), (3, 4), (4, 2)];

/// The first cycle of `BRIDGE`, with the arc to the second one.
const WITH_BRIDGE: &[Ends] = &[(0, 1), (1, 2), (2, 0), (2, 3)];

/// All of `CHAIN`.
const WHOLE: &[Ends] = &[(0, 1), (1, 2), (2, 0), (2, 3), (3, 2), (3, 4), (4, 3)];

#[test]
fn pieces(rt: HostRuntime) {
    assert_pieces(&rt, 9, THREE_PARTS, &[], &[THIRD, SECOND, FIRST]);
    let rows = [(6, 2, 3), (3, 4, 6)];
    assert_pieces(&rt, 9, THREE_PARTS, &rows, &[FIRST, THIRD, SECOND]);
    assert_pieces(&rt, 5, TWO_CYCLES, &[], &[ANOTHER, FIRST]);
    assert_pieces(&rt, 5, TWO_CYCLES, &[(2, 7, 8)], &[ANOTHER, FIRST]);
    assert_pieces(&rt, 6, BRIDGE, &[], &[SECOND, WITH_BRIDGE]);
    assert_pieces(&rt, 5, CHAIN, &[], &[WHOLE]);
}
