//! Small networks at period ten.

use pesp_base::{Period, Span, Weight};
use pesp_search_graph::Arc;
use pesp_search_network::Network;
use std::alloc::Global;
use std::process::Abort;

/// The ends of an arc, its bounds and its weight.
pub(crate) type Line = (usize, usize, i32, i32, u32);

/// An event, and its window: the first residue, and the one after the last.
pub(crate) type Row = (usize, u16, u16);

/// A cycle of four events, two arcs across it, and a loop.
pub(crate) const SQUARE: &[Line] = &[
    (0, 1, 2, 9, 5),
    (1, 2, 2, 4, 3),
    (2, 3, 2, 9, 4),
    (3, 0, 2, 3, 7),
    (0, 2, 3, 5, 6),
    (1, 0, 1, 10, 1),
    (2, 2, 3, 10, 2),
];

/// Two cycles that share an event.
pub(crate) const TWO_CYCLES: &[Line] = &[
    (0, 1, 2, 9, 5),
    (1, 2, 3, 8, 3),
    (2, 0, 3, 9, 4),
    (2, 3, 2, 7, 6),
    (3, 4, 4, 9, 2),
    (4, 2, 1, 5, 7),
];

/// Three cycles of three events.
pub(crate) const THREE_PARTS: &[Line] = &[
    (0, 1, 2, 9, 5),
    (1, 2, 3, 8, 3),
    (2, 0, 4, 9, 4),
    (3, 4, 1, 6, 2),
    (4, 5, 2, 8, 6),
    (5, 3, 3, 9, 1),
    (6, 7, 3, 12, 0),
    (6, 7, 7, 9, 3),
    (7, 8, 2, 9, 1),
    (8, 6, 4, 10, 2),
];

/// A chain joined to a cycle.
pub(crate) const CHAIN: &[Line] = &[
    (0, 1, 2, 9, 5),
    (1, 2, 2, 8, 3),
    (2, 0, 2, 9, 4),
    (2, 3, 4, 9, 6),
    (3, 2, 3, 7, 2),
    (3, 4, 1, 5, 1),
    (4, 3, 4, 11, 3),
];

/// Two cycles and an arc between them.
pub(crate) const BRIDGE: &[Line] = &[
    (0, 1, 2, 9, 5),
    (1, 2, 2, 8, 3),
    (2, 0, 2, 9, 4),
    (2, 3, 4, 9, 6),
    (3, 4, 1, 5, 1),
    (4, 5, 4, 11, 3),
    (5, 3, 2, 9, 2),
];

fn add(rt: &impl Abort, network: &mut Network, line: Line) {
    let (from, to, lower, upper, weight) = line;
    assert!(rt; from < network.events() && to < network.events(), "ends");
    assert!(rt; network.arc_count() < 100_000, "few arcs");
    let arc = Arc {
        from,
        to,
        span: Span::new(lower, upper).ok().expect(rt, "a span"),
        weight: Weight::new(weight).expect(rt, "a weight"),
    };
    network.add(arc).ok().expect(rt, "memory");
}

fn hold(rt: &impl Abort, network: &mut Network, row: Row) {
    let (event, low, high) = row;
    for residue in 0..10 {
        if residue < low || residue >= high {
            assert!(rt;
                event < network.events() && residue < network.period().get(),
                "there"
            );
            network.forbid(event, residue);
        }
    }
}

/// The network with these arcs and windows, at period ten.
pub(crate) fn network_of(
    rt: &impl Abort,
    alloc: Global,
    events: usize,
    lines: &[Line],
    rows: &[Row],
) -> Network {
    let period = Period::new(10).expect(rt, "a period");
    assert!(rt; events <= 20_000, "few events");
    let mut network = Network::new(alloc, period, events)
        .ok()
        .expect(rt, "memory");
    for line in lines {
        add(rt, &mut network, *line);
    }
    for row in rows {
        hold(rt, &mut network, *row);
    }
    network
}
