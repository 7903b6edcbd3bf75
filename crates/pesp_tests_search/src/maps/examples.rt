//! Maps computed and polished for random networks, and for a few small ones.

use pesp_base::{Memory, Period, Span, Weight};
use pesp_search_graph::Arc;
use pesp_search_maps::{Charge, map_of, polish};
use std::alloc::Global;
use std::process::Abort;

/// More work than any search here needs.
const MUCH: u64 = 1_000_000_000;

/// The ends of an arc, its bounds and its weight.
pub(crate) type Line = (usize, usize, i32, i32, u32);

/// Pseudorandom numbers from a seed.
#[derive(Drop)]
struct Draw(u32);

impl Draw {
    /// A number below the bound; 0 if the bound is 0.
    fn below(&mut self, bound: u16) -> u16 {
        self.0 = self.0.wrapping_mul(1_664_525).wrapping_add(1_013_904_223);
        if bound == 0 {
            return 0;
        }
        ((self.0 >> 8) % u32::from(bound)) as u16
    }
}

/// A network with a map that meets it.
#[derive(Drop)]
pub(crate) struct Drawn {
    // The period of the network.
    pub(crate) period: Period,
    // Arcs that the map meets.
    pub(crate) arcs: Vec<Arc>,
    // The residue of each node.
    pub(crate) map: Vec<u16>,
}

pub(crate) fn period_of(rt: &impl Abort, period: u16) -> Period {
    Period::new(period).expect(rt, "a period")
}

pub(crate) fn arc_of(rt: &impl Abort, line: Line) -> Arc {
    let (from, to, lower, upper, weight) = line;
    Arc {
        from,
        to,
        span: Span::new(lower, upper).ok().expect(rt, "a span"),
        weight: Weight::new(weight).expect(rt, "a weight"),
    }
}

pub(crate) fn residue(map: &[u16], node: usize) -> i32 {
    match map.get(node) {
        Some(residue) => i32::from(*residue),
        None => 0,
    }
}

/// An arc between two nodes that the map meets.
fn drawn_arc(rt: &impl Abort, draw: &mut Draw, period: u16, map: &[u16]) -> Arc {
    let nodes = map.len().min(1_000) as u16;
    let from = usize::from(draw.below(nodes));
    let to = usize::from(draw.below(nodes));
    let width = draw.below(period) / 2;
    let slack = i32::from(draw.below(width.saturating_add(1)));
    let width = i32::from(width);
    let lower = residue(map, to)
        .wrapping_sub(residue(map, from))
        .wrapping_sub(slack);
    let weight = u32::from(draw.below(20));
    arc_of(rt, (from, to, lower, lower.wrapping_add(width), weight))
}

pub(crate) fn draw_network(
    rt: &(impl Abort + AllocGlobal),
    seed: u32,
    period: u16,
    nodes: u32,
    arcs: u32,
) -> Drawn {
    let mut draw = Draw(seed);
    let mut map = Vec::new(rt.alloc());
    for node in 0..nodes {
        let residue = if node == 0 { 0 } else { draw.below(period) };
        map.push(residue).ok().expect(rt, "memory");
    }
    let mut list = Vec::new(rt.alloc());
    for _arc in 0..arcs {
        list.push(drawn_arc(rt, &mut draw, period, &map))
            .ok()
            .expect(rt, "memory");
    }
    Drawn {
        period: period_of(rt, period),
        arcs: list,
        map,
    }
}

/// The slack of an arc at a map.
fn slack_at(period: Period, map: &[u16], arc: &Arc) -> u16 {
    let tension = residue(map, arc.to).wrapping_sub(residue(map, arc.from));
    let slack = tension.wrapping_sub(arc.span.lower());
    slack.rem_euclid(i32::from(period.get())) as u16
}

/// The charge of a map.
pub(crate) fn charge_of(period: Period, arcs: &[Arc], map: &[u16]) -> Charge {
    let mut charge = Charge { excess: 0, cost: 0 };
    for arc in arcs {
        let slack = i64::from(slack_at(period, map, arc));
        let width = i64::from(arc.width(period));
        let over = (slack - width).max(0).min(i64::from(period.get()) - slack);
        let cost = slack * i64::from(arc.weight.get());
        charge.excess = charge.excess.wrapping_add(over);
        charge.cost = charge.cost.wrapping_add(cost);
    }
    charge
}

/// The slacks of a map, in units of 1 / 65,536.
fn parts_of(alloc: Global, period: Period, arcs: &[Arc], map: &[u16]) -> Result<Vec<i64>, Memory> {
    let mut slacks = Vec::new(alloc);
    for arc in arcs {
        let parts = i64::from(slack_at(period, map, arc)) * 65_536;
        if slacks.push(parts).is_err() {
            return Err(Memory);
        }
    }
    Ok(slacks)
}

fn assert_made(rt: &(impl Abort + AllocGlobal), seed: u32, period: u16, nodes: u32, arcs: u32) {
    let drawn = draw_network(rt, seed, period, nodes, arcs);
    let slacks = parts_of(rt.alloc(), drawn.period, &drawn.arcs, &drawn.map);
    let slacks = slacks.ok().expect(rt, "memory");
    let nodes = drawn.map.len();
    let made = map_of(
        rt.alloc(),
        drawn.period,
        nodes,
        &drawn.arcs,
        &slacks,
        Some(0),
    );
    let made = made.ok().expect(rt, "memory");
    assert_eq!(rt; made.len(), nodes, "a residue for each node");
    assert_eq!(rt; residue(&made, 0), 0, "the origin");
    for arc in &drawn.arcs {
        let got = slack_at(drawn.period, &made, arc);
        assert_eq!(rt; got, slack_at(drawn.period, &drawn.map, arc), "seed {seed}");
    }
}

#[test]
fn map_has_the_slacks(rt: HostRuntime) {
    for seed in 0..20 {
        assert_made(&rt, seed, 10, 5, 6);
        assert_made(&rt, seed, 60, 20, 30);
        assert_made(&rt, seed, 1_440, 9, 20);
        assert_made(&rt, seed, 2, 4, 3);
    }
}

/// The charge of a map once it is polished, and the remaining work.
fn polished(
    rt: &(impl Abort + AllocGlobal),
    drawn: &Drawn,
    start: &[u16],
    work: u64,
) -> (Charge, u64) {
    let (period, arcs) = (drawn.period, &drawn.arcs);
    let mut map = start.to_vec(rt.alloc()).ok().expect(rt, "memory");
    let before = charge_of(period, arcs, &map);
    let mut left = work;
    let done = polish(rt.alloc(), period, arcs, &mut map, Some(0), &mut left);
    done.ok().expect(rt, "memory");
    let after = charge_of(period, arcs, &map);
    assert!(rt; after <= before, "{before:?} became {after:?}");
    assert_eq!(rt; residue(&map, 0), 0, "the origin");
    assert!(rt; left < work || work == 0, "work is counted");
    (after, left)
}

pub(crate) fn zeros_of(rt: &(impl Abort + AllocGlobal), drawn: &Drawn) -> Vec<u16> {
    let zeros = vec![in rt.alloc(); 0; drawn.map.len()];
    zeros.ok().expect(rt, "memory")
}

/// Whether the random map is still met after polishing, and a feasible map is found from residues 0.
fn is_met(rt: &(impl Abort + AllocGlobal), drawn: &Drawn) -> bool {
    let zeros = zeros_of(rt, drawn);
    let (kept, _left) = polished(rt, drawn, &drawn.map, MUCH);
    assert_eq!(rt; kept.excess, 0, "it stays met");
    for work in [0, 10, 100, 1_000] {
        let _stopped = polished(rt, drawn, &zeros, work);
    }
    let (found, _left) = polished(rt, drawn, &zeros, MUCH);
    found.excess == 0
}

/// The number of random networks for which a feasible map is found.
fn count_met(rt: &(impl Abort + AllocGlobal), period: u16, nodes: u32, arcs: u32) -> u32 {
    let mut count: u32 = 0;
    for seed in 0..100 {
        if is_met(rt, &draw_network(rt, seed, period, nodes, arcs)) {
            count = count.saturating_add(1);
        }
    }
    count
}

fn assert_most_met(
    rt: &(impl Abort + AllocGlobal),
    period: u16,
    nodes: u32,
    arcs: u32,
    least: u32,
) {
    let met = count_met(rt, period, nodes, arcs);
    assert!(rt; met >= least, "{nodes} nodes, {arcs} arcs: {met} of 100");
}

#[test]
fn most_small_networks_are_met(rt: HostRuntime) {
    assert_most_met(&rt, 10, 4, 4, 95);
    assert_most_met(&rt, 10, 5, 7, 95);
    assert_most_met(&rt, 60, 8, 12, 90);
    assert_most_met(&rt, 60, 20, 30, 80);
    assert_most_met(&rt, 1_440, 6, 9, 90);
}

#[test]
fn larger_networks_take_little(rt: HostRuntime) {
    for seed in 0..5 {
        let drawn = draw_network(&rt, seed, 60, 112, 250);
        let (_found, left) = polished(&rt, &drawn, &zeros_of(&rt, &drawn), 1_000_000);
        assert!(rt; left > 0, "seed {seed} took all");
    }
}
