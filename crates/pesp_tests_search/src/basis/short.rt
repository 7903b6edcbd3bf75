//! Short notation for networks and walks.

use crate::basis::lists::add;
use pesp_base::{Memory, Period, Span, Weight};
use pesp_search_graph::{Arc, Step};
use std::alloc::Global;
use std::process::Abort;

/// The start and the end of an arc, its width, and its weight.
pub(crate) type Short = (usize, usize, u16, u32);

/// An arc, and whether it is traversed from start to end.
pub(crate) type Gone = (usize, bool);

/// The period of all networks in tests: an arc of width 9 and weight 0 is idle.
pub(crate) fn period(rt: &impl Abort) -> Period {
    Period::new(10).expect(rt, "a period")
}

fn arc_of(short: Short) -> Option<Arc> {
    let (from, to, width, weight) = short;
    Some(Arc {
        from,
        to,
        span: Span::new(0, i32::from(width)).ok()?,
        weight: Weight::new(weight)?,
    })
}

/// The arcs of a network.
pub(crate) fn arcs_of(alloc: Global, network: &[Short]) -> Result<Vec<Arc>, Memory> {
    let mut arcs = Vec::new(alloc);
    for short in network {
        if let Some(arc) = arc_of(*short) {
            add(&mut arcs, arc)?;
        }
    }
    Ok(arcs)
}

/// Whether a walk has these steps.
pub(crate) fn is_walk(steps: &[Step], wanted: &[Gone]) -> bool {
    let mut is_same = steps.len() == wanted.len();
    for (step, (arc, along)) in steps.iter().zip(wanted) {
        is_same = is_same && step.arc == *arc && step.along == *along;
    }
    is_same
}

/// The start and the end of a step.
pub(crate) fn ends_of(arcs: &[Arc], step: Step) -> Option<(usize, usize)> {
    let arc = arcs.get(step.arc)?;
    if step.along {
        Some((arc.from, arc.to))
    } else {
        Some((arc.to, arc.from))
    }
}

/// The end of a walk from a node, if each step starts where the one before it ends.
pub(crate) fn end_of(arcs: &[Arc], from: usize, steps: &[Step]) -> Option<usize> {
    let mut node = from;
    for step in steps {
        let (begin, end) = ends_of(arcs, *step)?;
        if begin != node {
            return None;
        }
        node = end;
    }
    Some(node)
}

/// The total width of a walk.
pub(crate) fn width_of(period: Period, arcs: &[Arc], steps: &[Step]) -> u64 {
    let mut sum = 0u64;
    for step in steps {
        if let Some(arc) = arcs.get(step.arc) {
            sum = sum.saturating_add(u64::from(arc.width(period)));
        }
    }
    sum
}
