//! The terms of a tableau's rows: those of walks and cuts.

use crate::Walk;
use crate::flip::{FlipCut, Part as Share};
use crate::parts::Part;
use pesp_base::Memory;
use pesp_search_graph::Arc;
use pesp_search_network::Network;
use pesp_search_simplex::Term;
use std::alloc::Global;

/// The weight of each arc, and 0 for each event.
pub(super) fn costs_of(alloc: Global, network: &Network) -> Result<Vec<u32>, Memory> {
    let mut costs = Vec::new(alloc);
    for arc in network.arcs() {
        if costs.push(arc.weight.get()).is_err() {
            return Err(Memory);
        }
    }
    for _ in 0..network.events() {
        if costs.push(0).is_err() {
            return Err(Memory);
        }
    }
    Ok(costs)
}

/// The greatest cost of all arcs together.
fn most_cost(network: &Network) -> u64 {
    let period = network.period();
    let mut most: u64 = 0;
    for arc in network.arcs() {
        let width = u64::from(arc.width(period));
        most = most.saturating_add(u64::from(arc.weight.get()).saturating_mul(width));
    }
    most
}

/// The most bits that multipliers may have after the point: sums of the bound have 64 bits, of which three are
/// left free. With a scale that falls as weights grow, sums of 128 bits are not needed (docs/HISTORY.md, "A
/// local search, turns by bounds, and tied events as one").
pub(super) fn room_of(network: &Network) -> u32 {
    most_cost(network).leading_zeros().saturating_sub(4)
}

/// The sum of the lower bounds of a walk's arcs.
pub(super) fn base_of(arcs: &[Arc], walk: &Walk) -> i64 {
    let mut base: i64 = 0;
    for step in &walk.steps {
        if let Some(arc) = arcs.get(step.arc) {
            let lower = i64::from(arc.span.lower());
            base = if step.along {
                base.saturating_add(lower)
            } else {
                base.saturating_sub(lower)
            };
        }
    }
    base
}

/// The terms of a walk: its slacks, and the residues at its ends.
pub(super) fn terms_of(alloc: Global, arcs: usize, walk: &Walk) -> Result<Vec<Term>, Memory> {
    let mut terms = Vec::new(alloc);
    for step in &walk.steps {
        let rate = if step.along { 1 } else { -1 };
        let number = step.arc;
        if terms.push(Term { number, rate }).is_err() {
            return Err(Memory);
        }
    }
    if walk.from != walk.to {
        let from = Term {
            number: arcs.saturating_add(walk.from),
            rate: 1,
        };
        let to = Term {
            number: arcs.saturating_add(walk.to),
            rate: -1,
        };
        if terms.push(from).is_err() || terms.push(to).is_err() {
            return Err(Memory);
        }
    }
    Ok(terms)
}

/// The terms of a cut, whose coefficients are below a period.
pub(super) fn terms_of_cut(alloc: Global, cut: &FlipCut) -> Result<Vec<Term>, Memory> {
    let mut terms = Vec::new(alloc);
    for part in &cut.terms {
        let number = part.number;
        let rate = i32::try_from(part.rate).unwrap_or(0);
        if terms.push(Term { number, rate }).is_err() {
            return Err(Memory);
        }
    }
    Ok(terms)
}

/// Whether the first of the terms is in the part; then all are.
pub(super) fn are_of(terms: &[Term], part: Option<Part>) -> bool {
    match (part, terms.first()) {
        (Some(part), Some(term)) => part.has(term.number),
        (Some(_), None) => false,
        (None, _) => true,
    }
}

/// The greatest sum of terms.
pub(super) fn most_of(network: &Network, terms: &[Share]) -> i64 {
    let period = network.period();
    let mut most: i64 = 0;
    for term in terms {
        if term.rate > 0 {
            let width = match network.arcs().get(term.number) {
                Some(arc) => arc.width(period),
                None => period.get(),
            };
            let product = term.rate.saturating_mul(i64::from(width));
            most = most.saturating_add(product);
        }
    }
    most
}
