//! Walks along and against arcs.

ghost use Rattle.std.specs.Prelude.{◌≡◌, ℕ, List, IfOk};
ghost use Rattle.pesp_search_cycles.specs.Walks.{joins, leads};

use pesp_base::Memory;
use pesp_search_graph::{Arc, Step};
use std::alloc::Global;
use std::marker::Model;

/// Steps from one event to another.
#[derive(Drop)]
pub struct Walk {
    // The first event; any: whether the steps lead from it to `to` is tested.
    pub(crate) from: usize,
    // The steps in order; any.
    pub(crate) steps: Vec<Step>,
    // The last event; any.
    pub(crate) to: usize,
}

impl Model for Walk {
    ghost use Rattle.pesp_search_cycles.specs.Walks.{Path};

    ghost Value = { Path };

    ghost view = { λ w. record { from = w.from; steps = w.steps.items; to = w.to } };
}

impl Walk {
    /// The steps from one event to the other.
    pub fn new(from: usize, steps: Vec<Step>, to: usize) -> Walk
        ensures { result ≡ record { from = from; steps = steps.items; to = to } }
    {
        Walk { from, steps, to }
    }

    /// A copy of the walk.
    pub(crate) fn copy(&self) -> Result<Walk, Memory>
        ensures { IfOk result (λ copy. copy ≡ self.now) }
    {
        let Ok(steps) = self.steps.clone() else {
            return Err(Memory);
        };
        Ok(Walk {
            from: self.from,
            steps,
            to: self.to,
        })
    }

    /// Whether the walk joins two of the first `events` events, and leads from its first event to its last.
    pub(crate) fn joins(&self, events: usize, arcs: &[Arc]) -> bool
        ensures { result ≡ joins events arcs.now self.now }
    {
        self.from < events && self.to < events && leads_to(arcs, self.from, &self.steps, self.to)
    }
}

/// Whether the steps lead from one event to the other, each starting where the one before it ends.
fn leads_to(arcs: &[Arc], from: usize, steps: &[Step], to: usize) -> bool
    ensures { result ≡ leads arcs.now from steps.now to }
{
    let mut at = from;
    for step in steps {
        let Some(arc) = arcs.get(step.arc) else {
            return false;
        };
        let (start, end) = if step.along {
            (arc.from, arc.to)
        } else {
            (arc.to, arc.from)
        };
        if start != at {
            return false;
        }
        at = end;
    }
    at == to
}

/// Copies of walks.
pub(crate) fn copied(alloc: Global, walks: &[Walk]) -> Result<Vec<Walk>, Memory>
    ensures { IfOk result (λ copy. copy.items ≡ walks.now) }
{
    let mut copy = Vec::new(alloc);
    for index in 0..walks.len() {
        if copy.push(walks[index].copy()?).is_err() {
            return Err(Memory);
        }
    }
    Ok(copy)
}
