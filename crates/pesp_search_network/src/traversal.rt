//! A depth-first traversal of a network, which shows where it may fall apart.
//!
//! Nothing is proved of it except that it is safe: each cut that it proposes is checked before use.

ghost use Rattle.std.specs.Prelude.{◌≡◌, ◌<◌, IfOk, length};

use crate::Network;
use crate::graph::Graph;
use crate::separation::Separation;
use pesp_base::Memory;
use std::alloc::Global;

/// An event in the order of discovery, with its low point (Hopcroft and Tarjan, 1973).
#[derive(Clone, Copy)]
pub(crate) struct Discovery {
    // The event; no other discovery has it.
    event: usize,
    // The index of the discovery from which the traversal came; none for the root of a tree.
    parent: Option<usize>,
    // The low point: the first discovery joined to this one or to a descendant.
    low: usize,
    // The number of descendants including this one, which are consecutive.
    size: usize,
    // The number of cycles that the links of the descendants close.
    cycles: usize,
}

/// An event to visit, and the index of the discovery that leads to it.
#[derive(Clone, Copy)]
struct Step {
    // The event; it may have been discovered another way by now.
    event: usize,
    // None for the root of a tree.
    parent: Option<usize>,
}

/// Visits an event, unless it was discovered before.
fn discover(
    graph: &Graph,
    step: Step,
    indices: &mut [Option<usize>],
    discoveries: &mut Vec<Discovery>,
    waiting: &mut Vec<Step>,
) -> Result<(), Memory>
    ensures { length indices.new ≡ length indices.old }
{
    if step.event >= indices.len() || indices[step.event].is_some() {
        return Ok(());
    }
    let index = discoveries.len();
    indices[step.event] = Some(index);
    let discovery = Discovery {
        event: step.event,
        parent: step.parent,
        low: index,
        size: 1,
        cycles: 0,
    };
    if discoveries.push(discovery).is_err() {
        return Err(Memory);
    }
    for neighbour in graph.neighbours(step.event).iter().rev() {
        let next = Step {
            event: *neighbour,
            parent: Some(index),
        };
        if waiting.push(next).is_err() {
            return Err(Memory);
        }
    }
    Ok(())
}

/// Visits all events reachable from this one.
fn traverse_from(
    graph: &Graph,
    event: usize,
    indices: &mut [Option<usize>],
    discoveries: &mut Vec<Discovery>,
    waiting: &mut Vec<Step>,
) -> Result<(), Memory>
    ensures { length indices.new ≡ length indices.old }
{
    waiting.clear();
    discover(
        graph,
        Step {
            event,
            parent: None,
        },
        indices,
        discoveries,
        waiting,
    )?;
    for _step in 0..usize::MAX {
        let Some(step) = waiting.pop() else {
            return Ok(());
        };
        discover(graph, step, indices, discoveries, waiting)?;
    }
    Ok(())
}

/// The discovery with its low point, and with the cycles that its links to earlier ones close.
fn with_low_point(
    graph: &Graph,
    indices: &[Option<usize>],
    index: usize,
    discovery: Discovery,
) -> Discovery {
    let mut low = discovery.low;
    let mut links: usize = 0;
    for neighbour in graph.neighbours(discovery.event) {
        if let Some(Some(other)) = indices.get(*neighbour) {
            if *other < index {
                low = low.min(*other);
                links = links.saturating_add(1);
            }
        }
    }
    if discovery.parent.is_some() {
        links = links.saturating_sub(1);
    }
    Discovery {
        low,
        cycles: discovery.cycles.saturating_add(links),
        ..discovery
    }
}

/// Adds the results of a discovery to its parent.
fn tell_parent(discoveries: &mut [Discovery], discovery: Discovery) {
    if let Some(parent) = discovery.parent {
        if parent < discoveries.len() {
            let told = discoveries[parent];
            discoveries[parent] = Discovery {
                low: told.low.min(discovery.low),
                size: told.size.saturating_add(discovery.size),
                cycles: told.cycles.saturating_add(discovery.cycles),
                ..told
            };
        }
    }
}

/// Computes the low point of each discovery, in descending order.
fn find_low_points(graph: &Graph, indices: &[Option<usize>], discoveries: &mut [Discovery]) {
    for index in (0..discoveries.len()).rev() {
        let discovery = with_low_point(graph, indices, index, discoveries[index]);
        discoveries[index] = discovery;
        tell_parent(discoveries, discovery);
    }
}

/// The discoveries of a traversal of all nodes, which starts at `first`.
pub(crate) fn traverse(
    alloc: Global,
    graph: &Graph,
    first: usize,
) -> Result<Vec<Discovery>, Memory> {
    let Ok(mut indices) = vec![in alloc; None; graph.nodes()] else {
        return Err(Memory);
    };
    let mut discoveries = Vec::new(alloc);
    let mut waiting = Vec::new(alloc);
    traverse_from(graph, first, &mut indices, &mut discoveries, &mut waiting)?;
    for event in 0..graph.nodes() {
        traverse_from(graph, event, &mut indices, &mut discoveries, &mut waiting)?;
    }
    find_low_points(graph, &indices, &mut discoveries);
    Ok(discoveries)
}

/// The number of independent cycles.
pub(crate) fn cycles_of(discoveries: &[Discovery]) -> usize {
    let mut cycles: usize = 0;
    for discovery in discoveries {
        if discovery.parent.is_none() {
            cycles = cycles.saturating_add(discovery.cycles);
        }
    }
    cycles
}

impl Discovery {
    /// Whether the descendants are joined to earlier discoveries at one node at most, with cycles on both
    /// sides; `cycles` is the number of all cycles.
    ///
    /// Without cycles there is nothing to search: each arc has its least cost.
    fn is_apart(self, cycles: usize) -> bool {
        let hangs = match self.parent {
            Some(parent) => parent <= self.low,
            None => true,
        };
        hangs && 0 < self.cycles && self.cycles < cycles
    }
}

/// The events of the descendants, and the event that they are joined to. The origin comes after the events;
/// what is joined to it is joined to no event.
pub(crate) fn cut_at(
    alloc: Global,
    events: usize,
    discoveries: &[Discovery],
    index: usize,
    cycles: usize,
) -> Result<Option<Separation>, Memory>
    requires { index < length discoveries.now }
{
    let discovery = discoveries[index];
    if !discovery.is_apart(cycles) {
        return Ok(None);
    }
    let Ok(mut inner) = vec![in alloc; false; events] else {
        return Err(Memory);
    };
    let end = index.saturating_add(discovery.size).min(discoveries.len());
    for discovery in &discoveries[index..end] {
        if discovery.event < inner.len() {
            inner[discovery.event] = true;
        }
    }
    let joint = match discovery.parent {
        Some(parent) => discoveries.get(parent).map(|discovery| discovery.event),
        None => None,
    };
    Ok(Some(Separation {
        inner,
        joint: joint.filter(|joint| *joint < events),
    }))
}
