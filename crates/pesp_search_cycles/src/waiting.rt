//! Waiting nodes, which do not refer to their cycles.

ghost use Rattle.std.specs.Prelude.{◌≡◌, All, IfOk, Some};
ghost use Rattle.pesp_search_least.specs.Sums.{InSome, IsWithin};
ghost use Rattle.pesp_search_cycles.specs.Leaves.{sums_of};
ghost use Rattle.pesp_search_cycles.specs.Waiting.{IsWaiting, sums_in};

use crate::Cycles;
use crate::boxes::Boxes;
use crate::node::Node;
use crate::proposer::Proposer;
use pesp_base::Memory;
use std::alloc::Global;

/// A node whose cycles are kept elsewhere.
#[derive(Drop)]
pub(crate) struct Waiting {
    // Boxes of these cycles.
    pub(crate) boxes: Boxes,
    // A lower bound on the cost of its maps; none if it contains no map.
    pub(crate) bound: Option<u64>,
    // No proof relies on it.
    pub(crate) proposer: Proposer,
    // Whether its maps are polished.
    pub(crate) is_polished: bool,
}

impl Waiting {
    /// A node without a known bound.
    pub(crate) fn new(boxes: Boxes, proposer: Proposer) -> Waiting
        ensures boxes { result.boxes ≡ boxes }
        ensures bound { result.bound ≡ Some 0 }
    {
        Waiting {
            boxes,
            bound: Some(0),
            proposer,
            is_polished: false,
        }
    }
}

/// The same nodes without their cycles, in reverse order.
pub(crate) fn asleep<'a>(
    alloc: Global,
    cycles: &'a Cycles<'a>,
    nodes: Vec<Node<'a>>,
) -> Result<Vec<Waiting>, Memory>
    requires { All (λ n. n.cycles.now ≡ cycles.now) nodes.items }
    ensures waiting { IfOk result (λ waiting. All (IsWaiting cycles.now) waiting.items) }
    ensures there { IfOk result (λ waiting. IsWithin (InSome sums_of nodes.entry.items)
        (InSome (sums_in cycles.now) waiting.items)) }
    ensures back { IfOk result (λ waiting. IsWithin (InSome (sums_in cycles.now) waiting.items)
        (InSome sums_of nodes.entry.items)) }
{
    let mut rest = nodes;
    let mut waiting = Vec::new(alloc);
    'nodes: while let Some(node) = rest.pop() {
        if waiting.push(node.asleep()).is_err() {
            return Err(Memory);
        }
    }
    Ok(waiting)
}

/// The nodes of these cycles, in reverse order.
pub(crate) fn awake<'a>(
    alloc: Global,
    cycles: &'a Cycles<'a>,
    waiting: Vec<Waiting>,
) -> Result<Vec<Node<'a>>, Memory>
    requires { All (IsWaiting cycles.now) waiting.items }
    ensures same { IfOk result (λ nodes. All (λ n. n.cycles.now ≡ cycles.now) nodes.items) }
    ensures there { IfOk result (λ nodes. IsWithin (InSome (sums_in cycles.now) waiting.items)
        (InSome sums_of nodes.items)) }
    ensures back { IfOk result (λ nodes. IsWithin (InSome sums_of nodes.items)
        (InSome (sums_in cycles.now) waiting.items)) }
{
    let mut rest = waiting;
    let mut nodes = Vec::new(alloc);
    'nodes: while let Some(one) = rest.pop() {
        let node = Node::awake(alloc, cycles, one)?;
        if nodes.push(node).is_err() {
            return Err(Memory);
        }
    }
    Ok(nodes)
}
