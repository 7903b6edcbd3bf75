//! Nodes searched for leaves: those of a whole network, those of a part, or leaves to resume.

ghost use Rattle.std.specs.Prelude.{◌≡◌, ℕ, ◌+◌, ◌++◌, ◌∷◌, ◌^◌, ◌<◌, [], All, IfOk, IfSome, List, OnOk, length};
ghost use Rattle.pesp_search_least.specs.Spending.{OnlySpends};
ghost use Rattle.pesp_search_least.specs.Sums.{InSome, IsCut, IsLowerBound, IsWithin};
ghost use Rattle.pesp_search_cycles.specs.Leaves.{IsNext, sums_of};
ghost use Rattle.pesp_search_cycles.specs.Maps.{AreBoxes, IsAmong, IsSummed};
ghost use Rattle.pesp_search_cycles.specs.Starts.{IsInBoxes};

use crate::leaves::{Leaves, most_of};
use crate::node::Node;
use crate::parts::Part;
use crate::proposer::Proposer;
use crate::spent::spent_of;
use crate::starts::Starts;
use crate::waiting::Waiting;
use crate::{Cycles, Range};
use pesp_base::Memory;
use pesp_search_least::{Budget, Limits, Relaxation};
use std::alloc::Global;

/// The units that leaves of all maps may take before they are sought part by part. A region of six lines with
/// eight times fixed takes 70 to 230, one of eight lines up to 500 (docs/HISTORY.md, "Fixed times, searched at
/// once before parts").
const UNITS_AT_ONCE: u64 = 1_000;

/// The result for a node.
#[derive(Drop)]
pub(crate) enum Next<'a> {
    /// All of its maps cost too much.
    Nothing,
    /// The node is a leaf.
    Leaf,
    /// The node is now one half, and this is the other.
    Halves(Node<'a>),
}

/// Nodes to search.
#[derive(Drop)]
pub(crate) struct Open<'a> {
    // The network of all nodes.
    cycles: &'a Cycles<'a>,
    // The last one is searched first.
    nodes: Vec<Node<'a>>,
}

/// Searches one node, unless the search is over. The node becomes a leaf if the search is over, if its bound
/// reaches the floor and a map is available, or if it cannot be split.
fn go_on<'a>(
    alloc: Global,
    node: &mut Node<'a>,
    limits: Limits,
    is_over: bool,
    budget: &mut Budget,
) -> Result<Next<'a>, Memory>
    ensures cycles { node.new.cycles ≡ node.old.cycles }
    ensures next { IfOk result (IsNext limits.cap node.old node.new) }
    ensures budget { OnlySpends budget.old.left budget.new.left }
{
    if is_over {
        return Ok(Next::Leaf);
    }
    budget.spend(1);
    node.solve(limits.cap, budget);
    let Some(bound) = node.bound() else {
        return Ok(Next::Nothing);
    };
    if limits.cap <= bound {
        return Ok(Next::Nothing);
    }
    if limits.floor <= bound && node.is_settled(alloc)? {
        return Ok(Next::Leaf);
    }
    match node.halves()? {
        Some(other) => Ok(Next::Halves(other)),
        None => Ok(Next::Leaf),
    }
}

/// Pushes both halves, the first one on top.
fn push_halves<'a>(
    nodes: &mut Vec<Node<'a>>,
    first: Node<'a>,
    second: Node<'a>,
) -> Result<(), Memory>
    ensures { OnOk result (nodes.new.items ≡ (nodes.old.items ++ second.entry ∷ []) ++ first.entry ∷ []) }
{
    if nodes.push(second).is_err() || nodes.push(first).is_err() {
        return Err(Memory);
    }
    Ok(())
}

/// The node of all maps with these residues, with only the walks of one part if one is given.
pub(crate) fn whole<'a>(
    alloc: Global,
    cycles: &'a Cycles<'a>,
    residues: &[Range],
    part: Option<Part>,
) -> Result<Node<'a>, Memory>
    requires { length residues.now ≡ cycles.now.network.events }
    ensures cycles { IfOk result (λ node. node.cycles.now ≡ cycles.now) }
    ensures all { IfOk result (λ node. IsWithin (IsAmong cycles.now.network residues.now)
        (IsSummed cycles.now node.boxes)) }
    ensures within { IfOk result (λ node. IsWithin (IsSummed cycles.now node.boxes)
        (IsAmong cycles.now.network residues.now)) }
{
    let proposer = Proposer::of(alloc, cycles, part)?;
    match Node::among(alloc, cycles, residues, proposer, part.is_none())? {
        Some(node) => Ok(node),
        None => Err(Memory),
    }
}

impl<'a> Open<'a> {
    /// The nodes of all maps with these residues, one for each of the boxes.
    pub(crate) fn at(
        alloc: Global,
        starts: &Starts<'a>,
        residues: &[Range],
    ) -> Result<Open<'a>, Memory>
        requires long { length residues.now ≡ starts.now.cycles.now.network.events }
        ensures cycles { IfOk result (λ stack. stack.cycles.now ≡ starts.now.cycles.now) }
        ensures same { IfOk result (λ stack. All (λ n. n.cycles.now ≡ stack.cycles.now) stack.nodes.items) }
        ensures all { IfOk result (λ stack. (xs : List ℕ) (sum : ℕ)
            → IsAmong starts.now.cycles.now.network residues.now xs sum
            → InSome (IsInBoxes starts.now.cycles.now) starts.now.boxes.items xs sum
            → InSome sums_of stack.nodes.items xs sum) }
        ensures within { IfOk result (λ stack. IsWithin (InSome sums_of stack.nodes.items)
            (IsAmong starts.now.cycles.now.network residues.now)) }
    {
        let cycles = starts.cycles;
        let mut nodes = Vec::new(alloc);
        for index in 0..starts.boxes.len() {
            let root = whole(alloc, cycles, residues, None)?;
            if nodes.push(root.narrowed(&starts.boxes[index])).is_err() {
                return Err(Memory);
            }
        }
        Ok(Open { cycles, nodes })
    }

    /// The nodes of leaves to resume.
    pub(crate) fn again(
        alloc: Global,
        cycles: &'a Cycles<'a>,
        leaves: Leaves,
    ) -> Result<Open<'a>, Memory>
        requires { All (AreBoxes cycles.now) leaves.boxes.items }
        ensures cycles { IfOk result (λ stack. stack.cycles.now ≡ cycles.now) }
        ensures same { IfOk result (λ stack. All (λ n. n.cycles.now ≡ cycles.now) stack.nodes.items) }
        ensures there { IfOk result (λ stack. IsWithin (InSome (IsSummed cycles.now) leaves.boxes.items)
            (InSome sums_of stack.nodes.items)) }
        ensures back { IfOk result (λ stack. IsWithin (InSome sums_of stack.nodes.items)
            (InSome (IsSummed cycles.now) leaves.boxes.items)) }
    {
        let Leaves {
            boxes: mut rest,
            mut proposers,
            ..
        } = leaves;
        let mut nodes = Vec::new(alloc);
        'leaves: while let Some(boxes) = rest.pop() {
            let proposer = match proposers.pop() {
                Some(proposer) => proposer,
                None => Proposer::new(alloc, cycles)?,
            };
            let node = Node::awake(alloc, cycles, Waiting::new(boxes, proposer))?;
            if nodes.push(node).is_err() {
                return Err(Memory);
            }
        }
        Ok(Open { cycles, nodes })
    }
}

/// The leaves of nodes that may contain maps below the cap. Stops after `most` leaves and one more, or when the
/// budget is empty, and then adds all open nodes.
fn leaves_below<'a>(
    alloc: Global,
    stack: Open<'a>,
    limits: Limits,
    most: usize,
    budget: &mut Budget,
) -> Result<Leaves, Memory>
    requires same { All (λ n. n.cycles.now ≡ stack.cycles.now) stack.nodes.items }
    ensures cut { IfOk result (λ leaves. IsCut limits.cap (InSome sums_of stack.entry.nodes.items)
        (InSome (IsSummed stack.entry.cycles.now) leaves.boxes.items)) }
    ensures fit { IfOk result (λ leaves. All (AreBoxes stack.entry.cycles.now) leaves.boxes.items) }
    ensures least { IfOk result (λ leaves. IsLowerBound (InSome sums_of stack.entry.nodes.items) leaves.least) }
    ensures budget { OnlySpends budget.old.left budget.new.left }
{
    let mut leaves = Leaves::new(alloc, limits.cap);
    let mut nodes = stack.nodes;
    'nodes: while let Some(mut node) = nodes.pop() {
        let is_over = budget.is_spent() || most < leaves.boxes.len();
        match go_on(alloc, &mut node, limits, is_over, budget)? {
            Next::Nothing => {}
            Next::Leaf => leaves.push(node)?,
            Next::Halves(other) => push_halves(&mut nodes, node, other)?,
        }
    }
    Ok(leaves)
}

/// Boxes that contain each map with these residues that costs at most `cost`, with a lower bound on the costs
/// of all maps with these residues. Only the walks of one part are used if one is given.
pub(crate) fn leaves_of_part<'a>(
    alloc: Global,
    cycles: &'a Cycles<'a>,
    residues: &[Range],
    part: Option<Part>,
    cost: u64,
    budget: &mut Budget,
) -> Result<Leaves, Memory>
    requires long { length residues.now ≡ cycles.now.network.events }
    requires room { cost + 1 < 2 ^ 64 }
    ensures cut { IfOk result (λ leaves. IsCut (cost + 1) (IsAmong cycles.now.network residues.now)
        (InSome (IsSummed cycles.now) leaves.boxes.items)) }
    ensures fit { IfOk result (λ leaves. All (AreBoxes cycles.now) leaves.boxes.items) }
    ensures least { IfOk result (λ leaves. IsLowerBound (IsAmong cycles.now.network residues.now) leaves.least) }
    ensures budget { OnlySpends budget.old.left budget.new.left }
{
    let root = whole(alloc, cycles, residues, part)?;
    let most = most_of(root.entries());
    let limits = Limits {
        floor: cost,
        cap: cost + 1,
    };
    let mut nodes = Vec::new(alloc);
    if nodes.push(root).is_err() {
        return Err(Memory);
    }
    let stack = Open { cycles, nodes };
    let leaves = leaves_below(alloc, stack, limits, most, budget)?;
    Ok(leaves)
}

/// A few boxes that contain each map with these residues that costs at most `cost`; none if they are not found
/// soon, or if some map may cost less.
pub(crate) fn leaves_at_once<'a>(
    alloc: Global,
    cycles: &'a Cycles<'a>,
    residues: &[Range],
    cost: u64,
    budget: &mut Budget,
) -> Result<Option<Leaves>, Memory>
    requires long { length residues.now ≡ cycles.now.network.events }
    requires room { cost + 1 < 2 ^ 64 }
    ensures cut { IfOk result (λ found. IfSome found (λ leaves. IsCut (cost + 1)
        (IsAmong cycles.now.network residues.now) (InSome (IsSummed cycles.now) leaves.boxes.items))) }
    ensures fit { IfOk result (λ found. IfSome found (λ leaves. All (AreBoxes cycles.now) leaves.boxes.items)) }
    ensures budget { OnlySpends budget.old.left budget.new.left }
{
    let mut own = budget.part(UNITS_AT_ONCE);
    let given = own.left;
    let leaves = leaves_of_part(alloc, cycles, residues, None, cost, &mut own)?;
    budget.spend(spent_of(given, own.left));
    if own.is_spent() || leaves.least < cost || !leaves.are_few() {
        return Ok(None);
    }
    Ok(Some(leaves))
}

/// Boxes that contain each map with these residues that costs at most `cost`, if the nodes contain these. Too
/// many leaves are replaced by the root alone, unless the budget ran out.
pub(crate) fn leaves_of<'a>(
    alloc: Global,
    stack: Open<'a>,
    residues: &[Range],
    cost: u64,
    budget: &mut Budget,
) -> Result<Leaves, Memory>
    requires long { length residues.now ≡ stack.cycles.now.network.events }
    requires room { cost + 1 < 2 ^ 64 }
    requires same { All (λ n. n.cycles.now ≡ stack.cycles.now) stack.nodes.items }
    requires cut { IsCut (cost + 1) (IsAmong stack.cycles.now.network residues.now)
        (InSome sums_of stack.nodes.items) }
    ensures cut { IfOk result (λ leaves. IsCut (cost + 1) (IsAmong stack.entry.cycles.now.network residues.now)
        (InSome (IsSummed stack.entry.cycles.now) leaves.boxes.items)) }
    ensures fit { IfOk result (λ leaves. All (AreBoxes stack.entry.cycles.now) leaves.boxes.items) }
    ensures budget { OnlySpends budget.old.left budget.new.left }
{
    let root = whole(alloc, stack.cycles, residues, None)?;
    let most = most_of(root.entries());
    let limits = Limits {
        floor: cost,
        cap: cost + 1,
    };
    let leaves = leaves_below(alloc, stack, limits, most, budget)?;
    let is_few = leaves.boxes.len() <= most || budget.is_spent();
    if is_few {
        return Ok(leaves);
    }
    let mut leaves = Leaves::new(alloc, 0);
    leaves.push(root)?;
    Ok(leaves)
}
