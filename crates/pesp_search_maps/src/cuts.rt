//! A pass over the fundamental cuts of a spanning tree.

use crate::charge::Charge;
use crate::current::Current;
use crate::links::Link;
use crate::neighbourhood::Neighbourhood;
use crate::numbers::{NONE, append, number_at, put, refill};
use crate::tree::Tree;
use crate::turns::Turns;
use pesp_base::{Memory, Period};
use std::alloc::Global;

/// An arc between two subtrees. It leaves the cut when both subtrees become parts of one.
#[derive(Clone, Copy)]
struct Inner {
    // The node whose stop was visited later.
    node: usize,
    // The arc, as seen from this node.
    link: Link,
    // The residue of the node when the arc was recorded.
    begun: u16,
    // The next arc that becomes inner at the same stop; `NONE` after the last one.
    next: usize,
}

/// The state of a pass over the cuts of a tree.
///
/// Stops are visited in descending order. The charges of the turns of a subtree are the sum of those of the
/// subtrees right below, less those of arcs that became inner, plus those at its first node. So a pass visits
/// each arc four times and all turns once at each stop, instead of all arcs of each cut.
#[derive(Drop)]
pub(crate) struct Cuts {
    // The turns of the subtrees that wait for the one above; the last visited one is at the end.
    waiting: Vec<Turns>,
    // Turns to reuse instead of allocating new ones.
    spare: Vec<Turns>,
    // For each stop a stop above it, within the subtree that it is part of by now (union-find).
    tops: Vec<usize>,
    // For each stop the last arc that becomes inner there; `NONE` if there is none.
    lasts: Vec<usize>,
    // The arcs recorded in this pass.
    inner: Vec<Inner>,
}

impl Cuts {
    pub(crate) fn new(alloc: Global) -> Cuts {
        Cuts {
            waiting: Vec::new(alloc),
            spare: Vec::new(alloc),
            tops: Vec::new(alloc),
            lasts: Vec::new(alloc),
            inner: Vec::new(alloc),
        }
    }

    /// Turns each subtree of the tree by the best turn, and returns the change of the charge, which is never
    /// above 0.
    pub(crate) fn pass(
        &mut self,
        alloc: Global,
        current: &mut Current,
        hood: &Neighbourhood,
        tree: &Tree,
    ) -> Result<Charge, Memory> {
        let mut gain = Charge::NONE;
        self.begin(tree)?;
        for stop in (1..tree.len()).rev() {
            if tree.size(stop) == 1 {
                self.wait(alloc, current.period)?;
            }
            self.come_to(current, hood, tree, stop)?;
            self.join_inner(current, stop);
            gain.add(self.turn(current, tree, stop));
            self.leave(tree, stop)?;
        }
        Ok(gain)
    }

    fn begin(&mut self, tree: &Tree) -> Result<(), Memory> {
        refill(&mut self.lasts, tree.len(), NONE)?;
        self.waiting.clear();
        self.inner.clear();
        self.tops.clear();
        for stop in 0..tree.len() {
            append(&mut self.tops, stop)?;
        }
        Ok(())
    }

    /// Starts a subtree without charges.
    fn wait(&mut self, alloc: Global, period: Period) -> Result<(), Memory> {
        let turns = match self.spare.pop() {
            Some(mut turns) => {
                turns.clear();
                turns
            }
            None => Turns::new(alloc, period)?,
        };
        append(&mut self.waiting, turns)
    }

    /// Adds the charges of the arcs at the node of a stop.
    fn come_to(
        &mut self,
        current: &Current,
        hood: &Neighbourhood,
        tree: &Tree,
        stop: usize,
    ) -> Result<(), Memory> {
        let node = tree.node(stop);
        let end = stop.saturating_add(tree.size(stop));
        for link in current.links.links_at(node) {
            let other = tree.stop(hood.place(link.other));
            if other > stop && other < end {
                self.charge(
                    current,
                    link.other,
                    &link.reverse(current.period.get(), node),
                    -1,
                );
            } else {
                self.charge(current, node, link, 1);
            }
            if other >= end {
                self.note(current, tree, other, (node, link))?;
            }
        }
        Ok(())
    }

    /// Adds the charges of a link of a node, multiplied by `times`.
    fn charge(&mut self, current: &Current, node: usize, link: &Link, times: i64) {
        if let Some(turns) = self.waiting.last_mut() {
            turns.add(link, current.rise(node, link), times);
        }
    }

    /// Records an arc to a subtree that was already left, at the stop where both its nodes come into one
    /// subtree.
    fn note(
        &mut self,
        current: &Current,
        tree: &Tree,
        other: usize,
        end: (usize, &Link),
    ) -> Result<(), Memory> {
        let top = self.top_of(other);
        if tree.parent(top) == NONE {
            return Ok(());
        }
        let (node, link) = end;
        let inner = Inner {
            node,
            link: *link,
            begun: current.residue(node),
            next: number_at(&self.lasts, top, NONE),
        };
        put(&mut self.lasts, top, self.inner.len());
        append(&mut self.inner, inner)
    }

    /// The lowest stop above another one that was not yet left.
    fn top_of(&mut self, stop: usize) -> usize {
        let mut top = stop;
        for _step in 0..self.tops.len() {
            let above = number_at(&self.tops, top, top);
            if above == top {
                return top;
            }
            // Path halving: later look-ups take half as many steps.
            let next = number_at(&self.tops, above, above);
            put(&mut self.tops, top, next);
            top = next;
        }
        top
    }

    /// Subtracts the charges of the arcs that become inner at a stop.
    fn join_inner(&mut self, current: &Current, stop: usize) {
        let mut index = number_at(&self.lasts, stop, NONE);
        for _step in 0..self.inner.len() {
            let Some(inner) = self.inner.get(index) else {
                return;
            };
            let inner = *inner;
            let period = current.period.get();
            self.charge(current, inner.node, &inner.link, -1);
            let mirrored = inner.link.reverse(period, inner.node);
            // The charge at the other node was added before this one was turned, so it needs the residue of
            // that time.
            let rise = mirrored.rise(period, current.residue(inner.link.other), inner.begun);
            if let Some(turns) = self.waiting.last_mut() {
                turns.add(&mirrored, rise, -1);
            }
            index = inner.next;
        }
    }

    /// Turns the subtree of a stop by the best turn. No arc leaves a whole tree, so its first stop is not
    /// turned.
    fn turn(&mut self, current: &mut Current, tree: &Tree, stop: usize) -> Charge {
        if tree.parent(stop) == NONE {
            return Charge::NONE;
        }
        let Some(turns) = self.waiting.last_mut() else {
            return Charge::NONE;
        };
        let (turn, charge) = turns.best();
        if turn != 0 {
            current.turn(tree.nodes_from(stop), turn);
            turns.rotate(turn);
        }
        charge
    }

    /// Adds the charges of a subtree to those of the subtree above.
    fn leave(&mut self, tree: &Tree, stop: usize) -> Result<(), Memory> {
        let above = tree.parent(stop);
        if above != NONE {
            put(&mut self.tops, stop, above);
        }
        let end = stop.saturating_add(tree.size(stop));
        let is_first = end == above.saturating_add(tree.size(above));
        if above != 0 && above != NONE && is_first {
            return Ok(());
        }
        let Some(turns) = self.waiting.pop() else {
            return Ok(());
        };
        if let (true, Some(sum)) = (above != 0 && above != NONE, self.waiting.last_mut()) {
            sum.add_all(&turns);
        }
        append(&mut self.spare, turns)
    }
}
