//! Pieces of a network that can be solved separately.

ghost use Rattle.std.specs.Prelude.{◌≡◌, ℕ, ◌<◌, true, IfOk, IfSome, IsTrue};
ghost use Rattle.pesp_search_network.specs.Arcs.{IsBetween};
ghost use Rattle.pesp_search_network.specs.Pieces.{IsEnd, IsFree, IsPeeled, IsPiece, MayTurn, StaysIn, is_inner};

use crate::separation::Separation;
use crate::traversal::{cut_at, cycles_of, traverse};
use crate::{Arc, Network};
use pesp_base::Memory;
use std::alloc::Global;

/// A network divided in two: a piece, and the rest.
#[derive(Drop)]
pub(crate) struct Peeled {
    // All events, and the arcs with an end in the piece. Events outside keep one residue.
    pub(crate) piece: Network,
    // All events, and the other arcs. Events of the piece keep one residue.
    pub(crate) rest: Network,
    // The events of the piece; `is_piece` accepted it.
    pub(crate) cut: Separation,
}

impl Network {
    /// Whether the event's domain is full.
    fn is_free(&self, event: usize) -> bool
        requires { event < self.now.events }
        ensures { result ≡ true → IsFree self.now event }
    {
        for residue in 0..self.period().get() {
            if !self.may_have(event, residue) {
                return false;
            }
        }
        true
    }

    /// Whether an arc of the piece may end at the event.
    fn is_end(&self, cut: &Separation, event: usize) -> bool
        requires { event < self.now.events }
        ensures { result ≡ true → IsEnd self.now cut.now.inner.items cut.now.joint event }
    {
        if cut.has(event) {
            return true;
        }
        match cut.joint {
            Some(joint) => event == joint,
            None => self.only(event).is_some(),
        }
    }

    /// Whether all events of the piece have full domains.
    fn are_free(&self, cut: &Separation) -> bool
        ensures { result ≡ true → (v : ℕ) → v < self.now.events
            → IsTrue (is_inner cut.now.inner.items v) → IsFree self.now v }
    {
        for event in 0..self.events() {
            if cut.has(event) && !self.is_free(event) {
                return false;
            }
        }
        true
    }

    /// Whether maps of the piece may be turned, which a piece joined to an event requires.
    fn may_turn(&self, cut: &Separation) -> bool
        ensures { result ≡ true → MayTurn self.now cut.now.inner.items cut.now.joint }
    {
        match cut.joint {
            Some(joint) => joint < self.events() && !cut.has(joint) && self.are_free(cut),
            None => true,
        }
    }

    /// Whether both ends of an arc are where those of the piece may be, if the arc has an end in the piece.
    fn stays(&self, cut: &Separation, arc: &Arc) -> bool
        requires { IsBetween self.now.events arc.now }
        ensures { result ≡ true → StaysIn self.now cut.now.inner.items cut.now.joint arc.now }
    {
        !cut.touches(arc) || (self.is_end(cut, arc.from) && self.is_end(cut, arc.to))
    }

    /// Whether the cost of the piece does not depend on the rest.
    fn is_piece(&self, cut: &Separation) -> bool
        ensures { result ≡ true → IsPiece self.now cut.now.inner.items cut.now.joint }
    {
        if !self.may_turn(cut) {
            return false;
        }
        for index in 0..self.arc_count() {
            if !self.stays(cut, &self.arc(index)) {
                return false;
            }
        }
        true
    }

    /// The cut of a piece, if one is found.
    fn cut(&self, alloc: Global) -> Result<Option<Separation>, Memory>
        ensures { IfOk result (λ found.
            IfSome found (λ cut. IsPiece self.now cut.inner.items cut.joint)) }
    {
        let graph = self.links(alloc)?;
        let discoveries = traverse(alloc, &graph, self.events())?;
        let cycles = cycles_of(&discoveries);
        for index in (0..discoveries.len()).rev() {
            if let Some(cut) = cut_at(alloc, self.events(), &discoveries, index, cycles)? {
                if self.is_piece(&cut) {
                    return Ok(Some(cut));
                }
            }
        }
        Ok(None)
    }

    /// Peels off a piece, if one is found.
    pub(crate) fn peel(&self, alloc: Global) -> Result<Option<Peeled>, Memory>
        ensures { IfOk result (λ found. IfSome found (λ peeled.
            IsPeeled self.now peeled.piece peeled.rest peeled.cut.inner.items peeled.cut.joint)) }
    {
        let Some(cut) = self.cut(alloc)? else {
            return Ok(None);
        };
        let piece = self.share(alloc, &cut, true)?;
        let rest = self.share(alloc, &cut, false)?;
        Ok(Some(Peeled { piece, rest, cut }))
    }
}
