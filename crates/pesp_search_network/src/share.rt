//! The networks of a piece and of the rest.

ghost use Rattle.std.specs.Prelude.{◌≡◌, ℕ, ◌<◌, false, IfOk, IsTrue, MatchOption};
ghost use Rattle.pesp_search_network.specs.Arcs.{has};
ghost use Rattle.pesp_search_network.specs.Narrow.{IsHeldFirst};
ghost use Rattle.pesp_search_network.specs.Pieces.{IsShare, IsThinned};

use crate::Network;
use crate::separation::Separation;
use pesp_base::Memory;
use std::alloc::Global;

impl Network {
    /// The first residue of the event's domain.
    pub(crate) fn first_residue(&self, event: usize) -> Option<u16>
        requires { event < self.now.events }
        ensures { MatchOption result
            ((r : ℕ) → r < self.now.period → has self.now event r ≡ false)
            (λ r. (r < self.now.period) × IsTrue (has self.now event r)) }
    {
        for residue in 0..self.period().get() {
            if self.may_have(event, residue) {
                return Some(residue);
            }
        }
        None
    }

    /// Restricts the event's domain to its first residue, if it has one.
    fn hold_first(&mut self, event: usize)
        requires { event < self.old.events }
        ensures { IsHeldFirst event self.old self.new }
    {
        if let Some(first) = self.first_residue(event) {
            let period = self.period().get();
            self.forbid_from(event, 0, first);
            self.forbid_from(event, first + 1, period);
        }
    }

    /// Restricts each event on the other side of the cut to its first residue.
    fn thin(&mut self, cut: &Separation, side: bool)
        ensures { IsThinned cut.now.inner.items side self.old self.new }
    {
        for event in 0..self.events() {
            if cut.has(event) != side {
                self.hold_first(event);
            }
        }
    }

    /// The arcs on this side of the cut. Events of the other side keep one residue.
    pub(crate) fn share(
        &self,
        alloc: Global,
        cut: &Separation,
        side: bool,
    ) -> Result<Network, Memory>
        ensures { IfOk result (IsShare cut.now.inner.items side self.now) }
    {
        let mut share = self.with_arcs_of(alloc, cut, side)?;
        share.thin(cut, side);
        Ok(share)
    }
}
