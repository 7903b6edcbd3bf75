//! The domains of a reduced network: the residues that suit all events tied together.

ghost use Rattle.std.specs.Prelude.{◌≡◌, ℕ, ◌*◌, ◌<◌, true, length, replicate, slice_index_or};
ghost use Rattle.pesp_search_network.specs.Tied.{AreRowsHeld, IsHeldTo};
ghost use Rattle.pesp_search_network.specs.declared.presolve.shift.Shift.{Shift};

use crate::Network;
use crate::presolve::shift::{Shift, later};

impl Network {
    /// Restricts an event of a reduced network to residues that suit this event, which it represents.
    fn hold_to(&self, reduced: &mut Network, event: usize, shift: Shift)
        requires event { event < self.now.events }
        requires index { shift.index < reduced.old.events }
        requires period { reduced.old.period ≡ self.now.period }
        ensures { IsHeldTo self.now event shift self.now.period reduced.old reduced.new }
    {
        let period = self.period();
        for residue in 0..period.get() {
            if !self.may_have(event, later(period, residue, shift.offset)) {
                reduced.forbid(shift.index, residue);
            }
        }
    }

    /// Restricts each event of a reduced network, whose domains are full, to the residues that suit all events
    /// that it represents.
    pub(crate) fn hold_rows(&self, reduced: &mut Network, shifts: &[Shift])
        requires long { length shifts.now ≡ self.now.events }
        requires within { (event : ℕ) (d : Shift) → event < self.now.events
            → (slice_index_or shifts.now event d).index < reduced.old.events }
        requires period { reduced.old.period ≡ self.now.period }
        requires full { reduced.old.rows
            ≡ replicate (reduced.old.events * reduced.old.period) true }
        ensures held { AreRowsHeld self.now shifts.now self.now.events reduced.new }
        ensures period { reduced.new.period ≡ reduced.old.period }
        ensures events { reduced.new.events ≡ reduced.old.events }
        ensures arcs { reduced.new.arcs ≡ reduced.old.arcs }
    {
        for event in 0..self.events() {
            self.hold_to(reduced, event, shifts[event]);
        }
    }
}
