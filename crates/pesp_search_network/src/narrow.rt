//! Removing residues from domains.

ghost use Rattle.std.specs.Prelude.{◌<◌, ◌≤◌, IfSome};
ghost use Rattle.pesp_search_network.specs.Narrow.{IsNarrowed};
ghost use Rattle.pesp_search_network.specs.Only.{IsOnly};

use crate::Network;

impl Network {
    /// Removes the residues from `low` up to `high`, which is excluded, from the event's domain.
    pub(crate) fn forbid_from(&mut self, event: usize, low: u16, high: u16)
        requires event { event < self.old.events }
        requires low { low ≤ high }
        requires high { high ≤ self.old.period }
        ensures { IsNarrowed event low high self.old self.new }
    {
        for residue in low..high {
            self.forbid(event, residue);
        }
    }

    /// The residue of an event with a single one.
    pub(crate) fn only(&self, event: usize) -> Option<u16>
        requires { event < self.now.events }
        ensures { IfSome result (IsOnly self.now event) }
    {
        let mut only = None;
        for residue in 0..self.period().get() {
            if self.may_have(event, residue) {
                if only.is_some() {
                    return None;
                }
                only = Some(residue);
            }
        }
        only
    }
}
