//! Clusters of tied events, each led by its first one.

ghost use Rattle.std.specs.Prelude.{◌≡◌, ◌+◌, ◌++◌, ◌∷◌, [], ◌<◌, true, IfOk, OnOk, length, vec_len};
ghost use Rattle.pesp_search_network.specs.Tied.{AreAscending, AreLed, AreTied, IsTied};

use crate::Network;
use crate::presolve::shift::{Shift, later};
use pesp_base::Memory;
use std::alloc::Global;

/// The leaders in ascending order, and the cluster of each event.
#[derive(Drop)]
pub(crate) struct Clusters {
    // For each cluster its leader, ascending.
    pub(crate) leaders: Vec<usize>,
    // For each event its cluster and offset.
    pub(crate) shifts: Vec<Shift>,
}

/// Whether each event belongs to a cluster of an event before it, or to the next new one.
pub(crate) fn are_ascending(shifts: &[Shift]) -> bool
    ensures { result ≡ true → AreAscending 0 shifts.now }
{
    let mut seen = 0;
    for shift in shifts {
        if shift.index >= seen {
            if shift.index > seen || shift.offset > 0 {
                return false;
            }
            seen += 1;
        }
    }
    true
}

impl Clusters {
    /// Appends the cluster of the next event.
    fn put(&mut self, shift: Shift) -> Result<(), Memory>
        ensures shifts { OnOk result (self.new.shifts.items ≡ self.old.shifts.items ++ shift ∷ []) }
        ensures leaders { self.new.leaders.items ≡ self.old.leaders.items }
        ensures count { OnOk result (vec_len self.new.shifts ≡ vec_len self.old.shifts + 1) }
    {
        if self.shifts.push(shift).is_err() {
            return Err(Memory);
        }
        Ok(())
    }
}

impl Network {
    /// Puts the next event into the cluster of the event that it is tied to, or makes it a leader.
    fn follow(&self, clusters: &mut Clusters, tie: Shift) -> Result<(), Memory>
        requires led { AreLed self.now (vec_len clusters.old.shifts) clusters.old.leaders.items clusters.old.shifts.items }
        requires event { vec_len clusters.old.shifts < self.now.events }
        requires tied { IsTied self.now (vec_len clusters.old.shifts) tie }
        ensures led { OnOk result
            (AreLed self.now (vec_len clusters.old.shifts + 1) clusters.new.leaders.items clusters.new.shifts.items) }
        ensures count { OnOk result (vec_len clusters.new.shifts ≡ vec_len clusters.old.shifts + 1) }
    {
        let event = clusters.shifts.len();
        if tie.index < event {
            let led = clusters.shifts[tie.index];
            let offset = later(self.period(), led.offset, tie.offset);
            return clusters.put(Shift { offset, ..led });
        }
        let index = clusters.leaders.len();
        if clusters.leaders.push(event).is_err() {
            return Err(Memory);
        }
        clusters.put(Shift { index, offset: 0 })
    }

    /// The clusters of tied events.
    pub(crate) fn clusters(&self, alloc: Global, ties: &[Shift]) -> Result<Clusters, Memory>
        requires { AreTied self.now ties.now }
        ensures { IfOk result (λ clusters.
            AreLed self.now self.now.events clusters.leaders.items clusters.shifts.items) }
    {
        let mut clusters = Clusters {
            leaders: Vec::new(alloc),
            shifts: Vec::new(alloc),
        };
        for event in 0..self.events() {
            self.follow(&mut clusters, ties[event])?;
        }
        Ok(clusters)
    }
}
