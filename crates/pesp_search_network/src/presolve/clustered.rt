//! Networks in which tied events are merged.

ghost use Rattle.std.specs.Prelude.{◌≡◌, IfOk, IfSome};
ghost use Rattle.pesp_search_network.specs.Reduced.{IsReduction};

use crate::Network;
use crate::presolve::clusters::{Clusters, are_ascending};
use crate::presolve::reduction::Reduction;
use crate::presolve::shift::Shift;
use pesp_base::Memory;
use std::alloc::Global;

impl Network {
    /// Marks the reduced network's events as implied if all their tied events are.
    fn imply_clusters(
        &self,
        alloc: Global,
        reduced: &mut Network,
        shifts: &[Shift],
    ) -> Result<(), Memory>
        ensures { reduced.new ≡ reduced.old }
    {
        let Ok(mut are_implied) = vec![in alloc; true; reduced.events()] else {
            return Err(Memory);
        };
        for (event, shift) in shifts.iter().enumerate() {
            if !self.is_implied(event) {
                if let Some(is_implied) = are_implied.get_mut(shift.index) {
                    *is_implied = false;
                }
            }
        }
        for (index, is_implied) in are_implied.iter().enumerate() {
            if *is_implied {
                reduced.imply(index);
            }
        }
        Ok(())
    }

    /// A network with one event for each cluster, if some cluster has several events.
    pub(crate) fn cluster(&self, alloc: Global) -> Result<Option<Reduction>, Memory>
        ensures { IfOk result (λ found. IfSome found (IsReduction self.now)) }
    {
        self.sound();
        let ties = self.ties(alloc)?;
        let Clusters { leaders, shifts } = self.clusters(alloc, &ties)?;
        if leaders.len() == self.events() || !are_ascending(&shifts) {
            return Ok(None);
        }
        let mut network = Network::new(alloc, self.period(), leaders.len())?;
        self.hold_rows(&mut network, &shifts);
        if !self.move_arcs(&mut network, &shifts)? {
            return Ok(None);
        }
        self.imply_clusters(alloc, &mut network, &shifts)?;
        Ok(Some(Reduction {
            network,
            shifts,
            fixed: 0,
            factor: 1,
        }))
    }
}
