//! How a network is reduced.

ghost use Rattle.std.specs.Prelude.{IfOk};
ghost use Rattle.pesp_search_network.specs.Reduced.{IsPresolved, IsReduction};

use crate::Network;
use crate::presolve::reduction::Reduction;
use pesp_base::Memory;
use std::alloc::Global;

impl Network {
    /// The trivial reduction: the network itself.
    fn itself(&self, alloc: Global) -> Result<Reduction, Memory>
        ensures { IfOk result (IsReduction self.now) }
    {
        let shifts = self.own_shifts(alloc)?;
        Ok(Reduction {
            network: self.copy()?,
            shifts,
            fixed: 0,
            factor: 1,
        })
    }

    /// A reduction of this network, or none if no map has a cost.
    pub fn presolve(&self, alloc: Global) -> Result<Option<Reduction>, Memory>
        ensures { IfOk result (IsPresolved self.now) }
    {
        match self.cluster(alloc)? {
            Some(reduction) => Ok(Some(reduction)),
            None => Ok(Some(self.itself(alloc)?)),
        }
    }
}
