//! Ties: events whose difference is the same in each map, because arcs of width 0 join them.

ghost use Rattle.std.specs.Prelude.{◌<◌, IfOk, length};
ghost use Rattle.pesp_search_network.specs.Tied.{AreTied, AreUntied};

use crate::Network;
use crate::presolve::shift::{Shift, later};
use pesp_base::{Memory, slack};
use std::alloc::Global;

/// The most passes over all arcs. It bounds the work on long chains of ties in no order; ties that more passes
/// would find stay apart (docs/DECISIONS.md, "A search by cycles").
const MOST_PASSES: u32 = 64;

impl Network {
    /// Ties each event to itself.
    pub(crate) fn own_shifts(&self, alloc: Global) -> Result<Vec<Shift>, Memory>
        ensures untied { IfOk result (λ ties. AreUntied self.now.events ties.items) }
        ensures tied { IfOk result (λ ties. AreTied self.now ties.items) }
    {
        let mut ties = Vec::new(alloc);
        for index in 0..self.events() {
            let tie = Shift { index, offset: 0 };
            if ties.push(tie).is_err() {
                return Err(Memory);
            }
        }
        Ok(ties)
    }

    /// If the arc has width 0, ties its end with the later representative to that of the other end.
    fn tie(&self, ties: &mut [Shift], index: usize)
        requires index { index < length self.now.arcs }
        requires ties { AreTied self.now ties.old }
        ensures { AreTied self.now ties.new }
    {
        let period = self.period();
        let arc = self.arc(index);
        if arc.width(period) > 0 {
            return;
        }
        let back = slack(period, arc.span, 0, 0);
        let forth = period.get() - back;
        let from = ties[arc.from];
        let to = ties[arc.to];
        if from.index < to.index {
            let offset = later(period, from.offset, forth);
            ties[arc.to] = Shift { offset, ..from };
        } else if to.index < from.index {
            let offset = later(period, to.offset, back);
            ties[arc.from] = Shift { offset, ..to };
        }
    }

    /// Applies `tie` to all arcs, in order.
    fn tie_forwards(&self, ties: &mut [Shift])
        requires { AreTied self.now ties.old }
        ensures { AreTied self.now ties.new }
    {
        for index in 0..self.arc_count() {
            self.tie(ties, index);
        }
    }

    /// Applies `tie` to all arcs, in reverse order.
    fn tie_backwards(&self, ties: &mut [Shift])
        requires { AreTied self.now ties.old }
        ensures { AreTied self.now ties.new }
    {
        for index in (0..self.arc_count()).rev() {
            self.tie(ties, index);
        }
    }

    /// The representative and the offset of each event.
    pub(crate) fn ties(&self, alloc: Global) -> Result<Vec<Shift>, Memory>
        ensures { IfOk result (λ ties. AreTied self.now ties.items) }
    {
        let mut ties = self.own_shifts(alloc)?;
        for _pass in 0..MOST_PASSES {
            let Ok(before) = ties.clone() else {
                return Err(Memory);
            };
            self.tie_forwards(&mut ties);
            self.tie_backwards(&mut ties);
            if before == ties {
                break;
            }
        }
        Ok(ties)
    }
}
