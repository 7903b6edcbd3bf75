//! A keeper that counts pushes.

use pesp_base::{EventId, Refusal};
use pesp_counts::CountKeeper;
use pesp_domains::{Keeper, NoRoom, Row};
use pesp_instance::{Edit, Instance};
use std::alloc::Global;

/// A keeper, and the number of its pushes, popped ones included. The number saturates.
#[derive(Drop)]
pub(crate) struct Counting {
    // The keeper whose pushes are counted.
    pub(crate) keeper: CountKeeper,
    // The number of pushes, popped ones included. It saturates.
    pub(crate) pushed: u64,
}

impl Keeper for Counting {
    ghost network = { λ counting. counting.keeper.network };

    ghost pushes = { λ counting. counting.keeper.pushes };

    ghost push_count = { λ counting. counting.keeper.push_count };

    fn from_instance(alloc: Global, instance: Instance) -> Result<Counting, NoRoom> {
        let keeper = CountKeeper::from_instance(alloc, instance)?;
        Ok(Counting { keeper, pushed: 0 })
    }

    fn instance(&self) -> &Instance {
        self.keeper.instance()
    }

    fn holds(&self, event: EventId, residue: u16) -> bool {
        self.keeper.holds(event, residue)
    }

    fn row(&self, event: EventId) -> Option<&Row> {
        self.keeper.row(event)
    }

    fn apply(&mut self, edit: &Edit) -> Result<(), Refusal> {
        self.keeper.apply(edit)
    }

    fn push_fix(&mut self, event: EventId, residue: u16) {
        self.pushed = self.pushed.saturating_add(1);
        self.keeper.push_fix(event, residue);
    }

    fn pop_fix(&mut self) {
        self.keeper.pop_fix();
    }
}
