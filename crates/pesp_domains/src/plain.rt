//! The keeper that sweeps over all activities until nothing is removed: arc consistency by AC-1.

ghost use Rattle.std.specs.Prelude.{◌≡◌, ◌≤◌, ℕ, [], IfOk, OnOk, OnErr, length, vec_capacity, Ok, Err, Some, true, replicate};
ghost use Rattle.pesp_domains.specs.Rows.{AreRowsOf, SetsRow};

use crate::rows::Rows;
use crate::sweep::{remake, settle};
use crate::{Keeper, NoRoom, Pair, Row};
use pesp_base::{EventId, Refusal};
use pesp_instance::{Edit, Instance};
use std::alloc::{AllocError, Global};
use std::marker::Model;

/// Keeps the domains by repeated sweeps over all activities.
///
/// It is slow, for reading and for comparison: an edit and a pop restart from full rows. A push
/// continues from the present ones.
#[derive(Drop)]
pub struct PlainKeeper {
    // The instance that the rows are the domains of.
    instance: Instance,
    // No event occurs twice. There is room for as many as there are events.
    pushed: Vec<Pair>,
    // The domains under the pushed pairs.
    rows: Rows,
    // The number of pushes, popped ones included. It saturates.
    push_count: u64,
}

impl Model for PlainKeeper {
    ghost use Rattle.std.specs.Prelude.{vec_capacity};
    ghost use Rattle.pesp_domains.specs.Kept.{Kept, IsKept};

    ghost Value = { Kept };

    ghost view = { λ k. record {
      network = k.instance;
      pushes = k.pushed.items;
      push_count = k.push_count;
    } };

    ghost invariant = { λ k. IsKept k.instance k.pushed.items k.rows (vec_capacity k.pushed) };
}

/// A row for each event.
fn rows_of(alloc: Global, instance: &Instance) -> Result<Rows, AllocError>
    ensures { IfOk result (λ rows. AreRowsOf instance.now rows) }
{
    let mut rows = Rows::new(alloc);
    for event in instance.events() {
        rows.insert(event.id, instance.period())?;
    }
    Ok(rows)
}

/// Reserves room for a pushed pair for each event, and makes a row for a new one. If memory runs
/// out, no row changes.
fn make_room(
    pushed: &mut Vec<Pair>,
    rows: &mut Rows,
    instance: &Instance,
    event: EventId,
) -> Result<(), AllocError>
    requires { pushed.old.items ≡ [] }
    ensures room { OnOk result (length instance.now.events ≤ vec_capacity pushed.new) }
    ensures row { OnOk result (SetsRow event (Some (replicate instance.now.period true)) rows.old
        rows.new) }
    ensures pushed { pushed.new.items ≡ [] }
    ensures capacity { vec_capacity pushed.old ≤ vec_capacity pushed.new }
    ensures err { OnErr result (rows.new ≡ rows.old) }
{
    pushed.reserve(instance.event_count())?;
    rows.insert(event, instance.period())
}

impl Keeper for PlainKeeper {
    ghost network = { λ keeper. keeper.network };

    ghost pushes = { λ keeper. keeper.pushes };

    ghost push_count = { λ keeper. keeper.push_count };

    fn from_instance(alloc: Global, instance: Instance) -> Result<PlainKeeper, NoRoom> {
        let Ok(pushed) = Vec::with_capacity(alloc, instance.event_count()) else {
            return Err(NoRoom { instance });
        };
        let Ok(mut rows) = rows_of(alloc, &instance) else {
            return Err(NoRoom { instance });
        };
        remake(&instance, &pushed, &mut rows);
        Ok(PlainKeeper {
            instance,
            pushed,
            rows,
            push_count: 0,
        })
    }

    fn instance(&self) -> &Instance {
        &self.instance
    }

    fn holds(&self, event: EventId, residue: u16) -> bool {
        self.rows.holds(event, residue)
    }

    fn row(&self, event: EventId) -> Option<&Row> {
        self.rows.get(event)
    }

    fn apply(&mut self, edit: &Edit) -> Result<(), Refusal> {
        self.instance.apply(edit)?;
        match *edit {
            Edit::AddEvent(event) => {
                if make_room(&mut self.pushed, &mut self.rows, &self.instance, event).is_err() {
                    // No activity has the new event as an end, so this is not refused.
                    let _ = self.instance.apply(&Edit::DropEvent(event));
                    return Err(Refusal::Memory);
                }
            }
            Edit::DropEvent(event) => self.rows.remove(event),
            _ => {}
        }
        remake(&self.instance, &self.pushed, &mut self.rows);
        Ok(())
    }

    fn push_fix(&mut self, event: EventId, residue: u16) {
        self.pushed.push_reserved(Pair { event, residue });
        self.rows.keep_only(event, residue);
        settle(&self.instance, &mut self.rows);
        self.push_count = self.push_count.saturating_add(1);
    }

    fn pop_fix(&mut self) {
        self.pushed.pop();
        remake(&self.instance, &self.pushed, &mut self.rows);
    }
}
