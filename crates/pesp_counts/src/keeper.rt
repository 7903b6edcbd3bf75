//! The keeper that counts partners.

ghost use Rattle.std.specs.Prelude.{◌≡◌, ◌<◌, ◌+◌, ◌-◌, ◌^◌, min, ℕ, IsTrue, [], ◌∷◌, ◌++◌, length, Ok, IfOk, IfErr, OnOk, OnErr};
ghost use Rattle.pesp_instance.specs.Edited.{IsRefusal, edited};
ghost use Rattle.pesp_instance.specs.Network.{has_event};
ghost use Rattle.pesp_domains.specs.declared.pair.Pair.{Pair};
ghost use Rattle.pesp_domains.specs.Domains.{In};
ghost use Rattle.pesp_counts.specs.Restores.{Restores, StaysWithin};
ghost use Rattle.pesp_counts.specs.Support.{IsSupportAnswer};
ghost use Rattle.pesp_counts.specs.Works.{IsWork};

mod change;
mod counted;
mod following;
mod limits;
mod propagating;
mod told;

use crate::work::Work;
use change::Change;
use counted::{Counted, house, remake};
use following::{add_activity, add_event, follow, take_back};
use limits::limit_event;
use pesp_base::{ActivityId, EventId, Refusal};
use pesp_counts_arcs::Links;
use pesp_counts_supports::Supports;
use pesp_domains::{Keeper, NoRoom, Pair, Row, Side};
use pesp_instance::{Edit, Instance};
use std::alloc::Global;
use std::marker::Model;
use told::number_pairs;

/// A pushed pair.
#[derive(Clone, Copy)]
pub struct Pushed {
    pub pair: Pair,
    /// The number of pairs in the trail before the push.
    pub mark: usize,
}

/// Keeps the domains by support counts: for each residue at an end of an activity, the number of
/// its partners in the domain of the other event.
///
/// An edit or a push removes pairs. Each removed pair lowers counts along the activities at its
/// event, and a pair with a count of 0 is removed too. A pop restores what its push removed. A
/// loosening edit restores only the pairs that it reaches, and then removes those without a
/// partner.
#[derive(Drop)]
pub struct CountKeeper {
    // The instance that the rows are the domains of.
    instance: Instance,
    // No event occurs twice. There is room for as many as there are events.
    pushed: Vec<Pushed>,
    // By place, with what the last accepted edit restored.
    counted: Counted,
    // The work of the last accepted edit.
    work: Work,
    // The number of pushes, popped ones included. It saturates.
    push_count: u64,
    // Allocates what edits need.
    alloc: Global,
}

impl Model for CountKeeper {
    ghost use Rattle.std.specs.Prelude.{vec_capacity};
    ghost use Rattle.pesp_counts.specs.Restores.{Seen};
    ghost use Rattle.pesp_counts.specs.Keeping.{IsKeeping, pairs_of};

    ghost Value = { Seen };

    ghost view = { λ k. record {
      network = k.instance;
      pushes = pairs_of k.pushed.items;
      push_count = k.push_count;
      restored = k.counted.restored.items;
      work = k.work;
    } };

    ghost invariant = { λ k. IsKeeping k.instance k.pushed.items k.counted.links k.counted.supports
        (vec_capacity k.pushed) (vec_capacity k.counted.back) (vec_capacity k.counted.restored) };
}

impl CountKeeper {
    /// The number of partners that a residue at an end of an activity has in the domain of the
    /// other event. None if there is no such activity, or the residue is not in the domain at that
    /// end.
    pub fn support(&self, activity: ActivityId, side: Side, residue: u16) -> Option<u16>
        ensures { IsSupportAnswer (self.now).network (self.now).pushes activity side residue
            result }
    {
        let activity = self.instance.activity(activity)?;
        if !self.holds(side.own(activity), residue) {
            return None;
        }
        let tail = self.counted.links.tail(activity.id)?;
        let end = match side {
            Side::Tail => tail,
            Side::Head => self.counted.links.end(tail).mate as usize,
        };
        Some(self.counted.supports.count(end, residue))
    }
}

impl Keeper for CountKeeper {
    ghost network = { λ keeper. keeper.network };

    ghost pushes = { λ keeper. keeper.pushes };

    ghost push_count = { λ keeper. keeper.push_count };

    fn from_instance(alloc: Global, instance: Instance) -> Result<CountKeeper, NoRoom>
        ensures network { IfOk result (λ keeper. keeper.network ≡ instance) }
        ensures pushes { IfOk result (λ keeper. keeper.pushes ≡ []) }
        ensures count { IfOk result (λ keeper. keeper.push_count ≡ 0) }
        ensures restored { IfOk result (λ keeper. keeper.restored ≡ []) }
        ensures work { IfOk result (λ keeper.
            keeper.work ≡ record { restored = 0; removed = 0; probes = 0 }) }
        ensures back { IfErr result (λ no_room. no_room.instance ≡ instance) }
    {
        let mut pushed = Vec::new(alloc);
        let mut counted = Counted {
            links: Links::new(alloc),
            supports: Supports::new(alloc, instance.period()),
            back: Vec::new(alloc),
            restored: Vec::new(alloc),
        };
        if house(alloc, &instance, &mut pushed, &mut counted).is_err() {
            return Err(NoRoom { instance });
        }
        remake(&instance, &counted.links, &mut counted.supports);
        Ok(CountKeeper {
            instance,
            pushed,
            counted,
            work: Work::none(),
            push_count: 0,
            alloc,
        })
    }

    fn instance(&self) -> &Instance {
        &self.instance
    }

    fn holds(&self, event: EventId, residue: u16) -> bool {
        match self.counted.links.event(event) {
            Some(place) => self.counted.supports.holds(place, residue),
            None => false,
        }
    }

    fn row(&self, event: EventId) -> Option<&Row> {
        match self.counted.links.event(event) {
            Some(place) => Some(self.counted.supports.row(place)),
            None => None,
        }
    }

    fn apply(&mut self, edit: &Edit) -> Result<(), Refusal>
        requires { (self.old).pushes ≡ [] }
        ensures ok { OnOk result (edited (self.old).network edit.now ≡ Ok (self.new).network) }
        ensures restored { OnOk result (Restores (self.old).network edit.now (self.new).restored) }
        ensures within { OnOk result (StaysWithin (self.old).network edit.now (self.new).restored) }
        ensures work { OnOk result (IsWork (self.old).network edit.now (self.new).restored
            (self.new).work) }
        ensures err { IfErr result (IsRefusal (self.old).network edit.now) }
        ensures unchanged { OnErr result ((self.new).network ≡ (self.old).network) }
        ensures still { OnErr result (((self.new).restored ≡ (self.old).restored)
            × ((self.new).work ≡ (self.old).work)) }
        ensures pushes { (self.new).pushes ≡ [] }
        ensures count { (self.new).push_count ≡ (self.old).push_count }
    {
        let change = Change::from_edit(&self.instance, &self.counted.links, edit);
        self.instance.apply(edit)?;
        let counted = &mut self.counted;
        counted.supports.forget();
        counted.back.clear();
        let followed = match *edit {
            Edit::AddEvent(event) => {
                add_event(self.alloc, &self.instance, &mut self.pushed, counted, event)
            }
            Edit::AddActivity(activity) => add_activity(&self.instance, counted, &activity),
            _ => {
                follow(&self.instance, counted, edit, &change);
                Ok(())
            }
        };
        if followed.is_err() {
            take_back(&mut self.instance, edit);
            return Err(Refusal::Memory);
        }
        let counted = &mut self.counted;
        number_pairs(&counted.links, &counted.back, &mut counted.restored);
        self.work = Work {
            restored: counted.back.len() as u64,
            removed: counted.supports.mark() as u64,
            probes: counted.supports.probes(),
        };
        Ok(())
    }

    fn push_fix(&mut self, event: EventId, residue: u16)
        requires event { IsTrue (has_event (self.old).network event) }
        requires free { (r : ℕ) → In (self.old).pushes event r → ⊥ }
        requires residue { residue < (self.old).network.period }
        ensures network { (self.new).network ≡ (self.old).network }
        ensures pushes { (self.new).pushes
            ≡ (self.old).pushes ++ record { event = event; residue = residue } ∷ [] }
        ensures count { (self.new).push_count ≡ min (2 ^ 64 - 1) ((self.old).push_count + 1) }
        ensures restored { (self.new).restored ≡ (self.old).restored }
        ensures work { (self.new).work ≡ (self.old).work }
    {
        let mark = self.counted.supports.mark();
        self.pushed.push_reserved(Pushed {
            pair: Pair { event, residue },
            mark,
        });
        let counted = &mut self.counted;
        limit_event(&counted.links, &mut counted.supports, event, residue);
        self.push_count = self.push_count.saturating_add(1);
    }

    fn pop_fix(&mut self)
        requires { 0 < length (self.old).pushes }
        ensures network { (self.new).network ≡ (self.old).network }
        ensures pushes { (last : Pair) × ((self.old).pushes ≡ (self.new).pushes ++ last ∷ []) }
        ensures count { (self.new).push_count ≡ (self.old).push_count }
        ensures restored { (self.new).restored ≡ (self.old).restored }
        ensures work { (self.new).work ≡ (self.old).work }
    {
        if let Some(last) = self.pushed.pop() {
            let counted = &mut self.counted;
            counted.supports.put_back(&counted.links, last.mark);
        }
    }
}
