//! Keepers with nothing pushed, for tables of edits.

use crate::asserts::{hold, same};
use crate::changes::{Change, TWO_ACTIVITIES, edit_of};
use crate::made::event;
use pesp_base::Period;
use pesp_counts::CountKeeper;
use pesp_domains::Keeper;
use pesp_instance::{Edit, Instance};
use pesp_search::{Answer, Known, Searches, Tried, best, best_within, known_after, known_within};
use std::marker::Model;
use std::process::Abort;

/// A keeper with nothing pushed.
///
/// Its functions have no contracts, so that proofs of the tests do not compute the keeper after
/// each edit.
#[derive(Drop)]
pub(crate) struct Unpushed<K: Keeper> {
    // Nothing is pushed on it.
    pub(crate) keeper: K,
}

/// One that keeps domains by counts.
pub(crate) type Counted = Unpushed<CountKeeper>;

impl<K: Keeper> Model for Unpushed<K> {
    ghost use Rattle.std.specs.Prelude.{◌≡◌, []};
    ghost use Rattle.pesp_instance.specs.Network.{Network};

    ghost Value = { Network };

    ghost view = { λ u. K.network u.keeper };

    ghost invariant = { λ u. K.pushes u.keeper ≡ [] };
}

impl<K: Keeper> Unpushed<K> {
    pub(crate) fn of(rt: &(impl Abort + AllocGlobal), instance: Instance) -> Unpushed<K> {
        let keeper = K::from_instance(rt.alloc(), instance);
        let keeper = keeper.ok().expect(rt, "memory");
        Unpushed { keeper }
    }

    /// A keeper of the instance that these edits make of the empty one.
    pub(crate) fn made(
        rt: &(impl Abort + AllocGlobal),
        period: u16,
        edits: &[Change],
    ) -> Unpushed<K> {
        let period = Period::new(period).expect(rt, "a period");
        let mut kept: Unpushed<K> = Unpushed::of(rt, Instance::new(rt.alloc(), period));
        kept.change_all(rt, edits);
        kept
    }

    /// Two events and an activity each way between them.
    pub(crate) fn two_activities(rt: &(impl Abort + AllocGlobal)) -> Unpushed<K> {
        Unpushed::made(rt, 10, TWO_ACTIVITIES)
    }

    fn change_all(&mut self, rt: &impl Abort, edits: &[Change]) {
        for edit in edits {
            self.change(rt, *edit);
        }
    }

    /// The edit is accepted.
    pub(crate) fn change(&mut self, rt: &impl Abort, change: Change) {
        let accepted = self.keeper.apply(&edit_of(rt, change));
        same(rt, accepted, Ok(()), "the edit is accepted");
    }

    /// A time beyond the period is refused.
    pub(crate) fn refuse_a_time(&mut self, rt: &impl Abort) {
        let refused = self.keeper.apply(&Edit::Fix(event(rt, 1), 12));
        hold(rt, refused.is_err(), "a time beyond the period");
    }

    /// The optimum, and the number of nodes of the search.
    pub(crate) fn best(&mut self, rt: &(impl Abort + AllocGlobal)) -> (Answer, u64) {
        let found = best(rt.alloc(), &mut self.keeper, None);
        found.ok().expect(rt, "memory")
    }

    /// The optimum, with its own cost as the bound.
    pub(crate) fn best_at_its_cost(&mut self, rt: &(impl Abort + AllocGlobal)) -> Answer {
        let found = best(rt.alloc(), &mut self.keeper, None);
        let (answer, _) = found.ok().expect(rt, "memory");
        let Answer::Optimal { cost, .. } = answer else {
            panic!(rt; "infeasible");
        };
        let again = best(rt.alloc(), &mut self.keeper, Some(cost));
        let (answer, _) = again.ok().expect(rt, "memory");
        answer
    }

    /// The result of a search within a limit, and its number of nodes.
    pub(crate) fn tried(&mut self, rt: &(impl Abort + AllocGlobal), limit: u64) -> (Tried, u64) {
        let tried = best_within(rt.alloc(), &mut self.keeper, None, limit);
        tried.ok().expect(rt, "memory")
    }

    /// What a search within a limit makes known.
    pub(crate) fn known(&mut self, rt: &(impl Abort + AllocGlobal), limit: u64) -> Known {
        let known = known_within(rt.alloc(), &mut self.keeper, None, limit);
        let (known, nodes) = known.ok().expect(rt, "memory");
        hold(rt, nodes <= limit, "no more nodes than the limit");
        known
    }

    /// What two searches within a limit make known, where the second one resumes the first.
    pub(crate) fn known_after(&mut self, rt: &(impl Abort + AllocGlobal), limit: u64) -> Known {
        let mut before = Searches::new(rt.alloc());
        let limit = Some(limit);
        let first = known_after(rt.alloc(), &mut self.keeper, &mut before, None, limit);
        hold(rt, first.is_ok(), "memory");
        let next = known_after(rt.alloc(), &mut self.keeper, &mut before, None, limit);
        let (known, _) = next.ok().expect(rt, "memory");
        known
    }

    /// The same, with the optimum's own cost as the bound.
    pub(crate) fn tried_at_its_cost(
        &mut self,
        rt: &(impl Abort + AllocGlobal),
        limit: u64,
    ) -> (Tried, u64) {
        let found = best(rt.alloc(), &mut self.keeper, None);
        let (answer, _) = found.ok().expect(rt, "memory");
        let Answer::Optimal { cost, .. } = answer else {
            panic!(rt; "infeasible");
        };
        let tried = best_within(rt.alloc(), &mut self.keeper, Some(cost), limit);
        tried.ok().expect(rt, "memory")
    }
}
