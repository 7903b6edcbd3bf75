//! The cost of the working timetable, and the number of events without a time. Each change updates
//! both: `cost` had summed the whole network each time (docs/HISTORY.md, "A kept cost").

ghost use Rattle.std.specs.Prelude.{◌≡◌, ◌≤◌, ◌<◌, ◌+◌, ◌*◌, ◌-◌, ◌^◌, [], IfErr, IfSome, IsSome, IsTrue, None, Ok, OnErr, OnOk, sum_by};
ghost use Rattle.pesp_base.specs.Limits.{greatest_period, greatest_weight, max_activities};
ghost use Rattle.pesp_base.specs.Tensions.{slack_of};
ghost use Rattle.pesp_instance.specs.Edited.{edited};
ghost use Rattle.pesp_instance.specs.Network.{IsNetwork, Network, around, has_event};
ghost use Rattle.pesp_tension.specs.Answers.{cost_in, cost_of, where_timed};
ghost use Rattle.pesp_tension.specs.Timetables.{IsSetRefusal, set_time, time_of, without_time};
ghost use Rattle.pesp_bench.specs.Costing.{AreTimesOf, IsCosted, cost_changed, cost_edited, missing_after};
ghost use Rattle.pesp_bench.specs.State.{times_after};

use crate::moved::costs_around;
use pesp_base::{Activity, EventId, Period, Refusal, Span, Weight, slack};
use pesp_instance::{Edit, Instance};
use pesp_tension::{EventTime, Timetable, cost};

/// Weight times slack of an activity from one residue to another.
pub(crate) fn cost_between(weight: Weight, span: Span, period: Period, from: u16, to: u16) -> u64
    requires { (from < period) × (to < period) }
    ensures value { result ≡ weight * slack_of period span from to }
    ensures small { result ≤ greatest_weight * (greatest_period - 1) }
{
    let slack = slack(period, span, from, to);
    u64::from(weight.get()) * u64::from(slack)
}

/// Weight times slack of an activity. An end without a time counts as one at 0, so that the kept
/// cost is a sum over all activities.
pub(crate) fn cost_at(activity: &Activity, times: &Timetable) -> u64
    ensures value { result ≡ cost_in times.now activity.now }
    ensures small { result ≤ greatest_weight * (greatest_period - 1) }
{
    let from = times.get(activity.from).unwrap_or(0);
    let to = times.get(activity.to).unwrap_or(0);
    cost_between(activity.weight, activity.span, times.period(), from, to)
}

/// The sum of weight times slack over all activities. Only a new workbench walks over all of them.
fn cost_of_all(instance: &Instance, times: &Timetable) -> u64
    ensures { result ≡ cost_of instance.now times.now }
{
    let mut cost = 0;
    for activity in instance.activities() {
        cost += cost_at(activity, times);
    }
    cost
}

/// Weight times slack of the activity that an edit drops or changes, before and after the edit: 0
/// after it is dropped.
fn costs_changed(activity: &Activity, times: &Timetable, edit: &Edit) -> (u64, u64)
    ensures before { result.0 ≡ cost_in times.now activity.now }
    ensures after { result.1 ≡ cost_changed times.now edit.now activity.now }
    ensures small { result.1 ≤ greatest_weight * (greatest_period - 1) }
{
    let period = times.period();
    let from = times.get(activity.from).unwrap_or(0);
    let to = times.get(activity.to).unwrap_or(0);
    let before = cost_between(activity.weight, activity.span, period, from, to);
    let after = match *edit {
        Edit::SetSpan(_, span) => cost_between(activity.weight, span, period, from, to),
        Edit::SetWeight(_, weight) => cost_between(weight, activity.span, period, from, to),
        Edit::SetEnds(_, from, to) => {
            let from = times.get(from).unwrap_or(0);
            let to = times.get(to).unwrap_or(0);
            cost_between(activity.weight, activity.span, period, from, to)
        }
        _ => 0,
    };
    (before, after)
}

/// Weight times slack of the edited activity before and after the edit, 0 if there is none. The
/// instance is that before the edit. The activity is looked up once.
fn costs_edited(instance: &Instance, times: &Timetable, edit: &Edit) -> (u64, u64)
    ensures value { (J : Network) → edited instance.now edit.now ≡ Ok J
        → (result.0 ≡ cost_edited instance.now times.now edit.now)
        × (result.1 ≡ cost_edited J times.now edit.now) }
    ensures part { result.0 ≤ cost_of instance.now times.now }
    ensures small { result.1 ≤ greatest_weight * (greatest_period - 1) }
{
    match *edit {
        Edit::AddActivity(activity) => (0, cost_at(&activity, times)),
        Edit::DropActivity(id)
        | Edit::SetSpan(id, _)
        | Edit::SetWeight(id, _)
        | Edit::SetEnds(id, ..) => match instance.activity(id) {
            Some(activity) => costs_changed(activity, times, edit),
            None => (0, 0),
        },
        _ => (0, 0),
    }
}

/// The number of events without a time after an accepted edit, from the number before it.
fn missing_after(missing: usize, times: &Timetable, edit: &Edit) -> usize
    requires { missing < 2 ^ 64 - 1 }
    ensures { result ≡ missing_after edit.now times.now missing }
{
    match *edit {
        Edit::AddEvent(_) => missing + 1,
        // An event that does not exist has no time either, and 0 may be missing. Its edit is
        // refused.
        Edit::DropEvent(event) if times.get(event).is_none() => missing.saturating_sub(1),
        _ => missing,
    }
}

/// The cost of the working timetable, and the number of events without a time.
#[derive(Clone, Copy)]
pub(crate) struct KeptCost {
    // The sum of weight times slack over all activities; an event without a time counts as one at
    // 0.
    pub(crate) cost: u64,
    // The number of the instance's events without a time.
    pub(crate) missing: usize,
}

impl KeptCost {
    /// The cost of a timetable without times.
    pub(crate) fn new(instance: &Instance, times: &Timetable) -> KeptCost
        requires { times.now.entries ≡ [] }
        ensures { IsCosted instance.now times.now result.cost result.missing }
    {
        KeptCost {
            cost: cost_of_all(instance, times),
            missing: instance.event_count(),
        }
    }

    /// The cost of the working timetable.
    ///
    /// Refusal: 11 with the least event that has no time.
    pub(crate) fn cost(&self, instance: &Instance, times: &Timetable) -> Result<u64, Refusal>
        requires times { AreTimesOf instance.now times.now }
        requires costed { IsCosted instance.now times.now self.now.cost self.now.missing }
        ensures { result ≡ where_timed instance.now times.now (cost_of instance.now times.now) }
    {
        // Reading the instance makes its invariant known.
        let _period = instance.period();
        if self.missing == 0 {
            return Ok(self.cost);
        }
        // Some event has no time, and this call looks for the least one.
        cost(instance, times)
    }

    /// Replaces the part of the cost from before a change by that after it.
    fn replace(&mut self, before: u64, after: u64)
        requires part { before ≤ self.old.cost }
        requires room { self.old.cost + after ≤ 2 ^ 64 - 1 }
        ensures cost { self.new.cost + before ≡ self.old.cost + after }
        ensures missing { self.new.missing ≡ self.old.missing }
    {
        self.cost = self.cost - before + after;
    }

    /// Sets the time of an event of the instance, whose time so far is `before`.
    ///
    /// Refusals in order: 4 if the time is not below the period; 10, only if the event has no time.
    pub(crate) fn set(
        &mut self,
        instance: &Instance,
        times: &mut Timetable,
        timed: EventTime,
        before: Option<u16>,
    ) -> Result<(), Refusal>
        requires times { AreTimesOf instance.now times.old }
        requires costed { IsCosted instance.now times.old self.old.cost self.old.missing }
        requires event { IsTrue (has_event instance.now timed.event) }
        requires before { before ≡ time_of times.old timed.event }
        requires below { IfSome before (λ t. t < times.old.period) }
        ensures ok { OnOk result (set_time times.old timed.event timed.time ≡ Ok times.new) }
        ensures refused { IfErr result (IsSetRefusal times.old timed.event timed.time) }
        ensures unchanged { OnErr result (times.new ≡ times.old) }
        ensures costed { IsCosted instance.now times.new self.new.cost self.new.missing }
        ensures network { IsNetwork instance.now }
    {
        // Reading the instance makes its invariant known, which the clause `network` states.
        let _period = instance.period();
        let EventTime { event, time } = timed;
        if time >= times.period().get() {
            return Err(Refusal::TimeOutOfRange(time));
        }
        let costs = costs_around(instance, times, event, (before.unwrap_or(0), time));
        times.set(event, time)?;
        self.replace(costs.0, costs.1);
        if before.is_none() {
            self.missing -= 1;
        }
        Ok(())
    }

    /// Removes the time of an event that has one.
    pub(crate) fn clear(&mut self, instance: &Instance, times: &mut Timetable, event: EventId)
        requires times { AreTimesOf instance.now times.old }
        requires costed { IsCosted instance.now times.old self.old.cost self.old.missing }
        requires timed { IsSome (time_of times.old event) }
        ensures times { times.new ≡ without_time times.old event }
        ensures costed { IsCosted instance.now times.new self.new.cost self.new.missing }
    {
        // Without a time it counts as one at 0.
        let own = (times.get(event).unwrap_or(0), 0);
        let costs = costs_around(instance, times, event, own);
        times.clear(event);
        self.replace(costs.0, costs.1);
        self.missing += 1;
    }

    /// The kept cost after an edit, if that is accepted. Instance and times are those before the
    /// edit: a dropped event loses its time later.
    pub(crate) fn after_edit(&self, instance: &Instance, times: &Timetable, edit: &Edit) -> KeptCost
        requires network { IsNetwork instance.now }
        requires times { AreTimesOf instance.now times.now }
        requires costed { IsCosted instance.now times.now self.now.cost self.now.missing }
        ensures { (J : Network) → edited instance.now edit.now ≡ Ok J
            → IsCosted J (times_after edit.now times.now) result.cost result.missing }
    {
        let costs = costs_edited(instance, times, edit);
        KeptCost {
            cost: self.cost - costs.0 + costs.1,
            missing: missing_after(self.missing, times, edit),
        }
    }
}
