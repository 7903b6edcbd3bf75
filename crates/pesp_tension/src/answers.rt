//! The tensions, violations and cost of a timetable.
//!
//! Each call first looks for an event without a time, so all later look-ups find one.

ghost use Rattle.std.specs.Prelude.{◌≡◌, ◌<◌, ◌≤◌, ◌*◌, ◌-◌, ◌++◌, int_le, All, Ok, IfOk, IfErr, OnOk, None, IsSome};
ghost use Rattle.pesp_base.specs.Limits.{greatest_period, greatest_weight};
ghost use Rattle.pesp_tension.specs.Timetables.{time_of};
ghost use Rattle.pesp_tension.specs.Answers.{AreTimes, IsRefusalOf, IsTimed, agrees, cost_in, cost_of, first_missing, meets, moved_among, tension_in, tensions_of, time_at, unmet_among, violations_of, where_timed};

use crate::{ActivityTension, Tensions, Timetable, Violation, Violations};
use pesp_base::{Activity, EventId, Refusal, allows, slack};
use pesp_instance::{Event, Instance};
use std::alloc::{AllocError, Global};

/// The least event of the instance without a time.
fn missing(instance: &Instance, timetable: &Timetable) -> Option<EventId>
    ensures { result ≡ first_missing instance.now timetable.now }
{
    for event in instance.events() {
        if timetable.get(event.id).is_none() {
            return Some(event.id);
        }
    }
    None
}

/// The refusal that names the least event without a time, if there is one.
pub(crate) fn require_times(instance: &Instance, timetable: &Timetable) -> Result<(), Refusal>
    ensures { result ≡ where_timed instance.now timetable.now tt }
{
    match missing(instance, timetable) {
        Some(event) => Err(Refusal::MissingTime(event)),
        None => Ok(()),
    }
}

/// The times of an activity's ends.
fn times_of_ends(activity: &Activity, timetable: &Timetable) -> (u16, u16)
    requires { IsTimed timetable.now activity.now }
    ensures { AreTimes timetable.now activity.now result }
{
    let from = timetable.get(activity.from).unwrap();
    let to = timetable.get(activity.to).unwrap();
    (from, to)
}

/// The tension and the slack of an activity.
pub(crate) fn tension_of(activity: &Activity, timetable: &Timetable) -> ActivityTension
    requires { IsTimed timetable.now activity.now }
    ensures value { result ≡ tension_in timetable.now activity.now }
    ensures small { result.slack < greatest_period }
{
    let (from, to) = times_of_ends(activity, timetable);
    let slack = slack(timetable.period(), activity.span, from, to);
    ActivityTension {
        id: activity.id,
        tension: activity.span.lower() + i32::from(slack),
        slack,
    }
}

/// Whether an activity is met at a tension that is not below its lower bound.
pub(crate) fn is_met_at(activity: &Activity, tension: i32) -> bool
    ensures { result ≡ int_le tension (activity.now).span.upper }
{
    tension <= activity.span.upper()
}

/// Weight times slack.
pub(crate) fn cost_at(activity: &Activity, slack: u16) -> u64
    requires { slack < greatest_period }
    ensures value { result ≡ (activity.now).weight * slack }
    ensures small { result ≤ greatest_weight * (greatest_period - 1) }
{
    u64::from(activity.weight.get()) * u64::from(slack)
}

/// Whether an activity is met. Both of its ends have times.
pub fn is_met(activity: &Activity, timetable: &Timetable) -> bool
    requires { IsTimed timetable.now activity.now }
    ensures { result ≡ meets timetable.now activity.now }
{
    let (from, to) = times_of_ends(activity, timetable);
    allows(timetable.period(), activity.span, from, to)
}

/// Weight times slack of an activity.
pub fn cost_of_activity(activity: &Activity, timetable: &Timetable) -> u64
    requires { IsTimed timetable.now activity.now }
    ensures value { result ≡ cost_in timetable.now activity.now }
    ensures small { result ≤ greatest_weight * (greatest_period - 1) }
{
    cost_at(activity, tension_of(activity, timetable).slack)
}

/// Whether an event's time is in its window, if it has one.
pub(crate) fn is_in_window(event: &Event, timetable: &Timetable) -> bool
    requires { IsSome (time_of timetable.now event.now.id) }
    ensures { result ≡ agrees timetable.now event.now }
{
    event.admits(timetable.period(), timetable.get(event.id).unwrap())
}

fn list_tensions(
    alloc: Global,
    instance: &Instance,
    timetable: &Timetable,
) -> Result<Tensions, AllocError>
    requires { first_missing instance.now timetable.now ≡ None }
    ensures { IfOk result (λ v. v.items ≡ tensions_of instance.now timetable.now) }
{
    let mut tensions = Vec::with_capacity(alloc, instance.activity_count())?;
    for activity in instance.activities() {
        tensions.push(tension_of(activity, timetable))?;
    }
    Ok(tensions)
}

/// The tension and the slack of each activity, in ascending order of activities.
///
/// Refusals in order: 11 with the least event of the instance that has no time; 10.
pub fn tensions(
    alloc: Global,
    instance: &Instance,
    timetable: &Timetable,
) -> Result<Tensions, Refusal>
    requires { instance.now.period ≡ timetable.now.period }
    ensures ok { IfOk result (λ v.
        where_timed instance.now timetable.now (tensions_of instance.now timetable.now)
        ≡ Ok v.items) }
    ensures refused { IfErr result (IsRefusalOf
        (where_timed instance.now timetable.now (tensions_of instance.now timetable.now))) }
{
    require_times(instance, timetable)?;
    list_tensions(alloc, instance, timetable).map_err(|_| Refusal::Memory)
}

/// Appends the activities that are not met to the violations.
fn list_unmet(
    violations: &mut Violations,
    instance: &Instance,
    timetable: &Timetable,
) -> Result<(), AllocError>
    requires { first_missing instance.now timetable.now ≡ None }
    ensures { OnOk result (violations.new.items
        ≡ violations.old.items ++ unmet_among timetable.now (instance.now).activities) }
{
    for activity in instance.activities() {
        if !is_met(activity, timetable) {
            violations.push(Violation::Activity(activity.id))?;
        }
    }
    Ok(())
}

/// Appends the events whose times are not in their windows to the violations.
pub(crate) fn list_moved(
    violations: &mut Violations,
    instance: &Instance,
    timetable: &Timetable,
) -> Result<(), AllocError>
    requires { first_missing instance.now timetable.now ≡ None }
    ensures { OnOk result (violations.new.items
        ≡ violations.old.items ++ moved_among timetable.now (instance.now).events) }
{
    for event in instance.events() {
        if !is_in_window(event, timetable) {
            violations.push(Violation::Event(event.id))?;
        }
    }
    Ok(())
}

fn list_violations(
    alloc: Global,
    instance: &Instance,
    timetable: &Timetable,
) -> Result<Violations, AllocError>
    requires { first_missing instance.now timetable.now ≡ None }
    ensures { IfOk result (λ v. v.items ≡ violations_of instance.now timetable.now) }
{
    let mut violations = Vec::new(alloc);
    list_unmet(&mut violations, instance, timetable)?;
    list_moved(&mut violations, instance, timetable)?;
    Ok(violations)
}

/// The activities that are not met, then the events whose times are not in their windows, each in
/// ascending order.
///
/// Refusals in order: 11 with the least event of the instance that has no time; 10.
pub fn violations(
    alloc: Global,
    instance: &Instance,
    timetable: &Timetable,
) -> Result<Violations, Refusal>
    requires { instance.now.period ≡ timetable.now.period }
    ensures ok { IfOk result (λ v.
        where_timed instance.now timetable.now (violations_of instance.now timetable.now)
        ≡ Ok v.items) }
    ensures refused { IfErr result (IsRefusalOf
        (where_timed instance.now timetable.now (violations_of instance.now timetable.now))) }
{
    require_times(instance, timetable)?;
    list_violations(alloc, instance, timetable).map_err(|_| Refusal::Memory)
}

/// The sum of weight times slack over all activities, met or not. Nothing is allocated.
///
/// Refusal: 11 with the least event of the instance that has no time.
pub fn cost(instance: &Instance, timetable: &Timetable) -> Result<u64, Refusal>
    requires { instance.now.period ≡ timetable.now.period }
    ensures { result ≡ where_timed instance.now timetable.now (cost_of instance.now timetable.now) }
{
    require_times(instance, timetable)?;
    Ok(sum_of_costs(instance, timetable))
}

fn sum_of_costs(instance: &Instance, timetable: &Timetable) -> u64
    requires { first_missing instance.now timetable.now ≡ None }
    ensures { result ≡ cost_of instance.now timetable.now }
{
    let mut cost = 0;
    for activity in instance.activities() {
        cost += cost_of_activity(activity, timetable);
    }
    cost
}
