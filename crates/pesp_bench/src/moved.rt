//! The cost of the activities at an event, at its time and at another one. No other activity is
//! visited.

ghost use Rattle.std.specs.Prelude.{◌≡◌, ◌<◌, ◌≤◌, ◌*◌, ◌-◌, ◌-ℤ◌, pos, sum_by};
ghost use Rattle.pesp_base.specs.Limits.{greatest_period, greatest_weight, max_activities};
ghost use Rattle.pesp_instance.specs.Network.{IsNetwork, around};
ghost use Rattle.pesp_tension.specs.Answers.{cost_in, cost_of, time_at};
ghost use Rattle.pesp_tension.specs.Timetables.{with_time};
ghost use Rattle.pesp_bench.specs.Costing.{IsMove};

use crate::costing::cost_between;
use pesp_base::{Activity, EventId};
use pesp_instance::Instance;
use pesp_tension::Timetable;

/// The time at an end of an activity before and after the event moves, from `own.0` to `own.1`. An
/// end without a time counts as one at 0.
fn times_at(times: &Timetable, event: EventId, own: (u16, u16), end: EventId) -> (u16, u16)
    requires { IsMove times.now event own }
    ensures before { result.0 ≡ time_at times.now end }
    ensures after { result.1 ≡ time_at (with_time times.now event own.1) end }
    ensures below { (result.0 < times.now.period) × (result.1 < times.now.period) }
{
    if end == event {
        return own;
    }
    let time = times.get(end).unwrap_or(0);
    (time, time)
}

/// Weight times slack of an activity before and after the event moves.
fn costs_of(activity: &Activity, times: &Timetable, event: EventId, own: (u16, u16)) -> (u64, u64)
    requires { IsMove times.now event own }
    ensures before { result.0 ≡ cost_in times.now activity.now }
    ensures after { result.1 ≡ cost_in (with_time times.now event own.1) activity.now }
    ensures small { (result.0 ≤ greatest_weight * (greatest_period - 1))
        × (result.1 ≤ greatest_weight * (greatest_period - 1)) }
{
    let period = times.period();
    let from = times_at(times, event, own, activity.from);
    let to = times_at(times, event, own, activity.to);
    let before = cost_between(activity.weight, activity.span, period, from.0, to.0);
    let after = cost_between(activity.weight, activity.span, period, from.1, to.1);
    (before, after)
}

/// The sum of weight times slack over the activities at the event, before and after it moves. A
/// loop counts once.
pub(crate) fn costs_around(
    instance: &Instance,
    times: &Timetable,
    event: EventId,
    own: (u16, u16),
) -> (u64, u64)
    requires { IsMove times.now event own }
    ensures before { result.0 ≡ sum_by (cost_in times.now) (around instance.now event) }
    ensures after { result.1
        ≡ sum_by (cost_in (with_time times.now event own.1)) (around instance.now event) }
    ensures small { let most = greatest_weight * (greatest_period - 1)
        * max_activities instance.now.period in (result.0 ≤ most) × (result.1 ≤ most) }
    ensures network { IsNetwork instance.now }
{
    let mut before = 0;
    let mut after = 0;
    for activity in instance.around(event) {
        let shares = costs_of(activity, times, event, own);
        before += shares.0;
        after += shares.1;
    }
    (before, after)
}

/// By how much the cost would change with the event at this time.
pub(crate) fn change_by(instance: &Instance, times: &Timetable, event: EventId, time: u16) -> i64
    requires { time < times.now.period }
    ensures { result ≡ pos (cost_of instance.now (with_time times.now event time))
        -ℤ pos (cost_of instance.now times.now) }
{
    let own = (times.get(event).unwrap_or(0), time);
    let costs = costs_around(instance, times, event, own);
    costs.1 as i64 - costs.0 as i64
}
