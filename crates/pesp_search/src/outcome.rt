//! The results of a search through the tree.

ghost use Rattle.std.specs.Prelude.{◌≡◌, ◌<◌, All, [], length};
ghost use Rattle.pesp_instance.specs.Network.{IsNetwork, Network, event_ids};
ghost use Rattle.pesp_search.specs.Beforehand.{least_bound, told_best, told_bound};
ghost use Rattle.pesp_search.specs.Branch.{IsFront};
ghost use Rattle.pesp_search.specs.Found.{IsIncumbent, IsTold};
ghost use Rattle.pesp_search.specs.Optima.{IsAnswer};
ghost use Rattle.pesp_search.specs.Paths.{timetable_of};
ghost use Rattle.pesp_search.specs.Tried.{IsEnd};

use crate::branch::put_time;
use crate::incumbent::Incumbent;
use crate::{Answer, Best, Known};
use pesp_base::EventId;
use pesp_instance::Instance;
use pesp_tension::Timetable;

/// The result of a search through the tree.
#[derive(Drop)]
pub(crate) struct Outcome {
    // None if no times within the bound were found.
    pub(crate) best: Option<Best>,
    // Whether the search stopped at the limit with a residue left to try.
    pub(crate) is_stopped: bool,
    // The number of pushes.
    pub(crate) nodes: u64,
}

/// Sets the times of the events.
pub(crate) fn put_times(
    timetable: &mut Timetable,
    instance: &Instance,
    events: &[EventId],
    times: &[u16],
)
    requires network { IsNetwork instance.now }
    requires events { events.now ≡ event_ids instance.now }
    requires front { IsFront instance.now [] timetable.old }
    requires long { length times.now ≡ length (event_ids instance.now) }
    requires below { All (λ t. t < instance.now.period) times.now }
    ensures { timetable.new ≡ timetable_of instance.now times.now }
{
    for index in 0..events.len() {
        put_time(timetable, events[index], times[index]);
    }
}

/// The best times found, as a timetable.
pub(crate) fn best_of(
    incumbent: &Incumbent,
    mut timetable: Timetable,
    instance: &Instance,
    events: &[EventId],
) -> Option<Best>
    requires network { IsNetwork instance.now }
    requires events { events.now ≡ event_ids instance.now }
    requires front { IsFront instance.now [] timetable }
    requires incumbent { IsIncumbent instance.now incumbent.now }
    ensures { IsTold instance.now incumbent.now result }
{
    match incumbent.cost {
        Some(cost) => {
            put_times(&mut timetable, instance, events, &incumbent.times);
            Some(Best {
                cost,
                times: timetable,
            })
        }
        None => None,
    }
}

/// The answer of a search that ended.
pub(crate) fn answer_of(best: Option<Best>) -> Answer
    ensures { (I : Network) → IsEnd I best → IsAnswer I result }
{
    match best {
        Some(best) => Answer::Optimal {
            cost: best.cost,
            times: best.times,
        },
        None => Answer::Infeasible,
    }
}

/// What is known with this best timetable, if no timetable that meets everything costs less than the floor.
pub(crate) fn known_of(best: Option<Best>, is_stopped: bool, floor: u64) -> Known
    ensures best { result.best ≡ best }
    ensures bound { result.lower_bound ≡ told_bound is_stopped best floor }
    ensures stopped { result.is_stopped ≡ is_stopped }
{
    let lower_bound = match (&best, is_stopped) {
        (Some(best), false) => best.cost,
        _ => floor,
    };
    Known {
        best,
        lower_bound,
        is_stopped,
    }
}

/// The least known cost of a timetable: that of an earlier one, or the given bound.
pub(crate) fn lowest(bound: Option<u64>, before: &Option<Best>) -> Option<u64>
    ensures { result ≡ least_bound bound before.now }
{
    match before {
        Some(best) => Some(best.cost),
        None => bound,
    }
}

/// The timetable to return: what the tree search found, or the earlier one if it stopped without finding any.
pub(crate) fn best_told(outcome: Outcome, before: Option<Best>) -> Option<Best>
    ensures { result ≡ told_best outcome.is_stopped outcome.best before }
{
    if outcome.is_stopped && outcome.best.is_none() {
        return before;
    }
    outcome.best
}
