//! Whether a timetable meets everything, and its cost, decided without memory.

ghost use Rattle.std.specs.Prelude.{◌≡◌, ◌↔◌, IfNone, IfSome, IsTrue};
ghost use Rattle.pesp_instance.specs.Network.{event_ids};
ghost use Rattle.pesp_search.specs.Optima.{IsMember};
ghost use Rattle.pesp_tension.specs.Answers.{cost_of};
ghost use Rattle.pesp_tension.specs.Timetables.{IsTimetable, timed_events};

use pesp_instance::Instance;
use pesp_tension::{Timetable, agrees_with_all, cost, meets_all};

/// Whether the timetable has a time for exactly the events of the instance.
fn times_the_events(instance: &Instance, timetable: &Timetable) -> bool
    ensures events { IsTrue result ↔ (timed_events timetable.now ≡ event_ids instance.now) }
    ensures within { IsTimetable timetable.now }
{
    let mut times = timetable.walk();
    for event in instance.events() {
        match times.next() {
            Some(timed) => {
                if timed.event != event.id {
                    return false;
                }
            }
            None => return false,
        }
    }
    times.next().is_none()
}

/// The cost of the timetable if it has the instance's period, gives exactly its events a time, and meets
/// everything; none otherwise.
///
/// It allocates nothing.
pub fn member_cost(instance: &Instance, timetable: &Timetable) -> Option<u64>
    ensures member { IfSome result
        (λ cost. IsMember instance.now timetable.now
        × (cost_of instance.now timetable.now ≡ cost)) }
    ensures none { IfNone result (IsMember instance.now timetable.now → ⊥) }
{
    if timetable.period() != instance.period() || !times_the_events(instance, timetable) {
        return None;
    }
    let Ok(cost) = cost(instance, timetable) else {
        return None;
    };
    if meets_all(instance, timetable) && agrees_with_all(instance, timetable) {
        Some(cost)
    } else {
        None
    }
}
