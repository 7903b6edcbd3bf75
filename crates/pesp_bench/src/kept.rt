//! Which edits leave a known answer as it is.

ghost use Rattle.std.specs.Prelude.{◌≡◌, ℕ, ◌↔◌, true, false, IfSome, IsTrue, None, Some, Ok};
ghost use Rattle.pesp_base.specs.Windows.{IsWindow, is_held};
ghost use Rattle.pesp_instance.specs.Edited.{edited};
ghost use Rattle.pesp_instance.specs.Network.{IsNetwork, Network};
ghost use Rattle.pesp_search.specs.Optima.{IsAnswer, IsMember};
ghost use Rattle.pesp_tension.specs.Answers.{IsTimed, cost_in, meets};
ghost use Rattle.pesp_tension.specs.Timetables.{time_of};
ghost use Rattle.pesp_bench.specs.Kept.{Keeps, TellsStay, cheapens, opens};

use crate::loosening::{is_lighter, is_moved};
use pesp_base::{Activity, EventId, Window};
use pesp_domains::{is_limited, is_looser, window_admits_anew};
use pesp_instance::{Edit, Instance};
use pesp_search::Answer;
use pesp_tension::{Timetable, cost_of_activity, is_met};

/// Whether some timetable may meet everything after the edit, if none did before.
fn opens(instance: &Instance, edit: &Edit) -> bool
    ensures { result ≡ opens instance.now edit.now }
{
    match *edit {
        Edit::AddEvent(_) | Edit::AddActivity(_) | Edit::SetWeight(..) => false,
        Edit::Fix(event, time) => window_admits_anew(instance, event, time, 1),
        Edit::SetWindow(event, first, length) => {
            window_admits_anew(instance, event, first, length)
        }
        Edit::Unfix(event) => is_limited(instance, event),
        Edit::SetSpan(id, span) => is_looser(instance, id, span),
        Edit::DropEvent(_) | Edit::DropActivity(_) | Edit::SetEnds(..) => true,
    }
}

/// Whether after the edit a timetable may meet everything that did not before, or cost less. A span
/// counts by its bounds here: one that admits the same pairs from another lower bound has other
/// costs (docs/DECISIONS.md, "Workbench").
fn cheapens(instance: &Instance, edit: &Edit) -> bool
    ensures { result ≡ cheapens instance.now edit.now }
{
    match *edit {
        Edit::AddActivity(_) => false,
        Edit::SetWeight(id, weight) => is_lighter(instance, id, weight),
        Edit::Fix(event, time) => window_admits_anew(instance, event, time, 1),
        Edit::SetWindow(event, first, length) => {
            window_admits_anew(instance, event, first, length)
        }
        Edit::Unfix(event) => is_limited(instance, event),
        Edit::SetSpan(id, span) => is_moved(instance, id, span),
        Edit::AddEvent(_) | Edit::DropEvent(_) | Edit::DropActivity(_) | Edit::SetEnds(..) => true,
    }
}

/// Whether an activity has times at both ends, is met, and costs nothing.
fn adds_nothing(activity: &Activity, times: &Timetable) -> bool
    ensures yes { result ≡ true → (meets times.now activity.now ≡ true)
        × (cost_in times.now activity.now ≡ 0) }
    ensures no { result ≡ false → IsTimed times.now activity.now
        → meets times.now activity.now ≡ true → cost_in times.now activity.now ≡ 0 → ⊥ }
{
    if times.get(activity.from).is_none() || times.get(activity.to).is_none() {
        return false;
    }
    is_met(activity, times) && cost_of_activity(activity, times) == 0
}

/// Whether the event has a time, and it is one of the `length` residues from `first` on. False if
/// these are not a window of the period.
fn is_timed_within(
    instance: &Instance,
    event: EventId,
    first: u16,
    length: u16,
    times: &Timetable,
) -> bool
    ensures { (t : ℕ) → Some t ≡ time_of times.now event
        → IsWindow (instance.now).period (record { first = first; length = length })
        → result ≡ is_held (instance.now).period (record { first = first; length = length }) t }
{
    let period = instance.period();
    match (Window::new(period, first, length), times.get(event)) {
        (Some(window), Some(time)) => window.holds(period, time),
        _ => false,
    }
}

/// Whether the timetable of an optimum still meets everything at its cost after the edit.
///
/// The instance is that before the edit, which makes no timetable cheaper. Only what is edited is
/// looked at: nothing else changes.
fn stands(instance: &Instance, edit: &Edit, times: &Timetable) -> bool
    requires { IsMember instance.now times.now }
    ensures { TellsStay instance.now edit.now times.now result }
{
    match *edit {
        Edit::AddActivity(activity) => adds_nothing(&activity, times),
        Edit::SetWeight(id, weight) => match instance.activity(id) {
            Some(activity) => {
                let changed = Activity {
                    weight,
                    ..*activity
                };
                cost_of_activity(&changed, times) == cost_of_activity(activity, times)
            }
            None => false,
        },
        Edit::SetSpan(id, span) => match instance.activity(id) {
            Some(activity) => {
                let changed = Activity { span, ..*activity };
                is_met(&changed, times)
            }
            None => false,
        },
        Edit::Fix(event, time) => is_timed_within(instance, event, time, 1, times),
        Edit::SetWindow(event, first, length) => {
            is_timed_within(instance, event, first, length, times)
        }
        Edit::Unfix(_) => true,
        Edit::AddEvent(_) | Edit::DropEvent(_) | Edit::DropActivity(_) | Edit::SetEnds(..) => false,
    }
}

/// Whether the known answer remains known after the edit, if that is accepted. The instance is that
/// before the edit.
pub(crate) fn keeps(instance: &Instance, edit: &Edit, known: &Option<Answer>) -> bool
    requires { IfSome known.now (IsAnswer instance.now) }
    ensures value { (J : Network) → edited instance.now edit.now ≡ Ok J
        → IfSome known.now (λ answer. IsTrue result ↔ Keeps instance.now edit.now answer) }
    ensures network { IsNetwork instance.now }
{
    // Reading the instance makes its invariant known, which the clause `network` states.
    let _period = instance.period();
    match known {
        Some(Answer::Infeasible) => !opens(instance, edit),
        Some(Answer::Optimal { times, .. }) => {
            !cheapens(instance, edit) && stands(instance, edit, times)
        }
        None => false,
    }
}

/// Forgets the answer. The timetable of an optimum becomes the candidate.
pub(crate) fn forget(known: &mut Option<Answer>, candidate: &mut Option<Timetable>)
    ensures { known.new ≡ None }
{
    if let Some(Answer::Optimal { times, .. }) = known.take() {
        *candidate = Some(times);
    }
}
