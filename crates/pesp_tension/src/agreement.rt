//! Whether a timetable violates nothing. No list is made: the first violation ends the walk.

ghost use Rattle.std.specs.Prelude.{◌≡◌, ◌↔◌, All, IsTrue, None};
ghost use Rattle.pesp_tension.specs.Answers.{agrees, first_missing, meets};

use crate::Timetable;
use crate::answers::{is_in_window, is_met};
use pesp_instance::Instance;

/// Whether each activity is met. Each event of the instance has a time. Nothing is allocated.
pub fn meets_all(instance: &Instance, timetable: &Timetable) -> bool
    requires { first_missing instance.now timetable.now ≡ None }
    ensures { IsTrue result ↔ All (λ a. IsTrue (meets timetable.now a)) (instance.now).activities }
{
    for activity in instance.activities() {
        if !is_met(activity, timetable) {
            return false;
        }
    }
    true
}

/// Whether each event's time is in its window, if it has one. Each event of the instance has a
/// time. Nothing is allocated.
pub fn agrees_with_all(instance: &Instance, timetable: &Timetable) -> bool
    requires { first_missing instance.now timetable.now ≡ None }
    ensures { IsTrue result ↔ All (λ x. IsTrue (agrees timetable.now x)) (instance.now).events }
{
    for event in instance.events() {
        if !is_in_window(event, timetable) {
            return false;
        }
    }
    true
}
