//! Results and what calls need, as lines. Printing does not allocate.

use pesp_instance::Instance;
use pesp_tension::Timetable;
use std::fmt::Debug;

/// A line for each event and each activity.
pub(crate) fn instance(rt: &impl Print, instance: &Instance) {
    for event in instance.events() {
        let _ = println!(rt; "{event:?}");
    }
    for activity in instance.activities() {
        let _ = println!(rt; "{activity:?}");
    }
}

/// A line for each event with its time.
pub(crate) fn timetable(rt: &impl Print, timetable: &Timetable) {
    for entry in timetable.walk() {
        let _ = println!(rt; "{entry:?}");
    }
}

pub(crate) fn line<T: Debug>(rt: &impl Print, item: &T) {
    let _ = println!(rt; "{item:?}");
}
