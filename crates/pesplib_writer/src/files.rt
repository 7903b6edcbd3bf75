//! The canonical texts of activities, of fixed times and of timetables.

ghost use Rattle.std.specs.Prelude.{◌≡◌, ◌++◌, [], ◌∷◌, Ok, IfOk, OnOk};
ghost use Rattle.std.specs.List.Sorted.{IsStrictlyIncreasing};
ghost use Rattle.pesp_instance.specs.Network.{IsNetwork};
ghost use Rattle.pesp_tension.specs.Timetables.{IsTimetable, timed_events};
ghost use Rattle.pesplib_reader.specs.Reading.{activities_read, times_read};
ghost use Rattle.pesplib_writer.specs.Texts.{AreUsed, activities_text, activity_row, fixed_text, time_row, times_text, without_windows};

use crate::fields::put_fields;
use crate::text::{put, put_between, put_number};
use pesp_base::{Activity, EventId, GREATEST_PERIOD, Memory};
use pesp_instance::Instance;
use pesp_tension::Timetable;
use std::alloc::{AllocError, Global};

/// The row of an activity.
fn put_activity(text: &mut Vec<u8>, activity: &Activity) -> Result<(), AllocError>
    ensures { OnOk result (text.new.items
        ≡ text.old.items ++ (activity_row activity.now ++ 10 ∷ [])) }
{
    put_fields(text, activity, b"; ")?;
    put(text, b"\n")
}

/// The row of an event and its time.
fn put_time(text: &mut Vec<u8>, event: EventId, time: u16) -> Result<(), AllocError>
    ensures { OnOk result (text.new.items ≡ text.old.items ++ (time_row (event, time) ++ 10 ∷ [])) }
{
    put_number(text, u64::from(event.get()))?;
    put_between(text, b"; ", u64::from(time), b"\n")
}

fn put_activities(text: &mut Vec<u8>, instance: &Instance) -> Result<(), AllocError>
    ensures text { OnOk result (text.new.items ≡ text.old.items ++ activities_text instance.now) }
    ensures network { IsNetwork instance.now }
{
    for activity in instance.activities() {
        put_activity(text, activity)?;
    }
    Ok(())
}

fn put_fixed(text: &mut Vec<u8>, instance: &Instance) -> Result<(), AllocError>
    ensures { OnOk result (text.new.items ≡ text.old.items ++ fixed_text instance.now) }
{
    for event in instance.events() {
        if let Some(time) = event.fixed_time() {
            put_time(text, event.id, time)?;
        }
    }
    Ok(())
}

fn put_times(text: &mut Vec<u8>, timetable: &Timetable) -> Result<(), AllocError>
    ensures text { OnOk result (text.new.items ≡ text.old.items ++ times_text timetable.now) }
    ensures rising { IsStrictlyIncreasing (timed_events timetable.now) }
    ensures within { IsTimetable timetable.now }
{
    for entry in timetable.walk() {
        put_time(text, entry.event, entry.time)?;
    }
    Ok(())
}

/// The text of the activities, a row each by rising number: number, from-event, to-event, lower bound,
/// upper bound and weight.
///
/// If each event is an end of an activity, reading the text gives the instance without its windows.
pub fn write_activities(alloc: Global, instance: &Instance) -> Result<Vec<u8>, Memory>
    ensures text { IfOk result (λ text. text.items ≡ activities_text instance.now) }
    ensures stands { IfOk result (λ text. AreUsed instance.now
        → activities_read instance.now.period text.items ≡ Ok (without_windows instance.now)) }
{
    let mut text = Vec::new(alloc);
    match put_activities(&mut text, instance) {
        Ok(()) => Ok(text),
        Err(_) => Err(Memory),
    }
}

/// The text of the fixed times, a row for each event with a window of one residue by rising number: event and time.
pub fn write_fixed(alloc: Global, instance: &Instance) -> Result<Vec<u8>, Memory>
    ensures text { IfOk result (λ text. text.items ≡ fixed_text instance.now) }
{
    let mut text = Vec::new(alloc);
    match put_fixed(&mut text, instance) {
        Ok(()) => Ok(text),
        Err(_) => Err(Memory),
    }
}

/// The text of a timetable, a row for each event that has a time by rising number: event and time.
///
/// Reading the text gives the timetable.
pub fn write_times(alloc: Global, timetable: &Timetable) -> Result<Vec<u8>, Memory>
    ensures text { IfOk result (λ text. text.items ≡ times_text timetable.now) }
    ensures stands { IfOk result (λ text.
        times_read timetable.now.period text.items ≡ Ok timetable.now) }
{
    // The type's invariant, as a fact for the law of the text.
    prove!(timetable.period().get() <= GREATEST_PERIOD);
    let mut text = Vec::new(alloc);
    match put_times(&mut text, timetable) {
        Ok(()) => Ok(text),
        Err(_) => Err(Memory),
    }
}
