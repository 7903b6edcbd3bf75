//! The script that builds an instance.

ghost use Rattle.std.specs.Prelude.{◌≡◌, ◌≤◌, ◌++◌, [], ◌∷◌, Ok, IfOk, OnOk, length, map, filter_map, decimal, codes};
ghost use Rattle.pesp_base.specs.Texts.{as_lines, words_line};
ghost use Rattle.pesp_base.specs.Limits.{max_events};
ghost use Rattle.pesp_instance.specs.declared.edit.Edit.TheVariants.{AddEvent, Fix, SetWindow, AddActivity};
ghost use Rattle.pesp_instance.specs.Edited.{empty_network};
ghost use Rattle.pesp_instance.specs.Network.{IsNetwork, event_ids};
ghost use Rattle.pesplib_writer.specs.Script.{applied, edit_line, own_edit, window_edit, script, script_edits, script_lines};

use crate::fields::put_fields;
use crate::text::{put, put_before, put_between};
use pesp_base::{Activity, EventId, Memory, Period, Window};
use pesp_instance::Instance;
use std::alloc::{AllocError, Global};

/// The number of events with a window.
fn window_count(instance: &Instance) -> usize
    ensures count { result ≡ length (filter_map own_edit instance.now.events) }
    ensures few { result ≤ max_events instance.now.period }
{
    let mut count = 0;
    for event in instance.events() {
        if event.window.is_some() {
            count += 1;
        }
    }
    count
}

/// The number of lines after the first one.
fn line_count(instance: &Instance) -> usize
    ensures count { result ≡ length (script_lines instance.now) }
    ensures network { IsNetwork instance.now }
{
    instance.event_count() + window_count(instance) + instance.activity_count()
}

/// The first line, a comment: the period, and the number of lines after it.
fn put_head(text: &mut Vec<u8>, period: Period, lines: usize) -> Result<(), AllocError>
    ensures { OnOk result (text.new.items
        ≡ text.old.items
        ++ (words_line (codes "# period" ∷ decimal period ∷ codes "lines" ∷ decimal lines ∷ [])
        ++ 10 ∷ [])) }
{
    put_between(text, b"# period ", u64::from(period.get()), b" lines ")?;
    put_before(text, lines as u64, b"\n")
}

fn put_events(text: &mut Vec<u8>, instance: &Instance) -> Result<(), AllocError>
    ensures { OnOk result (text.new.items
        ≡ text.old.items ++ as_lines (map edit_line (map AddEvent (event_ids instance.now)))) }
{
    for event in instance.events() {
        put_between(text, b"add event ", u64::from(event.id.get()), b"\n")?;
    }
    Ok(())
}

/// The line that fixes an event's time.
fn put_fix(text: &mut Vec<u8>, event: EventId, time: u16) -> Result<(), AllocError>
    ensures { OnOk result (text.new.items
        ≡ text.old.items ++ (edit_line (Fix event time) ++ 10 ∷ [])) }
{
    put_between(text, b"fix ", u64::from(event.get()), b" ")?;
    put_before(text, u64::from(time), b"\n")
}

/// The line that gives an event a window of any length but one.
fn put_wide(text: &mut Vec<u8>, event: EventId, window: Window) -> Result<(), AllocError>
    ensures { OnOk result (text.new.items
        ≡ text.old.items ++ (edit_line (SetWindow event window.first window.length) ++ 10 ∷ [])) }
{
    put_between(text, b"window ", u64::from(event.get()), b" ")?;
    put_between(text, b"", u64::from(window.first()), b" ")?;
    put_before(text, u64::from(window.length()), b"\n")
}

/// The line that gives an event a window. One residue is written as `fix`, so scripts from before
/// windows do not change.
fn put_window(text: &mut Vec<u8>, event: EventId, window: Window) -> Result<(), AllocError>
    ensures { OnOk result (text.new.items
        ≡ text.old.items ++ (edit_line (window_edit event window) ++ 10 ∷ [])) }
{
    match window.only_time() {
        Some(time) => put_fix(text, event, time),
        None => put_wide(text, event, window),
    }
}

fn put_windows(text: &mut Vec<u8>, instance: &Instance) -> Result<(), AllocError>
    ensures { OnOk result (text.new.items
        ≡ text.old.items ++ as_lines (map edit_line (filter_map own_edit instance.now.events))) }
{
    for event in instance.events() {
        if let Some(window) = event.window {
            put_window(text, event.id, window)?;
        }
    }
    Ok(())
}

/// The line that adds an activity.
fn put_activity(text: &mut Vec<u8>, activity: &Activity) -> Result<(), AllocError>
    ensures { OnOk result (text.new.items
        ≡ text.old.items ++ (edit_line (AddActivity activity.now) ++ 10 ∷ [])) }
{
    put(text, b"add activity ")?;
    put_fields(text, activity, b" ")?;
    put(text, b"\n")
}

fn put_activities(text: &mut Vec<u8>, instance: &Instance) -> Result<(), AllocError>
    ensures { OnOk result (text.new.items
        ≡ text.old.items ++ as_lines (map edit_line (map AddActivity instance.now.activities))) }
{
    for activity in instance.activities() {
        put_activity(text, activity)?;
    }
    Ok(())
}

fn put_script(text: &mut Vec<u8>, instance: &Instance) -> Result<(), AllocError>
    ensures text { OnOk result (text.new.items ≡ text.old.items ++ script instance.now) }
    ensures network { IsNetwork instance.now }
{
    put_head(text, instance.period(), line_count(instance))?;
    put_events(text, instance)?;
    put_windows(text, instance)?;
    put_activities(text, instance)
}

/// The script that builds the instance from the empty one of its period: a comment with the period
/// and the number of lines after it, then the edits, a line each.
///
/// The events come first, then their windows, then the activities, each by rising number.
pub fn dump(alloc: Global, instance: &Instance) -> Result<Vec<u8>, Memory>
    ensures text { IfOk result (λ text. text.items ≡ script instance.now) }
    ensures builds { applied (empty_network instance.now.period) (script_edits instance.now)
        ≡ Ok instance.now }
{
    let mut text = Vec::new(alloc);
    match put_script(&mut text, instance) {
        Ok(()) => Ok(text),
        Err(_) => Err(Memory),
    }
}
