//! The connected parts of an instance, and the first event of each part without a window. Only residue 0 is
//! tried there: all timetables of such a part may be turned, and this breaks the symmetry.
//!
//! Labels are found along the activities. Nothing is proved of how; the result relies only on the check that
//! both ends of each activity have the same label.

ghost use Rattle.std.specs.Prelude.{◌≡◌, ◌<◌, ◌≤◌, ℕ, false, true, IfOk, IfSome, IsTrue, length, slice_index, slice_index_or};
ghost use Rattle.pesp_instance.specs.Network.{IsNetwork, Network, event_ids};
ghost use Rattle.pesp_search.specs.Parts.{AreAgreed, AreLeast, IsFirst, IsMarked, IsUnmarked};
ghost use Rattle.pesp_search.specs.Paths.{at};

use pesp_base::{Activity, EventId, Memory};
use pesp_instance::Instance;
use std::alloc::Global;

/// The index of an event in an ascending list.
fn index_of(events: &[EventId], event: EventId) -> Option<usize>
    ensures { IfSome result (λ k. (k < length events.now) × (slice_index events.now k ≡ event)) }
{
    match events.binary_search(&event) {
        Ok(index) => Some(index),
        Err(_) => None,
    }
}

/// Labels an event that has no label yet, and queues it.
fn label_event(
    events: &[EventId],
    event: EventId,
    label: usize,
    labels: &mut [usize],
    waiting: &mut Vec<EventId>,
) -> Result<(), Memory>
    requires { length labels.old ≡ length events.now }
    ensures { length labels.new ≡ length labels.old }
{
    if let Some(index) = index_of(events, event) {
        if labels[index] == events.len() {
            labels[index] = label;
            if waiting.push(event).is_err() {
                return Err(Memory);
            }
        }
    }
    Ok(())
}

/// Labels the neighbours of this event.
fn label_around(
    instance: &Instance,
    events: &[EventId],
    event: EventId,
    label: usize,
    labels: &mut [usize],
    waiting: &mut Vec<EventId>,
) -> Result<(), Memory>
    requires { length labels.old ≡ length events.now }
    ensures { length labels.new ≡ length labels.old }
{
    for activity in instance.around(event) {
        label_event(events, activity.from, label, labels, waiting)?;
        label_event(events, activity.to, label, labels, waiting)?;
    }
    Ok(())
}

/// Labels the event and all of its part.
fn label_part(
    instance: &Instance,
    events: &[EventId],
    event: EventId,
    label: usize,
    labels: &mut [usize],
    waiting: &mut Vec<EventId>,
) -> Result<(), Memory>
    requires { length labels.old ≡ length events.now }
    ensures { length labels.new ≡ length labels.old }
{
    waiting.clear();
    label_event(events, event, label, labels, waiting)?;
    for step in 0..events.len() {
        let Some(next) = waiting.get(step) else {
            return Ok(());
        };
        let next = *next;
        label_around(instance, events, next, label, labels, waiting)?;
    }
    Ok(())
}

/// A label for each event: the index of the first event of its part.
fn labels_of(alloc: Global, instance: &Instance, events: &[EventId]) -> Result<Vec<usize>, Memory>
    ensures { IfOk result (λ labels. length labels.items ≡ length events.now) }
{
    // The number of events means no label.
    let Ok(mut labels) = vec![in alloc; events.len(); events.len()] else {
        return Err(Memory);
    };
    let Ok(mut waiting) = Vec::with_capacity(alloc, events.len()) else {
        return Err(Memory);
    };
    for index in 0..events.len() {
        if labels[index] == events.len() {
            label_part(
                instance,
                events,
                events[index],
                index,
                &mut labels,
                &mut waiting,
            )?;
        }
    }
    Ok(labels)
}

/// Whether both ends of an activity have the same label.
fn has_one_label(activity: &Activity, events: &[EventId], labels: &[usize]) -> bool
    requires { length labels.now ≡ length events.now }
    ensures { (I : Network) → IsNetwork I → events.now ≡ event_ids I → result ≡ true
        → at I labels.now activity.now.from ≡ at I labels.now activity.now.to }
{
    match (
        index_of(events, activity.from),
        index_of(events, activity.to),
    ) {
        (Some(from), Some(to)) => labels[from] == labels[to],
        _ => false,
    }
}

/// Whether both ends of each activity have the same label.
fn are_agreed(instance: &Instance, events: &[EventId], labels: &[usize]) -> bool
    requires events { events.now ≡ event_ids instance.now }
    requires long { length labels.now ≡ length events.now }
    ensures { result ≡ true → AreAgreed instance.now labels.now }
{
    for activity in instance.activities() {
        if !has_one_label(activity, events, labels) {
            return false;
        }
    }
    true
}

/// Clears the mark at an index, if there is one.
fn unmark(marks: &mut [bool], index: usize)
    ensures long { length marks.new ≡ length marks.old }
    ensures off { IsUnmarked index marks.old marks.new }
{
    if index < marks.len() {
        marks[index] = false;
    }
}

/// Clears marks for the label of the event at an index.
fn mark(marks: &mut [bool], index: usize, label: usize, has_window: bool)
    ensures long { length marks.new ≡ length marks.old }
    ensures marked { IsMarked index label has_window marks.old marks.new }
{
    if label != index {
        unmark(marks, index);
    }
    if has_window || index < label {
        unmark(marks, label);
    }
}

/// Marks the first event of each label without a windowed event.
fn first_of_labels(
    alloc: Global,
    instance: &Instance,
    events: &[EventId],
    labels: &[usize],
    are_agreed: bool,
) -> Result<Vec<bool>, Memory>
    requires events { events.now ≡ event_ids instance.now }
    requires long { length labels.now ≡ length events.now }
    ensures long { IfOk result (λ marks. length marks.items ≡ length events.now) }
    ensures first { IfOk result (λ marks. (k : ℕ) → IsTrue (slice_index_or marks.items k false)
        → (are_agreed ≡ true) × IsFirst instance.now labels.now (length events.now) k) }
{
    let Ok(mut marks) = vec![in alloc; are_agreed; events.len()] else {
        return Err(Memory);
    };
    for index in 0..events.len() {
        let has_window = instance.window(events[index]).is_some();
        mark(&mut marks, index, labels[index], has_window);
    }
    Ok(marks)
}

/// Marks the first event of each connected part without a window.
pub(crate) fn least_of_parts(
    alloc: Global,
    instance: &Instance,
    events: &[EventId],
) -> Result<Vec<bool>, Memory>
    requires network { IsNetwork instance.now }
    requires events { events.now ≡ event_ids instance.now }
    ensures { IfOk result (λ marks. AreLeast instance.now marks.items) }
{
    let labels = labels_of(alloc, instance, events)?;
    let are_agreed = are_agreed(instance, events, &labels);
    first_of_labels(alloc, instance, events, &labels, are_agreed)
}
