//! Files of activities.

ghost use Rattle.std.specs.Prelude.{◌≡◌, ◌≤◌, ◌++◌, ◌∷◌, [], true, nat_lt, None, Ok, IfSome, IfOk, IfErr, OnOk, length};
ghost use Rattle.pesp_base.specs.Limits as limits;
ghost use Rattle.pesp_base.specs.Refusals.{unless_refused};
ghost use Rattle.pesp_instance.specs.Network.{activity_of};
ghost use Rattle.pesplib_reader.specs.declared.fault.FaultKind.TheVariants as fault;
ghost use Rattle.pesplib_reader.specs.Left.{trimmed_fields};
ghost use Rattle.pesplib_reader.specs.Rows.{activity_faults, activity_in};
ghost use Rattle.pesplib_reader.specs.Taking.{IsReadFault, IsTakeFault, row_taken};
ghost use Rattle.pesplib_reader.specs.Reading.{activities_read, activity_faults_after, activity_taken, with_activity_row, with_ends, with_event};

use crate::records::{Records, activity_row};
use crate::{FaultKind, ReadFault};
use csv::ByteRecord;
use pesp_base::{Activity, EventId, Period, Refusal, max_activities, max_events};
use pesp_instance::{Edit, Instance};
use std::alloc::Global;

/// The number of events together with the ends of an activity.
fn count_with_ends(instance: &Instance, activity: &Activity) -> usize
    ensures { result ≡ length (with_ends instance.now activity.now).events }
{
    let mut count = instance.event_count();
    if !instance.has_event(activity.from) {
        count += 1;
    }
    if activity.to != activity.from && !instance.has_event(activity.to) {
        count += 1;
    }
    count
}

/// Whether there are too many events together with the ends of an activity.
///
/// At most two ends are new, so they are looked up only near the limit.
fn exceeds_with_ends(instance: &Instance, activity: &Activity) -> bool
    ensures { result ≡ nat_lt (limits.max_events instance.now.period)
        (length (with_ends instance.now activity.now).events) }
{
    let limit = max_events(instance.period());
    if instance.event_count() + 2 <= limit {
        return false;
    }
    count_with_ends(instance, activity) > limit
}

/// Adds an event, unless it exists. The only fault is `Memory`.
fn add_event(instance: &mut Instance, event: EventId) -> Result<(), FaultKind>
    ensures ok { OnOk result (instance.new ≡ with_event instance.old event) }
    ensures memory { IfErr result (λ found. found ≡ fault.Memory) }
{
    if instance.has_event(event) {
        return Ok(());
    }
    match instance.apply(&Edit::AddEvent(event)) {
        Ok(()) => Ok(()),
        Err(_) => Err(FaultKind::Memory),
    }
}

/// Adds an activity of a new number, with those of its ends that are new. Faults in order:
/// `TooManyEvents`, `TooManyActivities`, `Memory`.
fn add_with_ends(instance: &mut Instance, activity: &Activity) -> Result<(), FaultKind>
    requires { activity_of instance.old activity.now.id ≡ None }
    ensures ok { OnOk result (activity_taken instance.old activity.now ≡ Ok instance.new) }
    ensures fault { IfErr result (IsTakeFault (activity_taken instance.old activity.now)) }
{
    if exceeds_with_ends(instance, activity) {
        return Err(FaultKind::TooManyEvents);
    }
    if instance.activity_count() >= max_activities(instance.period()) {
        return Err(FaultKind::TooManyActivities);
    }
    add_event(instance, activity.from)?;
    add_event(instance, activity.to)?;
    match instance.apply(&Edit::AddActivity(*activity)) {
        Ok(()) => Ok(()),
        Err(_) => Err(FaultKind::Memory),
    }
}

/// Adds an activity. Faults in order: `DuplicateActivity`, `TooManyEvents`, `TooManyActivities`,
/// `Memory`. If both ends exist, each is looked up once.
fn add_activity(instance: &mut Instance, activity: &Activity) -> Result<(), FaultKind>
    requires { length instance.old.events ≤ limits.max_events instance.old.period }
    ensures ok { OnOk result (activity_taken instance.old activity.now ≡ Ok instance.new) }
    ensures fault { IfErr result (IsTakeFault (activity_taken instance.old activity.now)) }
{
    match instance.apply(&Edit::AddActivity(*activity)) {
        Ok(()) => Ok(()),
        Err(Refusal::Memory) => Err(FaultKind::Memory),
        // A number that exists is refused before a missing end, so this one is new.
        Err(Refusal::NoEvent(_)) => add_with_ends(instance, activity),
        Err(Refusal::TooManyActivities) => Err(FaultKind::TooManyActivities),
        Err(_) => Err(FaultKind::DuplicateActivity),
    }
}

/// The activity of a row, or the first fault that the row has by itself.
fn activity_of_row(fields: &ByteRecord) -> Result<Activity, FaultKind>
    ensures { result ≡ unless_refused
        (activity_faults (trimmed_fields fields.now)) (activity_in (trimmed_fields fields.now)) }
{
    match activity_row(fields) {
        Some(row) => row.activity(),
        None => Err(FaultKind::FieldCount),
    }
}

/// Adds the activity of a row.
fn take_activity(instance: &mut Instance, fields: &ByteRecord) -> Result<(), FaultKind>
    requires { length instance.old.events ≤ limits.max_events instance.old.period }
    ensures ok { OnOk result (row_taken activity_faults_after with_activity_row instance.old
        (trimmed_fields fields.now) ≡ Ok instance.new) }
    ensures few { OnOk result (length instance.new.events ≤ limits.max_events instance.new.period) }
    ensures fault { IfErr result (IsTakeFault
        (row_taken activity_faults_after with_activity_row instance.old
        (trimmed_fields fields.now))) }
{
    let activity = activity_of_row(fields)?;
    add_activity(instance, &activity)
}

/// Collects an activity, and adds those of its ends that are new. Returns whether there was memory
/// for all three.
fn gather(instance: &mut Instance, activities: &mut Vec<Activity>, activity: Activity) -> bool
    ensures ends { result ≡ true → instance.new ≡ with_ends instance.old activity }
    ensures gathered { result ≡ true → activities.new.items ≡ activities.old.items ++ activity ∷ [] }
{
    if add_event(instance, activity.from).is_err() {
        return false;
    }
    if add_event(instance, activity.to).is_err() {
        return false;
    }
    activities.push(activity).is_ok()
}

/// The instance of a file of activities, or the fault of the first row that is faulty by itself or
/// surplus, if those before it are valid. None if a row is faulty because of those before it, or
/// memory for all of them at once runs out.
///
/// It costs less than one row after another: docs/HISTORY.md, "Activities stored at once".
// Not inlined, so that its locals are not on the stack while the other reader runs: docs/HISTORY.md
// has the stack with both in one frame under "Activities stored at once".
#[inline(never)]
fn read_at_once(alloc: Global, period: Period, bytes: &[u8]) -> Option<Result<Instance, ReadFault>>
    ensures ok { IfSome result (λ told. IfOk told
        (λ instance. activities_read period bytes.now ≡ Ok instance)) }
    ensures fault { IfSome result (λ told. IfErr told
        (IsReadFault bytes.now (activities_read period bytes.now))) }
{
    let limit = max_activities(period);
    let mut instance = Instance::new(alloc, period);
    let mut activities = Vec::new(alloc);
    let mut records = Records::new(alloc, bytes);
    'rows: while records.next().ok()? {
        match activity_of_row(records.record()) {
            Ok(activity) if activities.len() < limit => {
                if !gather(&mut instance, &mut activities, activity) {
                    return None;
                }
            }
            _ => {
                // The rows before this one are stored first, because its fault may depend on them.
                let mut before = instance.with_activities(activities).ok()??;
                let kind = take_activity(&mut before, records.record()).err()?;
                return Some(Err(records.fault(kind)));
            }
        }
    }
    Some(Ok(instance.with_activities(activities).ok()??))
}

/// The same row by row, or the fault of the first faulty row.
#[inline(never)]
fn read_one_by_one(alloc: Global, period: Period, bytes: &[u8]) -> Result<Instance, ReadFault>
    ensures ok { IfOk result (λ instance. activities_read period bytes.now ≡ Ok instance) }
    ensures fault { IfErr result (IsReadFault bytes.now (activities_read period bytes.now)) }
{
    let mut instance = Instance::new(alloc, period);
    let mut records = Records::new(alloc, bytes);
    'rows: while records.next()? {
        if let Err(kind) = take_activity(&mut instance, records.record()) {
            return Err(records.fault(kind));
        }
    }
    Ok(instance)
}

/// The instance of a file of activities, or the fault of its first faulty row.
///
/// The events are the ends of the activities, and none has a window. A row has the number of an
/// activity, its ends, its lower and its upper bound, and its weight. The first fault of a row is
/// reported: `FieldCount`, `BadNumber`, `FractionalWeight` or `OutOfRange` from left to right,
/// `Crossed`, `DuplicateActivity`, `TooManyEvents`, `TooManyActivities`. `Memory` has the number of
/// records read so far plus one.
pub fn read_activities(alloc: Global, period: Period, bytes: &[u8]) -> Result<Instance, ReadFault>
    ensures ok { IfOk result (λ instance. activities_read period bytes.now ≡ Ok instance) }
    ensures fault { IfErr result (IsReadFault bytes.now (activities_read period bytes.now)) }
{
    match read_at_once(alloc, period, bytes) {
        Some(told) => told,
        None => read_one_by_one(alloc, period, bytes),
    }
}
