//! Files of fixed times.

ghost use Rattle.std.specs.Prelude.{◌≡◌, Ok, IfOk, IfErr, OnOk, OnErr};
ghost use Rattle.pesp_tension.specs.Timetables.{Times};
ghost use Rattle.pesplib_reader.specs.Left.{trimmed_fields};
ghost use Rattle.pesplib_reader.specs.Taking.{IsReadFault, IsTakeFault, row_taken};
ghost use Rattle.pesplib_reader.specs.Reading.{AreFixable, fixed_faults_after, fixed_read, fixed_taken, with_fixed, with_time_row};

use crate::records::{Records, time_row};
use crate::times::remainder;
use crate::{FaultKind, ReadFault};
use csv::ByteRecord;
use pesp_base::EventId;
use pesp_instance::{Edit, Instance};
use pesp_tension::Timetable;
use std::alloc::Global;

/// Adds the time of an event, modulo the period. Faults in order: `DuplicateEvent`, `NoEvent`,
/// `Memory`.
fn add_fixed(
    instance: &Instance,
    times: &mut Timetable,
    event: EventId,
    time: i64,
) -> Result<(), FaultKind>
    ensures ok { OnOk result (fixed_taken instance.now times.old event time ≡ Ok times.new) }
    ensures fault { IfErr result (IsTakeFault (fixed_taken instance.now times.old event time)) }
{
    if times.get(event).is_some() {
        return Err(FaultKind::DuplicateEvent);
    }
    if !instance.has_event(event) {
        return Err(FaultKind::NoEvent);
    }
    match times.set(event, remainder(time, times.period())) {
        Ok(()) => Ok(()),
        Err(_) => Err(FaultKind::Memory),
    }
}

/// Adds the event and the time of a row.
fn take_fixed(
    instance: &Instance,
    times: &mut Timetable,
    fields: &ByteRecord,
) -> Result<(), FaultKind>
    ensures ok { OnOk result (row_taken (fixed_faults_after instance.now) with_time_row times.old
        (trimmed_fields fields.now) ≡ Ok times.new) }
    ensures fault { IfErr result (IsTakeFault
        (row_taken (fixed_faults_after instance.now) with_time_row times.old
        (trimmed_fields fields.now))) }
{
    let Some(row) = time_row(fields) else {
        return Err(FaultKind::FieldCount);
    };
    let (event, time) = row.event_and_time()?;
    add_fixed(instance, times, event, time)
}

/// The fixed times of a file, for events of an instance.
fn fixed_times(alloc: Global, instance: &Instance, bytes: &[u8]) -> Result<Timetable, ReadFault>
    ensures ok { IfOk result (λ times. fixed_read instance.now bytes.now ≡ Ok times) }
    ensures fixable { IfOk result (λ times. AreFixable instance.now times.entries) }
    ensures fault { IfErr result (IsReadFault bytes.now (fixed_read instance.now bytes.now)) }
{
    let mut times = Timetable::new(alloc, instance.period());
    let mut records = Records::new(alloc, bytes);
    'rows: while records.next()? {
        if let Err(kind) = take_fixed(instance, &mut times, records.record()) {
            return Err(records.fault(kind));
        }
    }
    Ok(times)
}

/// Fixes each of these times.
fn fix_all(instance: &mut Instance, times: &Timetable)
    requires { AreFixable instance.old times.now.entries }
    ensures { instance.new ≡ with_fixed instance.old times.now }
{
    for fixed in times.walk() {
        instance.apply(&Edit::Fix(fixed.event, fixed.time)).unwrap();
    }
}

/// Fixes the times of a file of fixed times, or returns the fault of its first faulty row.
///
/// A fixed time replaces any window of its event. The whole file is read before the first event is
/// fixed, so a fault changes nothing. A row has an event and a time, which counts modulo the
/// period. The first fault of a row is reported: `FieldCount`, `BadNumber` or `OutOfRange` from
/// left to right, `DuplicateEvent`, `NoEvent`. `Memory` has the number of records read so far plus
/// one.
pub fn read_fixed(alloc: Global, instance: &mut Instance, bytes: &[u8]) -> Result<(), ReadFault>
    ensures ok { OnOk result ((m : Times) × (fixed_read instance.old bytes.now ≡ Ok m)
        × (instance.new ≡ with_fixed instance.old m)) }
    ensures fault { IfErr result (IsReadFault bytes.now (fixed_read instance.old bytes.now)) }
    ensures unchanged { OnErr result (instance.new ≡ instance.old) }
{
    let times = fixed_times(alloc, instance, bytes)?;
    fix_all(instance, &times);
    Ok(())
}
