//! Files of times.

ghost use Rattle.std.specs.Prelude.{◌≡◌, ◌<◌, Ok, IfOk, IfErr, OnOk};
ghost use Rattle.pesp_base.specs.Tensions.{residue};
ghost use Rattle.pesplib_reader.specs.Left.{trimmed_fields};
ghost use Rattle.pesplib_reader.specs.Taking.{IsReadFault, IsTakeFault, row_taken};
ghost use Rattle.pesplib_reader.specs.Reading.{event_taken, time_faults_after, times_read, with_time_row};

use crate::records::{Records, time_row};
use crate::{FaultKind, ReadFault};
use csv::ByteRecord;
use pesp_base::{EventId, Period, Refusal};
use pesp_tension::Timetable;
use std::alloc::Global;

/// The remainder of a time, from 0 to the period less 1.
pub(crate) fn remainder(time: i64, period: Period) -> u16
    ensures value { result ≡ residue period time }
    ensures below { result < period }
{
    time.rem_euclid(i64::from(period.get())) as u16
}

/// Adds the time of an event, modulo the period. Faults in order: `DuplicateEvent`,
/// `TooManyEvents`, `Memory`.
fn add_time(timetable: &mut Timetable, event: EventId, time: i64) -> Result<(), FaultKind>
    ensures ok { OnOk result (event_taken timetable.old event time ≡ Ok timetable.new) }
    ensures period { timetable.new.period ≡ timetable.old.period }
    ensures fault { IfErr result (IsTakeFault (event_taken timetable.old event time)) }
{
    if timetable.get(event).is_some() {
        return Err(FaultKind::DuplicateEvent);
    }
    match timetable.set(event, remainder(time, timetable.period())) {
        Ok(()) => Ok(()),
        Err(Refusal::TooManyEvents) => Err(FaultKind::TooManyEvents),
        Err(_) => Err(FaultKind::Memory),
    }
}

/// Adds the event and the time of a row.
fn take_time(timetable: &mut Timetable, fields: &ByteRecord) -> Result<(), FaultKind>
    ensures ok { OnOk result (row_taken time_faults_after with_time_row timetable.old
        (trimmed_fields fields.now) ≡ Ok timetable.new) }
    ensures period { timetable.new.period ≡ timetable.old.period }
    ensures fault { IfErr result (IsTakeFault
        (row_taken time_faults_after with_time_row timetable.old (trimmed_fields fields.now))) }
{
    let Some(row) = time_row(fields) else {
        return Err(FaultKind::FieldCount);
    };
    let (event, time) = row.event_and_time()?;
    add_time(timetable, event, time)
}

/// The timetable of a file of times, or the fault of its first faulty row.
///
/// A row has an event and a time, which counts modulo the period. The first fault of a row is
/// reported: `FieldCount`, `BadNumber` or `OutOfRange` from left to right, `DuplicateEvent`,
/// `TooManyEvents`. `Memory` has the number of records read so far plus one.
pub fn read_times(alloc: Global, period: Period, bytes: &[u8]) -> Result<Timetable, ReadFault>
    ensures ok { IfOk result (λ timetable. times_read period bytes.now ≡ Ok timetable) }
    ensures fault { IfErr result (IsReadFault bytes.now (times_read period bytes.now)) }
{
    let mut timetable = Timetable::new(alloc, period);
    let mut records = Records::new(alloc, bytes);
    'rows: while records.next()? {
        if let Err(kind) = take_time(&mut timetable, records.record()) {
            return Err(records.fault(kind));
        }
    }
    Ok(timetable)
}
