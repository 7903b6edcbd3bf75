//! Files read for the examples.
//!
//! No function here has a contract, so that proofs of the examples compute no text.

use crate::made::period;
use pesp_base::Period;
use pesp_instance::Instance;
use pesp_tension::Timetable;
use pesplib_reader::{ReadFault, read_activities, read_fixed, read_times};
use std::alloc::Global;
use std::process::Abort;

/// The instance of a file of activities.
pub(crate) fn read(alloc: Global, period: Period, text: &[u8]) -> Result<Instance, ReadFault> {
    read_activities(alloc, period, text)
}

/// Fixes the times of a file.
pub(crate) fn fix(alloc: Global, instance: &mut Instance, text: &[u8]) -> Result<(), ReadFault> {
    read_fixed(alloc, instance, text)
}

/// The instance of files of activities and of fixed times, at period 10.
pub(crate) fn read_both(
    rt: &(impl Abort + AllocGlobal),
    activities: &str,
    fixed: &str,
) -> Result<Instance, ReadFault> {
    let mut instance = read(rt.alloc(), period(rt, 10), activities.as_bytes())?;
    fix(rt.alloc(), &mut instance, fixed.as_bytes())?;
    Ok(instance)
}

/// The timetable of a file of times, at period 10.
pub(crate) fn timetable(
    rt: &(impl Abort + AllocGlobal),
    text: &[u8],
) -> Result<Timetable, ReadFault> {
    read_times(rt.alloc(), period(rt, 10), text)
}
