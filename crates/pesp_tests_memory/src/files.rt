//! Files that are read and written, and calls of a timetable.

use crate::call::{Call, is_asked, is_wanted, try_and_drop};
use crate::{made, showing};
use pesp_base::{EventId, Memory, Period, Refusal};
use pesp_instance::Instance;
use pesp_tension::{Timetable, tensions, violations};
use pesplib_reader::{FaultKind, ReadFault, read_activities, read_fixed, read_times};
use pesplib_writer::{dump, write_activities, write_fixed, write_times};
use std::alloc::Global;

const ACTIVITIES: &[u8] = b"1; 1; 2; 3; 5; 2\n2; 2; 1; 4; 6; 1\n";

const TIMES: &[u8] = b"1; 0\n2; 4\n";

/// A call on an instance and a timetable.
#[derive(Clone, Copy)]
enum Ask {
    Set,
    Tensions,
    Violations,
    ReadActivities,
    ReadFixed,
    ReadTimes,
    WriteActivities,
    WriteFixed,
    WriteTimes,
    Dump,
}

#[derive(Drop)]
struct Lent {
    // The instance that the call is made on,
    instance: Instance,
    // with its timetable,
    times: Timetable,
    // the event that it names,
    event: EventId,
    // and which call it is.
    ask: Ask,
}

fn refused(rt: &impl Print, refusal: Refusal) -> bool {
    is_wanted(rt, Err(refusal))
}

fn is_faulty(rt: &impl Print, fault: ReadFault) -> bool {
    showing::line(rt, &fault);
    fault.kind == FaultKind::Memory
}

fn set(rt: &impl Print, times: &mut Timetable, event: EventId, time: u16) -> bool {
    is_wanted(rt, times.set(event, time))
}

fn tell_tensions(rt: &impl Print, alloc: Global, instance: &Instance, times: &Timetable) -> bool {
    if instance.period() != times.period() {
        return false;
    }
    match tensions(alloc, instance, times) {
        Ok(tensions) => {
            showing::line(rt, &tensions);
            false
        }
        Err(refusal) => refused(rt, refusal),
    }
}

fn tell_violations(rt: &impl Print, alloc: Global, instance: &Instance, times: &Timetable) -> bool {
    if instance.period() != times.period() {
        return false;
    }
    match violations(alloc, instance, times) {
        Ok(violations) => {
            showing::line(rt, &violations);
            false
        }
        Err(refusal) => refused(rt, refusal),
    }
}

fn tell_activities(rt: &impl Print, alloc: Global, instance: &Instance, text: &[u8]) -> bool {
    match read_activities(alloc, instance.period(), text) {
        Ok(instance) => {
            showing::instance(rt, &instance);
            false
        }
        Err(fault) => is_faulty(rt, fault),
    }
}

fn tell_times(rt: &impl Print, alloc: Global, instance: &Instance, text: &[u8]) -> bool {
    match read_times(alloc, instance.period(), text) {
        Ok(times) => {
            showing::timetable(rt, &times);
            false
        }
        Err(fault) => is_faulty(rt, fault),
    }
}

fn tell_fixed(rt: &impl Print, alloc: Global, instance: &mut Instance, text: &[u8]) -> bool {
    match read_fixed(alloc, instance, text) {
        Ok(()) => {
            let _ = rt.println("Ok");
            false
        }
        Err(fault) => is_faulty(rt, fault),
    }
}

fn tell_text(rt: &impl Print, text: Result<Vec<u8>, Memory>) -> bool {
    showing::line(rt, &text);
    text.is_err()
}

impl Call for Lent {
    fn show<R: Print>(&self, rt: &R) {
        showing::instance(rt, &self.instance);
        showing::timetable(rt, &self.times);
    }

    fn make<R: Print + AllocGlobal>(&mut self, rt: &R) -> bool {
        match self.ask {
            Ask::Set => set(rt, &mut self.times, self.event, 4),
            Ask::Tensions => tell_tensions(rt, rt.alloc(), &self.instance, &self.times),
            Ask::Violations => tell_violations(rt, rt.alloc(), &self.instance, &self.times),
            Ask::ReadActivities => tell_activities(rt, rt.alloc(), &self.instance, ACTIVITIES),
            Ask::ReadFixed => tell_fixed(rt, rt.alloc(), &mut self.instance, TIMES),
            Ask::ReadTimes => tell_times(rt, rt.alloc(), &self.instance, TIMES),
            Ask::WriteActivities => tell_text(rt, write_activities(rt.alloc(), &self.instance)),
            Ask::WriteFixed => tell_text(rt, write_fixed(rt.alloc(), &self.instance)),
            Ask::WriteTimes => tell_text(rt, write_times(rt.alloc(), &self.times)),
            Ask::Dump => tell_text(rt, dump(rt.alloc(), &self.instance)),
        }
    }
}

/// A timetable with these times.
fn timetable(alloc: Global, period: Period, times: &[(u32, u16)]) -> Option<Timetable> {
    let mut timetable = Timetable::new(alloc, period);
    for (event, time) in times {
        timetable.set(EventId::new(*event)?, *time).ok()?;
    }
    Some(timetable)
}

/// Two activities, and a timetable with the given times.
fn two_with(alloc: Global, times: &[(u32, u16)], ask: Ask) -> Option<Lent> {
    let event = EventId::new(2)?;
    let instance = made::two(alloc)?;
    let times = timetable(alloc, instance.period(), times)?;
    Some(Lent {
        instance,
        times,
        event,
        ask,
    })
}

const BOTH_TIMES: &[(u32, u16)] = &[(1, 0), (2, 3)];

/// The calls by name, with the times of the timetable.
const CASES: &[(&str, &[(u32, u16)], Ask)] = &[
    ("Timetable::set", &[], Ask::Set),
    ("tensions", BOTH_TIMES, Ask::Tensions),
    ("violations", BOTH_TIMES, Ask::Violations),
    ("read_activities", BOTH_TIMES, Ask::ReadActivities),
    ("read_fixed", BOTH_TIMES, Ask::ReadFixed),
    ("read_times", BOTH_TIMES, Ask::ReadTimes),
    ("write_activities", BOTH_TIMES, Ask::WriteActivities),
    ("write_fixed", BOTH_TIMES, Ask::WriteFixed),
    ("write_times", BOTH_TIMES, Ask::WriteTimes),
    ("dump", BOTH_TIMES, Ask::Dump),
];

fn try_one<R: Print + AllocGlobal>(rt: &R, times: &[(u32, u16)], ask: Ask) -> Option<()> {
    try_and_drop(rt, two_with(rt.alloc(), times, ask)?);
    Some(())
}

pub(crate) fn try_all<R: Print + AllocGlobal>(rt: &R, words: &[String]) -> Option<()> {
    for (name, times, ask) in CASES {
        if is_asked(rt, words, name) {
            try_one(rt, times, *ask)?;
        }
    }
    Some(())
}
