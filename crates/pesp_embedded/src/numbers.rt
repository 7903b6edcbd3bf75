//! Queries that a session answers in numbers.

ghost use Rattle.std.specs.Prelude.{◌≡◌, None, IfSome};
ghost use Rattle.pesp_embedded.specs.Faults.{told_fault};
ghost use Rattle.pesp_embedded.specs.Sessions.{AreShown, IsDomainShown, IsNumber, change_in, events_in, times_in, work_in};
ghost use Rattle.pesp_embedded.specs.declared.fault.Fault.TheVariants as fault;

use crate::domain::show_domain;
use crate::lists::{show_events, show_times};
use crate::moves::tell_change;
use crate::{Fault, Session, Told};
use std::alloc::Global;

/// By how much the cost would change if the event had this time. The session does not change.
///
/// Only the activities at the event are visited.
///
/// Statuses in order: 10 if the session is closed; 13 with reason 2 if there is no such event,
/// which is `place`; 13 with reason 4 if the time is not below the period; 13 with reason 11 if an
/// event has no time, with `place` the least such event. Otherwise 0. With a status above 0
/// `change` is unchanged.
#[unsafe(no_mangle)]
pub extern "C" fn pesp_try_move(
    alloc: Global,
    session: &mut Session,
    event: u32,
    time: u16,
    change: &mut i64,
    told: &mut Told,
)
    ensures answered { IfSome (work_in session.old.handle.kept) (λ w.
        IsNumber (change_in w event time) change.old change.new told.new) }
    ensures closed { work_in session.old.handle.kept ≡ None → told.new ≡ told_fault fault.Closed }
    ensures untouched { work_in session.old.handle.kept ≡ None → change.new ≡ change.old }
    ensures unchanged { session.new.handle.kept ≡ session.old.handle.kept }
{
    let Some(kept) = session.take(alloc) else {
        *told = Fault::Closed.told();
        return;
    };
    *told = tell_change(&kept.bench, event, time, change);
    session.put(kept);
}

/// The events, in ascending order. The session does not change.
///
/// `out` receives as many as fit, from its start; the rest of it is unchanged. `told.length` is the
/// number of events. Status 10 if the session is closed, and then `out` is unchanged; otherwise 0.
#[unsafe(no_mangle)]
pub extern "C" fn pesp_events(
    alloc: Global,
    session: &mut Session,
    out: &mut [u32],
    told: &mut Told,
)
    ensures answered { IfSome (work_in session.old.handle.kept) (λ w.
        AreShown (events_in w) out.old out.new told.new) }
    ensures closed { work_in session.old.handle.kept ≡ None → told.new ≡ told_fault fault.Closed }
    ensures untouched { work_in session.old.handle.kept ≡ None → out.new ≡ out.old }
    ensures unchanged { session.new.handle.kept ≡ session.old.handle.kept }
{
    let Some(kept) = session.take(alloc) else {
        *told = Fault::Closed.told();
        return;
    };
    *told = show_events(&kept.bench, out);
    session.put(kept);
}

/// The time of each event in the working timetable, in ascending order of events;
/// [`NO_TIME`](crate::NO_TIME) if it has none. The session does not change.
///
/// `out` receives as many as fit, from its start; the rest of it is unchanged. `told.length` is the
/// number of events. Status 10 if the session is closed, and then `out` is unchanged; otherwise 0.
#[unsafe(no_mangle)]
pub extern "C" fn pesp_times(alloc: Global, session: &mut Session, out: &mut [u16], told: &mut Told)
    ensures answered { IfSome (work_in session.old.handle.kept) (λ w.
        AreShown (times_in w) out.old out.new told.new) }
    ensures closed { work_in session.old.handle.kept ≡ None → told.new ≡ told_fault fault.Closed }
    ensures untouched { work_in session.old.handle.kept ≡ None → out.new ≡ out.old }
    ensures unchanged { session.new.handle.kept ≡ session.old.handle.kept }
{
    let Some(kept) = session.take(alloc) else {
        *told = Fault::Closed.told();
        return;
    };
    *told = show_times(&kept.bench, out);
    session.put(kept);
}

/// The domain of an event: residue r is in it exactly if bit r % 8, counted from the lowest, of
/// byte r / 8 is set. The session does not change.
///
/// There are (period + 7) / 8 bytes, which is `told.length`. `out` receives as many as fit, from
/// its start; the rest of it is unchanged.
///
/// Statuses in order: 10 if the session is closed; 13 with reason 2 if there is no such event,
/// which is `place`. Otherwise 0. With a status above 0 `out` is unchanged.
#[unsafe(no_mangle)]
pub extern "C" fn pesp_domain(
    alloc: Global,
    session: &mut Session,
    event: u32,
    out: &mut [u8],
    told: &mut Told,
)
    ensures answered { IfSome (work_in session.old.handle.kept) (λ w.
        IsDomainShown w event out.old out.new told.new) }
    ensures closed { work_in session.old.handle.kept ≡ None → told.new ≡ told_fault fault.Closed }
    ensures untouched { work_in session.old.handle.kept ≡ None → out.new ≡ out.old }
    ensures unchanged { session.new.handle.kept ≡ session.old.handle.kept }
{
    let Some(kept) = session.take(alloc) else {
        *told = Fault::Closed.told();
        return;
    };
    *told = show_domain(&kept.bench, event, out);
    session.put(kept);
}
