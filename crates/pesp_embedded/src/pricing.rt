//! The cost of the best timetable under one more restriction, in numbers.

ghost use Rattle.std.specs.Prelude.{◌≡◌, ◌≢◌, None, IfErr, IfOk, IsSome, IsSomeAnd};
ghost use Rattle.pesp_bench.specs.declared.trial.Trial.TheVariants.{Span as Spanned, Time};
ghost use Rattle.pesp_embedded.specs.Faults.{told_fault};
ghost use Rattle.pesp_embedded.specs.Numbers.{told_done};
ghost use Rattle.pesp_embedded.specs.Prices.{IsPriceRefused, IsPriceTold, tension_span};
ghost use Rattle.pesp_embedded.specs.Searches.{known_in};
ghost use Rattle.pesp_embedded.specs.Sessions.{work_in};
ghost use Rattle.pesp_embedded.specs.declared.fault.Fault.TheVariants as fault;

use crate::activity::{activity_of, no_activity};
use crate::event::{event_of, no_event};
use crate::{Fault, Found, Session, Told};
use pesp_base::Span;
use pesp_bench::{Bench, Trial};
use pesp_counts::CountKeeper;
use std::alloc::Global;

/// The result of a search under the restriction, in at most this number of nodes, or the report of
/// its refusal.
fn price(
    alloc: Global,
    bench: &mut Bench<CountKeeper>,
    trial: &Trial,
    nodes: u64,
) -> Result<Found, Told>
    ensures told { IfOk result (IsPriceTold bench.old.instance trial.now nodes) }
    ensures refused { IfErr result (IsPriceRefused bench.old.instance trial.now) }
    ensures unchanged { bench.new ≡ record bench.old { push_count = bench.new.push_count } }
{
    match bench.price(alloc, trial, nodes) {
        Ok((known, _)) => Ok(Found::of_known(&known, bench.price_goes_on())),
        Err(refusal) => Err(Fault::of_refusal(refusal).told()),
    }
}

/// The same with the event of this number at the time.
fn price_time(
    alloc: Global,
    bench: &mut Bench<CountKeeper>,
    number: u32,
    time: u16,
    nodes: u64,
) -> Result<Found, Told>
    ensures told { IfOk result (IsPriceTold bench.old.instance (Time number time) nodes) }
    ensures refused { IfErr result (IsPriceRefused bench.old.instance (Time number time)) }
    ensures unchanged { bench.new ≡ record bench.old { push_count = bench.new.push_count } }
{
    match event_of(bench.instance(), number) {
        Some(event) => price(alloc, bench, &Trial::Time(event, time), nodes),
        None => Err(no_event(number)),
    }
}

/// The span that only this tension meets.
fn tension_span(tension: u16) -> Span
    ensures { result ≡ tension_span tension }
{
    let bound = i32::from(tension);
    Span::new(bound, bound).unwrap()
}

/// The same with the activity of this number at the tension.
fn price_tension(
    alloc: Global,
    bench: &mut Bench<CountKeeper>,
    number: u32,
    tension: u16,
    nodes: u64,
) -> Result<Found, Told>
    ensures told { IfOk result
        (IsPriceTold bench.old.instance (Spanned number (tension_span tension)) nodes) }
    ensures refused { IfErr result
        (IsPriceRefused bench.old.instance (Spanned number (tension_span tension))) }
    ensures unchanged { bench.new ≡ record bench.old { push_count = bench.new.push_count } }
{
    match activity_of(bench.instance(), number) {
        Some(activity) => price(
            alloc,
            bench,
            &Trial::Span(activity, tension_span(tension)),
            nodes,
        ),
        None => Err(no_activity()),
    }
}

/// Searches for the cost of the best timetable with the event at the time, in at most `nodes`
/// nodes.
///
/// `found` is that of [`pesp_search`](crate::pesp_search) for the instance after the line `fix`,
/// but at a time outside the event's window no timetable meets everything. No timetable is
/// returned. The instance, the working timetable and the known optimum do not change, and searches
/// of `pesp_search` are not affected. A node is one of `try` (docs/FORMATS.md, "Commands and
/// replies"). The next call with the same event and time, with no other price in between, resumes a
/// search that stopped, if `found.goes_on` is 1; no clause says so.
///
/// Statuses in order: 10 if the session is closed; 13 with reason 2 if there is no such event,
/// which is `place`; 13 with reason 4 if the time is not below the period; 6 if memory runs out,
/// which never happens outside the window. Otherwise 0. With a status above 0 `found` is unchanged.
#[unsafe(no_mangle)]
pub extern "C" fn pesp_price(
    alloc: Global,
    session: &mut Session,
    event: u32,
    time: u16,
    nodes: u64,
    found: &mut Found,
    told: &mut Told,
)
    ensures answered { told.new.status ≡ 0 → IsSomeAnd (work_in session.old.handle.kept) (λ w.
        IsPriceTold w.instance (Time event time) nodes found.new) }
    ensures done { told.new.status ≡ 0 → told.new ≡ told_done 0 }
    ensures closed { work_in session.old.handle.kept ≡ None → told.new ≡ told_fault fault.Closed }
    ensures refused { IsSome (work_in session.old.handle.kept) → told.new.status ≢ 0
        → IsSomeAnd (work_in session.old.handle.kept) (λ w.
        IsPriceRefused w.instance (Time event time) told.new) }
    ensures unchanged { work_in session.new.handle.kept ≡ work_in session.old.handle.kept }
    ensures known { known_in session.new.handle.kept ≡ known_in session.old.handle.kept }
    ensures untouched { told.new.status ≢ 0 → found.new ≡ found.old }
{
    let Some(mut kept) = session.take(alloc) else {
        *told = Fault::Closed.told();
        return;
    };
    *told = match price_time(alloc, &mut kept.bench, event, time, nodes) {
        Ok(now) => {
            *found = now;
            Told::ended(0, 0, 0)
        }
        Err(fault) => fault,
    };
    session.put(kept);
}

/// Searches for the cost of the best timetable with this tension of the activity, up to whole
/// periods, in at most `nodes` nodes.
///
/// `found` is that of [`pesp_search`](crate::pesp_search) for the instance after the line `span`
/// with the tension as both bounds, so the activity itself costs nothing. No timetable is returned.
/// The instance, the working timetable and the known optimum do not change, and searches of
/// `pesp_search` are not affected. A node is one of `try` (docs/FORMATS.md, "Commands and
/// replies"). The next call with the same activity and tension, with no other price in between,
/// resumes a search that stopped, if `found.goes_on` is 1; no clause says so.
///
/// Statuses in order: 10 if the session is closed; 13 with reason 6 if there is no such activity,
/// and `place` 0; 6 if memory runs out. Otherwise 0. With a status above 0 `found` is unchanged.
#[unsafe(no_mangle)]
pub extern "C" fn pesp_price_tension(
    alloc: Global,
    session: &mut Session,
    activity: u32,
    tension: u16,
    nodes: u64,
    found: &mut Found,
    told: &mut Told,
)
    ensures answered { told.new.status ≡ 0 → IsSomeAnd (work_in session.old.handle.kept) (λ w.
        IsPriceTold w.instance (Spanned activity (tension_span tension)) nodes found.new) }
    ensures done { told.new.status ≡ 0 → told.new ≡ told_done 0 }
    ensures closed { work_in session.old.handle.kept ≡ None → told.new ≡ told_fault fault.Closed }
    ensures refused { IsSome (work_in session.old.handle.kept) → told.new.status ≢ 0
        → IsSomeAnd (work_in session.old.handle.kept) (λ w.
        IsPriceRefused w.instance (Spanned activity (tension_span tension)) told.new) }
    ensures unchanged { work_in session.new.handle.kept ≡ work_in session.old.handle.kept }
    ensures known { known_in session.new.handle.kept ≡ known_in session.old.handle.kept }
    ensures untouched { told.new.status ≢ 0 → found.new ≡ found.old }
{
    let Some(mut kept) = session.take(alloc) else {
        *told = Fault::Closed.told();
        return;
    };
    *told = match price_tension(alloc, &mut kept.bench, activity, tension, nodes) {
        Ok(now) => {
            *found = now;
            Told::ended(0, 0, 0)
        }
        Err(fault) => fault,
    };
    session.put(kept);
}
