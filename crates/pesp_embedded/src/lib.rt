//! The workbench for callers in other languages: in C, in Rust, in Python, in a web page.
//!
//! A session is opened from files, and answers one line after another. A run is answered as a
//! whole, and nothing of it is kept. `embedded/pespbench.h` documents the calls for C, lists the
//! statuses, and has the caller's duties.
#![tactic(auto)]

mod activity;
mod answering;
mod asked;
mod asking;
mod domain;
mod event;
mod fault;
mod found;
mod front;
mod handle;
mod kept;
mod lists;
mod memory;
mod moves;
mod numbers;
mod opening;
mod pricing;
mod searching;
mod session;
mod told;
mod version;

ghost use Rattle.std.specs.Prelude.{◌≡◌, ◌≢◌, ◌≤◌, IsSome, IsSomeAnd, Some, None, Ok, Err};
ghost use Rattle.pesp_base.specs.Limits.{least_period, greatest_period};
ghost use Rattle.pesp_base.specs.declared.refusal.Refusal.{Refusal};
ghost use Rattle.pesp_shell.specs.Opening.{files};
ghost use Rattle.pesp_embedded.specs.Answered.{IsAnswered};
ghost use Rattle.pesp_embedded.specs.Faults.{IsLineFault, told_fault};
ghost use Rattle.pesp_embedded.specs.Numbers.{no_period, told_done};
ghost use Rattle.pesp_embedded.specs.Sessions.{IsAsked, IsOpened, cost_in, work_in};
ghost use Rattle.pesp_embedded.specs.declared.fault.Fault.{Fault};
ghost use Rattle.pesp_embedded.specs.declared.fault.Fault.TheVariants as fault;

use crate::asked::Asked;
use crate::front::put_front;
pub use fault::Fault;
pub use found::Found;
pub use handle::Handle;
pub use kept::Kept;
pub use lists::NO_TIME;
pub use numbers::{pesp_domain, pesp_events, pesp_times, pesp_try_move};
use pesp_base::Period;
pub use pricing::{pesp_price, pesp_price_tension};
pub use searching::pesp_search;
pub use session::Session;
use std::alloc::Global;
pub use told::Told;
pub use version::pesp_version;

/// Answers the lines of `commands`, as a run of the workbench over the three files does.
///
/// `period` is 2 to 1,440, in the unit of the files. A file without bytes is missing. `out`
/// receives as many bytes of the replies as fit, from its start; the rest of it is unchanged.
/// `told` is filled in completely: `length` is that of all replies.
///
/// Statuses in order: 9 for another period, and then `out` is unchanged; 1, 2 and 3 for the first
/// fault of the activities, the fixed times and the times, and 6 with `place` 0 if memory runs out
/// after the files are read, with no replies; then, at the first line that has one, 8 for too many
/// lines, 7 for a line that is too long, 6 if memory runs out, and 5 if it runs out for the
/// replies. Otherwise 0. `embedded/pespbench.h` has their `place`, `reason` and `field`.
#[unsafe(no_mangle)]
pub extern "C" fn pesp_answer(
    alloc: Global,
    period: u16,
    activities: &[u8],
    fixed: &[u8],
    times: &[u8],
    commands: &[u8],
    out: &mut [u8],
    told: &mut Told,
)
    ensures answered { (least_period ≤ period) × (period ≤ greatest_period)
        → IsAnswered period activities.now fixed.now times.now commands.now out.old out.new told.new }
    ensures refused { ¬ ((least_period ≤ period) × (period ≤ greatest_period))
        → told.new ≡ no_period }
    ensures untouched { ¬ ((least_period ≤ period) × (period ≤ greatest_period))
        → out.new ≡ out.old }
{
    *told = match Period::new(period) {
        Some(period) => {
            let asked = Asked {
                period,
                activities,
                fixed,
                times,
                commands,
            };
            answering::answer(alloc, &asked, out)
        }
        None => Told::no_period(),
    };
}

/// Opens a closed session from the files. A file without bytes is missing.
///
/// Statuses in order: 11 if the session is open; 9 if the period is not 2 to 1,440; 1, 2 and 3 for
/// the first fault of the activities, the fixed times and the times, with its record, its reason
/// and its field; 6 with `place` 0 if memory runs out after the files are read. Otherwise 0.
/// `length` is 0. A refused call leaves the session as it is.
#[unsafe(no_mangle)]
pub extern "C" fn pesp_open(
    alloc: Global,
    period: u16,
    activities: &[u8],
    fixed: &[u8],
    times: &[u8],
    session: &mut Session,
    told: &mut Told,
)
    ensures opened { work_in session.old.handle.kept ≡ None
        → (least_period ≤ period) × (period ≤ greatest_period)
        → IsOpened (files period activities.now (Some fixed.now) (Some times.now))
        (work_in session.new.handle.kept) told.new }
    ensures refused { work_in session.old.handle.kept ≡ None
        → ¬ ((least_period ≤ period) × (period ≤ greatest_period))
        → (told.new ≡ no_period) × (work_in session.new.handle.kept ≡ None) }
    ensures open { IsSome (work_in session.old.handle.kept) → told.new ≡ told_fault fault.Open }
    ensures unchanged { IsSome (work_in session.old.handle.kept)
        → work_in session.new.handle.kept ≡ work_in session.old.handle.kept }
{
    if let Some(kept) = session.take(alloc) {
        session.put(kept);
        *told = Fault::Open.told();
        return;
    }
    let Some(period) = Period::new(period) else {
        *told = Told::no_period();
        return;
    };
    *told = match opening::opened(alloc, period, activities, fixed, times) {
        Ok(kept) => {
            session.put(kept);
            Told::of(0, Ok(()))
        }
        Err(fault) => Told::of(0, Err(fault)),
    };
}

/// Closes a session and frees all its memory. A closed session stays closed.
///
/// The clause says that the session is closed. That its memory is freed is tested, not proved
/// (docs/PROMISES.md, "Not proved").
#[unsafe(no_mangle)]
pub extern "C" fn pesp_close(alloc: Global, session: &mut Session)
    ensures { work_in session.new.handle.kept ≡ None }
{
    drop(session.take(alloc));
}

/// Answers one line, given without its line feed. A session answers any number of lines.
///
/// `out` receives as many bytes of the reply as fit, from its start; the rest of it is unchanged.
/// `told.length` is the length of the reply.
///
/// Statuses in order: 10 if the session is closed; 7 if the line has more than 4,096 bytes; 12 if
/// there is a line feed in it; 6 if memory runs out, which a blank line or a comment never causes.
/// Otherwise 0. With a status above 0 the instance, the working timetable and `out` are unchanged;
/// an optimum may have become known. `place` is 0.
#[unsafe(no_mangle)]
pub extern "C" fn pesp_ask(
    alloc: Global,
    session: &mut Session,
    line: &[u8],
    out: &mut [u8],
    told: &mut Told,
)
    ensures answered { told.new.status ≡ 0 → IsAsked (work_in session.old.handle.kept) line.now out.old
        out.new told.new (work_in session.new.handle.kept) }
    ensures closed { work_in session.old.handle.kept ≡ None → told.new ≡ told_fault fault.Closed }
    ensures fault { IsSome (work_in session.old.handle.kept) → told.new.status ≢ 0
        → (f : Fault) × IsLineFault line.now f × (told.new ≡ told_fault f) }
    ensures unchanged { told.new.status ≢ 0
        → work_in session.new.handle.kept ≡ work_in session.old.handle.kept }
    ensures untouched { told.new.status ≢ 0 → out.new ≡ out.old }
{
    let Some(mut kept) = session.take(alloc) else {
        *told = Fault::Closed.told();
        return;
    };
    *told = match asking::ask(alloc, &mut kept.bench, line) {
        Ok(reply) => {
            put_front(out, reply.as_slice());
            Told::ended(reply.len() as u64, 0, 0)
        }
        Err(fault) => fault.told(),
    };
    session.put(kept);
}

/// The cost of the working timetable: the sum of weight times slack over all activities, met or not
/// (docs/RULES.md, "Cost").
///
/// The session never changes. If every event has a time, the call takes the same time at every
/// size: the cost is kept (docs/HISTORY.md, "A kept cost").
///
/// Statuses in order: 10 if the session is closed; 13 with reason 11 if an event has no time, with
/// `place` the least such event. Otherwise 0. With a status above 0 `cost` is unchanged.
#[unsafe(no_mangle)]
pub extern "C" fn pesp_cost(alloc: Global, session: &mut Session, cost: &mut u64, told: &mut Told)
    ensures value { told.new.status ≡ 0
        → IsSomeAnd (work_in session.old.handle.kept) (λ w. cost_in w ≡ Ok cost.new) }
    ensures done { told.new.status ≡ 0 → told.new ≡ told_done 0 }
    ensures closed { work_in session.old.handle.kept ≡ None → told.new ≡ told_fault fault.Closed }
    ensures refused { IsSome (work_in session.old.handle.kept) → told.new.status ≢ 0
        → (refusal : Refusal) × IsSomeAnd (work_in session.old.handle.kept) (λ w. cost_in w ≡ Err refusal)
        × (told.new ≡ told_fault (fault.Refused refusal)) }
    ensures unchanged { session.new.handle.kept ≡ session.old.handle.kept }
    ensures untouched { told.new.status ≢ 0 → cost.new ≡ cost.old }
{
    let Some(kept) = session.take(alloc) else {
        *told = Fault::Closed.told();
        return;
    };
    *told = match kept.bench.cost() {
        Ok(found) => {
            *cost = found;
            Told::ended(0, 0, 0)
        }
        Err(refusal) => Fault::Refused(refusal).told(),
    };
    session.put(kept);
}
