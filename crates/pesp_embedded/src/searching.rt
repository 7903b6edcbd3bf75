//! Searches for the optimum, in numbers.

ghost use Rattle.std.specs.Prelude.{◌≡◌, ◌≢◌, ◌≤◌, None, Some, IfErr, IfOk, IfSome, IsSome, IsSomeAnd, OnErr, option_map};
ghost use Rattle.pesp_shell_replies.specs.Legal.{work_of};
ghost use Rattle.pesp_bench.specs.Asked.{IsSearched, IsUnsearched};
ghost use Rattle.pesp_embedded.specs.Faults.{told_fault};
ghost use Rattle.pesp_embedded.specs.Searches.{HasSearched, IsSearchTold, known_in, timetable_in, times_told};
ghost use Rattle.pesp_embedded.specs.Sessions.{AreShown, work_in};
ghost use Rattle.pesp_embedded.specs.declared.fault.Fault.TheVariants as fault;

use crate::lists::show_timetable;
use crate::{Fault, Found, Session, Told};
use pesp_bench::{Attempt, Bench};
use pesp_counts::CountKeeper;
use pesp_instance::Instance;
use pesp_search::{Answer, Best};
use std::alloc::Global;

/// Writes the times of the optimum, if there is one, to the front of the room, and reports their
/// number.
fn show_answer(room: &mut [u16], instance: &Instance, answer: &Answer) -> Told
    ensures { AreShown (times_told instance.now (timetable_in answer.now)) room.old room.new result }
{
    match answer {
        Answer::Optimal { times, .. } => show_timetable(room, instance, times),
        Answer::Infeasible => Told::ended(0, 0, 0),
    }
}

/// Writes the times of a stopped search, if there are any, to the front of the room, and reports
/// their number.
fn show_stop(room: &mut [u16], instance: &Instance, best: &Option<Best>) -> Told
    ensures { AreShown (times_told instance.now (option_map (λ b. b.times) best.now)) room.old
        room.new result }
{
    match best {
        Some(best) => show_timetable(room, instance, &best.times),
        None => Told::ended(0, 0, 0),
    }
}

/// Searches for the optimum in at most this number of nodes, writes the times found to the front of
/// the room, and returns the result and the report. The only fault is `Memory`.
fn search(
    alloc: Global,
    bench: &mut Bench<CountKeeper>,
    nodes: u64,
    room: &mut [u16],
) -> Result<(Found, Told), Fault>
    ensures told { IfOk result (λ r.
        IsSearchTold bench.old.instance nodes bench.new.known room.old room.new r.0 r.1) }
    ensures searched { IsSearched bench.old bench.new }
    ensures within { bench.new.nodes ≤ nodes }
    ensures unchanged { work_of bench.new ≡ work_of bench.old }
    ensures refused { IfErr result (λ f. f ≡ fault.Memory) }
    ensures unsearched { OnErr result (IsUnsearched bench.old bench.new) }
    ensures untouched { OnErr result (room.new ≡ room.old) }
{
    let Ok(sought) = bench.seek_optimum(alloc, nodes) else {
        return Err(Fault::Memory);
    };
    let instance = bench.instance();
    match &sought.attempt {
        Attempt::Done => {
            let answer = bench.known().unwrap();
            let told = show_answer(room, instance, answer);
            Ok((Found::of_answer(answer), told))
        }
        Attempt::Stopped(best) => {
            let told = show_stop(room, instance, best);
            let goes_on = bench.goes_on();
            Ok((Found::of_stop(best, sought.lower_bound, goes_on), told))
        }
    }
}

/// Searches for the optimum in at most `nodes` nodes, unless it is known, and returns the best
/// timetable found, its cost, and a lower bound.
///
/// A node is one of `try` (docs/FORMATS.md, "Commands and replies"). Unlike `try`, the call resumes
/// the previous one if that stopped, was a search by cycles, and the network is the same:
/// `found.goes_on` reports it for the next call.
///
/// `found` is filled in completely if the status is 0. State 2 returns the optimum, and state 3
/// means that no timetable meets everything; both remain known until an edit that may change them.
/// States 1 and 0 are a stop after exactly `nodes` nodes, with a timetable that meets everything
/// and without one. That timetable costs at most as much as any that the uncut tree reaches in
/// `nodes` nodes. No timetable that meets everything costs less than `lower_bound`.
///
/// `out` receives the time of each event in the timetable, in ascending order of events, as many as
/// fit, from its start; the rest of it is unchanged. `told.length` is the number of events, and 0
/// if there is no timetable.
///
/// With 0 nodes the call searches only what needs no node, and `goes_on` is that of the last search
/// with more nodes, of any network. The instance and the working timetable do not change.
///
/// Statuses in order: 10 if the session is closed; 6 if memory runs out, before the first node:
/// then the optimum is not known. Otherwise 0. With a status above 0 `out` and `found` are
/// unchanged.
///
/// The clauses bound the nodes of the tree; the search by cycles before it has a budget of units
/// for each node. No clause says that a later call resumes, or returns nothing worse
/// (docs/PROMISES.md, "Not proved").
#[unsafe(no_mangle)]
pub extern "C" fn pesp_search(
    alloc: Global,
    session: &mut Session,
    nodes: u64,
    out: &mut [u16],
    found: &mut Found,
    told: &mut Told,
)
    ensures answered { told.new.status ≡ 0 → IsSomeAnd (work_in session.old.handle.kept) (λ w.
        IsSearchTold w.instance nodes (known_in session.new.handle.kept) out.old out.new found.new told.new) }
    ensures closed { work_in session.old.handle.kept ≡ None → told.new ≡ told_fault fault.Closed }
    ensures fault { IsSome (work_in session.old.handle.kept) → told.new.status ≢ 0
        → (told.new ≡ told_fault fault.Memory) × (known_in session.old.handle.kept ≡ None)
        × (known_in session.new.handle.kept ≡ None) }
    ensures searched { HasSearched session.old.handle.kept nodes session.new.handle.kept }
    ensures unchanged { work_in session.new.handle.kept ≡ work_in session.old.handle.kept }
    ensures kept { IfSome (known_in session.old.handle.kept) (λ answer.
        known_in session.new.handle.kept ≡ Some answer) }
    ensures untouched { told.new.status ≢ 0 → (out.new ≡ out.old) × (found.new ≡ found.old) }
{
    let Some(mut kept) = session.take(alloc) else {
        *told = Fault::Closed.told();
        return;
    };
    *told = match search(alloc, &mut kept.bench, nodes, out) {
        Ok((now, shown)) => {
            *found = now;
            shown
        }
        Err(fault) => fault.told(),
    };
    session.put(kept);
}
