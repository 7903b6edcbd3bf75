//! A workbench's working timetable, and the domains of its events.

use crate::asserts::{hold, same};
use crate::changes::Change;
use crate::made::{event, id};
use crate::workbench::{assert_set, assert_times, bench, change};
use pesp_base::Refusal;
use pesp_bench::{Bench, EventDomain};
use pesp_counts::CountKeeper;
use pesp_domains::{Keeper, PlainKeeper};
use pesp_instance::Edit;
use pesp_tension::Violation;
use std::process::Abort;

fn clear_time<K: Keeper>(
    rt: &impl Abort,
    bench: &mut Bench<K>,
    number: u32,
) -> Result<(), Refusal> {
    bench.clear_time(event(rt, number))
}

fn adopt<K: Keeper>(rt: &(impl Abort + AllocGlobal), bench: &mut Bench<K>) -> Result<(), Refusal> {
    bench.adopt(rt.alloc())
}

fn assert_cost<K: Keeper>(rt: &impl Abort, bench: &Bench<K>, cost: Result<u64, Refusal>) {
    same(rt, bench.cost(), cost, "the cost");
}

/// Both activities have a tension.
fn assert_two_tensions<K: Keeper>(rt: &(impl Abort + AllocGlobal), bench: &Bench<K>) {
    let tensions = bench.tensions(rt.alloc()).ok().expect(rt, "memory");
    same(rt, tensions.len(), 2, "tensions");
}

/// The second activity is violated.
fn assert_second_violated<K: Keeper>(rt: &(impl Abort + AllocGlobal), bench: &Bench<K>) {
    let wanted = [Violation::Activity(id(rt, 2))];
    let violations = bench.violations(rt.alloc()).ok().expect(rt, "memory");
    same(rt, violations.as_slice(), &wanted, "violations");
}

fn assert_cleared<K: Keeper>(
    rt: &impl Abort,
    bench: &mut Bench<K>,
    number: u32,
    answer: Result<(), Refusal>,
) {
    same(rt, clear_time(rt, bench, number), answer, "no time");
}

fn times_are_set<K: Keeper>(rt: &(impl Abort + AllocGlobal), bench: &mut Bench<K>) {
    assert_set(rt, bench, 1, 0, Ok(()));
    assert_set(rt, bench, 2, 12, Err(Refusal::TimeOutOfRange(12)));
    assert_set(rt, bench, 3, 12, Err(Refusal::NoEvent(event(rt, 3))));
    assert_cost(rt, bench, Err(Refusal::MissingTime(event(rt, 2))));
    assert_set(rt, bench, 2, 3, Ok(()));
    assert_cost(rt, bench, Ok(3));
}

fn times_are_cleared<K: Keeper>(rt: &impl Abort, bench: &mut Bench<K>) {
    assert_cleared(rt, bench, 2, Ok(()));
    assert_cleared(rt, bench, 2, Err(Refusal::MissingTime(event(rt, 2))));
    assert_cleared(rt, bench, 3, Err(Refusal::NoEvent(event(rt, 3))));
}

fn set_clear_and_adopt<K: Keeper>(rt: &(impl Abort + AllocGlobal), bench: &mut Bench<K>) {
    times_are_set(rt, bench);
    assert_two_tensions(rt, bench);
    assert_second_violated(rt, bench);
    times_are_cleared(rt, bench);
    adopted_optimum_stays(rt, bench);
}

fn assert_adopted<K: Keeper>(
    rt: &(impl Abort + AllocGlobal),
    bench: &mut Bench<K>,
    answer: Result<(), Refusal>,
    message: &str,
) {
    same(rt, adopt(rt, bench), answer, message);
    assert_times(rt, bench.timetable(), &[(1, 0), (2, 4)], message);
    assert_cost(rt, bench, Ok(4));
}

/// The optimum is adopted. It stays if no timetable meets everything.
fn adopted_optimum_stays<K: Keeper>(rt: &(impl Abort + AllocGlobal), bench: &mut Bench<K>) {
    assert_adopted(rt, bench, Ok(()), "adopted");
    change(rt, bench, Change::SetSpan(1, 3, 3));
    assert_adopted(rt, bench, Err(Refusal::Infeasible), "infeasible");
}

fn working_timetable_by<K: Keeper, R: Abort + AllocGlobal>(rt: &R) {
    let mut bench: Bench<K> = bench(rt);
    set_clear_and_adopt(rt, &mut bench);
}

#[test]
fn working_timetable(rt: HostRuntime) {
    working_timetable_by::<PlainKeeper, _>(&rt);
    working_timetable_by::<CountKeeper, _>(&rt);
}

fn assert_first_violated<K: Keeper>(rt: &(impl Abort + AllocGlobal), bench: &Bench<K>) {
    let wanted = [Violation::Event(event(rt, 1))];
    let violations = bench.violations(rt.alloc()).ok().expect(rt, "memory");
    same(rt, violations.as_slice(), &wanted, "violations");
}

fn stand_before_a_window<K: Keeper>(rt: &(impl Abort + AllocGlobal), bench: &mut Bench<K>) {
    change(rt, bench, Change::SetWindow(1, 1, 2));
    assert_set(rt, bench, 1, 0, Ok(()));
    assert_set(rt, bench, 2, 4, Ok(()));
    assert_first_violated(rt, bench);
}

fn time_outside_a_window_by<K: Keeper, R: Abort + AllocGlobal>(rt: &R) {
    let mut bench: Bench<K> = bench(rt);
    stand_before_a_window(rt, &mut bench);
}

#[test]
fn time_outside_a_window(rt: HostRuntime) {
    time_outside_a_window_by::<PlainKeeper, _>(&rt);
    time_outside_a_window_by::<CountKeeper, _>(&rt);
}

/// Event 2 is an end of activity 1.
fn assert_in_use<K: Keeper>(rt: &impl Abort, bench: &mut Bench<K>) {
    let refused = Err(Refusal::EventInUse(event(rt, 2), id(rt, 1)));
    let dropped = bench.apply(&Edit::DropEvent(event(rt, 2)));
    same(rt, dropped, refused, "event 2 is dropped");
}

/// No event has a time.
fn assert_no_times<K: Keeper>(rt: &impl Abort, bench: &Bench<K>, message: &str) {
    assert_times(rt, bench.timetable(), &[], message);
}

fn assert_three_events<K: Keeper>(rt: &impl Abort, bench: &Bench<K>) {
    same(rt, bench.instance().event_count(), 3, "events");
}

fn drop_and_add_an_event<K: Keeper>(rt: &impl Abort, bench: &mut Bench<K>) {
    change(rt, bench, Change::AddEvent(3));
    assert_set(rt, bench, 3, 5, Ok(()));
    change(rt, bench, Change::DropEvent(3));
    change(rt, bench, Change::AddEvent(3));
    assert_no_times(rt, bench, "event 3 is another one");
    assert_in_use(rt, bench);
    assert_three_events(rt, bench);
}

fn dropped_event_has_no_time_by<K: Keeper, R: Abort + AllocGlobal>(rt: &R) {
    let mut bench: Bench<K> = bench(rt);
    drop_and_add_an_event(rt, &mut bench);
}

#[test]
fn dropped_event_has_no_time(rt: HostRuntime) {
    dropped_event_has_no_time_by::<PlainKeeper, _>(&rt);
    dropped_event_has_no_time_by::<CountKeeper, _>(&rt);
}

/// The domain of an event among all of them.
fn assert_listed(
    rt: &impl Abort,
    domains: &[EventDomain],
    number: u32,
    wanted: &[u16],
    message: &str,
) {
    let event = event(rt, number);
    for domain in domains {
        if domain.event == event {
            same(rt, domain.residues.as_slice(), wanted, message);
        }
    }
}

/// The domain of an event by itself.
fn assert_row<K: Keeper>(
    rt: &impl Abort,
    bench: &Bench<K>,
    number: u32,
    wanted: &[u16],
    message: &str,
) {
    let row = bench.domain(event(rt, number)).ok().expect(rt, message);
    same(rt, row.len(), wanted.len(), message);
}

fn assert_domain<K: Keeper>(
    rt: &(impl Abort + AllocGlobal),
    bench: &Bench<K>,
    number: u32,
    wanted: &[u16],
    message: &str,
) {
    let domains = bench.domains(rt.alloc()).ok().expect(rt, "memory");
    assert_listed(rt, &domains, number, wanted, message);
    assert_row(rt, bench, number, wanted, message);
}

/// There is no event 3, and event 2 may take place at 4.
fn assert_looked_up<K: Keeper>(rt: &impl Abort, bench: &Bench<K>) {
    hold(rt, bench.domain(event(rt, 3)).is_err(), "no event");
    hold(rt, bench.keeper().holds(event(rt, 2), 4), "by the keeper");
}

/// The residues at period 10.
const ALL: &[u16] = &[0, 1, 2, 3, 4, 5, 6, 7, 8, 9];

fn fix_and_unfix<K: Keeper>(rt: &(impl Abort + AllocGlobal), bench: &mut Bench<K>) {
    change(rt, bench, Change::Fix(1, 0));
    assert_domain(rt, bench, 1, &[0], "event 1 at 0");
    assert_domain(rt, bench, 2, &[4, 5], "event 2 with it");
    assert_looked_up(rt, bench);
    change(rt, bench, Change::Unfix(1));
    assert_domain(rt, bench, 1, ALL, "unfixed");
    assert_domain(rt, bench, 2, ALL, "unfixed");
}

fn fixed_event_narrows_domains_by<K: Keeper, R: Abort + AllocGlobal>(rt: &R) {
    let mut bench: Bench<K> = bench(rt);
    fix_and_unfix(rt, &mut bench);
}

#[test]
fn fixed_event_narrows_domains(rt: HostRuntime) {
    fixed_event_narrows_domains_by::<PlainKeeper, _>(&rt);
    fixed_event_narrows_domains_by::<CountKeeper, _>(&rt);
}
