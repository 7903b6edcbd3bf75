//! Timetables, and the greatest number of their times.

use crate::asserts::{hold, same, same_at};
use crate::made::event;
use pesp_base::{Period, Refusal, max_events};
use pesp_tension::Timetable;
use std::process::Abort;

fn empty(rt: &(impl Abort + AllocGlobal)) -> Timetable {
    Timetable::new(rt.alloc(), Period::new(10).expect(rt, "a period"))
}

fn assert_set(
    rt: &impl Abort,
    timetable: &mut Timetable,
    number: u32,
    time: u16,
    answer: Result<(), Refusal>,
    message: &str,
) {
    same(rt, timetable.set(event(rt, number), time), answer, message);
}

fn assert_time(rt: &impl Abort, timetable: &Timetable, number: u32, time: Option<u16>) {
    same_at(rt, timetable.get(event(rt, number)), time, "event", number);
}

fn assert_times(rt: &(impl Abort + AllocGlobal), timetable: &Timetable, wanted: &[(u32, u16)]) {
    let walk = timetable
        .walk()
        .map(|entry| (entry.event.get(), entry.time));
    let times = walk
        .collect::<Vec<(u32, u16)>>(rt.alloc())
        .expect(rt, "memory");
    same(rt, times.as_slice(), wanted, "all times");
}

fn is_cleared(rt: &impl Abort, timetable: &mut Timetable, number: u32) -> bool {
    timetable.clear(event(rt, number))
}

#[test]
fn times_come_and_go(rt: HostRuntime) {
    let mut timetable = empty(&rt);
    assert_set(&rt, &mut timetable, 2, 3, Ok(()), "a time");
    assert_set(
        &rt,
        &mut timetable,
        1,
        9,
        Ok(()),
        "a time of an earlier event",
    );
    let late = Err(Refusal::TimeOutOfRange(10));
    assert_set(&rt, &mut timetable, 2, 10, late, "a late time");
    assert_set(&rt, &mut timetable, 2, 4, Ok(()), "another time");
    assert_time(&rt, &timetable, 2, Some(4));
    assert_times(&rt, &timetable, &[(1, 9), (2, 4)]);
    hold(
        &rt,
        is_cleared(&rt, &mut timetable, 2),
        "a time to take away",
    );
    hold(
        &rt,
        !is_cleared(&rt, &mut timetable, 2),
        "no time to take away",
    );
    assert_time(&rt, &timetable, 2, None);
}

#[test]
fn as_many_times_as_events(rt: HostRuntime) {
    let mut timetable = empty(&rt);
    let most = max_events(timetable.period()) as u32;
    for number in 0..most {
        assert_set(&rt, &mut timetable, number, 0, Ok(()), "a time");
    }
    let full = Err(Refusal::TooManyEvents);
    assert_set(&rt, &mut timetable, most, 1, full, "one time too many");
    assert_time(&rt, &timetable, most, None);
    let message = "another time of an event that has one";
    assert_set(&rt, &mut timetable, 7, 9, Ok(()), message);
    assert_time(&rt, &timetable, 7, Some(9));
}
