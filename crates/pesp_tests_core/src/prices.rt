//! The cost of the best timetable under a restriction that is not made.

use crate::asserts::{hold, same};
use crate::changes::Change;
use crate::made::{event, id, span};
use crate::workbench::{assert_times, assert_unknown, bench, change};
use pesp_base::Refusal;
use pesp_bench::{Bench, Trial};
use pesp_counts::CountKeeper;
use pesp_domains::{Keeper, PlainKeeper};
use std::process::Abort;

/// The least cost, or none if no timetable meets everything.
fn price_of<K: Keeper>(
    rt: &(impl Abort + AllocGlobal),
    bench: &mut Bench<K>,
    trial: Trial,
) -> Result<Option<u64>, Refusal> {
    let (known, _nodes) = bench.price(rt.alloc(), &trial, 1_000)?;
    hold(rt, !known.is_stopped, "few nodes are enough");
    match known.best {
        Some(best) => Ok(Some(best.cost)),
        None => Ok(None),
    }
}

fn assert_price<K: Keeper>(
    rt: &(impl Abort + AllocGlobal),
    bench: &mut Bench<K>,
    trial: Trial,
    wanted: Result<Option<u64>, Refusal>,
    message: &str,
) {
    same(rt, price_of(rt, bench, trial), wanted, message);
}

fn assert_prices_of_times<K: Keeper>(rt: &(impl Abort + AllocGlobal), bench: &mut Bench<K>) {
    let at = |time: u16| Trial::Time(event(rt, 2), time);
    assert_price(rt, bench, at(4), Ok(Some(4)), "the best time");
    assert_price(rt, bench, at(5), Ok(Some(5)), "a minute later");
    assert_price(rt, bench, at(3), Ok(None), "too early");
    let refused = Err(Refusal::TimeOutOfRange(10));
    assert_price(rt, bench, at(10), refused, "beyond the period");
    let missing = Trial::Time(event(rt, 9), 0);
    let refused = Err(Refusal::NoEvent(event(rt, 9)));
    assert_price(rt, bench, missing, refused, "no such event");
}

fn assert_prices_of_spans<K: Keeper>(rt: &(impl Abort + AllocGlobal), bench: &mut Bench<K>) {
    let at = |tension: i32| Trial::Span(id(rt, 1), span(rt, tension, tension));
    assert_price(rt, bench, at(5), Ok(Some(1)), "as long as may be");
    assert_price(rt, bench, at(3), Ok(None), "too short for the way back");
    let missing = Trial::Span(id(rt, 9), span(rt, 1, 2));
    let refused = Err(Refusal::NoActivity(id(rt, 9)));
    assert_price(rt, bench, missing, refused, "no such activity");
}

/// Prices are those of the instance, which does not change.
fn prices_by<K: Keeper>(rt: &(impl Abort + AllocGlobal)) {
    let mut bench: Bench<K> = bench(rt);
    change(rt, &mut bench, Change::Fix(1, 0));
    assert_prices_of_times(rt, &mut bench);
    assert_prices_of_spans(rt, &mut bench);
    change(rt, &mut bench, Change::SetWindow(2, 4, 1));
    let outside = Trial::Time(event(rt, 2), 5);
    assert_price(rt, &mut bench, outside, Ok(None), "outside of its window");
    let inside = Trial::Time(event(rt, 2), 4);
    assert_price(rt, &mut bench, inside, Ok(Some(4)), "in its window");
    assert_unknown(rt, &bench, "no optimum is known by them");
    assert_times(rt, bench.timetable(), &[], "and no time is set");
}

#[test]
fn prices(rt: HostRuntime) {
    prices_by::<CountKeeper>(&rt);
    prices_by::<PlainKeeper>(&rt);
}
