//! Workbenches, made step by step. Each step is a function without a contract, which keeps the
//! proofs short.

use crate::made;
use pesp_base::EventId;
use pesp_bench::Bench;
use pesp_counts::CountKeeper;
use pesp_domains::Keeper;
use std::alloc::Global;

fn untimed(alloc: Global) -> Option<Bench<CountKeeper>> {
    let keeper = CountKeeper::from_instance(alloc, made::two(alloc)?).ok()?;
    Some(Bench::new(alloc, keeper))
}

fn set_time(bench: &mut Bench<CountKeeper>, number: u32, time: u16) -> Option<()> {
    let event = EventId::new(number)?;
    bench.set_time(event, time).ok()
}

fn set_times(bench: &mut Bench<CountKeeper>) -> Option<()> {
    set_time(bench, 1, 0)?;
    set_time(bench, 2, 3)
}

fn find_optimum(alloc: Global, bench: &mut Bench<CountKeeper>) -> Option<()> {
    bench.find_optimum(alloc).ok()
}

/// A workbench of two activities, with a time for each event if `is_timed`.
pub(crate) fn bench(alloc: Global, is_timed: bool) -> Option<Bench<CountKeeper>> {
    let mut bench = untimed(alloc)?;
    let is_made = !is_timed || set_times(&mut bench).is_some();
    is_made.then_some(bench)
}

/// The same with times and its optimum known.
pub(crate) fn searched(alloc: Global) -> Option<Bench<CountKeeper>> {
    let mut bench = bench(alloc, true)?;
    let is_found = find_optimum(alloc, &mut bench).is_some();
    is_found.then_some(bench)
}
