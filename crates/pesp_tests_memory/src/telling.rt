//! Keepers, results and workbenches, as lines. Printing does not allocate.

use crate::showing;
use pesp_base::EventId;
use pesp_bench::Bench;
use pesp_counts::CountKeeper;
use pesp_domains::Keeper;
use pesp_search::{Answer, Best};
use pesp_tension::Timetable;

/// A line for each residue that the event can take.
fn residues<K: Keeper>(rt: &impl Print, keeper: &K, event: EventId) {
    for residue in 0..keeper.instance().period().get() {
        if keeper.holds(event, residue) {
            let _ = println!(rt; "{} can take {residue}", event.get());
        }
    }
}

/// A line for the number of residues that the event can take, and one for each of them.
fn domain<K: Keeper>(rt: &impl Print, keeper: &K, event: EventId) {
    if let Some(row) = keeper.row(event) {
        let _ = println!(rt; "{} can take {} residues", event.get(), row.len());
    }
    residues(rt, keeper, event);
}

/// The instance, and a line for each pair of the domains.
pub(crate) fn keeper<K: Keeper>(rt: &impl Print, keeper: &K) {
    showing::instance(rt, keeper.instance());
    for event in keeper.instance().events() {
        domain(rt, keeper, event.id);
    }
}

/// A timetable with its cost, each line after a word.
pub(crate) fn best(rt: &impl Print, word: &str, cost: u64, times: &Timetable) {
    let _ = println!(rt; "{word} {cost}");
    for entry in times.walk() {
        let _ = println!(rt; "{word} {entry:?}");
    }
}

/// What a stopped search had found.
pub(crate) fn stopped(rt: &impl Print, found: &Option<Best>) {
    if let Some(found) = found {
        best(rt, "stopped", found.cost, &found.times);
    }
}

/// An answer, each line after a word.
pub(crate) fn answer(rt: &impl Print, word: &str, answer: &Answer) {
    match answer {
        Answer::Optimal { cost, times } => best(rt, word, *cost, times),
        Answer::Infeasible => {
            let _ = println!(rt; "{word} infeasible");
        }
    }
}

/// All that a workbench reports of itself without allocating.
pub(crate) fn bench(rt: &impl Print, bench: &Bench<CountKeeper>) {
    keeper(rt, bench.keeper());
    showing::line(rt, &bench.keeper().restored());
    showing::line(rt, &bench.keeper().last_work());
    showing::timetable(rt, bench.timetable());
    match bench.known() {
        Some(known) => answer(rt, "known", known),
        None => {
            let _ = rt.println("known nothing");
        }
    }
    let _ = println!(rt; "nodes {}", bench.last_nodes());
}
