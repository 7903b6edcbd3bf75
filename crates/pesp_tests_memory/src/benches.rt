//! Calls of a workbench.

use crate::call::{Call, is_asked, is_wanted, try_and_drop};
use crate::{made, showing, telling, working};
use pesp_base::{EventId, Memory, Refusal};
use pesp_bench::{Attempt, Bench, Domains};
use pesp_counts::CountKeeper;
use pesp_instance::Edit;
use pesp_shell_commands::Command;
use pesp_shell_replies::reply;
use std::alloc::Global;
use std::fmt::Debug;

#[derive(Clone, Copy)]
enum Ask {
    Apply,
    SetTime,
    Tensions,
    Violations,
    Domains,
    FindOptimum,
    Optimum,
    TryOptimum,
    Adopt,
    ReplyToEdit,
    ReplyToDomains,
    ReplyToOptimum,
}

#[derive(Drop)]
struct Lent {
    // The workbench that the call is made on,
    bench: Bench<CountKeeper>,
    // the event that it names,
    event: EventId,
    // the edit that it makes,
    edit: Edit,
    // and which call it is.
    ask: Ask,
}

fn tell_domains(rt: &impl Print, domains: &Domains) {
    for domain in domains {
        showing::line(rt, &domain.event);
        showing::line(rt, &domain.residues);
    }
}

fn domains(rt: &impl Print, alloc: Global, bench: &Bench<CountKeeper>) -> bool {
    match bench.domains(alloc) {
        Ok(domains) => {
            tell_domains(rt, &domains);
            false
        }
        Err(refusal) => is_wanted(rt, Err(refusal)),
    }
}

fn optimum(rt: &impl Print, alloc: Global, bench: &mut Bench<CountKeeper>) -> bool {
    match bench.optimum(alloc) {
        Ok(answer) => {
            telling::answer(rt, "found", answer);
            false
        }
        Err(Memory) => is_wanted(rt, Err(Refusal::Memory)),
    }
}

fn try_optimum(rt: &impl Print, alloc: Global, bench: &mut Bench<CountKeeper>) -> bool {
    match bench.try_optimum(alloc, 100) {
        Ok(Attempt::Done) => is_wanted(rt, Ok(())),
        Ok(Attempt::Stopped(best)) => {
            telling::stopped(rt, &best);
            false
        }
        Err(refusal) => is_wanted(rt, Err(refusal)),
    }
}

fn list<T: Debug + Drop>(rt: &impl Print, rows: Result<Vec<T>, Refusal>) -> bool {
    match rows {
        Ok(rows) => {
            showing::line(rt, &rows);
            false
        }
        Err(refusal) => is_wanted(rt, Err(refusal)),
    }
}

fn text(rt: &impl Print, text: Result<Vec<u8>, Memory>) -> bool {
    showing::line(rt, &text);
    text.is_err()
}

impl Call for Lent {
    fn show<R: Print>(&self, rt: &R) {
        telling::bench(rt, &self.bench);
    }

    fn make<R: Print + AllocGlobal>(&mut self, rt: &R) -> bool {
        let alloc = rt.alloc();
        let bench = &mut self.bench;
        match self.ask {
            Ask::Apply => is_wanted(rt, bench.apply(&self.edit)),
            Ask::SetTime => is_wanted(rt, bench.set_time(self.event, 4)),
            Ask::Tensions => list(rt, bench.tensions(alloc)),
            Ask::Violations => list(rt, bench.violations(alloc)),
            Ask::Domains => domains(rt, alloc, bench),
            Ask::FindOptimum => is_wanted(rt, bench.find_optimum(alloc)),
            Ask::Optimum => optimum(rt, alloc, bench),
            Ask::TryOptimum => try_optimum(rt, alloc, bench),
            Ask::Adopt => is_wanted(rt, bench.adopt(alloc)),
            Ask::ReplyToEdit => text(rt, reply(alloc, bench, &Command::Edit(self.edit))),
            Ask::ReplyToDomains => text(rt, reply(alloc, bench, &Command::Domains)),
            Ask::ReplyToOptimum => text(rt, reply(alloc, bench, &Command::Optimum)),
        }
    }
}

/// The call on a workbench of two activities, whose events have times if `is_timed`.
fn lend(alloc: Global, is_timed: bool, ask: Ask) -> Option<Lent> {
    let event = EventId::new(2)?;
    let edit = made::edit(made::Kind::Activity, 3)?;
    let bench = working::bench(alloc, is_timed)?;
    Some(Lent {
        bench,
        event,
        edit,
        ask,
    })
}

fn try_case<R: Print + AllocGlobal>(rt: &R, is_timed: bool, ask: Ask) -> Option<()> {
    try_and_drop(rt, lend(rt.alloc(), is_timed, ask)?);
    Some(())
}

/// Each case, and whether the events have times in it.
const CASES: [(&str, bool, Ask); 12] = [
    ("Bench::apply", true, Ask::Apply),
    ("Bench::set_time", false, Ask::SetTime),
    ("Bench::tensions", true, Ask::Tensions),
    ("Bench::violations", true, Ask::Violations),
    ("Bench::domains", true, Ask::Domains),
    ("Bench::find_optimum", true, Ask::FindOptimum),
    ("Bench::optimum", true, Ask::Optimum),
    ("Bench::try_optimum", true, Ask::TryOptimum),
    ("Bench::adopt", false, Ask::Adopt),
    ("reply to an edit", true, Ask::ReplyToEdit),
    ("reply to domains", true, Ask::ReplyToDomains),
    ("reply to optimum", true, Ask::ReplyToOptimum),
];

pub(crate) fn try_all<R: Print + AllocGlobal>(rt: &R, words: &[String]) -> Option<()> {
    for (name, is_timed, ask) in CASES {
        if is_asked(rt, words, name) {
            try_case(rt, is_timed, ask)?;
        }
    }
    Some(())
}
