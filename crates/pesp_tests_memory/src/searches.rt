//! Searches of keepers. The number of pushes is printed with the keeper, so a search that runs out
//! of memory after its first node is recognized.

ghost use Rattle.std.specs.Prelude.{◌≡◌, []};

use crate::call::{Call, is_asked, try_and_drop};
use crate::counting::Counting;
use crate::{made, showing, telling};
use pesp_domains::Keeper;
use pesp_instance::Instance;
use pesp_search::{Known, Tried, best, best_within, known_within};
use std::alloc::Global;
use std::marker::Model;

/// The search that is made, with its limit of nodes if it has one.
#[derive(Clone, Copy)]
enum Asked {
    Best,
    Within(u64),
    Known(u64),
}

/// A keeper with nothing pushed, and the search that is made.
#[derive(Drop)]
struct Searched {
    // Nothing is pushed on it.
    keeper: Counting,
    // The search that is made on it.
    asked: Asked,
}

impl Model for Searched {
    ghost use Rattle.std.specs.Prelude.{◌≡◌, []};
    ghost use Rattle.pesp_instance.specs.Network.{Network};

    ghost Value = { Network };

    ghost view = { λ s. s.keeper.keeper.network };

    ghost invariant = { λ s. s.keeper.keeper.pushes ≡ [] };
}

fn tell_tried(rt: &impl Print, tried: &Tried) {
    match tried {
        Tried::Done(answer) => telling::answer(rt, "found", answer),
        Tried::Stopped { best } => telling::stopped(rt, best),
    }
}

fn find(rt: &impl Print, alloc: Global, keeper: &mut Counting) -> bool
    requires { keeper.old.keeper.pushes ≡ [] }
    ensures { keeper.new.keeper.pushes ≡ [] }
{
    match best(alloc, keeper, None) {
        Ok((answer, nodes)) => {
            telling::answer(rt, "found", &answer);
            showing::line(rt, &nodes);
            false
        }
        Err(refusal) => {
            showing::line(rt, &refusal);
            true
        }
    }
}

fn find_within(rt: &impl Print, alloc: Global, keeper: &mut Counting, limit: u64) -> bool
    requires { keeper.old.keeper.pushes ≡ [] }
    ensures { keeper.new.keeper.pushes ≡ [] }
{
    match best_within(alloc, keeper, None, limit) {
        Ok((tried, nodes)) => {
            tell_tried(rt, &tried);
            showing::line(rt, &nodes);
            false
        }
        Err(refusal) => {
            showing::line(rt, &refusal);
            true
        }
    }
}

fn tell_known(rt: &impl Print, known: &Known) {
    telling::stopped(rt, &known.best);
    showing::line(rt, &known.lower_bound);
    showing::line(rt, &known.is_stopped);
}

fn find_known(rt: &impl Print, alloc: Global, keeper: &mut Counting, limit: u64) -> bool
    requires { keeper.old.keeper.pushes ≡ [] }
    ensures { keeper.new.keeper.pushes ≡ [] }
{
    match known_within(alloc, keeper, None, limit) {
        Ok((known, nodes)) => {
            tell_known(rt, &known);
            showing::line(rt, &nodes);
            false
        }
        Err(refusal) => {
            showing::line(rt, &refusal);
            true
        }
    }
}

impl Call for Searched {
    fn show<R: Print>(&self, rt: &R) {
        telling::keeper(rt, &self.keeper);
        let _ = println!(rt; "pushed {}", self.keeper.pushed);
    }

    fn make<R: Print + AllocGlobal>(&mut self, rt: &R) -> bool {
        match self.asked {
            Asked::Best => find(rt, rt.alloc(), &mut self.keeper),
            Asked::Within(limit) => find_within(rt, rt.alloc(), &mut self.keeper, limit),
            Asked::Known(limit) => find_known(rt, rt.alloc(), &mut self.keeper, limit),
        }
    }
}

fn try_case<R: Print + AllocGlobal>(rt: &R, instance: Instance, asked: Asked) -> Option<()> {
    let keeper = Counting::from_instance(rt.alloc(), instance).ok()?;
    try_and_drop(rt, Searched { keeper, asked });
    Some(())
}

/// By cycles, which end the search of so small an instance before anything is pushed.
fn try_cycles<R: Print + AllocGlobal>(rt: &R, words: &[String]) -> Option<()> {
    for (name, asked) in [
        ("best", Asked::Best),
        ("best_within", Asked::Within(1)),
        ("known_within", Asked::Known(1)),
    ] {
        if is_asked(rt, words, name) {
            try_case(rt, made::two(rt.alloc())?, asked)?;
        }
    }
    Some(())
}

fn try_tree<R: Print + AllocGlobal>(rt: &R, words: &[String]) -> Option<()> {
    for (name, asked) in [
        ("best in the tree", Asked::Best),
        ("best_within in the tree", Asked::Within(1)),
        ("known_within in the tree", Asked::Known(1)),
    ] {
        if is_asked(rt, words, name) {
            try_case(rt, made::dense(rt.alloc())?, asked)?;
        }
    }
    Some(())
}

pub(crate) fn try_all<R: Print + AllocGlobal>(rt: &R, words: &[String]) -> Option<()> {
    try_cycles(rt, words)?;
    try_tree(rt, words)
}
