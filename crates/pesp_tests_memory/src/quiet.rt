//! Calls that do not allocate.

ghost use Rattle.std.specs.Prelude.{◌≡◌, []};

use crate::call::{Call, is_asked, is_wanted, try_and_drop};
use crate::{made, showing, telling, working};
use pesp_base::{ActivityId, EventId, Period, Span, Weight, Window};
use pesp_bench::Bench;
use pesp_counts::CountKeeper;
use pesp_domains::{Keeper, PlainKeeper, Side};
use pesp_instance::{Edit, Instance};
use pesp_shell_commands::parse;
use std::alloc::Global;
use std::marker::Model;

/// The edits that do not allocate, on two events and two activities.
fn edits() -> Option<[Edit; 9]> {
    let (first, second) = (EventId::new(1)?, EventId::new(2)?);
    Some([
        Edit::SetSpan(ActivityId::new(1)?, Span::new(3, 6).ok()?),
        Edit::SetWeight(ActivityId::new(2)?, Weight::new(3)?),
        Edit::SetWindow(first, 6, 3),
        Edit::SetWindow(second, 9, 10),
        Edit::Unfix(first),
        Edit::Fix(second, 4),
        Edit::DropActivity(ActivityId::new(1)?),
        Edit::DropActivity(ActivityId::new(2)?),
        Edit::DropEvent(first),
    ])
}

/// A keeper with nothing pushed.
#[derive(Drop)]
struct Edited<K: Keeper> {
    // Nothing is pushed on it.
    keeper: K,
    // The event that is pushed and popped first.
    event: EventId,
    // None of them allocates.
    edits: [Edit; 9],
}

impl<K: Keeper> Model for Edited<K> {
    ghost use Rattle.std.specs.Prelude.{◌≡◌, []};
    ghost use Rattle.pesp_instance.specs.Network.{Network};

    ghost Value = { Network };

    ghost view = { λ e. K.network e.keeper };

    ghost invariant = { λ e. K.pushes e.keeper ≡ [] };
}

/// Pushes a residue of an event and pops it again.
fn push<K: Keeper>(rt: &impl Print, keeper: &mut K, event: EventId, residue: u16)
    requires { K.pushes keeper.old ≡ [] }
    ensures { K.pushes keeper.new ≡ [] }
{
    if keeper.instance().has_event(event) && residue < keeper.instance().period().get() {
        keeper.push_fix(event, residue);
        telling::keeper(rt, keeper);
        keeper.pop_fix();
    }
}

impl<K: Keeper> Edited<K> {
    fn edit(&mut self, rt: &impl Print, place: usize) {
        if let Some(edit) = self.edits.get(place) {
            is_wanted(rt, self.keeper.apply(edit));
            telling::keeper(rt, &self.keeper);
        }
    }
}

impl<K: Keeper> Call for Edited<K> {
    fn show<R: Print>(&self, rt: &R) {
        telling::keeper(rt, &self.keeper);
    }

    fn make<R: Print + AllocGlobal>(&mut self, rt: &R) -> bool {
        push(rt, &mut self.keeper, self.event, 7);
        for place in 0..self.edits.len() {
            self.edit(rt, place);
        }
        false
    }
}

/// A workbench with times and a known optimum.
#[derive(Drop)]
struct Worked {
    // With times and a known optimum.
    bench: Bench<CountKeeper>,
    // The event whose time is set.
    event: EventId,
    // None of them allocates.
    edits: [Edit; 9],
}

fn edit(rt: &impl Print, bench: &mut Bench<CountKeeper>, edit: &Edit) {
    is_wanted(rt, bench.apply(edit));
    telling::bench(rt, bench);
}

fn set_time(rt: &impl Print, bench: &mut Bench<CountKeeper>, event: EventId, time: u16) {
    is_wanted(rt, bench.set_time(event, time));
    showing::line(rt, &bench.cost());
}

fn clear_time(rt: &impl Print, bench: &mut Bench<CountKeeper>, event: EventId) {
    is_wanted(rt, bench.clear_time(event));
    showing::line(rt, &bench.cost());
}

/// Prints a window, and which residues are in it.
fn ask_window(rt: &impl Print, period: Period, window: Window) {
    showing::line(rt, &window.first());
    showing::line(rt, &window.length());
    showing::line(rt, &window.only_time());
    for residue in 0..period.get() {
        showing::line(rt, &window.holds(period, residue));
    }
}

/// Makes a window and prints it and those of the events.
fn ask_windows(rt: &impl Print, instance: &Instance) {
    let period = instance.period();
    if let Some(window) = Window::new(period, 9, 3) {
        ask_window(rt, period, window);
    }
    for event in instance.events() {
        if let Some(window) = instance.window(event.id) {
            ask_window(rt, period, window);
        }
    }
}

/// Prints the counts at the residues of each activity's first event, and the commands of lines.
fn ask(rt: &impl Print, bench: &Bench<CountKeeper>) {
    for activity in bench.instance().activities() {
        for residue in 0..bench.instance().period().get() {
            showing::line(
                rt,
                &bench.keeper().support(activity.id, Side::Tail, residue),
            );
        }
    }
    showing::line(rt, &parse(b"fix 1 2"));
    showing::line(rt, &parse(b"window 1 9 3"));
}

fn find_optimum(rt: &impl Print, alloc: Global, bench: &mut Bench<CountKeeper>) {
    is_wanted(rt, bench.find_optimum(alloc));
}

impl Call for Worked {
    fn show<R: Print>(&self, rt: &R) {
        telling::bench(rt, &self.bench);
    }

    fn make<R: Print + AllocGlobal>(&mut self, rt: &R) -> bool {
        set_time(rt, &mut self.bench, self.event, 4);
        find_optimum(rt, rt.alloc(), &mut self.bench);
        clear_time(rt, &mut self.bench, self.event);
        ask(rt, &self.bench);
        for each in &self.edits {
            edit(rt, &mut self.bench, each);
            ask_windows(rt, self.bench.instance());
        }
        false
    }
}

fn try_keeper<K: Keeper, R: Print + AllocGlobal>(rt: &R) -> Option<()> {
    let event = EventId::new(2)?;
    let edits = edits()?;
    let keeper = K::from_instance(rt.alloc(), made::two(rt.alloc())?).ok()?;
    try_and_drop(
        rt,
        Edited {
            keeper,
            event,
            edits,
        },
    );
    Some(())
}

fn try_bench<R: Print + AllocGlobal>(rt: &R) -> Option<()> {
    let event = EventId::new(1)?;
    let edits = edits()?;
    let bench = working::searched(rt.alloc())?;
    try_and_drop(
        rt,
        Worked {
            bench,
            event,
            edits,
        },
    );
    Some(())
}

pub(crate) fn try_all<R: Print + AllocGlobal>(rt: &R, words: &[String]) -> Option<()> {
    if is_asked(rt, words, "PlainKeeper without memory") {
        try_keeper::<PlainKeeper, R>(rt)?;
    }
    if is_asked(rt, words, "CountKeeper without memory") {
        try_keeper::<CountKeeper, R>(rt)?;
    }
    if is_asked(rt, words, "Bench without memory") {
        try_bench(rt)?;
    }
    Some(())
}
