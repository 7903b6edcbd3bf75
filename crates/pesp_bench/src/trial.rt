//! Trials: edits under which a search is made, and which are undone after it.

ghost use Rattle.std.specs.Prelude.{◌≡◌, [], None, Some, IfOk, IfErr, OnErr, true, false};
ghost use Rattle.pesp_instance.specs.Network.{IsNetwork};
ghost use Rattle.pesp_search.specs.Known.{IsKnown};
ghost use Rattle.pesp_search.specs.Tree.{WerePushed};
ghost use Rattle.pesp_bench.specs.Trials.{IsPriced, IsTrialRefusal, edit_of, is_within, undo_of};

use pesp_base::{ActivityId, EventId, Memory, Refusal, Span};
use pesp_domains::Keeper;
use pesp_instance::{Edit, Instance};
use pesp_search::{Known, Searches, known_after};
use std::alloc::Global;

/// A restriction under which the best timetable is searched for.
#[derive(Clone, Copy, Debug, PartialEq, Eq)]
pub enum Trial {
    /// The event is at this residue.
    Time(EventId, u16),
    /// The activity has this span.
    Span(ActivityId, Span),
}

impl Trial {
    /// The edit that makes the restriction.
    fn edit(&self) -> Edit
        ensures { result ≡ edit_of self.now }
    {
        match *self {
            Trial::Time(event, time) => Edit::Fix(event, time),
            Trial::Span(activity, span) => Edit::SetSpan(activity, span),
        }
    }

    /// The edit that undoes the restriction, from the instance before it.
    fn undo(&self, instance: &Instance) -> Edit
        ensures undo { result ≡ undo_of instance.now self.now }
        ensures network { IsNetwork instance.now }
    {
        match *self {
            Trial::Time(event, _) => match instance.window(event) {
                Some(window) => Edit::SetWindow(event, window.first(), window.length()),
                None => Edit::Unfix(event),
            },
            Trial::Span(id, span) => match instance.activity(id) {
                Some(activity) => Edit::SetSpan(id, activity.span),
                None => Edit::SetSpan(id, span),
            },
        }
    }

    /// Whether the residue is in the event's window, if it has one. Any span may be tried.
    fn is_within(&self, instance: &Instance) -> bool
        ensures { result ≡ is_within instance.now self.now }
    {
        match *self {
            Trial::Time(event, time) => match instance.window(event) {
                Some(window) => window.holds(instance.period(), time),
                None => true,
            },
            Trial::Span(_, _) => true,
        }
    }
}

/// The result of a search within the limit, or that no timetable meets everything if the time is
/// outside the event's window: the edit replaced that window, so a search could find timetables
/// outside it.
fn search_within<K: Keeper>(
    alloc: Global,
    keeper: &mut K,
    before: &mut Searches,
    is_within: bool,
    limit: u64,
) -> Result<(Known, u64), Memory>
    requires pushes { K.pushes keeper.old ≡ [] }
    ensures within { is_within ≡ true
        → IfOk result (λ r. IsKnown (K.network keeper.old) None (Some limit) r.0 r.1) }
    ensures outside { is_within ≡ false
        → IfOk result (λ r. (r.0.is_stopped ≡ false) × (r.0.best ≡ None) × (r.1 ≡ 0)) }
    ensures memory { OnErr result (is_within ≡ true) }
    ensures network { K.network keeper.new ≡ K.network keeper.old }
    ensures pushes { K.pushes keeper.new ≡ [] }
    ensures counted { IfOk result (λ r. WerePushed (K.push_count keeper.old) r.1
        (K.push_count keeper.new)) }
    ensures unpushed { OnErr result (K.push_count keeper.new ≡ K.push_count keeper.old) }
{
    if is_within {
        return known_after(alloc, keeper, before, None, Some(limit));
    }
    let none = Known {
        best: None,
        // There is no timetable, so every number is a lower bound.
        lower_bound: u64::MAX,
        is_stopped: false,
    };
    Ok((none, 0))
}

/// The result of a search under the restriction. The keeper's instance is unchanged afterwards.
///
/// The edit is made and undone, with searches of its own, so that the search for the optimum
/// resumes where it was (docs/DECISIONS.md, "The rims"). Refusals in order: those of the edit; 10,
/// but not outside the window.
pub(crate) fn search_trial<K: Keeper>(
    alloc: Global,
    keeper: &mut K,
    before: &mut Searches,
    trial: &Trial,
    limit: u64,
) -> Result<(Known, u64), Refusal>
    requires pushes { K.pushes keeper.old ≡ [] }
    ensures priced { IfOk result (λ r. IsPriced (K.network keeper.old) trial.now limit r.0 r.1) }
    ensures refused { IfErr result (IsTrialRefusal (K.network keeper.old) trial.now) }
    ensures network { K.network keeper.new ≡ K.network keeper.old }
    ensures pushes { K.pushes keeper.new ≡ [] }
    ensures counted { IfOk result (λ r. WerePushed (K.push_count keeper.old) r.1
        (K.push_count keeper.new)) }
    ensures unpushed { OnErr result (K.push_count keeper.new ≡ K.push_count keeper.old) }
{
    let instance = keeper.instance();
    let undo = trial.undo(instance);
    let is_within = trial.is_within(instance);
    let edit = trial.edit();
    keeper.apply(&edit)?;
    let known = search_within(alloc, keeper, before, is_within, limit);
    // The edit that undoes an accepted one is never refused, and needs no memory.
    let _ = keeper.apply(&undo);
    match known {
        Ok(known) => Ok(known),
        Err(Memory) => Err(Refusal::Memory),
    }
}
