//! The search.

ghost use Rattle.std.specs.Prelude.{◌≡◌, [], false, IfOk, OnErr, IfSome, None, Some};
ghost use Rattle.pesp_instance.specs.Network.{IsNetwork, event_ids};
ghost use Rattle.pesp_search.specs.declared.answer.Answer.TheVariants as answers;
ghost use Rattle.pesp_search.specs.declared.answer.Tried.TheVariants as attempts;
ghost use Rattle.pesp_search.specs.Optima.{IsAnswer, IsBound};
ghost use Rattle.pesp_search.specs.Paths.{IsDeadEnd};
ghost use Rattle.pesp_search.specs.Tree.{AreNodes, WerePushed};
ghost use Rattle.pesp_search.specs.Known.{IsFloor, IsKnown};
ghost use Rattle.pesp_search.specs.Tried.{IsFound, MayTry};

use crate::outcome::{answer_of, best_told, known_of, lowest};
use crate::searches::{Ask, Searches};
use crate::seek::{Sought, seek};
use crate::steps::has_empty_row;
use crate::tree_search::TreeSearch;
use crate::{Answer, Known, Tried};
use pesp_base::{EventId, Memory};
use pesp_domains::Keeper;
use pesp_instance::Instance;
use std::alloc::Global;

/// The events of an instance, ascending.
fn events_of(alloc: Global, instance: &Instance) -> Result<Vec<EventId>, Memory>
    ensures events { IfOk result (λ events. events.items ≡ event_ids instance.now) }
    ensures network { IsNetwork instance.now }
{
    let Ok(mut events) = Vec::with_capacity(alloc, instance.event_count()) else {
        return Err(Memory);
    };
    for event in instance.events() {
        if events.push(event.id).is_err() {
            return Err(Memory);
        }
    }
    Ok(events)
}

/// Searches the tree for a timetable that costs no more than the one found before, if any.
fn search_tree<K: Keeper>(
    alloc: Global,
    keeper: &mut K,
    events: &[EventId],
    sought: Sought,
    ask: Ask,
) -> Result<(Known, u64), Memory>
    requires network { IsNetwork (K.network keeper.old) }
    requires events { events.now ≡ event_ids (K.network keeper.old) }
    requires pushes { K.pushes keeper.old ≡ [] }
    requires bound { IsBound (K.network keeper.old) ask.bound }
    requires found { IfSome sought.best (IsFound (K.network keeper.old) ask.bound) }
    requires floor { IsFloor (K.network keeper.old) sought.floor }
    requires none { ask.limit ≡ Some 0 → sought.best ≡ None }
    ensures known { IfOk result (λ r. IsKnown (K.network keeper.old) ask.bound ask.limit r.0 r.1) }
    ensures nodes { IfOk result (λ r. AreNodes (K.network keeper.old) r.1) }
    ensures network { K.network keeper.new ≡ K.network keeper.old }
    ensures pushes { K.pushes keeper.new ≡ [] }
    ensures counted { IfOk result (λ r. WerePushed (K.push_count keeper.old) r.1
        (K.push_count keeper.new)) }
    ensures unpushed { OnErr result (K.push_count keeper.new ≡ K.push_count keeper.old) }
{
    let lowest = lowest(ask.bound, &sought.best);
    // Everything is allocated here, before the first node: `run` has no allocator.
    let search = TreeSearch::new(alloc, keeper, events, lowest, ask.limit)?;
    let outcome = search.run(keeper);
    let (is_stopped, nodes) = (outcome.is_stopped, outcome.nodes);
    let best = best_told(outcome, sought.best);
    Ok((known_of(best, is_stopped, sought.floor), nodes))
}

/// Searches by cycles, and through the tree if that search does not end. In this order everything is allocated
/// before the first node (docs/DECISIONS.md, "Search").
fn search_in_turn<K: Keeper>(
    alloc: Global,
    keeper: &mut K,
    events: &[EventId],
    before: &mut Searches,
    ask: Ask,
) -> Result<(Known, u64), Memory>
    requires network { IsNetwork (K.network keeper.old) }
    requires events { events.now ≡ event_ids (K.network keeper.old) }
    requires pushes { K.pushes keeper.old ≡ [] }
    requires bound { IsBound (K.network keeper.old) ask.bound }
    ensures known { IfOk result (λ r. IsKnown (K.network keeper.old) ask.bound ask.limit r.0 r.1) }
    ensures nodes { IfOk result (λ r. AreNodes (K.network keeper.old) r.1) }
    ensures network { K.network keeper.new ≡ K.network keeper.old }
    ensures pushes { K.pushes keeper.new ≡ [] }
    ensures counted { IfOk result (λ r. WerePushed (K.push_count keeper.old) r.1
        (K.push_count keeper.new)) }
    ensures unpushed { OnErr result (K.push_count keeper.new ≡ K.push_count keeper.old) }
{
    let sought = seek(alloc, keeper, events, before, ask)?;
    if sought.is_end {
        return Ok((known_of(sought.best, false, sought.floor), 0));
    }
    search_tree(alloc, keeper, events, sought, ask)
}

/// Searches, unless a domain is empty: then nothing has to be built.
fn search<K: Keeper>(
    alloc: Global,
    keeper: &mut K,
    before: &mut Searches,
    ask: Ask,
) -> Result<(Known, u64), Memory>
    requires pushes { K.pushes keeper.old ≡ [] }
    requires bound { IsBound (K.network keeper.old) ask.bound }
    ensures known { IfOk result (λ r. IsKnown (K.network keeper.old) ask.bound ask.limit r.0 r.1) }
    ensures nodes { IfOk result (λ r. AreNodes (K.network keeper.old) r.1) }
    ensures is_network { IsNetwork (K.network keeper.old) }
    ensures network { K.network keeper.new ≡ K.network keeper.old }
    ensures pushes { K.pushes keeper.new ≡ [] }
    ensures counted { IfOk result (λ r. WerePushed (K.push_count keeper.old) r.1
        (K.push_count keeper.new)) }
    ensures unpushed { OnErr result (K.push_count keeper.new ≡ K.push_count keeper.old) }
{
    // The order in which the tree sets their times.
    let events = events_of(alloc, keeper.instance())?;
    if has_empty_row(keeper, &events) {
        return Ok((known_of(None, false, u64::MAX), 0));
    }
    search_in_turn(alloc, keeper, &events, before, ask)
}

/// The optimum of the keeper's instance, and the number of nodes.
///
/// The optimum is the first timetable of least cost: none that meets everything costs less, and each one with a
/// smaller time at the first event where they differ costs more. A node is one pushed pair; their number is at
/// most the size of the uncut tree. If a bound is given, some timetable that meets everything must cost at most
/// that. The keeper is unchanged.
pub fn best<K: Keeper>(
    alloc: Global,
    keeper: &mut K,
    bound: Option<u64>,
) -> Result<(Answer, u64), Memory>
    requires pushes { K.pushes keeper.old ≡ [] }
    requires bound { IsBound (K.network keeper.old) bound }
    ensures answer { IfOk result (λ r. IsAnswer (K.network keeper.old) r.0) }
    ensures dead { IsDeadEnd (K.network keeper.old) []
        → IfOk result (λ r. (r.0 ≡ answers.Infeasible) × (r.1 ≡ 0)) }
    ensures nodes { IfOk result (λ r. AreNodes (K.network keeper.old) r.1) }
    ensures network { K.network keeper.new ≡ K.network keeper.old }
    ensures pushes { K.pushes keeper.new ≡ [] }
    ensures counted { IfOk result (λ r. WerePushed (K.push_count keeper.old) r.1
        (K.push_count keeper.new)) }
    ensures unpushed { OnErr result (K.push_count keeper.new ≡ K.push_count keeper.old) }
{
    let ask = Ask { bound, limit: None };
    let (known, nodes) = search(alloc, keeper, &mut Searches::new(alloc), ask)?;
    Ok((answer_of(known.best), nodes))
}

/// What is known of the keeper's instance when the search ends, or when the number of nodes reaches the limit,
/// if there is one.
///
/// Stopped searches by cycles are resumed if they are of this instance, and a search that stops now is kept for
/// the next call. The result is that of [`known_within`].
pub fn known_after<K: Keeper>(
    alloc: Global,
    keeper: &mut K,
    before: &mut Searches,
    bound: Option<u64>,
    limit: Option<u64>,
) -> Result<(Known, u64), Memory>
    requires pushes { K.pushes keeper.old ≡ [] }
    requires bound { IsBound (K.network keeper.old) bound }
    ensures known { IfOk result (λ r. IsKnown (K.network keeper.old) bound limit r.0 r.1) }
    ensures dead { IsDeadEnd (K.network keeper.old) []
        → IfOk result (λ r. (r.0.is_stopped ≡ false) × (r.0.best ≡ None) × (r.1 ≡ 0)) }
    ensures nodes { IfOk result (λ r. AreNodes (K.network keeper.old) r.1) }
    ensures network { K.network keeper.new ≡ K.network keeper.old }
    ensures pushes { K.pushes keeper.new ≡ [] }
    ensures counted { IfOk result (λ r. WerePushed (K.push_count keeper.old) r.1
        (K.push_count keeper.new)) }
    ensures unpushed { OnErr result (K.push_count keeper.new ≡ K.push_count keeper.old) }
{
    search(alloc, keeper, before, Ask { bound, limit })
}

/// What is known of the keeper's instance when the search ends, or when the number of nodes reaches the limit.
///
/// The search stops only if the tree has more nodes than the limit. If the uncut tree reaches some timetable
/// that meets everything within the bound before the limit, a stopped search returns one that costs no more. No
/// timetable that meets everything costs less than the lower bound, including those above the given bound.
pub fn known_within<K: Keeper>(
    alloc: Global,
    keeper: &mut K,
    bound: Option<u64>,
    limit: u64,
) -> Result<(Known, u64), Memory>
    requires pushes { K.pushes keeper.old ≡ [] }
    requires bound { IsBound (K.network keeper.old) bound }
    ensures known { IfOk result (λ r. IsKnown (K.network keeper.old) bound (Some limit) r.0 r.1) }
    ensures dead { IsDeadEnd (K.network keeper.old) []
        → IfOk result (λ r. (r.0.is_stopped ≡ false) × (r.0.best ≡ None) × (r.1 ≡ 0)) }
    ensures nodes { IfOk result (λ r. AreNodes (K.network keeper.old) r.1) }
    ensures network { K.network keeper.new ≡ K.network keeper.old }
    ensures pushes { K.pushes keeper.new ≡ [] }
    ensures counted { IfOk result (λ r. WerePushed (K.push_count keeper.old) r.1
        (K.push_count keeper.new)) }
    ensures unpushed { OnErr result (K.push_count keeper.new ≡ K.push_count keeper.old) }
{
    known_after(alloc, keeper, &mut Searches::new(alloc), bound, Some(limit))
}

/// The optimum as [`best`] finds it, or the best timetable found when the number of nodes reaches the limit.
///
/// It stops as [`known_within`] does.
pub fn best_within<K: Keeper>(
    alloc: Global,
    keeper: &mut K,
    bound: Option<u64>,
    limit: u64,
) -> Result<(Tried, u64), Memory>
    requires pushes { K.pushes keeper.old ≡ [] }
    requires bound { IsBound (K.network keeper.old) bound }
    ensures tried { IfOk result (λ r. MayTry (K.network keeper.old) bound limit r.0 r.1) }
    ensures dead { IsDeadEnd (K.network keeper.old) []
        → IfOk result (λ r. (r.0 ≡ attempts.Done answers.Infeasible) × (r.1 ≡ 0)) }
    ensures nodes { IfOk result (λ r. AreNodes (K.network keeper.old) r.1) }
    ensures network { K.network keeper.new ≡ K.network keeper.old }
    ensures pushes { K.pushes keeper.new ≡ [] }
    ensures counted { IfOk result (λ r. WerePushed (K.push_count keeper.old) r.1
        (K.push_count keeper.new)) }
    ensures unpushed { OnErr result (K.push_count keeper.new ≡ K.push_count keeper.old) }
{
    let ask = Ask {
        bound,
        limit: Some(limit),
    };
    let (known, nodes) = search(alloc, keeper, &mut Searches::new(alloc), ask)?;
    let tried = if known.is_stopped {
        Tried::Stopped { best: known.best }
    } else {
        Tried::Done(answer_of(known.best))
    };
    Ok((tried, nodes))
}
