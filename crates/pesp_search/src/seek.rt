//! The search by cycles, which comes before the tree.

ghost use Rattle.std.specs.Prelude.{◌≡◌, ◌↔◌, ℕ, ◌+◌, ◌-◌, ◌*◌, ◌<◌, ◌^◌, min, [], false, IfOk, IfSome, All, None, Some, length, option_map};
ghost use Rattle.pesp_instance.specs.Network.{IsNetwork, event_ids};
ghost use Rattle.pesp_search.specs.Arcs.{IsNetworkOf};
ghost use Rattle.pesp_search.specs.Optima.{IsBound};
ghost use Rattle.pesp_search.specs.Sought.{IsCap, IsMapOf, IsSought, IsSoughtMap, best_of_map};
ghost use Rattle.pesp_search.specs.Known.{IsFloor};
ghost use Rattle.pesp_search_least.specs.Sums.{IsCandidate, IsLeast, IsLowerBound};
ghost use Rattle.pesp_search_network.specs.Arcs.{IsCosted};
ghost use Rattle.pesp_search_network.specs.Reduced.{IsPresolved, IsReduction};

use crate::Best;
use crate::arcs::network_of;
use crate::branch::all_at_zero;
use crate::outcome::put_times;
use crate::searches::{Ask, Searches};
use pesp_base::{EventId, Memory};
use pesp_domains::Keeper;
use pesp_instance::Instance;
use pesp_search_cycles::{ByCycles, is_of_use};
use pesp_search_least::{Budget, Candidate, First, Limits, Outcome};
use pesp_search_network::{Network, Reduction};
use std::alloc::Global;

/// The units of work for each node of the limit: more prove more within a limit and take longer
/// (docs/DECISIONS.md, "Search"). No trial of this number is recorded.
const UNITS_OF_NODE: u64 = 20;

/// The units of a local search if there is no limit and there are too many cycles: more improve the timetable
/// and delay the tree. No trial of this number is recorded.
const ROUGH_UNITS: u64 = 20_000;

/// The result of the search by cycles.
#[derive(Drop)]
pub(crate) struct Sought {
    // At the end the optimum, or none if there is none; otherwise the best timetable found, if any.
    pub(crate) best: Option<Best>,
    // No timetable that meets everything costs less.
    pub(crate) floor: u64,
    // Whether the search ended.
    pub(crate) is_end: bool,
}

/// The same result, as a map from events to residues.
#[derive(Drop)]
struct SoughtMap {
    // At the end the first map of least cost, or none if there is none; otherwise the best map found, if any.
    best: Option<Candidate>,
    // No map costs less.
    floor: u64,
    // Whether the search ended.
    is_end: bool,
}

/// The budget of the search: units for each node of the limit, and one for each solved network.
fn budget_of(limit: Option<u64>, known: usize) -> Budget
    ensures { result.left
        ≡ option_map (λ nodes. min (2 ^ 64 - 1) (nodes * 20 + known)) limit }
{
    match limit {
        Some(limit) => {
            let units = limit.saturating_mul(UNITS_OF_NODE);
            Budget::of(units.saturating_add(known as u64))
        }
        None => Budget::unlimited(),
    }
}

/// The cap below which exactly the costs within the bound are: the bound plus 1, so that a timetable at the
/// bound is kept.
fn cap_of(bound: Option<u64>) -> u64
    ensures { IsCap bound result }
{
    match bound {
        Some(bound) => bound.saturating_add(1),
        None => u64::MAX,
    }
}

/// The first map of least cost, given any map of least cost.
fn first_map(
    alloc: Global,
    cycles: &mut ByCycles,
    network: &Network,
    candidate: Candidate,
    budget: &mut Budget,
) -> Result<SoughtMap, Memory>
    requires least { IsLeast (IsCosted network.now) candidate }
    requires room { candidate.cost + 1 < 2 ^ 64 }
    ensures best { (cap : ℕ) → candidate.cost < cap
        → IfOk result (λ sought. IsSoughtMap (IsCosted network.now) cap sought.is_end sought.best) }
    ensures floor { IfOk result (λ sought. sought.floor ≡ candidate.cost) }
{
    let floor = candidate.cost;
    let (best, is_end) = match cycles.first(alloc, network, candidate, budget)? {
        First::Done(best) => (best, true),
        First::Spent { best, .. } => (best, false),
    };
    Ok(SoughtMap {
        best: Some(best),
        floor,
        is_end,
    })
}

/// The first map of least cost, if some cost is below the cap.
fn seek_by_cycles(
    alloc: Global,
    cycles: &mut ByCycles,
    network: &Network,
    cap: u64,
    budget: &mut Budget,
) -> Result<SoughtMap, Memory>
    ensures best { IfOk result (λ sought.
        IsSoughtMap (IsCosted network.now) cap sought.is_end sought.best) }
    ensures floor { IfOk result (λ sought. IsLowerBound (IsCosted network.now) sought.floor) }
{
    match network.least(alloc, cycles, Limits { floor: 0, cap }, budget)? {
        Outcome::Found(candidate) => first_map(alloc, cycles, network, candidate, budget),
        Outcome::NoneBelow => Ok(SoughtMap {
            best: None,
            floor: cap,
            is_end: true,
        }),
        Outcome::Spent { best, lower_bound } => Ok(SoughtMap {
            best,
            floor: lower_bound.min(cap),
            is_end: false,
        }),
    }
}

/// A map below the cap of a network with too many cycles, if a local search finds one.
fn rough_map(
    alloc: Global,
    cycles: &mut ByCycles,
    network: &Network,
    cap: u64,
    limit: Option<u64>,
) -> Result<SoughtMap, Memory>
    ensures best { IfOk result (λ sought.
        IsSoughtMap (IsCosted network.now) cap sought.is_end sought.best) }
    ensures floor { IfOk result (λ sought. IsLowerBound (IsCosted network.now) sought.floor) }
{
    let units = match limit {
        Some(limit) => limit.saturating_mul(UNITS_OF_NODE) / 2,
        None => ROUGH_UNITS,
    };
    let best = cycles.rough(alloc, network, cap, units)?;
    Ok(SoughtMap {
        best,
        floor: 0,
        is_end: false,
    })
}

/// Searches the maps of a network below a cap: by cycles, or by a local search if there are too many cycles.
fn seek_in(
    alloc: Global,
    before: &mut Searches,
    network: &Network,
    cap: u64,
    limit: Option<u64>,
) -> Result<SoughtMap, Memory>
    ensures best { IfOk result (λ sought.
        IsSoughtMap (IsCosted network.now) cap sought.is_end sought.best) }
    ensures floor { IfOk result (λ sought. IsLowerBound (IsCosted network.now) sought.floor) }
{
    before.by_cycles = is_of_use(alloc, network)?;
    let cycles = &mut before.cycles;
    if !before.by_cycles {
        return rough_map(alloc, cycles, network, cap, limit);
    }
    let mut budget = budget_of(limit, cycles.solved());
    seek_by_cycles(alloc, cycles, network, cap, &mut budget)
}

/// The result for the original network, from that for its reduction.
fn lifted_map(
    alloc: Global,
    network: &Network,
    reduction: &Reduction,
    sought: SoughtMap,
) -> Result<SoughtMap, Memory>
    requires reduction { IsReduction network.now reduction.now }
    requires candidate { IfSome sought.best (IsCandidate (IsCosted reduction.now.network)) }
    ensures best { (cap part : ℕ)
        → ((cost : ℕ) → (cost < part) ↔ (reduction.now.fixed + reduction.now.factor * cost < cap))
        → IsSoughtMap (IsCosted reduction.now.network) part sought.is_end sought.best
        → IfOk result (λ of_map. IsSoughtMap (IsCosted network.now) cap of_map.is_end of_map.best) }
    ensures floor { IsLowerBound (IsCosted reduction.now.network) sought.floor
        → IfOk result (λ of_map. IsLowerBound (IsCosted network.now) of_map.floor) }
{
    let SoughtMap {
        best,
        floor,
        is_end,
    } = sought;
    let floor = reduction.lower_bound(floor);
    match best {
        Some(candidate) => Ok(SoughtMap {
            best: Some(network.lift(alloc, reduction, &candidate)?),
            floor,
            is_end,
        }),
        None => Ok(SoughtMap {
            best: None,
            floor,
            is_end,
        }),
    }
}

/// Searches the maps of a network below a cap, in its reduction.
fn seek_map(
    alloc: Global,
    before: &mut Searches,
    network: &Network,
    presolved: Option<Reduction>,
    cap: u64,
    limit: Option<u64>,
) -> Result<SoughtMap, Memory>
    requires presolved { IsPresolved network.now presolved }
    ensures best { IfOk result (λ sought.
        IsSoughtMap (IsCosted network.now) cap sought.is_end sought.best) }
    ensures floor { IfOk result (λ sought. IsLowerBound (IsCosted network.now) sought.floor) }
{
    let Some(reduction) = presolved else {
        return Ok(SoughtMap {
            best: None,
            floor: cap,
            is_end: true,
        });
    };
    let part = reduction.cap(cap);
    let sought = seek_in(alloc, before, &reduction.network, part, limit)?;
    lifted_map(alloc, network, &reduction, sought)
}

/// The timetable of a map, with its cost.
fn best_of_map(
    alloc: Global,
    instance: &Instance,
    events: &[EventId],
    candidate: Candidate,
) -> Result<Best, Memory>
    requires network { IsNetwork instance.now }
    requires events { events.now ≡ event_ids instance.now }
    requires long { length candidate.map.items ≡ length (event_ids instance.now) }
    requires below { All (λ t. t < instance.now.period) candidate.map.items }
    ensures { IfOk result (λ best. best ≡ best_of_map instance.now candidate) }
{
    let mut times = all_at_zero(alloc, instance)?;
    put_times(&mut times, instance, events, &candidate.map);
    Ok(Best {
        cost: candidate.cost,
        times,
    })
}

/// The same result with the timetable of the map.
fn with_times(
    alloc: Global,
    instance: &Instance,
    events: &[EventId],
    sought: SoughtMap,
) -> Result<Sought, Memory>
    requires network { IsNetwork instance.now }
    requires events { events.now ≡ event_ids instance.now }
    requires map { IfSome sought.best (IsMapOf instance.now) }
    ensures best { IfOk result (λ timed.
        timed.best ≡ option_map (best_of_map instance.now) sought.best) }
    ensures floor { IfOk result (λ timed. timed.floor ≡ sought.floor) }
    ensures end { IfOk result (λ timed. timed.is_end ≡ sought.is_end) }
{
    let SoughtMap {
        best,
        floor,
        is_end,
    } = sought;
    let best = match best {
        Some(candidate) => Some(best_of_map(alloc, instance, events, candidate)?),
        None => None,
    };
    Ok(Sought {
        best,
        floor,
        is_end,
    })
}

/// Searches by cycles, or locally if there are too many cycles. With limit 0 it does neither.
pub(crate) fn seek<K: Keeper>(
    alloc: Global,
    keeper: &K,
    events: &[EventId],
    before: &mut Searches,
    ask: Ask,
) -> Result<Sought, Memory>
    requires network { IsNetwork (K.network keeper.now) }
    requires events { events.now ≡ event_ids (K.network keeper.now) }
    requires pushes { K.pushes keeper.now ≡ [] }
    requires bound { IsBound (K.network keeper.now) ask.bound }
    ensures sought { IfOk result (λ sought.
        IsSought (K.network keeper.now) ask.bound sought.is_end sought.best) }
    ensures floor { IfOk result (λ sought. IsFloor (K.network keeper.now) sought.floor) }
    ensures none { ask.limit ≡ Some 0
        → IfOk result (λ sought. (sought.is_end ≡ false) × (sought.best ≡ None)) }
{
    let nothing = Sought {
        best: None,
        floor: 0,
        is_end: false,
    };
    if ask.limit == Some(0) {
        return Ok(nothing);
    }
    let network = network_of(alloc, keeper, events)?;
    let presolved = network.presolve(alloc)?;
    let cap = cap_of(ask.bound);
    let sought = seek_map(alloc, before, &network, presolved, cap, ask.limit)?;
    with_times(alloc, keeper.instance(), events, sought)
}
