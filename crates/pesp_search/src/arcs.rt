//! An instance and its domains as a network of arcs between events by index.

ghost use Rattle.std.specs.Prelude.{◌≡◌, ℕ, ◌+◌, ◌*◌, ◌<◌, ◌≤◌, ◌⊎◌, false, true, [], IfOk, OnOk, length, replicate, slice_index, slice_index_or};
ghost use Rattle.std.specs.List.{Contains};
ghost use Rattle.std.specs.List.Sorted.{IsStrictlyIncreasing};
ghost use Rattle.pesp_domains.specs.Domains.{holds};
ghost use Rattle.pesp_instance.specs.Network.{IsNetwork, event_ids};
ghost use Rattle.pesp_search.specs.Arcs.{AreArcsOf, AreDomains, IsArcOf, IsNetworkOf};

use pesp_base::{Activity, EventId, Memory};
use pesp_domains::{Keeper, Row};
use pesp_instance::Instance;
use pesp_search_graph::Arc;
use pesp_search_network::Network;
use std::alloc::Global;

/// The index of an event in an ascending list that contains it.
fn index_of(events: &[EventId], event: EventId) -> usize
    requires rises { IsStrictlyIncreasing events.now }
    requires among { Contains events.now event }
    ensures index { result < length events.now }
    ensures event { slice_index events.now result ≡ event }
{
    match events.binary_search(&event) {
        Ok(index) => index,
        Err(index) => index,
    }
}

/// The arc of an activity.
fn arc_of(events: &[EventId], activity: &Activity) -> Arc
    requires rises { IsStrictlyIncreasing events.now }
    requires from { Contains events.now activity.now.from }
    requires to { Contains events.now activity.now.to }
    ensures { IsArcOf events.now activity.now result }
{
    Arc {
        from: index_of(events, activity.from),
        to: index_of(events, activity.to),
        span: activity.span,
        weight: activity.weight,
    }
}

/// Adds an arc for each activity to a network without arcs.
fn add_arcs(network: &mut Network, instance: &Instance, events: &[EventId]) -> Result<(), Memory>
    requires events { events.now ≡ event_ids instance.now }
    requires indices { network.old.events ≡ length events.now }
    requires none { network.old.arcs ≡ [] }
    ensures arcs { OnOk result (AreArcsOf events.now instance.now.activities network.new.arcs) }
    ensures period { network.new.period ≡ network.old.period }
    ensures indices { network.new.events ≡ network.old.events }
    ensures rows { network.new.rows ≡ network.old.rows }
{
    for activity in instance.activities() {
        network.add(arc_of(events, activity))?;
    }
    Ok(())
}

/// Removes all residues outside the row from the full domain of an event.
fn keep_row(network: &mut Network, index: usize, row: &Row)
    requires index { index < network.old.events }
    requires full { (r : ℕ) → r < network.old.period
        → slice_index_or network.old.rows (index * network.old.period + r) false ≡ true }
    ensures same { network.new ≡ record network.old { rows = network.new.rows } }
    ensures kept { (r : ℕ) → r < network.old.period
        → slice_index_or network.new.rows (index * network.old.period + r) false
        ≡ holds row.now r }
    ensures others { (k : ℕ)
        → ((k < index * network.old.period) ⊎ (index * network.old.period + network.old.period ≤ k))
        → slice_index_or network.new.rows k false ≡ slice_index_or network.old.rows k false }
{
    network.sound();
    for residue in 0..network.period().get() {
        if !row.holds(residue) {
            network.forbid(index, residue);
        }
    }
}

/// Restricts each event, whose domain in the network is full, to its domain in the keeper.
fn keep_domains<K: Keeper>(network: &mut Network, keeper: &K, events: &[EventId])
    requires events { events.now ≡ event_ids (K.network keeper.now) }
    requires period { network.old.period ≡ (K.network keeper.now).period }
    requires indices { network.old.events ≡ length events.now }
    requires full { network.old.rows
        ≡ replicate (network.old.events * network.old.period) true }
    ensures same { network.new ≡ record network.old { rows = network.new.rows } }
    ensures domains { AreDomains (K.network keeper.now) (K.pushes keeper.now) network.new.rows }
{
    for (index, event) in events.iter().enumerate() {
        let row = keeper.row(*event).unwrap();
        keep_row(network, index, row);
    }
}

/// Marks the domains of events without a window as implied by arcs and other domains (docs/HISTORY.md, "Rows
/// that fixed times imply").
fn imply_domains(network: &mut Network, instance: &Instance, events: &[EventId])
    ensures { network.new ≡ network.old }
{
    for (index, event) in events.iter().enumerate() {
        if instance.window(*event).is_none() {
            network.imply(index);
        }
    }
}

/// The network of a keeper's instance, with the keeper's domains.
pub(crate) fn network_of<K: Keeper>(
    alloc: Global,
    keeper: &K,
    events: &[EventId],
) -> Result<Network, Memory>
    requires network { IsNetwork (K.network keeper.now) }
    requires events { events.now ≡ event_ids (K.network keeper.now) }
    requires pushes { K.pushes keeper.now ≡ [] }
    ensures { IfOk result (IsNetworkOf (K.network keeper.now)) }
{
    let mut network = Network::new(alloc, keeper.instance().period(), events.len())?;
    keep_domains(&mut network, keeper, events);
    add_arcs(&mut network, keeper.instance(), events)?;
    imply_domains(&mut network, keeper.instance(), events);
    Ok(network)
}
