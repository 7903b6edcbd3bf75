//! The arcs of a network, and one more node: the origin, whose residue is 0.
//!
//! An arc leads from the origin to each event whose domain is not full, unless arcs and other domains imply
//! that domain. With fixed times domains are narrow everywhere, so arcs to all events would add one cycle each
//! (docs/HISTORY.md, "Rows that fixed times imply"). No proof relies on this graph: walks are tested, and the
//! cost of maps is computed.

ghost use Rattle.std.specs.Prelude.{◌<◌};

use crate::residues::row_range;
use crate::{Range, Walk};
use pesp_base::{Memory, Period, Span, Weight};
use pesp_search_basis::{candidate_cycles, cycle_count, narrow_cycles, tree_cycles, way};
use pesp_search_graph::{Arc, Step};
use pesp_search_network::Network;
use std::alloc::Global;

/// The most cycles for which narrow ones are found, by comparing each candidate with all others. Above it,
/// those of a spanning tree are used: 100 events with 700 activities took 0.27 s instead of 1.11
/// (docs/HISTORY.md, "What the search could do without").
const MOST_NARROW: usize = 400;

/// The visited numbers of one unit of a budget (docs/DECISIONS.md, "Search").
const NUMBERS_OF_UNIT: u64 = 1_024;

/// The arcs of a network, then those from the origin.
#[derive(Drop)]
pub(crate) struct Graph {
    // The number of nodes; the origin is the last one.
    nodes: usize,
    // The number of arcs of the network itself.
    own: usize,
    // All arcs, those of the network first.
    arcs: Vec<Arc>,
}

/// Whether a domain lacks a residue.
fn has_gap(row: &[bool]) -> bool {
    for is_there in row {
        if !*is_there {
            return true;
        }
    }
    false
}

/// The weight of an arc from the origin; none if the arc is not needed. A range of all residues needs it only
/// if the domain has a gap.
fn weight_of(range: Range, row: &[bool], period: Period) -> Option<u32> {
    let last = i64::from(period.get()) - 1;
    if 0 < range.low || range.high < last {
        return Some(0);
    }
    if has_gap(row) { Some(1) } else { None }
}

/// Whether a range of several residues contains all of an implied domain, so that it adds nothing.
fn is_implied(network: &Network, event: usize, range: Range) -> bool
    requires { event < network.now.events }
{
    if !network.is_implied(event) || range.high <= range.low {
        return false;
    }
    network.sound();
    let all = row_range(network.row(event));
    range.low <= all.low && all.high <= range.high
}

/// The arc from the origin to an event with this range, if the range is not full or the domain has a gap, and
/// the domain is not implied.
fn origin_arc(network: &Network, event: usize, range: Range) -> Option<Arc>
    requires { event < network.now.events }
{
    if is_implied(network, event, range) {
        return None;
    }
    let weight = weight_of(range, network.row(event), network.period())?;
    let low = i32::try_from(range.low).ok()?;
    let high = i32::try_from(range.high).ok()?;
    let span = Span::new(low, high).ok()?;
    let weight = Weight::new(weight)?;
    Some(Arc {
        from: network.events(),
        to: event,
        span,
        weight,
    })
}

/// The kind of a cycle basis.
#[derive(Clone, Copy)]
pub(crate) enum Basis {
    /// The fundamental cycles of a spanning tree, which take almost no time to find.
    Tree,
    /// Narrow cycles, which give better bounds.
    Narrow,
}

impl Basis {
    pub(crate) fn is_narrow(self) -> bool {
        match self {
            Basis::Narrow => true,
            Basis::Tree => false,
        }
    }
}

/// The units for this number of visited numbers.
pub(crate) fn units_of(numbers: u64) -> u64 {
    numbers / NUMBERS_OF_UNIT
}

impl Graph {
    /// The graph of a network whose events have these ranges of residues.
    pub(crate) fn of(
        alloc: Global,
        network: &Network,
        residues: &[Range],
    ) -> Result<Graph, Memory> {
        let own = network.arcs();
        let events = network.events();
        let Ok(mut arcs) = Vec::with_capacity(alloc, own.len()) else {
            return Err(Memory);
        };
        if arcs.extend_from_slice(own).is_err() {
            return Err(Memory);
        }
        for event in 0..events.min(residues.len()) {
            if let Some(arc) = origin_arc(network, event, residues[event]) {
                if arcs.push(arc).is_err() {
                    return Err(Memory);
                }
            }
        }
        Ok(Graph {
            nodes: events + 1,
            own: own.len(),
            arcs,
        })
    }

    pub(crate) fn nodes(&self) -> usize {
        self.nodes
    }

    pub(crate) fn arcs(&self) -> &[Arc] {
        &self.arcs
    }

    /// The number of cycles of a basis.
    pub(crate) fn cycle_count(&self, alloc: Global, period: Period) -> Result<usize, Memory> {
        cycle_count(alloc, period, self.nodes, &self.arcs)
    }

    /// The event to which an arc from the origin leads; none for other arcs.
    fn event_of(&self, arc: usize) -> Option<usize> {
        if arc < self.own {
            return None;
        }
        match self.arcs.get(arc) {
            Some(arc) => Some(arc.to),
            None => None,
        }
    }

    /// The event at which a step starts.
    fn start_of(&self, step: Step) -> usize {
        match self.arcs.get(step.arc) {
            Some(arc) if step.along => arc.from,
            Some(arc) => arc.to,
            None => 0,
        }
    }

    /// The index of the first step from the origin; 0 if there is none.
    fn leave(&self, steps: &[Step]) -> usize {
        for index in 0..steps.len() {
            let step = steps[index];
            if step.along && self.own <= step.arc {
                return index;
            }
        }
        0
    }

    /// The walk of a cycle, without the steps to and from the origin.
    fn walk_of(&self, alloc: Global, steps: &[Step]) -> Result<Option<Walk>, Memory> {
        let start = self.leave(steps);
        let Some(first) = steps.get(start) else {
            return Ok(None);
        };
        let mut from = self.start_of(*first);
        let mut to = from;
        let mut kept = Vec::new(alloc);
        for index in 0..steps.len() {
            let place = start.saturating_add(index) % steps.len();
            let step = steps[place];
            match self.event_of(step.arc) {
                Some(event) if step.along => from = event,
                Some(event) => to = event,
                None => {
                    if kept.push(step).is_err() {
                        return Err(Memory);
                    }
                }
            }
        }
        Ok(Some(Walk::new(from, kept, to)))
    }

    /// The walks of cycles.
    fn walks_of(&self, alloc: Global, cycles: &[Vec<Step>]) -> Result<Vec<Walk>, Memory> {
        let mut walks = Vec::new(alloc);
        for cycle in cycles {
            if let Some(walk) = self.walk_of(alloc, cycle)? {
                if walks.push(walk).is_err() {
                    return Err(Memory);
                }
            }
        }
        Ok(walks)
    }

    /// An estimate of the units needed to find narrow cycles; none if there are too many.
    pub(crate) fn units_of_narrow(
        &self,
        alloc: Global,
        period: Period,
    ) -> Result<Option<u64>, Memory> {
        if MOST_NARROW < self.cycle_count(alloc, period)? {
            return Ok(None);
        }
        let ways = (self.nodes as u64).saturating_mul(self.arcs.len() as u64);
        Ok(Some(units_of(ways.saturating_mul(16))))
    }

    /// The walks of a cycle basis.
    pub(crate) fn walks(
        &self,
        alloc: Global,
        period: Period,
        basis: Basis,
        work: &mut u64,
    ) -> Result<Vec<Walk>, Memory> {
        let cycles = match basis {
            Basis::Narrow => narrow_cycles(alloc, period, self.nodes, &self.arcs, work)?,
            Basis::Tree => tree_cycles(alloc, period, self.nodes, &self.arcs)?,
        };
        self.walks_of(alloc, &cycles)
    }

    /// The walks of the narrowest cycles, at most `most`; none if there are too many cycles.
    pub(crate) fn candidates(
        &self,
        alloc: Global,
        period: Period,
        most: usize,
        work: &mut u64,
    ) -> Result<Vec<Walk>, Memory> {
        if MOST_NARROW < self.cycle_count(alloc, period)? {
            return Ok(Vec::new(alloc));
        }
        let cycles = candidate_cycles(alloc, period, self.nodes, &self.arcs, most, work)?;
        self.walks_of(alloc, &cycles)
    }

    /// A walk from the event to a held event, or to one whose range is not full.
    pub(crate) fn walk_from(
        &self,
        alloc: Global,
        period: Period,
        event: usize,
        held: &[bool],
    ) -> Result<Option<Walk>, Memory> {
        let Some(steps) = way(alloc, period, self.nodes, &self.arcs, event, held)? else {
            return Ok(None);
        };
        let mut to = event;
        let mut kept = Vec::new(alloc);
        for step in &steps {
            if self.event_of(step.arc).is_none() {
                let back = Step {
                    arc: step.arc,
                    along: !step.along,
                };
                to = self.start_of(back);
                if kept.push(*step).is_err() {
                    return Err(Memory);
                }
            }
        }
        Ok(Some(Walk::new(event, kept, to)))
    }
}
