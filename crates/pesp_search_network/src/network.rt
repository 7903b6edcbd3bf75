//! Networks.

ghost use Rattle.std.specs.Prelude.{◌≡◌, ◌==◌, ◌↔◌, ℕ, ◌+◌, ◌*◌, ◌<◌, ◌≤◌, [], ◌∷◌, ◌++◌, true, false, All, IfOk, IsTrue, OnOk, OnErr, filter, length, replicate, slice_index_or, slice_set};
ghost use Rattle.pesp_search_network.specs.Arcs.{AreArcs, IsBetween, has};
ghost use Rattle.pesp_search_network.specs.Pieces.{is_of};
ghost use Rattle.pesp_search_network.specs.Weights.{kept, weighed};

use crate::Arc;
use crate::separation::Separation;
use pesp_base::{Memory, Period, Weight};
use std::alloc::Global;
use std::marker::Model;

/// Events by index, arcs between them, and a domain for each event.
#[derive(Drop)]
pub struct Network {
    // The period of each domain.
    period: Period,
    // The number of events, at most 20,000.
    events: usize,
    // The arcs, each between two of the events; at most 100,000.
    arcs: Vec<Arc>,
    // For each event and each residue, whether the domain contains it.
    rows: Vec<bool>,
    // For each event whether `imply` was called for it. No proof relies on it.
    implied: Vec<bool>,
}

impl Model for Network {
    ghost use Rattle.pesp_search_network.specs.Arcs.{Arcs, AreArcs};

    ghost Value = { Arcs };

    ghost view = { λ a. record { period = a.period; events = a.events; arcs = a.arcs.items; rows = a.rows.items } };

    ghost invariant = { λ a. AreArcs (record { period = a.period; events = a.events; arcs = a.arcs.items; rows = a.rows.items }) };
}

/// The arc, without its weight if `is_kept` is false.
fn weigh(arc: Arc, is_kept: bool) -> Arc
    ensures { result ≡ kept is_kept arc }
{
    if is_kept {
        return arc;
    }
    match Weight::new(0) {
        Some(weight) => Arc { weight, ..arc },
        None => arc,
    }
}

/// The arcs; only those of this part keep their weights.
fn arcs_of_part(
    alloc: Global,
    arcs: &[Arc],
    parts: &[usize],
    part: usize,
) -> Result<Vec<Arc>, Memory>
    requires { length parts.now ≡ length arcs.now }
    ensures { IfOk result (λ of_part. of_part.items ≡ weighed (λ p. p == part) parts.now arcs.now) }
{
    let mut of_part = Vec::new(alloc);
    for index in 0..arcs.len() {
        let arc = weigh(arcs[index], parts[index] == part);
        if of_part.push(arc).is_err() {
            return Err(Memory);
        }
    }
    Ok(of_part)
}

impl Network {
    /// A network without arcs, with full domains.
    pub fn new(alloc: Global, period: Period, events: usize) -> Result<Network, Memory>
        requires { events ≤ 20000 }
        ensures { IfOk result (λ network.
            network ≡ record {
              period = period;
              events = events;
              arcs = [];
              rows = replicate (events * period) true;
            }) }
    {
        let Ok(rows) = vec![in alloc; true; events * usize::from(period.get())] else {
            return Err(Memory);
        };
        let Ok(implied) = vec![in alloc; false; events] else {
            return Err(Memory);
        };
        Ok(Network {
            period,
            events,
            arcs: Vec::new(alloc),
            rows,
            implied,
        })
    }

    /// Appends an arc.
    pub fn add(&mut self, arc: Arc) -> Result<(), Memory>
        requires from { arc.from < self.old.events }
        requires to { arc.to < self.old.events }
        requires few { length self.old.arcs < 100000 }
        ensures ok { OnOk result (self.new ≡ record self.old { arcs = self.old.arcs ++ arc ∷ [] }) }
        ensures err { OnErr result (self.new ≡ self.old) }
    {
        if self.arcs.push(arc).is_err() {
            return Err(Memory);
        }
        Ok(())
    }

    /// Removes the residue from the event's domain.
    pub fn forbid(&mut self, event: usize, residue: u16)
        requires event { event < self.old.events }
        requires residue { residue < self.old.period }
        ensures { self.new ≡ record self.old {
          rows = slice_set self.old.rows (event * self.old.period + residue) false;
        } }
    {
        let index = event * usize::from(self.period.get()) + usize::from(residue);
        self.rows[index] = false;
    }

    /// Records that the event's domain follows from arcs and other domains, so a method may ignore it.
    pub fn imply(&mut self, event: usize)
        ensures { self.new ≡ self.old }
    {
        if let Some(is_implied) = self.implied.get_mut(event) {
            *is_implied = true;
        }
    }

    /// Whether that was recorded for the event.
    pub fn is_implied(&self, event: usize) -> bool {
        match self.implied.get(event) {
            Some(is_implied) => *is_implied,
            None => false,
        }
    }

    /// A copy of these records.
    fn copy_implied(&self) -> Result<Vec<bool>, Memory> {
        match self.implied.clone() {
            Ok(implied) => Ok(implied),
            Err(_) => Err(Memory),
        }
    }

    /// A copy of the network.
    pub fn copy(&self) -> Result<Network, Memory>
        ensures { IfOk result (λ network. network ≡ self.now) }
    {
        let Ok(arcs) = self.arcs.clone() else {
            return Err(Memory);
        };
        let Ok(rows) = self.rows.clone() else {
            return Err(Memory);
        };
        Ok(Network {
            period: self.period,
            events: self.events,
            arcs,
            rows,
            implied: self.copy_implied()?,
        })
    }

    /// The arcs on this side of a cut.
    fn arcs_of(&self, alloc: Global, cut: &Separation, side: bool) -> Result<Vec<Arc>, Memory>
        ensures { IfOk result (λ arcs.
            arcs.items ≡ filter (is_of cut.now.inner.items side) self.now.arcs) }
    {
        let mut arcs = Vec::new(alloc);
        for arc in &self.arcs {
            if cut.touches(arc) == side && arcs.push(*arc).is_err() {
                return Err(Memory);
            }
        }
        Ok(arcs)
    }

    /// The same events, with the arcs on this side of a cut.
    pub(crate) fn with_arcs_of(
        &self,
        alloc: Global,
        cut: &Separation,
        side: bool,
    ) -> Result<Network, Memory>
        ensures { IfOk result (λ network.
            network ≡ record self.now {
              arcs = filter (is_of cut.now.inner.items side) self.now.arcs;
            }) }
    {
        let arcs = self.arcs_of(alloc, cut, side)?;
        let Ok(rows) = self.rows.clone() else {
            return Err(Memory);
        };
        Ok(Network {
            period: self.period,
            events: self.events,
            arcs,
            rows,
            implied: self.copy_implied()?,
        })
    }

    /// A copy of the network in which only the arcs of this part have weights.
    pub fn of_part(&self, alloc: Global, parts: &[usize], part: usize) -> Result<Network, Memory>
        requires { length parts.now ≡ length self.now.arcs }
        ensures { IfOk result (λ network.
            network ≡ record self.now { arcs = weighed (λ p. p == part) parts.now self.now.arcs }) }
    {
        let arcs = arcs_of_part(alloc, &self.arcs, parts, part)?;
        let Ok(rows) = self.rows.clone() else {
            return Err(Memory);
        };
        Ok(Network {
            period: self.period,
            events: self.events,
            arcs,
            rows,
            implied: self.copy_implied()?,
        })
    }

    /// Whether both have the same period, events, arcs and domains.
    pub fn is_same(&self, other: &Network) -> bool
        ensures { IsTrue result ↔ (other.now ≡ self.now) }
    {
        if self.period != other.period || self.events != other.events {
            return false;
        }
        self.arcs == other.arcs && self.rows == other.rows
    }

    /// Facts that hold for every network.
    pub fn sound(&self)
        ensures { AreArcs self.now }
    {
        let _ = &self.period;
    }

    /// For each event and each residue, whether the domain contains it.
    pub fn rows(&self) -> &[bool]
        ensures { result.now ≡ self.now.rows }
    {
        &self.rows
    }

    pub fn period(&self) -> Period
        ensures { result ≡ self.now.period }
    {
        self.period
    }

    pub fn events(&self) -> usize
        ensures value { result ≡ self.now.events }
        ensures few { result ≤ 20000 }
    {
        self.events
    }

    /// The arcs, in the order in which they were added.
    pub fn arcs(&self) -> &[Arc]
        ensures value { result.now ≡ self.now.arcs }
        ensures between { All (IsBetween self.now.events) result.now }
        ensures few { length result.now ≤ 100000 }
    {
        &self.arcs
    }

    /// The number of arcs.
    pub fn arc_count(&self) -> usize
        ensures value { result ≡ length self.now.arcs }
        ensures few { result ≤ 100000 }
    {
        self.arcs.len()
    }

    pub fn arc(&self, index: usize) -> Arc
        requires { index < length self.now.arcs }
        ensures value { result ≡ slice_index_or self.now.arcs index result }
        ensures between { IsBetween self.now.events result }
    {
        self.arcs[index]
    }

    /// For each residue, whether the event's domain contains it.
    pub fn row(&self, event: usize) -> &[bool]
        requires { event < self.now.events }
        ensures long { length result.now ≡ self.now.period }
        ensures values { (r : ℕ) → r < self.now.period
            → slice_index_or result.now r false ≡ has self.now event r }
    {
        let period = usize::from(self.period.get());
        &self.rows[event * period..event * period + period]
    }
}
