//! A local search that can be resumed: the modulo network simplex, iterated with kicks.

use crate::chance::Chance;
use crate::charge::Charge;
use crate::current::Current;
use crate::descent::Descent;
use crate::kick::Kick;
use crate::neighbourhood::Neighbourhood;
use crate::numbers::append;
use crate::residue::settle;
use pesp_base::{Memory, Period};
use pesp_search_graph::Arc;
use std::alloc::Global;

/// Networks of at most this number of nodes are searched as a whole, others in neighbourhoods of this size.
/// Larger ones find more with each try and make it slower. No trial of this number is recorded.
const WHOLE: usize = 400;

/// After this number of tries without a better map, the search returns to the best one. More search farther
/// from it. No trial of this number is recorded.
const PATIENCE: u64 = 400;

/// The work of a step besides its kicks and passes, so that every step costs something.
const STEP_WORK: u64 = 64;

/// The least `warmth`: how much a try may raise the cost, in 1 / 10,000 of the cost. It doubles at each return
/// to the best map and then starts again, so no single value has to fit all networks. No trial of this number
/// and of the next two is recorded.
const LEAST_WARMTH: i128 = 5;

/// The `warmth` at the start.
const FIRST_WARMTH: i128 = 20;

/// From this `warmth` on the next return restarts with the least.
const MOST_WARMTH: i128 = 200;

/// A map, and the best one found from it.
#[derive(Drop)]
pub struct LocalSearch {
    // The current map, which may cost more than the best one.
    current: Current,
    // The charge of the current map.
    charge: Charge,
    // The best map, with the origin at residue 0.
    best: Vec<u16>,
    // The charge of the best map.
    best_charge: Charge,
    // The nodes at which the current map may differ from the best one.
    changed: Vec<usize>,
    // The nodes that the current try may move.
    hood: Neighbourhood,
    // The residues of these nodes before the try.
    kept: Vec<u16>,
    // The work space of kicks.
    kick: Kick,
    // The work space of descents.
    descent: Descent,
    // Drives all random choices.
    chance: Chance,
    // Whether a pass over the whole map changed nothing.
    is_settled: bool,
    // The tries since the best map was found, or last returned to.
    idle: u64,
    // How much a try may raise the cost, in 1 / 10,000 of it.
    warmth: i128,
    // The work beyond what was requested, charged to the next call.
    debt: u64,
}

/// The map with a residue below the period for each node, and the origin at 0.
fn map_from(
    alloc: Global,
    period: Period,
    nodes: usize,
    origin: Option<usize>,
    map: &[u16],
) -> Result<Vec<u16>, Memory> {
    let Ok(mut residues) = Vec::from_slice(alloc, map) else {
        return Err(Memory);
    };
    if residues.resize(nodes, 0).is_err() {
        return Err(Memory);
    }
    settle(period, &mut residues, origin);
    Ok(residues)
}

impl LocalSearch {
    /// Starts at a map, which may violate arcs. Missing nodes get residue 0, and residues are reduced modulo
    /// the period.
    ///
    /// The origin is kept at 0, or without an origin the first node at its residue.
    pub fn new(
        alloc: Global,
        period: Period,
        nodes: usize,
        arcs: &[Arc],
        origin: Option<usize>,
        map: &[u16],
    ) -> Result<LocalSearch, Memory> {
        let residues = map_from(alloc, period, nodes, origin, map)?;
        let best = map_from(alloc, period, nodes, origin, map)?;
        let fixed = match origin {
            Some(origin) => origin,
            None => 0,
        };
        let current = Current::new(alloc, period, arcs, residues)?;
        let charge = current.charge();
        Ok(LocalSearch {
            current,
            charge,
            best,
            best_charge: charge,
            changed: Vec::new(alloc),
            hood: Neighbourhood::new(alloc, nodes, fixed)?,
            kept: Vec::new(alloc),
            kick: Kick::new(alloc, period, nodes, fixed)?,
            descent: Descent::new(alloc, period)?,
            chance: Chance::new(),
            is_settled: false,
            idle: 0,
            warmth: FIRST_WARMTH,
            debt: 0,
        })
    }

    /// The best map found.
    pub fn best(&self) -> &[u16] {
        &self.best
    }

    /// The charge of the best map, without loops.
    pub fn charge(&self) -> Charge {
        self.best_charge
    }

    /// Continues until this amount of work is done, or nothing is left to improve.
    ///
    /// Work beyond it is charged to the next call, so the steps do not depend on how the work is divided into
    /// calls. If memory runs out, the best map is kept and the search restarts from it.
    pub fn advance(&mut self, alloc: Global, work: &mut u64) -> Result<(), Memory> {
        for _step in 0..u64::MAX {
            let paid = self.debt.min(*work);
            *work = (*work).saturating_sub(paid);
            self.debt = self.debt.saturating_sub(paid);
            if *work == 0 || self.best_charge == Charge::NONE {
                return Ok(());
            }
            self.debt = STEP_WORK;
            let stepped = if self.is_settled {
                self.try_once(alloc)
            } else {
                self.settle(alloc)
            };
            if stepped.is_err() {
                self.begin_again();
                return stepped;
            }
        }
        Ok(())
    }

    /// Restarts at the best map.
    fn begin_again(&mut self) {
        for (residue, best) in self.current.residues.iter_mut().zip(&self.best) {
            *residue = *best;
        }
        self.changed.clear();
        self.charge = self.best_charge;
    }

    /// Makes a pass over the whole map.
    fn settle(&mut self, alloc: Global) -> Result<(), Memory> {
        self.hood.take_all()?;
        let gain = self
            .descent
            .pass(alloc, &mut self.current, &self.hood, &mut self.chance)?;
        self.debt = self
            .debt
            .saturating_add(self.descent.work(&self.current, &self.hood));
        self.charge.add(gain);
        self.is_settled = gain == Charge::NONE;
        self.mark()?;
        self.keep_best();
        Ok(())
    }

    /// Chooses the neighbourhood of a try, and saves its residues.
    fn choose(&mut self) -> Result<(), Memory> {
        let nodes = self.best.len();
        if nodes <= WHOLE {
            self.hood.take_all()?;
        } else {
            let node = self.chance.number_below(nodes);
            self.hood.take_around(&self.current.links, &[node], WHOLE)?;
        }
        self.kept.clear();
        for node in self.hood.members() {
            append(&mut self.kept, self.current.residue(*node))?;
        }
        Ok(())
    }

    /// Makes a kick and a descent, and undoes both if the cost rises too much.
    fn try_once(&mut self, alloc: Global) -> Result<(), Memory> {
        self.choose()?;
        let mut change = self.kick.make(
            &mut self.current,
            &self.hood,
            &mut self.chance,
            &mut self.debt,
        )?;
        change.add(
            self.descent.go_down(
                alloc,
                &mut self.current,
                &self.hood,
                &mut self.chance,
                &mut self.debt,
            )?,
        );
        if self.accepts(change) {
            self.charge.add(change);
            self.mark()?;
        } else {
            self.take_back();
        }
        self.idle = self.idle.saturating_add(1);
        self.keep_best();
        if self.idle > PATIENCE {
            self.go_back();
        }
        Ok(())
    }

    /// Whether a try is kept: it may not raise the violation, and may raise the cost by a random share of the
    /// allowed amount.
    fn accepts(&mut self, change: Charge) -> bool {
        let drawn = self.chance.number_below(1_000) as u64;
        if change.excess != 0 || self.charge.excess > 0 {
            return change.excess <= 0;
        }
        let size = self.hood.members().len() as u64;
        let more = i128::from(change.cost)
            .wrapping_mul(10_000_000)
            .wrapping_mul(i128::from(self.best.len() as u64));
        let most = i128::from(self.charge.cost)
            .wrapping_mul(self.warmth)
            .wrapping_mul(i128::from(drawn))
            .wrapping_mul(i128::from(size));
        more <= most
    }

    /// Records the nodes that were moved.
    fn mark(&mut self) -> Result<(), Memory> {
        for node in self.hood.members() {
            append(&mut self.changed, *node)?;
        }
        Ok(())
    }

    fn take_back(&mut self) {
        for (node, residue) in self.hood.members().iter().zip(&self.kept) {
            self.current.set(*node, *residue);
        }
    }

    /// Makes the current map the best one if it is better.
    fn keep_best(&mut self) {
        if self.charge >= self.best_charge {
            return;
        }
        self.best_charge = self.charge;
        self.idle = 0;
        for node in &self.changed {
            let residue = self.current.residue(*node);
            if let Some(old) = self.best.get_mut(*node) {
                *old = residue;
            }
        }
        self.changed.clear();
    }

    /// Returns to the best map.
    fn go_back(&mut self) {
        for node in &self.changed {
            if let Some(residue) = self.best.get(*node) {
                self.current.set(*node, *residue);
            }
        }
        self.changed.clear();
        self.charge = self.best_charge;
        self.idle = 0;
        self.warmth = if self.warmth >= MOST_WARMTH {
            LEAST_WARMTH
        } else {
            self.warmth.wrapping_mul(2)
        };
    }
}
