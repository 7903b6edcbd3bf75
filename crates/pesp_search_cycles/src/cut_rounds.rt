//! The search for flip cuts in rounds: cuts that the optimal slacks of the root node violate.
//!
//! No proof relies on it: each flip gives a valid cut.

ghost use Rattle.pesp_search_least.specs.Spending.{OnlySpends};

use crate::aim::{Aim, Estimate};
use crate::flip::Flip;
use crate::graph::units_of;
use crate::node::most_of;
use crate::proposer::Proposer;
use crate::residues::residue_ranges;
use crate::root::root;
use crate::site::{Site, candidates_of, missed_by, push_cuts};
use crate::spent::spent_of;
use crate::turn::Turn;
use crate::{Cycles, Walk};
use pesp_base::Memory;
use pesp_search_least::Budget;
use pesp_search_network::Network;
use std::alloc::Global;

/// The most rounds. More find further cuts and take longer. No trial of this number is recorded.
const ROUNDS: u64 = 40;

/// After this number of rounds, cuts that are not tight are dropped and a new tableau is made: half of a
/// round's cuts are not tight in the next (docs/HISTORY.md, "Rounds a period too wide").
const ROUNDS_OF_TABLEAU: u64 = 4;

/// Networks with fewer walks are searched without cuts. No trial of this number is recorded.
const LEAST_WALKS: usize = 12;

/// The most units of all rounds together. More find further cuts and take longer. No trial of this number is
/// recorded.
const UNITS: u64 = 400_000;

/// The units of the first turn; each later turn has twice as many. Rounds alternate with the search, because in
/// one piece they made 16 narrow lines take 2.5 s instead of 0.6 (docs/HISTORY.md, "A local search, turns by
/// bounds, and tied events as one").
const FIRST_TURN: u64 = 40_000;

/// A search for flip cuts that can be resumed.
#[derive(Drop)]
pub(crate) struct Rounds {
    // The flips of the tableau's cuts, in the order of the cuts.
    flips: Vec<Flip>,
    // The tableau of the walks and these cuts; none before the first round.
    proposer: Option<Proposer>,
    // The walks that may get cuts; none before the first round.
    candidates: Option<Vec<Walk>>,
    // The estimate after the last round; none before the first.
    known: Option<Estimate>,
    // The number of rounds left.
    rounds: u64,
    // The number of units left for all rounds.
    units: u64,
    // The number of units left in this turn; 0 if the turn is over.
    turn: u64,
    // The number of units of the next turn.
    given: u64,
    // The number of poor rounds in succession; after three the search ends (docs/HISTORY.md, "A local search,
    // turns by bounds, and tied events as one").
    poor: u64,
    // Whether to make another round.
    goes_on: bool,
}

impl Rounds {
    /// A search before its first round.
    pub(crate) fn new(alloc: Global) -> Rounds {
        Rounds {
            flips: Vec::new(alloc),
            proposer: None,
            candidates: None,
            known: None,
            rounds: ROUNDS,
            units: UNITS,
            turn: 0,
            given: FIRST_TURN,
            poor: 0,
            goes_on: true,
        }
    }

    /// Starts another turn, twice as long, if the last one is over.
    fn begin_turn(&mut self) {
        if self.turn == 0 {
            self.turn = self.given;
            self.given = self.given.saturating_mul(2);
        }
    }

    /// The next turn of the search without cuts: an empty one while these rounds have units left in their turn,
    /// one as long as its last when that turn is over, and longer ones once the rounds have ended.
    pub(crate) fn turn_beside(&self, turn: Turn) -> Turn {
        if !self.goes_on {
            turn.longer()
        } else if self.turn == 0 {
            turn.again()
        } else {
            turn.ended()
        }
    }

    /// Subtracts units. Without units left, the search ends.
    fn spend(&mut self, units: u64) {
        self.turn = self.turn.saturating_sub(units);
        self.units = self.units.saturating_sub(units);
        self.goes_on = self.goes_on && 0 < self.units;
    }

    /// Whether the search can be resumed.
    pub(crate) fn is_open(&self) -> bool {
        self.goes_on
    }

    /// Whether the bound with these cuts is near the cost of the best map known now.
    pub(crate) fn are_of_use(&self, aim: Aim) -> bool {
        match self.known {
            Some(known) => known.with_best(aim.best).is_near(0),
            None => false,
        }
    }

    /// The flips.
    pub(crate) fn into_flips(self) -> Vec<Flip> {
        self.flips
    }

    /// The last tableau, or one of the walks and the current cuts.
    fn tableau(&mut self, alloc: Global, site: &Site) -> Result<Proposer, Memory> {
        if let Some(proposer) = self.proposer.take() {
            return Ok(proposer);
        }
        let mut proposer = Proposer::new(alloc, site.cycles)?;
        push_cuts(alloc, site, &self.flips, &mut proposer)?;
        Ok(proposer)
    }

    /// Keeps only the flips whose cuts are tight.
    fn leave_tight(&mut self, alloc: Global, proposer: &Proposer) -> Result<(), Memory> {
        let mut kept = Vec::new(alloc);
        for index in 0..self.flips.len() {
            if proposer.is_tight(index) && kept.push(self.flips[index].copy()?).is_err() {
                return Err(Memory);
            }
        }
        self.flips = kept;
        Ok(())
    }

    /// The flips of the most violated cuts.
    fn missed(
        &self,
        alloc: Global,
        site: &Site,
        proposer: &Proposer,
        budget: &mut Budget,
    ) -> Result<Vec<Flip>, Memory> {
        let Some(candidates) = &self.candidates else {
            return Ok(Vec::new(alloc));
        };
        let mut work = 0;
        let missed = missed_by(alloc, site, proposer, candidates, &mut work)?;
        budget.spend(units_of(work));
        Ok(missed)
    }

    /// Appends flips.
    fn add(&mut self, flips: Vec<Flip>) -> Result<(), Memory> {
        for flip in flips {
            if self.flips.push(flip).is_err() {
                return Err(Memory);
            }
        }
        Ok(())
    }

    /// Updates the estimate, and returns whether to continue.
    fn judged(&mut self, bound: u64, cost: Option<u64>, aim: Aim) -> bool {
        let known = Estimate::of(bound, cost, aim);
        self.rounds = self.rounds.saturating_sub(1);
        let is_worth = match self.known {
            Some(last) => known.wants_more(bound.saturating_sub(last.bound), self.rounds),
            None => known.wants_cuts(),
        };
        self.known = Some(known);
        if is_worth {
            self.poor = 0
        } else {
            self.poor = self.poor.saturating_add(1)
        }
        self.poor < 3 && 0 < self.rounds && 0 < self.units
    }

    /// Makes one round: solves with the current cuts, and adds violated ones.
    fn round(&mut self, alloc: Global, site: &Site, budget: &mut Budget) -> Result<(), Memory> {
        let mut proposer = self.tableau(alloc, site)?;
        let network = site.cycles.network();
        let work = proposer.solve(site.boxes, site.aim.cap, most_of(budget));
        budget.spend(units_of(work));
        if proposer.is_spent() {
            self.proposer = Some(proposer);
            return Ok(());
        }
        let bound = proposer.cost().min(site.aim.cap);
        let map = proposer.map(alloc, network, site.residues, false)?;
        if !self.judged(bound, network.cost(&map), site.aim) {
            self.goes_on = false;
            return self.leave_tight(alloc, &proposer);
        }
        let missed = self.missed(alloc, site, &proposer, budget)?;
        self.goes_on = !missed.is_empty();
        if self.rounds % ROUNDS_OF_TABLEAU == 0 {
            self.leave_tight(alloc, &proposer)?;
        } else {
            push_cuts(alloc, site, &missed, &mut proposer)?;
            self.proposer = Some(proposer);
        }
        self.add(missed)
    }

    /// Makes rounds as long as the budget lasts.
    pub(crate) fn advance(
        &mut self,
        alloc: Global,
        site: &Site,
        budget: &mut Budget,
    ) -> Result<(), Memory> {
        if site.cycles.walks().len() < LEAST_WALKS {
            self.goes_on = false;
            return Ok(());
        }
        if self.candidates.is_none() {
            let network = site.cycles.network();
            self.candidates = Some(candidates_of(alloc, network, site.residues, budget)?);
        }
        for _round in 0..ROUNDS {
            if !self.goes_on || budget.is_spent() {
                break;
            }
            self.round(alloc, site, budget)?;
        }
        Ok(())
    }
}

/// Resumes the rounds for the cuts of a network with these walks, if they are open. Returns the units spent.
pub(crate) fn seek_cuts(
    alloc: Global,
    network: &Network,
    walks: &[Walk],
    aim: Aim,
    rounds: &mut Rounds,
    budget: &mut Budget,
) -> Result<u64, Memory>
    ensures { OnlySpends budget.old.left budget.new.left }
{
    if !rounds.is_open() {
        return Ok(0);
    }
    rounds.begin_turn();
    let cycles = Cycles::without_cuts(alloc, network, walks)?;
    let residues = residue_ranges(alloc, network)?;
    let Some(boxes) = root(alloc, &cycles, &residues)? else {
        rounds.goes_on = false;
        return Ok(0);
    };
    let site = Site {
        cycles: &cycles,
        residues: &residues,
        boxes: &boxes,
        aim,
    };
    let mut own = budget.part(rounds.units.min(rounds.turn));
    let given = own.left;
    rounds.advance(alloc, &site, &mut own)?;
    let units = spent_of(given, own.left);
    rounds.spend(units);
    budget.spend(units);
    Ok(units)
}

/// The flips of useful cuts, found in one piece.
pub(crate) fn flips_of(
    alloc: Global,
    network: &Network,
    walks: &[Walk],
    aim: Aim,
    budget: &mut Budget,
) -> Result<Vec<Flip>, Memory>
    ensures { OnlySpends budget.old.left budget.new.left }
{
    let mut rounds = Rounds::new(alloc);
    rounds.turn = UNITS;
    seek_cuts(alloc, network, walks, aim, &mut rounds, budget)?;
    if !rounds.are_of_use(aim) {
        return Ok(Vec::new(alloc));
    }
    Ok(rounds.into_flips())
}
