//! Descents: from a map to a local optimum of all moves.

use crate::chance::Chance;
use crate::charge::Charge;
use crate::crossings::Crossings;
use crate::current::Current;
use crate::cuts::Cuts;
use crate::neighbourhood::Neighbourhood;
use crate::spanning::Spanning;
use crate::tree::Tree;
use crate::turns::Turns;
use pesp_base::{Memory, Period};
use std::alloc::Global;

/// The work of a link in a pass, as a number of visited numbers. It only affects how fast a budget is spent; no
/// trial of this number is recorded.
const LINK_WORK: u64 = 96;

/// The number of turns of a node that count as one number of work. It only affects how fast a budget is spent.
const TURNS_A_NUMBER: u64 = 2;

/// The work space of descents.
#[derive(Drop)]
pub(crate) struct Descent {
    // Chooses the arcs of the tree.
    spanning: Spanning,
    // The tree of the last neighbourhood.
    tree: Tree,
    // The cuts of that tree, visited from the leaves up.
    cuts: Cuts,
    // The charges of the turns of one node; empty between two nodes.
    turns: Turns,
    // The arcs at one node, used instead of `turns` if they are few.
    crossings: Crossings,
}

impl Descent {
    pub(crate) fn new(alloc: Global, period: Period) -> Result<Descent, Memory> {
        Ok(Descent {
            spanning: Spanning::new(alloc)?,
            tree: Tree::new(alloc),
            cuts: Cuts::new(alloc),
            turns: Turns::new(alloc, period)?,
            crossings: Crossings::new(alloc, period.get()),
        })
    }

    /// The best of all turns of a node.
    fn best_of_all(&mut self, current: &Current, node: usize) -> (u16, Charge) {
        self.turns.clear();
        for link in current.links.links_at(node) {
            self.turns.add(link, current.rise(node, link), 1);
        }
        self.turns.best()
    }

    /// The best of the turns of a node that bring an arc to an end of its span.
    fn best_of_few(&mut self, current: &Current, node: usize) -> Result<(u16, Charge), Memory> {
        self.crossings.clear();
        for link in current.links.links_at(node) {
            self.crossings.add(link, current.rise(node, link))?;
        }
        Ok(self.crossings.best())
    }

    /// Turns a single node by its best turn.
    fn turn_node(&mut self, current: &mut Current, node: usize) -> Result<Charge, Memory> {
        let count = current.links.links_at(node).len();
        let is_few = count.saturating_mul(count).saturating_mul(8)
            < usize::from(current.period.get());
        let (turn, charge) = if is_few {
            self.best_of_few(current, node)?
        } else {
            self.best_of_all(current, node)
        };
        if turn != 0 {
            current.turn(&[node], turn);
        }
        Ok(charge)
    }

    /// Turns the fundamental cuts of a tree, and if none improves the map then each single node. Returns the
    /// change of the charge, which is never above 0.
    pub(crate) fn pass(
        &mut self,
        alloc: Global,
        current: &mut Current,
        hood: &Neighbourhood,
        chance: &mut Chance,
    ) -> Result<Charge, Memory> {
        self.spanning.choose(current, hood, chance)?;
        self.tree.walk(&self.spanning, hood)?;
        let mut gain = self.cuts.pass(alloc, current, hood, &self.tree)?;
        if gain != Charge::NONE {
            return Ok(gain);
        }
        for node in hood.members() {
            gain.add(self.turn_node(current, *node)?);
        }
        Ok(gain)
    }

    /// The work of a pass.
    pub(crate) fn work(&self, current: &Current, hood: &Neighbourhood) -> u64 {
        let links = (self.spanning.count() as u64).saturating_mul(LINK_WORK);
        let turns = u64::from(current.period.get()) / TURNS_A_NUMBER;
        links.saturating_add(turns.saturating_mul(hood.members().len() as u64))
    }

    /// Repeats passes until one changes nothing, and returns the change of the charge.
    pub(crate) fn go_down(
        &mut self,
        alloc: Global,
        current: &mut Current,
        hood: &Neighbourhood,
        chance: &mut Chance,
        work: &mut u64,
    ) -> Result<Charge, Memory> {
        let mut gain = Charge::NONE;
        for _pass in 0..u64::MAX {
            let passed = self.pass(alloc, current, hood, chance)?;
            *work = (*work).saturating_add(self.work(current, hood));
            if passed == Charge::NONE {
                break;
            }
            gain.add(passed);
        }
        Ok(gain)
    }
}
