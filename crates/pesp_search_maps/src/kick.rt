//! Kicks: random turns of clusters, to leave a local optimum.

use crate::chance::Chance;
use crate::charge::Charge;
use crate::crossings::Crossings;
use crate::current::Current;
use crate::neighbourhood::Neighbourhood;
use pesp_base::{Memory, Period};
use std::alloc::Global;

/// The most clusters that a kick turns. More lead farther from a good map, fewer leave local optima less often.
/// No trial of this number is recorded.
const MOST_CLUSTERS: usize = 3;

/// The most nodes of a cluster. Larger clusters change more of the map at once. No trial of this number is
/// recorded.
const MOST_NODES: usize = 60;

/// The work of a node or an arc of a cluster, as a number of visited numbers. It only affects how fast a budget
/// is spent.
const END_WORK: u64 = 8;

/// The number of random turns of which a kick takes the best: more tries make kicks raise the cost less and
/// vary less. No trial of this number is recorded.
const DRAWN_TURNS: usize = 4;

/// The work space of kicks.
#[derive(Drop)]
pub(crate) struct Kick {
    // The nodes that are turned together.
    cluster: Neighbourhood,
    // The arcs between the cluster and all other nodes.
    crossings: Crossings,
}

impl Kick {
    pub(crate) fn new(
        alloc: Global,
        period: Period,
        nodes: usize,
        fixed: usize,
    ) -> Result<Kick, Memory> {
        Ok(Kick {
            cluster: Neighbourhood::new(alloc, nodes, fixed)?,
            crossings: Crossings::new(alloc, period.get()),
        })
    }

    /// Turns one to three clusters of the neighbourhood. Returns the change of the charge, and adds the work.
    pub(crate) fn make(
        &mut self,
        current: &mut Current,
        hood: &Neighbourhood,
        chance: &mut Chance,
        work: &mut u64,
    ) -> Result<Charge, Memory> {
        let mut rise = Charge::NONE;
        let count = chance.number_below(MOST_CLUSTERS).saturating_add(1);
        let most = (hood.members().len() / 3).max(2).min(MOST_NODES);
        for _cluster in 0..count {
            let size = chance.number_below(most).saturating_add(1);
            let Some(first) = hood
                .members()
                .get(chance.number_below(hood.members().len()))
            else {
                return Ok(rise);
            };
            self.cluster
                .take_cluster(&current.links, hood, chance, (*first, size))?;
            self.find_crossings(current)?;
            rise.add(self.turn(current, chance));
            let ends = self
                .cluster
                .members()
                .len()
                .saturating_add(self.crossings.len());
            *work = (*work).saturating_add((ends as u64).saturating_mul(END_WORK));
        }
        Ok(rise)
    }

    fn find_crossings(&mut self, current: &Current) -> Result<(), Memory> {
        self.crossings.clear();
        for node in self.cluster.members() {
            for link in current.links.links_at(*node) {
                if self.cluster.place(link.other) == 0 {
                    self.crossings.add(link, current.rise(*node, link))?;
                }
            }
        }
        Ok(())
    }

    /// Turns the cluster by the best of a few random turns.
    fn turn(&mut self, current: &mut Current, chance: &mut Chance) -> Charge {
        let period = current.period.get();
        let mut best: Option<(Charge, u16)> = None;
        for _turn in 0..DRAWN_TURNS {
            let turn = chance.residue(period);
            let found = (self.crossings.charge(turn), turn);
            best = Some(match best {
                Some(other) if other <= found => other,
                _ => found,
            });
        }
        let Some((after, turn)) = best else {
            return Charge::NONE;
        };
        let before = self.crossings.charge(0);
        current.turn(self.cluster.members(), turn);
        after.difference(before)
    }
}
