//! The search through the tree: depth first, with backtracking, and pruned by the incumbent's cost. It does not
//! look ahead: bounds in the tree gave almost nothing (docs/DECISIONS.md, "Search").

ghost use Rattle.std.specs.Prelude.{◌≡◌, ◌≢◌, ◌+◌, ◌-◌, ◌^◌, ◌<◌, min, [], true, false, Some, IfOk, IfSome, length, vec_capacity};
ghost use Rattle.pesp_instance.specs.Network.{IsNetwork, event_ids};
ghost use Rattle.pesp_search.specs.Branch.{IsBranch};
ghost use Rattle.pesp_search.specs.Found.{IsNextOfUse, limit_of};
ghost use Rattle.pesp_search.specs.Nodes.{IsNext, Nothing};
ghost use Rattle.pesp_search.specs.Optima.{IsBound};
ghost use Rattle.pesp_search.specs.Searching.{GoesOn, IsOver, IsSameNode, IsSearching, IsStepAt, IsStepDown, IsStepUp, MayEnd};
ghost use Rattle.pesp_search.specs.Tree.{AreNodes, WerePushed};
ghost use Rattle.pesp_search.specs.Tried.{IsOutcome};
ghost use Rattle.pesp_search.specs.declared.steps.Step.TheVariants as steps;

use crate::branch::Branch;
use crate::incumbent::Incumbent;
use crate::outcome::{Outcome, best_of};
use crate::parts::least_of_parts;
use crate::steps::{Step, is_zero_enough, left_to_do};
use pesp_base::{EventId, Memory};
use pesp_domains::Keeper;
use std::alloc::Global;

/// A search through the tree, in the order of events and residues, without subtrees that are not useful.
///
/// It allocates nothing: branch and incumbent have all the room that they will need.
#[derive(Drop)]
pub(crate) struct TreeSearch<'a> {
    // The events of the instance, ascending: the order in which their times are set.
    pub(crate) events: &'a [EventId],
    // For each event whether only residue 0 is tried there.
    pub(crate) least: Vec<bool>,
    // The path to the current node: exactly its times are pushed.
    pub(crate) branch: Branch,
    // The best of all times found before the node.
    pub(crate) incumbent: Incumbent,
    // The least residue not yet tried at the event after the branch.
    pub(crate) from: u16,
    // The number of pushes, including those popped since.
    pub(crate) nodes: u64,
    // The most nodes; None without a limit.
    pub(crate) limit: Option<u64>,
}

/// Whether the number of nodes has reached the limit. It is tested before a push, so a stop means that the tree
/// is larger (docs/DECISIONS.md, "Search").
fn is_reached(limit: Option<u64>, nodes: u64) -> bool
    ensures yes { result ≡ true → limit ≡ Some nodes }
    ensures no { result ≡ false → IfSome limit (λ l. l ≢ nodes) }
{
    match limit {
        Some(limit) => limit == nodes,
        None => false,
    }
}

/// Pops all pushed pairs.
fn unwind<K: Keeper>(keeper: &mut K, depth: usize)
    requires { length (K.pushes keeper.old) ≡ depth }
    ensures network { K.network keeper.new ≡ K.network keeper.old }
    ensures pushes { K.pushes keeper.new ≡ [] }
    ensures count { K.push_count keeper.new ≡ K.push_count keeper.old }
{
    for _pair in 0..depth {
        keeper.pop_fix();
    }
}

impl<'a> TreeSearch<'a> {
    /// A search before its first node. Everything is allocated here.
    pub(crate) fn new<K: Keeper>(
        alloc: Global,
        keeper: &K,
        events: &'a [EventId],
        bound: Option<u64>,
        limit: Option<u64>,
    ) -> Result<TreeSearch<'a>, Memory>
        requires network { IsNetwork (K.network keeper.now) }
        requires events { events.now ≡ event_ids (K.network keeper.now) }
        requires pushes { K.pushes keeper.now ≡ [] }
        ensures searching { IfOk result (IsSearching (K.network keeper.now) []) }
        ensures bound { IfOk result (λ search. search.incumbent.bound ≡ bound) }
        ensures limit { IfOk result (λ search. search.limit ≡ limit) }
        ensures nodes { IfOk result (λ search. search.nodes ≡ 0) }
    {
        let instance = keeper.instance();
        let least = least_of_parts(alloc, instance, events)?;
        let branch = Branch::new(alloc, instance)?;
        let incumbent = Incumbent::new(alloc, events.len(), bound)?;
        Ok(TreeSearch {
            events,
            least,
            branch,
            incumbent,
            from: 0,
            nodes: 0,
            limit,
        })
    }
}

impl TreeSearch<'_> {
    /// The first useful residue of the next event's domain from `first` on: one whose known cost the incumbent
    /// does not cut. It is tested before the push, which costs more.
    fn next_of_use<K: Keeper>(&mut self, keeper: &K, first: u16) -> Option<u16>
        requires searching { IsSearching (K.network keeper.now) (K.pushes keeper.now) self.old }
        requires room { length self.old.branch.times.items < length self.old.events.now }
        ensures same { IsSameNode self.old self.new }
        ensures branch { IsBranch (K.network keeper.now) self.new.branch.times.items
            self.new.branch.cost self.new.branch.timetable (vec_capacity self.new.branch.times) }
        ensures next { IsNextOfUse (K.network keeper.now) (limit_of self.old.incumbent)
            self.old.branch.times.items first result }
    {
        let event = self.events[self.branch.times.len()];
        let row = keeper.row(event)?;
        for residue in first..keeper.instance().period().get() {
            if row.holds(residue) {
                let cost = self.branch.cost_with(keeper.instance(), event, residue);
                if !self.incumbent.cuts(cost) {
                    return Some(residue);
                }
            }
        }
        None
    }

    /// Descends to the first useful residue from `first` on that the domains allow, or backtracks if there is
    /// none.
    fn step_from<K: Keeper>(&mut self, keeper: &K, first: u16) -> Step
        requires searching { IsSearching (K.network keeper.now) (K.pushes keeper.now) self.old }
        requires first { IsNext Nothing (K.network keeper.now) self.old.branch.times.items
            self.old.from first }
        ensures searching { GoesOn (K.network keeper.now) (K.pushes keeper.now) self.old self.new }
        ensures same { IsSameNode self.old self.new }
        ensures step { IsStepAt (K.network keeper.now) self.new result }
    {
        if is_zero_enough(&self.least, self.branch.times.len(), self.from) {
            return Step::Backtrack;
        }
        match self.next_of_use(keeper, first) {
            Some(residue) => Step::Descend(residue),
            None => Step::Backtrack,
        }
    }

    /// The step at the node.
    fn step<K: Keeper>(&mut self, keeper: &K) -> Step
        requires searching { IsSearching (K.network keeper.now) (K.pushes keeper.now) self.old }
        ensures searching { GoesOn (K.network keeper.now) (K.pushes keeper.now) self.old self.new }
        ensures same { IsSameNode self.old self.new }
        ensures step { IsStepAt (K.network keeper.now) self.new result }
    {
        if self.incumbent.cuts(self.branch.cost) {
            return Step::Backtrack;
        }
        match left_to_do(keeper, self.events, &self.branch.times, self.from) {
            Step::Leaf => Step::Leaf,
            Step::Descend(first) => self.step_from(keeper, first),
            Step::Backtrack => Step::Backtrack,
        }
    }

    /// Descends to the residue: the only push of a search. It counts a node; the count saturates.
    fn descend<K: Keeper>(&mut self, keeper: &mut K, residue: u16)
        requires searching { IsSearching (K.network keeper.old) (K.pushes keeper.old) self.old }
        requires step { IsStepAt (K.network keeper.old) self.old (steps.Descend residue) }
        requires limit { IfSome self.old.limit (λ l. l ≢ self.old.nodes) }
        ensures network { K.network keeper.new ≡ K.network keeper.old }
        ensures searching { GoesOn (K.network keeper.old) (K.pushes keeper.new) self.old self.new }
        ensures counted { self.new.nodes ≡ min (2 ^ 64 - 1) (self.old.nodes + 1) }
        ensures count { K.push_count keeper.new ≡ min (2 ^ 64 - 1) (K.push_count keeper.old + 1) }
        ensures below { IsStepDown self.old self.new residue }
    {
        let event = self.events[self.branch.times.len()];
        keeper.push_fix(event, residue);
        self.nodes = self.nodes.saturating_add(1);
        self.branch.push(keeper.instance(), event, residue);
        self.from = 0;
    }

    /// Backtracks to the event before, if there is one: the only pop.
    fn backtrack<K: Keeper>(&mut self, keeper: &mut K) -> bool
        requires searching { IsSearching (K.network keeper.old) (K.pushes keeper.old) self.old }
        requires over { IsOver (K.network keeper.old) self.old }
        ensures network { K.network keeper.new ≡ K.network keeper.old }
        ensures searching { GoesOn (K.network keeper.old) (K.pushes keeper.new) self.old self.new }
        ensures above { result ≡ true → IsStepUp self.old self.new }
        ensures end { result ≡ false → MayEnd (K.network keeper.old) self.new false }
        ensures nodes { self.new.nodes ≡ self.old.nodes }
        ensures count { K.push_count keeper.new ≡ K.push_count keeper.old }
    {
        match self.branch.pop(keeper.instance(), self.events) {
            Some(residue) => {
                keeper.pop_fix();
                self.from = residue + 1;
                true
            }
            None => false,
        }
    }

    /// Keeps the times of a leaf, which are better, and backtracks.
    fn keep_leaf<K: Keeper>(&mut self, keeper: &mut K) -> bool
        requires searching { IsSearching (K.network keeper.old) (K.pushes keeper.old) self.old }
        requires leaf { IsStepAt (K.network keeper.old) self.old steps.Leaf }
        ensures network { K.network keeper.new ≡ K.network keeper.old }
        ensures searching { GoesOn (K.network keeper.old) (K.pushes keeper.new) self.old self.new }
        ensures above { result ≡ true → IsStepUp self.old self.new }
        ensures end { result ≡ false → MayEnd (K.network keeper.old) self.new false }
        ensures nodes { self.new.nodes ≡ self.old.nodes }
        ensures count { K.push_count keeper.new ≡ K.push_count keeper.old }
    {
        self.incumbent.keep(&self.branch.times, self.branch.cost);
        self.backtrack(keeper)
    }

    /// Pops all pushed pairs, and returns the result.
    fn finish<K: Keeper>(self, keeper: &mut K, is_stopped: bool) -> Outcome
        requires searching { IsSearching (K.network keeper.old) (K.pushes keeper.old) self }
        requires end { MayEnd (K.network keeper.old) self is_stopped }
        ensures outcome { IsBound (K.network keeper.old) self.entry.incumbent.bound
            → IsOutcome (K.network keeper.old) self.entry.incumbent.bound self.entry.limit
            result.is_stopped result.best result.nodes }
        ensures nodes { AreNodes (K.network keeper.old) result.nodes }
        ensures told { result.nodes ≡ self.entry.nodes }
        ensures network { K.network keeper.new ≡ K.network keeper.old }
        ensures pushes { K.pushes keeper.new ≡ [] }
        ensures count { K.push_count keeper.new ≡ K.push_count keeper.old }
    {
        let TreeSearch {
            events,
            branch,
            incumbent,
            nodes,
            ..
        } = self;
        unwind(keeper, branch.times.len());
        let best = best_of(&incumbent, branch.timetable, keeper.instance(), events);
        Outcome {
            best,
            is_stopped,
            nodes,
        }
    }

    /// Searches the tree from the current node on.
    pub(crate) fn run<K: Keeper>(mut self, keeper: &mut K) -> Outcome
        requires searching { IsSearching (K.network keeper.old) (K.pushes keeper.old) self }
        requires start { self.nodes ≡ 0 }
        ensures outcome { IsBound (K.network keeper.old) self.entry.incumbent.bound
            → IsOutcome (K.network keeper.old) self.entry.incumbent.bound self.entry.limit
            result.is_stopped result.best result.nodes }
        ensures nodes { AreNodes (K.network keeper.old) result.nodes }
        ensures network { K.network keeper.new ≡ K.network keeper.old }
        ensures pushes { K.pushes keeper.new ≡ [] }
        ensures counted { WerePushed (K.push_count keeper.old) result.nodes
            (K.push_count keeper.new) }
    {
        'nodes: loop {
            match self.step(keeper) {
                Step::Leaf => {
                    if !self.keep_leaf(keeper) {
                        return self.finish(keeper, false);
                    }
                }
                Step::Descend(residue) => {
                    if is_reached(self.limit, self.nodes) {
                        return self.finish(keeper, true);
                    }
                    self.descend(keeper, residue);
                }
                Step::Backtrack => {
                    if !self.backtrack(keeper) {
                        return self.finish(keeper, false);
                    }
                }
            }
        }
    }
}
