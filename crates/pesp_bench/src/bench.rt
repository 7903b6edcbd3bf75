//! The workbench.

mod asks;
mod edits;
mod searches;

ghost use Rattle.std.specs.Prelude.{◌≡◌, ℕ, [], None, IsTrue, IsSome, IfSome, option_copied};
ghost use Rattle.pesp_instance.specs.Network.{has_event};
ghost use Rattle.pesp_tension.specs.Timetables.{no_times, time_of};
ghost use Rattle.pesp_search.specs.Optima.{IsAnswer};

use crate::costing::KeptCost;
use pesp_domains::Keeper;
use pesp_instance::Instance;
use pesp_search::{Answer, Searches};
use pesp_tension::Timetable;
use std::alloc::Global;
use std::marker::Model;

/// A keeper with nothing pushed, a working timetable of some of its events, and the optimum if it
/// is known.
#[derive(Drop)]
pub struct Bench<K: Keeper> {
    // Nothing is pushed on it. Its instance is the workbench's.
    keeper: K,
    // Has the instance's period, and times of the instance's events only.
    times: Timetable,
    // The cost of the times and the number of events without one, exact after each call.
    kept: KeptCost,
    // The optimum of the keeper's instance; None if it is not known.
    known: Option<Answer>,
    // The timetable of a forgotten optimum or of a stopped search. It may violate something: each
    // use checks it (docs/DECISIONS.md, "Workbench").
    candidate: Option<Timetable>,
    // Stopped searches for the optimum, possibly of other instances: networks are compared before
    // one is resumed (docs/DECISIONS.md, "A search by cycles").
    searches: Searches,
    // The same for `price`. They are kept apart, so that a price does not replace a stopped search
    // for the optimum (docs/DECISIONS.md, "The rims").
    prices: Searches,
    // The nodes of the last search for the optimum.
    nodes: u64,
}

impl<K: Keeper> Model for Bench<K> {
    ghost use Rattle.pesp_bench.specs.Costing.{IsCosted};
    ghost use Rattle.pesp_bench.specs.State.{State, IsState};

    ghost Value = { State };

    ghost view = { λ b. record {
      instance = K.network b.keeper;
      times = b.times;
      known = b.known;
      nodes = b.nodes;
      push_count = K.push_count b.keeper;
    } };

    ghost invariant = { λ b. IsState (K.network b.keeper) (K.pushes b.keeper) b.times b.known
        × IsCosted (K.network b.keeper) b.times b.kept.cost b.kept.missing };
}

impl<K: Keeper> Bench<K> {
    /// The workbench of the keeper's instance, without times. No optimum is known.
    pub fn new(alloc: Global, keeper: K) -> Bench<K>
        requires { K.pushes keeper ≡ [] }
        ensures { result ≡ record {
          instance = K.network keeper;
          times = no_times (K.network keeper).period;
          known = None;
          nodes = 0;
          push_count = K.push_count keeper;
        } }
    {
        let times = Timetable::new(alloc, keeper.instance().period());
        let kept = KeptCost::new(keeper.instance(), &times);
        Bench {
            keeper,
            times,
            kept,
            known: None,
            candidate: None,
            searches: Searches::new(alloc),
            prices: Searches::new(alloc),
            nodes: 0,
        }
    }

    /// The instance.
    pub fn instance(&self) -> &Instance
        ensures { result.now ≡ self.now.instance }
    {
        self.keeper.instance()
    }

    /// The working timetable. It has the instance's period, and times of the instance's events
    /// only.
    pub fn timetable(&self) -> &Timetable
        ensures value { result.now ≡ self.now.times }
        ensures period { self.now.times.period ≡ self.now.instance.period }
        ensures events { (e : ℕ) → IsSome (time_of self.now.times e)
            → IsTrue (has_event self.now.instance e) }
    {
        &self.times
    }

    /// The keeper of the domains, with nothing pushed.
    pub fn keeper(&self) -> &K
        ensures network { K.network result.now ≡ self.now.instance }
        ensures pushes { K.pushes result.now ≡ [] }
        ensures count { K.push_count result.now ≡ self.now.push_count }
    {
        &self.keeper
    }

    /// The optimum, if it is known (docs/RULES.md, "Optimum").
    pub fn known(&self) -> Option<&Answer>
        ensures value { option_copied result ≡ self.now.known }
        ensures optimum { IfSome result (λ answer. IsAnswer self.now.instance answer.now) }
    {
        self.known.as_ref()
    }

    /// The nodes of the last search for the optimum: 0 if the optimum was known already, if memory
    /// ran out, and before the first search. `price` does not change it.
    pub fn last_nodes(&self) -> u64
        ensures { result ≡ self.now.nodes }
    {
        self.nodes
    }
}
