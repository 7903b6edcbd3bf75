//! The incumbent: the best candidate found so far.

ghost use Rattle.std.specs.Prelude.{◌≡◌, ◌≤◌, ◌<◌, Some};
ghost use Rattle.pesp_search_least.specs.Expansions.{IsKept, limit_of, outcome_of};

use crate::{Candidate, Outcome};

/// The best candidate found below a cap.
#[derive(Drop)]
pub(crate) struct Incumbent {
    // `best` costs less than this.
    pub(crate) cap: u64,
    // A map of the root, with its sum.
    pub(crate) best: Option<Candidate>,
}

impl Incumbent {
    /// An incumbent with what was known before the search.
    pub(crate) fn new(cap: u64, best: Option<Candidate>) -> Incumbent
        ensures cap { result.cap ≡ cap }
        ensures best { result.best ≡ best }
    {
        Incumbent { cap, best }
    }

    /// The cost of the best candidate, or the cap if there is none. Only sums below it are useful.
    pub(crate) fn limit(&self) -> u64
        ensures { result ≡ limit_of self.now.cap self.now.best }
    {
        match &self.best {
            Some(best) => best.cost,
            None => self.cap,
        }
    }

    /// Keeps a candidate that costs less than the limit.
    pub(crate) fn keep(&mut self, candidate: Candidate)
        ensures cap { self.new.cap ≡ self.old.cap }
        ensures kept { IsKept self.old.cap candidate self.old.best self.new.best }
    {
        if candidate.cost < self.limit() {
            self.best = Some(candidate);
        }
    }

    /// The outcome once every sum below the limit has been searched.
    pub(crate) fn outcome(self) -> Outcome
        ensures { result ≡ outcome_of self.best }
    {
        match self.best {
            Some(best) => Outcome::Found(best),
            None => Outcome::NoneBelow,
        }
    }
}
