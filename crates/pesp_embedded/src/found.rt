//! Results of searches, as numbers.

ghost use Rattle.std.specs.Prelude.{◌≡◌};
ghost use Rattle.pesp_embedded.specs.Prices.{answer_in, found_known};
ghost use Rattle.pesp_embedded.specs.Searches.{found_answer, found_stop};

use pesp_search::{Answer, Best, Known};

/// The result of a search, in the numbers of `embedded/pespbench.h`.
#[repr(C)]
#[derive(Clone, Copy, Debug, PartialEq, Eq)]
pub struct Found {
    /// The cost of the timetable found: the sum of weight times slack; 0 if there is none.
    pub cost: u64,
    /// A lower bound on the cost of every timetable that meets everything; for an optimum its cost;
    /// 0 if no timetable meets everything.
    pub lower_bound: u64,
    /// At a stop 0 without a timetable and 1 with one; 2 if the optimum is known; 3 if it is known
    /// that no timetable meets everything.
    pub state: u32,
    /// 1 if the next call resumes this one; 0 if it restarts, or the search has ended.
    pub goes_on: u32,
}

impl Found {
    /// The result for a known answer.
    pub(crate) fn of_answer(answer: &Answer) -> Found
        ensures { result ≡ found_answer answer.now }
    {
        let (cost, state) = match answer {
            Answer::Optimal { cost, .. } => (*cost, 2),
            Answer::Infeasible => (0, 3),
        };
        Found {
            cost,
            lower_bound: cost,
            state,
            goes_on: 0,
        }
    }

    /// The result of a search that ended with this timetable, or with none.
    fn of_end(best: &Option<Best>) -> Found
        ensures { result ≡ found_answer (answer_in best.now) }
    {
        let (cost, state) = match best {
            Some(best) => (best.cost, 2),
            None => (0, 3),
        };
        Found {
            cost,
            lower_bound: cost,
            state,
            goes_on: 0,
        }
    }

    /// The result of a search that ended or stopped. `goes_on` says whether a stopped one can be
    /// resumed.
    pub(crate) fn of_known(known: &Known, goes_on: bool) -> Found
        ensures { result ≡ found_known known.now goes_on }
    {
        if known.is_stopped {
            Found::of_stop(&known.best, known.lower_bound, goes_on)
        } else {
            Found::of_end(&known.best)
        }
    }

    /// The result of a search that stopped. `goes_on` says whether it can be resumed.
    pub(crate) fn of_stop(best: &Option<Best>, lower_bound: u64, goes_on: bool) -> Found
        ensures { result ≡ found_stop best.now lower_bound goes_on }
    {
        let (cost, state) = match best {
            Some(best) => (best.cost, 1),
            None => (0, 0),
        };
        Found {
            cost,
            lower_bound,
            state,
            goes_on: u32::from(goes_on),
        }
    }
}
