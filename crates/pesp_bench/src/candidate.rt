//! The candidate: the timetable of a forgotten optimum or of a stopped search. While it meets
//! everything, its cost bounds the next search.

ghost use Rattle.std.specs.Prelude.{◌≡◌, ℕ, IfNone, IfSome, None};
ghost use Rattle.pesp_instance.specs.Network.{Network};
ghost use Rattle.pesp_search.specs.Optima.{IsMember};
ghost use Rattle.pesp_search.specs.Tried.{MayStop};
ghost use Rattle.pesp_bench.specs.Candidate.{IsCandidate};

use pesp_instance::Instance;
use pesp_search::{Best, member_cost};
use pesp_tension::Timetable;

/// The cost of the candidate, if there is one and it meets everything.
pub(crate) fn candidate_cost(instance: &Instance, candidate: &Option<Timetable>) -> Option<u64>
    ensures cost { IsCandidate instance.now result candidate.now }
    ensures none { IfNone result (IfSome candidate.now (λ m. IsMember instance.now m → ⊥)) }
{
    match candidate {
        Some(times) => member_cost(instance, times),
        None => None,
    }
}

/// The timetable that a search bounded by the candidate's cost stopped with; if it found none, the
/// candidate, which is moved out.
pub(crate) fn or_candidate(
    best: Option<Best>,
    bound: Option<u64>,
    candidate: &mut Option<Timetable>,
) -> Option<Best>
    ensures { (I : Network) (limit : ℕ) → IsCandidate I bound candidate.old
        → MayStop I bound limit best → MayStop I None limit result }
{
    if best.is_some() {
        return best;
    }
    let cost = bound?;
    let times = candidate.take()?;
    Some(Best { cost, times })
}
