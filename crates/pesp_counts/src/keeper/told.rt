//! What the last accepted edit did.

ghost use Rattle.std.specs.Prelude.{◌≡◌, ◌≤◌, Some, length, map, All, vec_capacity};
ghost use Rattle.pesp_counts.specs.Restores.{IsEventPlace, numbered_pair};

use super::CountKeeper;
use crate::work::Work;
use pesp_base::EventId;
use pesp_counts_arcs::Links;
use pesp_counts_supports::Placed;
use pesp_domains::Pair;

/// A pair by the number of its event.
fn pair_of(links: &Links, placed: Placed) -> Option<Pair>
    requires { IsEventPlace links.now placed.place }
    ensures { result ≡ Some (numbered_pair links.now placed) }
{
    let event = EventId::new(links.event_at(placed.place as usize)?)?;
    Some(Pair {
        event,
        residue: placed.residue,
    })
}

/// Lists pairs by the numbers of their events, and drops the earlier list. There is room for them.
pub fn number_pairs(links: &Links, back: &[Placed], restored: &mut Vec<Pair>)
    requires places { All (λ x. IsEventPlace links.now x.place) back.now }
    requires room { length back.now ≤ vec_capacity restored.old }
    ensures pairs { restored.new.items ≡ map (numbered_pair links.now) back.now }
    ensures capacity { vec_capacity restored.new ≡ vec_capacity restored.old }
{
    restored.clear();
    for placed in back {
        if let Some(pair) = pair_of(links, *placed) {
            restored.push_reserved(pair);
        }
    }
}

impl CountKeeper {
    /// The pairs that the last accepted edit restored, each once: those that it reaches. Those
    /// without a partner were removed again.
    pub fn restored(&self) -> &[Pair]
        ensures { result.now ≡ (self.now).restored }
    {
        &self.counted.restored
    }

    /// The work of the last accepted edit.
    pub fn last_work(&self) -> Work
        ensures { result ≡ (self.now).work }
    {
        self.work
    }
}
