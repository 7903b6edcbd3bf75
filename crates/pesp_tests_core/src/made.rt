//! Numbers, spans and activities for the examples, and pushes.

ghost use Rattle.std.specs.Prelude.{◌≡◌, ℕ, ◌++◌, ◌∷◌, []};
ghost use Rattle.pesp_domains.specs.Domains.{In};

use pesp_base::{Activity, ActivityId, EventId, Span, Weight};
use pesp_domains::Keeper;
use std::process::Abort;

pub(crate) fn event(rt: &impl Abort, number: u32) -> EventId
    ensures { result ≡ number }
{
    EventId::new(number).expect(rt, "the number of an event")
}

pub(crate) fn id(rt: &impl Abort, number: u32) -> ActivityId {
    ActivityId::new(number).expect(rt, "the number of an activity")
}

pub(crate) fn span(rt: &impl Abort, lower: i32, upper: i32) -> Span {
    Span::new(lower, upper).expect(rt, "a span")
}

pub(crate) fn weight(rt: &impl Abort, weight: u32) -> Weight {
    Weight::new(weight).expect(rt, "a weight")
}

/// An activity with this number, from the first of these events to the second.
pub(crate) fn activity(
    rt: &impl Abort,
    number: u32,
    ends: (u32, u32),
    bounds: (i32, i32),
    weighs: u32,
) -> Activity {
    Activity {
        id: id(rt, number),
        from: event(rt, ends.0),
        to: event(rt, ends.1),
        span: span(rt, bounds.0, bounds.1),
        weight: weight(rt, weighs),
    }
}

/// Pushes a pair of an event of the instance.
pub(crate) fn push<K: Keeper>(rt: &impl Abort, keeper: &mut K, event: EventId, residue: u16)
    requires { (r : ℕ) → In (K.pushes keeper.old) event r → ⊥ }
    ensures { K.pushes keeper.new
        ≡ K.pushes keeper.old ++ record { event = event; residue = residue } ∷ [] }
{
    assert!(rt; keeper.instance().has_event(event));
    assert!(rt; residue < keeper.instance().period().get());
    keeper.push_fix(event, residue);
}
