//! Numbers of events.

ghost use Rattle.std.specs.Prelude.{◌≡◌, false, IfSome, IfNone};
ghost use Rattle.pesp_base.specs.declared.refusal.Refusal.TheVariants as no;
ghost use Rattle.pesp_instance.specs.Network.{has_event};
ghost use Rattle.pesp_embedded.specs.Faults.{told_fault};
ghost use Rattle.pesp_embedded.specs.declared.fault.Fault.TheVariants as fault;

use crate::Told;
use pesp_base::EventId;
use pesp_instance::Instance;

/// The event with this number; none if the number exceeds the limit, so that no instance has it.
pub(crate) fn event_of(instance: &Instance, number: u32) -> Option<EventId>
    ensures event { IfSome result (λ event. event ≡ number) }
    ensures none { IfNone result (has_event instance.now number ≡ false) }
{
    // Reading the instance makes its invariant known: numbers of events are within the limit.
    let _period = instance.period();
    EventId::new(number)
}

/// The report of a number that is not an event. It may exceed the limit, so the report is not made
/// from a `Refusal`.
pub(crate) fn no_event(number: u32) -> Told
    ensures { result ≡ told_fault (fault.Refused (no.NoEvent number)) }
{
    Told {
        length: 0,
        place: u64::from(number),
        status: 13,
        reason: 2,
        field: 0,
    }
}
