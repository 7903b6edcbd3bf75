//! Numbers of activities.

ghost use Rattle.std.specs.Prelude.{◌≡◌, ℕ, IfSome, IfNone, None};
ghost use Rattle.pesp_base.specs.declared.refusal.Refusal.TheVariants as no;
ghost use Rattle.pesp_instance.specs.Network.{activity_of};
ghost use Rattle.pesp_embedded.specs.Faults.{told_fault};
ghost use Rattle.pesp_embedded.specs.declared.fault.Fault.TheVariants as fault;

use crate::Told;
use pesp_base::ActivityId;
use pesp_instance::Instance;

/// The activity with this number; none if the number exceeds the limit, so that no instance has it.
pub(crate) fn activity_of(instance: &Instance, number: u32) -> Option<ActivityId>
    ensures activity { IfSome result (λ activity. activity ≡ number) }
    ensures none { IfNone result (activity_of instance.now number ≡ None) }
{
    // Reading the instance makes its invariant known: numbers of activities are within the limit.
    let _period = instance.period();
    ActivityId::new(number)
}

/// The report of a number that is not an activity. It may exceed the limit, so the report is not
/// made from a `Refusal`.
pub(crate) fn no_activity() -> Told
    ensures { (number : ℕ) → result ≡ told_fault (fault.Refused (no.NoActivity number)) }
{
    Told {
        length: 0,
        place: 0,
        status: 13,
        reason: 6,
        field: 0,
    }
}
