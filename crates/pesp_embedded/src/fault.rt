//! Faults of calls on sessions.

ghost use Rattle.std.specs.Prelude.{◌≡◌, ◌≢◌};
ghost use Rattle.pesp_base.specs.declared.refusal.Refusal.TheVariants as no;
ghost use Rattle.pesp_embedded.specs.Faults.{event_of, told_fault};
ghost use Rattle.pesp_embedded.specs.declared.fault.Fault.TheVariants as fault;

use crate::Told;
use pesp_base::Refusal;

/// Why a call on a session does nothing. Each has a status in `embedded/pespbench.h`.
#[derive(Clone, Copy, Debug, PartialEq, Eq)]
pub enum Fault {
    /// Memory ran out.
    Memory,
    /// The line has more than 4,096 bytes.
    LongLine,
    /// The session is closed.
    Closed,
    /// The session is open already.
    Open,
    /// There is a line feed in the line.
    NotOneLine,
    /// The query is refused.
    Refused(Refusal),
}

/// The event that a refusal of a query names; 0 if it names none.
fn event_named(refusal: Refusal) -> u64
    ensures { result ≡ event_of refusal }
{
    match refusal {
        Refusal::NoEvent(event) | Refusal::MissingTime(event) => u64::from(event.get()),
        _ => 0,
    }
}

/// The report of a refusal.
fn refused(refusal: &Refusal) -> Told
    ensures { result ≡ told_fault (fault.Refused refusal.now) }
{
    Told {
        length: 0,
        place: event_named(*refusal),
        status: 13,
        reason: u32::from((*refusal).number()),
        field: 0,
    }
}

impl Fault {
    /// The fault for a refusal: out of memory has a status of its own.
    pub(crate) fn of_refusal(refusal: Refusal) -> Fault
        ensures memory { refusal ≡ no.Memory → result ≡ fault.Memory }
        ensures refused { refusal ≢ no.Memory → result ≡ fault.Refused refusal }
    {
        match refusal {
            Refusal::Memory => Fault::Memory,
            _ => Fault::Refused(refusal),
        }
    }

    /// The report of the fault.
    pub(crate) fn told(self) -> Told
        ensures { result ≡ told_fault self }
    {
        match self {
            Fault::Memory => Told::ended(0, 6, 0),
            Fault::LongLine => Told::ended(0, 7, 0),
            Fault::Closed => Told::ended(0, 10, 0),
            Fault::Open => Told::ended(0, 11, 0),
            Fault::NotOneLine => Told::ended(0, 12, 0),
            Fault::Refused(refusal) => refused(&refusal),
        }
    }
}
