//! Reports of calls.

ghost use Rattle.std.specs.Prelude.{◌≡◌};
ghost use Rattle.pesp_embedded.specs.Numbers.{field_of, field_of_kind, no_period, place_of, reason_of, reason_of_kind, status_of, status_of_file};

use pesp_shell::{FaultKind, RunFault, Source};

/// The report of a call, in the numbers of `embedded/pespbench.h`.
#[repr(C)]
#[derive(Clone, Copy, Debug, PartialEq, Eq)]
pub struct Told {
    /// The number of bytes of the replies, or of the events, times or bytes asked for, even if the
    /// room holds fewer.
    pub length: u64,
    /// The record of a file's fault, the line at which the run ended, or the event that a refusal
    /// names; else 0.
    pub place: u64,
    /// How the call ended; 0 if it was done.
    pub status: u32,
    /// Why a record of a file is faulty, or the number of a refusal; else 0.
    pub reason: u32,
    /// The field of the record that is not a number or out of range, from 1; else 0.
    pub field: u32,
}

impl Told {
    /// The report of an invalid period.
    pub(crate) fn no_period() -> Told
        ensures { result ≡ no_period }
    {
        Told::ended(0, 9, 0)
    }

    /// The report of a call with this length, status and place. The status is neither a fault of a
    /// file nor a refusal.
    pub(crate) fn ended(length: u64, status: u32, place: u64) -> Told
        ensures { result ≡ record {
          length = length;
          place = place;
          status = status;
          reason = 0;
          field = 0;
        } }
    {
        Told {
            length,
            place,
            status,
            reason: 0,
            field: 0,
        }
    }

    /// The report of a run with replies of this length.
    pub(crate) fn of(length: u64, ended: Result<(), RunFault>) -> Told
        ensures length { result.length ≡ length }
        ensures place { result.place ≡ place_of ended }
        ensures status { result.status ≡ status_of ended }
        ensures reason { result.reason ≡ reason_of ended }
        ensures field { result.field ≡ field_of ended }
    {
        match ended {
            Ok(()) => Told::ended(length, 0, 0),
            Err(RunFault::File { source, fault }) => Told {
                length,
                place: fault.place,
                status: file_number(source),
                reason: reason_number(fault.kind),
                field: field_number(fault.kind),
            },
            Err(RunFault::Read) => Told::ended(length, 4, 0),
            Err(RunFault::Write) => Told::ended(length, 5, 0),
            Err(RunFault::Memory { line }) => Told::ended(length, 6, line),
            Err(RunFault::LineTooLong { line }) => Told::ended(length, 7, line),
            Err(RunFault::TooManyLines) => Told::ended(length, 8, 0),
        }
    }
}

/// The status for a fault of this file.
fn file_number(source: Source) -> u32
    ensures { result ≡ status_of_file source }
{
    match source {
        Source::Activities => 1,
        Source::Fixed => 2,
        Source::Times => 3,
    }
}

/// The reason for a fault of this kind.
fn reason_number(kind: FaultKind) -> u32
    ensures { result ≡ reason_of_kind kind }
{
    match kind {
        FaultKind::FieldCount => 1,
        FaultKind::BadNumber(_) => 2,
        FaultKind::OutOfRange(_) => 3,
        FaultKind::FractionalWeight => 4,
        FaultKind::Crossed => 5,
        FaultKind::DuplicateActivity => 6,
        FaultKind::DuplicateEvent => 7,
        FaultKind::NoEvent => 8,
        FaultKind::TooManyEvents => 9,
        FaultKind::TooManyActivities => 10,
        FaultKind::Memory => 11,
    }
}

/// The field that a fault names, from 1; 0 if it names none.
fn field_number(kind: FaultKind) -> u32
    ensures { result ≡ field_of_kind kind }
{
    match kind {
        FaultKind::BadNumber(field) | FaultKind::OutOfRange(field) => u32::from(field),
        _ => 0,
    }
}
