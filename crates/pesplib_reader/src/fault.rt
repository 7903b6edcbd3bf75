//! Faults of files.

use thiserror::Error;

/// Why a record is refused; its fields count from 1.
#[derive(Clone, Copy, Debug, PartialEq, Eq, Error)]
pub enum FaultKind {
    #[error("wrong number of fields")]
    FieldCount,
    #[error("field {0} is not a number")]
    BadNumber(u8),
    #[error("field {0} is out of range")]
    OutOfRange(u8),
    #[error("weight has a fraction")]
    FractionalWeight,
    #[error("lower bound above upper bound")]
    Crossed,
    #[error("activity number is repeated")]
    DuplicateActivity,
    #[error("event is repeated")]
    DuplicateEvent,
    #[error("event is not in the instance")]
    NoEvent,
    #[error("too many events")]
    TooManyEvents,
    #[error("too many activities")]
    TooManyActivities,
    #[error("out of memory")]
    Memory,
}

/// The first faulty record.
#[derive(Clone, Copy, Debug, PartialEq, Eq)]
pub struct ReadFault {
    /// The number of the record, from 1.
    pub place: u64,
    pub kind: FaultKind,
}
