//! The texts of replies.
//!
//! Each function appends its text.

ghost use Rattle.std.specs.Prelude.{◌≡◌, ◌++◌, [], ◌∷◌, OnOk, Some, decimal};
ghost use Rattle.pesp_shell_replies.specs.Replies.{appended, cost_text, fault_text, in_use_text, refusal_text, tension_line, tensions_text, violation_line, violations_text};

use pesp_base::{ActivityId, EventId, Refusal};
use pesp_shell_commands::ParseFault;
use pesp_tension::{ActivityTension, Violation};
use pesplib_writer::{put, put_between, put_number, put_signed};
use std::alloc::AllocError;

fn put_tension(text: &mut Vec<u8>, row: &ActivityTension) -> Result<(), AllocError>
    ensures { OnOk result (text.new.items ≡ text.old.items ++ (tension_line row.now ++ 10 ∷ [])) }
{
    put_number(text, u64::from(row.id.get()))?;
    put(text, b" ")?;
    put_signed(text, row.tension)?;
    put_between(text, b" ", u64::from(row.slack), b"\n")
}

/// The reply to `tensions`.
pub fn put_tensions(text: &mut Vec<u8>, rows: &[ActivityTension]) -> Result<(), AllocError>
    ensures { OnOk result (text.new.items ≡ text.old.items ++ tensions_text rows.now) }
{
    put_between(text, b"tensions ", rows.len() as u64, b"\n")?;
    for row in rows {
        put_tension(text, row)?;
    }
    Ok(())
}

fn put_violation(text: &mut Vec<u8>, row: &Violation) -> Result<(), AllocError>
    ensures { OnOk result (text.new.items ≡ text.old.items ++ (violation_line row.now ++ 10 ∷ [])) }
{
    match row {
        Violation::Activity(activity) => put_activity(text, b"activity ", *activity, b"\n"),
        Violation::Event(event) => put_event(text, b"event ", *event, b"\n"),
    }
}

/// The reply to `violations`.
pub fn put_violations(text: &mut Vec<u8>, rows: &[Violation]) -> Result<(), AllocError>
    ensures { OnOk result (text.new.items ≡ text.old.items ++ violations_text rows.now) }
{
    put_between(text, b"violations ", rows.len() as u64, b"\n")?;
    for row in rows {
        put_violation(text, row)?;
    }
    Ok(())
}

/// The reply to `cost`.
pub fn put_cost(text: &mut Vec<u8>, cost: u64) -> Result<(), AllocError>
    ensures { OnOk result (text.new.items ≡ text.old.items ++ cost_text cost) }
{
    put_between(text, b"cost ", cost, b"\n")
}

/// The number of an event between two texts.
fn put_event(
    text: &mut Vec<u8>,
    before: &[u8],
    event: EventId,
    after: &[u8],
) -> Result<(), AllocError>
    ensures { OnOk result (text.new.items
        ≡ text.old.items ++ (before.now ++ (decimal event ++ after.now))) }
{
    put_between(text, before, u64::from(event.get()), after)
}

/// The number of an activity between two texts.
fn put_activity(
    text: &mut Vec<u8>,
    before: &[u8],
    activity: ActivityId,
    after: &[u8],
) -> Result<(), AllocError>
    ensures { OnOk result (text.new.items
        ≡ text.old.items ++ (before.now ++ (decimal activity ++ after.now))) }
{
    put_between(text, before, u64::from(activity.get()), after)
}

/// The reply to refusal 3.
fn put_in_use(text: &mut Vec<u8>, event: EventId, activity: ActivityId) -> Result<(), AllocError>
    ensures { OnOk result (text.new.items ≡ text.old.items ++ in_use_text event activity) }
{
    put_event(text, b"refused 3 event ", event, b" is used by activity ")?;
    put_activity(text, b"", activity, b"\n")
}

/// The reply to a refusal. Out of memory has none, and is returned as the error.
pub fn put_refusal(text: &mut Vec<u8>, refusal: Refusal) -> Result<(), AllocError>
    ensures { OnOk result (appended text.old.items (refusal_text refusal) ≡ Some text.new.items) }
{
    match refusal {
        Refusal::EventExists(event) => put_event(text, b"refused 1 event ", event, b" exists\n"),
        Refusal::NoEvent(event) => put_event(text, b"refused 2 no event ", event, b"\n"),
        Refusal::EventInUse(event, activity) => put_in_use(text, event, activity),
        Refusal::TimeOutOfRange(time) => {
            put_between(
                text,
                b"refused 4 time ",
                u64::from(time),
                b" is out of range\n",
            )
        }
        Refusal::ActivityExists(activity) => {
            put_activity(text, b"refused 5 activity ", activity, b" exists\n")
        }
        Refusal::NoActivity(activity) => {
            put_activity(text, b"refused 6 no activity ", activity, b"\n")
        }
        Refusal::TooManyEvents => put(text, b"refused 7 too many events\n"),
        Refusal::TooManyActivities => put(text, b"refused 8 too many activities\n"),
        Refusal::NotFixed(event) => put_event(text, b"refused 9 event ", event, b" is not fixed\n"),
        Refusal::Memory => Err(AllocError),
        Refusal::MissingTime(event) => {
            put_event(text, b"refused 11 event ", event, b" has no time\n")
        }
        Refusal::Infeasible => put(text, b"refused 12 infeasible\n"),
        Refusal::LengthOutOfRange(length) => {
            put_between(
                text,
                b"refused 13 length ",
                u64::from(length),
                b" is out of range\n",
            )
        }
    }
}

/// The reply to a line that is not a command.
pub(crate) fn put_fault(text: &mut Vec<u8>, fault: ParseFault) -> Result<(), AllocError>
    ensures { OnOk result (text.new.items ≡ text.old.items ++ fault_text fault) }
{
    match fault {
        ParseFault::UnknownCommand => put(text, b"fault unknown command\n"),
        ParseFault::WordCount => put(text, b"fault wrong number of words\n"),
        ParseFault::BadNumber(place) => {
            put_between(
                text,
                b"fault word ",
                u64::from(place),
                b" is not a number\n",
            )
        }
        ParseFault::OutOfRange(place) => {
            put_between(
                text,
                b"fault word ",
                u64::from(place),
                b" is out of range\n",
            )
        }
        ParseFault::Crossed => put(text, b"fault lower bound above upper bound\n"),
    }
}
