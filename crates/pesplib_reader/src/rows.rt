//! The rows of activity and timetable files, and the checks that a row has by itself.
//!
//! Here it does not matter how a file is cut into rows and fields.

ghost use Rattle.std.specs.Prelude.{◌≡◌, ◌≤◌, ◌≤ℤ◌, ◌<ℤ◌, IfOk, IfErr, None, Some, pos, neg_ℤ};
ghost use Rattle.std.specs.Char.{is_ascii_digit};
ghost use Rattle.std.specs.List.{list_all, list_any};
ghost use Rattle.pesp_base.specs.Refusals.{unless_refused};
ghost use Rattle.pesp_base.specs.Limits.{greatest_bound, greatest_number, greatest_weight, least_bound};
ghost use Rattle.pesp_base.specs.Numbers.{number_cap};
ghost use Rattle.pesplib_reader.specs.Rows.{number_fault, value, natural, whole_part, decimals, is_not_zero, weight_fault, weight_value};

use crate::FaultKind;
use pesp_base::{
    Activity, ActivityId, EventId, GREATEST_BOUND, GREATEST_NUMBER, GREATEST_WEIGHT, LEAST_BOUND,
    NumberFault, Span, Weight, number_between,
};

/// The greatest time in a file, as docs/FORMATS.md has it. The least is its negative.
pub(crate) const GREATEST_TIME: u32 = 1_000_000_000;

/// The fields of an activity row.
#[derive(Clone, Copy)]
pub(crate) struct ActivityRow<'a> {
    pub number: &'a [u8],
    pub from: &'a [u8],
    pub to: &'a [u8],
    pub lower: &'a [u8],
    pub upper: &'a [u8],
    pub weight: &'a [u8],
}

/// The fields of a row of a timetable.
#[derive(Clone, Copy)]
pub(crate) struct TimeRow<'a> {
    pub event: &'a [u8],
    pub time: &'a [u8],
}

/// The number of a field, if it is within the limits.
fn number_field(field: u8, text: &[u8], low: i64, high: i64) -> Result<i64, FaultKind>
    requires low { neg_ℤ (pos number_cap) <ℤ low }
    requires high { high <ℤ pos number_cap }
    ensures no_fault { IfOk result (λ number. number_fault field low high text.now ≡ None) }
    ensures value { IfOk result (λ number. number ≡ value text.now) }
    ensures within { IfOk result (λ number. (low ≤ℤ number) × (number ≤ℤ high)) }
    ensures fault { IfErr result (λ kind. number_fault field low high text.now ≡ Some kind) }
{
    match number_between(text, low, high) {
        Ok(number) => Ok(number),
        Err(NumberFault::NotANumber) => Err(FaultKind::BadNumber(field)),
        Err(NumberFault::OutOfRange) => Err(FaultKind::OutOfRange(field)),
    }
}

/// The number of a field, if it is from 0 to a limit.
fn natural_field(field: u8, text: &[u8], greatest: u32) -> Result<u32, FaultKind>
    ensures no_fault { IfOk result (λ number.
        number_fault field (pos 0) (pos greatest) text.now ≡ None) }
    ensures value { IfOk result (λ number. number ≡ natural text.now) }
    ensures within { IfOk result (λ number. number ≤ greatest) }
    ensures fault { IfErr result (λ kind.
        number_fault field (pos 0) (pos greatest) text.now ≡ Some kind) }
{
    let number = number_field(field, text, 0, i64::from(greatest))?;
    Ok(number as u32)
}

fn event_field(field: u8, text: &[u8]) -> Result<EventId, FaultKind>
    ensures no_fault { IfOk result (λ event.
        number_fault field (pos 0) (pos greatest_number) text.now ≡ None) }
    ensures value { IfOk result (λ event. event ≡ natural text.now) }
    ensures fault { IfErr result (λ kind.
        number_fault field (pos 0) (pos greatest_number) text.now ≡ Some kind) }
{
    let number = natural_field(field, text, GREATEST_NUMBER)?;
    Ok(EventId::new(number).unwrap())
}

fn bound_field(field: u8, text: &[u8]) -> Result<i32, FaultKind>
    ensures no_fault { IfOk result (λ bound.
        number_fault field least_bound greatest_bound text.now ≡ None) }
    ensures value { IfOk result (λ bound. bound ≡ value text.now) }
    ensures within { IfOk result (λ bound. (least_bound ≤ℤ bound) × (bound ≤ℤ greatest_bound)) }
    ensures fault { IfErr result (λ kind.
        number_fault field least_bound greatest_bound text.now ≡ Some kind) }
{
    let bound = number_field(
        field,
        text,
        i64::from(LEAST_BOUND),
        i64::from(GREATEST_BOUND),
    )?;
    Ok(bound as i32)
}

/// The text before its first point, and the text after it.
fn at_point(text: &[u8]) -> (&[u8], &[u8])
    ensures whole { result.0.now ≡ whole_part text.now }
    ensures decimals { result.1.now ≡ decimals text.now }
{
    match text.iter().position(|byte| *byte == b'.') {
        Some(place) => (&text[..place], &text[place + 1..]),
        None => (text, &[]),
    }
}

fn are_digits(text: &[u8]) -> bool
    ensures { result ≡ list_all is_ascii_digit text.now }
{
    text.iter().all(|byte| byte.is_ascii_digit())
}

/// Whether some digit is not zero.
fn is_some_not_zero(digits: &[u8]) -> bool
    ensures { result ≡ list_any is_not_zero digits.now }
{
    digits.iter().any(|digit| *digit != b'0')
}

/// The weight, which may have a point and zeros after it.
#[tactic(auto, unfolding(crate::specs::Rows::weight_fault))]
fn weight_field(text: &[u8]) -> Result<u32, FaultKind>
    ensures no_fault { IfOk result (λ weight. weight_fault text.now ≡ None) }
    ensures value { IfOk result (λ weight. weight ≡ weight_value text.now) }
    ensures within { IfOk result (λ weight. weight ≤ greatest_weight) }
    ensures fault { IfErr result (λ kind. weight_fault text.now ≡ Some kind) }
{
    let (whole, decimals) = at_point(text);
    let weight = number_between(whole, 0, i64::from(GREATEST_WEIGHT));
    if !are_digits(decimals) || weight == Err(NumberFault::NotANumber) {
        return Err(FaultKind::BadNumber(6));
    }
    if is_some_not_zero(decimals) {
        return Err(FaultKind::FractionalWeight);
    }
    match weight {
        Ok(weight) => Ok(weight as u32),
        Err(_) => Err(FaultKind::OutOfRange(6)),
    }
}

impl ActivityRow<'_> {
    ghost use Rattle.pesplib_reader.specs.Rows.{activity_faults, activity_in};
    ghost use Rattle.pesplib_reader.specs.RowFields.{activity_fields};

    /// The activity, or the first fault of the fields from left to right, and `Crossed` after them.
    pub(crate) fn activity(&self) -> Result<Activity, FaultKind>
        ensures { result ≡ unless_refused (activity_faults (activity_fields self.now))
            (activity_in (activity_fields self.now)) }
    {
        let number = natural_field(1, self.number, GREATEST_NUMBER)?;
        let from = event_field(2, self.from)?;
        let to = event_field(3, self.to)?;
        let lower = bound_field(4, self.lower)?;
        let upper = bound_field(5, self.upper)?;
        let weight = weight_field(self.weight)?;
        let Ok(span) = Span::new(lower, upper) else {
            return Err(FaultKind::Crossed);
        };
        Ok(Activity {
            id: ActivityId::new(number).unwrap(),
            from,
            to,
            span,
            weight: Weight::new(weight).unwrap(),
        })
    }
}

impl TimeRow<'_> {
    ghost use Rattle.pesplib_reader.specs.Rows.{time_faults};
    ghost use Rattle.pesplib_reader.specs.RowFields.{time_fields};

    /// The event and its time, or the first fault of the fields from left to right.
    pub(crate) fn event_and_time(&self) -> Result<(EventId, i64), FaultKind>
        ensures { result ≡ unless_refused (time_faults (time_fields self.now))
            (natural self.now.event.now, value self.now.time.now) }
    {
        let event = event_field(1, self.event)?;
        let greatest = i64::from(GREATEST_TIME);
        let time = number_field(2, self.time, -greatest, greatest)?;
        Ok((event, time))
    }
}
