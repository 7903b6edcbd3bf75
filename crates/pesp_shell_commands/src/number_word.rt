//! One word of a command as a number.

ghost use Rattle.std.specs.Prelude.{◌≡◌, ◌≤◌, ◌≤ℤ◌, ◌<ℤ◌, pos, neg_ℤ, unsigned_abs, IfOk, IfErr, None, Some};
ghost use Rattle.pesp_base.specs.Limits.{least_bound, greatest_bound};
ghost use Rattle.pesp_base.specs.Numbers.{number_cap};
ghost use Rattle.pesp_shell_commands.specs.declared.parsing.TheConstants.{GREATEST_LIMIT};
ghost use Rattle.pesp_shell_commands.specs.Forms.{word_fault};
ghost use Rattle.pesp_shell_commands.specs.Parsed as ranges;
ghost use Rattle.pesp_shell_commands.specs.Parsed.{number_of};

use crate::ParseFault;
use crate::parsing::{GREATEST_LIMIT, GREATEST_TIME};
use pesp_base::{
    ActivityId, EventId, GREATEST_BOUND, GREATEST_NUMBER, GREATEST_WEIGHT, LEAST_BOUND,
    NumberFault, Weight, number_between,
};

/// The number of the word at a place, if it is within the limits.
fn number_at(place: u8, word: &[u8], low: i64, high: i64) -> Result<i64, ParseFault>
    requires low { neg_ℤ (pos number_cap) <ℤ low }
    requires high { high <ℤ pos number_cap }
    ensures no_fault { IfOk result (λ number.
        word_fault place (record { low = low; high = high }) word.now ≡ None) }
    ensures value { IfOk result (λ number. number ≡ number_of word.now) }
    ensures within { IfOk result (λ number. (low ≤ℤ number) × (number ≤ℤ high)) }
    ensures fault { IfErr result (λ fault.
        word_fault place (record { low = low; high = high }) word.now ≡ Some fault) }
{
    match number_between(word, low, high) {
        Ok(number) => Ok(number),
        Err(NumberFault::NotANumber) => Err(ParseFault::BadNumber(place)),
        Err(NumberFault::OutOfRange) => Err(ParseFault::OutOfRange(place)),
    }
}

/// The number of the word at a place, if it is from 0 to a limit.
fn natural_at(place: u8, word: &[u8], greatest: u64) -> Result<u64, ParseFault>
    requires { greatest ≤ GREATEST_LIMIT }
    ensures no_fault { IfOk result (λ number.
        word_fault place (record { low = pos 0; high = pos greatest }) word.now ≡ None) }
    ensures value { IfOk result (λ number. number ≡ unsigned_abs (number_of word.now)) }
    ensures within { IfOk result (λ number. number ≤ greatest) }
    ensures fault { IfErr result (λ fault.
        word_fault place (record { low = pos 0; high = pos greatest }) word.now ≡ Some fault) }
{
    let number = number_at(place, word, 0, greatest as i64)?;
    Ok(number as u64)
}

pub(crate) fn event_at(place: u8, word: &[u8]) -> Result<EventId, ParseFault>
    ensures no_fault { IfOk result (λ event. word_fault place ranges.id word.now ≡ None) }
    ensures value { IfOk result (λ event. event ≡ unsigned_abs (number_of word.now)) }
    ensures fault { IfErr result (λ fault. word_fault place ranges.id word.now ≡ Some fault) }
{
    let number = natural_at(place, word, u64::from(GREATEST_NUMBER))?;
    Ok(EventId::new(number as u32).unwrap())
}

pub(crate) fn activity_at(place: u8, word: &[u8]) -> Result<ActivityId, ParseFault>
    ensures no_fault { IfOk result (λ activity. word_fault place ranges.id word.now ≡ None) }
    ensures value { IfOk result (λ activity. activity ≡ unsigned_abs (number_of word.now)) }
    ensures fault { IfErr result (λ fault. word_fault place ranges.id word.now ≡ Some fault) }
{
    let number = natural_at(place, word, u64::from(GREATEST_NUMBER))?;
    Ok(ActivityId::new(number as u32).unwrap())
}

pub(crate) fn weight_at(place: u8, word: &[u8]) -> Result<Weight, ParseFault>
    ensures no_fault { IfOk result (λ weight. word_fault place ranges.weight word.now ≡ None) }
    ensures value { IfOk result (λ weight. weight ≡ unsigned_abs (number_of word.now)) }
    ensures fault { IfErr result (λ fault. word_fault place ranges.weight word.now ≡ Some fault) }
{
    let number = natural_at(place, word, u64::from(GREATEST_WEIGHT))?;
    Ok(Weight::new(number as u32).unwrap())
}

pub(crate) fn time_at(place: u8, word: &[u8]) -> Result<u16, ParseFault>
    ensures no_fault { IfOk result (λ time. word_fault place ranges.time word.now ≡ None) }
    ensures value { IfOk result (λ time. time ≡ unsigned_abs (number_of word.now)) }
    ensures fault { IfErr result (λ fault. word_fault place ranges.time word.now ≡ Some fault) }
{
    let number = natural_at(place, word, u64::from(GREATEST_TIME))?;
    Ok(number as u16)
}

pub(crate) fn bound_at(place: u8, word: &[u8]) -> Result<i32, ParseFault>
    ensures no_fault { IfOk result (λ bound. word_fault place ranges.bound word.now ≡ None) }
    ensures value { IfOk result (λ bound. bound ≡ number_of word.now) }
    ensures within { IfOk result (λ bound. (least_bound ≤ℤ bound) × (bound ≤ℤ greatest_bound)) }
    ensures fault { IfErr result (λ fault. word_fault place ranges.bound word.now ≡ Some fault) }
{
    let number = number_at(
        place,
        word,
        i64::from(LEAST_BOUND),
        i64::from(GREATEST_BOUND),
    )?;
    Ok(number as i32)
}

pub(crate) fn limit_at(place: u8, word: &[u8]) -> Result<u64, ParseFault>
    ensures no_fault { IfOk result (λ limit. word_fault place ranges.limit word.now ≡ None) }
    ensures value { IfOk result (λ limit. limit ≡ unsigned_abs (number_of word.now)) }
    ensures fault { IfErr result (λ fault. word_fault place ranges.limit word.now ≡ Some fault) }
{
    natural_at(place, word, GREATEST_LIMIT)
}
