//! Whole numbers of any length in a text.

ghost use Rattle.std.specs.Prelude.{◌≡◌, ◌<ℤ◌, ◌≤ℤ◌, pos, neg_ℤ, min, option_map, IfOk};
ghost use Rattle.pesp_base.specs.Texts.{digits_value, number_value};
ghost use Rattle.pesp_base.specs.Numbers.{capped, number_cap, number_in};

/// Why a text is not a number within the limits.
#[derive(Clone, Copy, Debug, PartialEq, Eq)]
pub enum NumberFault {
    /// The text is not a number.
    NotANumber,
    /// The number is outside the limits.
    OutOfRange,
}

/// Values are capped here, so that a number of any length can be read. The cap is beyond all limits
/// of [`number_between`], and ten times it still fits 64 bits.
pub const NUMBER_CAP: u64 = 10_000_000_000_000;

/// The value of the digits, or [`NUMBER_CAP`] if it is greater. None unless there are digits alone.
fn capped_digits(digits: &[u8]) -> Option<u64>
    ensures { result ≡ option_map (min number_cap) (digits_value digits.now) }
{
    if digits.is_empty() {
        return None;
    }
    let mut number = 0;
    for digit in digits {
        if !digit.is_ascii_digit() {
            return None;
        }
        number = NUMBER_CAP.min(10 * number + u64::from(*digit - b'0'));
    }
    Some(number)
}

/// The value of the text, or [`NUMBER_CAP`] with its sign if it is further from 0.
fn capped_number(text: &[u8]) -> Option<i64>
    ensures { result ≡ option_map capped (number_value text.now) }
{
    match text {
        [b'+', digits @ ..] => Some(capped_digits(digits)? as i64),
        [b'-', digits @ ..] => Some(-(capped_digits(digits)? as i64)),
        digits => Some(capped_digits(digits)? as i64),
    }
}

/// The value of the text, if it is a number within the limits.
///
/// A number is an optional `+` or `-` and one or more digits, of any length. Nothing is allocated.
/// Errors in order: `NotANumber`, `OutOfRange`.
pub fn number_between(text: &[u8], low: i64, high: i64) -> Result<i64, NumberFault>
    requires low { neg_ℤ (pos number_cap) <ℤ low }
    requires high { high <ℤ pos number_cap }
    ensures number { result ≡ number_in low high text.now }
    ensures within { IfOk result (λ number. (low ≤ℤ number) × (number ≤ℤ high)) }
{
    let Some(number) = capped_number(text) else {
        return Err(NumberFault::NotANumber);
    };
    if number < low || number > high {
        return Err(NumberFault::OutOfRange);
    }
    Ok(number)
}
