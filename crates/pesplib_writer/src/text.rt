//! Appends texts and numbers, which `itoa` formats.
//!
//! A call runs out of memory only if the text has no room, and a text keeps the room that it has.

ghost use Rattle.std.specs.Prelude.{◌≡◌, ◌≤◌, ◌++◌, [], ◌∷◌, OnOk, OnErr, decimal, vec_capacity};
ghost use Rattle.std.specs.Fmt.{signed_decimal};
ghost use Rattle.pesplib_writer.specs.Puts.{HasNoRoom, IsPutInPart};

use itoa::Buffer;
use std::alloc::AllocError;

/// Appends bytes. If memory runs out, the text does not change.
pub fn put(text: &mut Vec<u8>, bytes: &[u8]) -> Result<(), AllocError>
    ensures text { OnOk result (text.new.items ≡ text.old.items ++ bytes.now) }
    ensures unchanged { OnErr result (text.new.items ≡ text.old.items) }
    ensures full { OnErr result (HasNoRoom text.old bytes.now) }
    ensures room { vec_capacity text.old ≤ vec_capacity text.new }
{
    text.extend_from_slice(bytes)
}

/// Appends the digits of a number. If memory runs out, the text does not change.
pub fn put_number(text: &mut Vec<u8>, number: u64) -> Result<(), AllocError>
    ensures text { OnOk result (text.new.items ≡ text.old.items ++ decimal number) }
    ensures unchanged { OnErr result (text.new.items ≡ text.old.items) }
    ensures full { OnErr result (HasNoRoom text.old (decimal number)) }
    ensures room { vec_capacity text.old ≤ vec_capacity text.new }
{
    let mut buffer = Buffer::new();
    let digits = buffer.format(number);
    put(text, digits.as_bytes())
}

/// Appends the digits of a number, after `-` if it is below 0. If memory runs out, the text does
/// not change.
pub fn put_signed(text: &mut Vec<u8>, number: i32) -> Result<(), AllocError>
    ensures text { OnOk result (text.new.items ≡ text.old.items ++ signed_decimal number) }
    ensures unchanged { OnErr result (text.new.items ≡ text.old.items) }
    ensures full { OnErr result (HasNoRoom text.old (signed_decimal number)) }
    ensures room { vec_capacity text.old ≤ vec_capacity text.new }
{
    let mut buffer = Buffer::new();
    let signed = buffer.format(number);
    put(text, signed.as_bytes())
}

/// Appends a number, and a text after it.
pub(crate) fn put_before(text: &mut Vec<u8>, number: u64, ending: &[u8]) -> Result<(), AllocError>
    ensures { OnOk result (text.new.items ≡ text.old.items ++ (decimal number ++ ending.now)) }
{
    put_number(text, number)?;
    put(text, ending)
}

/// Appends a number between two texts.
///
/// If memory runs out, none of the three may be appended, or the first one, or that and the number.
pub fn put_between(
    text: &mut Vec<u8>,
    before: &[u8],
    number: u64,
    after: &[u8],
) -> Result<(), AllocError>
    ensures text { OnOk result (text.new.items
        ≡ text.old.items ++ (before.now ++ (decimal number ++ after.now))) }
    ensures in_part { OnErr result (IsPutInPart text.old.items text.new.items
        (before.now ∷ decimal number ∷ after.now ∷ [])) }
    ensures full { OnErr result (HasNoRoom text.old (before.now ++ (decimal number ++ after.now))) }
    ensures room { vec_capacity text.old ≤ vec_capacity text.new }
{
    put(text, before)?;
    put_number(text, number)?;
    put(text, after)
}
