//! The residues that an activity admits at one end for one at the other: the first, and their
//! number.

ghost use Rattle.std.specs.Prelude.{◌≡◌, ◌+◌, ◌<◌, ◌≤◌};
ghost use Rattle.pesp_base.specs.Residues.{reach};
ghost use Rattle.pesp_base.specs.Tensions.{residue};

use pesp_base::{Period, Span};

/// The remainder of a whole number, from 0 to the period less 1.
pub fn remainder(number: i32, period: Period) -> u16
    ensures value { result ≡ residue period number }
    ensures below { result < period }
{
    number.rem_euclid(period.get() as i32) as u16
}

/// The number of residues that an activity admits at one end for one residue at the other.
pub fn width_of(period: Period, span: Span) -> u16
    ensures value { result ≡ reach period span + 1 }
    ensures within { result ≤ period }
{
    let width = span.upper().abs_diff(span.lower());
    width.min(u32::from(period.get()) - 1) as u16 + 1
}
