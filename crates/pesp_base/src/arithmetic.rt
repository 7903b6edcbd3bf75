//! Slack and tension, and when an activity is met.
//!
//! Times count modulo the period, and a residue is a time below it. Spans and the question whether
//! times meet them are those of Serafini and Ukovich (1989); slack and tension are from later work.

ghost use Rattle.std.specs.Prelude.{◌≡◌, ◌<◌, ◌↔◌, IsTrue};
ghost use Rattle.pesp_base.specs.Tensions.{IsMet, IsTension, residue, slack_of, tension_of, is_met};

use crate::{Period, Span};

/// The remainder of a whole number, from 0 to the period less 1.
pub(crate) fn remainder(number: i32, period: Period) -> u16
    ensures value { result ≡ residue period number }
    ensures below { result < period }
{
    number.rem_euclid(period.get() as i32) as u16
}

/// The periodic slack from residue `r` to residue `s`, below the period: how far the tension is above the lower bound.
pub fn slack(period: Period, span: Span, r: u16, s: u16) -> u16
    requires { (r < period) × (s < period) }
    ensures value { result ≡ slack_of period span r s }
    ensures below { result < period }
{
    remainder(s as i32 - r as i32 - span.lower(), period)
}

/// The periodic tension: the least time from `r` to `s`, up to whole periods, that is not below the lower bound.
pub fn tension(period: Period, span: Span, r: u16, s: u16) -> i32
    requires { (r < period) × (s < period) }
    ensures value { result ≡ tension_of period span r s }
    ensures least { IsTension period span r s result }
{
    span.lower() + slack(period, span, r, s) as i32
}

/// Whether some whole number of periods brings the time from `r` to `s` into the span.
pub fn allows(period: Period, span: Span, r: u16, s: u16) -> bool
    requires { (r < period) × (s < period) }
    ensures value { result ≡ is_met period span r s }
    ensures met { IsTrue result ↔ IsMet period span r s }
{
    tension(period, span, r, s) <= span.upper()
}
