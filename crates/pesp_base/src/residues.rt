//! The residues that an activity admits at one end, for a residue at the other.

ghost use Rattle.std.specs.Prelude.{◌≡◌, ◌≢◌, ℕ, ◌+◌, ◌<◌, ◌≤◌, ◌↔◌, AllPairs, Contains};
ghost use Rattle.std.specs.Iterator.{YieldsFirst, YieldsLast, item_count};
ghost use Rattle.pesp_base.specs.Residues.{partners_of, reach, sources_of, residue_at};
ghost use Rattle.pesp_base.specs.Tensions.{IsMet};

use crate::arithmetic::remainder;
use crate::{Period, Span};
use std::marker::Model;
use std::ops::Range;

/// The direction in which residues follow the first one.
#[derive(Clone, Copy)]
enum Direction {
    Up,
    Down,
}

impl Direction {
    /// The residue that is `step` steps from the first one.
    fn residue_at(self, period: Period, first: u16, step: u16) -> u16
        requires { (first < period) × (step < period) }
        ensures { result ≡ residue_at self period first step }
    {
        let period = period.get();
        let number = match self {
            Direction::Up => first + step,
            Direction::Down => first + (period - step),
        };
        number % period
    }
}

/// The remaining residues of [`partners`] or [`sources`], which can be taken from either end.
#[derive(Drop)]
pub struct Residues {
    // Greater than `first`, and at least the end of `steps`.
    period: Period,
    // The residue of step 0.
    first: u16,
    // The remaining steps.
    steps: Range<u16>,
    // The direction of the steps from `first`.
    direction: Direction,
}

impl Model for Residues {
    ghost use Rattle.std.specs.Prelude.{ℕ, ◌<◌, ◌≤◌, List};
    ghost use Rattle.pesp_base.specs.Residues.{residues_left};

    ghost Value = { List ℕ };

    ghost view = { λ a. residues_left a.direction a.period a.first a.steps.start a.steps.end };

    ghost invariant = { λ a. (a.first < a.period) × (a.steps.end ≤ a.period) };
}

impl Iterator for Residues {
    type Item = u16;

    ghost next_gives = { YieldsFirst (λ rest. rest) };

    ghost remaining = { item_count (λ rest. rest) };

    fn next(&mut self) -> Option<u16> {
        let step = self.steps.next()?;
        Some(self.direction.residue_at(self.period, self.first, step))
    }
}

impl DoubleEndedIterator for Residues {
    ghost next_back_gives = { YieldsLast (λ rest. rest) };

    fn next_back(&mut self) -> Option<u16> {
        let step = self.steps.next_back()?;
        Some(self.direction.residue_at(self.period, self.first, step))
    }
}

/// The number of residues that an activity admits at one end for one residue at the other.
fn count(period: Period, span: Span) -> u16
    ensures value { result ≡ reach period span + 1 }
    ensures within { result ≤ period }
{
    let width = span.upper().abs_diff(span.lower());
    width.min(u32::from(period.get()) - 1) as u16 + 1
}

/// The residues that an activity admits at its `to` event, for residue `r` of its `from` event.
///
/// They are `r + lower + k` modulo the period, in units of time and below the period, by rising
/// slack `k`: from 0 to the smaller of `upper - lower` and the period less 1. Each occurs once.
pub fn partners(period: Period, span: Span, r: u16) -> Residues
    requires { r < period }
    ensures order { result ≡ partners_of period span r }
    ensures met { (s : ℕ) → Contains result s ↔ ((s < period) × IsMet period span r s) }
    ensures once { AllPairs (λ a b. a ≢ b) result }
{
    Residues {
        period,
        first: remainder(r as i32 + span.lower(), period),
        steps: 0..count(period, span),
        direction: Direction::Up,
    }
}

/// The residues that an activity admits at its `from` event, for residue `s` of its `to` event.
///
/// They are `s - lower - k` modulo the period, in units of time and below the period, by rising
/// slack `k`: from 0 to the smaller of `upper - lower` and the period less 1. Each occurs once.
pub fn sources(period: Period, span: Span, s: u16) -> Residues
    requires { s < period }
    ensures order { result ≡ sources_of period span s }
    ensures met { (r : ℕ) → Contains result r ↔ ((r < period) × IsMet period span r s) }
    ensures once { AllPairs (λ a b. a ≢ b) result }
{
    Residues {
        period,
        first: remainder(s as i32 - span.lower(), period),
        steps: 0..count(period, span),
        direction: Direction::Down,
    }
}
