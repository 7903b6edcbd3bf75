//! The number of partners of each residue at each end of an activity.

ghost use Rattle.std.specs.Prelude.{◌≡◌, ◌+◌, ◌*◌, ◌<◌, ◌≤◌, ◌⊎◌, ℕ, [], length, slice_index_or, OnOk, OnErr};
ghost use Rattle.pesp_counts_supports.specs.Counted.{AreShifted, CanShift};
ghost use Rattle.pesp_counts_supports.specs.Lone.{IsFirst, is_lone};

use crate::widths::{may_be_lone_byte, may_be_lone_word, shift_bytes, shift_words};
use pesp_base::Period;
use std::alloc::{AllocError, Global};
use std::marker::Model;

/// Counts of one byte each, or of two.
#[derive(Drop)]
enum Values {
    Narrow(Vec<u8>),
    Wide(Vec<u16>),
}

/// Counts, each at most the period. Only this type knows how wide a count is: one byte if the
/// period fits one, else two. docs/HISTORY.md has the cost under "Windows and counts of two
/// widths".
#[derive(Drop)]
pub(crate) struct Counts {
    // Narrow if and only if the period fits a byte.
    values: Values,
}

impl Model for Counts {
    ghost use Rattle.std.specs.Prelude.{◌≤◌, length};
    ghost use Rattle.pesp_counts_supports.specs.Counted.{Counted};

    ghost Value = { Counted };

    ghost use Rattle.pesp_counts_supports.specs.Counted.{counted};

    ghost view = { λ a. counted a.values };

    ghost invariant = { λ a. length (counted a.values).values ≤ 18446744073709551615 };
}

impl Counts {
    /// No counts, of the width for this period.
    pub(crate) fn new(alloc: Global, period: Period) -> Counts
        ensures none { result.values ≡ [] }
        ensures fits { period ≤ result.most }
    {
        let values = if period.get() <= u16::from(u8::MAX) {
            Values::Narrow(Vec::new(alloc))
        } else {
            Values::Wide(Vec::new(alloc))
        };
        Counts { values }
    }

    /// The count at an index.
    pub(crate) fn get(&self, at: usize) -> u16
        requires { at < length (self.now).values }
        ensures { result ≡ slice_index_or (self.now).values at 0 }
    {
        match &self.values {
            Values::Narrow(bytes) => u16::from(bytes[at]),
            Values::Wide(words) => words[at],
        }
    }

    /// The index of the first count of an end, which has one for each residue.
    pub(crate) fn base(&self, end: usize, period: u16) -> usize
        requires { end * period + period ≤ length (self.now).values }
        ensures base { result ≡ end * period }
        ensures small { result + period < 18446744073709551616 }
    {
        // The product fits, because the invariant bounds the number of counts.
        let _values = &self.values;
        end * period as usize
    }

    /// The index of the first held residue without a partner. `held` and the counts from index
    /// `from` on run in parallel.
    pub(crate) fn first_lone(&self, held: &[bool], from: usize) -> Option<usize>
        requires { from + length held.now ≤ length (self.now).values }
        ensures { IsFirst (is_lone held.now (self.now).values from) 0 (length held.now) result }
    {
        let any = match &self.values {
            Values::Narrow(bytes) => may_be_lone_byte(held, &bytes[from..from + held.len()]),
            Values::Wide(words) => may_be_lone_word(held, &words[from..from + held.len()]),
        };
        if any {
            for at in 0..held.len() {
                if held[at] && self.get(from + at) == 0 {
                    return Some(at);
                }
            }
        }
        None
    }

    /// Changes the counts from an index on: each falls by its `down`, and rises by its `up`.
    pub(crate) fn shift(&mut self, from: usize, down: &[u16], up: &[u16])
        requires within { from + length down.now ≤ length (self.old).values }
        requires even { length up.now ≡ length down.now }
        requires can { CanShift (self.old).most from down.now up.now (self.old).values }
        ensures most { (self.new).most ≡ (self.old).most }
        ensures shifted { AreShifted from down.now up.now (self.old).values (self.new).values }
    {
        match &mut self.values {
            Values::Narrow(bytes) => shift_bytes(bytes, from, down, up),
            Values::Wide(words) => shift_words(words, from, down, up),
        }
    }

    /// Sets each count of a range.
    pub(crate) fn fill_range(&mut self, from: usize, to: usize, count: u16)
        requires order { from ≤ to }
        requires within { to ≤ length (self.old).values }
        requires low { count ≤ (self.old).most }
        ensures most { (self.new).most ≡ (self.old).most }
        ensures long { length (self.new).values ≡ length (self.old).values }
        ensures here { (i : ℕ) → from ≤ i → i < to → slice_index_or (self.new).values i 0 ≡ count }
        ensures elsewhere { (i : ℕ) → i < from ⊎ to ≤ i
            → slice_index_or (self.new).values i 0 ≡ slice_index_or (self.old).values i 0 }
    {
        match &mut self.values {
            Values::Narrow(bytes) => bytes[from..to].fill(count as u8),
            Values::Wide(words) => words[from..to].fill(count),
        }
    }

    /// Adds counts of 0 up to this number. If memory runs out, nothing changes.
    pub(crate) fn grow(&mut self, long: usize) -> Result<(), AllocError>
        ensures most { (self.new).most ≡ (self.old).most }
        ensures long { OnOk result (long ≤ length (self.new).values) }
        ensures longer { length (self.old).values ≤ length (self.new).values }
        ensures same { (i : ℕ) → slice_index_or (self.new).values i 0
            ≡ slice_index_or (self.old).values i 0 }
        ensures err { OnErr result (self.new ≡ self.old) }
    {
        match &mut self.values {
            Values::Narrow(bytes) => bytes.resize(bytes.len().max(long), 0),
            Values::Wide(words) => words.resize(words.len().max(long), 0),
        }
    }
}
