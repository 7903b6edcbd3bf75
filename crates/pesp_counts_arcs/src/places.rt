//! Places: the keeper's own small numbers for events and activities.
//!
//! They are guessed by the last bits of a number. docs/HISTORY.md compares this with a hash map
//! under "Room at once, ends of 12 bytes, and places by a guess".

ghost use Rattle.std.specs.Prelude.{◌≡◌, ◌==◌, ◌≤◌, ◌<◌, ◌+◌, ◌%◌, ◌↔◌, ℕ, [], None, Some, if◌then◌else◌, length, IfOk, OnOk, OnErr};
ghost use Rattle.pesp_counts_arcs.specs.Places.{AreByBits, AreGuessed, ArePlaces, IsGuessed, StayGuessed, number_at, place_of};

use slab::Slab;
use std::alloc::{AllocError, Global};
use std::collections::BTreeMap;
use std::marker::Model;

/// A place for each number, which is the same as long as the number has one.
#[derive(Drop)]
pub struct Places {
    /// The number at each place that is in use.
    numbers: Slab<u32>,
    /// A place guessed for each number by its last bits. The length is a power of two, or 0. A
    /// guess is right if `numbers` has the number at that place.
    guesses: Vec<u32>,
    /// The place of each number whose guess is wrong.
    others: BTreeMap<u32, usize>,
}

impl Model for Places {
    ghost use Rattle.pesp_counts_arcs.specs.Places as words;

    ghost Value = { words.Places };

    ghost view = { λ a. record { numbers = a.numbers.slots } };

    ghost invariant = { λ a.
        words.AreFound (record { numbers = a.numbers.slots }) a.guesses.items a.others.entries };
}

impl Places {
    /// No places.
    pub fn new(alloc: Global) -> Places
        ensures { result ≡ record { numbers = [] } }
    {
        Places {
            numbers: Slab::new(alloc),
            guesses: Vec::new(alloc),
            others: BTreeMap::new(alloc),
        }
    }

    /// Reserves room for this number of numbers, and gives them no places.
    pub fn make_room(&mut self, numbers: usize) -> Result<(), AllocError>
        ensures { self.new ≡ self.old }
    {
        self.numbers.reserve(numbers)?;
        make_guesses(&mut self.guesses, numbers)
    }

    /// The place of a number.
    pub fn place(&self, number: u32) -> Option<usize>
        ensures { result ≡ place_of self.now number }
    {
        match guessed_place(&self.numbers, &self.guesses, number) {
            Some(place) => Some(place),
            None => self.others.get(&number).copied(),
        }
    }

    /// The number at a place, if there is one.
    pub fn number(&self, place: usize) -> Option<u32>
        ensures { result ≡ number_at self.now place }
    {
        self.numbers.get(place).copied()
    }

    /// Gives a new number a free place. If memory runs out, nothing changes.
    pub fn insert(&mut self, number: u32) -> Result<usize, AllocError>
        requires absent { place_of self.old number ≡ None }
        ensures places { IfOk result (λ p. (n : ℕ) →
            place_of self.new n ≡ (if n == number then Some p else place_of self.old n)) }
        ensures free { IfOk result (λ p. number_at self.old p ≡ None) }
        ensures paired { ArePlaces self.new }
        ensures err { OnErr result (self.new ≡ self.old) }
    {
        self.numbers.reserve(1)?;
        make_guesses(&mut self.guesses, self.numbers.len().saturating_add(1))?;
        let place = self.numbers.vacant_key();
        if !keep_guess(&self.numbers, &mut self.guesses, number) {
            self.others.insert(number, place)?;
        }
        self.numbers.insert_reserved(number);
        Ok(place)
    }

    /// Frees the place of a number.
    pub fn remove(&mut self, number: u32)
        ensures places { (n : ℕ) →
            place_of self.new n ≡ (if n == number then None else place_of self.old n) }
        ensures paired { ArePlaces self.new }
    {
        let place = match guessed_place(&self.numbers, &self.guesses, number) {
            Some(place) => Some(place),
            None => self.others.remove(&number),
        };
        if let Some(place) = place {
            self.numbers.remove(place);
        }
    }
}

/// The index of a number's guess, by its last bits.
fn guess_index(guesses: &[u32], number: u32) -> usize
    requires { AreByBits guesses.now }
    ensures { result ≡ number % length guesses.now }
{
    number as usize & guesses.len().wrapping_sub(1)
}

/// The place of a number, if its guess is right.
fn guessed_place(numbers: &Slab<u32>, guesses: &[u32], number: u32) -> Option<usize>
    requires { AreByBits guesses.now }
    ensures { (p : ℕ) → (result ≡ Some p) ↔ IsGuessed numbers.now guesses.now number p }
{
    let guess = *guesses.get(guess_index(guesses, number))? as usize;
    (*numbers.get(guess)? == number).then_some(guess)
}

/// Makes the vacant place the guess of a number, unless another number needs that guess. Returns
/// whether it did.
fn keep_guess(numbers: &Slab<u32>, guesses: &mut [u32], number: u32) -> bool
    requires by_bits { AreByBits guesses.old }
    requires some { 0 < length guesses.old }
    ensures { AreGuessed numbers.now guesses.old guesses.new number result }
{
    let index = guess_index(guesses, number);
    let Ok(place) = u32::try_from(numbers.vacant_key()) else {
        return false;
    };
    if let Some(other) = numbers.get(guesses[index] as usize) {
        if guess_index(guesses, *other) == index {
            return false;
        }
    }
    guesses[index] = place;
    true
}

/// Adds guesses up to this number. They are copied behind themselves, so every number keeps its
/// guess.
fn make_guesses(guesses: &mut Vec<u32>, count: usize) -> Result<(), AllocError>
    requires { AreByBits (guesses.old).items }
    ensures by_bits { AreByBits (guesses.new).items }
    ensures enough { OnOk result (count ≤ length (guesses.new).items) }
    ensures stay { StayGuessed (guesses.old).items (guesses.new).items }
{
    if guesses.is_empty() {
        // At least 16, which spends 64 bytes to avoid the first reallocations. No measurement chose
        // it.
        let room = count.max(16);
        guesses.resize(room.checked_next_power_of_two().ok_or(AllocError)?, 0)?;
    }
    while guesses.len() < count {
        guesses.extend_from_within(..)?;
    }
    Ok(())
}
