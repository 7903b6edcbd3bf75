//! A table of numbered values: a slab stores the values, an ordered map the slot of each number.
//!
//! A slot does not move at an edit, and the map gives walks in order.

ghost use Rattle.std.specs.Prelude.{◌≡◌, ℕ, List, true, false, [], map, Some, None, IfNone, IfSome, IfOk, OnErr, length, option_copied, is_some, is_none};
ghost use Rattle.std.specs.List.Sorted.{IsStrictlyIncreasing};
ghost use Rattle.pesp_base.specs.Numbered.{with_number, put_in, take_out, change_in};
ghost use Rattle.pesp_instance.specs.Filled.{ArePut};
ghost use Rattle.pesp_instance.specs.Table.{slot_of, IsSlot};

use crate::guesses::Guesses;
use crate::numbered::Numbered;
use crate::walks::Walk;
use slab::Slab;
use std::alloc::{AllocError, Global};
use std::collections::BTreeMap;
use std::marker::Model;

/// Values by number. The model is the list of values by rising number, and the slot of each number.
#[derive(Drop)]
pub struct Table<V: Numbered> {
    // The slot of each number that has a value.
    numbers: BTreeMap<u32, usize>,
    // The value of each number, at its slot. No other slot is used.
    pub(crate) slots: Slab<V>,
    // A slot for each number that is tried first, so that few look-ups search the map.
    guesses: Guesses,
}

impl<V: Numbered> Model for Table<V> {
    ghost use Rattle.pesp_instance.specs.Table.{Table as Seen, table_code, table_in, IsTable};

    ghost Value = { Seen V };

    ghost coded = { table_code V.code };

    ghost view = { λ t. table_in t.slots.slots t.numbers.entries };

    ghost invariant = { λ t. IsTable V.number t.slots.slots t.numbers.entries };
}

impl<V: Numbered> Table<V> {
    /// The empty table. Nothing is allocated.
    pub fn new(alloc: Global) -> Self
        ensures { result.values ≡ [] }
    {
        Table {
            numbers: BTreeMap::new(alloc),
            slots: Slab::new(alloc),
            guesses: Guesses::new(alloc),
        }
    }

    /// The table of these values. None if two of them have one number.
    ///
    /// One sort is cheaper than an insertion for each value: docs/HISTORY.md, "Activities stored at
    /// once".
    pub fn from_values(alloc: Global, values: Vec<V>) -> Result<Option<Self>, AllocError>
        ensures none { IfOk result (λ found. IfNone found
            ((last : List V) → ArePut V.number [] values.items last → ⊥)) }
        ensures put { IfOk result (λ found. IfSome found (λ table.
            ArePut V.number [] values.items table.values)) }
        ensures rising { IfOk result (λ found. IfSome found (λ table.
            IsStrictlyIncreasing (map V.number table.values))) }
        ensures all { IfOk result (λ found. IfSome found (λ table.
            length table.values ≡ length values.items)) }
    {
        let count = values.len();
        let mut slots = Slab::with_capacity(alloc, count)?;
        let mut pairs = Vec::with_capacity(alloc, count)?;
        for value in values {
            slots.reserve(1)?;
            pairs.push((value.number(), slots.vacant_key()))?;
            slots.insert_reserved(value);
        }
        let numbers = BTreeMap::from_iter(alloc, pairs)?;
        if numbers.len() != count {
            return Ok(None);
        }
        let mut guesses = Guesses::new(alloc);
        guesses.make(&numbers)?;
        Ok(Some(Table {
            numbers,
            slots,
            guesses,
        }))
    }

    /// The value of a number.
    pub fn get(&self, number: u32) -> Option<&V>
        ensures { option_copied result ≡ with_number V.number number self.now.values }
    {
        match self.slot(number) {
            Some(slot) => self.slots.get(slot),
            None => None,
        }
    }

    /// Whether the number has a value.
    pub fn contains(&self, number: u32) -> bool
        ensures { result ≡ is_some (with_number V.number number self.now.values) }
    {
        self.get(number).is_some()
    }

    /// The slot of a number, if its guess is right.
    fn guess(&self, number: u32) -> Option<usize>
        ensures { IfSome result (λ slot. slot_of self.now number ≡ Some slot) }
    {
        let slot = self.guesses.place(number)?;
        if self.slots.get(slot)?.number() != number {
            return None;
        }
        Some(slot)
    }

    /// The slot of a number, which is the same as long as the number has a value.
    pub fn slot(&self, number: u32) -> Option<usize>
        ensures slot { result ≡ slot_of self.now number }
        ensures present { is_some result ≡ is_some (with_number V.number number self.now.values) }
    {
        match self.guess(number) {
            Some(slot) => Some(slot),
            None => self.numbers.get(&number).copied(),
        }
    }

    /// The value in a slot.
    pub fn value_at(&self, slot: usize) -> &V
        requires slot { IsSlot self.now slot }
        ensures { (n : ℕ) → slot_of self.now n ≡ Some slot
            → with_number V.number n self.now.values ≡ Some result.now }
    {
        &self.slots[slot]
    }

    /// How many numbers have a value.
    pub fn len(&self) -> usize
        ensures { result ≡ length self.now.values }
    {
        self.numbers.len()
    }

    /// The values, by rising number.
    pub fn iter(&self) -> Walk<'_, V>
        ensures { result ≡ self.now.values }
    {
        Walk {
            numbers: self.numbers.iter(),
            slots: &self.slots,
        }
    }

    /// Adds a value, and returns whether its number is new. If it is not, or memory runs out,
    /// nothing changes.
    pub fn insert(&mut self, value: V) -> Result<bool, AllocError>
        ensures added { IfOk result (λ added.
            added ≡ is_none (with_number V.number (V.number value) self.old.values)) }
        ensures put { IfOk result (λ added. added ≡ true
            → self.new.values ≡ put_in V.number value self.old.values) }
        ensures known { IfOk result (λ added. added ≡ false → self.new ≡ self.old) }
        ensures err { OnErr result (self.new ≡ self.old) }
    {
        let number = value.number();
        self.guesses.make(&self.numbers)?;
        self.slots.reserve(1)?;
        let Some(slot) = self.numbers.insert(number, self.slots.vacant_key())? else {
            let slot = self.slots.insert_reserved(value);
            self.guesses.keep(number, slot);
            return Ok(true);
        };
        // The number has a value already, so its slot is restored. Replacing an entry allocates
        // nothing.
        self.numbers.insert(number, slot)?;
        Ok(false)
    }

    /// Replaces the value in the slot of its number.
    pub fn set(&mut self, slot: usize, value: V)
        requires slot { slot_of self.old (V.number value) ≡ Some slot }
        ensures { self.new.values
            ≡ change_in V.number (V.number value) (λ _. value) self.old.values }
    {
        self.slots[slot] = value;
    }

    /// Removes the value of a number, and returns it.
    pub fn remove(&mut self, number: u32) -> Option<V>
        ensures value { result ≡ with_number V.number number self.old.values }
        ensures removed { self.new.values ≡ take_out V.number number self.old.values }
        ensures missing { IfNone result (self.new ≡ self.old) }
    {
        let slot = self.numbers.remove(&number)?;
        Some(self.slots.remove(slot))
    }
}
