//! A guess at the slot of each number, tried before the ordered map.
//!
//! It uses the number's last bits, which suit any numbers, not only dense ones. docs/HISTORY.md has
//! the measurements under "Numbers looked up by a guess".

use std::alloc::{AllocError, Global};
use std::collections::BTreeMap;

/// The least number of guesses, unless there are none. It spends 64 bytes to avoid the first
/// reallocations; no measurement chose it.
const FIRST_ROOM: usize = 16;

/// A slot for the last bits of each number. It may be another number's, so callers check it.
#[derive(Drop)]
pub struct Guesses {
    // The length is a power of two, or 0.
    places: Vec<u32>,
}

impl Guesses {
    /// No guesses. Nothing is allocated.
    pub fn new(alloc: Global) -> Self {
        Guesses {
            places: Vec::new(alloc),
        }
    }

    /// The index of a number's guess, if there are guesses.
    fn index(&self, number: u32) -> usize {
        number as usize & self.places.len().wrapping_sub(1)
    }

    /// The guessed place of a number.
    pub fn place(&self, number: u32) -> Option<usize> {
        match self.places.get(self.index(number)) {
            Some(place) => Some(*place as usize),
            None => None,
        }
    }

    /// Makes a place the guess of a number.
    pub fn keep(&mut self, number: u32, place: usize) {
        let Ok(place) = u32::try_from(place) else {
            return;
        };
        let index = self.index(number);
        if let Some(guess) = self.places.get_mut(index) {
            *guess = place;
        }
    }

    /// Makes sure that there are more guesses than numbers. `numbers` has every number with a
    /// place.
    pub fn make(&mut self, numbers: &BTreeMap<u32, usize>) -> Result<(), AllocError> {
        if numbers.len() < self.places.len() {
            return Ok(());
        }
        let Some(room) = numbers.len().saturating_add(1).checked_next_power_of_two() else {
            return Ok(());
        };
        self.places.resize(room.max(FIRST_ROOM), 0)?;
        for (number, place) in numbers.iter() {
            self.keep(*number, *place);
        }
        Ok(())
    }
}
