//! Guesses at the places of accounts: a table with a slot for each of some digests of their numbers. A guess may be wrong, as
//! another account's number may have that slot too, so whoever takes one looks whether it is right.

use crate::balances::Balance;
use crate::key_places::{FEWEST_SLOTS, HALF};
use iso_order::Pan;
use std::alloc::{AllocError, Global};

/// The slot of a number, of so many.
#[inline(always)]
fn slot_of(count: usize, pan: Pan) -> usize {
    let digest = pan.digits().wrapping_mul(11_400_714_819_323_198_485);
    ((digest / HALF).wrapping_mul(count as u64) / HALF) as usize
}

/// Guesses from now on that a number has this place.
fn guess(slots: &mut [usize], pan: Pan, place: usize) {
    let slot = slot_of(slots.len(), pan);
    if let Some(guessed) = slots.get_mut(slot) {
        *guessed = place;
    }
}

/// A table with four slots for each of these balances, and guesses at their places.
fn grown(alloc: Global, rows: &[Balance]) -> Result<Vec<usize>, AllocError> {
    let count = rows.len().saturating_mul(4).max(FEWEST_SLOTS);
    let mut slots = vec![in alloc; 0; count]?;
    for (place, row) in rows.iter().enumerate() {
        guess(&mut slots, row.account.pan, place);
    }
    Ok(slots)
}

/// A guess at the place of each number.
#[derive(Drop)]
pub struct Guesses {
    slots: Vec<usize>,
}

impl Guesses {
    /// No guess. Takes no memory.
    pub fn new(alloc: Global) -> Guesses {
        Guesses {
            slots: Vec::new(alloc),
        }
    }

    /// The guess at the place of a number, where there is one.
    #[inline(always)]
    pub fn at(&self, pan: Pan) -> Option<usize> {
        self.slots.get(slot_of(self.slots.len(), pan)).copied()
    }

    /// Guesses that a number has the place behind these balances, in a larger table where there are two slots or fewer for each
    /// of them.
    pub fn note(&mut self, rows: &[Balance], pan: Pan) -> Result<(), AllocError> {
        if self.slots.len() / 2 <= rows.len() {
            self.slots = grown(*self.slots.allocator(), rows)?;
        }
        guess(&mut self.slots, pan, rows.len());
        Ok(())
    }
}
