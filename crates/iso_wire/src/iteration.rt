//! The elements of a message, one after another.

ghost use Rattle.std.specs.Prelude.{◌≡◌};
ghost use Rattle.std.specs.Iterator.{YieldsFirstBy, item_count};
ghost use Rattle.iso_wire.specs.Ends.{views, IsWhole};

use crate::elements::Elements;
use iso_parts::Bitmap;
use std::marker::Model;

/// The elements of a message that are still to come, in ascending order: each by its number and its value.
#[derive(Drop)]
pub struct Iter<'a> {
    numbers: Bitmap,
    start: usize,
    ends: &'a [usize],
    values: &'a [u8],
}

impl<'a> Model for Iter<'a> {
    ghost use Rattle.std.specs.Prelude.{◌≡◌, ℕ, List, length};

    ghost Value = { List (ℕ × List ℕ) };

    ghost use Rattle.iso_parts.specs.Numbers.{members};
    ghost use Rattle.iso_wire.specs.Ends.{elements_of, Ascend};

    ghost view = { λ it. elements_of (members it.numbers) it.start it.ends.now it.values.now };

    ghost invariant = { λ it. Ascend it.start it.ends.now (length it.values.now)
        × (length it.ends.now ≡ length (members it.numbers)) };
}

impl<'a> Iter<'a> {
    /// All elements.
    pub(crate) fn of(elements: &'a Elements) -> Iter<'a>
        requires { IsWhole elements.now }
        ensures { result ≡ views elements.now }
    {
        Iter {
            numbers: elements.numbers,
            start: 0,
            ends: &elements.ends,
            values: &elements.values,
        }
    }
}

impl<'a> Iterator for Iter<'a> {
    type Item = (u8, &'a [u8]);

    ghost next_gives = { YieldsFirstBy (λ item. (item.0, item.1.now)) (λ left. left) };

    ghost remaining = { item_count (λ left. left) };

    fn next(&mut self) -> Option<(u8, &'a [u8])> {
        let (end, later) = self.ends.split_first()?;
        let n = self.numbers.take_first()?;
        let value = &self.values[self.start..*end];
        self.start = *end;
        self.ends = later;
        Some((n, value))
    }
}
