//! The elements of a message that lies in the caller's bytes, one after another.

ghost use Rattle.std.specs.Prelude.{◌≡◌, length};
ghost use Rattle.std.specs.Iterator.{YieldsFirstBy, item_count};
ghost use Rattle.iso_parts.specs.Numbers.{members};
ghost use Rattle.iso_wire.specs.Bodies.{wires_in, AreWithin};

use crate::bodies::Bodies;
use iso_parts::Bitmap;
use std::marker::Model;

/// The elements of a viewed message that are still to come, in ascending order: each by its number and its body as it
/// lies in the bytes, behind its length and with its padding.
#[derive(Drop)]
pub struct ViewIter<'v, 'a> {
    numbers: Bitmap,
    bodies: &'v Bodies,
    bytes: &'a [u8],
}

impl<'v, 'a> Model for ViewIter<'v, 'a> {
    ghost use Rattle.std.specs.Prelude.{ℕ, List, length};
    ghost use Rattle.iso_parts.specs.Numbers.{members};
    ghost use Rattle.iso_wire.specs.Bodies.{wires_in, AreWithin};

    ghost Value = { List (ℕ × List ℕ) };

    ghost view = { λ it. wires_in it.bytes.now it.bodies.now (members it.numbers) };

    ghost invariant = { λ it. AreWithin (length it.bytes.now) it.bodies.now (members it.numbers) };
}

impl<'v, 'a> ViewIter<'v, 'a> {
    /// Those with these numbers.
    pub(crate) fn of(numbers: Bitmap, bodies: &'v Bodies, bytes: &'a [u8]) -> ViewIter<'v, 'a>
        requires { AreWithin (length bytes.now) bodies.now (members numbers) }
        ensures { result ≡ wires_in bytes.now bodies.now (members numbers) }
    {
        ViewIter {
            numbers,
            bodies,
            bytes,
        }
    }
}

impl<'v, 'a> Iterator for ViewIter<'v, 'a> {
    type Item = (u8, &'a [u8]);

    ghost next_gives = { YieldsFirstBy (λ item. (item.0, item.1.now)) (λ left. left) };

    ghost remaining = { item_count (λ left. left) };

    fn next(&mut self) -> Option<(u8, &'a [u8])> {
        let n = self.numbers.take_first()?;
        let start = self.bodies.starts[n as usize] as usize;
        let size = self.bodies.sizes[n as usize] as usize;
        Some((n, &self.bytes[start..start + size]))
    }
}
