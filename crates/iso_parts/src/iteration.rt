//! The numbers of a bitmap, one after another.

ghost use Rattle.std.specs.Prelude.{◌≡◌};
ghost use Rattle.std.specs.Iterator.{YieldsFirst, item_count};
ghost use Rattle.iso_parts.specs.Numbers.{members};

use crate::bitmap::Bitmap;
use std::marker::Model;

/// The numbers of a bitmap that are still to come, in ascending order.
#[derive(Debug, Drop)]
pub struct BitmapIter {
    rest: Bitmap,
}

impl Model for BitmapIter {
    ghost use Rattle.std.specs.Prelude.{ℕ, List};

    ghost Value = { List ℕ };

    ghost use Rattle.iso_parts.specs.Numbers.{members};

    ghost view = { λ it. members it.rest };
}

impl Iterator for BitmapIter {
    type Item = u8;

    ghost next_gives = { YieldsFirst (λ left. left) };

    ghost remaining = { item_count (λ left. left) };

    fn next(&mut self) -> Option<u8> {
        self.rest.take_first()
    }
}

impl ExactSizeIterator for BitmapIter {
    fn len(&self) -> usize {
        self.rest.count()
    }
}

impl Bitmap {
    /// The numbers of the set, in ascending order. Takes no memory.
    pub fn iter(&self) -> BitmapIter
        ensures { result ≡ members self.now }
    {
        BitmapIter { rest: *self }
    }
}

/// As [`Bitmap::iter`].
impl IntoIterator for Bitmap {
    type Item = u8;

    type IntoIter = BitmapIter;

    ghost into_iter_gives = { λ set it. it ≡ members set };

    fn into_iter(self) -> BitmapIter {
        self.iter()
    }
}

/// As [`Bitmap::iter`].
impl IntoIterator for &Bitmap {
    type Item = u8;

    type IntoIter = BitmapIter;

    ghost into_iter_gives = { λ set it. it ≡ members set.now };

    fn into_iter(self) -> BitmapIter {
        self.iter()
    }
}
