//! The rows of a table, one after another.

ghost use Rattle.std.specs.Prelude.{◌≡◌, ◌+◌, ◌≤◌, ◌∷◌, [], length, MatchOption};
ghost use Rattle.std.specs.Iterator.{YieldsFirstBy, item_count};
ghost use Rattle.iso_table.specs.Rows.{rows_from};

use iso_parts::FieldSpec;
use std::marker::Model;

/// The rows of a table that are still to come, in ascending order: each by its element's number and its layout.
#[derive(Debug, Drop)]
pub struct Rows<'a> {
    number: u8,
    places: &'a [Option<FieldSpec>],
}

impl<'a> Model for Rows<'a> {
    ghost use Rattle.std.specs.Prelude.{ℕ, ◌+◌, ◌≤◌, List, length};
    ghost use Rattle.iso_table.specs.declared.draft.Row.{Row};

    ghost Value = { List Row };

    ghost use Rattle.iso_table.specs.Rows.{rows_from};

    ghost view = { λ it. rows_from it.number it.places.now };

    ghost invariant = { λ it. it.number + length it.places.now ≤ 255 };
}

impl<'a> Rows<'a> {
    /// The rows at places, the first of which is that of element 0.
    pub(crate) fn of(places: &'a [Option<FieldSpec>]) -> Rows<'a>
        requires { length places.now ≤ 129 }
        ensures { result ≡ rows_from 0 places.now }
    {
        Rows { number: 0, places }
    }
}

/// The first row at places whose first one is that of element `number`, with its number and the places behind it.
fn first_row(
    mut number: u8,
    mut places: &[Option<FieldSpec>],
) -> Option<(u8, &FieldSpec, &[Option<FieldSpec>])>
    requires { number + length places.now ≤ 255 }
    ensures { MatchOption result (rows_from number places.now ≡ [])
        (λ found. (rows_from number places.now
        ≡ record { number = found.0; spec = found.1.now } ∷ rows_from (found.0 + 1) found.2.now)
        × (found.0 + 1 + length found.2.now ≤ 255)) }
{
    while let Some((place, later)) = places.split_first() {
        if let Some(spec) = place {
            return Some((number, spec, later));
        }
        number += 1;
        places = later;
    }
    None
}

impl<'a> Iterator for Rows<'a> {
    type Item = (u8, &'a FieldSpec);

    ghost next_gives = { YieldsFirstBy (λ item. record { number = item.0; spec = item.1.now }) (λ left. left) };

    ghost remaining = { item_count (λ left. left) };

    fn next(&mut self) -> Option<(u8, &'a FieldSpec)> {
        let (number, spec, later) = first_row(self.number, self.places)?;
        self.number = number + 1;
        self.places = later;
        Some((number, spec))
    }
}
