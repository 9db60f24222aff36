//! The rows that an issuer host needs of a table.

ghost use Rattle.std.specs.Prelude.{◌≡◌};
ghost use Rattle.std.specs.Option.{option_copied};
ghost use Rattle.iso_table.specs.Layout.{row_at};
ghost use Rattle.iso_table.specs.HostReady.{is_n, is_an, is_n_or_an, is_fixed, is_ll_or_lll, is_unpadded, is_shape, host_rows, host_row_fault, host_rows_fault};

use crate::fault::HostTableFault;
use crate::placing::row_at;
use iso_parts::{CharClass, FieldSpec, Length, Pad};

/// What a host needs of a row.
#[derive(Clone, Copy)]
pub enum Shape {
    /// So many digits.
    Digits(u16),
    /// At most so many digits, behind their length.
    DigitsUpTo(u16),
    /// So many characters, digits among them.
    Text(u16),
    /// At least one additional amount of twenty characters, behind its length.
    Amounts,
    /// At most so many characters.
    AnyUpTo(u16),
}

use Shape::{Amounts, AnyUpTo, Digits, DigitsUpTo, Text};

/// An element of requests and responses, whether it needs a row, and the row's shape.
#[derive(Clone, Copy)]
pub struct HostRow {
    number: u8,
    needed: bool,
    shape: Shape,
}

/// An element, whether it needs a row, and the row's shape.
macro_rules! host_row {
    ($number:literal, $needed:literal, $shape:expr) => {
        HostRow {
            number: $number,
            needed: $needed,
            shape: $shape,
        }
    };
}

/// The elements of requests and responses whose rows are judged.
const HOST_ROWS: [HostRow; 18] = [
    host_row!(2, true, DigitsUpTo(19)),
    host_row!(3, true, Digits(6)),
    host_row!(4, true, Digits(12)),
    host_row!(7, true, Digits(10)),
    host_row!(11, true, Digits(6)),
    host_row!(12, false, AnyUpTo(99)),
    host_row!(13, false, AnyUpTo(99)),
    host_row!(32, true, DigitsUpTo(11)),
    host_row!(33, false, AnyUpTo(99)),
    host_row!(37, false, AnyUpTo(99)),
    host_row!(38, true, Text(6)),
    host_row!(39, true, Text(2)),
    host_row!(41, false, AnyUpTo(99)),
    host_row!(42, false, AnyUpTo(99)),
    host_row!(49, true, Text(3)),
    host_row!(54, true, Amounts),
    host_row!(70, true, Digits(3)),
    host_row!(90, true, Digits(42)),
];

fn is_n(class: CharClass) -> bool
    ensures { result ≡ is_n class }
{
    class == CharClass::N
}

fn is_an(class: CharClass) -> bool
    ensures { result ≡ is_an class }
{
    matches!(class, CharClass::AN | CharClass::ANS)
}

fn is_n_or_an(class: CharClass) -> bool
    ensures { result ≡ is_n_or_an class }
{
    matches!(class, CharClass::N | CharClass::AN | CharClass::ANS)
}

fn is_fixed(length: Length) -> bool
    ensures { result ≡ is_fixed length }
{
    length == Length::Fixed
}

fn is_ll_or_lll(length: Length) -> bool
    ensures { result ≡ is_ll_or_lll length }
{
    matches!(length, Length::LL(_) | Length::LLL(_))
}

fn is_unpadded(pad: Pad) -> bool
    ensures { result ≡ is_unpadded pad }
{
    pad == Pad::None
}

impl Shape {
    fn takes(self, row: &FieldSpec) -> bool
        ensures { result ≡ is_shape self row.now }
    {
        let FieldSpec {
            class,
            length,
            max,
            pad,
            ..
        } = *row;
        match self {
            Digits(n) => is_n(class) && is_fixed(length) && max == n && is_unpadded(pad),
            DigitsUpTo(n) => is_n(class) && is_ll_or_lll(length) && max <= n && is_unpadded(pad),
            Text(n) => is_n_or_an(class) && is_fixed(length) && max == n && is_unpadded(pad),
            Amounts => is_an(class) && is_ll_or_lll(length) && 20 <= max && is_unpadded(pad),
            AnyUpTo(n) => max <= n,
        }
    }
}

impl HostRow {
    /// What is wrong with the element's row, if anything.
    fn fault(self, row: Option<&FieldSpec>) -> Option<HostTableFault>
        ensures { result ≡ host_row_fault self (option_copied row.entry) }
    {
        match row {
            None if self.needed => Some(HostTableFault::NoRow(self.number)),
            None => None,
            Some(row) if self.shape.takes(row) => None,
            Some(_) => Some(HostTableFault::RowShape(self.number)),
        }
    }
}

/// The first thing that is wrong among the rows.
fn fault_among(wanted: &[HostRow], places: &[Option<FieldSpec>]) -> Option<HostTableFault>
    ensures { result ≡ host_rows_fault wanted.now places.now }
{
    for row in wanted {
        if let Some(fault) = row.fault(row_at(places, usize::from(row.number))) {
            return Some(fault);
        }
    }
    None
}

/// The first thing that is wrong with the rows that a host needs, in ascending number.
pub fn host_rows_fault(places: &[Option<FieldSpec>]) -> Option<HostTableFault>
    ensures { result ≡ host_rows_fault host_rows places.now }
{
    fault_among(&HOST_ROWS, places)
}
