//! Rows at their numbers.

ghost use Rattle.std.specs.Prelude.{◌≡◌, ◌≢◌, ◌≤◌, ◌<◌, []};
ghost use Rattle.std.specs.Prelude.{ℕ, IsTrue, IfOk, IfErr, OnOk, OnErr, None, Some, length, is_some, slice_set, slice_get};
ghost use Rattle.std.specs.Option.{option_copied};
ghost use Rattle.iso_parts.specs.Numbers.{is_element};
ghost use Rattle.iso_parts.specs.Bitmap.{contains};
ghost use Rattle.iso_parts.specs.declared.spec.FieldSpec.{FieldSpec};
ghost use Rattle.iso_table.specs.Layout.{is_version, row_at, Knows};
ghost use Rattle.iso_table.specs.Accepted.{row_fault, rows_fault, row_of};

use crate::draft::Row;
use crate::fault::TableFault;
use iso_parts::raw::PLACES;
use iso_parts::{Bitmap, FieldSpec, is_element};

/// Whether there are tables of the version.
pub fn is_version(version: u8) -> bool
    // There are tables of the versions 0, 1, 2 and 9, and of no other.
    ensures { result ≡ is_version version }
{
    matches!(version, 0 | 1 | 2 | 9)
}

/// The first fault of a row whose number stood earlier, or did not.
fn fault_of(row: &Row, is_used: bool) -> Option<TableFault>
    ensures { result ≡ row_fault is_used row.now }
{
    if !is_element(row.number) {
        return Some(TableFault::BadNumber(row.number));
    }
    if is_used {
        return Some(TableFault::Twice(row.number));
    }
    match row.spec.good() {
        Ok(()) => None,
        Err(fault) => Some(TableFault::of_row(row.number, fault)),
    }
}

/// The row at a place, if there is such a place and it has a row.
pub fn row_at(places: &[Option<FieldSpec>], number: usize) -> Option<&FieldSpec>
    ensures { option_copied result ≡ row_at places.now number }
{
    places.get(number)?.as_ref()
}

/// Puts a row at its number.
fn put_at_number(places: &mut [Option<FieldSpec>], row: &Row) -> Result<(), TableFault>
    requires { length places.old ≡ 129 }
    ensures ok { OnOk result
        (places.new ≡ slice_set places.old row.now.number (Some row.now.spec)) }
    ensures good { OnOk result
        (row_fault (is_some (row_at places.old row.now.number)) row.now ≡ None) }
    ensures fault { IfErr result
        (λ e. row_fault (is_some (row_at places.old row.now.number)) row.now ≡ Some e) }
{
    let is_used = row_at(places, usize::from(row.number)).is_some();
    if let Some(fault) = fault_of(row, is_used) {
        return Err(fault);
    }
    places[usize::from(row.number)] = Some(row.spec);
    Ok(())
}

/// The rows at their numbers, or the first fault among them.
pub fn places_of(rows: &[Row]) -> Result<[Option<FieldSpec>; PLACES], TableFault>
    // At `Ok` there is a place for each number from 0 to 128.
    ensures size { IfOk result (λ places. length places ≡ 129) }
    // At `Ok` each place has the row with its number, and none where no row has that number.
    ensures rows { IfOk result (λ places. (n : ℕ) → row_at places n ≡ row_of rows.now n) }
    // `Ok` comes only where nothing is wrong with any row.
    ensures good { OnOk result (rows_fault [] rows.now ≡ None) }
    // A fault tells the first thing that is wrong, row by row: a number that no element may have,
    // one that stood earlier, or a row that isn't good.
    ensures fault { IfErr result (λ e. rows_fault [] rows.now ≡ Some e) }
{
    let mut places = [None; PLACES];
    for row in rows {
        put_at_number(&mut places, row)?;
    }
    Ok(places)
}

/// The numbers that have a row.
pub fn known_in(places: &[Option<FieldSpec>]) -> Bitmap
    // Rows stand only at the numbers of elements.
    requires { (n : ℕ) (s : FieldSpec) → row_at places.now n ≡ Some s → IsTrue (is_element n) }
    ensures { Knows (contains result) places.now }
{
    let mut known = Bitmap::new();
    for number in 0..PLACES {
        if row_at(places, number).is_some() {
            known.set(number as u8);
        }
    }
    known
}
