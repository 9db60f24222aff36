//! The entries of a journal's file, one after another.

ghost use Rattle.std.specs.Prelude.{◌≡◌, IfErr, IfOk};
ghost use Rattle.iso_books.specs.Fault.{IsPlain};
ghost use Rattle.iso_books.specs.Rows.{Steps, end_front, row_at};

use crate::fault::BooksFault;
use crate::records::{first_record, is_clear};
use iso_input::Window;
use iso_log::RECORD;
use iso_record::{Row, read_row};
use std::io::Read;

/// What stands at the front of what is left of a file.
pub(crate) enum Front {
    /// The record of an order, which was let go.
    Entry(Row),
    /// A record that no host can have written there.
    Damaged,
    /// No record, and only zeros.
    Clear,
    /// No record, and what a crash left of one.
    Torn,
}

/// The row that a record is, if it tells this place.
fn row_at(place: usize, bytes: &[u8; RECORD]) -> Option<Row>
    ensures { result ≡ row_at place bytes.now }
{
    match read_row(bytes) {
        Some(row) if row.answer.seq as usize == place => Some(row),
        Some(_) | None => None,
    }
}

/// The end of the records.
fn end_front(clear: bool) -> Front
    ensures { result ≡ end_front clear }
{
    if clear { Front::Clear } else { Front::Torn }
}

/// Takes the entry at the front of what is left of a file, which has this place.
pub(crate) fn step<R: Read + Drop>(
    window: &mut Window<R>,
    place: usize,
) -> Result<Front, BooksFault>
    ensures steps { IfOk result (λ front. Steps place front window.old.ahead window.new.ahead) }
    ensures fault { IfErr result IsPlain }
{
    let Some(bytes) = first_record(window)? else {
        let clear = is_clear(window)?;
        return Ok(end_front(clear));
    };
    let Some(row) = row_at(place, &bytes) else {
        return Ok(Front::Damaged);
    };
    window.drop_front(RECORD);
    Ok(Front::Entry(row))
}
