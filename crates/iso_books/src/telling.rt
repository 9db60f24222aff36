//! The entries of a journal.

ghost use Rattle.std.specs.Prelude.{◌≡◌, IfOk, IfSome};
ghost use Rattle.iso_books.specs.Condition.{IsSurveyed, condition_left};
ghost use Rattle.iso_books.specs.declared.heading.Wanted.TheVariants.{Any};

use crate::csv::push_entry_values;
use crate::fault::BooksFault;
use crate::form::Form;
use crate::heading::{Wanted, take_heading};
use crate::json::push_entry_object;
use crate::lines::push_entry_line;
use crate::steps::{Front, step};
use crate::surveying::Condition;
use crate::{csv, lines};
use iso_input::Window;
use iso_log::MOST_RECORDS;
use iso_record::Row;
use std::alloc::{AllocError, Global};
use std::io::{Read, Write};

/// So many bytes are told before they are written.
const BLOCK: usize = 65_536;

/// What stands before all entries.
fn head_of(form: Form) -> &'static str {
    match form {
        Form::Columns => lines::ENTRY_NAMES,
        Form::Json => "",
        Form::Csv => csv::ENTRY_NAMES,
    }
}

/// Appends what is told of an entry, and an end of line. The account number is in full where `is_clear`, else of 13 or more digits
/// the first six and the last four.
pub fn append_entry(
    row: &Row,
    form: Form,
    is_clear: bool,
    out: &mut Vec<u8>,
) -> Result<(), AllocError> {
    match form {
        Form::Columns => push_entry_line(is_clear, row, out),
        Form::Json => push_entry_object(is_clear, row, out),
        Form::Csv => push_entry_values(is_clear, row, out),
    }
}

/// Writes what was told, and holds nothing any more.
fn write<O: Write>(text: &mut Vec<u8>, output: &mut O) -> Result<(), BooksFault> {
    if output.write_all(text).is_err() || output.flush().is_err() {
        return Err(BooksFault::Write);
    }
    text.clear();
    Ok(())
}

/// Writes what was told, where it is much.
fn write_much<O: Write>(text: &mut Vec<u8>, output: &mut O) -> Result<(), BooksFault> {
    if text.len() < BLOCK {
        return Ok(());
    }
    write(text, output)
}

/// Tells the entries of what is left of a file, behind its heading.
fn tell_from<R: Read + Drop, O: Write>(
    window: &mut Window<R>,
    form: Form,
    is_clear: bool,
    text: &mut Vec<u8>,
    output: &mut O,
) -> Result<Condition, BooksFault>
    ensures condition { IfOk result
        (λ c. IfSome window.old.ahead (λ rest. c ≡ condition_left 0 rest)) }
{
    for count in 0..MOST_RECORDS {
        match step(window, count + 1)? {
            Front::Entry(row) => append_entry(&row, form, is_clear, text)?,
            Front::Damaged => return Ok(Condition::Damaged(count + 1)),
            Front::Clear => return Ok(Condition::Whole(count)),
            Front::Torn => return Ok(Condition::Torn(count)),
        }
        write_much(text, output)?;
    }
    // no file has so many bytes
    Err(BooksFault::Read)
}

/// Tells the entries of a journal, up to the first record that no host can have written, and what `survey` tells. Account
/// numbers are in full where `is_clear`, else of 13 or more digits the first six and the last four.
pub fn tell<R: Read + Drop, O: Write>(
    alloc: Global,
    file: R,
    form: Form,
    is_clear: bool,
    output: &mut O,
) -> Result<Condition, BooksFault>
    // Where the file's bytes are known: it begins with a journal's heading, and the answer is the
    // one that `survey` gives of it.
    ensures surveyed { IfOk result (λ c. IfSome (R.remaining file) (λ all. IsSurveyed Any all c)) }
{
    let mut window = Window::new(alloc, file);
    take_heading(&mut window, &Wanted::Any)?;
    let mut text = Vec::new(alloc);
    text.extend_from_slice(head_of(form).as_bytes())?;
    let found = tell_from(&mut window, form, is_clear, &mut text, output)?;
    write(&mut text, output)?;
    Ok(found)
}
