//! Messages that are made of the texts of an input.

ghost use Rattle.std.specs.Prelude.{◌≡◌, ◌≢◌, true, IfOk, IfSome, OnOk};
ghost use Rattle.iso_jobs.specs.Encoding.{Cuts, Takes, OutcomeUnless, Closes, target_of};
ghost use Rattle.iso_jobs.specs.Making.{MakesAll};
ghost use Rattle.iso_jobs.specs.declared.making.MakeRefusal.TheVariants.{Memory};

use crate::cutting::first_text;
use crate::fault::Stop;
use crate::form::Form;
use crate::frames::read_more;
use crate::making::{MakeRefusal, is_blank, make};
use crate::pages::Pages;
use crate::refusal::Trouble;
use crate::texts::{append_line_complaint, append_text_complaint};
use iso_input::Window;
use iso_json::Complaint;
use iso_table::Table;
use std::alloc::{AllocError, Global};
use std::io::{Read, Write};

/// What messages are made for.
#[derive(Clone, Copy)]
struct Making<'a> {
    alloc: Global,
    table: &'a Table,
    form: Form,
    /// The name of the input.
    input: &'a str,
}

/// Where the next text stands.
#[derive(Clone, Copy)]
struct Cursor {
    /// How many lines stand before it.
    lines: usize,
    /// Whether a message stands before it.
    has_message: bool,
}

/// How many ends of lines the text has.
fn count_lines(text: &[u8]) -> usize {
    let mut count: usize = 0;
    for b in text {
        if *b == b'\n' {
            count = count.saturating_add(1);
        }
    }
    count
}

/// Adds the sentences of what is wrong with a text.
fn complain_of_text(
    making: Making,
    lines: usize,
    complaints: &[Complaint],
    out: &mut Vec<u8>,
) -> Result<(), AllocError> {
    for complaint in complaints {
        append_text_complaint(making.alloc, making.input, lines, *complaint, out)?;
    }
    Ok(())
}

/// Adds the sentence of what is wrong with a message as a whole.
fn complain_of_line(
    making: Making,
    lines: usize,
    trouble: Trouble,
    pages: &mut Pages,
) -> Result<(), AllocError>
    ensures text { pages.new.text.items ≡ pages.old.text.items }
    ensures refused { pages.new.has_refused ≡ pages.old.has_refused }
{
    append_line_complaint(
        making.alloc,
        making.input,
        lines,
        trouble,
        &mut pages.complaints,
    )
}

/// Adds what is wrong with a text.
fn refuse(
    making: Making,
    lines: usize,
    refusal: MakeRefusal,
    pages: &mut Pages,
) -> Result<(), AllocError>
    ensures text { pages.new.text.items ≡ pages.old.text.items }
    ensures refused { OnOk result (pages.new.has_refused ≡ true) }
    ensures memory { OnOk result (refusal ≢ Memory) }
{
    match refusal {
        MakeRefusal::Complaints(complaints) => {
            complain_of_text(making, lines, &complaints, &mut pages.complaints)?
        }
        MakeRefusal::TooLong(length) => {
            complain_of_line(making, lines, Trouble::TooLong(length), pages)?
        }
        MakeRefusal::Memory => return Err(AllocError),
    }
    pages.has_refused = true;
    Ok(())
}

/// Appends what is made of a text, unless something was refused before it.
fn make_unless(
    making: Making,
    has_refused: bool,
    text: &[u8],
    out: &mut Vec<u8>,
) -> Result<(), MakeRefusal>
    ensures { OutcomeUnless (target_of making.entry) has_refused text.now
        (record { old = out.old.items; new = out.new.items }) result }
{
    let (alloc, table, form) = (making.alloc, making.table, making.form);
    if has_refused {
        let mut unused = Vec::new(alloc);
        return make(alloc, table, form, text, &mut unused);
    }
    make(alloc, table, form, text, out)
}

/// Adds what is made of a text that says something.
fn take_message(
    making: Making,
    cursor: &mut Cursor,
    text: &[u8],
    pages: &mut Pages,
) -> Result<(), AllocError>
    ensures { OnOk result (Takes (target_of making.entry) text.now pages.old pages.new) }
{
    if cursor.has_message && making.form.header.is_none() {
        complain_of_line(making, cursor.lines, Trouble::Second, pages)?;
        pages.has_refused = true;
        return Ok(());
    }
    cursor.has_message = true;
    match make_unless(making, pages.has_refused, text, &mut pages.text) {
        Ok(()) => Ok(()),
        Err(refusal) => refuse(making, cursor.lines, refusal, pages),
    }
}

/// Adds what is made of a text.
fn take_text(
    making: Making,
    cursor: &mut Cursor,
    text: &[u8],
    pages: &mut Pages,
) -> Result<(), AllocError>
    ensures { OnOk result (Takes (target_of making.entry) text.now pages.old pages.new) }
{
    if !is_blank(text) {
        take_message(making, cursor, text, pages)?;
    }
    cursor.lines = cursor.lines.saturating_add(count_lines(text));
    Ok(())
}

/// Takes the first text out of the held bytes, if a whole one is there, and tells whether one was.
fn step<R: Read + Drop>(
    making: Making,
    cursor: &mut Cursor,
    window: &mut Window<R>,
    pages: &mut Pages,
) -> Result<bool, Stop>
    ensures { IfOk result
        (Cuts (target_of making.entry) (record { window = window.old; pages = pages.old })
        (record { window = window.new; pages = pages.new })) }
{
    let held = window.held();
    let Some(size) = first_text(held) else {
        return Ok(false);
    };
    let (text, _) = held.split_at(size);
    take_text(making, cursor, text, pages)?;
    window.drop_front(size);
    Ok(true)
}

/// Adds what is made of the last text, and writes all of it.
fn close<O: Write, F: Write>(
    making: Making,
    cursor: &mut Cursor,
    rest: &[u8],
    pages: &mut Pages,
    output: &mut O,
    faults: &mut F,
) -> Result<bool, Stop>
    ensures { IfOk result (Closes (target_of making.entry) rest.now pages.old
        (record { old = O.contents output.old; new = O.contents output.new })) }
{
    take_text(making, cursor, rest, pages)?;
    pages.write(output, faults)?;
    Ok(!pages.has_refused)
}

/// The most bytes of one text.
const MOST_TEXT: usize = 1_048_576;

/// Where the first text stands.
const START: Cursor = Cursor {
    lines: 0,
    has_message: false,
};

/// Makes the messages of all texts of an input. What was made is written before the next block is read.
fn make_all<R: Read + Drop, O: Write, F: Write>(
    making: Making,
    input: R,
    output: &mut O,
    faults: &mut F,
) -> Result<bool, Stop>
    ensures { IfOk result (λ good. IfSome (R.remaining input)
        (λ all. MakesAll making.entry.table.now making.entry.form all
        (record { old = O.contents output.old; new = O.contents output.new }) good)) }
{
    let mut cursor = START;
    let mut window = Window::new(making.alloc, input);
    let mut pages = Pages::new(making.alloc);
    for _ in 0..u64::MAX {
        if !step(making, &mut cursor, &mut window, &mut pages)? {
            pages.write(output, faults)?;
            if window.held().len() > MOST_TEXT {
                return Err(Stop::TooLong);
            }
            if !read_more(&mut window)? {
                let rest = window.held();
                return close(making, &mut cursor, rest, &mut pages, output, faults);
            }
        }
    }
    // no input has so many texts
    Err(Stop::Read)
}

/// Makes the messages that the texts of an input say, and tells whether all of them are good. The input has a name, which
/// stands in complaints.
///
/// A text is a line of JSON, or field lines up to an empty one or one that tells how many bytes a message took. What was made
/// is written before the next block is read. From the first text on that is refused nothing more is written, and all that is
/// wrong is told. Without frames there is one message.
pub fn make_messages<R: Read + Drop, O: Write, F: Write>(
    alloc: Global,
    table: &Table,
    form: Form,
    name: &str,
    input: R,
    output: &mut O,
    faults: &mut F,
) -> Result<bool, Stop>
    // The output grows by the plain spelling of each message, in its frame, up to the first text that is refused.
    ensures made { IfOk result
        (λ good. IfSome (R.remaining input) (λ all. MakesAll table.now form all
        (record { old = O.contents output.old; new = O.contents output.new }) good)) }
{
    let making = Making {
        alloc,
        table,
        form,
        input: name,
    };
    make_all(making, input, output, faults)
}
