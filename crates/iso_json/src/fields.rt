//! A message as field lines: its type and each element on a line of its own, as a description in clear shows them.

ghost use Rattle.std.specs.Prelude.{◌≡◌, ◌<◌, ◌≤◌, ◌++◌, length, IfOk, OnOk, OnErr};
ghost use Rattle.iso_wire.specs.Describing.{description};

use crate::complaint::{Complaint, Place, Refusal, Trouble};
use crate::entries::{complain, complain_of, put_value};
use crate::reading::{NO_TYPE, type_in, unless_wrong};
use crate::values::{Stop, number_of, value_of};
use iso_parts::{Bitmap, Mti};
use iso_table::{NoMemory, Table};
use iso_wire::{Message, are_digits, describe, describe_clear};
use std::alloc::{AllocError, Global};

/// The description of a message, with every value in full if it is to be clear.
fn lines_of(
    alloc: Global,
    table: &Table,
    message: &Message,
    clear: bool,
) -> Result<Vec<u8>, AllocError>
    ensures { IfOk result (λ lines. lines.items ≡ description clear table.now message.now) }
{
    if clear {
        return describe_clear(alloc, table, message);
    }
    describe(alloc, table, message)
}

/// Appends a message as field lines, each with its line end: the description of `iso_wire`, with every value in full if it
/// is to be clear. Where memory runs out, nothing is changed.
pub fn append_fields(
    alloc: Global,
    table: &Table,
    message: &Message,
    clear: bool,
    out: &mut Vec<u8>,
) -> Result<(), NoMemory>
    // Memory aside, it appends the lines of `describe`, or in clear those of `describe_clear`.
    ensures appended { OnOk result
        (out.new.items ≡ out.old.items ++ description clear table.now message.now) }
    // Where memory runs out, the buffer holds the bytes that it held before.
    ensures unchanged { OnErr result (out.new.items ≡ out.old.items) }
{
    let lines = lines_of(alloc, table, message, clear)?;
    out.extend_from_slice(&lines)?;
    Ok(())
}

/// The line without the carriage return that some systems end it with.
fn without_return(line: &[u8]) -> &[u8] {
    match line {
        [front @ .., b'\r'] => front,
        _ => line,
    }
}

/// The first line without its end, and what stands behind it.
fn first_line(text: &[u8]) -> (&[u8], &[u8])
    ensures shorter { 0 < length text.now → length result.1.now < length text.now }
{
    match text.iter().position(|b| *b == b'\n') {
        Some(at) => (without_return(&text[..at]), &text[at + 1..]),
        None => (without_return(text), &text[text.len()..]),
    }
}

/// Whether the line ends a message: an empty one, or one that tells how many bytes it took.
fn is_end(line: &[u8]) -> bool {
    line.is_empty() || line.starts_with(b"USED=")
}

/// The first message of a stream of field lines with the line that ends it, an empty one or one that begins with `USED=`,
/// and what stands behind it. Takes no memory.
pub fn split_fields(text: &[u8]) -> (&[u8], &[u8])
    // Both parts, one behind the other, are the whole text.
    ensures { result.0.now ++ result.1.now ≡ text.now }
{
    let mut rest = text;
    while !rest.is_empty() {
        let (line, behind) = first_line(rest);
        rest = behind;
        if is_end(line) {
            break;
        }
    }
    text.split_at(text.len() - rest.len())
}

/// What a line says.
#[derive(Clone, Copy)]
enum Said<'a> {
    /// The type, by its digits and perhaps words.
    Type(&'a [u8]),
    /// An element, by the text of its number and that of its value.
    Element(&'a [u8], &'a [u8]),
    /// The message has ended.
    End,
    /// The line is none of a message.
    Unknown,
}

/// What stands before the first `=` of a line, and what behind it.
fn around_equals(line: &[u8]) -> Option<(&[u8], &[u8])> {
    let at = line.iter().position(|b| *b == b'=')?;
    Some((&line[..at], &line[at + 1..]))
}

/// The number's text, without `DE` before it.
fn without_prefix(key: &[u8]) -> &[u8] {
    match key.strip_prefix(b"DE") {
        Some(number) => number,
        None => key,
    }
}

/// What stands before the first tab. Behind it stands the name of an element.
fn before_tab(value: &[u8]) -> &[u8] {
    match value.iter().position(|b| *b == b'\t') {
        Some(at) => &value[..at],
        None => value,
    }
}

/// What a line says.
fn said_by(line: &[u8]) -> Said<'_> {
    if is_end(line) {
        return Said::End;
    }
    match around_equals(line) {
        Some((b"MTI", text)) => Said::Type(text),
        Some((key, value)) => Said::Element(without_prefix(key), before_tab(value)),
        None => Said::Unknown,
    }
}

/// The type that the text of its line writes: four digits, and perhaps the words that a description has for them.
fn type_of(alloc: Global, table: &Table, text: &[u8]) -> Result<Mti, Stop> {
    let (digits, words) = text.split_at(text.len().min(4));
    let mti = match type_in(table, digits) {
        Ok(mti) => mti,
        Err(trouble) => return Err(Stop::Refused(trouble)),
    };
    if words.is_empty() || has_words(alloc, table, mti, text)? {
        Ok(mti)
    } else {
        Err(Stop::Refused(Trouble::BadWords))
    }
}

/// Whether the text is what a description has behind `MTI=` for the type.
fn has_words(alloc: Global, table: &Table, mti: Mti, text: &[u8]) -> Result<bool, AllocError> {
    let line = describe(alloc, table, &Message::new(alloc, mti))?;
    Ok(line.len() == text.len() + 5 && line[4..].starts_with(text))
}

/// The first line that says a type: its place, and the type or why it is refused.
fn first_type(alloc: Global, table: &Table, text: &[u8]) -> (Place, Result<Mti, Stop>) {
    let mut rest = text;
    let mut at = 0usize;
    while !rest.is_empty() {
        let (line, behind) = first_line(rest);
        rest = behind;
        at = at.saturating_add(1);
        if let Said::Type(text) = said_by(line) {
            return (Place::Line(at), type_of(alloc, table, text));
        }
    }
    (Place::Whole, Err(Stop::Refused(Trouble::NoMti)))
}

/// The lines that were read.
#[derive(Drop)]
struct Lines<'a> {
    table: &'a Table,
    message: Message,
    complaints: Vec<Complaint>,
    has_type: bool,
    seen: Bitmap,
    has_ended: bool,
}

/// Why a line other than that of an element is refused, if it is.
fn line_trouble(lines: &Lines<'_>, said: Said<'_>) -> Option<Trouble> {
    if lines.has_ended {
        return match said {
            Said::End => None,
            _ => Some(Trouble::BehindEnd),
        };
    }
    match said {
        Said::Type(_) if lines.has_type => Some(Trouble::Twice),
        Said::Element(key, _) if number_of(key).is_none() => {
            Some(if are_digits(key, 1, 3) {
                Trouble::BadNumber
            } else {
                Trouble::UnknownLine
            })
        }
        Said::Unknown => Some(Trouble::UnknownLine),
        _ => None,
    }
}

/// The value that an element's line says.
fn line_value(
    alloc: Global,
    table: &Table,
    seen: &Bitmap,
    n: u8,
    text: &[u8],
) -> Result<Vec<u8>, Stop> {
    if seen.has(n) {
        return Err(Stop::Refused(Trouble::Twice));
    }
    value_of(alloc, table, n, text)
}

impl<'a> Lines<'a> {
    /// None yet, of a message of this type.
    fn new(alloc: Global, table: &'a Table, mti: Mti, complaints: Vec<Complaint>) -> Lines<'a> {
        Lines {
            table,
            message: Message::new(alloc, mti),
            complaints,
            has_type: false,
            seen: Bitmap::new(),
            has_ended: false,
        }
    }

    /// Reads a line that isn't refused as a whole.
    fn take(&mut self, alloc: Global, place: Place, said: Said<'_>) -> Result<(), AllocError> {
        match said {
            Said::Type(_) => self.has_type = true,
            Said::End => self.has_ended = true,
            Said::Element(key, text) => {
                if let Some(n) = number_of(key) {
                    match line_value(alloc, self.table, &self.seen, n, text) {
                        Ok(value) => put_value(n, &value, &mut self.message)?,
                        Err(Stop::Refused(trouble)) => {
                            complain_of(place, n, trouble, &mut self.complaints)?
                        }
                        Err(Stop::Memory) => return Err(AllocError),
                    }
                    self.seen.set(n);
                }
            }
            Said::Unknown => {}
        }
        Ok(())
    }

    /// Reads one line.
    fn read(&mut self, alloc: Global, place: Place, line: &[u8]) -> Result<(), AllocError> {
        let said = said_by(line);
        match line_trouble(self, said) {
            Some(trouble) => complain(place, trouble, &mut self.complaints),
            None => self.take(alloc, place, said),
        }
    }
}

/// Reads the lines of a message whose type is known, or refused.
fn read_lines(
    alloc: Global,
    table: &Table,
    mti: Mti,
    complaints: Vec<Complaint>,
    text: &[u8],
) -> Result<Message, Refusal> {
    let mut lines = Lines::new(alloc, table, mti, complaints);
    let mut rest = text;
    let mut at = 0usize;
    while !rest.is_empty() {
        let (line, behind) = first_line(rest);
        rest = behind;
        at = at.saturating_add(1);
        lines.read(alloc, Place::Line(at), line)?;
    }
    let Lines {
        message,
        complaints,
        ..
    } = lines;
    unless_wrong(message, complaints)
}

/// The message of field lines: `MTI=` and four digits, perhaps with the words that a description has for them; and for each
/// element a line of `DE`, its number, `=` and its value. The `DE` and leading zeros of the number may be left out. A value
/// of class `B` is text of hexadecimal digits, any other its characters. What stands behind a tab is the element's name, and
/// isn't read. A line that is empty or begins with `USED=` ends the message.
///
/// Else all that is wrong, each with its line: first the type, and then line by line what [`read_json`] tells of an element,
/// a line that is none of these, a second type, and anything behind the end. Nothing is dropped silently.
///
/// [`read_json`]: crate::read_json
pub fn read_fields(alloc: Global, table: &Table, text: &[u8]) -> Result<Message, Refusal> {
    let mut complaints = Vec::new(alloc);
    let (place, found) = first_type(alloc, table, text);
    let mti = match found {
        Ok(mti) => mti,
        Err(Stop::Refused(trouble)) => {
            complain(place, trouble, &mut complaints)?;
            NO_TYPE
        }
        Err(Stop::Memory) => return Err(Refusal::Memory),
    };
    read_lines(alloc, table, mti, complaints, text)
}
