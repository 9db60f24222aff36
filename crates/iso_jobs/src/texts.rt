//! Complaints, and the objects that stand for messages that aren't read.

ghost use Rattle.std.specs.Prelude.{◌≡◌, ◌++◌, ℕ, List, OnOk};
ghost use Rattle.iso_jobs.specs.Complaints.{IsEndedLine};

use crate::place::Place;
use crate::refusal::Trouble;
use iso_json::{Complaint, Place as TextPlace};
use std::alloc::{AllocError, Global};

/// Appends a text and the end of its line.
fn push_line(text: &str, out: &mut Vec<u8>) -> Result<(), AllocError>
    ensures { OnOk result
        ((line : List ℕ) × IsEndedLine line × (out.new.items ≡ out.old.items ++ line)) }
{
    out.extend_from_slice(text.as_bytes())?;
    out.extend_from_slice(b"\n")
}

/// Appends the line of a complaint.
pub(crate) fn append_complaint(
    alloc: Global,
    place: Place,
    trouble: Trouble,
    out: &mut Vec<u8>,
) -> Result<(), AllocError>
    ensures { OnOk result
        ((line : List ℕ) × IsEndedLine line × (out.new.items ≡ out.old.items ++ line)) }
{
    let line = format!(in alloc; "rumpadol: {place}: {trouble}")?;
    push_line(&line, out)
}

/// Appends the line that stands before the explanation of a frame.
pub(crate) fn append_heading(
    alloc: Global,
    number: u64,
    length: usize,
    out: &mut Vec<u8>,
) -> Result<(), AllocError>
    ensures { OnOk result
        ((line : List ℕ) × IsEndedLine line × (out.new.items ≡ out.old.items ++ line)) }
{
    let line = format!(in alloc; "frame {number}, a body of {length} bytes")?;
    push_line(&line, out)
}

/// The name of what is wrong, as fault lines tell it.
fn name_of(trouble: Trouble) -> &'static str {
    match trouble {
        Trouble::Unpack(fault) => fault.cause.name(),
        Trouble::Trailing { .. } => "TrailingBytes",
        Trouble::Skipped { .. } => "Short",
        Trouble::Pack(fault) => fault.name(),
        Trouble::TooLong(_) => "TooLong",
        Trouble::BadHeader => "BadHeader",
        Trouble::CutFrame(_) => "CutFrame",
        Trouble::InputTooLong(_) => "InputTooLong",
        Trouble::Second => "Second",
        Trouble::Hex(_) => "NotHex",
    }
}

/// The members of an object that tell where a message is bad.
fn place_members(alloc: Global, trouble: Trouble) -> Result<String, AllocError> {
    match trouble {
        Trouble::Unpack(fault) => {
            let (element, at) = (fault.element, fault.at);
            format!(in alloc; ",\"element\":{element},\"offset\":{at}")
        }
        Trouble::Trailing { used, .. } => format!(in alloc; ",\"offset\":{used}"),
        _ => Ok(String::new(alloc)),
    }
}

/// Appends the line of JSON that stands for a frame that isn't read: its number, and what is wrong with it and where.
pub(crate) fn append_object(
    alloc: Global,
    number: u64,
    trouble: Trouble,
    out: &mut Vec<u8>,
) -> Result<(), AllocError>
    ensures { OnOk result
        ((line : List ℕ) × IsEndedLine line × (out.new.items ≡ out.old.items ++ line)) }
{
    let name = name_of(trouble);
    let members = place_members(alloc, trouble)?;
    let line = format!(in alloc; "{{\"frame\":{number},\"fault\":\"{name}\"{members}}}")?;
    push_line(&line, out)
}

/// The place of a complaint of a text behind so many lines, where it names a line itself.
fn behind_lines(place: TextPlace, lines: usize) -> TextPlace {
    match place {
        TextPlace::Spot { line, column } => TextPlace::Spot {
            line: line.saturating_add(lines),
            column,
        },
        TextPlace::Line(line) => TextPlace::Line(line.saturating_add(lines)),
        other => other,
    }
}

/// Appends the line of a complaint about a text that stands behind so many lines.
pub(crate) fn append_text_complaint(
    alloc: Global,
    input: &str,
    lines: usize,
    complaint: Complaint,
    out: &mut Vec<u8>,
) -> Result<(), AllocError> {
    let placed = Complaint {
        place: behind_lines(complaint.place, lines),
        ..complaint
    };
    let line = match placed.place {
        TextPlace::Spot { .. } | TextPlace::Line(_) => {
            format!(in alloc; "rumpadol: {input}: {placed}")?
        }
        _ => {
            let line = lines.saturating_add(1);
            format!(in alloc; "rumpadol: {input}: line {line}: {placed}")?
        }
    };
    push_line(&line, out)
}

/// Appends the line of a complaint about the message that stands behind so many lines.
pub(crate) fn append_line_complaint(
    alloc: Global,
    input: &str,
    lines: usize,
    trouble: Trouble,
    out: &mut Vec<u8>,
) -> Result<(), AllocError> {
    let line = lines.saturating_add(1);
    let text = format!(in alloc; "rumpadol: {input}: line {line}: {trouble}")?;
    push_line(&text, out)
}
