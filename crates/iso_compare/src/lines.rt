//! Differences as lines of text.

ghost use Rattle.std.specs.Prelude.{◌≡◌, IfOk, OnErr, map};
ghost use Rattle.iso_parts.specs.Buffers.{Keeps};
ghost use Rattle.iso_compare.specs.Tallying.{Counts};

use crate::comparison::{Comparison, Side, compare_frames};
use crate::difference::Difference;
use crate::reading::NoMessage;
use crate::tally::Tally;
use crate::telling::Telling;
use iso_table::NoMemory;
use iso_wire::{Message, describe, describe_clear, unpack};
use std::alloc::{AllocError, Global};

/// The message with one of its elements alone, as a description shows it.
fn described(
    alloc: Global,
    telling: Telling<'_>,
    message: &Message,
    n: u8,
    value: &[u8],
) -> Result<Vec<u8>, NoMemory> {
    let mut part = Message::new(alloc, message.mti());
    if part.set(n, value).is_err() {
        return Err(NoMemory);
    }
    if telling.is_clear {
        Ok(describe_clear(alloc, telling.table, &part)?)
    } else {
        Ok(describe(alloc, telling.table, &part)?)
    }
}

/// What a description shows of a value: of its lines, that of the type and `DE039=00`, what stands behind the second sign `=`.
fn shown_in(lines: &[u8]) -> &[u8] {
    let mut parts = lines.splitn(3, |b| *b == b'=');
    match parts.nth(2) {
        Some([shown @ .., b'\n']) => shown,
        _ => &[],
    }
}

/// Appends the value of an element as a description shows it, or that there is none.
fn push_value(
    alloc: Global,
    telling: Telling<'_>,
    message: &Message,
    n: u8,
    out: &mut Vec<u8>,
) -> Result<(), NoMemory> {
    match message.get(n) {
        Some(value) => {
            let lines = described(alloc, telling, message, n, value)?;
            out.extend_from_slice(shown_in(&lines))?;
        }
        None => out.extend_from_slice(b"nothing")?,
    }
    Ok(())
}

/// Appends the line of an element at which two messages differ.
fn push_element(
    alloc: Global,
    telling: Telling<'_>,
    number: usize,
    n: u8,
    expected: &Message,
    came: &Message,
    out: &mut Vec<u8>,
) -> Result<(), NoMemory> {
    let head = match telling.names.of(n) {
        Some(name) => format!(in alloc; "frame {number}: element {n} ({name}): expected ")?,
        None => format!(in alloc; "frame {number}: element {n}: expected ")?,
    };
    out.extend_from_slice(head.as_bytes())?;
    push_value(alloc, telling, expected, n, out)?;
    out.extend_from_slice(b", came ")?;
    push_value(alloc, telling, came, n, out)?;
    out.extend_from_slice(b"\n")?;
    Ok(())
}

/// Appends a line.
fn push_line(line: &str, out: &mut Vec<u8>) -> Result<(), AllocError> {
    out.extend_from_slice(line.as_bytes())?;
    out.extend_from_slice(b"\n")
}

/// Appends a line for each part in which two messages differ.
fn push_parts(
    alloc: Global,
    telling: Telling<'_>,
    number: usize,
    difference: Difference,
    expected: &Message,
    came: &Message,
    out: &mut Vec<u8>,
) -> Result<(), NoMemory> {
    if difference.is_other_type {
        let (wanted, given) = (expected.mti(), came.mti());
        let line = format!(in alloc; "frame {number}: the type: expected {wanted}, came {given}")?;
        push_line(&line, out)?;
    }
    for n in difference.elements {
        push_element(alloc, telling, number, n, expected, came, out)?;
    }
    if difference.is_none() {
        let line = format!(in alloc; "frame {number}: the same message in other bytes")?;
        push_line(&line, out)?;
    }
    Ok(())
}

/// Appends the line of bytes that are no message.
fn push_unreadable(
    alloc: Global,
    number: usize,
    side: Side,
    why: NoMessage,
    out: &mut Vec<u8>,
) -> Result<(), NoMemory> {
    let which = match side {
        Side::Expected => "what is expected",
        Side::Came => "what came",
    };
    let line = format!(in alloc; "frame {number}: {which} is no message: {why}")?;
    push_line(&line, out)?;
    Ok(())
}

/// Appends what is told of a body beside the one that was expected.
fn push_frame(
    alloc: Global,
    telling: Telling<'_>,
    number: usize,
    expected: &[u8],
    came: &[u8],
    out: &mut Vec<u8>,
) -> Result<(), NoMemory> {
    match compare_frames(alloc, telling.table, expected, came)? {
        Comparison::Same => Ok(()),
        Comparison::Unreadable(side, why) => push_unreadable(alloc, number, side, why, out),
        Comparison::Differ(difference) => {
            // both were read just now, so that only want of memory is left
            let (Ok((wanted, _)), Ok((given, _))) = (
                unpack(alloc, telling.table, expected),
                unpack(alloc, telling.table, came),
            ) else {
                return Err(NoMemory);
            };
            push_parts(alloc, telling, number, difference, &wanted, &given, out)
        }
    }
}

/// Appends a line for frames of which there are too few or too many.
fn push_range(
    alloc: Global,
    first: usize,
    count: usize,
    what: &str,
    out: &mut Vec<u8>,
) -> Result<(), NoMemory> {
    let last = first.saturating_add(count);
    let first = first.saturating_add(1);
    let line = match count {
        0 => return Ok(()),
        1 => format!(in alloc; "frame {first}: {what}")?,
        _ => format!(in alloc; "frames {first} to {last}: {what}")?,
    };
    push_line(&line, out)?;
    Ok(())
}

/// Appends the last line: how many answers are as expected.
fn push_summary(alloc: Global, tally: Tally, out: &mut Vec<u8>) -> Result<(), NoMemory> {
    let (compared, same, differ) = (tally.compared, tally.same, tally.differ());
    let (answers, verb) = (
        if compared == 1 { "answer" } else { "answers" },
        if differ == 1 { "differs" } else { "differ" },
    );
    let line = format!(in alloc;
        "{compared} {answers} compared, {same} the same, {differ} {verb}"
    )?;
    out.extend_from_slice(line.as_bytes())?;
    if tally.missing > 0 {
        let missing = tally.missing;
        let line = format!(in alloc; ", {missing} didn't come")?;
        out.extend_from_slice(line.as_bytes())?;
    }
    if tally.beyond > 0 {
        let beyond = tally.beyond;
        let line = format!(in alloc; ", {beyond} came beyond them")?;
        out.extend_from_slice(line.as_bytes())?;
    }
    out.extend_from_slice(b"\n")?;
    Ok(())
}

/// The lines of what isn't as expected, and the last one.
fn lines_of(
    alloc: Global,
    telling: Telling<'_>,
    expected: &[&[u8]],
    came: &[&[u8]],
    tally: Tally,
) -> Result<Vec<u8>, NoMemory> {
    let mut lines = Vec::new(alloc);
    for (place, (wanted, given)) in expected.iter().zip(came).enumerate() {
        let number = place.saturating_add(1);
        push_frame(alloc, telling, number, wanted, given, &mut lines)?;
    }
    let what = "expected, and didn't come";
    push_range(alloc, tally.compared, tally.missing, what, &mut lines)?;
    let what = "came, and none was expected";
    push_range(alloc, tally.compared, tally.beyond, what, &mut lines)?;
    push_summary(alloc, tally, &mut lines)?;
    Ok(lines)
}

/// Appends a line for each part in which the bodies that came differ from those that were expected, each compared with the one
/// at its place, as `frame 3: element 39 (Response code): expected 00, came 05`; then a line for those that didn't come or came
/// beyond; and last how many are as expected. Unless it is to be clear, card data are stars. Gives what was counted.
///
/// Without memory nothing is appended.
pub fn append_differences(
    alloc: Global,
    telling: Telling<'_>,
    expected: &[&[u8]],
    came: &[&[u8]],
    out: &mut Vec<u8>,
) -> Result<Tally, NoMemory>
    // Memory aside, the answer counts as `Tally::of` does: the places that were compared, those
    // with the same bytes, and what is missing or came beyond.
    ensures counts { IfOk result
        (Counts (map (λ b. b.now) expected.now) (map (λ b. b.now) came.now)) }
    // What was there stays in front.
    ensures kept { Keeps out.old.items out.new.items }
    // Without memory the buffer holds what it held before.
    ensures unchanged { OnErr result (out.new.items ≡ out.old.items) }
{
    let tally = Tally::of(expected, came);
    let lines = lines_of(alloc, telling, expected, came, tally)?;
    out.extend_from_slice(&lines)?;
    Ok(tally)
}
