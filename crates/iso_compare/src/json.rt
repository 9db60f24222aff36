//! Differences as lines of JSON.

ghost use Rattle.std.specs.Prelude.{◌≡◌, IfOk, OnErr, map};
ghost use Rattle.iso_parts.specs.Buffers.{Keeps};
ghost use Rattle.iso_compare.specs.Tallying.{Counts};

use crate::comparison::{Comparison, Side, compare_frames};
use crate::difference::Difference;
use crate::reading::NoMessage;
use crate::tally::Tally;
use crate::telling::Telling;
use iso_json::append_json;
use iso_parts::Bitmap;
use iso_table::NoMemory;
use iso_wire::{Message, unpack};
use std::alloc::Global;

/// A message with some of its elements alone.
fn part_of(alloc: Global, message: &Message, elements: Bitmap) -> Result<Message, NoMemory> {
    let mut part = Message::new(alloc, message.mti());
    for n in elements {
        if let Some(value) = message.get(n)
            && part.set(n, value).is_err()
        {
            return Err(NoMemory);
        }
    }
    Ok(part)
}

/// Appends the numbers of a set, with commas between them.
fn push_numbers(alloc: Global, set: Bitmap, out: &mut Vec<u8>) -> Result<(), NoMemory> {
    let mut is_first = true;
    for n in set {
        if !is_first {
            out.extend_from_slice(b",")?;
        }
        is_first = false;
        let number = format!(in alloc; "{n}")?;
        out.extend_from_slice(number.as_bytes())?;
    }
    Ok(())
}

/// Appends a member that is what differs of a message.
fn push_message(
    alloc: Global,
    telling: Telling<'_>,
    key: &[u8],
    message: &Message,
    elements: Bitmap,
    out: &mut Vec<u8>,
) -> Result<(), NoMemory> {
    out.extend_from_slice(key)?;
    let part = part_of(alloc, message, elements)?;
    append_json(telling.table, &part, telling.is_clear, out)
}

/// Appends the line of two messages that differ.
fn push_difference(
    alloc: Global,
    telling: Telling<'_>,
    number: usize,
    difference: Difference,
    expected: &Message,
    came: &Message,
    out: &mut Vec<u8>,
) -> Result<(), NoMemory> {
    let Difference {
        is_other_type,
        elements,
    } = difference;
    let head = format!(in alloc;
        "{{\"frame\":{number},\"type_differs\":{is_other_type},\"elements\":["
    )?;
    out.extend_from_slice(head.as_bytes())?;
    push_numbers(alloc, elements, out)?;
    push_message(alloc, telling, b"],\"expected\":", expected, elements, out)?;
    push_message(alloc, telling, b",\"came\":", came, elements, out)?;
    out.extend_from_slice(b"}\n")?;
    Ok(())
}

/// Appends the line of bytes that are no message.
fn push_unreadable(
    alloc: Global,
    number: usize,
    side: Side,
    why: NoMessage,
    out: &mut Vec<u8>,
) -> Result<(), NoMemory> {
    let which = match side {
        Side::Expected => "expected",
        Side::Came => "came",
    };
    let line = format!(in alloc;
        "{{\"frame\":{number},\"unreadable\":\"{which}\",\"fault\":\"{why}\"}}\n"
    )?;
    out.extend_from_slice(line.as_bytes())?;
    Ok(())
}

/// Appends what is told of a body beside the one that was expected.
fn push_frame(
    alloc: Global,
    telling: Telling<'_>,
    number: usize,
    expected: &[u8],
    came: &[u8],
    out: &mut Vec<u8>,
) -> Result<(), NoMemory> {
    match compare_frames(alloc, telling.table, expected, came)? {
        Comparison::Same => Ok(()),
        Comparison::Unreadable(side, why) => push_unreadable(alloc, number, side, why, out),
        Comparison::Differ(difference) => {
            // both were read just now, so that only want of memory is left
            let (Ok((wanted, _)), Ok((given, _))) = (
                unpack(alloc, telling.table, expected),
                unpack(alloc, telling.table, came),
            ) else {
                return Err(NoMemory);
            };
            push_difference(alloc, telling, number, difference, &wanted, &given, out)
        }
    }
}

/// The lines of what isn't as expected, and the last one.
fn lines_of(
    alloc: Global,
    telling: Telling<'_>,
    expected: &[&[u8]],
    came: &[&[u8]],
    tally: Tally,
) -> Result<Vec<u8>, NoMemory> {
    let mut lines = Vec::new(alloc);
    for (place, (wanted, given)) in expected.iter().zip(came).enumerate() {
        let number = place.saturating_add(1);
        push_frame(alloc, telling, number, wanted, given, &mut lines)?;
    }
    let Tally {
        compared,
        same,
        missing,
        beyond,
    } = tally;
    let differ = tally.differ();
    let last = format!(in alloc;
        "{{\"compared\":{compared},\"same\":{same},\"differ\":{differ},\"missing\":{missing},\"beyond\":{beyond}}}\n"
    )?;
    lines.extend_from_slice(last.as_bytes())?;
    Ok(lines)
}

/// Appends a line of JSON for each body that came and isn't as expected, each compared with the one at its place: `frame`,
/// `type_differs`, `elements`, and of both messages as `expected` and `came` the type and the elements that differ; or
/// `unreadable` and the `fault`. The last line has `compared`, `same`, `differ`, `missing` and `beyond`. Unless it is to be
/// clear, card data are stars. Gives what was counted.
///
/// Without memory nothing is appended.
pub fn append_differences_json(
    alloc: Global,
    telling: Telling<'_>,
    expected: &[&[u8]],
    came: &[&[u8]],
    out: &mut Vec<u8>,
) -> Result<Tally, NoMemory>
    // Memory aside, the answer counts as `Tally::of` does: the places that were compared, those
    // with the same bytes, and what is missing or came beyond.
    ensures counts { IfOk result
        (Counts (map (λ b. b.now) expected.now) (map (λ b. b.now) came.now)) }
    // What was there stays in front.
    ensures kept { Keeps out.old.items out.new.items }
    // Without memory the buffer holds what it held before.
    ensures unchanged { OnErr result (out.new.items ≡ out.old.items) }
{
    let tally = Tally::of(expected, came);
    let lines = lines_of(alloc, telling, expected, came, tally)?;
    out.extend_from_slice(&lines)?;
    Ok(tally)
}
