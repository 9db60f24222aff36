//! A message from the caller's parts and values to bytes.

ghost use Rattle.std.specs.Prelude.{◌≡◌, ◌≢◌, nat_le, true, false, [], length, Some, None, Ok, Err, OnOk, IfOk, IfErr, IfSome, IfNone};
ghost use Rattle.iso_parts.specs.Mti.{mti_number};
ghost use Rattle.iso_wire.specs.Elements.{put};
ghost use Rattle.iso_c.specs.Answers.{Replies, KeepsFault};
ghost use Rattle.iso_c.specs.FaultNumbers.{no_memory};
ghost use Rattle.iso_c.specs.Parts.{bytes_in, elements_or_fault, is_part_within, part_refusal};
ghost use Rattle.iso_c.specs.Packing.{message_of, Packs, IsPackingFault, PacksHeld, IsPackingFaultHeld};

use crate::answers::answer;
use crate::fault::{BAD_PART, BAD_TYPE, EMPTY_SLOT, RumpadolFault};
use crate::parts::RumpadolPart;
use crate::slot::RumpadolSlot;
use iso_parts::Mti;
use iso_table::Table;
use iso_wire::{Message, pack};
use std::alloc::Global;

/// Whether a part lies within so many bytes.
fn is_part_within(part: &RumpadolPart, size: usize) -> bool
    ensures { result ≡ is_part_within size part.now }
{
    part.start <= size && part.length <= size - part.start
}

/// Puts the value that a part tells of at its element.
fn put_part(message: &mut Message, part: &RumpadolPart, values: &[u8]) -> Result<(), RumpadolFault>
    ensures ok { OnOk result ((part_refusal (length values.now) part.now ≡ None)
        × (message.new ≡ record message.old {
          elements = put part.now.element (bytes_in values.now part.now) message.old.elements;
        })) }
    ensures fault { IfErr result
        (λ e. e ≢ no_memory → part_refusal (length values.now) part.now ≡ Some e) }
{
    if !is_part_within(part, values.len()) {
        return Err(RumpadolFault {
            number: BAD_PART,
            element: part.element,
            offset: part.start,
        });
    }
    let (_, rest) = values.split_at(part.start);
    let (value, _) = rest.split_at(part.length);
    match u8::try_from(part.element) {
        Ok(n) => Ok(message.set(n, value)?),
        Err(_) => Err(RumpadolFault::bad_number(part.element)),
    }
}

/// Puts the values that the parts tell of at their elements.
fn put_parts(
    message: &mut Message,
    parts: &[RumpadolPart],
    values: &[u8],
) -> Result<(), RumpadolFault>
    ensures ok { OnOk result
        (elements_or_fault values.now parts.now message.old.elements ≡ Ok message.new.elements) }
    ensures mti { OnOk result (message.new.mti ≡ message.old.mti) }
    ensures fault { IfErr result
        (λ e. e ≢ no_memory → elements_or_fault values.now parts.now message.old.elements ≡ Err e) }
{
    for part in parts {
        if let Err(fault) = put_part(message, part, values) {
            return Err(fault);
        }
    }
    Ok(())
}

/// The message type of a number.
fn type_of(mti: u32) -> Option<Mti>
    ensures some { IfSome result (λ m. (mti_number m ≡ mti) × (nat_le mti 9999 ≡ true)) }
    ensures none { result ≡ None → nat_le mti 9999 ≡ false }
{
    match u16::try_from(mti) {
        Ok(n) => Mti::from_digits(n),
        Err(_) => None,
    }
}

/// The message of a type with the elements that the parts tell of.
fn message_of(
    alloc: Global,
    mti: u32,
    parts: &[RumpadolPart],
    values: &[u8],
) -> Result<Message, RumpadolFault>
    ensures ok { IfOk result (λ m. message_of mti parts.now values.now ≡ Ok m) }
    ensures fault { IfErr result
        (λ f. f ≢ no_memory → message_of mti parts.now values.now ≡ Err f) }
{
    let Some(mti) = type_of(mti) else {
        return Err(RumpadolFault::only(BAD_TYPE));
    };
    let mut message = Message::new(alloc, mti);
    put_parts(&mut message, parts, values)?;
    Ok(message)
}

/// Its bytes under a table.
pub(crate) fn pack_parts(
    alloc: Global,
    table: &Table,
    mti: u32,
    parts: &[RumpadolPart],
    values: &[u8],
) -> Result<Vec<u8>, RumpadolFault>
    ensures ok { IfOk result
        (λ out. Packs table.now (message_of mti parts.now values.now) out.items) }
    ensures fault { IfErr result (IsPackingFault table.now (message_of mti parts.now values.now)) }
{
    let message = message_of(alloc, mti, parts, values)?;
    Ok(pack(alloc, table, &message)?)
}

/// The same under what a slot holds.
fn pack_held(
    alloc: Global,
    table: &Option<Table>,
    mti: u32,
    parts: &[RumpadolPart],
    values: &[u8],
) -> Result<Vec<u8>, RumpadolFault>
    ensures ok { IfOk result
        (λ out. PacksHeld table.now (message_of mti parts.now values.now) out.items) }
    ensures fault { IfErr result
        (IsPackingFaultHeld table.now (message_of mti parts.now values.now)) }
{
    match table {
        Some(table) => pack_parts(alloc, table, mti, parts, values),
        None => Err(RumpadolFault::only(EMPTY_SLOT)),
    }
}

/// Writes the message of a type with the values that the parts tell of, under the table of a slot. Where two parts tell of
/// one element, the later one counts. Answers how many bytes were written, or -1 and a fault.
#[unsafe(no_mangle)]
pub extern "C" fn rumpadol_pack(
    alloc: Global,
    slot: &mut RumpadolSlot,
    mti: u32,
    parts: &[RumpadolPart],
    values: &[u8],
    out: &mut [u8],
    fault: &mut RumpadolFault,
) -> i64
    // The room begins with the plain spelling of the message of these parts, and the answer is its
    // length; or -1, an untouched room, and the first fault, memory aside, or how much is wanted.
    ensures reply { Replies (PacksHeld slot.old.value (message_of mti parts.now values.now))
        (IsPackingFaultHeld slot.old.value (message_of mti parts.now values.now)) result
        (record { old = out.old; new = out.new }) fault.new }
    // Where the answer isn't -1, the fault is as it was.
    ensures kept { KeepsFault result fault.old fault.new }
    // The slot keeps its table.
    ensures slot { slot.new.value ≡ slot.old.value }
{
    let table = slot.replace(None);
    let made = pack_held(alloc, &table, mti, parts, values);
    let _ = slot.replace(table);
    answer(made, out, fault)
}
