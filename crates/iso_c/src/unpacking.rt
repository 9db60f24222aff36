//! A message from bytes into the caller's room.

ghost use Rattle.std.specs.Prelude.{◌≡◌, ◌≤◌, [], ◌∷◌, ◌++◌, length, OnOk, IfOk, IfErr};
ghost use Rattle.iso_c.specs.Answers.{KeepsFault};
ghost use Rattle.iso_c.specs.Parts.{part_of, parts_from, values_of};
ghost use Rattle.iso_c.specs.Spreading.{IsSpread, IsSpreadHeld, GivesSpread, GivesMessage};
ghost use Rattle.iso_c.specs.Unpacking.{IsReadFault, IsReadFaultHeld, IsUnpackReply};

use crate::answers::{length_of, refuse};
use crate::fault::{EMPTY_SLOT, RumpadolFault, SHORT_PARTS, SHORT_ROOM};
use crate::parts::{RumpadolMessage, RumpadolPart};
use crate::slot::RumpadolSlot;
use iso_table::Table;
use iso_wire::{Message, unpack};
use std::alloc::{AllocError, Global};

/// A message that was read: its values end to end, and where each lies.
#[derive(Drop)]
pub struct SpreadMessage {
    pub(crate) mti: u16,
    pub(crate) used: usize,
    pub(crate) parts: Vec<RumpadolPart>,
    pub(crate) values: Vec<u8>,
}

/// Adds a value behind the others, and its part.
fn add(
    n: u8,
    value: &[u8],
    parts: &mut Vec<RumpadolPart>,
    values: &mut Vec<u8>,
) -> Result<(), AllocError>
    ensures parts { OnOk result (parts.new.items
        ≡ parts.old.items ++ part_of n (length values.old.items) (length value.now) ∷ []) }
    ensures values { OnOk result (values.new.items ≡ values.old.items ++ value.now) }
{
    parts.push(RumpadolPart {
        element: u32::from(n),
        start: values.len(),
        length: value.len(),
    })?;
    values.extend_from_slice(value)
}

/// Appends the values of a message, and their parts.
pub(crate) fn spread(
    message: &Message,
    parts: &mut Vec<RumpadolPart>,
    values: &mut Vec<u8>,
) -> Result<(), AllocError>
    requires parts { parts.old.items ≡ [] }
    requires values { values.old.items ≡ [] }
    ensures parts { OnOk result (parts.new.items ≡ parts_from 0 message.now.elements) }
    ensures values { OnOk result (values.new.items ≡ values_of message.now.elements) }
{
    for (n, value) in message.iter() {
        add(n, value, parts, values)?;
    }
    Ok(())
}

/// The message that the bytes begin with.
pub(crate) fn read_bytes(
    alloc: Global,
    table: &Table,
    bytes: &[u8],
) -> Result<SpreadMessage, RumpadolFault>
    ensures ok { IfOk result (IsSpread table.now bytes.now) }
    ensures fault { IfErr result (IsReadFault table.now bytes.now) }
{
    let (message, used) = unpack(alloc, table, bytes)?;
    let mut parts = Vec::new(alloc);
    let mut values = Vec::new(alloc);
    spread(&message, &mut parts, &mut values)?;
    Ok(SpreadMessage {
        mti: message.mti().number(),
        used,
        parts,
        values,
    })
}

/// The same under what a slot holds.
fn read_held(
    alloc: Global,
    table: &Option<Table>,
    bytes: &[u8],
) -> Result<SpreadMessage, RumpadolFault>
    ensures ok { IfOk result (IsSpreadHeld table.now bytes.now) }
    ensures fault { IfErr result (IsReadFaultHeld table.now bytes.now) }
{
    match table {
        Some(table) => read_bytes(alloc, table, bytes),
        None => Err(RumpadolFault::only(EMPTY_SLOT)),
    }
}

/// Puts what was found at the front of rooms that are large enough for it.
fn fill_rooms(
    found: &SpreadMessage,
    message: &mut RumpadolMessage,
    parts: &mut [RumpadolPart],
    values: &mut [u8],
)
    requires few { length found.now.parts.items ≤ length parts.old }
    requires room { length found.now.values.items ≤ length values.old }
    ensures { GivesSpread found.now found.now.used (record {
      old = record { message = message.old; parts = parts.old; values = values.old };
      new = record { message = message.new; parts = parts.new; values = values.new };
    }) }
{
    let (places, _) = parts.split_at_mut(found.parts.len());
    places.copy_from_slice(&found.parts);
    let (room, _) = values.split_at_mut(found.values.len());
    room.copy_from_slice(&found.values);
    *message = RumpadolMessage {
        mti: u32::from(found.mti),
        parts: found.parts.len(),
        values: found.values.len(),
    };
}

/// Gives what was found where there is room, and answers how many bytes the message takes.
fn give_message(
    found: &SpreadMessage,
    bytes: &[u8],
    message: &mut RumpadolMessage,
    parts: &mut [RumpadolPart],
    values: &mut [u8],
    fault: &mut RumpadolFault,
) -> i64
    requires { found.now.used ≤ length bytes.now }
    ensures reply { GivesMessage found.now result (record {
      old = record { message = message.old; parts = parts.old; values = values.old };
      new = record { message = message.new; parts = parts.new; values = values.new };
    }) fault.new }
    ensures kept { KeepsFault result fault.old fault.new }
{
    if parts.len() < found.parts.len() {
        return refuse(
            RumpadolFault::at_offset(SHORT_PARTS, found.parts.len()),
            fault,
        );
    }
    if values.len() < found.values.len() {
        return refuse(
            RumpadolFault::at_offset(SHORT_ROOM, found.values.len()),
            fault,
        );
    }
    fill_rooms(found, message, parts, values);
    length_of(found.used, bytes)
}

/// Reads the message that the bytes begin with under the table of a slot: its values end to end into the room, and
/// where each lies into the parts. Answers how many bytes the message takes, or -1 and a fault.
#[unsafe(no_mangle)]
pub extern "C" fn rumpadol_unpack(
    alloc: Global,
    slot: &mut RumpadolSlot,
    bytes: &[u8],
    message: &mut RumpadolMessage,
    parts: &mut [RumpadolPart],
    values: &mut [u8],
    fault: &mut RumpadolFault,
) -> i64
    // The rooms get the message's type, its values end to end and where each lies, the answer is
    // its length; or -1, untouched rooms, and the first fault, memory aside, or how much is wanted.
    ensures reply { IsUnpackReply slot.old.value bytes.now result (record {
      old = record { message = message.old; parts = parts.old; values = values.old };
      new = record { message = message.new; parts = parts.new; values = values.new };
    }) fault.new }
    // Where the answer isn't -1, the fault is as it was.
    ensures kept { KeepsFault result fault.old fault.new }
    // The slot keeps its table.
    ensures slot { slot.new.value ≡ slot.old.value }
{
    let table = slot.replace(None);
    let made = read_held(alloc, &table, bytes);
    let _ = slot.replace(table);
    match made {
        Ok(found) => give_message(&found, bytes, message, parts, values, fault),
        Err(reason) => refuse(reason, fault),
    }
}
