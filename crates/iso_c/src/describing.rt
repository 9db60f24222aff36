//! A message as lines for human eyes.

ghost use Rattle.std.specs.Prelude.{◌≡◌, IfOk, IfErr};
ghost use Rattle.iso_c.specs.Answers.{Replies, KeepsFault};
ghost use Rattle.iso_c.specs.Describing.{Describes, DescribesHeld};
ghost use Rattle.iso_c.specs.Unpacking.{IsReadFault, IsReadFaultHeld};

use crate::answers::answer;
use crate::fault::{EMPTY_SLOT, RumpadolFault};
use crate::slot::RumpadolSlot;
use iso_table::Table;
use iso_wire::{append_used, describe, unpack};
use std::alloc::Global;

/// The lines of the message that the bytes begin with.
pub(crate) fn describe_bytes(
    alloc: Global,
    table: &Table,
    bytes: &[u8],
) -> Result<Vec<u8>, RumpadolFault>
    ensures ok { IfOk result (λ lines. Describes table.now bytes.now lines.items) }
    ensures fault { IfErr result (IsReadFault table.now bytes.now) }
{
    let (message, used) = unpack(alloc, table, bytes)?;
    let mut out = describe(alloc, table, &message)?;
    append_used(used, bytes.len(), &mut out)?;
    Ok(out)
}

/// The same under what a slot holds.
fn describe_held(
    alloc: Global,
    table: &Option<Table>,
    bytes: &[u8],
) -> Result<Vec<u8>, RumpadolFault>
    ensures ok { IfOk result (λ lines. DescribesHeld table.now bytes.now lines.items) }
    ensures fault { IfErr result (IsReadFaultHeld table.now bytes.now) }
{
    match table {
        Some(table) => describe_bytes(alloc, table, bytes),
        None => Err(RumpadolFault::only(EMPTY_SLOT)),
    }
}

/// Writes the lines of the message that the bytes begin with: its type, its elements, and how many bytes it took. What a
/// bystander shouldn't read is hidden by stars. Answers how many bytes were written, or -1 and a fault.
#[unsafe(no_mangle)]
pub extern "C" fn rumpadol_describe(
    alloc: Global,
    slot: &mut RumpadolSlot,
    bytes: &[u8],
    out: &mut [u8],
    fault: &mut RumpadolFault,
) -> i64
    // The room begins with the message's lines, sensitive values masked, and the answer is their
    // length; or -1, an untouched room, and the first fault, memory aside, or how much is wanted.
    ensures reply { Replies (DescribesHeld slot.old.value bytes.now)
        (IsReadFaultHeld slot.old.value bytes.now) result
        (record { old = out.old; new = out.new }) fault.new }
    // Where the answer isn't -1, the fault is as it was.
    ensures kept { KeepsFault result fault.old fault.new }
    // The slot keeps its table.
    ensures slot { slot.new.value ≡ slot.old.value }
{
    let table = slot.replace(None);
    let made = describe_held(alloc, &table, bytes);
    let _ = slot.replace(table);
    answer(made, out, fault)
}
