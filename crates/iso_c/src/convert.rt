//! A message from one table to another.

ghost use Rattle.std.specs.Prelude.{◌≡◌, IfOk, IfErr};
ghost use Rattle.iso_wire.specs.Spelling.{Converts};
ghost use Rattle.iso_c.specs.Answers.{Replies, KeepsFault};
ghost use Rattle.iso_c.specs.Convert.{IsConvertFault, ConvertsHeld, IsConvertFaultHeld};

use crate::answers::answer;
use crate::fault::{EMPTY_SLOT, RumpadolFault, TRAILING_BYTES};
use crate::slot::RumpadolSlot;
use iso_table::Table;
use iso_wire::{pack, unpack};
use std::alloc::Global;

/// The plain bytes, under the second table, of the message that the bytes spell under the first.
pub(crate) fn convert_bytes(
    alloc: Global,
    from: &Table,
    to: &Table,
    bytes: &[u8],
) -> Result<Vec<u8>, RumpadolFault>
    ensures ok { IfOk result (λ packed. Converts from.now to.now bytes.now packed.items) }
    ensures fault { IfErr result (IsConvertFault from.now to.now bytes.now) }
{
    let (message, used) = unpack(alloc, from, bytes)?;
    if used < bytes.len() {
        return Err(RumpadolFault::at_offset(TRAILING_BYTES, used));
    }
    Ok(pack(alloc, to, &message)?)
}

/// The same under what two slots hold.
fn convert_held(
    alloc: Global,
    from: &Option<Table>,
    to: &Option<Table>,
    bytes: &[u8],
) -> Result<Vec<u8>, RumpadolFault>
    ensures ok { IfOk result (λ packed. ConvertsHeld from.now to.now bytes.now packed.items) }
    ensures fault { IfErr result (IsConvertFaultHeld from.now to.now bytes.now) }
{
    match (from, to) {
        (Some(from), Some(to)) => convert_bytes(alloc, from, to, bytes),
        _ => Err(RumpadolFault::only(EMPTY_SLOT)),
    }
}

/// Writes the message that the bytes spell under the table of one slot under that of another. Answers how many bytes
/// were written, or -1 and a fault. The slots keep their tables.
#[unsafe(no_mangle)]
pub extern "C" fn rumpadol_convert(
    alloc: Global,
    from: &mut RumpadolSlot,
    to: &mut RumpadolSlot,
    bytes: &[u8],
    out: &mut [u8],
    fault: &mut RumpadolFault,
) -> i64
    // The room begins with the message as the second table spells it plainly, and the answer is its
    // length; or -1, an untouched room, and the first fault, memory aside, or how much is wanted.
    ensures reply { Replies (ConvertsHeld from.old.value to.old.value bytes.now)
        (IsConvertFaultHeld from.old.value to.old.value bytes.now) result
        (record { old = out.old; new = out.new }) fault.new }
    // The first slot keeps its table.
    ensures from { from.new.value ≡ from.old.value }
    // Where the answer isn't -1, the fault is as it was.
    ensures kept { KeepsFault result fault.old fault.new }
    // The second slot keeps its table.
    ensures to { to.new.value ≡ to.old.value }
{
    let first = from.replace(None);
    let second = to.replace(None);
    let made = convert_held(alloc, &first, &second, bytes);
    let _ = from.replace(first);
    let _ = to.replace(second);
    answer(made, out, fault)
}
