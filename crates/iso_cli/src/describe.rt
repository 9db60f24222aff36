//! A message for human eyes: the lines that tell it, and one for the bytes that it took.

ghost use Rattle.std.specs.Prelude.{IfOk};
ghost use Rattle.iso_wire.specs.Describing.{used_bytes, AreLinesOf};

use iso_table::Table;
use iso_wire::{Message, append_used, describe, describe_clear};
use std::alloc::{AllocError, Global};

/// The lines of a message that took `used` of `total` bytes. Unless `clear`, what a bystander shouldn't read is
/// hidden by stars.
pub fn shown_lines(
    alloc: Global,
    table: &Table,
    message: &Message,
    used: usize,
    total: usize,
    clear: bool,
) -> Result<Vec<u8>, AllocError>
    ensures { IfOk result
        (λ out. AreLinesOf clear table.now message.now (used_bytes used total) out.items) }
{
    let mut out = if clear {
        describe_clear(alloc, table, message)?
    } else {
        describe(alloc, table, message)?
    };
    append_used(used, total, &mut out)?;
    Ok(out)
}
