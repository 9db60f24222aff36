//! The message that bytes are, and no byte more.

ghost use Rattle.std.specs.Prelude.{◌≡◌, ◌≢◌, ◌<◌, ◌≤◌, IfOk, IfErr, OnOk, OnErr, length, take, drop};
ghost use Rattle.iso_jobs.specs.Whole.{IsNoMessage, refusal_of_unpack};
ghost use Rattle.iso_jobs.specs.declared.refusal.Refusal.TheVariants.{Memory};
ghost use Rattle.iso_wire.specs.Spelling.{Spelling};

use crate::refusal::{Refusal, Trouble};
use iso_table::Table;
use iso_wire::{Message, UnpackCause, UnpackFault, unpack};
use std::alloc::Global;

/// Why there is no message, from what `unpack` answers.
fn refused(fault: UnpackFault) -> Refusal
    ensures { result ≡ refusal_of_unpack fault }
{
    match fault.cause {
        UnpackCause::Memory => Refusal::Memory,
        _ => Refusal::Refused(Trouble::Unpack(fault)),
    }
}

/// The message that the bytes are.
pub(crate) fn whole_message(alloc: Global, table: &Table, bytes: &[u8]) -> Result<Message, Refusal>
    ensures found { IfOk result (λ m. Spelling table.now m bytes.now) }
    ensures only { IfErr result (λ e. e ≢ Memory → IsNoMessage table.now bytes.now) }
{
    match unpack(alloc, table, bytes) {
        Ok((message, used)) if used == bytes.len() => Ok(message),
        Ok((_, used)) => Err(Refusal::Refused(Trouble::Trailing {
            used,
            end: bytes.len(),
        })),
        Err(fault) => Err(refused(fault)),
    }
}

/// The bytes behind the first ones, so many of them.
pub(crate) fn behind_skipped(skip: usize, bytes: &[u8]) -> Result<(&[u8], &[u8]), Refusal>
    ensures split { IfOk result
        (λ parts. (parts.0.now ≡ take skip bytes.now) × (parts.1.now ≡ drop skip bytes.now)) }
    ensures whole { OnOk result (skip ≤ length bytes.now) }
    ensures short { OnErr result (length bytes.now < skip) }
    ensures memory { IfErr result (λ e. e ≢ Memory) }
{
    if skip > bytes.len() {
        return Err(Refusal::Refused(Trouble::Skipped {
            has: bytes.len(),
            wanted: skip,
        }));
    }
    Ok(bytes.split_at(skip))
}
