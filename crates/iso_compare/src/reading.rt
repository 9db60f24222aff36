//! What the bytes of a frame are.

ghost use Rattle.std.specs.Prelude.{◌≡◌, IfOk};
ghost use Rattle.iso_compare.specs.Comparing.{IsReading};

use iso_table::{NoMemory, Table};
use iso_wire::{Message, UnpackCause, UnpackFault, unpack};
use std::alloc::Global;
use thiserror::Error;

/// Why bytes are no message.
#[derive(Clone, Copy, Debug, PartialEq, Eq, Error)]
pub enum NoMessage {
    /// They stop being one.
    #[error("{0}")]
    Stopped(UnpackFault),
    /// Bytes follow the message.
    #[error("the message ends at byte {used}, and the frame at {total}")]
    Trailing {
        /// How many bytes the message takes.
        used: usize,
        /// How many there are.
        total: usize,
    },
}

/// What bytes are.
#[derive(Drop)]
pub(crate) enum Reading {
    /// A message, and no byte more.
    Whole(Message),
    /// No message.
    No(NoMessage),
}

/// What bytes are under a table.
pub(crate) fn read(alloc: Global, table: &Table, bytes: &[u8]) -> Result<Reading, NoMemory>
    ensures { IfOk result (IsReading table.now bytes.now) }
{
    match unpack(alloc, table, bytes) {
        Ok((message, used)) if used == bytes.len() => Ok(Reading::Whole(message)),
        Ok((_, used)) => Ok(Reading::No(NoMessage::Trailing {
            used,
            total: bytes.len(),
        })),
        Err(fault) if fault.cause == UnpackCause::Memory => Err(NoMemory),
        Err(fault) => Ok(Reading::No(NoMessage::Stopped(fault))),
    }
}
