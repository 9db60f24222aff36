//! What became of the bytes that were explained.

ghost use Rattle.std.specs.Prelude.{◌≡◌};
ghost use Rattle.iso_wire.specs.Reading.{message_at};
ghost use Rattle.iso_explain.specs.Outcomes.{outcome_in};

use iso_table::Table;
use iso_wire::{UnpackFault, view};

/// What became of the bytes that were explained.
#[derive(Clone, Copy, Debug, PartialEq, Eq)]
pub enum Outcome {
    /// They begin with a message, which takes so many of them.
    Read(usize),
    /// They stop being a message.
    Stopped(UnpackFault),
}

/// What becomes of the bytes.
pub(crate) fn outcome_of(table: &Table, bytes: &[u8]) -> Outcome
    ensures { result ≡ outcome_in (message_at table.now bytes.now) }
{
    match view(table, bytes) {
        Ok(message) => Outcome::Read(message.used()),
        Err(fault) => Outcome::Stopped(fault),
    }
}
