//! Why a message is refused.

ghost use Rattle.std.specs.Prelude.{◌≡◌};
ghost use Rattle.iso_jobs.specs.declared.refusal.Refusal.TheVariants.{Memory};

use crate::sentences::write_sentence;
use iso_input::HexFault;
use iso_table::NoMemory;
use iso_wire::{PackFault, UnpackFault};
use std::alloc::AllocError;
use std::fmt;

/// What is wrong with the bytes of a message, with its frame or with their stream.
#[derive(Clone, Copy, Debug, PartialEq, Eq)]
pub enum Trouble {
    /// The bytes stop being a message.
    Unpack(UnpackFault),
    /// Bytes follow the message.
    Trailing {
        /// How many bytes the message takes.
        used: usize,
        /// How many there are.
        end: usize,
    },
    /// There are fewer bytes than are to be skipped.
    Skipped {
        /// How many are there.
        has: usize,
        /// How many are to be skipped.
        wanted: usize,
    },
    /// The message has no bytes under the other table.
    Pack(PackFault),
    /// The body, of so many bytes, is too long for the header of its frame.
    TooLong(usize),
    /// The header of a frame isn't of digits.
    BadHeader,
    /// The input ends inside a frame, of which so many bytes are there.
    CutFrame(usize),
    /// The input has more bytes, or characters of hexadecimal text, than so many.
    InputTooLong(usize),
    /// A second message stands in an input whose messages have no frames.
    Second,
    /// The hexadecimal text stands for no bytes.
    Hex(HexFault),
}

/// A sentence, without its end, that says what is refused, where, and what usually causes it.
impl fmt::Display for Trouble {
    fn fmt<W: fmt::Write>(&self, f: &mut fmt::Formatter<W>) -> fmt::Result {
        write_sentence(*self, f)
    }
}

/// Why nothing was appended for a message.
#[derive(Clone, Copy, Debug, PartialEq, Eq)]
pub(crate) enum Refusal {
    /// This is wrong with it.
    Refused(Trouble),
    /// There is no memory.
    Memory,
}

impl From<NoMemory> for Refusal {
    ghost from_gives = { λ _ refusal. refusal ≡ Memory };

    fn from(_fault: NoMemory) -> Refusal {
        Refusal::Memory
    }
}

impl From<AllocError> for Refusal {
    ghost from_gives = { λ _ refusal. refusal ≡ Memory };

    fn from(_fault: AllocError) -> Refusal {
        Refusal::Memory
    }
}
