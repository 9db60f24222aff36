//! Why a text gives no bytes.

ghost use Rattle.std.specs.Prelude.{◌≡◌};
ghost use Rattle.iso_input.specs.declared.fault.HexFault.TheVariants.{Memory};

use std::alloc::AllocFailed;
use thiserror::Error;

/// The first thing that is wrong with a text of hexadecimal digits. Lines and columns count from 1.
#[derive(Clone, Copy, Debug, PartialEq, Eq, Drop, Error)]
pub enum HexFault {
    /// A character that is no hexadecimal digit, where one is wanted.
    #[error("line {line}, column {column}: the byte {byte} is no hexadecimal digit")]
    NotDigit {
        /// The line.
        line: usize,
        /// The column.
        column: usize,
        /// The byte.
        byte: u8,
    },
    /// The last digit of a byte is missing: the digit at this place stands alone.
    #[error("line {line}, column {column}: the digit stands alone, and a byte is two")]
    Odd {
        /// The line.
        line: usize,
        /// The column.
        column: usize,
    },
    /// The offset of a dump's line isn't how many bytes stand before it: a line is missing or there twice.
    #[error("line {line}: the offset is {found}, and {wanted} bytes stand before it")]
    Gap {
        /// The line.
        line: usize,
        /// How many bytes stand before the line.
        wanted: u64,
        /// Its offset.
        found: u64,
    },
    /// Memory ran out.
    #[error("memory ran out")]
    Memory,
}

impl<T: Drop> From<AllocFailed<T>> for HexFault {
    ghost from_gives = { λ _ e. e ≡ Memory };

    fn from(_e: AllocFailed<T>) -> HexFault {
        HexFault::Memory
    }
}
