//! Why a field is refused.

ghost use Rattle.std.specs.Prelude.{◌≡◌};
ghost use Rattle.iso_parts.specs.declared.fault.FieldFault.TheVariants.{Memory};

use std::alloc::{AllocError, AllocFailed};
use thiserror::Error;

/// Why a value has no part under its row, or bytes begin with none.
#[derive(Clone, Copy, Debug, PartialEq, Eq, Error)]
pub enum FieldFault {
    /// The value's length is none that the row takes.
    #[error("wrong length")]
    WrongLength,
    /// A character is not in the row's class.
    #[error("a character isn't in the class")]
    NotInClass,
    /// The pad byte stands at the value's padded end.
    #[error("the pad byte stands at the value's end")]
    PadEnd,
    /// The length prefix is not of digits.
    #[error("the length isn't of digits")]
    BadLengthDigits,
    /// The length prefix is above the row's maximum.
    #[error("the length is above the maximum")]
    LengthOver,
    /// The filler nibble is neither 0 nor F.
    #[error("the filler is neither 0 nor F")]
    BadFiller,
    /// The body is not of hexadecimal digits.
    #[error("the body isn't of hexadecimal digits")]
    BadHex,
    /// Memory ran out.
    #[error("memory ran out")]
    Memory,
}

impl FieldFault {
    ghost use Rattle.iso_parts.specs.FaultNames.{field_fault_name};
    ghost use Rattle.iso_parts.specs.FaultNumbers.{field_fault_number};

    /// The fault's number, as logs and monitors show it: from 1 to 8, in the order of the variants.
    pub fn number(&self) -> u8
        ensures { result ≡ field_fault_number self.now }
    {
        match self {
            FieldFault::WrongLength => 1,
            FieldFault::NotInClass => 2,
            FieldFault::PadEnd => 3,
            FieldFault::BadLengthDigits => 4,
            FieldFault::LengthOver => 5,
            FieldFault::BadFiller => 6,
            FieldFault::BadHex => 7,
            FieldFault::Memory => 8,
        }
    }

    /// The fault's name, as fault lines tell it.
    pub fn name(&self) -> &'static str
        ensures { result.now ≡ field_fault_name self.now }
    {
        match self {
            FieldFault::WrongLength => "WrongLength",
            FieldFault::NotInClass => "NotInClass",
            FieldFault::PadEnd => "PadEnd",
            FieldFault::BadLengthDigits => "BadLengthDigits",
            FieldFault::LengthOver => "LengthOver",
            FieldFault::BadFiller => "BadFiller",
            FieldFault::BadHex => "BadHex",
            FieldFault::Memory => "Memory",
        }
    }
}

impl From<AllocError> for FieldFault {
    ghost from_gives = { λ _ e. e ≡ Memory };

    fn from(_e: AllocError) -> FieldFault {
        FieldFault::Memory
    }
}

impl<T: Drop> From<AllocFailed<T>> for FieldFault {
    ghost from_gives = { λ _ e. e ≡ Memory };

    fn from(_e: AllocFailed<T>) -> FieldFault {
        FieldFault::Memory
    }
}
