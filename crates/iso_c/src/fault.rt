//! Why a call was refused, as C sees it. The number of a fault of a library is a hundred for its type, and its own; want
//! of memory is 1 everywhere.

ghost use Rattle.std.specs.Prelude.{◌≡◌};
ghost use Rattle.iso_c.specs.FaultNumbers.{field_code, unpack_code, unpack_fault, pack_fault, table_fault, frame_fault, bad_number, set_fault};
ghost use Rattle.iso_c.specs.FaultNumbers.{only, at_element, at_offset, no_memory};

use iso_parts::FieldFault;
use iso_table::{NoMemory, TableFault};
use iso_wire::{FrameFault, PackFault, SetFault, UnpackCause, UnpackFault};
use std::alloc::AllocError;

/// Memory ran out.
pub(crate) const MEMORY: u32 = 1;

/// A slot has no table.
pub(crate) const EMPTY_SLOT: u32 = 2;

/// No built-in table has the number.
pub(crate) const NO_SUCH_TABLE: u32 = 3;

/// The room has fewer bytes than are wanted.
pub(crate) const SHORT_ROOM: u32 = 4;

/// Bytes follow the message that is converted.
pub(crate) const TRAILING_BYTES: u32 = 5;

/// The message doesn't have the element.
pub(crate) const NO_ELEMENT: u32 = 6;

/// The part lies outside the values.
pub(crate) const BAD_PART: u32 = 7;

/// The type isn't of four digits.
pub(crate) const BAD_TYPE: u32 = 8;

/// No header has the number.
pub(crate) const NO_SUCH_HEADER: u32 = 9;

/// There are fewer places for parts than are wanted.
pub(crate) const SHORT_PARTS: u32 = 10;

/// Why a call was refused: its number, and where it has one, an element and an offset.
#[repr(C)]
#[derive(Clone, Copy, Debug, PartialEq, Eq)]
pub struct RumpadolFault {
    /// The number of the fault.
    pub number: u32,
    /// The element, else 0.
    pub element: u32,
    /// The offset in the bytes; where the room is short, how much is wanted; else 0.
    pub offset: usize,
}

impl RumpadolFault {
    /// A fault with no place.
    pub(crate) fn only(number: u32) -> RumpadolFault
        ensures { result ≡ only number }
    {
        RumpadolFault {
            number,
            element: 0,
            offset: 0,
        }
    }

    /// A fault at an element.
    pub(crate) fn at_element(number: u32, element: u32) -> RumpadolFault
        ensures { result ≡ at_element number element }
    {
        RumpadolFault {
            number,
            element,
            offset: 0,
        }
    }

    /// A fault at an offset.
    pub(crate) fn at_offset(number: u32, offset: usize) -> RumpadolFault
        ensures { result ≡ at_offset number offset }
    {
        RumpadolFault {
            number,
            element: 0,
            offset,
        }
    }

    /// No element has the number.
    pub(crate) fn bad_number(n: u32) -> RumpadolFault
        ensures { result ≡ bad_number n }
    {
        let own = SetFault::BadNumber(0).number();
        RumpadolFault::at_element(600 + u32::from(own), n)
    }
}

/// The number of a field's fault.
fn field_code(fault: FieldFault) -> u32
    ensures { result ≡ field_code fault }
{
    match fault {
        FieldFault::Memory => MEMORY,
        FieldFault::WrongLength
        | FieldFault::NotInClass
        | FieldFault::PadEnd
        | FieldFault::BadLengthDigits
        | FieldFault::LengthOver
        | FieldFault::BadFiller
        | FieldFault::BadHex => 200 + u32::from(fault.number()),
    }
}

/// The number of what is wrong with a message's bytes.
fn unpack_code(cause: UnpackCause) -> u32
    ensures { result ≡ unpack_code cause }
{
    match cause {
        UnpackCause::Memory => MEMORY,
        UnpackCause::Field(fault) => field_code(fault),
        UnpackCause::Short
        | UnpackCause::BadMti
        | UnpackCause::WrongVersion
        | UnpackCause::BadHex
        | UnpackCause::ThirdBitmap
        | UnpackCause::UnknownElement(_) => 100 + u32::from(cause.number()),
    }
}

impl From<NoMemory> for RumpadolFault {
    ghost from_gives = { λ _ e. e ≡ no_memory };

    fn from(_e: NoMemory) -> RumpadolFault {
        RumpadolFault::only(MEMORY)
    }
}

impl From<AllocError> for RumpadolFault {
    ghost from_gives = { λ _ e. e ≡ no_memory };

    fn from(_e: AllocError) -> RumpadolFault {
        RumpadolFault::only(MEMORY)
    }
}

impl From<UnpackFault> for RumpadolFault {
    ghost from_gives = { λ f e. e ≡ unpack_fault f };

    fn from(fault: UnpackFault) -> RumpadolFault {
        RumpadolFault {
            number: unpack_code(fault.cause),
            element: u32::from(fault.element),
            offset: fault.at,
        }
    }
}

impl From<PackFault> for RumpadolFault {
    ghost from_gives = { λ f e. e ≡ pack_fault f };

    fn from(fault: PackFault) -> RumpadolFault {
        if fault == PackFault::Memory {
            return RumpadolFault::only(MEMORY);
        }
        let element = fault.element().unwrap_or(0);
        RumpadolFault::at_element(300 + u32::from(fault.number()), u32::from(element))
    }
}

impl From<TableFault> for RumpadolFault {
    ghost from_gives = { λ f e. e ≡ table_fault f };

    fn from(fault: TableFault) -> RumpadolFault {
        if fault == TableFault::Memory {
            return RumpadolFault::only(MEMORY);
        }
        let element = fault.element().unwrap_or(0);
        RumpadolFault::at_element(400 + u32::from(fault.number()), u32::from(element))
    }
}

impl From<FrameFault> for RumpadolFault {
    ghost from_gives = { λ f e. e ≡ frame_fault f };

    fn from(fault: FrameFault) -> RumpadolFault {
        match fault {
            FrameFault::Memory => RumpadolFault::only(MEMORY),
            FrameFault::TooLong | FrameFault::BadDigits => {
                RumpadolFault::only(500 + u32::from(fault.number()))
            }
        }
    }
}

impl From<SetFault> for RumpadolFault {
    ghost from_gives = { λ f e. e ≡ set_fault f };

    fn from(fault: SetFault) -> RumpadolFault {
        match fault {
            SetFault::BadNumber(n) => RumpadolFault::bad_number(u32::from(n)),
            SetFault::Memory => RumpadolFault::only(MEMORY),
        }
    }
}
