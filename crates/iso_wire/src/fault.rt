//! Why messages and bytes are refused.

ghost use Rattle.std.specs.Prelude.{◌≡◌};
ghost use Rattle.iso_wire.specs.declared.fault.PackFault.TheVariants as pack;
ghost use Rattle.iso_wire.specs.declared.fault.SetFault.TheVariants as set;
ghost use Rattle.iso_wire.specs.Faults.{out_of_memory};

use iso_parts::FieldFault;
use std::alloc::AllocError;
use thiserror::Error;

/// Why a value was not set.
#[derive(Clone, Copy, Debug, PartialEq, Eq, Error)]
pub enum SetFault {
    /// No element has that number: 0, 1, 65 or one above 128.
    #[error("no element has the number {0}")]
    BadNumber(u8),
    /// Memory ran out.
    #[error("memory ran out")]
    Memory,
}

/// Why a message has no spelling under a table.
#[derive(Clone, Copy, Debug, PartialEq, Eq, Error)]
pub enum PackFault {
    /// The version of its type is not the table's.
    #[error("the message type is of another version")]
    WrongVersion,
    /// The table has no row for this element.
    #[error("element {0} has no row")]
    NoRow(u8),
    /// The length of this element's value is none that its row takes.
    #[error("element {0} has a wrong length")]
    WrongLength(u8),
    /// A character of this element's value is not in the class of its row.
    #[error("element {0} has a character that isn't in its class")]
    NotInClass(u8),
    /// This element's value has the pad byte at its padded end.
    #[error("element {0} has the pad byte at its end")]
    PadEnd(u8),
    /// Memory ran out.
    #[error("memory ran out")]
    Memory,
}

/// What is wrong with the bytes of a message.
#[derive(Clone, Copy, Debug, PartialEq, Eq, Error)]
pub enum UnpackCause {
    /// The bytes end inside the piece.
    #[error("the bytes end too early")]
    Short,
    /// The message type is not of four digits.
    #[error("the message type isn't of digits")]
    BadMti,
    /// The version of the message type is not the table's.
    #[error("the message type is of another version")]
    WrongVersion,
    /// The bitmap is not of hexadecimal digits.
    #[error("the bitmap isn't of hexadecimal digits")]
    BadHex,
    /// Bit 65 tells of a third bitmap.
    #[error("a third bitmap")]
    ThirdBitmap,
    /// The bitmap has this element, for which the table has no row: the lowest one.
    #[error("element {0} has no row")]
    UnknownElement(u8),
    /// The element's length or body is refused by its row.
    #[error("{0}")]
    Field(FieldFault),
    /// Memory ran out.
    #[error("memory ran out")]
    Memory,
}

/// Where bytes stop being a message.
#[derive(Clone, Copy, Debug, PartialEq, Eq, Error)]
#[error("element {element} at {at}: {cause}")]
pub struct UnpackFault {
    /// The offset of the first byte of the faulty or unfinished piece; 0 where memory ran out.
    pub at: usize,
    /// Whose piece it is: 0 is the message type or the primary bitmap, 1 the secondary bitmap, any other number
    /// the element. 0 where memory ran out.
    pub element: u8,
    /// What is wrong.
    pub cause: UnpackCause,
}

impl SetFault {
    ghost use Rattle.iso_wire.specs.FaultNames.{set_fault_name};
    ghost use Rattle.iso_wire.specs.FaultNumbers.{set_fault_number};

    /// The fault's number, as logs and monitors show it: from 1 to 2, in the order of the variants.
    pub fn number(&self) -> u8
        ensures { result ≡ set_fault_number self.now }
    {
        match self {
            SetFault::BadNumber(_) => 1,
            SetFault::Memory => 2,
        }
    }

    /// The fault's name, as fault lines tell it.
    pub fn name(&self) -> &'static str
        ensures { result.now ≡ set_fault_name self.now }
    {
        match self {
            SetFault::BadNumber(_) => "BadNumber",
            SetFault::Memory => "Memory",
        }
    }
}

impl PackFault {
    ghost use Rattle.iso_wire.specs.FaultNames.{pack_fault_name, pack_fault_element};
    ghost use Rattle.iso_wire.specs.FaultNumbers.{pack_fault_number};

    /// The fault's number, as logs and monitors show it: from 1 to 6, in the order of the variants.
    pub fn number(&self) -> u8
        ensures { result ≡ pack_fault_number self.now }
    {
        match self {
            PackFault::WrongVersion => 1,
            PackFault::NoRow(_) => 2,
            PackFault::WrongLength(_) => 3,
            PackFault::NotInClass(_) => 4,
            PackFault::PadEnd(_) => 5,
            PackFault::Memory => 6,
        }
    }

    /// The fault's name, as fault lines tell it.
    pub fn name(&self) -> &'static str
        ensures { result.now ≡ pack_fault_name self.now }
    {
        match self {
            PackFault::WrongVersion => "WrongVersion",
            PackFault::NoRow(_) => "NoRow",
            PackFault::WrongLength(_) => "WrongLength",
            PackFault::NotInClass(_) => "NotInClass",
            PackFault::PadEnd(_) => "PadEnd",
            PackFault::Memory => "Memory",
        }
    }

    /// The element that the fault names, if it names one.
    pub fn element(&self) -> Option<u8>
        ensures { result ≡ pack_fault_element self.now }
    {
        match self {
            PackFault::NoRow(n)
            | PackFault::WrongLength(n)
            | PackFault::NotInClass(n)
            | PackFault::PadEnd(n) => Some(*n),
            PackFault::WrongVersion | PackFault::Memory => None,
        }
    }
}

impl UnpackCause {
    ghost use Rattle.iso_wire.specs.FaultNames.{unpack_cause_name};
    ghost use Rattle.iso_wire.specs.FaultNumbers.{unpack_cause_number};

    /// The fault's number, as logs and monitors show it: from 1 to 8, in the order of the variants.
    pub fn number(&self) -> u8
        ensures { result ≡ unpack_cause_number self.now }
    {
        match self {
            UnpackCause::Short => 1,
            UnpackCause::BadMti => 2,
            UnpackCause::WrongVersion => 3,
            UnpackCause::BadHex => 4,
            UnpackCause::ThirdBitmap => 5,
            UnpackCause::UnknownElement(_) => 6,
            UnpackCause::Field(_) => 7,
            UnpackCause::Memory => 8,
        }
    }

    /// The fault's name, as fault lines tell it: of a field's fault that fault's own name.
    pub fn name(&self) -> &'static str
        ensures { result.now ≡ unpack_cause_name self.now }
    {
        match self {
            UnpackCause::Short => "Short",
            UnpackCause::BadMti => "BadMti",
            UnpackCause::WrongVersion => "WrongVersion",
            UnpackCause::BadHex => "BadHex",
            UnpackCause::ThirdBitmap => "ThirdBitmap",
            UnpackCause::UnknownElement(_) => "UnknownElement",
            UnpackCause::Field(fault) => fault.name(),
            UnpackCause::Memory => "Memory",
        }
    }
}

impl From<AllocError> for SetFault {
    ghost from_gives = { λ _ e. e ≡ set.Memory };

    fn from(_e: AllocError) -> SetFault {
        SetFault::Memory
    }
}

impl From<AllocError> for PackFault {
    ghost from_gives = { λ _ e. e ≡ pack.Memory };

    fn from(_e: AllocError) -> PackFault {
        PackFault::Memory
    }
}

impl UnpackFault {
    /// Memory ran out.
    pub(crate) fn memory() -> UnpackFault
        ensures { result ≡ out_of_memory }
    {
        UnpackFault {
            at: 0,
            element: 0,
            cause: UnpackCause::Memory,
        }
    }

    /// The piece that begins at `at` is not a good one.
    pub(crate) fn stop(element: u8, at: usize, cause: UnpackCause) -> UnpackFault
        ensures { result ≡ record { at = at; element = element; cause = cause } }
    {
        UnpackFault { at, element, cause }
    }
}

impl From<AllocError> for UnpackFault {
    ghost from_gives = { λ _ e. e ≡ out_of_memory };

    fn from(_e: AllocError) -> UnpackFault {
        UnpackFault::memory()
    }
}
