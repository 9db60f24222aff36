//! Why there is no table.

ghost use Rattle.std.specs.Prelude.{◌≡◌};
ghost use Rattle.iso_table.specs.declared.fault.TableFault.TheVariants.{Memory};
ghost use Rattle.iso_table.specs.Accepted.{as_table_fault};
ghost use Rattle.iso_table.specs.FaultNames.{table_fault_name, table_fault_element, host_table_fault_name, host_table_fault_element};
ghost use Rattle.iso_table.specs.FaultNumbers.{table_fault_number, host_table_fault_number};

use iso_parts::SpecFault;
use std::alloc::{AllocError, AllocFailed};
use thiserror::Error;

/// What is wrong with a table that is handed in: the first fault.
#[derive(Clone, Copy, Debug, PartialEq, Eq, Error)]
pub enum TableFault {
    /// The text is no JSON.
    #[error("the text is no JSON")]
    NotJson,
    /// The text is JSON of another shape.
    #[error("a member is missing, unknown or of another kind")]
    Shape,
    /// The version is none of 0, 1, 2 and 9.
    #[error("the version is none of 0, 1, 2 and 9")]
    BadVersion,
    /// No row may have this number: 0, 1, 65 or above 128.
    #[error("there is no element {0}")]
    BadNumber(u16),
    /// An earlier row has this number.
    #[error("element {0} has two rows")]
    Twice(u16),
    /// The maximum of this element's row is 0, or more than its length can tell.
    #[error("element {0} has a maximum that its length cannot tell")]
    BadMax(u16),
    /// The coding of this element's row does not go with its class.
    #[error("element {0} has a coding that its class does not take")]
    CodingClass(u16),
    /// This element's row may not have its padding.
    #[error("element {0} has a padding that it may not have")]
    PadNotAllowed(u16),
    /// The text is of another profile than 1 and 2.
    #[error("the profile is neither 1 nor 2")]
    Profile,
    /// Memory ran out.
    #[error("memory ran out")]
    Memory,
}

/// Memory ran out.
#[derive(Clone, Copy, Debug, PartialEq, Eq, Error)]
#[error("memory ran out")]
pub struct NoMemory;

/// Why a host can't serve under a table.
#[derive(Clone, Copy, Debug, PartialEq, Eq, Error)]
pub enum HostTableFault {
    /// The table is for another version than 0.
    #[error("the version isn't 0")]
    NotVersion0,
    /// The table has no row for this element.
    #[error("element {0} has no row")]
    NoRow(u8),
    /// The row of this element has another shape than a host needs.
    #[error("the row of element {0} has another shape")]
    RowShape(u8),
}

impl From<AllocError> for TableFault {
    ghost from_gives = { λ _ e. e ≡ Memory };

    fn from(_e: AllocError) -> TableFault {
        TableFault::Memory
    }
}

impl<T: Drop> From<AllocFailed<T>> for TableFault {
    ghost from_gives = { λ _ e. e ≡ Memory };

    fn from(_e: AllocFailed<T>) -> TableFault {
        TableFault::Memory
    }
}

impl From<AllocError> for NoMemory {
    fn from(_e: AllocError) -> NoMemory {
        NoMemory
    }
}

impl<T: Drop> From<AllocFailed<T>> for NoMemory {
    fn from(_e: AllocFailed<T>) -> NoMemory {
        NoMemory
    }
}

impl TableFault {
    /// The fault's number, as logs and monitors show it: from 1 to 10, in the order of the variants.
    pub fn number(&self) -> u8
        ensures { result ≡ table_fault_number self.now }
    {
        match self {
            TableFault::NotJson => 1,
            TableFault::Shape => 2,
            TableFault::BadVersion => 3,
            TableFault::BadNumber(_) => 4,
            TableFault::Twice(_) => 5,
            TableFault::BadMax(_) => 6,
            TableFault::CodingClass(_) => 7,
            TableFault::PadNotAllowed(_) => 8,
            TableFault::Profile => 9,
            TableFault::Memory => 10,
        }
    }

    /// The fault's name, as fault lines tell it.
    pub fn name(&self) -> &'static str
        ensures { result.now ≡ table_fault_name self.now }
    {
        match self {
            TableFault::NotJson => "NotJson",
            TableFault::Shape => "Shape",
            TableFault::BadVersion => "BadVersion",
            TableFault::BadNumber(_) => "BadNumber",
            TableFault::Twice(_) => "Twice",
            TableFault::BadMax(_) => "BadMax",
            TableFault::CodingClass(_) => "CodingClass",
            TableFault::PadNotAllowed(_) => "PadNotAllowed",
            TableFault::Profile => "Profile",
            TableFault::Memory => "Memory",
        }
    }

    /// The element that the fault names, if it names one.
    pub fn element(&self) -> Option<u16>
        ensures { result ≡ table_fault_element self.now }
    {
        match self {
            TableFault::BadNumber(n)
            | TableFault::Twice(n)
            | TableFault::BadMax(n)
            | TableFault::CodingClass(n)
            | TableFault::PadNotAllowed(n) => Some(*n),
            TableFault::NotJson
            | TableFault::Shape
            | TableFault::BadVersion
            | TableFault::Profile
            | TableFault::Memory => None,
        }
    }

    /// The fault of the row with this number.
    pub(crate) fn of_row(number: u16, fault: SpecFault) -> TableFault
        ensures { result ≡ as_table_fault number fault }
    {
        match fault {
            SpecFault::BadMax => TableFault::BadMax(number),
            SpecFault::CodingClass => TableFault::CodingClass(number),
            SpecFault::PadNotAllowed => TableFault::PadNotAllowed(number),
        }
    }
}

impl HostTableFault {
    /// The fault's number, as logs and monitors show it: from 1 to 3, in the order of the variants.
    pub fn number(&self) -> u8
        ensures { result ≡ host_table_fault_number self.now }
    {
        match self {
            HostTableFault::NotVersion0 => 1,
            HostTableFault::NoRow(_) => 2,
            HostTableFault::RowShape(_) => 3,
        }
    }

    /// The fault's name, as fault lines tell it.
    pub fn name(&self) -> &'static str
        ensures { result.now ≡ host_table_fault_name self.now }
    {
        match self {
            HostTableFault::NotVersion0 => "NotVersion0",
            HostTableFault::NoRow(_) => "NoRow",
            HostTableFault::RowShape(_) => "RowShape",
        }
    }

    /// The element that the fault names, if it names one.
    pub fn element(&self) -> Option<u8>
        ensures { result ≡ host_table_fault_element self.now }
    {
        match self {
            HostTableFault::NoRow(n) | HostTableFault::RowShape(n) => Some(*n),
            HostTableFault::NotVersion0 => None,
        }
    }
}
