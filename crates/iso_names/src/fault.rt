//! Why there are no names.

ghost use Rattle.std.specs.Prelude.{◌≡◌};
ghost use Rattle.iso_names.specs.declared.fault.NamesFault.TheVariants.{Memory};

use std::alloc::{AllocError, AllocFailed};
use thiserror::Error;

/// What is wrong with a document of own names: the first fault, keys in the order of their bytes.
#[derive(Debug, PartialEq, Drop, Error)]
pub enum NamesFault {
    /// The text is no JSON from this line and column on, counted from 1.
    #[error("the text is no JSON: line {line}, column {column}")]
    NotJson {
        /// The line.
        line: usize,
        /// The column.
        column: usize,
    },
    /// The JSON is no object.
    #[error("the JSON is no object from element numbers to names")]
    NoObject,
    /// This key is no element's number: 2 to 64 or 66 to 128, in decimal and without leading zeros.
    #[error("the key \"{0}\" is no element's number")]
    BadKey(String),
    /// The name of this element is no text.
    #[error("the name of element {0} is no text")]
    NoText(u8),
    /// The name of this element holds a control character.
    #[error("the name of element {0} holds a control character")]
    ControlCharacter(u8),
    /// Memory ran out.
    #[error("memory ran out")]
    Memory,
}

impl From<AllocError> for NamesFault {
    ghost from_gives = { λ _ e. e ≡ Memory };

    fn from(_e: AllocError) -> NamesFault {
        NamesFault::Memory
    }
}

impl<T: Drop> From<AllocFailed<T>> for NamesFault {
    ghost from_gives = { λ _ e. e ≡ Memory };

    fn from(_e: AllocFailed<T>) -> NamesFault {
        NamesFault::Memory
    }
}
