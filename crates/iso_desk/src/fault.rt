//! Why a question isn't answered.

ghost use Rattle.std.specs.Prelude.{◌≡◌};
ghost use Rattle.iso_desk.specs.declared.fault.DeskFault.TheVariants.{Memory};

use iso_table::NoMemory;
use std::alloc::{AllocError, AllocFailed};
use thiserror::Error;

/// Why a question isn't answered.
#[derive(Clone, Copy, Debug, PartialEq, Eq, Error)]
pub enum DeskFault {
    /// Its text is no JSON.
    #[error("the question is no JSON from line {line}, column {column} on")]
    NotJson {
        /// The line, the first being 1.
        line: usize,
        /// The column, the first being 1.
        column: usize,
    },
    /// A member isn't there, or is something else than is wanted.
    #[error("the question's member {member} has to be {wanted}")]
    Member {
        /// The member's name.
        member: &'static str,
        /// What it has to be.
        wanted: &'static str,
    },
    /// There is more than is told at once.
    #[error("that is too much at once: ask for less")]
    TooMuch,
    /// There was no memory.
    #[error("there was no memory for the answer")]
    Memory,
}

impl From<AllocError> for DeskFault {
    ghost from_gives = { λ _ fault. fault ≡ Memory };

    fn from(_fault: AllocError) -> DeskFault {
        DeskFault::Memory
    }
}

impl<T: Drop> From<AllocFailed<T>> for DeskFault {
    ghost from_gives = { λ _ fault. fault ≡ Memory };

    fn from(_fault: AllocFailed<T>) -> DeskFault {
        DeskFault::Memory
    }
}

impl From<NoMemory> for DeskFault {
    ghost from_gives = { λ _ fault. fault ≡ Memory };

    fn from(_fault: NoMemory) -> DeskFault {
        DeskFault::Memory
    }
}
