//! Why a journal isn't looked into to its end.

ghost use Rattle.std.specs.Prelude.{◌≡◌};
ghost use Rattle.iso_books.specs.declared.fault.BooksFault.TheVariants.{Memory};

use iso_record::HeadingFault;
use std::alloc::AllocError;
use thiserror::Error;

/// Why a journal isn't looked into to its end.
#[derive(Clone, Copy, Debug, PartialEq, Eq, Drop, Error)]
pub enum BooksFault {
    /// The file can't be read.
    #[error("the file can't be read")]
    Read,
    /// The output can't be written.
    #[error("the output can't be written")]
    Write,
    /// Memory ran out.
    #[error("memory ran out")]
    Memory,
    /// The file doesn't begin with the heading that is wanted: what it tells otherwise.
    #[error("the file has another heading")]
    Other(HeadingFault),
}

impl From<AllocError> for BooksFault {
    ghost from_gives = { λ _ e. e ≡ Memory };

    fn from(_fault: AllocError) -> BooksFault {
        BooksFault::Memory
    }
}
