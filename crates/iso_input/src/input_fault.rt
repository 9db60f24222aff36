//! Why an input isn't read.

ghost use Rattle.std.specs.Prelude.{◌≡◌};
ghost use Rattle.iso_input.specs.declared.input_fault.InputFault.TheVariants.{Memory};

use std::alloc::AllocError;
use thiserror::Error;

/// Why an input isn't read.
#[derive(Clone, Copy, Debug, PartialEq, Eq, Drop, Error)]
pub enum InputFault {
    /// The reader failed.
    #[error("the input can't be read")]
    Read,
    /// It has more bytes than it may have.
    #[error("the input has too many bytes")]
    TooLong,
    /// Memory ran out.
    #[error("memory ran out")]
    Memory,
}

impl From<AllocError> for InputFault {
    ghost from_gives = { λ _ e. e ≡ Memory };

    fn from(_e: AllocError) -> InputFault {
        InputFault::Memory
    }
}
