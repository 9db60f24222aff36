//! Why work ends before its input does.

ghost use Rattle.std.specs.Prelude.{◌≡◌};
ghost use Rattle.iso_jobs.specs.declared.fault.Stop.TheVariants as stops;

use std::alloc::AllocError;
use thiserror::Error;

/// Why work ends before its input does: a device or memory failed, or an input is too long to be read whole.
#[derive(Clone, Copy, Debug, PartialEq, Eq, Error)]
pub enum Stop {
    /// The input failed.
    #[error("reading stopped before its end: look at its device, or take a copy")]
    Read,
    /// The output failed.
    #[error("the output can't be written: look whether its device is full, or its reader has ended")]
    Write,
    /// The error stream failed.
    #[error("the error stream can't be written")]
    Faults,
    /// One text of the input is too long.
    #[error("a line of JSON, or the lines of a message, has more than 1,048,576 bytes: part it")]
    TooLong,
    /// There was no memory.
    #[error("there was no memory: raise the limit of the process")]
    Memory,
}

impl From<AllocError> for Stop {
    ghost from_gives = { λ _ stop. stop ≡ stops.Memory };

    fn from(_fault: AllocError) -> Stop {
        Stop::Memory
    }
}
