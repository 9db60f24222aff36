//! Why a frame isn't written or read.
ghost use Rattle.std.specs.Prelude.{◌≡◌};
ghost use Rattle.iso_frames.specs.declared.fault.FramesFault.TheVariants.{Memory};

use iso_wire::PackFault;
use std::alloc::{AllocError, AllocFailed};
use thiserror::Error;

/// Why a frame isn't written or read.
#[derive(Clone, Copy, Debug, PartialEq, Eq, Drop, Error)]
pub enum FramesFault {
    /// The table can't write a request.
    #[error("the table can't write a request: {0}")]
    Unwritten(PackFault),
    /// The header can't count a request.
    #[error("a request is too long for its header")]
    TooLong,
    /// Memory ran out.
    #[error("memory ran out")]
    Memory,
}

impl From<AllocError> for FramesFault {
    ghost from_gives = { λ _ e. e ≡ Memory };

    fn from(_: AllocError) -> FramesFault {
        FramesFault::Memory
    }
}

impl<T: Drop> From<AllocFailed<T>> for FramesFault {
    ghost from_gives = { λ _ e. e ≡ Memory };

    fn from(_: AllocFailed<T>) -> FramesFault {
        FramesFault::Memory
    }
}
