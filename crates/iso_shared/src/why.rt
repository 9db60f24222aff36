//! Why a log failed.
ghost use Rattle.std.specs.Prelude.{◌≡◌};
ghost use Rattle.iso_shared.specs.declared.why.Why.TheVariants.{Memory};

use std::alloc::{AllocError, AllocFailed};
use thiserror::Error;

/// Why a log that others write to as well failed. Nothing more is decided, until it is opened again.
#[derive(Clone, Copy, Debug, PartialEq, Eq, Drop, Error)]
pub enum Why {
    /// The next place has another writer's batch. The orders that waited were never told, and are forgotten.
    #[error("another host wrote to the journal")]
    Fenced,
    /// The batch may stand now, or later, or never.
    #[error("it is not known whether the last orders were kept")]
    InDoubt,
    /// The store gave no answer, and nothing was sent.
    #[error("the store that keeps the journal gave no answer")]
    Away,
    /// There is no further place, or the batch has too many orders.
    #[error("the journal has no place for more")]
    TooLarge,
    /// Memory ran out.
    #[error("memory ran out")]
    Memory,
}

impl From<AllocError> for Why {
    ghost from_gives = { λ _ e. e ≡ Memory };

    fn from(_: AllocError) -> Why {
        Why::Memory
    }
}

impl<T: Drop> From<AllocFailed<T>> for Why {
    ghost from_gives = { λ _ e. e ≡ Memory };

    fn from(_: AllocFailed<T>) -> Why {
        Why::Memory
    }
}
