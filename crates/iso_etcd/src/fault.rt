//! Why something wasn't read.
use crate::append::Cause;
use crate::response::Loss;
use thiserror::Error;

/// Why something wasn't read, or a lease wasn't had.
#[derive(Clone, Copy, Debug, PartialEq, Eq, Drop, Error)]
pub enum Fault {
    /// No member answered in time.
    #[error("no member answered in time")]
    Away,
    /// The user is unknown, or its password is another one.
    #[error("the user is unknown, or its password is another one")]
    NotLetIn,
    /// The request can't be written.
    #[error("the request can't be written")]
    Unwritable,
    /// The answer has this status.
    #[error("the answer has the status {0}")]
    Status(u16),
    /// The answer can't be understood.
    #[error("the answer can't be understood")]
    Unreadable,
    /// Memory ran out.
    #[error("memory ran out")]
    Memory,
}

/// Why nothing was read, where no response came.
pub fn fault_of(loss: Loss) -> Fault {
    match loss {
        Loss::Unsent(Cause::Away) | Loss::Lost => Fault::Away,
        Loss::Unsent(Cause::NotLetIn) => Fault::NotLetIn,
        Loss::Unsent(Cause::Unwritable | Cause::TooLong) => Fault::Unwritable,
        Loss::Unsent(Cause::Memory) | Loss::Memory => Fault::Memory,
    }
}
