//! Why a journal can't be opened.
ghost use Rattle.iso_journal.specs.Why.{IsPlain};

use iso_durable::Fault;
use iso_log::LogError;
use iso_record::HeadingFault;
use thiserror::Error;

/// Why a journal can't be opened. No record of the file is changed then.
#[derive(Clone, Copy, Debug, PartialEq, Eq, Drop, Error)]
pub enum OpenError {
    /// Memory ran out.
    #[error("memory ran out")]
    Memory,
    /// A call of the disk failed.
    #[error("a call of the disk failed")]
    Disk,
    /// The disk may leave other bytes than the old ones and those that were written.
    #[error("the disk may leave bytes that are neither the old ones nor those that were written")]
    Unfit,
    /// The file is no journal of this format, under these rules and of these accounts: what it tells otherwise. It is as it
    /// was.
    #[error("{0}")]
    Other(HeadingFault),
    /// The record at this place is the first that no host under this heading can have written. The heading has place 0.
    #[error("the record at place {0} is the first that no host can have written")]
    Damaged(usize),
}

impl From<LogError> for OpenError {
    ghost from_gives = { λ _ e. IsPlain e };

    fn from(error: LogError) -> OpenError {
        match error {
            LogError::Unfit => OpenError::Unfit,
            _ => OpenError::Disk,
        }
    }
}

impl From<Fault> for OpenError {
    ghost from_gives = { λ _ e. IsPlain e };

    fn from(fault: Fault) -> OpenError {
        match fault {
            Fault::Memory => OpenError::Memory,
            _ => OpenError::Disk,
        }
    }
}
