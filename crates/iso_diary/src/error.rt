//! Why a diary can't be opened.
ghost use Rattle.iso_diary.specs.Why.{IsPlain};

use crate::heading::HeadingFault;
use iso_log::LogError;
use thiserror::Error;

/// Why a diary can't be opened. No record of the file is changed then.
#[derive(Clone, Copy, Debug, PartialEq, Eq, Drop, Error)]
pub enum OpenError {
    /// Memory ran out.
    #[error("memory ran out")]
    Memory,
    /// A call of the disk failed.
    #[error("a call of the disk failed")]
    Disk,
    /// The disk may leave other bytes than the old ones and those that were written.
    #[error("the disk may leave bytes that are neither the old ones nor those that were written")]
    Unfit,
    /// The file is no diary of this format, under these rules and of this acquirer: what it tells otherwise. It is as it was.
    #[error("{0}")]
    Other(HeadingFault),
    /// The record at this place is the first that isn't a note at its place. The heading has place 0.
    #[error("the record at place {0} is the first that is no note at its place")]
    Damaged(usize),
}

impl From<LogError> for OpenError {
    ghost from_gives = { λ _ e. IsPlain e };

    fn from(error: LogError) -> OpenError {
        match error {
            LogError::Unfit => OpenError::Unfit,
            _ => OpenError::Disk,
        }
    }
}
