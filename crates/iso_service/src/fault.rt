//! Why a host doesn't start, and why it ends.

ghost use Rattle.std.specs.Prelude.{◌≡◌};
ghost use Rattle.iso_service.specs.Refusal.{is_refusal};

use crate::device::FileFault;
use crate::front::FrontFault;
use thiserror::Error;

/// Why a host doesn't start.
#[derive(Clone, Copy, Debug, PartialEq, Eq, Drop, Error)]
pub enum StartFault {
    /// The file isn't opened or made.
    #[error("{0}")]
    File(FileFault),
    /// The file is no journal of these accounts.
    #[error("{0}")]
    Front(FrontFault),
    /// The record at this place is the first that no host with these accounts can have written.
    #[error("the journal is damaged: no host with these accounts can have written record {0} (the heading is record 0); no record is changed; bring back a copy")]
    Damaged(usize),
    /// The file ends with its last record.
    #[error("the journal was cut: it ends with a record, and behind the last one there is always room; bring back the whole file")]
    Cut,
    /// The new file couldn't be written whole.
    #[error("a write or a sync failed while the journal was made; see that its device is well and has 2 MB of room")]
    NotMade,
    /// The device may leave other bytes than the old ones and those that were written.
    #[error("its device doesn't keep the old bytes or the new ones when it is cut off; name a file on another one")]
    Unfit,
}

impl StartFault {
    /// Whether what was given is refused, and it isn't a device, the right to it, or memory.
    pub fn is_refusal(&self) -> bool
        // True exactly where something has the new file's name, or the file isn't a whole and sound
        // journal of these accounts.
        ensures { result ≡ is_refusal self.now }
    {
        match self {
            StartFault::Front(_) | StartFault::Damaged(_) | StartFault::Cut => true,
            StartFault::File(FileFault::Exists) => true,
            StartFault::File(_) | StartFault::NotMade | StartFault::Unfit => false,
        }
    }
}

/// Why serving ends before the end of the input.
#[derive(Clone, Copy, Debug, PartialEq, Eq, Drop, Error)]
pub enum ServiceFault {
    /// The reader failed.
    #[error("reading failed")]
    Read,
    /// A write or a flush failed.
    #[error("writing failed")]
    Write,
    /// A frame's header is of digits, and what stands there is not.
    #[error("BadHeader: the header of a frame isn't of digits; usually another header, or a line end between frames")]
    BadHeader,
    /// The input ends inside a frame.
    #[error("CutFrame: the input ends inside a frame; send the whole frame again")]
    CutFrame,
    /// Memory ran out.
    #[error("memory ran out")]
    Memory,
    /// The log of the orders failed.
    #[error("the log failed")]
    Log,
}
