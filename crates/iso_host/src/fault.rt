//! Why serving ends, and what came of it.
ghost use Rattle.std.specs.Prelude.{◌≡◌};
ghost use Rattle.iso_host.specs.FaultNumbers.{serve_fault_number};

use thiserror::Error;

/// Why serving ends before the end of the input.
#[derive(Clone, Copy, Debug, PartialEq, Eq, Drop, Error)]
pub enum ServeFault {
    /// The reader failed.
    #[error("the reader failed")]
    Read,
    /// A write or a flush failed.
    #[error("the writer failed")]
    Write,
    /// A frame's header is of digits, and what stands there is not.
    #[error("the header of a frame isn't of digits")]
    BadHeader,
    /// The input ends inside a frame.
    #[error("the input ends inside a frame")]
    CutFrame,
    /// Memory ran out.
    #[error("memory ran out")]
    Memory,
    /// More reads and writes were needed than the caller allows.
    #[error("too many reads and writes")]
    TooManyTurns,
}

impl ServeFault {
    /// The fault's number, as logs and monitors show it: from 1 for a failed reader to 6 for too many reads and writes.
    pub fn number(&self) -> u8
        // `Read` is 1, `Write` 2, `BadHeader` 3, `CutFrame` 4, `Memory` 5 and `TooManyTurns` 6.
        ensures { result ≡ serve_fault_number self.now }
    {
        match self {
            ServeFault::Read => 1,
            ServeFault::Write => 2,
            ServeFault::BadHeader => 3,
            ServeFault::CutFrame => 4,
            ServeFault::Memory => 5,
            ServeFault::TooManyTurns => 6,
        }
    }
}

/// How many frames came, by kind. The counts stop at the greatest number.
#[derive(Clone, Copy, Debug, PartialEq, Eq, Drop)]
pub struct Report {
    /// All frames.
    pub frames: u64,
    /// Those that were answered.
    pub answered: u64,
    /// Those whose message isn't to be answered.
    pub silent: u64,
    /// Those that are not one whole message.
    pub unreadable: u64,
}
