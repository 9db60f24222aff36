//! Why a host takes nothing of a peer.

use thiserror::Error;

/// Why a host takes nothing of a peer.
#[derive(Clone, Copy, Debug, PartialEq, Eq, Drop, Error)]
pub enum TurnFault {
    /// The log failed before: nothing is taken, kept or handed out any more, until it is opened again.
    #[error("the log failed")]
    Log,
    /// A frame's header is of digits, and what stands there is not. The peer can't go on.
    #[error("the header of a frame isn't of digits")]
    BadHeader,
    /// Memory ran out. The same bytes can come again.
    #[error("memory ran out")]
    Memory,
}
