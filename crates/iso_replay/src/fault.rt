//! Why nothing is exchanged with a host.

use std::alloc::AllocError;
use std::net::SocketAddr;
use thiserror::Error;

/// Why nothing is exchanged with a host, or the exchange is given up.
#[derive(Clone, Copy, Debug, PartialEq, Eq, Drop, Error)]
pub enum ReplayFault {
    /// No connection to this address was made.
    #[error("no host answers at {0}: start one there, or name another address")]
    NoHost(SocketAddr),
    /// The system's waiting for sockets failed, or its clock.
    #[error("waiting for the host failed")]
    Wait,
    /// Memory ran out.
    #[error("memory ran out")]
    Memory,
}

impl From<AllocError> for ReplayFault {
    fn from(_fault: AllocError) -> ReplayFault {
        ReplayFault::Memory
    }
}
