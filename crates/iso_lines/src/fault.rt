//! Why a host with many peers doesn't start, and why it ends.

use std::alloc::{AllocError, AllocFailed};
use std::io::ErrorKind;
use std::net::SocketAddr;
use thiserror::Error;

/// Why a host can't listen on an address.
#[derive(Clone, Copy, Debug, PartialEq, Eq, Drop, Error)]
pub enum Unbound {
    /// Another program listens there.
    #[error("another program listens there; end it, or name another port")]
    Taken,
    /// This machine hasn't the address.
    #[error("this machine has no such address; name one that it has, or 0.0.0.0 or [::] for all")]
    Elsewhere,
    /// This user may not use the port.
    #[error("this user may not use that port; name one from 1024 on")]
    Denied,
    /// The system refuses it.
    #[error("the system refuses it; look at how many files the process may open")]
    Other,
}

/// Why a host with many peers doesn't start, and why it ends.
#[derive(Clone, Copy, Debug, PartialEq, Eq, Drop, Error)]
pub enum LoopFault {
    /// It can't listen on this address.
    #[error("it can't listen on {address}: {why}")]
    Listen {
        /// The address.
        address: SocketAddr,
        /// Why.
        why: Unbound,
    },
    /// The system's waiting for sockets failed, or its clock.
    #[error("waiting for peers failed")]
    Wait,
    /// Memory ran out.
    #[error("memory ran out")]
    Memory,
    /// The log of the orders failed: nothing that waited was answered.
    #[error("the log failed")]
    Log,
}

impl From<AllocError> for LoopFault {
    fn from(_fault: AllocError) -> LoopFault {
        LoopFault::Memory
    }
}

impl<T: Drop> From<AllocFailed<T>> for LoopFault {
    fn from(_fault: AllocFailed<T>) -> LoopFault {
        LoopFault::Memory
    }
}

impl Unbound {
    /// Why the system refused an address.
    pub fn of(kind: ErrorKind) -> Unbound {
        match kind {
            ErrorKind::AddrInUse => Unbound::Taken,
            ErrorKind::AddrNotAvailable => Unbound::Elsewhere,
            ErrorKind::PermissionDenied => Unbound::Denied,
            _ => Unbound::Other,
        }
    }
}
