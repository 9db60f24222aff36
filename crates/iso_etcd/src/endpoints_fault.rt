//! Why a text doesn't say where a journal is kept.
use std::alloc::AllocError;
use thiserror::Error;

/// Why a text doesn't say where a journal is kept.
#[derive(Clone, Copy, Debug, PartialEq, Eq, Drop, Error)]
pub enum EndpointsFault {
    /// It doesn't begin with `etcd://`.
    #[error("it doesn't begin with etcd://")]
    Scheme,
    /// No slash stands behind the members.
    #[error("no slash and no name stand behind the members")]
    NoName,
    /// The name isn't 1 to 64 letters, digits, '-', '_' and '.'.
    #[error("the journal's name isn't 1 to 64 letters, digits, '-', '_' and '.'")]
    Name,
    /// The user isn't a name, a colon and a password.
    #[error("the user isn't a name, a colon and a password")]
    User,
    /// A member isn't a host, a colon and a port.
    #[error("a member isn't a host, a colon and a port")]
    Member,
    /// There are more than 16 members.
    #[error("there are more than 16 members")]
    TooMany,
    /// Memory ran out.
    #[error("memory ran out")]
    Memory,
}

impl From<AllocError> for EndpointsFault {
    ghost use Rattle.std.specs.Prelude.{◌≡◌};
    ghost use Rattle.iso_etcd.specs.declared.endpoints_fault.EndpointsFault.TheVariants as faults;

    ghost from_gives = { λ error fault. fault ≡ faults.Memory };

    fn from(_: AllocError) -> EndpointsFault {
        EndpointsFault::Memory
    }
}
