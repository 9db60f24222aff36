//! Why a run ends before its time.
ghost use Rattle.std.specs.Prelude.{◌≡◌};
ghost use Rattle.iso_traffic.specs.declared.fault.TrafficFault.TheVariants.{Memory};
ghost use Rattle.iso_traffic.specs.Fault.{of_frames};

use iso_frames::FramesFault;
use iso_plan::PlanFault;
use iso_wire::PackFault;
use std::alloc::{AllocError, AllocFailed};
use thiserror::Error;

/// Why a run ends before its time. What it had done stands: the transactions that its notes leave open are for the next
/// run.
#[derive(Clone, Copy, Debug, PartialEq, Eq, Drop, Error)]
pub enum TrafficFault {
    /// The plan can't be run.
    #[error("{0}")]
    Plan(PlanFault),
    /// The table can't write a request.
    #[error("the table can't write a request: {0}")]
    Unwritten(PackFault),
    /// The header can't count a request.
    #[error("a request is too long for its header")]
    TooLong,
    /// The system's waiting for sockets failed, or its clock.
    #[error("waiting for the host failed")]
    Wait,
    /// The log of the notes failed.
    #[error("the journal of the transactions failed")]
    Notes,
    /// Memory ran out.
    #[error("memory ran out")]
    Memory,
}

impl From<AllocError> for TrafficFault {
    ghost from_gives = { λ _ e. e ≡ Memory };

    fn from(_: AllocError) -> TrafficFault {
        TrafficFault::Memory
    }
}

impl<T: Drop> From<AllocFailed<T>> for TrafficFault {
    ghost from_gives = { λ _ e. e ≡ Memory };

    fn from(_: AllocFailed<T>) -> TrafficFault {
        TrafficFault::Memory
    }
}

impl From<FramesFault> for TrafficFault {
    ghost from_gives = { λ fault e. e ≡ of_frames fault };

    fn from(fault: FramesFault) -> TrafficFault {
        match fault {
            FramesFault::Unwritten(fault) => TrafficFault::Unwritten(fault),
            FramesFault::TooLong => TrafficFault::TooLong,
            FramesFault::Memory => TrafficFault::Memory,
        }
    }
}
