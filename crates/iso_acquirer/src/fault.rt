//! Why a call was refused.

ghost use Rattle.std.specs.Prelude.{◌≡◌};
ghost use Rattle.iso_acquirer.specs.declared.fault.AcqFault.TheVariants as acquirer;
ghost use Rattle.iso_acquirer.specs.declared.fault.StepFault.TheVariants as step;
ghost use Rattle.iso_acquirer.specs.FaultNumbers.{acquirer_fault_number, step_fault_number};

use iso_issuer::Refused;
use std::alloc::AllocError;
use thiserror::Error;

/// Why an acquirer refused a call. It changed nothing.
#[derive(Clone, Copy, Debug, PartialEq, Eq, Error)]
pub enum AcqFault {
    /// All trace numbers up to 999,999 are used.
    #[error("no trace number is left")]
    NoMoreTrace,
    /// There was no memory for another transaction.
    #[error("memory ran out")]
    Memory,
    /// There is no such transaction.
    #[error("no such transaction")]
    NoSuch,
    /// The transaction is closed.
    #[error("the transaction is closed")]
    Closed,
}

/// Why a step was not made. It changed nothing.
#[derive(Clone, Copy, Debug, PartialEq, Eq, Error)]
pub enum StepFault {
    /// There is no such sent order or given answer.
    #[error("no such order or answer")]
    NoSuch,
    /// An order of others has this acquirer's number.
    #[error("an order of others has this acquirer's number")]
    OwnKey,
    /// The acquirer refused.
    #[error("the acquirer refused")]
    Acquirer(AcqFault),
    /// The issuer refused.
    #[error("the issuer refused")]
    Issuer(Refused),
    /// There was no memory to keep what is sent or given.
    #[error("memory ran out")]
    Memory,
}

impl AcqFault {
    /// The fault's number, as logs and monitors show it: 1 `NoMoreTrace`, 2 `Memory`, 3 `NoSuch`,
    /// 4 `Closed`.
    pub fn number(&self) -> u8
        ensures { result ≡ acquirer_fault_number self.now }
    {
        match self {
            AcqFault::NoMoreTrace => 1,
            AcqFault::Memory => 2,
            AcqFault::NoSuch => 3,
            AcqFault::Closed => 4,
        }
    }
}

impl StepFault {
    /// The fault's number, as logs and monitors show it: 1 `NoSuch`, 2 `OwnKey`, 3 `Acquirer`,
    /// 4 `Issuer`, 5 `Memory`.
    pub fn number(&self) -> u8
        ensures { result ≡ step_fault_number self.now }
    {
        match self {
            StepFault::NoSuch => 1,
            StepFault::OwnKey => 2,
            StepFault::Acquirer(_) => 3,
            StepFault::Issuer(_) => 4,
            StepFault::Memory => 5,
        }
    }
}

impl From<AllocError> for AcqFault {
    ghost from_gives = { λ _ e. e ≡ acquirer.Memory };

    fn from(_e: AllocError) -> AcqFault {
        AcqFault::Memory
    }
}

impl From<AllocError> for StepFault {
    ghost from_gives = { λ _ e. e ≡ step.Memory };

    fn from(_e: AllocError) -> StepFault {
        StepFault::Memory
    }
}
