//! Why there are no accounts, and why an order was not taken.

ghost use Rattle.std.specs.Prelude.{◌≡◌};
ghost use Rattle.iso_issuer.specs.declared.fault.AccountsFault.TheVariants as accounts;
ghost use Rattle.iso_issuer.specs.declared.fault.Refused.TheVariants as refused;
ghost use Rattle.iso_issuer.specs.FaultNames.{accounts_fault_name, accounts_fault_account};
ghost use Rattle.iso_issuer.specs.FaultNumbers.{accounts_fault_number, refused_number};

use std::alloc::{AllocError, AllocFailed};
use thiserror::Error;

/// What is wrong with a document of accounts: the first fault. Accounts are counted from 0.
#[derive(Clone, Copy, Debug, PartialEq, Eq, Error)]
pub enum AccountsFault {
    /// The text is no JSON.
    #[error("the text is no JSON")]
    NotJson,
    /// The text is JSON of another shape.
    #[error("a member is missing, unknown or of another kind")]
    Shape,
    /// An earlier account has this one's number.
    #[error("account {0} has the number of an earlier one")]
    Twice(usize),
    /// This account's opening amount is over 9,000,000,000,000,000 minor units, either way.
    #[error("account {0} has an opening amount out of range")]
    OutOfRange(usize),
    /// Memory ran out.
    #[error("memory ran out")]
    Memory,
}

/// Why an order was not taken. It changed nothing.
#[derive(Clone, Copy, Debug, PartialEq, Eq, Error)]
pub enum Refused {
    /// The journal is at its limit, and the order has a new key.
    #[error("the journal is full")]
    Full,
    /// There was no memory for an order with a new key.
    #[error("memory ran out")]
    Memory,
}

impl AccountsFault {
    /// The fault's number, as logs and monitors show it: 1 `NotJson`, 2 `Shape`, 3 `Twice`,
    /// 4 `OutOfRange`, 5 `Memory`.
    pub fn number(&self) -> u8
        ensures { result ≡ accounts_fault_number self.now }
    {
        match self {
            AccountsFault::NotJson => 1,
            AccountsFault::Shape => 2,
            AccountsFault::Twice(_) => 3,
            AccountsFault::OutOfRange(_) => 4,
            AccountsFault::Memory => 5,
        }
    }

    /// The fault's name, as fault lines tell it.
    pub fn name(&self) -> &'static str
        ensures { result.now ≡ accounts_fault_name self.now }
    {
        match self {
            AccountsFault::NotJson => "NotJson",
            AccountsFault::Shape => "Shape",
            AccountsFault::Twice(_) => "Twice",
            AccountsFault::OutOfRange(_) => "OutOfRange",
            AccountsFault::Memory => "Memory",
        }
    }

    /// The account that the fault names, counted from 0, if it names one.
    pub fn account(&self) -> Option<usize>
        ensures { result ≡ accounts_fault_account self.now }
    {
        match self {
            AccountsFault::Twice(i) | AccountsFault::OutOfRange(i) => Some(*i),
            AccountsFault::NotJson | AccountsFault::Shape | AccountsFault::Memory => None,
        }
    }
}

impl Refused {
    /// The fault's number, as logs and monitors show it: 1 `Full`, 2 `Memory`.
    pub fn number(&self) -> u8
        ensures { result ≡ refused_number self.now }
    {
        match self {
            Refused::Full => 1,
            Refused::Memory => 2,
        }
    }
}

impl From<AllocError> for AccountsFault {
    ghost from_gives = { λ _ e. e ≡ accounts.Memory };

    fn from(_e: AllocError) -> AccountsFault {
        AccountsFault::Memory
    }
}

impl<T: Drop> From<AllocFailed<T>> for AccountsFault {
    ghost from_gives = { λ _ e. e ≡ accounts.Memory };

    fn from(_e: AllocFailed<T>) -> AccountsFault {
        AccountsFault::Memory
    }
}

impl From<AllocError> for Refused {
    ghost from_gives = { λ _ e. e ≡ refused.Memory };

    fn from(_e: AllocError) -> Refused {
        Refused::Memory
    }
}
