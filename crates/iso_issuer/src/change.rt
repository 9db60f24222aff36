//! Changes of balances.

ghost use Rattle.iso_issuer.specs.Change.{IsAmount};

use iso_order::Pan;

/// What is added on an account.
#[derive(Clone, Copy)]
pub struct Change {
    pub pan: Pan,
    /// To the ledger.
    pub ledger: i64,
    /// To what is available.
    pub available: i64,
    pub ghost ledger_small: { IsAmount ledger },
    pub ghost available_small: { IsAmount available },
}
