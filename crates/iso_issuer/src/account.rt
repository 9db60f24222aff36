//! One account.

ghost use Rattle.iso_issuer.specs.Opening.{IsInRange};

use iso_order::Pan;

/// An account, and what is on it at first.
#[derive(Clone, Copy)]
pub struct Account {
    /// Its number.
    pub pan: Pan,
    /// Three letters or digits.
    pub currency: [u8; 3],
    /// In minor units, at most 9,000,000,000,000,000 either way.
    pub opening: i64,
    pub ghost in_range: { IsInRange opening },
}
