//! What is asked, as it is drawn.

use iso_order::Money;

/// What is asked, as it is drawn.
#[derive(Clone, Copy, Debug)]
pub struct Draft {
    /// The place of the account.
    pub place: usize,
    /// The account, the amount of a hold, and the currency.
    pub money: Money,
    /// From it the part is drawn that follows a hold.
    pub share: u64,
    /// The transmission date and time (element 7).
    pub sent: u64,
    /// The acquirer's number (element 32).
    pub acquirer: u64,
    /// Trace numbers up to this one are others'.
    pub highest: u32,
}
