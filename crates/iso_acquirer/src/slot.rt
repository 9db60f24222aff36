//! What an acquirer keeps under a trace number.

use iso_order::Order;

/// How far a transaction got.
#[derive(Clone, Copy)]
pub enum Stage {
    /// Its order was sent so many times, and no answer decided it.
    Waiting(u8),
    /// Its reversal, of this trace number, was sent, and no answer granted it.
    Reversing(u32),
    /// It was granted.
    Approved,
    /// It was refused with that code.
    Declined(u8),
    /// Its reversal, of this trace number, was granted.
    Reversed(u32),
}

/// What an order of an acquirer is.
#[derive(Clone, Copy)]
pub enum Role {
    /// A transaction's own order, and how far the transaction got.
    Transaction(Stage),
    /// The reversal of the transaction of that trace number.
    Reversal(u32),
}

/// What an acquirer keeps under a trace number: an order that it made.
#[derive(Clone, Copy)]
pub struct Slot {
    pub order: Order,
    pub role: Role,
}
