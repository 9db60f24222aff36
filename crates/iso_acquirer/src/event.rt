//! What may happen between both ends.

use iso_order::{Answer, Order, Pan, TxKey};

/// An answer that the issuer gave, and the key to which it gave it.
#[derive(Clone, Copy, Debug)]
pub struct Given {
    pub key: TxKey,
    pub answer: Answer,
}

/// What may happen between both ends. Orders and answers that are lost, repeated or late are so by the events
/// that are played, and in which order.
#[derive(Clone, Copy, Debug)]
pub enum Event {
    /// The acquirer begins a debit, and sends its order.
    Begin {
        pan: Pan,
        /// In minor units.
        amount: u64,
        /// Three letters or digits.
        currency: [u8; 3],
        /// The transmission date and time, as a number of ten digits.
        sent: u64,
    },
    /// No answer came in time to the transaction of that trace number: the acquirer sends again, or reverses.
    Timeout(u32),
    /// The issuer gets the order that was sent at that place, from 0 on, and answers it.
    Deliver(usize),
    /// The acquirer gets the answer that was given at that place, from 0 on.
    Answer(usize),
    /// The issuer gets an order of another acquirer.
    Other(Order),
}
