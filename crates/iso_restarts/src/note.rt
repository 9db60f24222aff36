//! What an acquirer writes down.

use iso_order::{Order, TxKey};

/// What an acquirer writes down: all that its state follows from, in the order in which it happened.
#[derive(Clone, Copy, Debug)]
pub enum Note {
    /// A payment began, and this is its order.
    Begun(Order),
    /// No answer came in time to the transaction of that trace number.
    TimedOut(u32),
    /// An order of that key got an answer of that code.
    Told(TxKey, u8),
}
