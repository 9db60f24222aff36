//! What an acquirer knows of a transaction.

/// What an acquirer knows of a transaction. It is closed where it is approved, declined or reversed.
#[derive(Clone, Copy, Debug, PartialEq, Eq)]
pub enum State {
    /// Its order was sent so many times, once or twice, and no answer decided it.
    Waiting(u8),
    /// Its reversal was sent, and no answer granted it.
    Reversing,
    /// It was granted.
    Approved,
    /// It was refused with that code (element 39).
    Declined(u8),
    /// Its reversal was granted.
    Reversed,
}
