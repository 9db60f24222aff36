//! What an answer came to.

use iso_acquirer::State;

/// What an answer came to.
#[derive(Clone, Copy, Debug, PartialEq, Eq)]
pub enum Heard {
    /// The transaction of that trace number, which was open, is closed by it: approved, declined or reversed.
    Closed { stan: u32, state: State },
    /// It is an answer to an order of this acquirer, and says nothing new: it came late or again, or leaves the
    /// transaction open.
    Known,
    /// This acquirer made no order of that key.
    Foreign,
}
