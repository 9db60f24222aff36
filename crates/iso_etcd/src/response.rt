//! What came of a request.
use crate::append::Cause;

/// A response.
#[derive(Debug, Drop)]
pub struct Response {
    /// Its status.
    pub status: u16,
    /// Its body.
    pub body: Vec<u8>,
}

/// Why there is no response.
#[derive(Clone, Copy, Debug, PartialEq, Eq, Drop)]
pub enum Loss {
    /// Nothing of the request was sent.
    Unsent(Cause),
    /// The connection was lost, or the response took too long: the request may have arrived.
    Lost,
    /// Memory ran out: the request may have arrived.
    Memory,
}
