//! How messages lie in an input, and in an output.

use iso_wire::Header;

/// How messages lie in an input, and in an output.
#[derive(Clone, Copy, Debug, PartialEq, Eq)]
pub struct Form {
    /// Whether the bytes are written as hexadecimal digits.
    pub is_hex: bool,
    /// The header of frames, if the messages stand in frames. Else there is one message, and nothing else.
    pub header: Option<Header>,
    /// How many bytes stand before the type of each message, as a TPDU.
    pub skip: usize,
}
