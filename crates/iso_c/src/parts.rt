//! Where values lie.

/// Where the value of an element lies: so many bytes from `start` on.
#[repr(C)]
#[derive(Clone, Copy, Debug, PartialEq, Eq)]
pub struct RumpadolPart {
    /// The element, or 0.
    pub element: u32,
    /// The offset of the first byte.
    pub start: usize,
    /// How many bytes there are.
    pub length: usize,
}

/// What a message is besides its elements.
#[repr(C)]
#[derive(Clone, Copy, Debug, PartialEq, Eq)]
pub struct RumpadolMessage {
    /// Its type: the number of four digits.
    pub mti: u32,
    /// How many parts it has.
    pub parts: usize,
    /// How many bytes its values have.
    pub values: usize,
}
