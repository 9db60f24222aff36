//! What the peers of a line are at.

/// What the peers of a line are at, all together.
#[derive(Clone, Copy, PartialEq, Eq)]
pub(crate) struct Tally {
    /// How many are connected.
    pub peers: usize,
    /// How many bytes came in this turn.
    pub came: u64,
    /// How many bytes were written in this turn.
    pub went: u64,
}

/// A line without peers.
pub(crate) const NO_PEERS: Tally = Tally {
    peers: 0,
    came: 0,
    went: 0,
};
