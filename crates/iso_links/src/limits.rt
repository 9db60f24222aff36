//! What a host allows its peers.
ghost use Rattle.std.specs.Prelude.{◌≡◌, ◌↔◌, ◌<◌, true};

/// What a host allows its peers.
#[derive(Clone, Copy, Debug, PartialEq, Eq)]
pub struct Limits {
    /// How many peers may be connected at once.
    pub peers: usize,
    /// After so many seconds in which nothing comes a peer is closed.
    pub idle: u32,
    /// After so many seconds a peer is closed whose frame isn't whole.
    pub frame: u32,
    /// After so many seconds a peer is closed that takes none of the bytes that wait for it.
    pub unread: u32,
    /// From so many waiting bytes on a peer isn't read from.
    pub waiting: usize,
    /// How many bytes of a peer are read in one turn.
    pub share: usize,
}

impl Limits {
    /// What suits a first run.
    pub const DEFAULT: Limits = Limits {
        peers: 1_000,
        idle: 600,
        frame: 30,
        unread: 30,
        waiting: 1_048_576,
        share: 65_536,
    };

    /// Whether one more peer is let in beside so many.
    pub fn lets_in(&self, count: usize) -> bool
        // It is true exactly beside fewer peers than are allowed.
        ensures { (result ≡ true) ↔ (count < self.now.peers) }
    {
        count < self.peers
    }
}
