//! When a peer is read from, and when it is closed.

ghost use Rattle.std.specs.Prelude.{◌≡◌, ◌↔◌, ◌<◌, true};
ghost use Rattle.iso_script_peers.specs.Standing.{is_full, is_done};

/// What a host with rules allows its peers.
#[derive(Clone, Copy, Debug, PartialEq, Eq)]
pub struct Bounds {
    /// How many peers may be connected at once.
    pub peers: usize,
    /// From so many waiting bytes on a peer isn't read from.
    pub waiting: usize,
}

impl Bounds {
    /// Whether one more peer is let in beside so many.
    pub fn lets_in(&self, count: usize) -> bool
        // It is true exactly beside fewer peers than are allowed.
        ensures { (result ≡ true) ↔ (count < self.now.peers) }
    {
        count < self.peers
    }

    /// Whether nothing is taken of a peer: so many bytes wait for it, and so many are held back.
    pub fn is_full(&self, waiting: usize, held: usize) -> bool
        // It is true exactly where the bytes that wait and those held back
        // together reach the bound.
        ensures { result ≡ is_full self.now waiting held }
    {
        waiting >= self.waiting || held >= self.waiting - waiting
    }
}

/// How a peer stands.
#[derive(Clone, Copy, Debug, PartialEq, Eq)]
pub enum Standing {
    /// Frames are taken of it.
    Open,
    /// Nothing more comes of it: it is open until it has all its answers.
    Ended,
    /// A rule cuts it: it is open until the answers before are written, as far as it takes them now.
    Cut,
    /// It is closed.
    Closed,
}

/// Whether a peer is closed now that stands so, for which so many bytes wait and so many are held back, and which takes bytes
/// or not.
pub fn is_done(standing: Standing, waiting: usize, held: usize, takes: bool) -> bool
    // An open peer isn't closed; one that ended is once no byte waits or is held back; one that is
    // cut is once none waits or it takes none now; a closed one is.
    ensures { result ≡ is_done standing waiting held takes }
{
    match standing {
        Standing::Open => false,
        Standing::Ended => waiting == 0 && held == 0,
        Standing::Cut => waiting == 0 || !takes,
        Standing::Closed => true,
    }
}
