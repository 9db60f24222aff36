//! What a front allows.

ghost use Rattle.std.specs.Prelude.{◌↔◌, ◌≡◌, ◌<◌, ◌≤◌, ◌+◌, true};

/// What a front allows its acquirers.
#[derive(Clone, Copy, Debug, PartialEq, Eq)]
pub struct Bounds {
    /// How many acquirers may be connected at once.
    pub acquirers: usize,
    /// From so many waiting bytes on nothing more is taken that would add to them.
    pub waiting: usize,
    /// An acquirer is closed of which nothing came for so many milliseconds.
    pub idle: u64,
}

impl Bounds {
    /// Whether one more acquirer is let in beside so many.
    pub fn lets_in(&self, count: usize) -> bool
        // One more acquirer is let in exactly where fewer are connected than may be.
        ensures { (result ≡ true) ↔ (count < self.now.acquirers) }
    {
        count < self.acquirers
    }

    /// Whether nothing more is taken for a connection for which so many bytes wait.
    pub fn is_full(&self, waiting: usize) -> bool
        // Nothing more is taken exactly where as many bytes wait as the bound says, or more.
        ensures { (result ≡ true) ↔ (self.now.waiting ≤ waiting) }
    {
        self.waiting <= waiting
    }

    /// Whether an acquirer is closed of which something came last at one moment, at another one.
    pub fn is_over(&self, last: u64, now: u64) -> bool
        // An acquirer is closed exactly where it was silent for as long as is allowed, or longer.
        ensures { (result ≡ true) ↔ (last + self.now.idle ≤ now) }
    {
        match now.checked_sub(last) {
            Some(since) => self.idle <= since,
            None => false,
        }
    }
}
