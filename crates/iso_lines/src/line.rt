//! One of the lines that a host listens on.
ghost use Rattle.std.specs.Prelude.{◌≡◌};
ghost use Rattle.iso_lines.specs.Guarded.{is_guarded};

use iso_host::Link;
use iso_links::Terms;

/// One of the lines that a host listens on: how its peers write, and what they are allowed.
#[derive(Clone, Copy)]
pub struct Line<'l> {
    /// The table and the header of its peers.
    pub link: &'l Link,
    /// What is agreed on.
    pub terms: &'l Terms,
}

impl Line<'_> {
    /// Whether frames are looked at before the host is given them: bytes stand before each message, or only some acquirers
    /// may be spoken for.
    pub fn is_guarded(&self) -> bool
        ensures { result ≡ is_guarded self.now.terms.now }
    {
        self.terms.skip > 0 || !self.terms.acquirers.is_empty()
    }
}
