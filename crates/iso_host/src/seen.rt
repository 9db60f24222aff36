//! Bytes that came and that only proofs read. They take no memory, and nothing happens to them at run time.
ghost use Rattle.std.specs.Prelude.{◌≡◌, ℕ, List, [], ◌++◌};
ghost use Rattle.std.specs.Borrow.{ftrue};

use std::marker::Model;

/// The bytes that came. A clause reads them as `bytes`.
#[derive(Drop)]
pub struct Seen {
    pub ghost bytes: { List ℕ },
}

impl Model for Seen {
    ghost also_owns = { λ _. ftrue };
}

impl Seen {
    /// None yet.
    pub fn none() -> Seen
        ensures { result.bytes ≡ [] }
    {
        Seen {}
    }

    /// The bytes so far, and then these.
    pub fn then(&self, _piece: &[u8]) -> Seen
        ensures { result.bytes ≡ self.now.bytes ++ _piece.now }
    {
        Seen {}
    }
}
