//! Counts of calls that only proofs read. They take no memory, and nothing happens to them at run time.
ghost use Rattle.std.specs.Prelude.{◌≡◌};
ghost use Rattle.std.specs.Borrow.{ftrue};
ghost use Rattle.iso_host.specs.Counts.{Counts, none_yet};

use std::marker::Model;

/// What one call of a stream did.
#[derive(Clone, Copy, Debug, PartialEq, Eq, Drop)]
pub enum Call {
    /// A read gave so many bytes.
    Read(usize),
    /// A write took so many bytes.
    Wrote(usize),
    /// A read or a write failed, and moved nothing.
    Failed,
    /// A flush passed on all that was written.
    Flushed,
    /// A flush failed, which is no read and no write.
    FlushFailed,
}

/// The calls that a stream has had, as contracts count them. A clause reads them as `counts`.
#[derive(Drop)]
pub struct Tally {
    pub ghost counts: { Counts },
}

impl Model for Tally {
    ghost also_owns = { λ _. ftrue };
}

impl Tally {
    ghost use Rattle.iso_host.specs.Counting.{counts_after};

    /// No call yet.
    pub fn new() -> Tally
        ensures { result.counts ≡ none_yet }
    {
        Tally {}
    }

    /// The calls so far, and then this one.
    pub fn then(&self, _call: &Call) -> Tally
        ensures { result.counts ≡ counts_after self.now.counts _call.now }
    {
        Tally {}
    }
}
