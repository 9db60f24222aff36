//! How far the transactions got that aren't purchases.
ghost use Rattle.std.specs.Prelude.{◌↔◌, IsTrue};
ghost use Rattle.iso_tally.specs.Mixed.{AreAllAnswered};

use iso_mix::{Counts, Mix};

/// How far the transactions of a mix got that aren't purchases.
#[derive(Clone, Copy, Debug, PartialEq, Eq)]
pub struct Mixed {
    /// How many of a hundred were to be of each kind.
    pub mix: Mix,
    /// The holds.
    pub holds: Counts,
    /// The completions.
    pub completions: Counts,
    /// The inquiries.
    pub inquiries: Counts,
    /// The partial reversals.
    pub undone: Counts,
}

impl Mixed {
    /// Whether each order has its answer.
    pub fn is_closed(&self) -> bool
        ensures { IsTrue result ↔ AreAllAnswered self.now }
    {
        self.holds.waiting == 0
            && self.completions.waiting == 0
            && self.inquiries.waiting == 0
            && self.undone.waiting == 0
    }
}
