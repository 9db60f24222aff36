//! What an order finds in the journal: each of it is looked up once, before the order is entered.

use crate::journal::Entry;

/// An entry whose weight an order may change.
#[derive(Clone, Copy)]
pub struct Touched {
    pub entry: Entry,
    /// What the first reversal of it leaves.
    pub left: Option<u64>,
    /// Its weight.
    pub weight: u64,
}

/// What an order finds.
#[derive(Clone, Copy)]
pub struct Found {
    /// What the first reversal of its own key leaves. It is not looked for where the order is a reversal.
    pub left: Option<u64>,
    /// The entry that it reverses.
    pub reversed: Option<Touched>,
    /// The hold that it ends, or gives back by reversing what ended it.
    pub released: Option<Touched>,
}
