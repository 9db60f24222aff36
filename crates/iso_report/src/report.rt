//! What a run tells at its end.

use crate::settings::Settings;
use iso_tally::{AccountBooks, Bucket, Doubt, Ended, Mixed, Summary, Tally, all_agree};

/// What a run tells at its end.
#[derive(Drop, Debug)]
pub struct Report<'a> {
    /// What it was to do.
    pub settings: Settings<'a>,
    /// What happened to its traffic.
    pub tally: Tally,
    /// How far its transactions got, those of earlier runs with the same notes among them.
    pub ended: Ended,
    /// How far those got that aren't purchases, where a mix was asked.
    pub mixed: Option<Mixed>,
    /// How many answers were timed: those that closed a transaction whose order was sent once.
    pub timed: usize,
    /// Their percentiles, if there were any.
    pub summary: Option<Summary>,
    /// Their histogram.
    pub buckets: Vec<Bucket>,
    /// How long the run took, in microseconds.
    pub micros: u64,
    /// What both ends say of each account, in the order of the document, where that was asked.
    pub books: Option<Vec<AccountBooks>>,
    /// What to look at of the first accounts on which both ends differ.
    pub doubts: Vec<Doubt>,
}

impl Report<'_> {
    /// Whether both ends agree on every account, where that was asked.
    pub fn books_agree(&self) -> Option<bool> {
        match &self.books {
            Some(books) => Some(all_agree(books)),
            None => None,
        }
    }

    /// Whether all transactions are closed: each purchase, and each order that isn't one has its answer.
    pub fn all_closed(&self) -> bool {
        let are_answered = match &self.mixed {
            Some(mixed) => mixed.is_closed(),
            None => true,
        };
        self.ended.open == 0 && are_answered
    }

    /// Whether all transactions are closed, and both ends agree where that was asked.
    pub fn is_good(&self) -> bool {
        self.all_closed() && self.books_agree().unwrap_or(true)
    }
}
