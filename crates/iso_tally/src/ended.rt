//! How far the transactions of a run got.
ghost use Rattle.std.specs.Prelude.{◌≡◌, min, sum_by};

/// Purchases that were declined with one code.
#[derive(Clone, Copy, Debug, PartialEq, Eq)]
pub struct Declined {
    /// The response code (element 39).
    pub code: u8,
    /// How many purchases.
    pub count: usize,
}

/// How far the transactions of a run got.
#[derive(Drop, Debug)]
pub struct Ended {
    /// Purchases that were granted.
    pub approved: usize,
    /// Purchases that were refused, by their codes, the least first. A code that no answer had isn't listed.
    pub declined: Vec<Declined>,
    /// Purchases that got no answer in time, and whose reversal was granted.
    pub reversed: usize,
    /// Transactions that are still open.
    pub open: usize,
}

impl Ended {
    /// How many purchases were declined, up to the greatest `usize`.
    pub fn all_declined(&self) -> usize
        ensures { result
            ≡ min (sum_by (λ d. d.count) self.now.declined.items) 18446744073709551615 }
    {
        let mut count = 0usize;
        for of in &self.declined {
            count = count.saturating_add(of.count);
        }
        count
    }
}
