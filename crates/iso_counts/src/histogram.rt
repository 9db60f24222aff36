//! How long something took, counted by buckets.
ghost use Rattle.std.specs.Prelude.{◌≡◌, nat_le, position};
ghost use Rattle.iso_counts.specs.Counting.{added_to, bucket_of};

use crate::counting::count_at;

/// The bounds of the buckets, in microseconds. What is above all of them falls into one more.
pub const BOUNDS: [u64; 12] = [
    100, 250, 500, 1_000, 2_500, 5_000, 10_000, 25_000, 50_000, 100_000, 250_000, 1_000_000,
];

/// The same bounds as text, in seconds.
pub const SECONDS: [&str; 12] = [
    "0.0001", "0.00025", "0.0005", "0.001", "0.0025", "0.005", "0.01", "0.025", "0.05", "0.1",
    "0.25", "1",
];

/// The number of buckets.
pub const BUCKETS: usize = BOUNDS.len() + 1;

/// How long something took, counted by buckets.
#[derive(Clone, Copy, Debug, PartialEq, Eq)]
pub struct Histogram {
    /// How many values fell into each bucket, and into no earlier one.
    pub counts: [u64; BUCKETS],
    /// The sum of all values, in microseconds.
    pub sum: u64,
}

/// The first bound that is at least a value, if one is.
fn bound_at(bounds: &[u64], micros: u64) -> Option<usize>
    ensures { result ≡ position (λ bound. nat_le micros bound) bounds.now }
{
    bounds.iter().position(|bound| micros <= *bound)
}

/// The bucket of a value: that of the first bound that is at least the value, or the last one.
fn bucket_of(bounds: &[u64], micros: u64) -> usize
    ensures { result ≡ bucket_of bounds.now micros }
{
    bound_at(bounds, micros).unwrap_or(bounds.len())
}

impl Histogram {
    /// Without a value.
    pub const NONE: Histogram = Histogram {
        counts: [0; BUCKETS],
        sum: 0,
    };

    /// Adds a value, in microseconds.
    pub fn add(&mut self, micros: u64)
        // The first bucket whose bound is at least the value has one more, and the others stay.
        ensures { self.new ≡ added_to self.old micros }
    {
        count_at(&mut self.counts, bucket_of(&BOUNDS, micros));
        self.sum = self.sum.saturating_add(micros);
    }

    /// How many values were added.
    pub fn count(&self) -> u64 {
        let mut count = 0u64;
        for bucket in &self.counts {
            count = count.saturating_add(*bucket);
        }
        count
    }
}
