//! How long the answers of a run took.
ghost use Rattle.std.specs.Prelude.{◌≡◌, ◌==◌, ◌++◌, ◌∷◌, ℕ, List, [], length, IfNone, IfOk, IfSome, OnErr, OnOk};
ghost use Rattle.std.specs.List.Sorted.{IsNonDecreasing, IsPermutation};
ghost use Rattle.iso_tally.specs.Histogram.{buckets_from, counted};
ghost use Rattle.iso_tally.specs.Percentile.{IsSummary};
ghost use Rattle.iso_tally.specs.declared.bucket.TheConstants.{BOUNDS};

use crate::bucket::{BOUNDS, Bucket, buckets_between};
use crate::summary::{Summary, summary_of};
use std::alloc::{AllocError, Global};
use std::marker::Model;

/// How long answers took, in microseconds each. A contract sees the list of them, in the order in which they were added.
#[derive(Drop)]
pub struct Latencies {
    values: Vec<u64>,
}

impl Model for Latencies {
    ghost Value = { List ℕ };

    ghost view = { λ l. l.values.items };
}

/// Sorts values, the least first.
fn sort(values: &mut Vec<u64>)
    ensures same { IsPermutation values.old.items values.new.items }
    ensures len { length values.new.items ≡ length values.old.items }
    ensures sorted { IsNonDecreasing values.new.items }
{
    values.sort_unstable();
}

impl Latencies {
    /// Without a value. Takes no memory.
    pub fn new(alloc: Global) -> Latencies
        ensures { result ≡ [] }
    {
        Latencies {
            values: Vec::new(alloc),
        }
    }

    /// How many values were added.
    pub fn len(&self) -> usize
        ensures { result ≡ length self.now }
    {
        self.values.len()
    }

    /// Whether no value was added.
    pub fn is_empty(&self) -> bool
        ensures { result ≡ (length self.now == 0) }
    {
        self.values.is_empty()
    }

    /// Adds a value, in microseconds. After an `Err` the values are as before.
    pub fn add(&mut self, micros: u64) -> Result<(), AllocError>
        // Memory aside, the value stands behind those before it.
        ensures added { OnOk result (self.new ≡ self.old ++ micros ∷ []) }
        // Without memory no value is added.
        ensures unchanged { OnErr result (self.new ≡ self.old) }
    {
        self.values.push(micros)?;
        Ok(())
    }

    /// The percentiles of the values; `None` where there are none. The values are sorted by it. Takes no memory.
    pub fn summary(&mut self) -> Option<Summary>
        // Each percentile is one of the values: at least its share of all is at most it, and less
        // is below it. The least and the most are values, and none is beyond them.
        ensures summary { IfSome result (IsSummary self.old) }
        // There is no summary only where no value was added.
        ensures none { IfNone result (length self.old ≡ 0) }
        // The values stay the same, but for their order.
        ensures same { IsPermutation self.old self.new }
    {
        sort(&mut self.values);
        summary_of(&self.values)
    }

    /// The buckets of a histogram of the values, which end at `BOUNDS`: each with the count of all values in it. The values are
    /// sorted by it.
    pub fn buckets(&mut self, alloc: Global) -> Result<Vec<Bucket>, AllocError>
        // Memory aside, the buckets stand in a row from 0 on, each with the count of all values
        // that are at least its beginning and below its bound.
        ensures buckets { IfOk result (λ b. b.items ≡ buckets_from 0 BOUNDS self.old) }
        // Memory aside, the buckets together count every value once.
        ensures all { IfOk result (λ b. counted b.items ≡ length self.old) }
        // The values stay the same, but for their order.
        ensures same { IsPermutation self.old self.new }
    {
        sort(&mut self.values);
        buckets_between(alloc, &self.values, &BOUNDS)
    }
}
