//! A histogram of the times that answers took.
ghost use Rattle.std.specs.Prelude.{◌≡◌, count_by, nat_lt, IfOk};
ghost use Rattle.std.specs.List.Sorted.{IsNonDecreasing};
ghost use Rattle.iso_tally.specs.Histogram.{bucket_of, buckets_from, is_in};

use std::alloc::{AllocError, Global};

/// Where the buckets of a histogram end, in microseconds; behind the last of them one more has no end.
pub const BOUNDS: [u64; 19] = [
    10, 20, 50, 100, 200, 500, 1_000, 2_000, 5_000, 10_000, 20_000, 50_000, 100_000, 200_000,
    500_000, 1_000_000, 2_000_000, 5_000_000, 10_000_000,
];

/// How many answers took so long.
#[derive(Clone, Copy, Debug, PartialEq, Eq)]
pub struct Bucket {
    /// At least so many microseconds.
    pub from: u64,
    /// Less than so many microseconds; without a bound, where there is none.
    pub below: Option<u64>,
    /// How many took so long.
    pub count: usize,
}

/// How many of the sorted values are below a bound.
fn count_below(sorted: &[u64], bound: u64) -> usize
    requires sorted { IsNonDecreasing sorted.now }
    ensures { result ≡ count_by (λ v. nat_lt v bound) sorted.now }
{
    sorted.partition_point(
        |value: &u64| -> bool
            ensures { result ≡ nat_lt value.now bound }
        { *value < bound },
    )
}

/// How many of the sorted values are in a bucket.
fn count_in(sorted: &[u64], from: u64, below: Option<u64>) -> usize
    requires sorted { IsNonDecreasing sorted.now }
    ensures { result ≡ count_by (is_in from below) sorted.now }
{
    let before = count_below(sorted, from);
    let Some(bound) = below else {
        return sorted.len().saturating_sub(before);
    };
    count_below(sorted, bound).saturating_sub(before)
}

/// A bucket with the count of all of the sorted values that are in it.
fn bucket_of(sorted: &[u64], from: u64, below: Option<u64>) -> Bucket
    requires sorted { IsNonDecreasing sorted.now }
    ensures { result ≡ bucket_of sorted.now from below }
{
    let count = count_in(sorted, from, below);
    Bucket { from, below, count }
}

/// The buckets of sorted values between these bounds, the first of which begins with 0.
pub(crate) fn buckets_between(
    alloc: Global,
    sorted: &[u64],
    bounds: &[u64],
) -> Result<Vec<Bucket>, AllocError>
    requires sorted { IsNonDecreasing sorted.now }
    ensures { IfOk result (λ b. b.items ≡ buckets_from 0 bounds.now sorted.now) }
{
    let mut buckets = Vec::new(alloc);
    let mut from = 0;
    for bound in bounds {
        buckets.push(bucket_of(sorted, from, Some(*bound)))?;
        from = *bound;
    }
    buckets.push(bucket_of(sorted, from, None))?;
    Ok(buckets)
}
